ghost use Rattle.std.specs.Prelude.{◌≡◌, ◌∷◌, [], ◌++◌, map, IfOk, IfErr, OnOk};
ghost use Rattle.cross_sum.specs.Digest.{digest};
ghost use Rattle.text_lines.specs.Lines.{text_of_lines};
ghost use Rattle.command_texts.specs.Shown.{fragment_line, fragment_lines, verifier_line, shown_text};
ghost use Rattle.command_texts.specs.Texts.{Writes, Refuses};

use crate::text::Answer;
use crate::{Command, Refusal};
use cross_sum::{Bytes, Hash};
use frag_check::{Summed, code_of, summed_block};
use lists::NoMemory;
use quorum_rules::Config;
use script_text::read_sum;
use std::alloc::Global;
use text_lines::Text;

/// The fragments, digests and verifier of a value.
pub fn sum_of(alloc: Global, input: &Bytes) -> Result<Answer, Refusal>
    ensures text { IfOk result (λ answer. Writes Command.Sum input.now answer.text answer.flaw) }
    ensures refused { IfErr result (λ refusal. Refuses Command.Sum input.now refusal) }
{
    let (config, value) = read_sum(alloc, input.as_slice())?;
    Ok(Answer::of(print_sum(alloc, &config, &value)?))
}

/// The fragments of a block with their digests, one line each, and the block's verifier.
pub fn print_sum(alloc: Global, config: &Config, value: &Bytes) -> Result<Bytes, NoMemory>
    ensures { IfOk result (λ text. text ≡ shown_text config.now.n config.now.m value.now) }
{
    let Summed { shares, sum } = summed_block(alloc, &code_of(config), value)?;
    let mut text = Text::new(alloc);
    add_fragments(&mut text, shares.as_slice(), sum.hashes())?;
    add_verifier(&mut text, &sum.verifier())?;
    text.into_bytes()
}

/// Adds a line for each fragment, with its digest.
fn add_fragments(text: &mut Text, fragments: &[Bytes], hashes: &[Hash]) -> Result<(), NoMemory>
    requires { hashes.now ≡ map digest fragments.now }
    ensures { OnOk result (text.new ≡ text.old ++ text_of_lines (fragment_lines 0 fragments.now)) }
{
    for (i, fragment) in fragments.iter().enumerate() {
        add_fragment(text, i, fragment.as_slice(), &hashes[i])?;
    }
    Ok(())
}

fn add_fragment(
    text: &mut Text,
    number: usize,
    fragment: &[u8],
    hash: &Hash,
) -> Result<(), NoMemory>
    ensures { OnOk result (text.new
        ≡ text.old ++ (fragment_line number fragment.now hash.now ++ 10 ∷ [])) }
{
    text.add_number(number as u64)?;
    text.add_space()?;
    text.add_value(fragment)?;
    text.add_space()?;
    text.add_hex(hash)?;
    text.add_newline()?;
    Ok(())
}

fn add_verifier(text: &mut Text, verifier: &Hash) -> Result<(), NoMemory>
    ensures { OnOk result (text.new ≡ text.old ++ (verifier_line verifier.now ++ 10 ∷ [])) }
{
    text.add(b"verifier ")?;
    text.add_hex(verifier)?;
    text.add_newline()?;
    Ok(())
}
