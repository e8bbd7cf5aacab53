//! What the numbers of a cluster mean.
ghost use Rattle.std.specs.Prelude.{◌≡◌, ◌++◌, decimal, IfOk, OnOk};
ghost use Rattle.run_teller.specs.Captions.{nodes_line, answers_line, caption_of};

use lists::NoMemory;
use quorum_rules::Config;
use std::alloc::Global;
use text_lines::Text;

/// Two lines about a cluster.
pub fn caption_of(alloc: Global, config: &Config) -> Result<Vec<Text>, NoMemory>
    ensures { IfOk result (λ caption. caption.items ≡ caption_of config.now) }
{
    let mut nodes = Text::new(alloc);
    add_nodes_line(&mut nodes, config)?;
    let mut answers = Text::new(alloc);
    add_answers_line(&mut answers, config)?;
    let mut caption = Vec::new(alloc);
    caption.push(nodes)?;
    caption.push(answers)?;
    Ok(caption)
}

fn add_nodes_line(text: &mut Text, config: &Config) -> Result<(), NoMemory>
    ensures { OnOk result (text.new ≡ text.old ++ nodes_line config.now) }
{
    text.add(b"nodes: ")?;
    add_count(text, config.n())?;
    text.add(b"; may fail: ")?;
    add_count(text, config.t())?;
    text.add(b"; may lie: ")?;
    add_count(text, config.b())?;
    text.add(b"; fragments that give a block back: ")?;
    add_count(text, config.m())
}

fn add_answers_line(text: &mut Text, config: &Config) -> Result<(), NoMemory>
    ensures { OnOk result (text.new ≡ text.old ++ answers_line config.now) }
{
    text.add(b"answers that a phase waits for: ")?;
    add_count(text, config.wait())?;
    text.add(b"; that make a version complete: ")?;
    add_count(text, config.complete())?;
    text.add(b"; that let a read repair it: ")?;
    add_count(text, config.repairable())
}

fn add_count(text: &mut Text, count: u32) -> Result<(), NoMemory>
    ensures { OnOk result (text.new ≡ text.old ++ decimal count) }
{
    text.add_number(u64::from(count))
}
