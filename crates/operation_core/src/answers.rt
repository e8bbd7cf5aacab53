ghost use Rattle.std.specs.Prelude.{◌≡◌, replicate, length, slice_index_or, IfOk, None};
ghost use Rattle.protocol.specs.Operations.{is_answered};

use lists::{Copied, NoMemory};
use std::alloc::Global;
use wire_forms::Reply;

/// A place for the answer of each of so many nodes.
pub(crate) fn no_answers(alloc: Global, count: u32) -> Result<Vec<Option<Reply>>, NoMemory>
    ensures { IfOk result (λ answers. answers.items ≡ replicate count None) }
{
    let mut answers = Vec::with_capacity(alloc, count as usize)?;
    for _ in 0..count {
        answers.push(None)?;
    }
    Ok(answers)
}

/// Lets all answers go.
pub(crate) fn clear(answers: &mut Vec<Option<Reply>>)
    ensures { answers.new.items ≡ replicate (length answers.old.items) None }
{
    for i in 0..answers.len() {
        answers[i] = None;
    }
}

/// Whether there is an answer of the node.
pub(crate) fn is_kept(answers: &[Option<Reply>], node: u8) -> bool
    ensures { result ≡ is_answered (slice_index_or answers.now node None) }
{
    matches!(answers.get(usize::from(node)), Some(Some(_)))
}

/// The same answers again.
pub(crate) fn copied(answers: &Vec<Option<Reply>>) -> Result<Vec<Option<Reply>>, NoMemory>
    ensures { IfOk result (λ copy. copy.items ≡ answers.now.items) }
{
    let mut copy = Vec::with_capacity(*answers.allocator(), answers.len())?;
    for answer in answers {
        let one = match answer {
            Some(reply) => Some(reply.copy()?),
            None => None,
        };
        copy.push(one)?;
    }
    Ok(copy)
}
