//! The answers of the nodes, as the operations of a batch take them.
ghost use Rattle.std.specs.Prelude.{◌≡◌, map, IfOk, OnOk, length, ◌<◌, None, slice_get, Some, slice_set};
ghost use Rattle.batch_clients.specs.Batches.{reply_at, column};
ghost use Rattle.batch_clients.specs.Parts.{turned, rest_of};

use crate::batch::Answers;
use lists::{ItemList, NoMemory};
use std::alloc::Global;
use wire_forms::Reply;

/// Each node's answers from the last one on, so that the first one is taken from the end.
pub(crate) fn turn(alloc: Global, answers: Answers) -> Result<Answers, NoMemory>
    ensures { IfOk result (λ r. r.items ≡ map turned answers.items) }
{
    let mut turned = Vec::with_capacity(alloc, answers.len())?;
    for replies in answers {
        turned.push(turn_one(replies))?;
    }
    Ok(turned)
}

fn turn_one(replies: Option<ItemList<Reply>>) -> Option<ItemList<Reply>>
    ensures { result ≡ turned replies }
{
    match replies {
        Some(replies) => {
            let mut replies = replies.into_vec();
            replies.reverse();
            Some(ItemList::from_vec(replies))
        }
        None => None,
    }
}

/// Takes the next answer of each node.
pub(crate) fn take_next(
    alloc: Global,
    answers: &mut Answers,
) -> Result<Vec<Option<Reply>>, NoMemory>
    ensures next { IfOk result (λ r. r.items ≡ column 0 (map turned answers.old.items)) }
    ensures rest { OnOk result (map turned answers.new.items
        ≡ map rest_of (map turned answers.old.items)) }
{
    let mut next = Vec::with_capacity(alloc, answers.len())?;
    for node in 0..answers.len() {
        next.push(take_one(&mut answers[node]))?;
    }
    Ok(next)
}

/// Takes the next answer of a node, if there is one.
fn take_one(replies: &mut Option<ItemList<Reply>>) -> Option<Reply>
    ensures next { result ≡ reply_at 0 (turned replies.old) }
    ensures rest { turned replies.new ≡ rest_of (turned replies.old) }
{
    match replies {
        Some(replies) => replies.pop(),
        None => None,
    }
}
