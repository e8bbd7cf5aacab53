//! The values of several writes are encoded together, before the writes take their turns.
ghost use Rattle.std.specs.Prelude.{◌≡◌, All, IfOk, IfSome};
ghost use Rattle.std.specs.List.{AllZip};
ghost use Rattle.batch_clients.specs.Encoding.{WritesValue, WritesAt, IsMadeBy, IsMadeAt};
ghost use Rattle.batch_clients.specs.Turns.{MayTake};

use crate::turn::{Turn, is_work};
use cross_sum::Bytes;
use frag_check::{Summed, code_of, summed_blocks};
use lists::{Copied, NoMemory};
use quorum_rules::Config;
use std::alloc::Global;

/// Values that are to be encoded, each with the place of its write among the turns.
#[derive(Drop)]
struct Waiting {
    places: Vec<usize>,
    values: Vec<Bytes>,
}

/// Encodes the values of all writes whose nodes answered times, and hands each write what was made of its value. The
/// fragments of all of them are digested together: as many at a time as there are lanes, whatever the number of nodes.
pub(crate) fn encode_together(
    alloc: Global,
    config: &Config,
    turns: &mut [Turn],
) -> Result<(), NoMemory>
    requires { All (MayTake config.now) turns.old }
    ensures { turns.new ≡ turns.old }
{
    let waiting = waiting_values(alloc, turns)?;
    // One value alone is encoded by its own write.
    if waiting.values.len() < 2 {
        return Ok(());
    }
    let made = summed_blocks(alloc, &code_of(config), waiting.values.as_slice())?;
    hand_over(turns, waiting.places.as_slice(), made);
    Ok(())
}

/// The values that are to be encoded.
fn waiting_values(alloc: Global, turns: &[Turn]) -> Result<Waiting, NoMemory>
    ensures { IfOk result (λ w. AllZip (WritesAt turns.now) w.places.items w.values.items) }
{
    let mut places = Vec::new(alloc);
    let mut values = Vec::new(alloc);
    for place in 0..turns.len() {
        if let Some(value) = value_to_encode(&turns[place]) {
            values.push(value.copy()?)?;
            places.push(place)?;
        }
    }
    Ok(Waiting { places, values })
}

/// The value that a write is about to encode, if the turn is that of a write whose nodes answered times.
fn value_to_encode(turn: &Turn) -> Option<&Bytes>
    ensures { IfSome result (λ value. WritesValue turn.now value.now) }
{
    if !is_work(turn) {
        return None;
    }
    match turn {
        Turn::Hears { client, .. } => client.value_to_encode(),
        Turn::Asks { .. } | Turn::Over(_) | Turn::Starved => None,
    }
}

/// Hands the writes at these places what was made of their values.
fn hand_over(turns: &mut [Turn], places: &[usize], made: Vec<Summed>)
    requires { AllZip (IsMadeAt turns.old) places.now made.items }
    ensures { turns.new ≡ turns.old }
{
    let mut k = 0;
    for summed in made {
        hand_one(&mut turns[places[k]], summed);
        k += 1;
    }
}

/// Hands a write what was made of its value.
fn hand_one(turn: &mut Turn, made: Summed)
    requires { IsMadeBy turn.old made }
    ensures { turn.new ≡ turn.old }
{
    if let Turn::Hears { client, .. } = turn {
        client.keep_made(made);
    }
}
