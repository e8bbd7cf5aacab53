//! Rounds: requests whose block operations are done together.
ghost use Rattle.std.specs.Prelude.{◌≡◌, ◌+◌, ◌≤◌, ◌<◌, ◌-◌, ℕ, true, [], length, take, IfOk, OnOk, All, if◌then◌else◌};
ghost use Rattle.std.specs.Ordering.{nat_cmp};
ghost use Rattle.std.specs.BTreeSet.{insert_key};
ghost use Rattle.store_front.specs.Blocks.{Reaches};
ghost use Rattle.store_front.specs.Rounds.{BeginsWithRequest, needs, needed, with_blocks, IsAsked, IsRound};
ghost use Rattle.store_front.specs.Touching.{IsFree, HasRoom, HasTouched, Knows, KnowsMore};
ghost use Rattle.store_front.specs.Standings.{IsStanding};
ghost use Rattle.nbd_front.specs.Requests.{head_len, data_len};

use crate::blocks::{Blocks, blocks_of, piece_of};
use crate::requests::{READ, changes};
use crate::standing::{HEAD, Standing, at_front};
use lists::NoMemory;
use nbd_front::request::Request;
use quorum_rules::Config;
use std::alloc::Global;
use std::collections::BTreeSet;
use store_device::store::MOST_OPERATIONS;

/// How many blocks the requests of a round touch at most, where they are more than one.
const MOST_BLOCKS: u32 = MOST_OPERATIONS as u32;

/// A request of a round, and all of its bytes.
#[derive(Clone, Copy)]
pub(crate) struct Asked<'a> {
    pub request: Request,
    pub bytes: &'a [u8],
}

/// The blocks that the requests of a round touch.
#[derive(Drop)]
pub(crate) struct Touched {
    /// How many they are, where one that several requests read is counted for each of them.
    count: u32,
    /// Those that are read, or changed in part.
    read: BTreeSet<u32>,
    /// Those that are changed.
    written: BTreeSet<u32>,
}

impl Touched {
    fn new(alloc: Global) -> Touched
        ensures count { result.count ≡ 0 }
        ensures read { result.read.keys ≡ [] }
    {
        Touched {
            count: 0,
            read: BTreeSet::new(alloc),
            written: BTreeSet::new(alloc),
        }
    }

    /// Whether a request may join the round: it touches no block that another one touches, but to read what that one reads too, and
    /// they touch few blocks together.
    fn takes(&self, blocks: Blocks, kind: u16) -> bool
        requires { blocks.first ≤ blocks.end }
        ensures room { result ≡ true → (k : ℕ) → blocks.first ≤ k → k < blocks.end
            → HasRoom self.now kind k }
        ensures first { self.now.count ≡ 0 → result ≡ true }
    {
        if self.count == 0 {
            return true;
        }
        if self.count.saturating_add(blocks.end - blocks.first) > MOST_BLOCKS {
            return false;
        }
        for block in blocks.first..blocks.end {
            if !self.is_free(block, kind) {
                return false;
            }
        }
        true
    }

    /// Whether a request of this kind may touch a block.
    fn is_free(&self, block: u32, kind: u16) -> bool
        ensures { result ≡ true → IsFree self.now kind block }
    {
        !self.written.contains(&block) && (kind == READ || !self.read.contains(&block))
    }

    /// Adds the blocks of a request.
    fn add(&mut self, config: &Config, request: &Request) -> Result<(), NoMemory>
        ensures read { OnOk result (self.new.read.keys
            ≡ with_blocks self.old.read.keys (needed config.now request.now)) }
        ensures more { OnOk result (KnowsMore self.old self.new) }
        ensures touched { OnOk result (HasTouched config.now self.new request.now) }
    {
        let blocks = blocks_of(config, request);
        for block in blocks.first..blocks.end {
            self.add_block(config, request, block)?;
        }
        self.count = self.count.saturating_add(blocks.end - blocks.first);
        Ok(())
    }

    /// Adds a block of a request.
    fn add_block(&mut self, config: &Config, request: &Request, block: u32) -> Result<(), NoMemory>
        requires { Reaches config.now request.now block }
        ensures read { OnOk result (self.new.read.keys
            ≡ (if needs config.now request.now block then insert_key nat_cmp self.old.read.keys block
            else self.old.read.keys)) }
        ensures more { OnOk result (KnowsMore self.old self.new) }
        ensures known { OnOk result (Knows self.new request.now.kind block) }
        ensures count { OnOk result (self.new.count ≡ self.old.count) }
    {
        add_if(&mut self.written, changes(request.kind), block)?;
        add_if(&mut self.read, needs_read(config, request, block), block)?;
        Ok(())
    }
}

/// Whether a block is to be read for a request: it reads it, or changes only a part of it.
fn needs_read(config: &Config, request: &Request, block: u32) -> bool
    requires { Reaches config.now request.now block }
    ensures { result ≡ needs config.now request.now block }
{
    let piece = piece_of(config, request, block);
    request.kind == READ || piece.to - piece.from < config.size() as usize
}

/// Adds a block to a set where it belongs there.
fn add_if(blocks: &mut BTreeSet<u32>, belongs: bool, block: u32) -> Result<(), NoMemory>
    ensures { OnOk result (blocks.new.keys
        ≡ (if belongs then insert_key nat_cmp blocks.old.keys block else blocks.old.keys)) }
{
    if belongs {
        blocks.insert(block)?;
    }
    Ok(())
}

/// Requests that are done together. A block that one of them writes no other one touches.
#[derive(Drop)]
pub(crate) struct Round<'a> {
    pub asked: Vec<Asked<'a>>,
    /// How many bytes of the input they have.
    pub len: usize,
    /// The blocks that are read for them.
    pub read: BTreeSet<u32>,
}

/// The request that stands whole at the front of the input at hand, with its bytes.
fn asked_of<'a>(input: &'a [u8], request: Request) -> Asked<'a>
    requires { IsStanding (Standing.Whole request) input.now }
    ensures asked { IsAsked result }
    ensures request { result.request ≡ request }
    ensures bytes { result.bytes.now ≡ take (length result.bytes.now) input.now }
    ensures len { length result.bytes.now ≤ length input.now }
{
    let len = HEAD + request.data_len() as usize;
    Asked {
        request,
        bytes: &input[..len],
    }
}

/// The requests at the front of the input at hand that are done together: as many as are whole there, and can be.
pub(crate) fn take_round<'a>(
    alloc: Global,
    config: &Config,
    input: &'a [u8],
) -> Result<Round<'a>, NoMemory>
    ensures round { IfOk result (IsRound config.now input.now) }
    ensures blocks { IfOk result (λ round. All (λ k. k < config.now.blocks) round.read.keys) }
    ensures some { BeginsWithRequest input.now → IfOk result (λ round. 0 < round.len) }
{
    let _valid = config.size();
    let mut asked = Vec::new(alloc);
    let mut touched = Touched::new(alloc);
    let mut len = 0;
    while let Standing::Whole(request) = at_front(&input[len..]) {
        if !touched.takes(blocks_of(config, &request), request.kind) {
            break;
        }
        touched.add(config, &request)?;
        let next = asked_of(&input[len..], request);
        len += next.bytes.len();
        asked.push(next)?;
    }
    Ok(Round {
        asked,
        len,
        read: touched.read,
    })
}
