//! Replies.
ghost use Rattle.std.specs.Prelude.{◌≡◌, ◌++◌, IfOk, OnOk, All};
ghost use Rattle.std.specs.List.{flat_map};
ghost use Rattle.store_front.specs.Blocks.{blocks_of, Reaches};
ghost use Rattle.store_front.specs.Rounds.{IsAsked, requests_of};
ghost use Rattle.store_front.specs.Values.{AreBlocks, read_of, written_of};
ghost use Rattle.store_front.specs.Replies.{is_done, answer_error, part_of, reply_of, replies_of};

use crate::blocks::{blocks_of, device_len, piece_of};
use crate::operations::{Done, value_in};
use crate::requests::{READ, error};
use crate::round::Asked;
use lists::NoMemory;
use nbd_front::reply::push_head;
use nbd_front::request::Request;
use quorum_rules::Config;
use std::alloc::Global;

/// The error of a request of which a block operation failed.
const FAILED: u32 = 5;

impl Done {
    /// Whether a block was read, or written, as a request of this kind asks.
    fn has(&self, kind: u16, block: u32) -> bool
        ensures { result
            ≡ is_done (read_of self.now.found) (written_of self.now.written) kind block }
    {
        if kind == READ {
            self.found.contains_key(&block)
        } else {
            self.written.contains(&block)
        }
    }

    /// The error of a request's reply.
    fn error(&self, config: &Config, request: &Request) -> u32
        ensures { result ≡ answer_error config.now (read_of self.now.found)
            (written_of self.now.written) request.now }
    {
        let error = error(request, device_len(config));
        if error != 0 {
            return error;
        }
        let blocks = blocks_of(config, request);
        for block in blocks.first..blocks.end {
            if !self.has(request.kind, block) {
                return FAILED;
            }
        }
        0
    }

    /// Adds a request's reply to a text.
    fn push_reply(
        &self,
        text: &mut Vec<u8>,
        config: &Config,
        request: &Request,
    ) -> Result<(), NoMemory>
        requires { AreBlocks config.now self.now.found }
        ensures { OnOk result (text.new.items ≡ text.old.items ++ reply_of config.now
            (read_of self.now.found) (written_of self.now.written) request.now) }
    {
        let error = self.error(config, request);
        push_head(text, error, &request.handle)?;
        if error == 0 && request.kind == READ {
            return self.push_data(text, config, request);
        }
        Ok(())
    }

    /// Adds the bytes that a request reads.
    fn push_data(
        &self,
        text: &mut Vec<u8>,
        config: &Config,
        request: &Request,
    ) -> Result<(), NoMemory>
        requires { AreBlocks config.now self.now.found }
        ensures { OnOk result (text.new.items ≡ text.old.items ++ flat_map
            (part_of config.now (read_of self.now.found) request.now)
            (blocks_of config.now request.now)) }
    {
        let blocks = blocks_of(config, request);
        for block in blocks.first..blocks.end {
            self.push_part(text, config, request, block)?;
        }
        Ok(())
    }

    /// Adds the bytes that a request reads of a block.
    fn push_part(
        &self,
        text: &mut Vec<u8>,
        config: &Config,
        request: &Request,
        block: u32,
    ) -> Result<(), NoMemory>
        requires reaches { Reaches config.now request.now block }
        requires found { AreBlocks config.now self.now.found }
        ensures { OnOk result (text.new.items ≡ text.old.items ++ part_of config.now
            (read_of self.now.found) request.now block) }
    {
        let Some(value) = value_in(&self.found, block) else {
            return Ok(());
        };
        let piece = piece_of(config, request, block);
        text.extend_from_slice(&value.as_slice()[piece.at..piece.end])?;
        Ok(())
    }

    /// The replies to the requests of the round, one after the other.
    pub(crate) fn replies(
        &self,
        alloc: Global,
        config: &Config,
        asked: &[Asked<'_>],
    ) -> Result<Vec<u8>, NoMemory>
        requires found { AreBlocks config.now self.now.found }
        requires asked { All IsAsked asked.now }
        ensures { IfOk result (λ text. text.items ≡ replies_of config.now
            (read_of self.now.found) (written_of self.now.written) (requests_of asked.now)) }
    {
        let mut text = Vec::new(alloc);
        for one in asked {
            self.push_reply(&mut text, config, &one.request)?;
        }
        Ok(text)
    }
}
