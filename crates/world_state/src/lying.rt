//! The messages that a line's liars send, and what a client asks.

ghost use Rattle.std.specs.Prelude.{◌≡◌, ◌≤◌, ◌<◌, length, IfOk};
ghost use Rattle.std.specs.declared.option.Option.TheVariants.{None, Some};
ghost use Rattle.protocol.specs.Lines.{sound_ask as sound_ask_of, mix_ask as mix_ask_of};
ghost use Rattle.world_state.specs.Worlds.{setting_in, world_in};
ghost use Rattle.world_state.specs.Changes.{asked_by, lied_by};

use crate::state::State;
use cross_sum::Bytes;
use lists::NoMemory;
use wire_forms::{Message, Rule};

impl State {
    /// The present phase's message of a client to a node, if the client does something.
    pub fn outstanding(&self, client: u32, node: u8) -> Result<Option<Message>, NoMemory>
        requires client { client ≤ 1000 }
        requires node { node < self.now.config.n }
        ensures { IfOk result (λ m. m ≡ asked_by (setting_in self.now) client node
            ((world_in self.now).task client)) }
    {
        self.client_slots[client as usize].client.outstanding(node)
    }

    /// A lying node's answer to it, by a rule.
    pub fn false_answer(
        &self,
        client: u32,
        node: u8,
        rule: Rule,
    ) -> Result<Option<Message>, NoMemory>
        requires client { client ≤ 1000 }
        requires node { node < self.now.config.n }
        ensures { IfOk result (λ m. m ≡ lied_by (setting_in self.now) rule client node
            ((world_in self.now).task client)) }
    {
        let Some(asked) = self.outstanding(client, node)? else {
            return Ok(None);
        };
        liar_rules::false_answer(self.alloc, &self.config, &self.first, rule, &asked)
    }

    /// A lying client's write of a sound value.
    pub fn sound_ask(
        &self,
        client: u32,
        node: u8,
        block: u32,
        time: u64,
        value: &Bytes,
    ) -> Result<Message, NoMemory>
        requires node { node < self.now.config.n }
        requires size { length value.now ≡ self.now.config.size }
        ensures { IfOk result
            (λ m. m ≡ sound_ask_of (setting_in self.now) client node block time value.now) }
    {
        liar_rules::sound_ask(self.alloc, &self.config, client, node, block, time, value)
    }

    /// A lying client's write of fragments of two values.
    pub fn mix_ask(
        &self,
        client: u32,
        node: u8,
        block: u32,
        time: u64,
        value: &Bytes,
        other: &Bytes,
    ) -> Result<Message, NoMemory>
        requires node { node < self.now.config.n }
        requires size { length value.now ≡ self.now.config.size }
        requires other_size { length other.now ≡ self.now.config.size }
        ensures { IfOk result
            (λ m. m ≡ mix_ask_of (setting_in self.now) client node block time value.now other.now) }
    {
        liar_rules::mix_ask(
            self.alloc,
            &self.config,
            client,
            node,
            block,
            time,
            value,
            other,
        )
    }
}
