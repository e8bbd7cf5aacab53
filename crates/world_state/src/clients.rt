//! What takes place at clients: operations start, answers are heard, clients crash and come back.

ghost use Rattle.std.specs.Prelude.{true, false, option_map, ◌≡◌, ◌<◌, ◌≤◌, ◌^◌, ◌-◌, ◌∷◌, ◌++◌, [], length, Some, IfSome, IfOk, OnOk, OnErr, slice_get, slice_set};
ghost use Rattle.std.specs.declared.option.Option.TheVariants.{None};
ghost use Rattle.protocol.specs.Messages.{Message as Messages};
ghost use Rattle.protocol.specs.World.{sent, heard, happens, Fits, under_way, stamp_of_outcome};
ghost use Rattle.protocol.specs.World.Event.{Start, Resend as Resends, CrashClient as ClientCrashes, Back as ComesBack};
ghost use Rattle.protocol.specs.Seen.{client_at, block_of, work_of, phase_of, outstanding_of};
ghost use Rattle.protocol.specs.Count.{collect};
ghost use Rattle.protocol.specs.Instance.{setting};
ghost use Rattle.world_state.specs.Worlds.{setting_in, world_in};
ghost use Rattle.run_words.specs.declared.record.Record.{Record as Told};
ghost use Rattle.operation_core.specs.Counting.{GoesOn, IsAtEnd};
ghost use Rattle.operation_core.specs.Clients.{hears};
ghost use Rattle.client_core.specs.Clients.{operation_of, goes_to, is_only_counted, next_of};
ghost use Rattle.world_state.specs.Changes.{HasBecome, accepts_in, handles, client_in, IsAnswer};
ghost use Rattle.world_state.specs.AnswerEffects.{IsEffect, next_mail, answer_does, Becomes, goes_on, settled};

use crate::answer_effect::AnswerEffect;
use crate::block_use::{greater, leave, stamp_given};
use crate::nodes::block_of;
use crate::state::State;
use client_core::{Client, Step};
use lists::{Copied, ItemList, NoMemory};
use operation_core::{PhaseEnd, Stage};
use quorum_rules::Config;
use run_words::{Outcome, Record};
use stamp_order::Stamp;
use std::alloc::Global;
use std::mem::replace;
use wire_forms::{Ask, Body, Mail, Message, Op, Reply, Tag, Version};

impl State {
    /// A client that does nothing starts an operation.
    pub fn start(&mut self, place: u64, client: u32, op: Op) -> Result<(), NoMemory>
        requires later { self.now.seen.place < place }
        requires client { client ≤ 1000 }
        requires idle { (client_at self.now.seen client).task ≡ None }
        requires awake { (world_in self.now).client_crashed client ≡ false }
        requires fresh { (client_at self.now.seen client).started < 2 ^ 32 - 1 }
        requires block { block_of op < self.now.config.blocks }
        requires fits { Fits (setting_in self.now) (work_of op) }
        ensures ok { OnOk result (HasBecome self.old self.new (happens (setting_in self.old)
            (world_in self.old) place (Start client (block_of op) (work_of op)))) }
        ensures err { OnErr result (self.new ≡ self.old) }
    {
        let mut starter = self.client_of(client).copy()?;
        let mail = starter.start(&op)?;
        let index = self.records.len();
        let block = block_of(&op);
        let record = Record {
            client,
            op,
            start: place,
            end: None,
            stamp: None,
            outcome: None,
        };
        add(&mut self.pool, mail, &mut self.records, record)?;
        let slot = &mut self.client_slots[client as usize];
        slot.client = starter;
        slot.start = place;
        slot.index = index;
        let block_use = &mut self.uses[block as usize];
        block_use.at_work += 1;
        self.place = place;
        Ok(())
    }

    /// A client sends the messages of its present phase again.
    pub fn resend(&mut self, place: u64, client: u32) -> Result<(), NoMemory>
        requires later { self.now.seen.place < place }
        requires client { client ≤ 1000 }
        ensures ok { OnOk result (HasBecome self.old self.new (happens (setting_in self.old)
            (world_in self.old) place (Resends client))) }
        ensures err { OnErr result (self.new ≡ self.old) }
    {
        let mail = outstanding(
            self.alloc,
            &self.client_slots[client as usize].client,
            &self.config,
        )?;
        self.send(place, mail)
    }

    /// What the message makes of the client, and the messages of the next phase if one begins.
    fn heard(&self, client: u32, message: &Message) -> Result<(AnswerEffect, Mail), NoMemory>
        requires client { client ≤ 1000 }
        requires room { self.now.seen.place < 2 ^ 64 - 1 }
        ensures effect { IfOk result (λ r. IsEffect (client_in self.now client)
            (hears (client_in self.now client)
            (client_at self.now.seen client).task message.now) r.0) }
        ensures mail { IfOk result (λ r. r.1 ≡ next_mail (client_in self.now client)
            (hears (client_in self.now client) (client_at self.now.seen client).task message.now)) }
    {
        effect_of(self.alloc, self.client_of(client), message)
    }

    /// The client of this number.
    fn client_of(&self, client: u32) -> &Client
        requires { client ≤ 1000 }
        ensures same { result.now ≡ client_in self.now client }
        ensures phase { phase_of (client_at self.now.seen client).task ≤ self.now.seen.place }
    {
        &self.client_slots[client as usize].client
    }

    /// A client's operation counts an answer, and its phase goes on. What its record tells stays true.
    pub(crate) fn count(&mut self, client: u32, node: u8, tag: Tag, reply: Reply)
        requires client { client ≤ 1000 }
        requires counts { is_only_counted
            (answer_does (client_in self.now client) node tag reply) ≡ true }
        requires task { Becomes self.now.config self.now.seen.place
            ((world_in self.now).task client)
            (goes_to (answer_does (client_in self.now client) node tag reply)) }
        ensures { IfSome ((world_in self.old).task client)
            (λ t. HasBecome self.old self.new (goes_on (world_in self.old) client t
            (goes_to (answer_does (client_in self.old client) node tag reply)))) }
    {
        let slot = &mut self.client_slots[client as usize];
        slot.client.count(node, tag, reply);
    }

    /// A client's operation goes on with a next phase, as an answer that ends the present one has it.
    pub(crate) fn go_on(&mut self, client: u32, stage: Stage)
        requires client { client ≤ 1000 }
        requires stage { GoesOn (operation_of (client_in self.now client)) stage }
        requires task { Becomes self.now.config self.now.seen.place
            ((world_in self.now).task client) (next_of (client_in self.now client) stage) }
        ensures { IfSome ((world_in self.old).task client) (λ t. HasBecome self.old self.new
            (goes_on (world_in self.old) client t (next_of (client_in self.old client) stage))) }
    {
        let slot = &mut self.client_slots[client as usize];
        slot.client.go_on(stage);
        let stamp = slot.client.stamp();
        let index = slot.index;
        tell(&mut self.records, index, None, stamp, None);
    }

    /// A client's operation ends, as an answer that ends the present phase has it.
    pub(crate) fn end(&mut self, client: u32, outcome: Outcome)
        requires client { client ≤ 1000 }
        requires over { IsAtEnd (operation_of (client_in self.now client)) }
        requires awake { (world_in self.now).client_crashed client ≡ false }
        requires task { Becomes self.now.config self.now.seen.place
            ((world_in self.now).task client) None }
        ensures { IfSome ((world_in self.old).task client)
            (λ t. HasBecome self.old self.new (settled (world_in self.old) client t None
            (Some self.old.seen.place) (stamp_of_outcome outcome) (Some outcome))) }
    {
        let slot = &mut self.client_slots[client as usize];
        slot.client.end();
        let index = slot.index;
        let block = block_told(&self.records, index);
        let block_use = &mut self.uses[block as usize];
        block_use.at_work -= 1;
        block_use.given = greater(stamp_given(&outcome), block_use.given);
        let stamp = stamp_of(&outcome);
        let end = Some(self.place);
        tell(&mut self.records, index, end, stamp, Some(outcome));
    }

    /// A client hears a message of the pool.
    pub fn hear(&mut self, place: u64, client: u32, message: usize) -> Result<(), NoMemory>
        requires later { self.now.seen.place < place }
        requires client { client ≤ 1000 }
        requires awake { (world_in self.now).client_crashed client ≡ false }
        requires answer { (m : Messages) × (slice_get self.now.seen.pool message ≡ Some m)
            × IsAnswer client m }
        ensures ok { (m : Messages) → slice_get self.old.seen.pool message ≡ Some m
            → OnOk result (HasBecome self.old self.new (heard (setting_in self.old)
            (world_in self.old) place client m m.body)) }
        ensures err { OnErr result (self.new ≡ self.old) }
    {
        let (effect, mail) = self.heard(client, &self.pool.as_slice()[message])?;
        self.send(place, mail)?;
        effect.apply(self, client);
        Ok(())
    }

    /// A message is sent, and a client hears it.
    pub fn hear_sent(&mut self, place: u64, client: u32, message: Message) -> Result<(), NoMemory>
        requires later { self.now.seen.place < place }
        requires client { client ≤ 1000 }
        requires awake { (world_in self.now).client_crashed client ≡ false }
        requires answer { IsAnswer client message }
        ensures ok { OnOk result (HasBecome self.old self.new (heard (setting_in self.old)
            (sent (setting_in self.old) (world_in self.old) place
            (message ∷ [])) place client message message.body)) }
        ensures err { OnErr result (self.new ≡ self.old) }
    {
        let (effect, next) = self.heard(client, &message)?;
        let mail = ahead(self.alloc, message, next)?;
        self.send(place, mail)?;
        effect.apply(self, client);
        Ok(())
    }

    /// A node adds what it prepared for an ask, a message is sent, and a client hears it.
    pub fn hear_given(
        &mut self,
        place: u64,
        client: u32,
        node: u8,
        ask: &Ask,
        added: Option<Version>,
        message: Message,
    ) -> Result<(), NoMemory>
        requires later { self.now.seen.place < place }
        requires client { client ≤ 1000 }
        requires node { node < self.now.config.n }
        requires added { added ≡ accepts_in (setting_in self.now) (world_in self.now) node ask.now }
        requires awake { (world_in self.now).client_crashed client ≡ false }
        requires answer { IsAnswer client message }
        ensures ok { OnOk result (HasBecome self.old self.new (heard (setting_in self.old)
            (handles (setting_in self.old) (world_in self.old) place node ask.now
            (message ∷ [])) place client message message.body)) }
        ensures err { OnErr result (self.new ≡ self.old) }
    {
        // Says what holds of a kept world.
        let _ = &self.place;
        let (effect, next) = self.heard(client, &message)?;
        self.give(place, node, ask, added, message, next)?;
        effect.apply(self, client);
        Ok(())
    }

    /// A client crashes.
    pub fn crash_client(&mut self, place: u64, client: u32)
        requires later { self.now.seen.place < place }
        requires client { client ≤ 1000 }
        ensures { HasBecome self.old self.new (happens (setting_in self.old)
            (world_in self.old) place (ClientCrashes client)) }
    {
        let block = self.works_on(client);
        leave(&mut self.uses, block);
        let slot = &mut self.client_slots[client as usize];
        slot.crashed = true;
        self.place = place;
    }

    /// The block that a client works on, if it does and hasn't crashed. Its operation's record tells it.
    fn works_on(&self, client: u32) -> Option<u32>
        requires { client ≤ 1000 }
        ensures { result ≡ option_map (λ t. t.block) (under_way (world_in self.now) client) }
    {
        let slot = &self.client_slots[client as usize];
        if slot.crashed || slot.client.is_idle() {
            return None;
        }
        Some(block_of(&self.records.as_slice()[slot.index].op))
    }

    /// A client comes back: it does nothing, in its next life.
    pub fn come_back(&mut self, place: u64, client: u32)
        requires later { self.now.seen.place < place }
        requires client { client ≤ 1000 }
        requires crashed { (world_in self.now).client_crashed client ≡ true }
        requires lives { (client_at self.now.seen client).life < 2 ^ 32 - 1 }
        ensures { HasBecome self.old self.new (happens (setting_in self.old)
            (world_in self.old) place (ComesBack client)) }
    {
        let slot = &mut self.client_slots[client as usize];
        let life = slot.client.life() + 1;
        let again = slot.client.sibling(client, life);
        slot.client = again;
        slot.crashed = false;
        self.place = place;
    }
}

/// The messages of the client's present phase, none if it is idle.
fn outstanding(alloc: Global, client: &Client, config: &Config) -> Result<Mail, NoMemory>
    requires { client.now.config ≡ config.now }
    ensures { IfOk result (λ mail. mail ≡ collect config.now.n
        (outstanding_of (setting config.now) client.now.id client.now.seen.task)) }
{
    let mut mail = ItemList::new(alloc);
    for node in 0..config.n() as u8 {
        if let Some(message) = client.outstanding(node)? {
            mail.push(message)?;
        }
    }
    Ok(mail)
}

/// What a message makes of a client, and the messages of the next phase if one begins.
fn effect_of(
    alloc: Global,
    client: &Client,
    message: &Message,
) -> Result<(AnswerEffect, Mail), NoMemory>
    requires { phase_of client.now.seen.task < 2 ^ 64 - 1 }
    ensures effect { IfOk result
        (λ r. IsEffect client.now (hears client.now client.now.seen.task message.now) r.0) }
    ensures mail { IfOk result
        (λ r. r.1 ≡ next_mail client.now (hears client.now client.now.seen.task message.now)) }
{
    let none = ItemList::new(alloc);
    match client.prepare(message)? {
        Step::Ignored => Ok((AnswerEffect::Same, none)),
        Step::Counts { node, tag, reply } => Ok((AnswerEffect::Counts { node, tag, reply }, none)),
        Step::EndsPhase(PhaseEnd::Begins(stage, mail)) => Ok((AnswerEffect::Goes(stage), mail)),
        Step::EndsPhase(PhaseEnd::Ends(outcome)) => Ok((AnswerEffect::Ends(outcome), none)),
    }
}

/// The message, and the others behind it.
fn ahead(alloc: Global, message: Message, mut others: Mail) -> Result<Mail, NoMemory>
    ensures { IfOk result (λ mail. mail ≡ message ∷ others) }
{
    let mut mail = ItemList::new(alloc);
    mail.push(message)?;
    mail.append(&mut others)?;
    Ok(mail)
}

/// Adds the messages and the record, or nothing.
fn add(
    pool: &mut ItemList<Message>,
    mut mail: Mail,
    records: &mut ItemList<Record>,
    new: Record,
) -> Result<(), NoMemory>
    ensures sent { OnOk result (pool.new ≡ pool.old ++ mail) }
    ensures told { OnOk result (records.new ≡ records.old ++ new ∷ []) }
    ensures unsent { OnErr result (pool.new ≡ pool.old) }
    ensures untold { OnErr result (records.new ≡ records.old) }
{
    let len = pool.len();
    pool.append(&mut mail)?;
    let told = records.push(new);
    if told.is_err() {
        pool.truncate(len);
    }
    told
}

/// The block that the operation of this record is on.
fn block_told(records: &ItemList<Record>, index: usize) -> u32
    requires { index < length records.now }
    ensures { (r : Told) → slice_get records.now index ≡ Some r → result ≡ block_of r.op }
{
    block_of(&records.as_slice()[index].op)
}

/// Tells in the record of this number how its operation stands.
fn tell(
    records: &mut ItemList<Record>,
    index: usize,
    end: Option<u64>,
    stamp: Option<Stamp>,
    outcome: Option<Outcome>,
)
    requires { index < length records.now }
    ensures { (r : Told) → slice_get records.old index ≡ Some r
        → records.new ≡ slice_set records.old index
        (record r { end = end; stamp = stamp; outcome = outcome }) }
{
    let none = ItemList::new(records.allocator());
    let mut told = replace(records, none).into_vec();
    let record = &mut told[index];
    record.end = end;
    record.stamp = stamp;
    record.outcome = outcome;
    *records = ItemList::from_vec(told);
}

/// The stamp that an operation wrote or gave.
fn stamp_of(outcome: &Outcome) -> Option<Stamp>
    ensures { result ≡ stamp_of_outcome outcome.now }
{
    match outcome {
        Outcome::Wrote(stamp) | Outcome::Gave { stamp, .. } => Some(*stamp),
        Outcome::Spent | Outcome::Outvoted(_) => None,
    }
}
