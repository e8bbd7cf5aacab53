//! A node as it stands.
ghost use Rattle.std.specs.Prelude.{◌≡◌, ◌↔◌, ◌<◌, List, [], ◌∷◌, IsTrue, All, IfOk, OnOk, OnErr, false};
ghost use Rattle.protocol.specs.Messages.{Message as AnyMessage, with_reply, IsAsk};
ghost use Rattle.node_core.specs.Seen.{reply_of, with_versions, after_of};
ghost use Rattle.journals.specs.Acts.{new_state, act, answers, late_act, handles, after, answer_of, true_answer, served, is_spent, one_less, can_prune};
ghost use Rattle.locked_nodes.specs.Cells.{loses};

use journals::{Answer, Nature, NodeAct, Silence, Way};
use liar_rules::false_answer;
use lists::{Copied, NoMemory};
use node_core::{Node, Prepared};
use quorum_rules::Config;
use stamp_order::Stamp;
use std::alloc::Global;
use std::collections::VecDeque;
use std::marker::Model;
use wire_forms::{Ask, Body, First, Message, Reply, Rule};

/// A node, the asks that are held back, oldest first, how many asks it still serves before it crashes, if it is to crash, and
/// whether it has.
pub(crate) struct CellState {
    alloc: Global,
    /// What a liar tells.
    first: First,
    node: Node,
    late: VecDeque<Message>,
    crash_after: Option<u64>,
    crashed: bool,
}

// By hand, since a derived drop is proved anew wherever one is let go.
impl Drop for CellState {
    fn drop(self) {
        let CellState {
            alloc: _alloc,
            first: _first,
            node: _node,
            late: _late,
            crash_after: _crash_after,
            crashed: _crashed,
        } = self;
    }
}

impl Model for CellState {
    ghost use Rattle.std.specs.Prelude.{◌≡◌, ◌<◌};
    ghost use Rattle.wire_forms.specs.Firsts.{first_of};
    ghost use Rattle.journals.specs.Acts.{NodeState};

    ghost Value = { NodeState };

    ghost view = { λ h. record { node = h.node; late = h.late.items; crash_after = h.crash_after; crashed = h.crashed } };

    ghost invariant = { λ h. (h.first ≡ first_of h.node.config) × (h.node.number < h.node.config.n) };
}

impl CellState {
    /// A node that has done nothing.
    pub(crate) fn new(
        alloc: Global,
        config: &Config,
        number: u8,
        crash_after: Option<u64>,
    ) -> Result<CellState, NoMemory>
        requires { number < config.now.n }
        ensures { IfOk result (λ state. state ≡ new_state config.now number crash_after) }
    {
        Ok(CellState {
            alloc,
            first: First::of(alloc, config)?,
            node: Node::new(alloc, config, number)?,
            late: VecDeque::new(alloc),
            crash_after,
            crashed: false,
        })
    }

    /// Whether no ask is held back.
    pub(crate) fn has_no_mail(&self) -> bool
        ensures { IsTrue result ↔ (self.now.late ≡ []) }
    {
        self.late.is_empty()
    }

    /// Whether a held ask that comes now is lost.
    pub(crate) fn loses(&self, nature: Nature) -> bool
        ensures { result ≡ loses self.now nature }
    {
        match nature {
            Nature::Honest => self.crashed || self.is_spent(),
            Nature::Lying(_) => true,
        }
    }

    /// Whether the node neither lies nor has crashed.
    pub(crate) fn can_prune(&self, nature: Nature) -> bool
        ensures { result ≡ can_prune self.now nature }
    {
        match nature {
            Nature::Honest => !self.crashed,
            Nature::Lying(_) => false,
        }
    }

    // Whether it crashes at the next ask.
    fn is_spent(&self) -> bool
        ensures { result ≡ is_spent self.now.crash_after }
    {
        matches!(self.crash_after, Some(0))
    }

    /// Does what the node does with an ask that comes this way, and tells what the caller hears.
    pub(crate) fn act(
        &mut self,
        nature: Nature,
        way: Way,
        ask: &Message,
    ) -> Result<(NodeAct, Answer), NoMemory>
        requires ask { IsAsk ask.now.body }
        requires node { ask.now.node ≡ self.old.node.number }
        ensures act { IfOk result (λ r. r.0 ≡ act self.old nature way ask.now) }
        ensures answer { IfOk result (λ r. r.1 ≡ answer_of (act self.old nature way ask.now)) }
        ensures ok { OnOk result (self.new ≡ after self.old (act self.old nature way ask.now)) }
        ensures err { OnErr result (self.new ≡ self.old) }
    {
        match way {
            Way::Call => self.call(nature, ask),
            Way::Lose => silent(ask, Silence::Dropped),
            Way::Hold => self.hold(ask),
        }
    }

    fn hold(&mut self, ask: &Message) -> Result<(NodeAct, Answer), NoMemory>
        ensures act { IfOk result (λ r. r.0 ≡ NodeAct.Silent ask.now Silence.Held) }
        ensures answer { IfOk result (λ r. r.1 ≡ Answer.Nothing Silence.Held) }
        ensures ok { OnOk result (self.new ≡ after self.old (NodeAct.Silent ask.now Silence.Held)) }
        ensures err { OnErr result (self.new ≡ self.old) }
    {
        let told = silent(ask, Silence::Held)?;
        let kept = ask.copy()?;
        self.late.push_back(kept)?;
        Ok(told)
    }

    fn call(&mut self, nature: Nature, ask: &Message) -> Result<(NodeAct, Answer), NoMemory>
        requires ask { IsAsk ask.now.body }
        requires node { ask.now.node ≡ self.old.node.number }
        ensures act { IfOk result (λ r. r.0 ≡ act self.old nature Way.Call ask.now) }
        ensures answer { IfOk result (λ r. r.1 ≡ answer_of (act self.old nature Way.Call ask.now)) }
        ensures ok { OnOk result
            (self.new ≡ after self.old (act self.old nature Way.Call ask.now)) }
        ensures err { OnErr result (self.new ≡ self.old) }
    {
        if self.crashed {
            return silent(ask, Silence::Crashed);
        }
        if self.is_spent() {
            let noted = ask.copy()?;
            self.crashed = true;
            return Ok((
                NodeAct::CrashedAt {
                    ask: noted,
                    late: false,
                },
                Answer::Nothing(Silence::Crashed),
            ));
        }
        match nature {
            Nature::Honest => self.reply(ask),
            Nature::Lying(rule) => self.lie(rule, ask),
        }
    }

    fn reply(&mut self, ask: &Message) -> Result<(NodeAct, Answer), NoMemory>
        requires ask { IsAsk ask.now.body }
        requires node { ask.now.node ≡ self.old.node.number }
        requires more { is_spent self.old.crash_after ≡ false }
        ensures act { IfOk result (λ r. r.0 ≡ answers self.old Nature.Honest ask.now) }
        ensures answer { IfOk result (λ r.
            r.1 ≡ answer_of (answers self.old Nature.Honest ask.now)) }
        ensures ok { OnOk result
            (self.new ≡ after self.old (answers self.old Nature.Honest ask.now)) }
        ensures err { OnErr result (self.new ≡ self.old) }
    {
        let Body::Ask(asked) = &ask.body else {
            unreachable!()
        };
        let noted = ask.copy()?;
        let (reply, said) = reply_twice(&mut self.node, asked)?;
        self.crash_after = one_fewer(self.crash_after);
        let reply = answer(ask, reply);
        Ok((
            NodeAct::Answered { ask: noted, reply },
            Answer::Reply(answer(ask, said)),
        ))
    }

    fn lie(&self, rule: Rule, ask: &Message) -> Result<(NodeAct, Answer), NoMemory>
        requires ask { IsAsk ask.now.body }
        requires node { ask.now.node ≡ self.now.node.number }
        ensures act { IfOk result (λ r. r.0 ≡ answers self.now (Nature.Lying rule) ask.now) }
        ensures answer { IfOk result (λ r.
            r.1 ≡ answer_of (answers self.now (Nature.Lying rule) ask.now)) }
        ensures same { IfOk result (λ r.
            after self.now (answers self.now (Nature.Lying rule) ask.now) ≡ self.now) }
    {
        let config = self.node.config();
        let Some(reply) = false_answer(self.alloc, config, &self.first, rule, ask)? else {
            return silent(ask, Silence::Lying);
        };
        let said = reply.copy()?;
        let noted = ask.copy()?;
        Ok((NodeAct::Lied { ask: noted, reply }, Answer::Reply(said)))
    }

    /// Does what the node does with the oldest ask that is held back, which is held back no more.
    pub(crate) fn act_late(&mut self, nature: Nature) -> Result<NodeAct, NoMemory>
        requires asks { All (λ m. IsAsk m.body) self.old.late }
        requires some { self.old.late ≡ [] → ⊥ }
        ensures act { (ask : AnyMessage) (rest : List AnyMessage) → self.old.late ≡ ask ∷ rest →
            IfOk result (λ act. act ≡ late_act self.old nature ask) }
        ensures ok { (ask : AnyMessage) (rest : List AnyMessage) → self.old.late ≡ ask ∷ rest →
            OnOk result (self.new ≡ after self.old (late_act self.old nature ask)) }
        ensures err { OnErr result (self.new ≡ self.old) }
    {
        if self.crashed {
            return Ok(NodeAct::LateLost { ask: self.oldest() });
        }
        if self.is_spent() {
            self.crashed = true;
            return Ok(NodeAct::CrashedAt {
                ask: self.oldest(),
                late: true,
            });
        }
        match nature {
            Nature::Honest => self.deliver(),
            Nature::Lying(_) => Ok(NodeAct::LateLost { ask: self.oldest() }),
        }
    }

    // Takes the oldest ask that is held back.
    fn oldest(&mut self) -> Message
        requires some { self.old.late ≡ [] → ⊥ }
        ensures ask { self.old.late ≡ result ∷ self.new.late }
        ensures same { self.new ≡ record self.old { late = self.new.late } }
    {
        match self.late.pop_front() {
            Some(ask) => ask,
            None => unreachable!(),
        }
    }

    fn deliver(&mut self) -> Result<NodeAct, NoMemory>
        requires asks { All (λ m. IsAsk m.body) self.old.late }
        requires some { self.old.late ≡ [] → ⊥ }
        requires more { is_spent self.old.crash_after ≡ false }
        ensures act { (ask : AnyMessage) (rest : List AnyMessage) → self.old.late ≡ ask ∷ rest →
            IfOk result (λ act. act ≡ handles self.old Nature.Honest ask) }
        ensures ok { (ask : AnyMessage) (rest : List AnyMessage) → self.old.late ≡ ask ∷ rest →
            OnOk result (self.new ≡ after self.old (handles self.old Nature.Honest ask)) }
        ensures err { OnErr result (self.new ≡ self.old) }
    {
        let reply = match self.late.front() {
            Some(ask) => handled(&mut self.node, ask)?,
            None => unreachable!(),
        };
        self.crash_after = one_fewer(self.crash_after);
        let ask = self.oldest();
        let reply = answer(&ask, reply);
        Ok(NodeAct::Delivered { ask, reply })
    }

    /// Drops versions of a block.
    pub(crate) fn prune(&mut self, block: u32, stamp: &Stamp)
        requires { block < self.old.node.config.blocks }
        ensures { self.new ≡ after self.old (NodeAct.Pruned block stamp.now) }
    {
        self.node.prune(block, stamp);
    }
}

// The node's reply to an ask that it then has handled, once for its journal and once for the caller.
fn reply_twice(node: &mut Node, ask: &Ask) -> Result<(Reply, Reply), NoMemory>
    ensures noted { IfOk result (λ r. r.0 ≡ reply_of node.old ask.now) }
    ensures said { IfOk result (λ r. r.1 ≡ reply_of node.old ask.now) }
    ensures ok { OnOk result
        (node.new ≡ with_versions node.old ask.now.block (after_of node.old ask.now)) }
    ensures err { OnErr result (node.new ≡ node.old) }
{
    let Prepared { reply, added } = node.prepare(ask)?;
    let said = reply.copy()?;
    node.commit(ask, added)?;
    Ok((reply, said))
}

// The node's reply to an ask that it then has handled.
fn handled(node: &mut Node, ask: &Message) -> Result<Reply, NoMemory>
    requires { IsAsk ask.now.body }
    ensures reply { IfOk result (λ reply.
        with_reply ask.now reply ≡ true_answer node.old ask.now ask.now.body) }
    ensures ok { OnOk result (node.new ≡ served node.old ask.now.body) }
    ensures err { OnErr result (node.new ≡ node.old) }
{
    let Body::Ask(asked) = &ask.body else {
        unreachable!()
    };
    node.handle(asked)
}

// The answer with this reply to an ask.
fn answer(ask: &Message, reply: Reply) -> Message
    ensures { result ≡ with_reply ask.now reply }
{
    Message {
        client: ask.client,
        node: ask.node,
        tag: ask.tag,
        body: Body::Answer(reply),
    }
}

// One ask fewer, where asks are counted.
fn one_fewer(crash_after: Option<u64>) -> Option<u64>
    requires { is_spent crash_after ≡ false }
    ensures { result ≡ one_less crash_after }
{
    match crash_after {
        None => None,
        Some(n) => Some(n - 1),
    }
}

// The node says nothing.
fn silent(ask: &Message, why: Silence) -> Result<(NodeAct, Answer), NoMemory>
    ensures act { IfOk result (λ r. r.0 ≡ NodeAct.Silent ask.now why) }
    ensures answer { IfOk result (λ r. r.1 ≡ Answer.Nothing why) }
{
    Ok((
        NodeAct::Silent {
            ask: ask.copy()?,
            why,
        },
        Answer::Nothing(why),
    ))
}
