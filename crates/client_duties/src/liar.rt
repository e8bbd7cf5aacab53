//! What a lying client has still to send, and how it sends that.
ghost use Rattle.std.specs.Prelude.{◌≡◌, [], None, true};
ghost use Rattle.client_duties.specs.Tasks.{IsLiarTask};
ghost use Rattle.client_desks.specs.Desks.{DeskView};
ghost use Rattle.client_desks.specs.Later.{IsLater};
ghost use Rattle.client_endpoints.specs.Endpoint.{Fit, fixed};
ghost use Rattle.client_duties.specs.ClientDuty.{HasMail, HasSentAll};

use client_desks::laws::desks_go_on;
use client_endpoints::{Endpoint, SharedCells};
use plan_words::Plan;
use std::collections::VecDeque;
use std::snapshot::Snapshot;
use std::sync::Wait;
use wire_forms::{Mail, Message};

/// A lying client at work, by its plan: the messages that are left.
pub struct Liar {
    pub plan: Snapshot<Plan>,
    pub client: u32,
    pub mail: VecDeque<Message>,
}

// By hand, since a derived drop is proved anew wherever one is let go.
impl Drop for Liar {
    fn drop(self) {
        let Liar {
            plan: _plan,
            client: _client,
            mail: _mail,
        } = self;
    }
}

impl Liar {
    /// The client of a task of the plan before it sent anything.
    pub fn new(plan: &Plan, client: u32, mail: Mail) -> Liar
        requires { IsLiarTask plan.now client mail }
        ensures plan { result.plan.value ≡ plan.now }
        ensures client { result.client ≡ client }
        ensures ready { (d : DeskView) → d.config ≡ plan.now.config → d.id ≡ client →
            d.lying ≡ true → d.entries ≡ [] → HasMail result d }
    {
        Liar {
            plan: Snapshot::of(plan),
            client,
            mail: VecDeque::from_vec(mail.into_vec()),
        }
    }

    /// Sends the messages that are left, in order, until all are sent or the endpoint notes a refusal.
    pub fn work<R: Wait>(&mut self, rt: &R, shared_cells: &SharedCells, endpoint: &mut Endpoint)
        requires fit { Fit endpoint.old shared_cells.now }
        requires sound { endpoint.old.refused ≡ None }
        requires mail { HasMail self.old endpoint.old.desk }
        ensures stays { fixed endpoint.new ≡ fixed endpoint.old }
        ensures fit { Fit endpoint.new shared_cells.now }
        ensures later { IsLater endpoint.old.desk endpoint.new.desk }
        ensures done { endpoint.new.refused ≡ None →
            HasSentAll self.old endpoint.old.desk self.new endpoint.new.desk }
    {
        desks_go_on();
        while let Some(ask) = self.mail.pop_front() {
            if endpoint.send(rt, shared_cells, &ask).is_err() {
                return;
            }
        }
    }
}
