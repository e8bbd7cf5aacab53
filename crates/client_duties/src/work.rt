//! The work of each client's thread.
ghost use Rattle.client_duties.specs.ClientDuty.{Ready, Done};

use crate::correct_client::CorrectClient;
use crate::liar::Liar;
use client_endpoints::{Endpoint, SharedCells};
use phase_threads::Duty;
use std::sync::Wait;
use thread_work::Gate;

/// What a client's thread does.
pub enum ClientDuty {
    /// The steps of a correct client.
    Client(CorrectClient),
    /// The messages of a lying client.
    Lying(Liar),
}

// By hand, since a derived drop is proved anew wherever one is let go.
impl Drop for ClientDuty {
    fn drop(self) {
        match self {
            ClientDuty::Client(_correct_client) => {}
            ClientDuty::Lying(_liar) => {}
        }
    }
}

impl Duty for ClientDuty {
    ghost ready = { Ready };

    ghost done = { Done };

    /// Does the thread's part of a phase: the steps of a correct client's next phase, or the messages that a lying client has left. A
    /// refusal ends it, and is left in the endpoint.
    fn work<R: Wait, G: Gate>(
        &mut self,
        rt: &R,
        gate: &G,
        shared_cells: &SharedCells,
        endpoint: &mut Endpoint,
    ) {
        match self {
            ClientDuty::Client(correct_client) => correct_client.work(
                rt,
                gate,
                shared_cells,
                endpoint,
            ),
            ClientDuty::Lying(liar) => liar.work(rt, shared_cells, endpoint),
        }
    }
}
