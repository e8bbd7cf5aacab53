//! A correct client's phases, step by step.
ghost use Rattle.std.specs.Prelude.{◌≡◌, ◌<◌, [], false, None, Some, slice_get};
ghost use Rattle.block_device.specs.Steps.{Fits as StepFits};
ghost use Rattle.client_desks.specs.Desks.{CanStart, state_at};
ghost use Rattle.client_desks.specs.Later.{IsLater};
ghost use Rattle.plan_followed.specs.Clients.{starts, times};
ghost use Rattle.client_endpoints.specs.Endpoint.{Fit, fixed};
ghost use Rattle.client_duties.specs.ClientDuty.{every_step, Goes, IsSame, IsReady, HasWorked, HasStepped, IsOn, IsAmidOrOff, HoldsWhole, HasAskedOn, StepsFit};

use crate::correct_client::CorrectClient;
use crate::turns::next_node;
use block_device::{BlockStep, Command, block_of};
use client_desks::laws::desks_go_on;
use client_endpoints::{Endpoint, SharedCells};
use locked_nodes::CellRefusal;
use std::sync::Wait;
use thread_work::{Edge, Gate};

impl CorrectClient {
    /// Does the steps of the next phase, until they are done, the client crashes, or the endpoint notes a refusal. It calls the gate
    /// before each operation starts, under each lock where nodes stand under locks, and after each operation ended.
    pub fn work<R: Wait, G: Gate>(
        &mut self,
        rt: &R,
        gate: &G,
        shared_cells: &SharedCells,
        endpoint: &mut Endpoint,
    )
        requires fit { Fit endpoint.old shared_cells.now }
        requires sound { endpoint.old.refused ≡ None }
        requires ready { IsReady self.old endpoint.old.desk }
        requires whole { HoldsWhole self.old shared_cells.now.cell_shards }
        ensures stays { fixed endpoint.new ≡ fixed endpoint.old }
        ensures fit { Fit endpoint.new shared_cells.now }
        ensures later { IsLater endpoint.old.desk endpoint.new.desk }
        ensures done { endpoint.new.refused ≡ None → HasWorked self.old self.new endpoint.new.desk }
    {
        if let Some(steps) = self.phases.pop_front() {
            self.do_steps(rt, gate, shared_cells, endpoint, Command::of(steps));
        }
    }

    /// Does the steps that are left of a phase.
    fn do_steps<R: Wait, G: Gate>(
        &mut self,
        rt: &R,
        gate: &G,
        shared_cells: &SharedCells,
        endpoint: &mut Endpoint,
        steps: Command,
    )
        requires fit { Fit endpoint.old shared_cells.now }
        requires sound { endpoint.old.refused ≡ None }
        requires goes { Goes self.old endpoint.old.desk }
        requires amid { IsAmidOrOff self.old steps endpoint.old.desk }
        requires steps { StepsFit self.old.plan.value self.old.client self.old.phases.items steps }
        requires whole { HoldsWhole self.old shared_cells.now.cell_shards }
        ensures stays { fixed endpoint.new ≡ fixed endpoint.old }
        ensures fit { Fit endpoint.new shared_cells.now }
        ensures later { IsLater endpoint.old.desk endpoint.new.desk }
        ensures same { endpoint.new.refused ≡ None →
            IsSame self.old self.new × (self.new.phases.items ≡ self.old.phases.items) }
        ensures goes { endpoint.new.refused ≡ None → Goes self.new endpoint.new.desk }
        ensures done { endpoint.new.refused ≡ None → IsAmidOrOff self.new [] endpoint.new.desk }
    {
        desks_go_on();
        let mut steps = steps;
        while let Some(step) = steps.next() {
            if !endpoint.desk().can_start() {
                return;
            }
            self.do_step(rt, gate, shared_cells, endpoint, step);
            if endpoint.refused().is_some() {
                return;
            }
        }
    }

    /// Does one step: an operation from its start to its end, unless the client crashes in it.
    fn do_step<R: Wait, G: Gate>(
        &mut self,
        rt: &R,
        gate: &G,
        shared_cells: &SharedCells,
        endpoint: &mut Endpoint,
        step: BlockStep,
    )
        requires fit { Fit endpoint.old shared_cells.now }
        requires sound { endpoint.old.refused ≡ None }
        requires can { CanStart endpoint.old.desk }
        requires goes { Goes self.old endpoint.old.desk }
        requires next { slice_get (every_step self.old.plan.value self.old.client)
            (times starts endpoint.old.desk.entries) ≡ Some step }
        requires fits { StepFits self.old.plan.value.config step }
        requires whole { HoldsWhole self.old shared_cells.now.cell_shards }
        ensures stays { fixed endpoint.new ≡ fixed endpoint.old }
        ensures fit { Fit endpoint.new shared_cells.now }
        ensures later { IsLater endpoint.old.desk endpoint.new.desk }
        ensures stepped { endpoint.new.refused ≡ None →
            HasStepped self.old endpoint.old.desk self.new endpoint.new.desk }
    {
        desks_go_on();
        let alloc = self.ways.allocator();
        let records = endpoint.desk().records();
        let Ok(op) = step.into_op(alloc, &self.config, self.client, records) else {
            endpoint.refuse(CellRefusal::NoMemory);
            return;
        };
        gate.at(self.client, endpoint.desk().ops() + 1, Edge::Begin);
        if endpoint.start(shared_cells, &op).is_err() {
            return;
        }
        if self.ask_on(rt, gate, shared_cells, endpoint, block_of(&op)) {
            gate.at(self.client, endpoint.desk().ops(), Edge::End);
        }
    }

    /// Asks nodes in turn until the operation under way ends, which it tells, or the client crashes, or a refusal comes.
    fn ask_on<R: Wait, G: Gate>(
        &mut self,
        rt: &R,
        gate: &G,
        shared_cells: &SharedCells,
        endpoint: &mut Endpoint,
        block: u32,
    ) -> bool
        requires fit { Fit endpoint.old shared_cells.now }
        requires sound { endpoint.old.refused ≡ None }
        requires goes { Goes self.old endpoint.old.desk }
        requires up { (state_at endpoint.old.desk).crashed ≡ false }
        requires on { IsOn block endpoint.old.desk }
        requires whole { HoldsWhole self.old shared_cells.now.cell_shards }
        ensures stays { fixed endpoint.new ≡ fixed endpoint.old }
        ensures fit { Fit endpoint.new shared_cells.now }
        ensures later { IsLater endpoint.old.desk endpoint.new.desk }
        ensures asked { endpoint.new.refused ≡ None →
            HasAskedOn self.old endpoint.old.desk self.new endpoint.new.desk }
    {
        desks_go_on();
        let nodes = self.config.n();
        for _ in rt.forever() {
            if self.crash_after == Some(0) {
                let _crashed = endpoint.crash(shared_cells);
                return false;
            }
            let Some(node) = next_node(endpoint.desk(), nodes) else {
                continue;
            };
            let way = self.count_ask(node);
            let Ok(answer) = endpoint.call(rt, gate, shared_cells, node, block, way) else {
                return false;
            };
            if answer.is_some() {
                return true;
            }
        }
        false
    }
}
