//! Inboxes for nodes and clients, and the thread states of their threads, before these start.
ghost use Rattle.std.specs.Prelude.{◌≡◌, ◌≤◌, [], length, map, All, IfOk};
ghost use Rattle.thread_work.specs.Pairwise.{Beside};
ghost use Rattle.quorum_rules.specs.Limits.{Numbers};
ghost use Rattle.phase_threads.specs.Standing.{AreCells, IsDeskAt};
ghost use Rattle.node_workers.specs.Portions.{AreSpread, AreNewPutters};
ghost use Rattle.node_workers.specs.ThreadStates.{nodes_in, clients_in};
ghost use Rattle.node_workers.specs.Opened.{IsAskBox, IsAnswerBox, IsWorkerOf, IsClientOf, AreStates};

use crate::thread_state::ThreadState;
use crate::worker::NodeWorker;
use client_endpoints::{
    Answered, Asked, ByMail, Cells, ClientPlace, Endpoint, NodePlace, SharedCells, Transport,
};
use event_clock::Clock;
use inboxes::{Inbox, Putter, Putters, Taker};
use lists::{ItemList, NoMemory};
use locked_nodes::{CellShard, NodeCell, shards_in};
use phase_threads::{Duty, Portions, Seat, deal, empty_portions};
use std::alloc::Global;
use std::snapshot::Snapshot;
use std::sync::Wait;

// How many items an inbox holds at a time.
const ROOM: u32 = 16;

/// The thread states of a phase by mail, before their threads start, with the shared cells that they share.
pub fn open_states<R: Wait, T: Duty>(
    rt: &R,
    alloc: Global,
    clock: Clock,
    cells: Vec<NodeCell>,
    seats: Vec<Seat<T>>,
) -> Result<(SharedCells, Vec<ThreadState<T>>), NoMemory>
    requires cells { (1 ≤ length cells.items) × (length cells.items ≤ 65536) }
    requires seats { (1 ≤ length seats.items) × (length seats.items ≤ 65536) }
    requires cluster { (config : Numbers) × AreCells config clock cells.items
        × All (λ s. IsDeskAt config clock s.desk) seats.items }
    ensures { IfOk result (λ r. AreStates clock cells.items seats.items r.0 r.1.items) }
{
    let nodes = cells.len() as u32;
    let cell_shards = shards_in(alloc, cells.as_slice())?;
    let clients = clients_of(alloc, seats.as_slice())?;
    let (boxes, answer_putters) = open_answers(rt, alloc, &clock, nodes, seats.as_slice())?;
    let shared_cells = SharedCells::new(clock, cell_shards, Cells::Threads);
    let (states, putters) = open_nodes(
        rt,
        alloc,
        shared_cells.clock(),
        cells,
        &clients,
        answer_putters,
    )?;
    let states = open_clients(alloc, states, seats, boxes, putters)?;
    Ok((shared_cells, states))
}

// The clients' numbers, by their seats.
fn clients_of<T: Drop>(alloc: Global, seats: &[Seat<T>]) -> Result<ItemList<u32>, NoMemory>
    ensures { IfOk result (λ ids. ids ≡ map (λ s. s.desk.id) seats.now) }
{
    let mut ids = ItemList::new(alloc);
    for seat in seats {
        ids.push(seat.desk.id())?;
    }
    Ok(ids)
}

// An inbox for the answers to each client, which so many nodes have putters into: the takers by seat, and the putters in a portion
// for each node.
fn open_answers<R: Wait, T: Drop>(
    rt: &R,
    alloc: Global,
    clock: &Clock,
    nodes: u32,
    seats: &[Seat<T>],
) -> Result<(ItemList<Taker<Answered>>, Portions<Putter<Answered>>), NoMemory>
    requires { (1 ≤ nodes) × (nodes ≤ 65536) }
    ensures boxes { IfOk result (λ r. Beside (IsAnswerBox clock.now nodes) seats.now r.0) }
    ensures putters { IfOk result (λ r. AreSpread nodes r.0 r.1.items) }
{
    let mut takers = ItemList::new(alloc);
    let mut putters = empty_portions(alloc, nodes)?;
    for i in 0..seats.len() {
        let (taker, more) = open_answer(rt, alloc, clock, nodes, &seats[i])?;
        deal(&mut putters, more)?;
        takers.push(taker)?;
    }
    Ok((takers, putters))
}

fn open_answer<R: Wait, T: Drop>(
    rt: &R,
    alloc: Global,
    clock: &Clock,
    nodes: u32,
    seat: &Seat<T>,
) -> Result<(Taker<Answered>, Putters<Answered>), NoMemory>
    requires { (1 ≤ nodes) × (nodes ≤ 65536) }
    ensures taker { IfOk result (λ r. IsAnswerBox clock.now nodes 0 seat.now r.0) }
    ensures putters { IfOk result (λ r. AreNewPutters nodes r.0 r.1) }
{
    let place = ClientPlace {
        clock: Snapshot::of(clock),
        client: seat.desk.id(),
    };
    Inbox::open::<Answered, R>(rt, alloc, ROOM, nodes, &place)
}

// A worker for each cell, with an inbox for asks and a putter to each client, in the cells' order; and the putters into these
// inboxes in a portion for each client.
fn open_nodes<R: Wait, T: Duty>(
    rt: &R,
    alloc: Global,
    clock: &Clock,
    cells: Vec<NodeCell>,
    clients: &ItemList<u32>,
    mut answer_putters: Portions<Putter<Answered>>,
) -> Result<(Vec<ThreadState<T>>, Portions<Putter<Asked>>), NoMemory>
    requires count { (1 ≤ length clients.now) × (length clients.now ≤ 65536) }
    requires answer_putters { length answer_putters.items ≡ length cells.items }
    ensures nodes { IfOk result (λ r.
        Beside (IsWorkerOf clock.now clients.now answer_putters.items) cells.items (nodes_in r.0.items)) }
    ensures clients { IfOk result (λ r. clients_in r.0.items ≡ []) }
    ensures putters { IfOk result (λ r.
        AreSpread (length clients.now) (map (λ w. w.asks) (nodes_in r.0.items)) r.1.items) }
{
    let mut states = Vec::new(alloc);
    let mut putters = empty_portions(alloc, clients.len() as u32)?;
    answer_putters.reverse();
    for cell in cells {
        let Some(row) = answer_putters.pop() else {
            unreachable!()
        };
        let (asks, more) = open_asks(rt, alloc, clock, cell.cell_shard(), clients)?;
        deal(&mut putters, more)?;
        cell.known();
        let worker = NodeWorker::new(alloc, cell.go_on(false), asks, row.into_vec())?;
        states.push(ThreadState::Node(worker))?;
    }
    Ok((states, putters))
}

fn open_asks<R: Wait>(
    rt: &R,
    alloc: Global,
    clock: &Clock,
    cell_shard: CellShard,
    clients: &ItemList<u32>,
) -> Result<(Taker<Asked>, Putters<Asked>), NoMemory>
    requires { (1 ≤ length clients.now) × (length clients.now ≤ 65536) }
    ensures taker { IfOk result (λ r. IsAskBox clock.now cell_shard clients.now r.0) }
    ensures putters { IfOk result (λ r. AreNewPutters (length clients.now) r.0 r.1) }
{
    let place = NodePlace {
        clock: Snapshot::of(clock),
        cell_shard,
        clients: Snapshot::of(clients),
    };
    Inbox::open::<Asked, R>(rt, alloc, ROOM, clients.len() as u32, &place)
}

// Adds the thread states of clients: each desk with its inbox, a putter into each node's, and its duty, in the seats' order.
fn open_clients<T: Duty>(
    alloc: Global,
    mut states: Vec<ThreadState<T>>,
    seats: Vec<Seat<T>>,
    boxes: ItemList<Taker<Answered>>,
    mut putters: Portions<Putter<Asked>>,
) -> Result<Vec<ThreadState<T>>, NoMemory>
    requires clients { clients_in states.items ≡ [] }
    requires boxes { (of : _) × (nodes : _) × Beside (IsAnswerBox of nodes) seats.items boxes }
    requires putters { length putters.items ≡ length seats.items }
    requires count { length seats.items ≤ 65536 }
    ensures nodes { IfOk result (λ r. nodes_in r.items ≡ nodes_in states.items) }
    ensures clients { IfOk result (λ r.
        Beside (IsClientOf boxes putters.items) seats.items (clients_in r.items)) }
{
    let mut takers = boxes.into_vec();
    takers.reverse();
    putters.reverse();
    let mut number = 0;
    for seat in seats {
        let Some(answers) = takers.pop() else {
            unreachable!()
        };
        let Some(asks) = putters.pop() else {
            unreachable!()
        };
        let Seat { desk, duty } = seat;
        let mail = ByMail {
            seat: number,
            asks: asks.into_vec(),
            answers,
        };
        let endpoint = Endpoint::new(desk, Transport::Mail(mail));
        states.push(ThreadState::Client { endpoint, duty })?;
        number += 1;
    }
    Ok(states)
}
