//! Who takes part in a run.
#![tactic(auto, using(crate::proofs::Joining::pieces))]

ghost use Rattle.std.specs.Prelude.{◌≡◌, ◌∷◌, [], ◌++◌, option_to_list, IfOk, OnOk};
ghost use Rattle.run_teller.specs.Columns.{named_by_line, named_by, named_in, column_if_any, client_columns, node_column, node_columns, columns_of};

use event_lines::ReplayLine;
use lists::NoMemory;
use picture_svg::{Actor, Lifeline};
use quorum_rules::Config;
use run_words::Line;
use std::alloc::Global;
use wire_forms::Liars;

/// The client that a line names.
fn named_by(line: &ReplayLine) -> Option<u32>
    ensures { result ≡ named_by line.now }
{
    match line {
        ReplayLine::Plain(line) => named_by_line(line),
        ReplayLine::Put { client, .. }
        | ReplayLine::Get { client, .. }
        | ReplayLine::Next { client } => Some(*client),
    }
}

fn named_by_line(line: &Line) -> Option<u32>
    ensures { result ≡ named_by_line line.now }
{
    match line {
        Line::Write { client, .. }
        | Line::Read { client, .. }
        | Line::Resend { client }
        | Line::Call { client, .. }
        | Line::Hear { client, .. }
        | Line::Lost { client, .. }
        | Line::CrashClient { client }
        | Line::False { client, .. }
        | Line::Sound { client, .. }
        | Line::Mix { client, .. }
        | Line::Back { client } => Some(*client),
        Line::Lie { message } | Line::Tell { message } | Line::Poke { message } => {
            Some(message.get().client)
        }
        Line::Give { .. } | Line::CrashNode { .. } | Line::Prune { .. } | Line::Restart { .. } =>
            None,
    }
}

/// The clients that lines name.
fn named_in(alloc: Global, lines: &[ReplayLine]) -> Result<Vec<u32>, NoMemory>
    ensures { IfOk result (λ named. named.items ≡ named_in lines.now) }
{
    let mut named = Vec::new(alloc);
    for line in lines {
        add_named(&mut named, line)?;
    }
    Ok(named)
}

fn add_named(named: &mut Vec<u32>, line: &ReplayLine) -> Result<(), NoMemory>
    ensures { OnOk result (named.new.items ≡ named.old.items ++ option_to_list (named_by line.now)) }
{
    if let Some(client) = named_by(line) {
        named.push(client)?;
    }
    Ok(())
}

/// The lifelines of those who take part: the clients that lines name or that are declared lying, by number, and then the nodes.
pub fn columns_of(
    alloc: Global,
    config: &Config,
    liars: &Liars,
    lines: &[ReplayLine],
) -> Result<Vec<Lifeline>, NoMemory>
    ensures { IfOk result (λ columns. columns.items
        ≡ columns_of config.now liars.now (named_in lines.now)) }
{
    let named = named_in(alloc, lines)?;
    let mut columns = Vec::new(alloc);
    add_clients(&mut columns, liars, named.as_slice())?;
    add_nodes(&mut columns, config, liars)?;
    Ok(columns)
}

/// Adds the clients that lines name or that are declared lying.
fn add_clients(columns: &mut Vec<Lifeline>, liars: &Liars, named: &[u32]) -> Result<(), NoMemory>
    ensures { OnOk result (columns.new.items
        ≡ columns.old.items ++ client_columns liars.now named.now) }
{
    for client in 1..1001 {
        add_client(columns, liars, named, client)?;
    }
    Ok(())
}

/// Adds the column of a client, if it takes part.
fn add_client(
    columns: &mut Vec<Lifeline>,
    liars: &Liars,
    named: &[u32],
    client: u32,
) -> Result<(), NoMemory>
    ensures { OnOk result (columns.new.items
        ≡ columns.old.items ++ column_if_any liars.now named.now client) }
{
    let is_liar = liars.client(client);
    if is_liar || named.contains(&client) {
        let actor = Actor::Client(client);
        columns.push(Lifeline { actor, is_liar })?;
    }
    Ok(())
}

/// Adds the nodes of a cluster.
fn add_nodes(columns: &mut Vec<Lifeline>, config: &Config, liars: &Liars) -> Result<(), NoMemory>
    ensures { OnOk result (columns.new.items
        ≡ columns.old.items ++ node_columns config.now.n liars.now) }
{
    for node in 0..config.n() as u8 {
        add_node(columns, liars, node)?;
    }
    Ok(())
}

fn add_node(columns: &mut Vec<Lifeline>, liars: &Liars, node: u8) -> Result<(), NoMemory>
    ensures { OnOk result (columns.new.items
        ≡ columns.old.items ++ node_column liars.now node ∷ []) }
{
    let actor = Actor::Node(node);
    let is_liar = liars.node(node);
    columns.push(Lifeline { actor, is_liar })?;
    Ok(())
}
