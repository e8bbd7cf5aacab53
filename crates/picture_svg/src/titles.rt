//! What a picture shows, in words: its title and its description.
#![tactic(auto, using(crate::proofs::Joining::joining))]

ghost use Rattle.std.specs.Prelude.{◌≡◌, ◌++◌, length, OnOk, IfOk};
ghost use Rattle.std.specs.List.{flat_map};
ghost use Rattle.picture_svg.specs.Titles.{many, is_node, nodes_among, title_text, liars_among, next_name, sentence, counted, outcomes_text, description_text};

use crate::picture::{Actor, Lifeline, Outcomes, Picture, Sign, add_actor};
use lists::NoMemory;
use std::alloc::Global;
use text_lines::Text;

/// Adds so many of a kind.
fn add_many(text: &mut Text, count: u64, kind: &[u8]) -> Result<(), NoMemory>
    ensures { OnOk result (text.new ≡ text.old ++ many count kind.now) }
{
    text.add_number(count)?;
    text.add(b" ")?;
    text.add(kind)?;
    if count == 1 {
        return Ok(());
    }
    text.add(b"s")
}

fn is_node(actor: Actor) -> bool
    ensures { result ≡ is_node actor }
{
    matches!(actor, Actor::Node(_))
}

fn nodes_among(lifelines: &[Lifeline]) -> usize
    ensures { result ≡ nodes_among lifelines.now }
{
    lifelines.iter().filter(|it| is_node(it.actor)).count()
}

/// How many nodes and clients there are.
pub fn title_of(alloc: Global, lifelines: &[Lifeline]) -> Result<Text, NoMemory>
    ensures { IfOk result (λ title. title ≡ title_text lifelines.now) }
{
    let mut title = Text::new(alloc);
    add_title(&mut title, lifelines)?;
    Ok(title)
}

fn add_title(title: &mut Text, lifelines: &[Lifeline]) -> Result<(), NoMemory>
    ensures { OnOk result (title.new ≡ title.old ++ title_text lifelines.now) }
{
    let nodes = nodes_among(lifelines);
    let clients = lifelines.len().saturating_sub(nodes);
    title.add(b"A run of ")?;
    add_many(title, nodes as u64, b"node")?;
    title.add(b" and ")?;
    add_many(title, clients as u64, b"client")
}

/// How long the script is, who lies, who crashes, and what became of the operations.
pub fn description_of(alloc: Global, picture: &Picture, crashed: &[Actor]) -> Result<Text, NoMemory>
    ensures { IfOk result (λ description. description ≡ description_text
        (length picture.now.rows.items) picture.now.lifelines.items crashed.now
        picture.now.deeds.outcomes) }
{
    let lifelines = picture.lifelines.as_slice();
    let liars = liars_among(alloc, lifelines)?;
    let rows = picture.rows.as_slice().len() as u64;
    let mut text = Text::new(alloc);
    add_many(&mut text, rows, b"line")?;
    text.add(b" of a script. ")?;
    add_sentence(&mut text, b"lies", b"Lying", liars.as_slice())?;
    add_sentence(&mut text, b"crashes", b"Crashing", crashed)?;
    add_outcomes(&mut text, picture.deeds.outcomes)?;
    Ok(text)
}

/// Those who lie.
fn liars_among(alloc: Global, lifelines: &[Lifeline]) -> Result<Vec<Actor>, NoMemory>
    ensures { IfOk result (λ liars. liars.items ≡ liars_among lifelines.now) }
{
    let mut liars = Vec::new(alloc);
    for lifeline in lifelines {
        if lifeline.is_liar {
            liars.push(lifeline.actor)?;
        }
    }
    Ok(liars)
}

fn crashes(picture: &Picture, actor: Actor) -> bool {
    let mut marks = picture.deeds.marks.iter();
    marks.any(|it| it.sign == Sign::Crash && it.actor == actor)
}

/// Those who crash.
pub fn crashed_among(alloc: Global, picture: &Picture) -> Result<Vec<Actor>, NoMemory> {
    let mut actors = Vec::new(alloc);
    for Lifeline { actor, .. } in &picture.lifelines {
        if crashes(picture, *actor) {
            actors.push(*actor)?;
        }
    }
    Ok(actors)
}

/// Adds a sentence about who does something, or that nobody does.
fn add_sentence(
    text: &mut Text,
    deed: &[u8],
    doing: &[u8],
    actors: &[Actor],
) -> Result<(), NoMemory>
    ensures { OnOk result (text.new ≡ text.old ++ sentence deed.now doing.now actors.now) }
{
    match actors {
        [] => {
            text.add(b"Nobody ")?;
            text.add(deed)?;
            text.add(b". ")
        }
        [first, others @ ..] => {
            text.add(doing)?;
            text.add(b": ")?;
            add_actor(text, *first)?;
            add_next_names(text, others)?;
            text.add(b". ")
        }
    }
}

/// Adds names after another.
fn add_next_names(text: &mut Text, actors: &[Actor]) -> Result<(), NoMemory>
    ensures { OnOk result (text.new ≡ text.old ++ flat_map next_name actors.now) }
{
    for actor in actors {
        text.add(b", ")?;
        add_actor(text, *actor)?;
    }
    Ok(())
}

/// Adds what became of how many operations.
fn add_outcomes(text: &mut Text, outcomes: Outcomes) -> Result<(), NoMemory>
    ensures { OnOk result (text.new ≡ text.old ++ outcomes_text outcomes) }
{
    text.add(b"Operations: ")?;
    add_counted(text, outcomes.done as u64, b" done, ")?;
    add_counted(text, outcomes.spent as u64, b" spent, ")?;
    add_counted(text, outcomes.pending as u64, b" pending.")
}

/// Adds a number and what follows it.
fn add_counted(text: &mut Text, count: u64, what: &[u8]) -> Result<(), NoMemory>
    ensures { OnOk result (text.new ≡ text.old ++ counted count what.now) }
{
    text.add_number(count)?;
    text.add(what)
}
