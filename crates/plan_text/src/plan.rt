//! Reading a plan.
ghost use Rattle.std.specs.Prelude.{◌≡◌, ◌∷◌, ◌++◌, ◌≤◌, [], None, drop, length, IfOk, IfErr, OnOk};
ghost use Rattle.quorum_rules.specs.Limits.{IsValid, IsOfScripts};
ghost use Rattle.line_forms.specs.Heads.{head_lines};
ghost use Rattle.line_forms.specs.Tables.{Gives};
ghost use Rattle.line_forms.specs.Texts.{IsFaultless, IsRefusal, ReadsTo};
ghost use Rattle.plan_words.specs.Plans.{Fits};
ghost use Rattle.plan_words.specs.Lines.{IsPlanLine, line_text};
ghost use Rattle.plan_text.specs.Marks.{line_marks};
ghost use Rattle.plan_text.specs.Plans.{Spells, plan_script, rules_in, work_in};
ghost use Rattle.plan_text.specs.Reading.{next_cause, seen_cause, with_liar};

use crate::marks::Marks;
use crate::seen::{Seen, note, refuse};
use line_forms::{Cause, LineRefusal, ScriptRefusal, read_head, refused};
use lists::{ItemList, NoMemory};
use plan_words::{Plan, PlanLine, read_line};
use quorum_rules::Config;
use std::alloc::Global;
use text_lines::cut;
use wire_forms::Liars;

/// The plan that a text spells.
///
/// The text is the two head lines of a script, and then the lines of rules and work in any order.
///
/// A text is refused with the first line that has a cause, and with that line's first cause: those of a line by itself, as
/// `read_line` tells them; `Twice` where it names again what an earlier line of its kind names, or a node that lies or crashes
/// already; `TooManyLiars` and `TooManyFaulty` where it makes more nodes lie, or lie or crash, than may; `LyingClient` where it
/// gives a client that lies work or a fault, or declares one lying that has some; `TooManyLines` where it is the ninth flood,
/// the 65th end of a phase, names the 65th client, or exceeds `min(4000, 500000000 / (n * (size + 32n + 128)))` block
/// operations; `Device` where the device refuses its command.
pub fn read_plan(alloc: Global, text: &[u8]) -> Result<Plan, ScriptRefusal>
    // What is read can be run, is spelled so, and no line of it has a cause.
    ensures fits { IfOk result Fits }
    ensures spelled { IfOk result (Spells text.now) }
    ensures faultless { OnOk result (IsFaultless plan_script text.now) }
    // A refusal is the first line that has a cause, and its first cause.
    ensures fault { IfErr result (IsRefusal plan_script text.now) }
{
    let (config, at) = read_head(alloc, text)?;
    read_body(alloc, config, text, at)
}

fn read_body(alloc: Global, config: Config, text: &[u8], at: usize) -> Result<Plan, ScriptRefusal>
    requires valid { IsValid config }
    requires of_scripts { IsOfScripts config }
    requires within { at ≤ length text.now }
    requires head { ReadsTo plan_script text.now (head_lines config) (drop at text.now) }
    ensures fits { IfOk result Fits }
    ensures spelled { IfOk result (Spells text.now) }
    ensures faultless { OnOk result (IsFaultless plan_script text.now) }
    ensures fault { IfErr result (IsRefusal plan_script text.now) }
{
    let mut plan = Plan {
        config,
        liars: Liars::none(alloc),
        rules: ItemList::new(alloc),
        work: ItemList::new(alloc),
    };
    let mut seen = Seen::nothing(alloc);
    let mut rest = &text[at..];
    let mut number = 3;
    while !rest.is_empty() {
        let Some((line, after)) = cut(rest, b'\n') else {
            return Err(refused(number, LineRefusal::Cause(Cause::Cut)));
        };
        let line = match next_line(alloc, &plan.config, &seen, line) {
            Ok(line) => line,
            Err(refusal) => return Err(refused(number, refusal)),
        };
        let marks = Marks::of(&plan.config, &line);
        note(&mut seen, &marks)?;
        push(&mut plan, &marks, line)?;
        number += 1;
        rest = after;
    }
    Ok(plan)
}

/// The line that a line of a text spells after those that were seen.
fn next_line(
    alloc: Global,
    config: &Config,
    seen: &Seen,
    line: &[u8],
) -> Result<PlanLine, LineRefusal>
    requires { IsValid config.now }
    ensures { Gives (λ l. IsPlanLine config.now l × (line_text l ≡ line.now)
        × (seen_cause config.now seen.now (line_marks config.now l) ≡ None))
        (next_cause config.now seen.now line.now) result }
{
    let read = read_line(alloc, config, line)?;
    refuse(seen, config, &Marks::of(config, &read))?;
    Ok(read)
}

/// Adds a line to the plan.
///
/// After `NoMemory` the plan may have the liar that the line declares without having the line.
fn push(plan: &mut Plan, marks: &Marks, line: PlanLine) -> Result<(), NoMemory>
    requires { marks.now ≡ line_marks plan.old.config line }
    ensures config { plan.new.config ≡ plan.old.config }
    ensures rules { OnOk result (plan.new.rules ≡ plan.old.rules ++ rules_in (line ∷ [])) }
    ensures work { OnOk result (plan.new.work ≡ plan.old.work ++ work_in (line ∷ [])) }
    ensures liars { OnOk result (plan.new.liars ≡ with_liar plan.old.liars marks.now) }
{
    declare(&mut plan.liars, marks)?;
    match line {
        PlanLine::Rule(fault) => plan.rules.push(fault),
        PlanLine::Work(job) => plan.work.push(job),
    }
}

/// Adds whom a line declares lying, if it declares somebody.
fn declare(liars: &mut Liars, marks: &Marks) -> Result<(), NoMemory>
    ensures { OnOk result (liars.new ≡ with_liar liars.old marks.now) }
{
    if let Some(node) = marks.lying_node {
        liars.add_node(node)?;
    }
    if let Some(client) = marks.lying_client {
        liars.add_client(client)?;
    }
    Ok(())
}
