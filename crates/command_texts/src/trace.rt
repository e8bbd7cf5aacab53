//! The trace of a run of a plan: its lines as a script, and its report.

ghost use Rattle.std.specs.Prelude.{◌≡◌, ◌++◌, ◌∷◌, ◌≤◌, ◌^◌, [], codes, IfOk};
ghost use Rattle.std.specs.List.{AllByRecursion};
ghost use Rattle.quorum_rules.specs.Limits.{IsOfScripts};
ghost use Rattle.text_lines.specs.Lines.{text_of_lines};
ghost use Rattle.journal_records.specs.Told.{IsTold};
ghost use Rattle.command_texts.specs.Runs.{IsPlanRun, ReportsWorld};
ghost use Rattle.command_texts.specs.Traces.{TracesPlan};
ghost use Rattle.plan_followed.specs.Followed.{AreOfPlan};
ghost use Rattle.script_run.specs.Histories.{FitsHistory};
ghost use Rattle.world_state.specs.Worlds.{world_in};

use crate::laws::plans_declare;
use crate::script::script_of;
use cross_sum::Bytes;
use history_book::print;
use journals::Journals;
use lists::NoMemory;
use merge_trace::{MergedLines, merge};
use plan_words::Plan;
use script_run::history_of;
use std::alloc::Global;
use text_lines::Text;
use world_steps::World;

/// The run that journals of a run of the plan tell, for which so many numbers were drawn.
fn run_of(
    alloc: Global,
    plan: &Plan,
    journals: &Journals,
    drawn: u64,
) -> Result<MergedLines, NoMemory>
    requires of_scripts { IsOfScripts plan.now.config }
    requires run { AreOfPlan plan.now journals.now drawn }
    requires clock { drawn ≤ 2 ^ 56 }
    ensures run { IfOk result (λ r. IsPlanRun plan.now journals.now r.lines r.world) }
    ensures told { IfOk result (λ r. AllByRecursion (IsTold plan.now.config) r.lines) }
    ensures fits { IfOk result (λ r. FitsHistory (world_in r.world)) }
{
    plan_followed::laws::plans();
    plan_followed::laws::followed_plans();
    journal_records::laws::told_lines();
    journal_records::laws::merged_lines();
    journal_records::laws::all_records();
    journal_records::laws::few_records();
    merge_trace::laws::kept_journals();
    journals::laws::merged_runs();
    let merged = merge(alloc, journals)?;
    Ok(merged)
}

/// The report of the history of a world.
fn report_of(alloc: Global, world: &World) -> Result<Bytes, NoMemory>
    requires { FitsHistory (world_in world.now) }
    ensures { IfOk result (λ text. ReportsWorld world.now text) }
{
    let history = history_of(alloc, world)?;
    print(alloc, &history)
}

/// A script, the line `report` and a report, as one text.
fn joined(alloc: Global, script: &Bytes, report: &Bytes) -> Result<Bytes, NoMemory>
    ensures { IfOk result (λ text.
        text ≡ script.now ++ text_of_lines (codes "report" ∷ []) ++ report.now) }
{
    let mut text = Text::new(alloc);
    text.add(script.as_slice())?;
    text.add(b"report\n")?;
    text.add(report.as_slice())?;
    text.into_bytes()
}

/// The lines of the run that the journals tell as a script, the line `report`, and the run's report. The journals are those of a
/// run of the plan, for which so many numbers were drawn; a script can describe its cluster.
pub fn trace_text(
    alloc: Global,
    plan: &Plan,
    journals: Journals,
    drawn: u64,
) -> Result<Bytes, NoMemory>
    requires of_scripts { IsOfScripts plan.now.config }
    requires run { AreOfPlan plan.now journals drawn }
    requires clock { drawn ≤ 2 ^ 56 }
    ensures { IfOk result (TracesPlan plan.now journals) }
{
    journal_records::laws::complete_histories();
    plans_declare();
    let merged = run_of(alloc, plan, &journals, drawn)?;
    let report = report_of(alloc, &merged.world)?;
    let MergedLines { lines, world } = merged;
    drop(world);
    let Journals { config, liars, .. } = journals;
    let script = script_of(alloc, config, liars, lines)?;
    let text = joined(alloc, &script, &report)?;
    Ok(text)
}
