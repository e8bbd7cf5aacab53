//! What the commands that run threads write.
ghost use Rattle.std.specs.Prelude.{◌≡◌, ◌<◌, ◌^◌, ℕ, List, None, Err, length, map, IfOk, IfErr};
ghost use Rattle.event_clock.specs.Passes.{HasFullPass, Tally};
ghost use Rattle.protocol.specs.Seen.{record_of};
ghost use Rattle.journals.specs.Records.{AreTold};
ghost use Rattle.plan_words.specs.Plans.{Fits};
ghost use Rattle.plan_followed.specs.Followed.{AreOfPlan};
ghost use Rattle.command_texts.specs.PlanRuns.{Soaks};
ghost use Rattle.command_texts.specs.Texts.{Writes, Refuses};

use client_threads::{Gate, Ran, run_plan};
use command_texts::{
    Answer, Command, Refusal, Serving, load_of, load_text, run_text, text_of, trace_text,
};
use cross_sum::Bytes;
use event_clock::RunRefusal;
use node_workers::run_workers;
use plan_text::read_plan;
use plan_words::Plan;
use std::alloc::Global;
use std::sync::Wait;
use std::thread::Threads;

// Runs the plan, whose nodes serve so.
fn run_served<R: Threads + Wait + Sync, G: Gate + Sync>(
    rt: &R,
    alloc: Global,
    serving: Serving,
    plan: &Plan,
    gate: &G,
) -> Result<Ran, RunRefusal>
    requires { Fits plan.now }
    ensures followed { IfOk result (λ r. AreOfPlan plan.now r.journals r.drawn.count) }
    ensures records { IfOk result (λ r. AreTold r.journals (map record_of r.records)) }
    ensures full { (drawn : Tally) → result ≡ Err (RunRefusal.ClockFull drawn) → HasFullPass drawn }
{
    match serving {
        Serving::ByLocks => run_plan(rt, alloc, plan, gate),
        Serving::ByWorkers => run_workers(rt, alloc, plan, gate),
    }
}

// The report of the history of a run of the plan.
fn run_of<R: Threads + Wait + Sync, G: Gate + Sync>(
    rt: &R,
    alloc: Global,
    serving: Serving,
    input: &Bytes,
    gate: &G,
) -> Result<Answer, Refusal>
    ensures text { IfOk result (λ answer.
        Writes (Command.Run serving) input.now answer.text answer.flaw) }
    ensures refused { IfErr result (λ refusal. Refuses (Command.Run serving) input.now refusal) }
{
    let plan = read_plan(alloc, input.as_slice())?;
    let ran = run_served(rt, alloc, serving, &plan, gate)?;
    let Ran {
        journals,
        records,
        drawn,
    } = ran;
    let text = run_text(alloc, &plan, &journals, records, drawn.count())?;
    Ok(Answer::of(text))
}

// The lines of a run of the plan as a script, and the report of its history.
fn trace_of<R: Threads + Wait + Sync, G: Gate + Sync>(
    rt: &R,
    alloc: Global,
    serving: Serving,
    input: &Bytes,
    gate: &G,
) -> Result<Answer, Refusal>
    ensures text { IfOk result (λ answer.
        Writes (Command.Trace serving) input.now answer.text answer.flaw) }
    ensures refused { IfErr result (λ refusal. Refuses (Command.Trace serving) input.now refusal) }
{
    let plan = read_plan(alloc, input.as_slice())?;
    let ran = run_served(rt, alloc, serving, &plan, gate)?;
    let drawn = ran.drawn.count();
    let text = trace_text(alloc, &plan, ran.journals, drawn)?;
    Ok(Answer::of(text))
}

// The line of a run of the number's load.
fn soak_of<R: Threads + Wait + Sync, G: Gate + Sync>(
    rt: &R,
    alloc: Global,
    number: u64,
    gate: &G,
) -> Result<Answer, Refusal>
    ensures text { IfOk result (λ answer. Soaks number answer.text × (answer.flaw ≡ None)) }
    ensures refused { (input : List ℕ)
        → IfErr result (λ refusal. Refuses (Command.Soak number) input refusal) }
{
    let load = load_of(alloc, number)?;
    let ran = run_plan(rt, alloc, &load, gate)?;
    let Ran {
        journals,
        records,
        drawn,
    } = ran;
    let text = load_text(alloc, number, &load, &journals, records, drawn.count())?;
    Ok(Answer::of(text))
}

/// What a command writes for an input, and the flaw that it finds.
pub fn text_in_threads<R: Threads + Wait + Sync, G: Gate + Sync>(
    rt: &R,
    alloc: Global,
    command: Command,
    input: &Bytes,
    gate: &G,
) -> Result<Answer, Refusal>
    requires { length input.now < 2 ^ 32 }
    ensures text { IfOk result (λ answer. Writes command input.now answer.text answer.flaw) }
    ensures refused { IfErr result (λ refusal. Refuses command input.now refusal) }
{
    match command {
        Command::Run(serving) => run_of(rt, alloc, serving, input, gate),
        Command::Trace(serving) => trace_of(rt, alloc, serving, input, gate),
        Command::Soak(number) => soak_of(rt, alloc, number, gate),
        Command::Replay | Command::Check | Command::Sum => text_of(alloc, command, input),
    }
}
