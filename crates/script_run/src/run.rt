ghost use Rattle.std.specs.Prelude.{◌≡◌, ◌+◌, ◌≤◌, ℕ, length, All, IfOk, IsErrOf};
ghost use Rattle.std.specs.declared.option.Option.TheVariants.{Some};
ghost use Rattle.wire_forms.specs.Liars.{has_number, IsAscending, IsClientNumber};
ghost use Rattle.protocol.specs.Instance.{setting_of};
ghost use Rattle.line_forms.specs.declared.cause.Cause.{Cause as Causes};
ghost use Rattle.script_text.specs.Replays.{IsReplay};
ghost use Rattle.world_state.specs.Worlds.{setting_in, world_in};
ghost use Rattle.protocol.specs.Lines.{IsRun};
ghost use Rattle.script_run.specs.Performing.{CommandQueues as TheQueues, Performs, run_lines, StopsAt};

use crate::command_queues::CommandQueues;
use crate::lines_left::LinesLeft;
use line_forms::{ScriptRefusal, refused};
use script_text::Replay;
use std::alloc::Global;
use wire_forms::Liars;
use world_steps::World;

/// The world to which the lines of a replay lead: the last of the run that they are. The first line that can't take place is refused with its number in the
/// script and its first cause: that of a device command, or the fault of a step.
///
/// The lines' memory is given back as they are done, while the world grows.
pub fn perform(alloc: Global, replay: Replay) -> Result<World, ScriptRefusal>
    requires { IsReplay replay.config replay.liars replay.lines }
    ensures cluster { IfOk result (λ w. w.config ≡ replay.config) }
    ensures liars { IfOk result (λ w. setting_in w ≡ setting_of replay.config
        (has_number replay.liars.nodes) (has_number replay.liars.clients)) }
    ensures run { IfOk result (λ w. (d : TheQueues)
        × Performs (setting_in w) w.config replay.lines d × (d.world ≡ world_in w)) }
    ensures is_run { IfOk result (λ w.
        IsRun (setting_in w) (run_lines (setting_in w) w.config replay.lines) (world_in w)) }
    ensures placed { IfOk result (λ w. w.seen.place ≡ length replay.lines) }
    // The lines of a script are two head lines, one for each liar, and the event lines.
    ensures stop { (line : ℕ) (cause : Causes)
        → IsErrOf result (ScriptRefusal.Fault (record { line = line; cause = cause }))
        → (done : ℕ) × StopsAt (setting_of replay.config
        (has_number replay.liars.nodes) (has_number replay.liars.clients))
        replay.config replay.lines done cause
        × (line ≡ 2 + length replay.liars.nodes + length replay.liars.clients + done + 1) }
{
    let Replay {
        config,
        liars,
        lines,
    } = replay;
    let mut queues = CommandQueues::new(alloc, &config, &liars)?;
    let mut left = LinesLeft::of(lines);
    let mut place = 0;
    while let Some(line) = left.next() {
        place += 1;
        if let Err(refusal) = queues.perform(place, line) {
            return Err(refused(lines_before(&liars) + place, refusal));
        }
    }
    Ok(queues.into_world())
}

/// How many lines of a script stand before its event lines: two head lines, and one for each liar.
fn lines_before(liars: &Liars) -> u64
    requires nodes { length liars.now.nodes ≤ 256 }
    requires clients { All IsClientNumber liars.now.clients }
    requires ascending { IsAscending liars.now.clients }
    ensures is { result ≡ 2 + length liars.now.nodes + length liars.now.clients }
    ensures small { result ≤ 1258 }
{
    2 + liars.node_count() as u64 + clients_of(liars)
}

/// How many clients are declared lying.
fn clients_of(liars: &Liars) -> u64
    requires clients { All IsClientNumber liars.now.clients }
    requires ascending { IsAscending liars.now.clients }
    ensures is { result ≡ length liars.now.clients }
    ensures small { result ≤ 1000 }
{
    let mut count = 0;
    for client in 1..1001 {
        if liars.client(client) {
            count += 1;
        }
    }
    count
}
