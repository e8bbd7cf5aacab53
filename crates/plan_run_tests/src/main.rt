//! Plans that are run under gates that hold clients. No clause says that threads run side by side, that a client holds one node's
//! lock and no other, or that a run ends: these runs show it. The plans and what must come of them lie in the folder that the program
//! runs in. Writes a line for each run: as it must be, or otherwise.
#![tactic(auto)]

mod all_at_once;
mod in_between;
mod in_turn;
mod liars;
mod loads;
mod marks;
mod orders;
mod pauses;
mod runs;
mod side_by_side;
mod turns;

use std::io;

fn tell(rt: &HostRuntime, what: &str, holds: bool) -> io::Result<()> {
    let outcome = if holds { "ok" } else { "otherwise" };
    println!(rt; "{what}: {outcome}")
}

fn main(rt: HostRuntime) -> io::Result<()> {
    for order in &orders::ORDERS {
        let is_kept = orders::is_kept(&rt, order)?;
        tell(&rt, order.name, is_kept)?;
    }
    for run in &in_turn::PLANS {
        let is_kept = in_turn::is_kept(&rt, run)?;
        tell(&rt, run.name, is_kept)?;
    }
    for run in &side_by_side::PLANS {
        let is_beside = side_by_side::is_beside(&rt, run)?;
        tell(&rt, run.name, is_beside)?;
    }
    let are_together = side_by_side::are_together(&rt)?;
    tell(
        &rt,
        "lying clients send side by side, by workers",
        are_together,
    )?;
    let has_run = loads::has_run(&rt, rt.alloc())?;
    tell(&rt, "four clients of a load", has_run)
}
