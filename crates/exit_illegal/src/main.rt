//! The program, on a report of an illegal history: the verdict is written, and the exit status is 1.
#![tactic(auto)]

use std::process::ExitCode;

fn main(rt: HostRuntime) -> ExitCode {
    pasis_shell::run(&rt, rt.stdin(), rt.stdout(), rt.stderr())
}
