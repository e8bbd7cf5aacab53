//! The program.
#![tactic(auto)]

use std::process::ExitCode;

fn main(rt: HostRuntime) -> ExitCode {
    pasis_shell::run(&rt, rt.stdin(), rt.stdout(), rt.stderr())
}
