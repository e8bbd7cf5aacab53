//! The program, on two words: the load of a number. Without one of them, or with one more, the words would be bad, and nothing
//! would be written.
#![tactic(auto)]

use std::process::ExitCode;

fn main(rt: HostRuntime) -> ExitCode {
    pasis_shell::run(&rt, rt.stdin(), rt.stdout(), rt.stderr())
}
