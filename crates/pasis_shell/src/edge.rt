//! The edge of the program: the words of the command line, standard input to standard output, the status's line on standard
//! error, and its number as exit status. No contract can say what the streams give and take: the programs of the gate that call
//! this show it, and `tools/exit_statuses` for each status.

ghost use Rattle.std.specs.Prelude.{◌≡◌, ◌⊎◌, drop, IfOk, IfErr};
ghost use Rattle.std.specs.Vec.Iter.{into_iter_items};
ghost use Rattle.command_texts.specs.declared.status.Status.TheVariants as statuses;

use crate::{OpenGate, Status};
use outside_io::{StdSink, StdSource};
use std::alloc::Global;
use std::env;
use std::env::{Args, Env};
use std::io::{ErrorKind, Stderr, Stdin, Stdout};
use std::process::ExitCode;
use std::sync::Wait;
use std::thread::Threads;

// The arguments, the program's name first. Those that are no text are bad words.
fn arguments<R: Env + AllocGlobal>(rt: &R) -> Result<Args, Status>
    ensures { IfErr result (λ status. (status ≡ statuses.BadWords) ⊎ (status ≡ statuses.NoMemory)) }
{
    match env::args(rt) {
        Ok(arguments) => Ok(arguments),
        Err(error) if error.kind() == ErrorKind::OutOfMemory => Err(Status::NoMemory),
        Err(_) => Err(Status::BadWords),
    }
}

// The arguments after the program's name, all of them.
fn words_of(alloc: Global, mut arguments: Args) -> Result<Vec<String>, Status>
    ensures words { IfOk result (λ words. words.items ≡ drop 1 (into_iter_items arguments)) }
    ensures err { IfErr result (λ status. status ≡ statuses.NoMemory) }
{
    let _name = arguments.next();
    match arguments.collect(alloc) {
        Ok(words) => Ok(words),
        Err(_) => Err(Status::NoMemory),
    }
}

fn status_of<R: Env + AllocGlobal + Threads + Wait + Sync>(
    rt: &R,
    input: Stdin,
    output: Stdout,
) -> Status {
    let words = match arguments(rt) {
        Ok(arguments) => words_of(rt.alloc(), arguments),
        Err(status) => Err(status),
    };
    match words {
        Ok(words) => {
            let mut source = StdSource::new(input);
            let mut sink = StdSink::new(output);
            crate::pasis(
                rt,
                rt.alloc(),
                words.as_slice(),
                &mut source,
                &mut sink,
                &OpenGate,
            )
        }
        Err(status) => status,
    }
}

/// Does what the words of the command line ask for, over the standard streams, and tells on standard error how that ended, unless
/// all went well.
pub fn run<R: Env + AllocGlobal + Threads + Wait + Sync>(
    rt: &R,
    input: Stdin,
    output: Stdout,
    mut errors: Stderr,
) -> ExitCode {
    let status = status_of(rt, input, output);
    // a line that can't be printed changes nothing of the exit status
    let _ = status.tell(&mut errors);
    ExitCode::from(status.number())
}
