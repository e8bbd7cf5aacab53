//! A block device that is kept on directories.
#![tactic(auto)]

mod compacting;
mod create;
mod folder;
mod groups;
mod help;
mod keeping;
mod nodes;
mod opening;
mod renew;
mod scrub;
mod serve;
mod settling;
mod status;
mod telling;
mod upkeep;

ghost use Rattle.std.specs.Prelude.{◌≡◌, Err, IfErr, MatchOption};
ghost use Rattle.store_words.specs.Causes.{cause};
ghost use Rattle.store_words.specs.Statuses.{number_of};
ghost use Rattle.store_words.specs.Words.{texts};
ghost use Rattle.pasis_store.specs.Ends.{IsUnderstood, status_of};

use std::alloc::Global;
use std::env::{self, Args};
use std::process::ExitCode;
use std::thread::Threads;
use store_words::{Asked, Command, Refusal, Status, read_words};

fn main(rt: HostRuntime) -> ExitCode {
    let done = match words_of(&rt) {
        Ok(words) => done(&rt, &rt, &words),
        Err(refusal) => Err(refusal),
    };
    if let Err(refusal) = &done {
        // a line that can't be printed changes nothing of the exit status
        let _ = eprintln!(rt; "{refusal}");
    }
    ExitCode::from(exit_number(&done))
}

// The number with which the program ends.
fn exit_number(done: &Result<Status, Refusal>) -> u8
    ensures { result ≡ number_of (status_of done.now) }
{
    match done {
        Ok(status) => status.number(),
        Err(refusal) => refusal.status().number(),
    }
}

// Does what words ask for. They are refused for their cause, if they have one, and for nothing else.
fn done<T: Threads + Sync>(
    rt: &HostRuntime,
    threads: &T,
    words: &[String],
) -> Result<Status, Refusal>
    ensures { MatchOption (cause (texts words.now)) (IfErr result IsUnderstood)
        (λ why. result ≡ Err (Refusal.BadWords why)) }
{
    match read_words(words) {
        Ok(asked) => do_asked(rt, threads, asked),
        Err(why) => Err(Refusal::BadWords(why)),
    }
}

// Does what a command asks for.
fn do_asked<T: Threads + Sync>(
    rt: &HostRuntime,
    threads: &T,
    asked: Asked<'_>,
) -> Result<Status, Refusal>
    ensures { IfErr result IsUnderstood }
{
    let Asked { command, folders } = asked;
    match command {
        Command::Help => Ok(help::help(rt)),
        Command::Version => Ok(help::version(rt)),
        Command::Create(config) => Ok(create::create(rt, &config, folders)),
        Command::Serve => serve::serve(rt, threads, folders),
        Command::Status => status::status(rt, folders),
        Command::Scrub => scrub::scrub(rt, threads, folders),
        Command::Renew(node) => renew::renew(rt, threads, node, folders),
    }
}

// The words of the command line, after the program's name.
fn words_of(rt: &HostRuntime) -> Result<Vec<String>, Refusal> {
    match env::args(rt) {
        Ok(arguments) => after_name(rt.alloc(), arguments),
        Err(_) => Err(Refusal::NoText),
    }
}

fn after_name(alloc: Global, mut arguments: Args) -> Result<Vec<String>, Refusal> {
    let _name = arguments.next();
    match arguments.collect(alloc) {
        Ok(words) => Ok(words),
        Err(_) => Err(Refusal::NoMemory),
    }
}
