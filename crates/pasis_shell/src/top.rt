ghost use Rattle.std.specs.Prelude.{◌≡◌, ◌≢◌, ◌≤◌, ◌+◌, ◌↔◌, None, Err, length, IfOk, IfErr, IfSome, OnErr, IsErrOf};
ghost use Rattle.outside_io.specs.Causes.{Rose};
ghost use Rattle.outside_io.specs.Given.{GaveAtMost};
ghost use Rattle.command_texts.specs.Words.{texts, RunsThreads, AskForThreads};
ghost use Rattle.command_texts.specs.Texts.{IsGiven};
ghost use Rattle.command_texts.specs.declared.words.Form.TheVariants.{Text as OfText};
ghost use Rattle.pasis_shell.specs.Calls.{call_of, TellsFaults};
ghost use Rattle.pasis_shell.specs.Texts.{StopsFor, IsWritten};
ghost use Rattle.pasis_shell.specs.Forms.{Does, HasCalled};

use crate::planned::text_in_threads;
use crate::session::serve_device;
use client_threads::Gate;
use command_texts::{Answer, Command, Form, Refusal, Status, form_of, text_of};
use cross_sum::Bytes;
use outside_io::{LIMIT, Sink, Source, read_all, write_all};
use std::alloc::Global;
use std::sync::Wait;
use std::thread::Threads;

// What a command works on: all of the source, or nothing for `soak`.
#[tactic(auto, using(crate::proofs::Given::gave_none))]
fn input_of<S: Source>(alloc: Global, command: Command, source: &mut S) -> Result<Bytes, Status>
    ensures given { IfOk result (λ input.
        IsGiven command (S.left source.old) (S.left source.new) input) }
    ensures short { IfOk result (λ input. length input ≤ LIMIT) }
    ensures stops { IfErr result (λ status.
        StopsFor command status (S.left source.old) (S.left source.new)) }
    ensures most { GaveAtMost (LIMIT + 1) (S.left source.old) (S.left source.new) }
    ensures read_fault { IsErrOf result Status.ReadFault
        → Rose S.last (S.faults source.old) (S.faults source.new) }
    ensures calm { result ≢ Err Status.ReadFault → S.faults source.new ≡ S.faults source.old }
{
    if let Command::Soak(_) = command {
        return Ok(Bytes::empty());
    }
    match read_all(alloc, source) {
        Ok(input) => match Bytes::shared(input) {
            Ok(input) => Ok(input),
            Err(_) => Err(Status::NoMemory),
        },
        Err(refusal) => Err(Status::of_read(refusal)),
    }
}

// Writes what a command made of its input, if it made a text.
fn written<K: Sink>(made: Result<Answer, Refusal>, sink: &mut K) -> Status
    ensures written { IsWritten made result (K.taken sink.old) (K.taken sink.new)
        (K.flushed sink.old) (K.flushed sink.new) }
    ensures untouched { OnErr made (sink.new ≡ sink.old) }
    ensures fault { result ≡ Status.WriteFault
        → Rose K.last (K.faults sink.old) (K.faults sink.new) }
    ensures calm { result ≢ Status.WriteFault → K.faults sink.new ≡ K.faults sink.old }
{
    match made {
        Ok(answer) => match write_all(sink, answer.text.as_slice()) {
            Ok(()) => Status::of_flaw(answer.flaw),
            Err(_) => Status::WriteFault,
        },
        Err(refusal) => Status::of_refusal(refusal),
    }
}

// Does what a command asks for that runs no threads.
fn without_threads<S: Source, K: Sink>(
    alloc: Global,
    command: Command,
    source: &mut S,
    sink: &mut K,
) -> Status
    requires { RunsThreads command → ⊥ }
    ensures does { Does (OfText command) result
        (call_of ⟦<S as Source>⟧ ⟦<K as Sink>⟧ source.old source.new sink.old sink.new) }
    ensures faults { TellsFaults result
        (call_of ⟦<S as Source>⟧ ⟦<K as Sink>⟧ source.old source.new sink.old sink.new) }
{
    match input_of(alloc, command, source) {
        Ok(input) => written(text_of(alloc, command, &input), sink),
        Err(status) => status,
    }
}

// Does what a command asks for, and runs threads where it does.
fn in_threads<R: Threads + Wait + Sync, S: Source, K: Sink, G: Gate + Sync>(
    rt: &R,
    alloc: Global,
    command: Command,
    source: &mut S,
    sink: &mut K,
    gate: &G,
) -> Status
    ensures does { Does (OfText command) result
        (call_of ⟦<S as Source>⟧ ⟦<K as Sink>⟧ source.old source.new sink.old sink.new) }
    ensures faults { TellsFaults result
        (call_of ⟦<S as Source>⟧ ⟦<K as Sink>⟧ source.old source.new sink.old sink.new) }
{
    match input_of(alloc, command, source) {
        Ok(input) => written(text_in_threads(rt, alloc, command, &input, gate), sink),
        Err(status) => status,
    }
}

/// Does what the words ask for, where it needs no threads, as `pasis` does. Words of `run`, `trace` and `soak`, which run threads, it
/// leaves alone: then nothing was read or written, and no memory was taken.
pub fn alone<S: Source, K: Sink>(
    alloc: Global,
    words: &[String],
    source: &mut S,
    sink: &mut K,
) -> Option<Status>
    ensures none { (result ≡ None) ↔ AskForThreads (texts words.now) }
    ensures untouched_source { result ≡ None → source.new ≡ source.old }
    ensures untouched_sink { result ≡ None → sink.new ≡ sink.old }
    ensures called { IfSome result (λ status. HasCalled (texts words.now) status
        (call_of ⟦<S as Source>⟧ ⟦<K as Sink>⟧ source.old source.new sink.old sink.new)) }
{
    let Some(form) = form_of(words) else {
        return Some(Status::BadWords);
    };
    match &form {
        Form::Session(config) => Some(serve_device(alloc, config, source, sink)),
        Form::Text(command) => {
            if command.runs_threads() {
                return None;
            }
            Some(without_threads(alloc, *command, source, sink))
        }
    }
}

/// Does what the words ask for: reads the source to its end, makes the whole text, and only then writes and flushes it.
/// `soak` reads nothing, and runs the load of its number. `nbd` writes its greeting, and then reads a request and writes its
/// reply, one after the other. `run`, `trace` and `soak` run threads, which wait for each other and for the gate. No contract
/// speaks of what a gate does.
pub fn pasis<R: Threads + Wait + Sync, S: Source, K: Sink, G: Gate + Sync>(
    rt: &R,
    alloc: Global,
    words: &[String],
    source: &mut S,
    sink: &mut K,
    gate: &G,
) -> Status
    ensures called { HasCalled (texts words.now) result
        (call_of ⟦<S as Source>⟧ ⟦<K as Sink>⟧ source.old source.new sink.old sink.new) }
{
    if let Some(status) = alone(alloc, words, source, sink) {
        return status;
    }
    match form_of(words) {
        Some(Form::Text(command)) => in_threads(rt, alloc, command, source, sink, gate),
        Some(Form::Session(_)) | None => Status::BadWords,
    }
}
