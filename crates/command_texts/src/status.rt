ghost use Rattle.std.specs.Prelude.{◌≡◌, ◌≢◌, ◌↔◌, ◌++◌, Some, Ok, Err, codes, IsTrue, OnOk, IfErr};
ghost use Rattle.std.specs.Io.KnownBytes.{Appends, Keeps};
ghost use Rattle.std.specs.Fmt.{DisplaysOnOk};
ghost use Rattle.command_texts.specs.declared.status.Status.TheVariants.{BadScript};
ghost use Rattle.command_texts.specs.Statuses.{number_of, status_of_flaw, status_of_read, status_of_refusal, status_of_session, status_text};
ghost use Rattle.nbd_front.specs.declared.ending.Served.TheVariants.{Over};

use crate::refusal::Refusal;
use event_clock::Drawn;
use history_book::Flaw;
use line_forms::Cause;
use nbd_front::SessionEnd;
use outside_io::ReadRefusal;
use std::io::Write;
use std::{fmt, io};

/// How a call of the program ended.
#[derive(Drop)]
pub enum Status {
    /// The text was written whole and flushed. Of `nbd`: the client has left, or the input has ended where a request would
    /// begin.
    Done,
    /// The text was written whole and flushed. The history isn't one of plain registers, and this is its first flaw.
    Illegal(Flaw),
    /// The words are those of no command. Nothing was read.
    BadWords,
    /// The text is refused: the first line that has a cause, counted from 1, and its first cause.
    BadScript { line: u64, cause: Cause },
    /// The source failed.
    ReadFault,
    /// The sink failed. What it took in this call is a beginning of the text, or of `nbd`'s greeting and replies.
    WriteFault,
    /// No memory was found. Nothing was written; of `nbd`, a beginning of its greeting and replies.
    NoMemory,
    /// The source gave more than 4,194,304 bytes.
    TooLong,
    /// A run in threads drew as many numbers as a pass may, 2^40, and would draw another. Nothing was written. The numbers drawn
    /// show it.
    ClockFull(Drawn),
    /// Of `nbd`: at this place of the input, where a request begins, stand four bytes that begin none.
    BadMagic { at: u64 },
    /// Of `nbd`: the input ends within the request that begins at this place, its data included.
    CutRequest { at: u64 },
    /// Of `nbd`: a byte follows the 2^31-th request.
    TooManyRequests,
}

impl Status {
    /// Whether all went well, and no flaw was found.
    pub fn is_done(&self) -> bool
        ensures { IsTrue result ↔ (self.now ≡ Status.Done) }
    {
        matches!(self, Status::Done)
    }

    /// The number with which the program ends.
    pub fn number(&self) -> u8
        ensures { result ≡ number_of self.now }
    {
        match self {
            Status::Done => 0,
            Status::Illegal(_) => 1,
            Status::BadWords => 2,
            Status::BadScript { .. } => 3,
            Status::ReadFault => 4,
            Status::WriteFault => 5,
            Status::NoMemory => 6,
            Status::TooLong => 8,
            Status::ClockFull(_) => 10,
            Status::BadMagic { .. } => 11,
            Status::CutRequest { .. } => 12,
            Status::TooManyRequests => 13,
        }
    }
}

/// What stands of a status on standard error.
impl fmt::Display for Status {
    ghost output = { λ status. Some (status_text status) };

    fn fmt<W: fmt::Write>(&self, f: &mut fmt::Formatter<W>) -> fmt::Result {
        match self {
            Status::Done => write!(f, "pasis: done"),
            Status::Illegal(_) => write!(f, "pasis: illegal history"),
            Status::BadWords => write!(f, "pasis: bad words"),
            Status::BadScript { line, cause } => write_refusal(f, *line, *cause),
            Status::ReadFault => write!(f, "pasis: read fault"),
            Status::WriteFault => write!(f, "pasis: write fault"),
            Status::NoMemory => write!(f, "pasis: no memory"),
            Status::TooLong => write!(f, "pasis: input too long"),
            Status::ClockFull(_) => write!(f, "pasis: clock full"),
            Status::BadMagic { at } => write!(f, "pasis: bad magic at {at}"),
            Status::CutRequest { at } => write!(f, "pasis: cut request at {at}"),
            Status::TooManyRequests => write!(f, "pasis: too many requests"),
        }
    }
}

// The line that tells of a refused text: the numbers of its cause, and of the fault that the cause carries.
fn write_refusal<W: fmt::Write>(f: &mut fmt::Formatter<W>, line: u64, cause: Cause) -> fmt::Result
    ensures { DisplaysOnOk W.write_str_gives f.old result
        (Some (status_text (BadScript line cause))) f.new }
{
    let number = cause.number();
    match cause.fault_number() {
        Some(fault) => write!(f, "pasis: line {line}: cause {number}.{fault}"),
        None => write!(f, "pasis: line {line}: cause {number}"),
    }
}

impl Status {
    /// Writes the line that tells of the status, and nothing for `Done`.
    pub fn tell<W: Write>(&self, to: &mut W) -> io::Result<()>
        ensures silent { self.now ≡ Status.Done → Keeps (W.contents to.old) (W.contents to.new) }
        ensures line { self.now ≢ Status.Done
            → OnOk result (Appends (W.contents to.old) (W.contents to.new)
            (status_text self.now ++ codes "\n")) }
    {
        if self.is_done() {
            return Ok(());
        }
        writeln!(to, "{self}")
    }

    /// The status of a text that was written whole, by the flaw that was found.
    pub fn of_flaw(flaw: Option<Flaw>) -> Status
        ensures { result ≡ status_of_flaw flaw }
    {
        match flaw {
            Some(flaw) => Status::Illegal(flaw),
            None => Status::Done,
        }
    }

    /// The status of an input that was not read.
    pub fn of_read(refusal: ReadRefusal) -> Status
        ensures { result ≡ status_of_read refusal }
    {
        match refusal {
            ReadRefusal::NoMemory => Status::NoMemory,
            ReadRefusal::ReadFault => Status::ReadFault,
            ReadRefusal::TooLong => Status::TooLong,
        }
    }

    /// The status of a session.
    pub fn of_session(ended: Result<(), SessionEnd>) -> Status
        ensures done { OnOk ended (result ≡ status_of_session (Ok Over)) }
        ensures end { IfErr ended (λ end. result ≡ status_of_session (Err end)) }
    {
        match ended {
            Ok(()) => Status::Done,
            Err(SessionEnd::NoMemory) => Status::NoMemory,
            Err(SessionEnd::ReadFault) => Status::ReadFault,
            Err(SessionEnd::WriteFault) => Status::WriteFault,
            Err(SessionEnd::BadMagic { at }) => Status::BadMagic { at },
            Err(SessionEnd::CutRequest { at }) => Status::CutRequest { at },
            Err(SessionEnd::TooManyRequests) => Status::TooManyRequests,
        }
    }

    /// The status of an input for which no text is written.
    pub fn of_refusal(refusal: Refusal) -> Status
        ensures { result ≡ status_of_refusal refusal }
    {
        match refusal {
            Refusal::NoMemory => Status::NoMemory,
            Refusal::BadScript(fault) => Status::BadScript {
                line: fault.line,
                cause: fault.cause,
            },
            Refusal::ClockFull(drawn) => Status::ClockFull(drawn),
        }
    }
}
