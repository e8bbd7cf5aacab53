use quorum_rules::ConfigFault;
use run_words::StepFault;

/// Why a device command is refused.
#[derive(Clone, Copy, Debug, PartialEq, Eq)]
pub enum DeviceFault {
    /// The range goes past the device's end.
    PastEnd,
    /// The range has no byte.
    EmptyRange,
}

/// Why a line is refused. A line with several causes is refused with the first of these.
#[derive(Clone, Copy, Debug, PartialEq, Eq)]
pub enum Cause {
    /// The text has no byte.
    Empty,
    /// The last line has no newline.
    Cut,
    /// The first line of a script is the header of no edition.
    BadHeader,
    /// The line's word, or a fixed word after it, isn't one that may stand there.
    UnknownWord,
    /// The line hasn't the fields of its form, or has a space at an end or beside another.
    WrongCount,
    /// A number's field isn't a number, or exceeds its type.
    BadNumber,
    /// A number isn't one that may stand there.
    OutOfRange,
    /// A value's field isn't a value, or has another length than the form asks.
    BadValue,
    /// What follows the word isn't a message's text, or is the wrong kind of message.
    BadMessage,
    /// The numbers of the cluster make no configuration.
    Config(ConfigFault),
    /// The line declares again what an earlier one of its kind declared.
    Twice,
    /// The line declares one lying node more than there may be.
    TooManyLiars,
    /// The line makes more nodes lying or crashing than may be faulty.
    TooManyFaulty,
    /// The line gives work or a fault to a client that is declared lying, or declares one lying that
    /// an earlier line names.
    LyingClient,
    /// The line exceeds a limit of its text.
    TooManyLines,
    /// The device refuses the command.
    Device(DeviceFault),
    /// The client has steps of an earlier device command left.
    QueueBusy,
    /// The client has no step of a device command left.
    NoCommand,
    /// The line can't take place in the run.
    Step(StepFault),
    /// The text ends before a line that it must have.
    MissingLine,
    /// The line doesn't stand strictly above the one before.
    NotSorted,
    /// A count isn't the number of the lines that it counts.
    Count,
}
