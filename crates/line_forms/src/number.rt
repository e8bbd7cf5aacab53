//! The numbers under which causes and faults are printed.
ghost use Rattle.std.specs.Prelude.{◌≡◌};
ghost use Rattle.line_forms.specs.Numbers.{cause_number, carried_number, device_number, config_number, step_number};

use crate::cause::{Cause, DeviceFault};
use quorum_rules::ConfigFault;
use run_words::StepFault;

impl Cause {
    /// The cause's number, 1 to 22, in the order in which causes are tried.
    pub fn number(&self) -> u8
        ensures { result ≡ cause_number self.now }
    {
        match self {
            Cause::Empty => 1,
            Cause::Cut => 2,
            Cause::BadHeader => 3,
            Cause::UnknownWord => 4,
            Cause::WrongCount => 5,
            Cause::BadNumber => 6,
            Cause::OutOfRange => 7,
            Cause::BadValue => 8,
            Cause::BadMessage => 9,
            Cause::Config(_) => 10,
            Cause::Twice => 11,
            Cause::TooManyLiars => 12,
            Cause::TooManyFaulty => 13,
            Cause::LyingClient => 14,
            Cause::TooManyLines => 15,
            Cause::Device(_) => 16,
            Cause::QueueBusy => 17,
            Cause::NoCommand => 18,
            Cause::Step(_) => 19,
            Cause::MissingLine => 20,
            Cause::NotSorted => 21,
            Cause::Count => 22,
        }
    }

    /// The number of the fault that the cause carries, from 1. None where it carries none.
    pub fn fault_number(&self) -> Option<u8>
        ensures { result ≡ carried_number self.now }
    {
        match self {
            Cause::Config(fault) => Some(number_of_config(*fault)),
            Cause::Device(fault) => Some(number_of_device(*fault)),
            Cause::Step(fault) => Some(number_of_step(*fault)),
            _ => None,
        }
    }
}

fn number_of_config(fault: ConfigFault) -> u8
    ensures { result ≡ config_number fault }
{
    match fault {
        ConfigFault::NodesOutOfRange => 1,
        ConfigFault::LiarsAboveFaults => 2,
        ConfigFault::QuorumLow => 3,
        ConfigFault::QuorumHigh => 4,
        ConfigFault::ShareCount => 5,
        ConfigFault::SizeOutOfRange => 6,
        ConfigFault::BlocksOutOfRange => 7,
    }
}

fn number_of_device(fault: DeviceFault) -> u8
    ensures { result ≡ device_number fault }
{
    match fault {
        DeviceFault::PastEnd => 1,
        DeviceFault::EmptyRange => 2,
    }
}

fn number_of_step(fault: StepFault) -> u8
    ensures { result ≡ step_number fault }
{
    match fault {
        StepFault::NoSuchActor => 1,
        StepFault::NoSuchMessage => 2,
        StepFault::WrongReceiver => 3,
        StepFault::Busy => 4,
        StepFault::Crashed => 5,
        StepFault::NotALiar => 6,
        StepFault::Idle => 7,
        StepFault::IsALiar => 8,
        StepFault::NotQuiet => 9,
        StepFault::NoRead => 10,
        StepFault::Worn => 11,
        StepFault::NotCrashed => 12,
    }
}
