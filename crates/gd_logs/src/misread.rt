//! Why bytes are no record of a log.

ghost use Rattle.std.specs.Prelude.{◌≡◌, ◌+◌, ◌^◌, ◌≤◌, length};
ghost use Rattle.gd_grammar.specs.Reading.{place};
ghost use Rattle.gd_grammar.specs.LogBytes.{left_of, log_why};

use crate::stopped::LogFault;
use gd_base::{FieldFault, FieldWhy, LogWhy};
use gd_wire::PackError;

/// Why there is no record: memory ran out, or the bytes are none. `left` is how many bytes stand from the fault's place
/// on.
#[derive(Clone, Copy, Debug, PartialEq, Eq)]
pub enum RecordError {
    Memory,
    Misread { why: LogWhy, left: usize },
}

impl From<PackError> for RecordError {
    ghost use Rattle.std.specs.Prelude.{◌≡◌};
    ghost use Rattle.gd_logs.specs.Steps.{pack_error};

    ghost from_gives = { λ given error. error ≡ pack_error given };

    fn from(given: PackError) -> Self {
        match given {
            PackError::Memory => RecordError::Memory,
            PackError::Field(fault) => RecordError::Misread {
                why: log_why(fault.why),
                left: fault.left,
            },
        }
    }
}

fn log_why(why: FieldWhy) -> LogWhy
    ensures { result ≡ log_why why }
{
    match why {
        FieldWhy::Short => LogWhy::Short,
        FieldWhy::Magic => LogWhy::Magic,
        FieldWhy::Version => LogWhy::Version,
        FieldWhy::Field => LogWhy::Field,
        FieldWhy::FutureId => LogWhy::FutureId,
        FieldWhy::MemberOrder => LogWhy::MemberOrder,
    }
}

/// The fault of a field of these bytes, the first of which stands at the place `first` of the log.
pub fn field_fault(first: u64, bytes: &[u8], fault: FieldFault) -> LogFault
    requires room { first ≤ 2 ^ 62 }
    requires inside { fault.left ≤ length bytes.now }
    ensures { result ≡ LogFault.Bad (first + place bytes.now fault.left) (log_why fault.why) }
{
    LogFault::Bad {
        at: first + (bytes.len() - fault.left) as u64,
        why: log_why(fault.why),
    }
}

/// The error of an event that isn't next in turn, where so many bytes stand from its first byte on. It stands at the
/// event's site byte, its number, or its first byte.
pub fn turn_error(why: LogWhy, left: usize) -> RecordError
    requires { 9 ≤ left }
    ensures { result ≡ RecordError.Misread why (left_of why left) }
{
    let left = match why {
        LogWhy::NoSite => left - 6,
        LogWhy::Turn => left - 7,
        _ => left,
    };
    RecordError::Misread { why, left }
}
