//! Reading a log up to its first fault.

ghost use Rattle.std.specs.Prelude.{◌≡◌, ◌≤◌, ◌++◌, length, IfErr, IfOk, IsSome, IsTrue};
ghost use Rattle.gd_base.specs.declared.ranges.TheConstants.{SESSION_EVENTS};
ghost use Rattle.gd_events.specs.Ordered.{are_distinct};
ghost use Rattle.gd_grammar.specs.HeaderBytes.{header_bytes};
ghost use Rattle.gd_outside.specs.Told.{told};
ghost use Rattle.gd_outside.specs.Called.{SourceCalled};
ghost use Rattle.gd_logs.specs.Fronts.{Begins, IsFront, IsNoFault};
ghost use Rattle.gd_logs.specs.Stream.{stream};

use crate::log::ReadError;
use crate::reader::KindReader;
use crate::stopped::LogFault;
use gd_base::LogWhy;
use gd_events::{EventList, Op, Operation};
use gd_outside::Source;
use gd_wire::LogKind;
use std::alloc::Global;

/// The first fault of the bytes of a log, and its place, counted from the first of them.
#[derive(Clone, Copy, Debug, PartialEq, Eq)]
pub struct FaultAt {
    pub at: u64,
    pub why: LogWhy,
}

/// What stands in a log before its first fault.
#[derive(Drop)]
pub struct LogFront<O: Operation = Op> {
    pub events: EventList<O>,
    /// None where the log has no fault: then these are all of its events.
    pub fault: Option<FaultAt>,
}

/// The events of a log up to its first fault, in its order, and that fault. No two events have one stamp.
///
/// `Log` with `Read` where a read failed, and `Memory` where memory ran out.
pub fn read_front_of<K: LogKind, S: Source>(
    alloc: Global,
    source: &mut S,
) -> Result<LogFront<K::Op>, ReadError>
    ensures front { IfOk result (λ front. IsSome (S.seen source.new).left
        → IsFront K.Op.IsOp K.kind front.events front.fault (told (S.seen source.old).left)) }
    ensures few { IfOk result (λ front. length front.events ≤ SESSION_EVENTS) }
    ensures distinct { IfOk result (λ front. IsTrue (are_distinct front.events)) }
    ensures error { IfErr result IsNoFault }
    ensures called { SourceCalled (S.seen source.old) (S.seen source.new)
        (result ≡ Err (ReadError.Log LogFault.Read)) }
{
    match KindReader::<K>::start(source) {
        Ok((reader, _)) => read_events::<K, S>(alloc, reader, source),
        Err(LogFault::Read) => Err(ReadError::Log(LogFault::Read)),
        Err(LogFault::Bad { at, why }) => Ok(LogFront {
            events: EventList::new(alloc),
            fault: Some(FaultAt { at, why }),
        }),
    }
}

/// The same behind the header.
fn read_events<K: LogKind, S: Source>(
    alloc: Global,
    reader: KindReader<K>,
    source: &mut S,
) -> Result<LogFront<K::Op>, ReadError>
    requires { Begins K.Op.IsOp K.kind reader }
    ensures front { IfOk result (λ front. IsSome (S.seen source.new).left
        → IsFront K.Op.IsOp K.kind front.events front.fault
        (header_bytes K.kind reader.header ++ stream reader.ahead (S.seen source.old).left)) }
    ensures few { IfOk result (λ front. length front.events ≤ SESSION_EVENTS) }
    ensures distinct { IfOk result (λ front. IsTrue (are_distinct front.events)) }
    ensures error { IfErr result IsNoFault }
    ensures called { SourceCalled (S.seen source.old) (S.seen source.new)
        (result ≡ Err (ReadError.Log LogFault.Read)) }
{
    let mut reader = reader;
    let mut events = EventList::new(alloc);
    'records: loop {
        match reader.next(alloc, source) {
            Ok(Some(event)) => events.push(event)?,
            Ok(None) => {
                return Ok(LogFront {
                    events,
                    fault: None,
                });
            }
            Err(ReadError::Log(LogFault::Bad { at, why })) => {
                return Ok(LogFront {
                    events,
                    fault: Some(FaultAt { at, why }),
                });
            }
            Err(ReadError::Log(LogFault::Read)) => {
                return Err(ReadError::Log(LogFault::Read));
            }
            Err(ReadError::Memory) => return Err(ReadError::Memory),
        }
    }
}
