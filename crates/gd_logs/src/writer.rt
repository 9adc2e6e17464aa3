//! Writing a log.

ghost use Rattle.std.specs.Prelude.{◌≡◌, ◌+◌, ◌*◌, ◌^◌, ◌<◌, ◌≤◌, [], ◌∷◌, ◌++◌, length, List};
ghost use Rattle.std.specs.Prelude.{Err, IfOk, IsErr, IsSome, OnOk, OnErr};
ghost use Rattle.gd_events.specs.Events.{EventValue};
ghost use Rattle.gd_effects.specs.Crashes.{Stands};
ghost use Rattle.gd_grammar.specs.Chains.{AreChains};
ghost use Rattle.gd_grammar.specs.Closing.{gate_place};
ghost use Rattle.gd_grammar.specs.HeaderBytes.{IsHeader};
ghost use Rattle.gd_grammar.specs.LogBytes.{gate, gated_bytes, logged, record_bytes};
ghost use Rattle.gd_outside.specs.Called.{JournalCalled};
ghost use Rattle.gd_outside.specs.Disk.{Kept, Written, clock, goes_on};
ghost use Rattle.gd_outside.specs.Journals.{put_at, MayWrite};
ghost use Rattle.gd_outside.specs.Told.{told, Stays};
ghost use Rattle.gd_logs.specs.declared.pieces.TheConstants.{RECORD};
ghost use Rattle.gd_logs.specs.Written.{AddsEvents, AreRecords, IsPiece, IsStanding, MayAddEvents};

use crate::pieces::{GATE, Records, behind_gate, head_of, record_of};
use gd_events::Event;
use gd_grammar::HEADER_BYTES;
use gd_outside::{Failed, Journal};
use gd_wire::{Chains, Drawings, LogHeader, LogKind};
use std::marker::{Model, PhantomData};
use thiserror::Error;

/// Why events weren't added.
#[derive(Clone, Copy, Debug, PartialEq, Eq, Error)]
pub enum AppendFault {
    #[error("out of memory")]
    Memory,
    /// A call on the journal failed.
    #[error("the journal failed")]
    Journal,
}

/// Writes a log of a drawing.
pub type LogWriter = KindWriter<Drawings>;

/// Writes a log of some kind into a journal, one event after another or several together, in the kind's newest version.
/// Contracts see the place of the log's closing gate, and for each site the check of its events.
#[derive(Drop)]
pub struct KindWriter<K: LogKind> {
    place: u64,
    chains: Chains,
    of: PhantomData<K>,
}

impl<K: LogKind> Model for KindWriter<K> {
    ghost use Rattle.gd_logs.specs.Written.{Writer};

    ghost Value = { Writer };

    ghost view = { λ w. record { place = w.place; chains = w.chains } };
}

impl<K: LogKind> KindWriter<K> {
    /// Begins a journal of that name with the log of this header, without events. The header is of the newest version.
    /// From then on a crash leaves that log.
    ///
    /// Fails only where the journal's count of faults rises. The journal then has any contents and any name.
    pub fn start<J: Journal>(
        journal: &mut J,
        name: &str,
        header: &LogHeader,
    ) -> Result<KindWriter<K>, Failed>
        requires newest { header.now.version ≡ K.kind.newest }
        ensures place { IfOk result (λ w. w.place ≡ gate_place K.kind K.kind.newest []) }
        ensures chained { IfOk result (λ w. AreChains K.kind w.chains []) }
        ensures written { OnOk result (IsSome (J.seen journal.new).contents
            → told (J.seen journal.new).contents ≡ logged K.kind header.now []) }
        ensures stands { OnOk result (IsSome (J.seen journal.new).contents
            → Stands K.kind header.now [] (J.seen journal.new)) }
        ensures named { OnOk result (IsSome (J.seen journal.new).name
            → told (J.seen journal.new).name ≡ name.now) }
        ensures called { JournalCalled (J.seen journal.old) (J.seen journal.new) (IsErr result) }
    {
        show_ranges(header);
        let head = head_of::<K>(header);
        journal.create(name)?;
        put(journal, 0, head.as_slice())?;
        Ok(KindWriter {
            place: HEADER_BYTES as u64,
            chains: Chains::new(),
            of: PhantomData,
        })
    }

    /// Goes on with the log whose closing gate stands at that place, and whose events have these checks.
    pub fn resume(gate: u64, chains: Chains) -> KindWriter<K>
        requires { gate ≤ 2 ^ 62 }
        ensures { result ≡ record { place = gate; chains = chains } }
    {
        KindWriter {
            place: gate,
            chains,
            of: PhantomData,
        }
    }

    /// Adds an event to the log.
    ///
    /// Fails only where the journal's count of faults rises. A log that obeyed the rules then reads as before, or with
    /// the new event, and the place is as it was. So reads what a crash leaves at any moment of the call.
    pub fn append<J: Journal>(
        &mut self,
        journal: &mut J,
        event: &Event<K::Op>,
    ) -> Result<(), Failed>
        requires room { self.old.place ≤ 2 ^ 62 }
        requires log { IsSome (J.seen journal.old).contents
            → IsStanding K.kind self.old.place (J.seen journal.old) }
        ensures added { OnOk result (IsSome (J.seen journal.new).contents
            → (seen : List (EventValue K.Op)) → AreChains K.kind self.old.chains seen
            → told (J.seen journal.new).contents
            ≡ put_at (told (J.seen journal.old).contents) self.old.place
            (gated_bytes K.kind K.kind.newest seen (event.now ∷ []) ++ 0 ∷ [])) }
        ensures adds { OnOk result (IsSome (J.seen journal.new).contents
            → (seen : List (EventValue K.Op)) → AreChains K.kind self.old.chains seen
            → AddsEvents K.Op.IsOp K.kind seen (event.now ∷ [])
            (J.seen journal.old) (J.seen journal.new)) }
        ensures torn { OnErr result (IsSome (J.seen journal.new).contents
            → (seen : List (EventValue K.Op)) → AreChains K.kind self.old.chains seen
            → MayAddEvents K.Op.IsOp K.kind seen (event.now ∷ [])
            (J.seen journal.old) (J.seen journal.new)) }
        ensures chained { OnOk result ((seen : List (EventValue K.Op))
            → AreChains K.kind self.old.chains seen
            → AreChains K.kind self.new.chains (seen ++ event.now ∷ [])) }
        ensures place { OnOk result ((seen : List (EventValue K.Op))
            → AreChains K.kind self.old.chains seen → self.new.place
            ≡ self.old.place + 1 + length (record_bytes K.kind K.kind.newest seen event.now)) }
        ensures few { OnOk result (self.new.place ≤ self.old.place + RECORD) }
        ensures err { OnErr result (self.new ≡ self.old) }
        ensures calls { OnOk result (IsSome (J.seen journal.new).contents
            → clock (J.seen journal.new).disk ≡ clock (J.seen journal.old).disk + 4) }
        ensures name { Stays (J.seen journal.old).name (J.seen journal.new).name }
        ensures called { JournalCalled (J.seen journal.old) (J.seen journal.new) (IsErr result) }
    {
        let mut chains = self.chains.copy();
        let record = record_of::<K>(event, &mut chains);
        self.put_behind(journal, record.as_slice(), chains)
    }

    /// Adds several events to the log, behind one gate: first all of their bytes, the gates between them open, and a
    /// closed gate, behind the closing one, and a sync; and then that one is opened, and a sync. What stood behind the
    /// closing gate is written over, or stays behind the new one. The events were put together for this log, with the
    /// checks of those that it has.
    ///
    /// `Memory` where memory ran out, and then nothing was done. `Journal` where a call on the journal failed, which is
    /// only where its count of faults rises. A log that obeyed the rules then reads as before, or with all of the new
    /// events, and the place is as it was. So reads what a crash leaves at any moment of the call.
    pub fn append_all<J: Journal>(
        &mut self,
        journal: &mut J,
        records: Records<K>,
    ) -> Result<(), AppendFault>
        requires room { self.old.place ≤ 2 ^ 62 }
        requires some { 1 ≤ length records.bytes }
        requires log { IsSome (J.seen journal.old).contents
            → IsStanding K.kind self.old.place (J.seen journal.old) }
        ensures added { OnOk result (IsSome (J.seen journal.new).contents
            → (seen events : List (EventValue K.Op)) → AreRecords K.kind seen events records
            → told (J.seen journal.new).contents
            ≡ put_at (told (J.seen journal.old).contents) self.old.place
            (gated_bytes K.kind K.kind.newest seen events ++ 0 ∷ [])) }
        ensures adds { OnOk result (IsSome (J.seen journal.new).contents
            → (seen events : List (EventValue K.Op)) → AreRecords K.kind seen events records
            → AddsEvents K.Op.IsOp K.kind seen events (J.seen journal.old) (J.seen journal.new)) }
        ensures torn { result ≡ Err AppendFault.Journal → IsSome (J.seen journal.new).contents
            → (seen events : List (EventValue K.Op)) → AreRecords K.kind seen events records
            → MayAddEvents K.Op.IsOp K.kind seen events (J.seen journal.old) (J.seen journal.new) }
        ensures memory { result ≡ Err AppendFault.Memory → J.seen journal.new ≡ J.seen journal.old }
        ensures place { OnOk result (self.new.place ≡ self.old.place + length records.bytes) }
        ensures chained { OnOk result (self.new.chains ≡ records.chains) }
        ensures err { OnErr result (self.new ≡ self.old) }
        ensures calls { OnOk result (IsSome (J.seen journal.new).contents
            → clock (J.seen journal.new).disk ≡ clock (J.seen journal.old).disk + 4) }
        ensures name { Stays (J.seen journal.old).name (J.seen journal.new).name }
        ensures called { JournalCalled (J.seen journal.old) (J.seen journal.new)
            (result ≡ Err AppendFault.Journal) }
    {
        let chains = records.chains().copy();
        let Ok(bytes) = records.closed() else {
            return Err(AppendFault::Memory);
        };
        match self.put_behind(journal, behind_gate(bytes.as_slice()), chains) {
            Ok(()) => Ok(()),
            Err(_) => Err(AppendFault::Journal),
        }
    }

    /// Puts a piece of events behind the log's closing gate, which is opened then. From then on these are the chains.
    fn put_behind<J: Journal>(
        &mut self,
        journal: &mut J,
        piece: &[u8],
        chains: Chains,
    ) -> Result<(), Failed>
        requires room { self.old.place ≤ 2 ^ 62 }
        requires log { IsSome (J.seen journal.old).contents
            → IsStanding K.kind self.old.place (J.seen journal.old) }
        ensures added { OnOk result (IsSome (J.seen journal.new).contents
            → (seen : List (EventValue K.Op)) (e : EventValue K.Op) (es : List (EventValue K.Op))
            → IsPiece K.kind seen e es piece.now
            → told (J.seen journal.new).contents
            ≡ put_at (told (J.seen journal.old).contents) self.old.place
            (gated_bytes K.kind K.kind.newest seen (e ∷ es) ++ 0 ∷ [])) }
        ensures adds { OnOk result (IsSome (J.seen journal.new).contents
            → (seen : List (EventValue K.Op)) (e : EventValue K.Op) (es : List (EventValue K.Op))
            → IsPiece K.kind seen e es piece.now
            → AddsEvents K.Op.IsOp K.kind seen (e ∷ es) (J.seen journal.old) (J.seen journal.new)) }
        ensures torn { OnErr result (IsSome (J.seen journal.new).contents
            → (seen : List (EventValue K.Op)) (e : EventValue K.Op) (es : List (EventValue K.Op))
            → IsPiece K.kind seen e es piece.now
            → MayAddEvents K.Op.IsOp K.kind seen (e ∷ es)
            (J.seen journal.old) (J.seen journal.new)) }
        ensures place { OnOk result (self.new.place ≡ self.old.place + length piece.now) }
        ensures chained { OnOk result (self.new.chains ≡ chains) }
        ensures err { OnErr result (self.new ≡ self.old) }
        ensures calls { OnOk result (IsSome (J.seen journal.new).contents
            → clock (J.seen journal.new).disk ≡ clock (J.seen journal.old).disk + 4) }
        ensures name { Stays (J.seen journal.old).name (J.seen journal.new).name }
        ensures called { JournalCalled (J.seen journal.old) (J.seen journal.new) (IsErr result) }
    {
        put(journal, self.place + 1, piece)?;
        put(journal, self.place, &[GATE])?;
        self.place += piece.len() as u64;
        self.chains = chains;
        Ok(())
    }

    /// Where the log's closing gate stands.
    pub fn place(&self) -> u64
        ensures { result ≡ self.now.place }
    {
        self.place
    }

    /// For each site, the check of the log's events.
    pub fn chains(&self) -> &Chains
        ensures { result.now ≡ self.now.chains }
    {
        &self.chains
    }
}

/// Lets clauses see what the type of a header says of its fields.
fn show_ranges(header: &LogHeader)
    ensures header { IsHeader header.now }
    ensures session { header.now.session < 2 ^ 32 }
{
    let _site = header.site();
    let _session = header.session();
}

/// Writes the piece at `pos`, and syncs it to the device. A crash then leaves the contents.
///
/// Fails only where the journal's count of faults rises, and leaves then what a failed write may leave. What a crash
/// leaves may have any bytes in the piece's range, but for one byte over another one.
fn put<J: Journal>(journal: &mut J, pos: u64, piece: &[u8]) -> Result<(), Failed>
    requires { IsSome (J.seen journal.old).contents
        → pos ≤ length (told (J.seen journal.old).contents) }
    ensures written { OnOk result (IsSome (J.seen journal.new).contents
        → told (J.seen journal.new).contents
        ≡ put_at (told (J.seen journal.old).contents) pos piece.now) }
    ensures torn { OnErr result (IsSome (J.seen journal.new).contents
        → MayWrite (told (J.seen journal.old).contents) pos piece.now
        (told (J.seen journal.new).contents)) }
    ensures kept { OnOk result (IsSome (J.seen journal.new).contents → (J.seen journal.new).disk
        ≡ goes_on (goes_on (J.seen journal.old).disk
        (Written (J.seen journal.old).disk.now pos piece.now))
        (Kept (told (J.seen journal.new).contents))) }
    ensures lost { OnErr result (IsSome (J.seen journal.new).contents → (J.seen journal.new).disk
        ≡ goes_on (J.seen journal.old).disk
        (Written (J.seen journal.old).disk.now pos piece.now)) }
    ensures name { Stays (J.seen journal.old).name (J.seen journal.new).name }
    ensures called { JournalCalled (J.seen journal.old) (J.seen journal.new) (IsErr result) }
{
    journal.write_at(pos, piece)?;
    journal.sync()
}
