//! Events as the bytes that a journal takes.

ghost use Rattle.std.specs.Prelude.{◌≡◌, ◌+◌, ◌-◌, ◌^◌, ◌<◌, ◌≤◌, ◌==◌, [], ◌∷◌, ◌++◌, List, OnErr, OnOk, length};
ghost use Rattle.gd_base.specs.declared.version.Version.TheVariants as version;
ghost use Rattle.gd_events.specs.Events.{Event as EventValue};
ghost use Rattle.gd_grammar.specs.Chains.{AreChains};
ghost use Rattle.gd_grammar.specs.Closing.{gate_place};
ghost use Rattle.gd_grammar.specs.Drawings.{drawings};
ghost use Rattle.gd_member.specs.Unwritten.{AreUnwritten};

use gd_events::Event;
use gd_grammar::{EVENT_BYTES, HEADER_BYTES};
use gd_logs::{CLOSED, put_gated};
use gd_wire::{Chains, Drawings};
use std::alloc::{AllocError, Global};
use std::marker::Model;

/// One more event takes at most so many bytes: it, its check, its gate, and the closing gate.
pub(crate) const ROOM: usize = EVENT_BYTES + 6;

/// The events that aren't in the caller's journal yet, as the bytes that are put over its closing gate. Contracts see
/// the place of that gate, the bytes, for each site the check of its events, and for how many bytes more there is room.
#[derive(Drop)]
pub(crate) struct Unwritten {
    place: u64,
    bytes: Vec<u8>,
    chains: Chains,
}

impl Model for Unwritten {
    ghost use Rattle.std.specs.Prelude.{◌-◌, vec_capacity, vec_len};
    ghost use Rattle.gd_member.specs.Unwritten.{UnwrittenValue};

    ghost Value = { UnwrittenValue };

    ghost view = { λ u. record {
      place = u.place;
      bytes = u.bytes.items;
      chains = u.chains;
      spare = vec_capacity u.bytes - vec_len u.bytes;
    } };
}

impl Unwritten {
    /// None, behind an empty journal. It takes no memory.
    pub(crate) fn new(alloc: Global) -> Unwritten
        ensures { AreUnwritten [] [] result }
    {
        Unwritten::behind(alloc, HEADER_BYTES as u64, Chains::new())
    }

    /// None, behind a journal whose closing gate stands at that place, and whose events have these checks. It takes no
    /// memory.
    pub(crate) fn behind(alloc: Global, place: u64, chains: Chains) -> Unwritten
        ensures { (written : List EventValue) → place ≡ gate_place drawings version.Three written
            → AreChains drawings chains written → AreUnwritten written [] result }
    {
        Unwritten {
            place,
            bytes: Vec::new(alloc),
            chains,
        }
    }

    /// Makes room for one more. `AllocError` where memory ran out. What is there stays in any case.
    pub(crate) fn reserve(&mut self) -> Result<(), AllocError>
        ensures stays { (written others : List EventValue) → AreUnwritten written others self.old
            → AreUnwritten written others self.new }
        ensures room { OnOk result (ROOM ≤ self.new.spare) }
    {
        self.bytes.reserve(ROOM)
    }

    /// Puts an event last, where there is room for it, as there is after a `reserve`. It takes no memory.
    pub(crate) fn add(&mut self, event: &Event)
        requires { ROOM ≤ self.old.spare }
        ensures { (written others : List EventValue) → AreUnwritten written others self.old
            → AreUnwritten written (others ++ event.now ∷ []) self.new }
    {
        let _ = self.bytes.pop();
        put_gated::<Drawings>(event, &mut self.chains, &mut self.bytes);
        self.bytes.push_reserved(CLOSED);
    }

    /// Puts these events last. `AllocError` where memory ran out, and then they are of no use any more.
    pub(crate) fn add_all(&mut self, events: &[Event]) -> Result<(), AllocError>
        ensures { OnOk result ((written others : List EventValue)
            → AreUnwritten written others self.old
            → AreUnwritten written (others ++ events.now) self.new) }
    {
        for event in events {
            self.reserve()?;
            self.add(event);
        }
        Ok(())
    }

    /// The journal has them now: its closing gate stands behind them. The memory is kept for those to come.
    pub(crate) fn close(&mut self)
        requires { self.old.place + length self.old.bytes < 2 ^ 63 }
        ensures { (written others : List EventValue) → AreUnwritten written others self.old
            → AreUnwritten (written ++ others) [] self.new }
    {
        let _ = self.bytes.pop();
        self.place += self.bytes.len() as u64;
        self.bytes.clear();
    }

    /// The place of the journal's closing gate.
    pub(crate) fn place(&self) -> u64
        ensures { result ≡ self.now.place }
    {
        self.place
    }

    /// The bytes that are put there.
    pub(crate) fn bytes(&self) -> &[u8]
        ensures { result.now ≡ self.now.bytes }
    {
        self.bytes.as_slice()
    }

    /// Whether there are none.
    pub(crate) fn is_empty(&self) -> bool
        ensures { result ≡ (length self.now.bytes == 0) }
    {
        self.bytes.is_empty()
    }
}
