ghost use Rattle.std.specs.Prelude.{◌≡◌, ◌≤◌, Some, IfOk, MatchResult};
ghost use Rattle.gd_events.specs.Events.{IsSoundWith, first_event};
ghost use Rattle.gd_events.specs.Sound.{event_fault, IsSound};

use crate::op::Op;
use crate::operation::Operation;
use crate::rules::{has_members, has_rising_ids, is_in_range, names_before};
use gd_base::{Shape, Stamp, Text};
use std::alloc::{AllocError, Global};
use std::marker::Model;
use thiserror::Error;

/// Why an event isn't sound.
#[derive(Clone, Copy, Debug, PartialEq, Eq, Error)]
pub enum EventFault {
    #[error("the number of the event is 0")]
    Seq,
    #[error("a place, a shift, a size, a colour or a width is out of its range")]
    Range,
    #[error("a group has fewer than 2 members, or what is disbanded no tie")]
    MemberCount,
    #[error("an id or the stamp of a rank is not before the event's stamp, or a link leads to no greater id")]
    FutureId,
    #[error("the ids of members or of ties do not rise strictly")]
    MemberOrder,
}

/// What a site's user did: a stamp, the number among that site's events, from 1, and the operation. It is always sound.
#[derive(Drop)]
pub struct Event<O: Operation = Op> {
    stamp: Stamp,
    number: u16,
    op: O,
}

impl<O: Operation> Model for Event<O> {
    ghost use Rattle.gd_events.specs.Events.{EventValue, IsSoundWith};

    ghost Value = { EventValue O };

    ghost view = { λ e. record { stamp = e.stamp; number = e.number; op = e.op } };

    ghost invariant = { λ e.
        IsSoundWith O.IsOp (record { stamp = e.stamp; number = e.number; op = e.op }) };
}

impl<O: Operation> Event<O> {
    /// An event of an operation that one with that stamp may have. Nothing is judged again.
    pub fn sound(stamp: Stamp, number: u16, op: O) -> Self
        requires above { 1 ≤ number }
        requires op { O.IsOp stamp op }
        ensures { result ≡ record { stamp = stamp; number = number; op = op } }
    {
        Event { stamp, number, op }
    }

    pub fn stamp(&self) -> Stamp
        ensures { result ≡ self.now.stamp }
    {
        self.stamp
    }

    /// Its number among the events of its site, from 1.
    pub fn number(&self) -> u16
        ensures { result ≡ self.now.number }
    {
        self.number
    }

    pub fn op(&self) -> &O
        ensures op { result.now ≡ self.now.op }
        ensures sound { IsSoundWith O.IsOp self.now }
    {
        &self.op
    }

    /// A copy of the event. `AllocError` where memory ran out.
    pub fn copy(&self, alloc: Global) -> Result<Self, AllocError>
        ensures { IfOk result (λ event. event ≡ self.now) }
    {
        let op = self.op.copy(alloc)?;
        Ok(Event::sound(self.stamp, self.number, op))
    }

    /// Its stamp and its operation, which is moved.
    pub fn into_parts(self) -> (Stamp, O)
        ensures stamp { result.0 ≡ self.stamp }
        ensures op { result.1 ≡ self.op }
        ensures sound { IsSoundWith O.IsOp self }
    {
        (self.stamp, self.op)
    }
}

impl Event<Op> {
    /// The first of `Seq`, `Range`, `MemberCount`, `FutureId` and `MemberOrder` that applies is the fault.
    pub fn new(stamp: Stamp, seq: u16, op: Op) -> Result<Self, EventFault>
        ensures { MatchResult result
            (λ e. (e ≡ record { stamp = stamp; number = seq; op = op }) × IsSound e)
            (λ fault. event_fault (record { stamp = stamp; number = seq; op = op }) ≡ Some fault) }
    {
        if seq == 0 {
            return Err(EventFault::Seq);
        }
        if !is_in_range(&op) {
            return Err(EventFault::Range);
        }
        if !has_members(&op) {
            return Err(EventFault::MemberCount);
        }
        if !names_before(stamp, &op) {
            return Err(EventFault::FutureId);
        }
        if !has_rising_ids(&op) {
            return Err(EventFault::MemberOrder);
        }
        Ok(Event {
            stamp,
            number: seq,
            op,
        })
    }
}

impl Default for Event {
    ghost is_default = { λ e. e ≡ first_event };

    /// The first event of site 1, of clock 1: a rect at 0 0 of size 0 0 without a label.
    fn default() -> Self {
        let op = Op::Create {
            kind: Shape::Rect,
            x: 0,
            y: 0,
            w: 0,
            h: 0,
            label: Text::default(),
        };
        Event::sound(Stamp::default(), 1, op)
    }
}
