ghost use Rattle.std.specs.Prelude.{◌≡◌, ◌+◌, ◌-◌, ◌≤◌, List, [], ◌∷◌, ◌++◌, length, drop, nat_le, if◌then◌else◌, OnOk};
ghost use Rattle.gd_events.specs.Events.{Event as EventValue};
ghost use Rattle.gd_events.specs.Sound.{IsSound};
ghost use Rattle.gd_grammar.specs.FrameBytes.{events_bytes};
ghost use Rattle.gd_grammar.specs.declared.sizes.TheConstants.{FRAME_ROOM};
ghost use Rattle.gd_wire.specs.Frames.{spelled_events};
ghost use Rattle.gd_stable.specs.Outboxes.{numbered_above, first_above};
ghost use Rattle.gd_stable.specs.Numbering.{follows, are_numbered_on, last_number, count_to};

use gd_events::Event;
use gd_wire::FrameEvents;
use std::alloc::{AllocError, Global};
use std::collections::VecDeque;
use std::marker::Model;

/// Own events that some other site may not have yet, in the order in which they were pushed. Contracts see the events,
/// and beside them for how many more the list has room.
#[derive(Drop)]
pub struct Outbox {
    events: VecDeque<Event>,
    /// Whether their numbers go on by one, as a site's own do. Then `after` and `drop_to` find the place of an event
    /// from its number, and else they look through all of them.
    numbered_on: bool,
}

impl Model for Outbox {
    ghost use Rattle.std.specs.Prelude.{◌≡◌, ◌-◌};
    ghost use Rattle.std.specs.VecDeque.{deque_len, deque_capacity};
    ghost use Rattle.gd_stable.specs.Outboxes.{OutboxValue};
    ghost use Rattle.gd_stable.specs.Numbering.{are_numbered_on};

    ghost Value = { OutboxValue };

    ghost view = { λ o. record {
      events = o.events.items;
      spare = deque_capacity o.events - deque_len o.events;
    } };

    ghost invariant = { λ o. o.numbered_on ≡ are_numbered_on o.events.items };
}

impl Outbox {
    /// No events. It takes no memory.
    pub fn new(alloc: Global) -> Self
        ensures { result.events ≡ [] }
    {
        Outbox {
            events: VecDeque::new(alloc),
            numbered_on: true,
        }
    }

    /// Makes room in the list for one more event, so that `push` can put it there. `AllocError` where memory ran out.
    /// The events stay in any case.
    pub fn reserve(&mut self) -> Result<(), AllocError>
        ensures events { self.new.events ≡ self.old.events }
        ensures room { OnOk result (1 ≤ self.new.spare) }
    {
        self.events.reserve(1)
    }

    /// Puts the event last, where the list has room, as it has after a `reserve`. It takes no memory.
    pub fn push(&mut self, event: Event)
        requires { 1 ≤ self.old.spare }
        ensures events { self.new.events ≡ self.old.events ++ event ∷ [] }
        ensures spare { self.new.spare + 1 ≡ self.old.spare }
    {
        self.numbered_on &= follows(last_number(&self.events), event.number());
        self.events.push_back_reserved(event);
    }

    /// The first events that are numbered above `k`, as many as fit into a frame, as their bytes. It takes no memory.
    pub fn after(&self, k: u16) -> FrameEvents
        ensures { result ≡ spelled_events (first_above k self.now.events) }
    {
        let mut found = FrameEvents::new();
        for place in count_to(self.numbered_on, &self.events, k)..self.events.len() {
            if !put_above(&mut found, k, &self.events[place]) {
                return found;
            }
        }
        found
    }

    /// Removes the events that are numbered at most `k`; the others stay, in order. It takes no memory.
    pub fn drop_to(&mut self, k: u16)
        ensures { self.new.events ≡ numbered_above k self.old.events }
    {
        if self.numbered_on {
            let count = count_to(true, &self.events, k);
            drop_first(&mut self.events, count);
        } else {
            self.events.retain(|event| event.number() > k);
            self.numbered_on = are_numbered_on(&self.events);
        }
    }
}

/// Whether the number is one above the last one, if there is one.
fn follows(last: Option<u16>, number: u16) -> bool
    ensures { result ≡ follows last number }
{
    match last {
        None => true,
        Some(last) => u32::from(number) == u32::from(last) + 1,
    }
}

/// The number of the last event, if there is one.
fn last_number(events: &VecDeque<Event>) -> Option<u16>
    ensures { result ≡ last_number events.now.items }
{
    Some(events.back()?.number())
}

/// Whether the numbers go on by one.
#[tactic(auto, unfolding(crate::specs::Numbering::go_on_from))]
fn are_numbered_on(events: &VecDeque<Event>) -> bool
    ensures { result ≡ are_numbered_on events.now.items }
{
    let mut last = None;
    for place in 0..events.len() {
        let number = events[place].number();
        if !follows(last, number) {
            return false;
        }
        last = Some(number);
    }
    true
}

/// How many of the first events are numbered at most `k`, where their numbers go on by one; otherwise none is counted.
fn count_to(numbered_on: bool, events: &VecDeque<Event>, k: u16) -> usize
    ensures { result ≡ count_to numbered_on events.now.items k }
{
    match events.front() {
        Some(first) if numbered_on => {
            let count = (usize::from(k) + 1).saturating_sub(usize::from(first.number()));
            count.min(events.len())
        }
        _ => 0,
    }
}

/// Removes the first `count` events, and touches no other.
fn drop_first(events: &mut VecDeque<Event>, count: usize)
    requires { count ≤ length events.old.items }
    ensures { events.new.items ≡ drop count events.old.items }
{
    drop(events.drain(..count));
}

/// Puts the event last, where it is numbered above `k`. False exactly where its bytes don't fit then, and nothing
/// changes.
fn put_above(found: &mut FrameEvents, k: u16, event: &Event) -> bool
    ensures room { result ≡ nat_le
        (length (events_bytes (numbered_above k (event.now ∷ []))))
        (FRAME_ROOM - length found.old.text) }
    ensures events { (es : List EventValue) → found.old ≡ spelled_events es
        → found.new ≡ spelled_events
        (if result then es ++ numbered_above k (event.now ∷ []) else es) }
    ensures sound { IsSound event.now }
{
    // Brings the event's invariant into this proof; no effect at run time.
    let _ = event.op();
    if event.number() <= k {
        return true;
    }
    found.push(event)
}
