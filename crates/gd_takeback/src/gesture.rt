//! A gesture while it is made.
ghost use Rattle.std.specs.Prelude.{◌≡◌, ◌+◌, ◌∷◌, [], Ok, OnOk, OnErr, length};
ghost use Rattle.gd_lines.specs.InRange.{IsEdit};
ghost use Rattle.gd_reference.specs.Judging as judging;
ghost use Rattle.gd_reference.specs.Judging.{next_event};
ghost use Rattle.gd_events.specs.Events.{Event as EventValue};
ghost use Rattle.gd_reference.specs.SlowSite.{SlowSite, clock, own};
ghost use Rattle.gd_site.specs.Judged.{own_event};
ghost use Rattle.gd_site.specs.Sites.{StandsFor};
ghost use Rattle.gd_takeback.specs.Answers.{OnRefusal, StampIs};
ghost use Rattle.gd_takeback.specs.Making.{Makes, MayBecome, making};
ghost use Rattle.gd_takeback.specs.Seen.{newest_first};

use gd_base::{Edit, Stamp, Steps};
use gd_events::{Event, EventList, Op};
use gd_site::{EditFault, Site};
use std::alloc::{AllocError, Global};
use std::marker::Model;
use std::sync::ledger::Ledger;

/// The events that a site has made of a gesture so far, and what takes them back.
#[derive(Drop)]
pub struct Gesture {
    events: EventList,
    /// What takes the last event back last.
    back: Vec<Op>,
}

impl Model for Gesture {
    ghost use Rattle.gd_takeback.specs.Lists.{GestureValue};
    ghost use Rattle.gd_takeback.specs.Seen.{newest_first};

    ghost Value = { GestureValue };

    ghost view = { λ g. record { events = g.events; back = newest_first g.back } };
}

impl Gesture {
    /// No event yet. It takes no memory.
    pub fn new(alloc: Global) -> Gesture
        ensures events { result.events ≡ [] }
        ensures back { result.back ≡ [] }
    {
        Gesture {
            events: EventList::new(alloc),
            back: Vec::new(alloc),
        }
    }

    /// The events that were made.
    pub fn events(&self) -> &[Event]
        ensures { result.now ≡ self.now.events }
    {
        self.events.as_slice()
    }

    /// The same, and what takes them back.
    pub(crate) fn into_parts(self) -> (EventList, Vec<Op>)
        ensures events { result.0 ≡ self.events }
        ensures back { newest_first result.1 ≡ self.back }
    {
        (self.events, self.back)
    }

    /// Has the site make the next event, of an edit of its user, and returns its stamp. `ClockEnd`, `SessionFull`,
    /// `NoObject`, `NotShape`, `NotGroup`, `NotPlaced`, `NotConnector`, `SameMember`, `NotTop` and `TooFar` are decided
    /// in this order, before any memory is taken, and then the site, the gesture and the steps are as before;
    /// `Memory` where it then ran out, and the steps are as before.
    pub fn edit<L: Ledger>(
        &mut self,
        site: &mut Site,
        edit: &Edit,
        steps: &mut Steps<L>,
    ) -> Result<Stamp, EditFault>
        requires { IsEdit edit.now }
        ensures answer { (slow : SlowSite) → StandsFor slow site.old
            → StampIs (judging.edit slow edit.now) result }
        ensures makes { (slow : SlowSite) → StandsFor slow site.old → (e : EventValue)
            → judging.edit slow edit.now ≡ Ok e
            → OnOk result (Makes slow e (making site.old self.old) (making site.new self.new)) }
        ensures keeps { OnRefusal result (making site.new self.new ≡ making site.old self.old) }
        ensures steps { OnOk result (steps.new ≡ steps.old + 1) }
        ensures err_steps { OnErr result (steps.new ≡ steps.old) }
    {
        let event = site.decide(edit)?;
        let stamp = event.stamp();
        self.make(site, event, steps)?;
        Ok(stamp)
    }

    /// Has it make the next event, of an operation that takes one back. An operation that can't be the next event is
    /// left out; what takes the site's own events back always can, where there is room for one more. `AllocError` where
    /// memory ran out, and the steps are as before.
    pub(crate) fn turn<L: Ledger>(
        &mut self,
        site: &mut Site,
        op: Op,
        steps: &mut Steps<L>,
    ) -> Result<(), AllocError>
        ensures makes { (slow : SlowSite) → StandsFor slow site.old → MayBecome slow (op ∷ [])
            → OnOk result (Makes slow (next_event slow.me (clock slow) (length (own slow)) op)
            (making site.old self.old) (making site.new self.new)) }
        ensures steps { (slow : SlowSite) → StandsFor slow site.old → MayBecome slow (op ∷ [])
            → OnOk result (steps.new ≡ steps.old + 1) }
        ensures err_steps { OnErr result (steps.new ≡ steps.old) }
    {
        let Ok(event) = site.next(op) else {
            return Ok(());
        };
        self.make(site, event, steps)
    }

    /// Has it make this event, which is its next one. `AllocError` where memory ran out, and the steps are as before.
    fn make<L: Ledger>(
        &mut self,
        site: &mut Site,
        event: Event,
        steps: &mut Steps<L>,
    ) -> Result<(), AllocError>
        requires { event ≡ own_event site.old event.op }
        ensures makes { (slow : SlowSite) → StandsFor slow site.old
            → OnOk result (Makes slow event (making site.old self.old)
            (making site.new self.new)) }
        ensures steps { OnOk result (steps.new ≡ steps.old + 1) }
        ensures err_steps { OnErr result (steps.new ≡ steps.old) }
    {
        let back = site.back(&event)?;
        self.back.push(back)?;
        self.events.push(event)?;
        let events = self.events.as_slice();
        site.accept(&events[events.len() - 1], steps)
    }
}
