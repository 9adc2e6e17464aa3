//! A site's gestures, and their taking back.
ghost use Rattle.std.specs.Prelude.{◌≡◌, ◌+◌, ◌∷◌, [], IfOk, OnOk, OnErr, length};
ghost use Rattle.std.specs.List.{AllByRecursion};
ghost use Rattle.gd_lines.specs.InRange.{IsEdit};
ghost use Rattle.gd_protocol.specs.Sites.{IsBack};
ghost use Rattle.gd_reference.specs.Backs.{no_backs, with_gesture};
ghost use Rattle.gd_reference.specs.Judging as judging;
ghost use Rattle.gd_reference.specs.SiteEffects.{turned};
ghost use Rattle.gd_reference.specs.SlowSite.{SlowSite, clock};
ghost use Rattle.gd_reference.specs.TakeBack as taking;
ghost use Rattle.gd_reference.specs.TakeBack.{after_edit, after_turn};
ghost use Rattle.gd_judging.specs.Faults.{EditIs};
ghost use Rattle.gd_site.specs.Sites.{StandsFor};
ghost use Rattle.gd_takeback.specs.Answers.{OnBackRefusal, PaysFor, TurnIs, may_turn};
ghost use Rattle.gd_takeback.specs.Making.{DoesAll, MayBecome};
ghost use Rattle.gd_takeback.specs.Seen.{newest_first};
ghost use Rattle.gd_takeback.specs.Standing.{PassesOn, StandsWith, handed};

use crate::back_list::BackList;
use crate::gesture::Gesture;
use gd_base::{Edit, EditRefusal, Steps};
use gd_events::{Event, EventList, Op};
use gd_lines::Turn;
use gd_site::{EditFault, Site};
use std::alloc::{AllocError, Global};
use std::marker::Model;
use std::sync::ledger::Ledger;

/// Why nothing is taken back, or done again. The first of them that applies is given, in this order.
#[derive(Clone, Copy, Debug, PartialEq, Eq)]
pub enum BackFault {
    /// There is nothing left to take back, or to do again.
    Nothing,
    /// The site's clock has no room for so many events.
    ClockEnd,
    /// The site may not make so many events more.
    SessionFull,
    /// There was no memory for them.
    NoMemory,
}

impl From<EditRefusal> for BackFault {
    ghost use Rattle.std.specs.Prelude.{◌≡◌};
    ghost use Rattle.gd_takeback.specs.Answers.{room_fault};

    ghost from_gives = { λ why fault. fault ≡ room_fault why };

    fn from(why: EditRefusal) -> Self {
        match why {
            EditRefusal::ClockEnd => BackFault::ClockEnd,
            _ => BackFault::SessionFull,
        }
    }
}

impl From<AllocError> for BackFault {
    ghost use Rattle.std.specs.Prelude.{◌≡◌};
    ghost use Rattle.gd_takeback.specs.declared.take_back.BackFault.TheVariants.{NoMemory};

    ghost from_gives = { λ _ fault. fault ≡ NoMemory };

    fn from(_: AllocError) -> Self {
        BackFault::NoMemory
    }
}

/// What takes a site's last gestures back, and what does those again that were taken back: the newest first, at most
/// 1,024 of each, in memory that is taken when it is needed. All edits of the site's user go through it.
#[derive(Drop)]
pub struct TakeBack {
    alloc: Global,
    undos: BackList,
    redos: BackList,
}

impl Model for TakeBack {
    ghost use Rattle.gd_reference.specs.Backs.{Backs};

    ghost Value = { Backs };

    ghost view = { λ t. record { undos = t.undos.gestures; redos = t.redos.gestures } };
}

impl TakeBack {
    /// With nothing to take back. It takes no memory.
    pub fn new(alloc: Global) -> TakeBack
        ensures { result ≡ no_backs }
    {
        TakeBack {
            alloc,
            undos: BackList::new(alloc),
            redos: BackList::new(alloc),
        }
    }

    /// Carries out an edit of the site's user alone, and returns the event that it became. It keeps what takes the edit
    /// back, and forgets what could be done again. `ClockEnd`, `SessionFull`, `NoObject`, `NotShape`, `NotGroup`,
    /// `NotPlaced`, `NotConnector`, `SameMember`, `NotTop` and `TooFar` are decided in this order, before any memory is
    /// taken; `Memory` where it then ran out. After each of them the site, what is kept here and the steps are as
    /// before.
    pub fn edit<L: Ledger>(
        &mut self,
        site: &mut Site,
        edit: &Edit,
        steps: &mut Steps<L>,
    ) -> Result<Event, EditFault>
        requires { IsEdit edit.now }
        ensures answer { (slow : SlowSite) → StandsWith slow site.old self.old
            → EditIs (judging.edit slow edit.now) result }
        ensures stands { (slow : SlowSite) → StandsWith slow site.old self.old
            → OnOk result (StandsWith (after_edit slow edit.now) site.new self.new) }
        ensures err_stands { (slow : SlowSite) → StandsWith slow site.old self.old
            → OnErr result (StandsWith slow site.new self.new) }
        ensures steps { OnOk result (steps.new ≡ steps.old + 1) }
        ensures err_steps { OnErr result (steps.new ≡ steps.old) }
    {
        let event = site.decide(edit)?;
        let back = alone(self.alloc, site.back(&event)?)?;
        self.undos.reserve()?;
        site.accept(&event, steps)?;
        self.undos.keep(back);
        self.redos.clear();
        Ok(event)
    }

    /// Keeps what takes a gesture back that the site has made, and forgets what could be done again; of one without
    /// events nothing. Returns its events. `AllocError` where memory ran out.
    pub fn keep(&mut self, gesture: Gesture) -> Result<EventList, AllocError>
        ensures events { IfOk result (λ events. events ≡ gesture.events) }
        ensures kept { OnOk result (self.new ≡ with_gesture gesture.back self.old) }
    {
        let (events, back) = gesture.into_parts();
        if back.is_empty() {
            return Ok(events);
        }
        self.undos.reserve()?;
        self.undos.keep(back);
        self.redos.clear();
        Ok(events)
    }

    /// Takes the last gesture back that wasn't taken back yet, or does the last one again that was, and returns the
    /// events that it became. `Nothing`, `ClockEnd` and `SessionFull` are decided in this order, before any memory is
    /// taken, and then the site, what is kept here and the steps are as before; `NoMemory` where it then ran out, and a
    /// part of the steps was taken.
    pub fn turn<L: Ledger>(
        &mut self,
        site: &mut Site,
        which: Turn,
        steps: &mut Steps<L>,
    ) -> Result<EventList, BackFault>
        ensures answer { (slow : SlowSite) → StandsWith slow site.old self.old
            → TurnIs (taking.turn slow which) result }
        ensures stands { (slow : SlowSite) → StandsWith slow site.old self.old
            → OnOk result (StandsWith (after_turn slow which) site.new self.new) }
        ensures keeps { (slow : SlowSite) → StandsWith slow site.old self.old
            → OnBackRefusal result (StandsWith slow site.new self.new) }
        ensures steps { (slow : SlowSite) → StandsWith slow site.old self.old
            → PaysFor (length (turned (taking.turn slow which))) result steps.old steps.new }
    {
        match which {
            Turn::Undo => pass_on(self.alloc, &mut self.undos, &mut self.redos, site, steps),
            Turn::Redo => pass_on(self.alloc, &mut self.redos, &mut self.undos, site, steps),
        }
    }
}

/// What takes a gesture of one event back.
fn alone(alloc: Global, op: Op) -> Result<Vec<Op>, AllocError>
    ensures { IfOk result (λ back. newest_first back ≡ op ∷ []) }
{
    let mut back = Vec::new(alloc);
    back.push(op)?;
    Ok(back)
}

/// Does the newest gesture of those that are due, which goes then, and keeps what takes it back with the others.
fn pass_on<L: Ledger>(
    alloc: Global,
    due: &mut BackList,
    others: &mut BackList,
    site: &mut Site,
    steps: &mut Steps<L>,
) -> Result<EventList, BackFault>
    ensures { (slow : SlowSite) → StandsFor slow site.old
        → AllByRecursion (AllByRecursion (IsBack (clock slow))) due.old.gestures
        → PassesOn slow result (handed site.old due.old.gestures others.old.gestures)
        (handed site.new due.new.gestures others.new.gestures) steps.old steps.new }
{
    may_turn(due, site)?;
    others.reserve()?;
    let Some(back) = due.take_newest() else {
        return Err(BackFault::Nothing);
    };
    let gesture = do_all(alloc, back, site, steps)?;
    let (events, back) = gesture.into_parts();
    others.keep(back);
    Ok(events)
}

/// Whether there is a gesture that is due, and the site has room for its events.
fn may_turn(due: &BackList, site: &Site) -> Result<(), BackFault>
    ensures { result ≡ may_turn site.now.clock site.now.made due.now.gestures }
{
    let Some(count) = due.newest_count() else {
        return Err(BackFault::Nothing);
    };
    site.has_room(count)?;
    Ok(())
}

/// A gesture of the operations, the last one first. `AllocError` where memory ran out, and a part of them was done
/// then.
fn do_all<L: Ledger>(
    alloc: Global,
    back: Vec<Op>,
    site: &mut Site,
    steps: &mut Steps<L>,
) -> Result<Gesture, AllocError>
    ensures { (slow : SlowSite) → StandsFor slow site.old → MayBecome slow (newest_first back)
        → DoesAll slow (newest_first back) site.new steps.old steps.new result }
{
    let mut gesture = Gesture::new(alloc);
    let mut left = back;
    'left: while let Some(op) = left.pop() {
        gesture.turn(site, op, steps)?;
    }
    Ok(gesture)
}
