//! Taking the user's last gestures back, and doing them again.

ghost use Rattle.std.specs.Prelude.{◌≡◌, ◌++◌, List, Err, IfOk, OnOk, length, true};
ghost use Rattle.gd_events.specs.Events.{Event};
ghost use Rattle.gd_member.specs.Turning.{CountIs, OnRefused, PaysCount, is_memory};
ghost use Rattle.gd_member.specs.Unwritten.{AreUnwritten};
ghost use Rattle.gd_reference.specs.SlowSite.{SlowSite};
ghost use Rattle.gd_reference.specs.SiteEffects.{turned};
ghost use Rattle.gd_reference.specs.TakeBack as taking;
ghost use Rattle.gd_reference.specs.TakeBack.{after_turn};
ghost use Rattle.gd_takeback.specs.Answers.{OnBackRefusal, PaysFor, TurnIs};
ghost use Rattle.gd_takeback.specs.Standing.{StandsWith};

use crate::member::Member;
use crate::unwritten::Unwritten;
use gd_base::Steps;
use gd_events::EventList;
use gd_lines::Turn;
use gd_site::Site;
use gd_takeback::{BackFault, TakeBack};
use std::sync::ledger::Ledger;

impl Member {
    ghost use Rattle.gd_member.specs.Members.{IsLive};
    ghost use Rattle.gd_member.specs.Standing.{Stands};

    /// Takes the last gesture back that wasn't taken back yet, or does the last one again that was. Returns how many
    /// events it became, which are unwritten then, and of which each took a step.
    ///
    /// `Nothing`, `ClockEnd` and `SessionFull` are decided in this order, and then the member is as before.
    /// `NoMemory` where memory ran out, and then the member is spent.
    pub fn turn<L: Ledger>(&mut self, which: Turn, steps: &mut Steps<L>) -> Result<u64, BackFault>
        requires { IsLive self.old }
        ensures answer { (slow : SlowSite) (written : List Event) → Stands slow written self.old
            → CountIs (taking.turn slow which) result }
        ensures stands { (slow : SlowSite) (written : List Event) → Stands slow written self.old
            → OnOk result (Stands (after_turn slow which) written self.new) }
        ensures keeps { (slow : SlowSite) (written : List Event) → Stands slow written self.old
            → OnRefused result (Stands slow written self.new) }
        ensures spent { result ≡ Err BackFault.NoMemory → self.new.spent ≡ true }
        ensures steps { (slow : SlowSite) (written : List Event) → Stands slow written self.old
            → PaysCount (length (turned (taking.turn slow which))) result steps.old steps.new }
    {
        let events = self.turn_events(which, steps)?;
        Ok(events.as_slice().len() as u64)
    }

    /// The same, with the events that it became.
    pub(crate) fn turn_events<L: Ledger>(
        &mut self,
        which: Turn,
        steps: &mut Steps<L>,
    ) -> Result<EventList, BackFault>
        requires { IsLive self.old }
        ensures answer { (slow : SlowSite) (written : List Event) → Stands slow written self.old
            → TurnIs (taking.turn slow which) result }
        ensures stands { (slow : SlowSite) (written : List Event) → Stands slow written self.old
            → OnOk result (Stands (after_turn slow which) written self.new) }
        ensures keeps { (slow : SlowSite) (written : List Event) → Stands slow written self.old
            → OnBackRefusal result (Stands slow written self.new) }
        ensures spent { result ≡ Err BackFault.NoMemory → self.new.spent ≡ true }
        ensures steps { (slow : SlowSite) (written : List Event) → Stands slow written self.old
            → PaysFor (length (turned (taking.turn slow which))) result steps.old steps.new }
    {
        match turn_into(
            &mut self.site,
            &mut self.backs,
            &mut self.unwritten,
            which,
            steps,
        ) {
            Ok(events) => Ok(events),
            Err(fault) => {
                let spent = is_memory(fault);
                self.spent = spent;
                Err(fault)
            }
        }
    }
}

/// Whether it is for want of memory.
fn is_memory(fault: BackFault) -> bool
    ensures { result ≡ is_memory fault }
{
    matches!(fault, BackFault::NoMemory)
}

/// Takes a site's last gesture back, or does the last one again that was taken back, and puts its events with the
/// unwritten ones. `NoMemory` where memory ran out.
fn turn_into<L: Ledger>(
    site: &mut Site,
    backs: &mut TakeBack,
    unwritten: &mut Unwritten,
    which: Turn,
    steps: &mut Steps<L>,
) -> Result<EventList, BackFault>
    ensures answer { (slow : SlowSite) → StandsWith slow site.old backs.old
        → TurnIs (taking.turn slow which) result }
    ensures stands { (slow : SlowSite) → StandsWith slow site.old backs.old
        → OnOk result (StandsWith (after_turn slow which) site.new backs.new) }
    ensures unwritten { IfOk result (λ events. (written others : List Event)
        → AreUnwritten written others unwritten.old
        → AreUnwritten written (others ++ events) unwritten.new) }
    ensures keeps { (slow : SlowSite) → StandsWith slow site.old backs.old
        → OnBackRefusal result (StandsWith slow site.new backs.new) }
    ensures stays { OnBackRefusal result (unwritten.new ≡ unwritten.old) }
    ensures steps { (slow : SlowSite) → StandsWith slow site.old backs.old
        → PaysFor (length (turned (taking.turn slow which))) result steps.old steps.new }
{
    let events = backs.turn(site, which, steps)?;
    unwritten.add_all(events.as_slice())?;
    Ok(events)
}
