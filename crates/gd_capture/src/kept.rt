//! The kept events with their numbers.
ghost use Rattle.std.specs.Prelude.{◌≡◌, ◌+◌, ◌<◌, ◌≤◌, ◌^◌, ℕ, length, IfOk};
ghost use Rattle.gd_base.specs.Sites.{IsSite};
ghost use Rattle.gd_base.specs.declared.ranges.TheConstants.{SITES};
ghost use Rattle.gd_capture.specs.Numbering.{AreCounts, numbered, tally};
ghost use Rattle.gd_events.specs.Sound.{IsOp};
ghost use Rattle.gd_history.specs.Entries.{AllOf, events_of};
ghost use Rattle.gd_reference.specs.SlowSite.{SlowSite, kept};
ghost use Rattle.gd_site.specs.Sites.{StandsFor};
ghost use Rattle.gd_stable.specs.Heard.{of_site};

use crate::numbers::Numbers;
use gd_canvas::Canvas;
use gd_events::{Event, EventList};
use gd_history::EntryList;
use gd_site::Site;
use std::alloc::{AllocError, Global};

/// The held events above the line. Those of a site are the last ones that are held of it: what is held of it without
/// them has the numbers below theirs. `AllocError` where memory ran out.
pub(crate) fn kept_of(alloc: Global, site: &Site) -> Result<EventList, AllocError>
    ensures { (slow : SlowSite) → StandsFor slow site.now
        → IfOk result (λ events. events ≡ kept slow) }
{
    site.stands();
    let entries = site.history().entries();
    let mut numbers = counts_of(site);
    take_off(entries, &mut numbers);
    number_all(alloc, entries, numbers)
}

/// How many events of each site are held.
fn counts_of(site: &Site) -> Numbers
    ensures { (slow : SlowSite) → StandsFor slow site.now → AreCounts slow result }
{
    site.stands();
    let mut numbers = Numbers::new();
    for before in 0..site.sites() {
        let number = before + 1;
        numbers.put(number, site.count(number));
    }
    numbers
}

/// Takes from the number of each site how many entries are of it.
fn take_off(entries: &EntryList<Canvas>, numbers: &mut Numbers)
    requires sized { length numbers.old ≡ SITES }
    requires room { (t : ℕ) → IsSite t → tally t (events_of entries.now) ≤ of_site numbers.old t }
    ensures sized { length numbers.new ≡ SITES }
    ensures left { (t : ℕ) → IsSite t
        → of_site numbers.new t + tally t (events_of entries.now) ≡ of_site numbers.old t }
{
    for place in 0..entries.len() {
        let site = entries.get(place).stamp().site();
        let number = numbers.of(site);
        numbers.put(site, number - 1);
    }
}

/// The entries as events, numbered from these numbers on. `AllocError` where memory ran out.
fn number_all(
    alloc: Global,
    entries: &EntryList<Canvas>,
    mut numbers: Numbers,
) -> Result<EventList, AllocError>
    requires sound { AllOf (λ e. IsOp e.stamp e.op) (events_of entries.now) }
    requires room { (t : ℕ) → IsSite t
        → of_site numbers t + tally t (events_of entries.now) < 2 ^ 16 }
    ensures { IfOk result (λ events. events ≡ numbered numbers (events_of entries.now)) }
{
    let mut events = EventList::new(alloc);
    for place in 0..entries.len() {
        let entry = entries.get(place);
        let op = entry.op(alloc)?;
        let stamp = entry.stamp();
        let site = stamp.site();
        let number = numbers.of(site) + 1;
        numbers.put(site, number);
        events.push(Event::sound(stamp, number, op))?;
    }
    Ok(events)
}
