//! What would be held of a site once some events of it have arrived.
ghost use Rattle.std.specs.Prelude.{◌≡◌};
ghost use Rattle.gd_base.specs.declared.offer.Offer.TheVariants.{Next};
ghost use Rattle.gd_grammar.specs.Chains.{with_taken};
ghost use Rattle.gd_grammar.specs.Drawings.{drawings};
ghost use Rattle.gd_grammar.specs.Kinds.{spelling};
ghost use Rattle.gd_site.specs.Foreseen.{differs, foreseen, foreseen_by, foreseen_offer};

use gd_base::Offer;
use gd_check::check;
use gd_events::Event;
use gd_stable::offer_by;
use gd_wire::{Chains, Drawings, EventBytes, Head, write_event};

/// How many events of a site would be held, its sure clock, and the check of these events.
#[derive(Clone, Copy, Debug)]
pub(crate) struct Foreseen {
    pub(crate) count: u16,
    pub(crate) sure: u64,
    pub(crate) check: u32,
}

impl Foreseen {
    /// Whether the head shows a parting, once these events of its site have been offered.
    pub(crate) fn parts(self, events: &[Event], head: Head) -> bool
        ensures { result ≡ differs (foreseen self events.now) head }
    {
        // An event brings at most one more: where the head counts more than all of them there is nothing to compare.
        if events.len() < usize::from(head.count.saturating_sub(self.count)) {
            return false;
        }
        self.after_all(events).differs(head)
    }

    /// The same once these events of the site have been offered, one after the other. Only those count that would be
    /// taken.
    fn after_all(self, events: &[Event]) -> Foreseen
        ensures { result ≡ foreseen self events.now }
    {
        let mut so = self;
        'offers: for event in events {
            so = so.after(event);
        }
        so
    }

    /// The same once the event has been offered.
    fn after(self, event: &Event) -> Foreseen
        ensures { result ≡ foreseen_by (foreseen_offer self event.now) self event.now }
    {
        let stamp = event.stamp();
        match offer_by(self.count, self.sure, event.number(), stamp.clock()) {
            Offer::Next => self.and_next(event),
            Offer::Repeat | Offer::Gap | Offer::Backdated { .. } => self,
        }
    }

    /// The same with the next event.
    fn and_next(self, event: &Event) -> Foreseen
        requires { foreseen_offer self event.now ≡ Next }
        ensures { result ≡ foreseen_by Next self event.now }
    {
        let mut bytes = EventBytes::new();
        write_event(event, &mut bytes);
        // It is one more than the count, since the event is the next one.
        Foreseen {
            count: event.number(),
            sure: event.stamp().clock(),
            check: check(self.check, bytes.as_slice()),
        }
    }

    /// Whether as many events would be held as a head counts, with another check.
    fn differs(self, head: Head) -> bool
        ensures { result ≡ differs self head }
    {
        self.count == head.count && self.check != head.check
    }
}

/// The chains take an event in.
pub(crate) fn chain(chains: &mut Chains, event: &Event)
    ensures { chains.new
        ≡ with_taken chains.old event.now.stamp.site (spelling drawings event.now) }
{
    chains.take_event::<Drawings>(event);
}
