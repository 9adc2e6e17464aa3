//! The checks of the events of all sites, and checks in bytes.

ghost use Rattle.std.specs.Prelude.{◌≡◌, ◌≤◌, ◌+◌, ◌-◌, ◌++◌, length, slice_index, slice_set, vec_capacity, vec_len};
ghost use Rattle.gd_base.specs.Results.{Gives};
ghost use Rattle.gd_base.specs.declared.ranges.TheConstants.{SITES};
ghost use Rattle.gd_check.specs.Checks.{check};
ghost use Rattle.gd_grammar.specs.Chains.{no_chains, with_taken};
ghost use Rattle.gd_grammar.specs.FieldBytes.{check_bytes};
ghost use Rattle.gd_grammar.specs.Fields.{check_word_at};
ghost use Rattle.gd_grammar.specs.Kinds.{spelling};
ghost use Rattle.gd_grammar.specs.declared.sizes.TheConstants.{EVENT_BYTES};

use crate::buffer::EventBytes;
use crate::bytes::Bytes;
use crate::kind::LogKind;
use crate::write::write_event_of;
use gd_base::{FieldFault, SITES};
use gd_check::check;
use gd_events::Event;
use std::marker::Model;

/// For each site, the check of its events, one behind the other. Contracts see them as a list, in the order of the
/// sites.
#[derive(Drop)]
pub struct Chains {
    checks: [u32; SITES as usize],
    /// The room in which an event is spelled: one of its own for each event would have to be cleared first.
    spelled: EventBytes,
}

impl Model for Chains {
    ghost use Rattle.std.specs.Prelude.{ℕ, List};

    ghost Value = { List ℕ };

    ghost view = { λ c. c.checks };
}

impl Chains {
    /// No events of any site.
    pub fn new() -> Self
        ensures { result ≡ no_chains }
    {
        Chains {
            checks: [0; SITES as usize],
            spelled: EventBytes::new(),
        }
    }

    pub fn copy(&self) -> Self
        ensures { result ≡ self.now }
    {
        Chains {
            checks: self.checks,
            spelled: EventBytes::new(),
        }
    }

    /// The check of that site's events.
    pub fn at(&self, site: u8) -> u32
        requires above { 1 ≤ site }
        requires below { site ≤ SITES }
        ensures { result ≡ slice_index self.now (site - 1) }
    {
        self.checks[(site - 1) as usize]
    }

    /// The check of that site's events and one more, whose bytes these are.
    pub fn next(&self, site: u8, bytes: &[u8]) -> u32
        requires above { 1 ≤ site }
        requires below { site ≤ SITES }
        ensures { result ≡ check (slice_index self.now (site - 1)) bytes.now }
    {
        check(self.at(site), bytes)
    }

    /// Puts a check in the place of that site's.
    pub fn set(&mut self, site: u8, value: u32)
        requires above { 1 ≤ site }
        requires below { site ≤ SITES }
        ensures { self.new ≡ slice_set self.old (site - 1) value }
    {
        self.checks[(site - 1) as usize] = value;
    }

    /// Takes an event of that site in, whose bytes these are, and returns the check of its events with it.
    pub fn take(&mut self, site: u8, bytes: &[u8]) -> u32
        requires above { 1 ≤ site }
        requires below { site ≤ SITES }
        ensures value { result ≡ check (slice_index self.old (site - 1)) bytes.now }
        ensures taken { self.new ≡ with_taken self.old site bytes.now }
    {
        let value = self.next(site, bytes);
        self.set(site, value);
        value
    }

    /// Takes an event in, as one of a log of that kind.
    pub fn take_event<K: LogKind>(&mut self, event: &Event<K::Op>)
        ensures { self.new
            ≡ with_taken self.old event.now.stamp.site (spelling K.kind event.now) }
    {
        write_event_of::<K>(event, &mut self.spelled);
        let site = event.stamp().site();
        let value = check(self.at(site), self.spelled.as_slice());
        self.set(site, value);
    }

    /// The same, and puts its bytes last. Returns the check of its site's events with it. It takes no memory.
    pub fn spell<K: LogKind>(&mut self, event: &Event<K::Op>, out: &mut Vec<u8>) -> u32
        requires { vec_len out.old + EVENT_BYTES ≤ vec_capacity out.old }
        ensures value { result ≡ check
            (slice_index self.old (event.now.stamp.site - 1)) (spelling K.kind event.now) }
        ensures taken { self.new
            ≡ with_taken self.old event.now.stamp.site (spelling K.kind event.now) }
        ensures bytes { out.new.items ≡ out.old.items ++ spelling K.kind event.now }
        ensures len { vec_len out.new ≤ vec_len out.old + EVENT_BYTES }
        ensures room { vec_capacity out.old ≤ vec_capacity out.new }
    {
        write_event_of::<K>(event, &mut self.spelled);
        let site = event.stamp().site();
        let value = check(self.at(site), self.spelled.as_slice());
        out.extend_from_slice(self.spelled.as_slice()).unwrap();
        self.set(site, value);
        value
    }
}

impl<'a> Bytes<'a> {
    /// Reads a check of four bytes, its lowest byte first. `Short` where it isn't whole.
    #[tactic(auto, unfolding(gd_grammar::specs::Fields::check_word_at))]
    pub fn check_word(&mut self) -> Result<u32, FieldFault>
        ensures { Gives (λ x. (x, self.new)) result (check_word_at self.old) }
    {
        let four = self.front(4)?;
        Ok(u32::from_le_bytes([four[0], four[1], four[2], four[3]]))
    }
}

impl EventBytes {
    /// A check of four bytes, its lowest byte first.
    pub fn put_check(&mut self, check: u32)
        requires { length self.old + 4 ≤ EVENT_BYTES }
        ensures bytes { self.new ≡ self.old ++ check_bytes check }
        ensures grown { length self.new ≡ length self.old + 4 }
    {
        self.put(&check.to_le_bytes());
    }
}
