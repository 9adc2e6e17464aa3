//! Going on from a journal's bytes.

ghost use Rattle.std.specs.Prelude.{◌≡◌, ◌≤◌, ◌++◌, ◌∷◌, [], List, Err, IfErr, IfOk, Ok};
ghost use Rattle.gd_base.specs.declared.ranges.TheConstants.{SITES};
ghost use Rattle.gd_events.specs.Events.{Event};
ghost use Rattle.gd_grammar.specs.Drawings.{drawings};
ghost use Rattle.gd_grammar.specs.HeaderBytes.{header_bytes};
ghost use Rattle.gd_grammar.specs.LogBytes.{logged};
ghost use Rattle.gd_json.specs.EventsJson.{events_json};
ghost use Rattle.gd_member.specs.Opening.{OpenIs, PaysFor};
ghost use Rattle.gd_reference.specs.Rejoin.{Events, found, node_header};
ghost use Rattle.gd_reference.specs.SlowSite.{SlowSite, journal_header};
ghost use Rattle.gd_rejoin.specs.Faults.{IsFound};

use crate::member::Member;
use crate::unwritten::Unwritten;
use arrayvec::ArrayVec;
use gd_base::{Steps, Version};
use gd_export::{JsonText, events_json as json_of};
use gd_grammar::HEADER_BYTES;
use gd_logs::CLOSED;
use gd_rejoin::{ResumeFault, log_for, site_of};
use gd_takeback::TakeBack;
use gd_wire::{HeaderBytes, LogHeader, write_header};
use std::alloc::Global;
use std::sync::ledger::Ledger;

/// A header and a gate have this many bytes.
const HEAD: usize = HEADER_BYTES + 1;

impl Member {
    ghost use Rattle.gd_member.specs.Members.{IsLive};
    ghost use Rattle.gd_member.specs.Standing.{Stands};

    /// The member that goes on from the bytes of its journal, whatever follows its closing gate: it holds the events of
    /// its log, all of which the journal has. The steps rise by what the arrivals of the events cost.
    ///
    /// `Bad` where the bytes are no log with its closing gate, at the first fault, and `Other` where they are a log of
    /// another session, site, or number of sites. `NoMemory` where memory ran out. `Journal` never.
    pub fn open<L: Ledger>(
        alloc: Global,
        journal: Vec<u8>,
        me: u8,
        sites: u8,
        session: u32,
        steps: &mut Steps<L>,
    ) -> Result<Member, ResumeFault>
        requires from { 1 ≤ me }
        requires to { me ≤ sites }
        requires few { sites ≤ SITES }
        ensures opened { OpenIs me sites session
            (found (node_header me sites session) journal.items) result }
        ensures steps { PaysFor (found (node_header me sites session) journal.items) result
            steps.old steps.new }
    {
        let header = header_of(me, sites, session);
        let log = log_for(alloc, journal, &header)?;
        let (site, writer) = site_of(alloc, &log, &header, steps)?;
        let backs = TakeBack::new(alloc);
        let unwritten = Unwritten::behind(alloc, writer.place(), writer.chains().copy());
        Ok(Member {
            alloc,
            site,
            backs,
            unwritten,
            spent: false,
        })
    }

    /// What the journal of a member begins with: the bytes of a log without events.
    pub fn journal_head(&self) -> ArrayVec<u8, HEAD>
        ensures { (slow : SlowSite) (written : List Event) → Stands slow written self.now
            → result.items ≡ logged drawings (journal_header slow) [] }
    {
        self.site.stands();
        head_of(&header_of(self.site.me(), self.site.sites(), self.site.session()))
    }
}

/// The events of the log in a journal's bytes, as one line of JSON. Its faults are those of `Member::open`.
pub fn events_json(
    alloc: Global,
    journal: Vec<u8>,
    me: u8,
    sites: u8,
    session: u32,
) -> Result<JsonText, ResumeFault>
    requires from { 1 ≤ me }
    requires to { me ≤ sites }
    requires few { sites ≤ SITES }
    ensures line { IfOk result (λ line. (events : List Event)
        × (found (node_header me sites session) journal.items ≡ Events events)
        × (line ≡ events_json events)) }
    ensures fault { IfErr result (λ fault.
        IsFound fault (found (node_header me sites session) journal.items)) }
{
    let log = log_for(alloc, journal, &header_of(me, sites, session))?;
    let line = json_of(alloc, &log.events)?;
    Ok(line)
}

/// The header of a member's journal.
fn header_of(me: u8, sites: u8, session: u32) -> LogHeader
    requires from { 1 ≤ me }
    requires to { me ≤ sites }
    requires few { sites ≤ SITES }
    ensures { result ≡ node_header me sites session }
{
    let Some(header) = LogHeader::new(Version::Three, session, me, sites) else {
        unreachable!()
    };
    header
}

/// The bytes of a header, and a closed gate.
fn head_of(header: &LogHeader) -> ArrayVec<u8, HEAD>
    ensures { result.items ≡ header_bytes drawings header.now ++ 0 ∷ [] }
{
    let mut bytes = HeaderBytes::new();
    write_header(header, &mut bytes);
    let mut head = ArrayVec::new();
    head.try_extend_from_slice(bytes.as_slice()).unwrap();
    head.push(CLOSED);
    head
}
