//! What a member's bytes come to in a journal, as contracts of functions that do nothing.

ghost use Rattle.std.specs.Prelude.{◌≡◌, ◌<◌, ◌≤◌, ◌^◌, ℕ, [], List};
ghost use Rattle.gd_base.specs.declared.ranges.TheConstants.{SITES};
ghost use Rattle.gd_events.specs.Events.{Event};
ghost use Rattle.gd_grammar.specs.Closing.{Closes};
ghost use Rattle.gd_grammar.specs.Drawings.{drawings};
ghost use Rattle.gd_grammar.specs.LogBytes.{logged};
ghost use Rattle.gd_member.specs.Members.{MemberValue};
ghost use Rattle.gd_member.specs.Standing.{Stands};
ghost use Rattle.gd_outside.specs.Journals.{put_at};
ghost use Rattle.gd_reference.specs.Rejoin.{Events, found, node_header};
ghost use Rattle.gd_reference.specs.SlowSite.{SlowSite, journal_header};

/// A journal that begins with a member's `journal_head` is the log of no events: a member that is opened from it holds
/// none.
pub fn an_empty_journal_is_found()
    ensures { (me sites session : ℕ) → 1 ≤ me → me ≤ sites → sites ≤ SITES → session < 2 ^ 32
        → found (node_header me sites session) (logged drawings (node_header me sites session) [])
        ≡ Events [] }
{}

/// Once a journal that is the log of the written events has the unwritten bytes at their place, it is the log of all
/// events that the member holds, and a member that is opened from it holds these.
pub fn what_is_kept_is_found()
    ensures closes { (slow : SlowSite) (written : List Event) (m : MemberValue) (journal : List ℕ)
        → Stands slow written m → Closes drawings (journal_header slow) written journal
        → Closes drawings (journal_header slow) slow.held
        (put_at journal m.unwritten.place m.unwritten.bytes) }
    ensures found { (slow : SlowSite) (written : List Event) (m : MemberValue) (journal : List ℕ)
        → Stands slow written m → Closes drawings (journal_header slow) written journal
        → found (journal_header slow) (put_at journal m.unwritten.place m.unwritten.bytes)
        ≡ Events slow.held }
{}
