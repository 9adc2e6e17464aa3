//! The log in a node's journal.

ghost use Rattle.std.specs.List.{flat_map};
ghost use Rattle.std.specs.Prelude.{◌≡◌, ℕ, ◌≤◌, [], ◌∷◌, ◌++◌, Err, List, IfOk, OnErr, OnOk, IsSome, length};
ghost use Rattle.gd_base.specs.declared.ranges.TheConstants.{SESSION_EVENTS};
ghost use Rattle.gd_base.specs.declared.version.Version.TheVariants as version;
ghost use Rattle.gd_effects.specs.Done.{Does};
ghost use Rattle.gd_effects.specs.Effects.{Head, Record};
ghost use Rattle.gd_effects.specs.Outside.{outside};
ghost use Rattle.gd_events.specs.Events.{Event as EventValue};
ghost use Rattle.gd_events.specs.Sound.{IsOp};
ghost use Rattle.gd_grammar.specs.Drawings.{drawings};
ghost use Rattle.gd_grammar.specs.HeaderBytes.{header_bytes};
ghost use Rattle.gd_lines.specs.Replies.{reply_text};
ghost use Rattle.gd_lines.specs.declared.reply.Reply.{Reply as ReplyValue};
ghost use Rattle.gd_logs.specs.Written.{AreRecords, IsRuled};
ghost use Rattle.gd_node.specs.Calls.{Writes};
ghost use Rattle.gd_node.specs.Meeting.{HasLog};
ghost use Rattle.gd_outside.specs.Seen.{SeenSource, SeenLink};
ghost use Rattle.gd_outside.specs.Told.{told, Stays};
ghost use Rattle.gd_reference.specs.Said.{all_said, says};
ghost use Rattle.gd_reference.specs.SiteEffects.{recording};
ghost use Rattle.gd_reference.specs.SlowSite.{SlowSite, journal_header, log_end};

use gd_answers::{Said, say};
use gd_events::Event;
use gd_logs::{AppendFault, LogWriter, Records};
use gd_outside::{End, Journal, Sink};
use gd_wire::{Drawings, LogHeader};
use gd_words::Reply;

/// Begins a journal of that name with the log of this header. `JournalFault` where a call on the journal failed; no
/// other end comes.
pub(crate) fn start_log<J: Journal>(
    journal: &mut J,
    name: &str,
    header: &LogHeader,
) -> Result<LogWriter, End>
    requires newest { header.now.version ≡ version.Three }
    ensures does { Writes (J.seen journal.old) (Head (header_bytes drawings header.now) ∷ []) result
        (J.seen journal.new) }
    ensures end { OnErr result (result ≡ Err End.JournalFault) }
    ensures log { IfOk result (λ log. HasLog header.now [] log (J.seen journal.new)) }
    ensures name { OnOk result (IsSome (J.seen journal.new).name
        → told (J.seen journal.new).name ≡ name.now) }
{
    match LogWriter::start(journal, name, header) {
        Ok(log) => Ok(log),
        Err(_) => Err(End::JournalFault),
    }
}

/// Adds an event to the log. It takes no memory for that. `JournalFault` where a call on the journal failed; no other
/// end comes.
pub(crate) fn record<J: Journal>(
    log: &mut LogWriter,
    journal: &mut J,
    event: &Event,
) -> Result<(), End>
    requires { (slow : SlowSite) × (length slow.held ≤ SESSION_EVENTS)
        × HasLog (journal_header slow) slow.held log.old (J.seen journal.old) }
    ensures does { (slow : SlowSite)
        → IsRuled IsOp drawings (journal_header slow) (slow.held ++ event.now ∷ [])
        → HasLog (journal_header slow) slow.held log.old (J.seen journal.old)
        → Writes (J.seen journal.old)
        (Record (log_end slow) slow.held (event.now ∷ []) ∷ []) result (J.seen journal.new) }
    ensures log { OnOk result ((slow : SlowSite)
        → IsRuled IsOp drawings (journal_header slow) (slow.held ++ event.now ∷ [])
        → HasLog (journal_header slow) slow.held log.old (J.seen journal.old)
        → HasLog (journal_header slow) (slow.held ++ event.now ∷ []) log.new
        (J.seen journal.new)) }
    ensures name { Stays (J.seen journal.old).name (J.seen journal.new).name }
{
    match log.append(journal, event) {
        Ok(()) => Ok(()),
        Err(_) => Err(End::JournalFault),
    }
}

/// Adds several events to the log, behind one gate, if there are any. `NoMemory` where memory ran out, and then nothing
/// was done; `JournalFault` where a call on the journal failed; no other end comes.
fn record_all<J: Journal>(
    log: &mut LogWriter,
    journal: &mut J,
    records: Records<Drawings>,
) -> Result<(), End>
    requires { (slow : SlowSite) × (length slow.held ≤ SESSION_EVENTS)
        × HasLog (journal_header slow) slow.held log.old (J.seen journal.old) }
    ensures does { (slow : SlowSite) (es : List EventValue)
        → AreRecords drawings slow.held es records
        → IsRuled IsOp drawings (journal_header slow) (slow.held ++ es)
        → HasLog (journal_header slow) slow.held log.old (J.seen journal.old)
        → Writes (J.seen journal.old) (recording slow es) result (J.seen journal.new) }
    ensures log { OnOk result ((slow : SlowSite) (es : List EventValue)
        → AreRecords drawings slow.held es records
        → IsRuled IsOp drawings (journal_header slow) (slow.held ++ es)
        → HasLog (journal_header slow) slow.held log.old (J.seen journal.old)
        → HasLog (journal_header slow) (slow.held ++ es) log.new (J.seen journal.new)) }
    ensures name { Stays (J.seen journal.old).name (J.seen journal.new).name }
{
    if records.is_empty() {
        return Ok(());
    }
    match log.append_all(journal, records) {
        Ok(()) => Ok(()),
        Err(AppendFault::Memory) => Err(End::NoMemory),
        Err(AppendFault::Journal) => Err(End::JournalFault),
    }
}

/// Adds an event to the log, and then prints what is said of it.
pub(crate) fn record_and_say<K: Sink, J: Journal>(
    log: &mut LogWriter,
    event: &Event,
    reply: &Reply,
    output: &mut K,
    journal: &mut J,
) -> Result<(), End>
    requires { (slow : SlowSite) × (length slow.held ≤ SESSION_EVENTS)
        × HasLog (journal_header slow) slow.held log.old (J.seen journal.old) }
    ensures does { (slow : SlowSite)
        → IsRuled IsOp drawings (journal_header slow) (slow.held ++ event.now ∷ [])
        → HasLog (journal_header slow) slow.held log.old (J.seen journal.old)
        → (input : SeenSource) (link : SeenLink) (steps : ℕ) → Does result
        (outside input (K.seen output.old) (J.seen journal.old) link steps)
        (Record (log_end slow) slow.held (event.now ∷ []) ∷ says reply.now ∷ [])
        (outside input (K.seen output.new) (J.seen journal.new) link steps) }
    ensures log { OnOk result ((slow : SlowSite)
        → IsRuled IsOp drawings (journal_header slow) (slow.held ++ event.now ∷ [])
        → HasLog (journal_header slow) slow.held log.old (J.seen journal.old)
        → HasLog (journal_header slow) (slow.held ++ event.now ∷ []) log.new
        (J.seen journal.new)) }
    ensures name { Stays (J.seen journal.old).name (J.seen journal.new).name }
{
    record(log, journal, event)?;
    say(reply, output)
}

/// Adds several events to the log, behind one gate, if there are any, and then prints what is said.
pub(crate) fn record_all_and_say<K: Sink, J: Journal>(
    log: &mut LogWriter,
    records: Records<Drawings>,
    said: &Said,
    output: &mut K,
    journal: &mut J,
) -> Result<(), End>
    requires { (slow : SlowSite) × (length slow.held ≤ SESSION_EVENTS)
        × HasLog (journal_header slow) slow.held log.old (J.seen journal.old) }
    ensures does { (slow : SlowSite) (es : List EventValue) (replies : List ReplyValue)
        → AreRecords drawings slow.held es records → said.now ≡ flat_map reply_text replies
        → IsRuled IsOp drawings (journal_header slow) (slow.held ++ es)
        → HasLog (journal_header slow) slow.held log.old (J.seen journal.old)
        → (input : SeenSource) (link : SeenLink) (steps : ℕ) → Does result
        (outside input (K.seen output.old) (J.seen journal.old) link steps)
        (recording slow es ++ all_said replies)
        (outside input (K.seen output.new) (J.seen journal.new) link steps) }
    ensures log { OnOk result ((slow : SlowSite) (es : List EventValue)
        → AreRecords drawings slow.held es records
        → IsRuled IsOp drawings (journal_header slow) (slow.held ++ es)
        → HasLog (journal_header slow) slow.held log.old (J.seen journal.old)
        → HasLog (journal_header slow) (slow.held ++ es) log.new (J.seen journal.new)) }
    ensures name { Stays (J.seen journal.old).name (J.seen journal.new).name }
{
    record_all(log, journal, records)?;
    said.print(output)
}
