//! Gestures: lines that are carried out together.

ghost use Rattle.std.specs.Prelude.{◌≡◌, ◌≤◌, ◌+◌, ◌<◌, ◌^◌, [], ℕ, IfOk, List, OnErr};
ghost use Rattle.gd_events.specs.Events.{Event};
ghost use Rattle.gd_member.specs.Gestures.{AreJudged, CarriesOut, Gestures, Judged, Judges};
ghost use Rattle.gd_member.specs.Gestures.{asked_in, next_asked, parts, unless_full, with_line};
ghost use Rattle.gd_member.specs.Unwritten.{AreUnwritten};
ghost use Rattle.gd_protocol.specs.Sites.{IsAsk};
ghost use Rattle.gd_reference.specs.NodeRun.{IsRead};
ghost use Rattle.gd_reference.specs.SlowSite.{SlowSite};
ghost use Rattle.gd_reference.specs.TakeBack.{Asked as AskedValue};
ghost use Rattle.gd_site.specs.Sites.{StandsFor};
ghost use Rattle.gd_takeback.specs.Making.{making};
ghost use Rattle.gd_takeback.specs.Standing.{StandsWith};

use crate::cutting::{first_line, from};
use crate::lines::read;
use crate::member::Member;
use crate::unwritten::Unwritten;
use gd_answers::{Said, edit_refusal, line_refusal};
use gd_base::{Edit, LineFault, Refusal, Steps};
use gd_site::Site;
use gd_takeback::{Gesture, TakeBack};
use gd_words::{Command, Reply, what_is_read_is_in_range};
use std::alloc::{AllocError, Global};
use std::sync::ledger::Ledger;

/// What a line of a gesture asks for: an edit, or something that is refused.
type Asked = Result<Edit, Refusal>;

/// At most so many lines are judged.
const MOST_LINES: u64 = 512;

impl Member {
    ghost use Rattle.gd_member.specs.Members.{IsLive};
    ghost use Rattle.gd_member.specs.Standing.{Stands};

    /// Makes one gesture of these lines, which line feeds part: judges the edit of each where those before it have
    /// been made. What a node prints of them between `begin` and `end` is said behind what was said: what came of
    /// each line that isn't blank, and how many there were. A faulty line, an edit that can't be made, and a command
    /// that is no edit, are said as refused, and so is each line behind 512. One `undo` takes all of it back; its
    /// events are unwritten. Returns how many lines were refused.
    ///
    /// `AllocError` where memory ran out, and then the member is spent.
    pub fn gesture<L: Ledger>(
        &mut self,
        lines: &[u8],
        said: &mut Said,
        steps: &mut Steps<L>,
    ) -> Result<u64, AllocError>
        requires { IsLive self.old }
        ensures { (slow : SlowSite) (written : List Event) → Stands slow written self.old
            → Gestures slow written (asked_in lines.now) result
            self.new said.old said.new steps.old steps.new }
    {
        match carry_out(
            self.alloc,
            &mut self.site,
            &mut self.backs,
            &mut self.unwritten,
            lines,
            said,
            steps,
        ) {
            Ok(refused) => Ok(refused),
            Err(why) => {
                self.spent = true;
                Err(why)
            }
        }
    }
}

/// Makes one gesture of these lines: makes its events, keeps what takes them back, puts them with the unwritten ones,
/// and says what came of each line, and how many there were. Returns how many were refused. `AllocError` where memory
/// ran out.
fn carry_out<L: Ledger>(
    alloc: Global,
    site: &mut Site,
    backs: &mut TakeBack,
    unwritten: &mut Unwritten,
    lines: &[u8],
    said: &mut Said,
    steps: &mut Steps<L>,
) -> Result<u64, AllocError>
    requires { (slow : SlowSite) × StandsFor slow site.old }
    ensures { (slow : SlowSite) (written others : List Event) → StandsWith slow site.old backs.old
        → AreUnwritten written others unwritten.old
        → CarriesOut slow written others (asked_in lines.now) result
        (parts site.new backs.new unwritten.new) said.old said.new steps.old steps.new }
{
    let mut gesture = Gesture::new(alloc);
    let count = judge_lines(&mut gesture, site, lines, said, steps)?;
    let events = backs.keep(gesture)?;
    unwritten.add_all(events.as_slice())?;
    said.add(&Reply::End { count })?;
    Ok(count - events.as_slice().len() as u64)
}

/// Judges lines, one after another, and says of each what came of it, unless it is blank. Returns how many weren't.
/// `AllocError` where memory ran out.
fn judge_lines<L: Ledger>(
    gesture: &mut Gesture,
    site: &mut Site,
    lines: &[u8],
    said: &mut Said,
    steps: &mut Steps<L>,
) -> Result<u64, AllocError>
    requires events { gesture.old.events ≡ [] }
    requires back { gesture.old.back ≡ [] }
    ensures { (slow : SlowSite) → StandsFor slow site.old → Judged slow (asked_in lines.now) result
        (making site.new gesture.new) said.old said.new steps.old steps.new }
{
    what_is_read_is_in_range();
    let mut count = 0;
    let mut start = 0;
    'lines: while start < lines.len() {
        let line = first_line(from(lines, start));
        count = judge_line(gesture, site, count, read(line), said, steps)?;
        start += line.len() + 1;
    }
    Ok(count)
}

/// Judges a line behind so many, and returns how many they are with it. `AllocError` where memory ran out.
fn judge_line<L: Ledger>(
    gesture: &mut Gesture,
    site: &mut Site,
    count: u64,
    line: Result<Command, LineFault>,
    said: &mut Said,
    steps: &mut Steps<L>,
) -> Result<u64, AllocError>
    requires read { IsRead line }
    requires few { count < 2 ^ 63 }
    ensures judged { (slow : SlowSite) (asked : List AskedValue) (told : List ℕ) (before : ℕ)
        → AreJudged slow asked count (making site.old gesture.old) told said.old before steps.old
        → Judged slow (with_line asked line) result
        (making site.new gesture.new) told said.new before steps.new }
    ensures few { IfOk result (λ more. more ≤ count + 1) }
{
    let Some(asked) = next_asked(count, line) else {
        return Ok(count);
    };
    let reply = make(gesture, site, &asked, steps)?;
    said.add(&reply)?;
    Ok(count + 1)
}

/// What a line behind so many asks for, if it isn't blank.
fn next_asked(count: u64, line: Result<Command, LineFault>) -> Option<Asked>
    ensures { result ≡ next_asked count line }
{
    match line {
        Ok(Command::Edit(edit)) => Some(unless_full(count, Ok(edit))),
        Ok(Command::Blank) => None,
        Ok(_) => Some(unless_full(count, Err(Refusal::InGesture))),
        Err(fault) => Some(unless_full(count, Err(line_refusal(fault)))),
    }
}

/// That the gesture is full, behind 512 lines.
fn unless_full(count: u64, asked: Asked) -> Asked
    ensures { result ≡ unless_full count asked }
{
    if count >= MOST_LINES {
        return Err(Refusal::GestureFull);
    }
    asked
}

/// Makes the event of a line, if it becomes one, and returns what is said of it. `AllocError` where memory ran out,
/// and then the steps are as before.
fn make<L: Ledger>(
    gesture: &mut Gesture,
    site: &mut Site,
    asked: &Asked,
    steps: &mut Steps<L>,
) -> Result<Reply, AllocError>
    requires { IsAsk asked.now }
    ensures judged { (slow : SlowSite) → StandsFor slow site.old
        → IfOk result (λ said. Judges slow asked.now said (making site.old gesture.old)
        (making site.new gesture.new) steps.old steps.new) }
    ensures err_steps { OnErr result (steps.new ≡ steps.old) }
{
    let edit = match asked {
        Ok(edit) => edit,
        Err(why) => return Ok(Reply::Refused { why: *why }),
    };
    match gesture.edit(site, edit, steps) {
        Ok(id) => Ok(Reply::Done { id }),
        Err(fault) => {
            let why = edit_refusal(fault).ok_or(AllocError {})?;
            Ok(Reply::Refused { why })
        }
    }
}
