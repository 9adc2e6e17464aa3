//! Rehearsals.

ghost use Rattle.std.specs.Prelude.{◌≡◌, ◌≤◌, [], ◌∷◌, ◌++◌, IsSome};
ghost use Rattle.gd_base.specs.declared.ranges.TheConstants.{SITES};
ghost use Rattle.gd_effects.specs.Endings.{EndsAs};
ghost use Rattle.gd_effects.specs.Outside.{outside};
ghost use Rattle.gd_effects.specs.Prints.{Prints};
ghost use Rattle.gd_outside.specs.Seen.{SeenJournal, SeenLink};
ghost use Rattle.gd_outside.specs.Told.{told};
ghost use Rattle.gd_reference.specs.InputLines.{whole_lines};
ghost use Rattle.gd_reference.specs.Said.{all_said};
ghost use Rattle.gd_reference.specs.World.{World as SlowWorld};
ghost use Rattle.gd_world.specs.Rehearsing.{IsRehearsalEnd};
ghost use Rattle.gd_world.specs.Standing.{StandsFor};
ghost use Rattle.gd_worlds.specs.Rehearsal.{rehearsal_effects, rehearsal_end, rehearsal_lines};
ghost use Rattle.gd_worlds.specs.Rehearsal.{rehearsal_manner};

use crate::nowhere::Nowhere;
use crate::replies::Replies;
use crate::world::World;
use gd_answers::{line_refusal, say};
use gd_base::{LineFault, Steps};
use gd_dialogue::{Answerer, answer_lines};
use gd_effects::ended;
use gd_outside::{End, Journal, Link, Sink, Source, Status};
use gd_words::{Reply, ScriptLine, what_is_read_is_in_range};
use std::alloc::Global;
use std::sync::ledger::Ledger;

/// The number of the session that is rehearsed.
const SESSION: u32 = 1;

/// The most lines of an input.
const LINES: u32 = 100_000;

/// Plays a session of so many new sites, 1 to 16, as the lines of the input say, up to `quit` or the end, or to a line
/// that is too long or one too many.
///
/// `NoMemory` where memory ran out, `ReadFault` and `WriteFault` where a call on that object failed; then what was done
/// before stays.
pub fn rehearse<S: Source, K: Sink, L: Ledger>(
    alloc: Global,
    sites: u8,
    input: &mut S,
    output: &mut K,
    steps: &mut Steps<L>,
) -> Status
    requires from { 1 ≤ sites }
    requires to { sites ≤ SITES }
    ensures ends { (journal : SeenJournal) (link : SeenLink) →
        let bytes = told (S.seen input.old).left in
        EndsAs (IsSome (S.seen input.new).left)
        (rehearsal_effects sites (rehearsal_lines bytes))
        (λ taken. rehearsal_effects sites (rehearsal_lines (whole_lines taken)))
        (rehearsal_end (rehearsal_lines bytes)) result
        (outside (S.seen input.old) (K.seen output.old) journal link steps.old)
        (outside (S.seen input.new) (K.seen output.new) journal link steps.new) }
    ensures kinds { IsRehearsalEnd result }
{
    let Ok(mut world) = World::new(alloc, sites, SESSION) else {
        return Status::NoMemory;
    };
    let (mut journal, mut link) = (Nowhere {}, Nowhere {});
    ended(answer_lines(
        &mut world,
        LINES,
        input,
        output,
        &mut journal,
        &mut link,
        steps,
    ))
}

impl Answerer for World {
    ghost State = { SlowWorld };

    type Line = Result<ScriptLine, LineFault>;

    ghost manner = { rehearsal_manner };

    ghost meets = { λ w world journal. StandsFor w world };

    fn ends(line: &Self::Line) -> bool {
        matches!(line, Ok(ScriptLine::Quit))
    }

    fn answer<K: Sink, J: Journal, N: Link, L: Ledger>(
        &mut self,
        line: Self::Line,
        output: &mut K,
        _journal: &mut J,
        _link: &mut N,
        steps: &mut Steps<L>,
    ) -> Result<(), End> {
        what_is_read_is_in_range();
        match line {
            Ok(line) => {
                let Ok(replies) = self.answer_line(&line, steps) else {
                    return Err(End::NoMemory);
                };
                say_all(&replies, output)
            }
            Err(fault) => {
                let why = line_refusal(fault);
                say(&Reply::Refused { why }, output)
            }
        }
    }
}

/// Prints what a site says, line by line. `WriteFault` where a write failed.
fn say_all<K: Sink>(replies: &Replies, output: &mut K) -> Result<(), End>
    ensures { Prints (K.seen output.old) (all_said replies.now) result (K.seen output.new) }
{
    for reply in replies.as_slice() {
        say(reply, output)?;
    }
    Ok(())
}
