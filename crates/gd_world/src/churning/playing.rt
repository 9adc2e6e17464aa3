//! The play of a churn: a session of four sites, one line after the other.

ghost use Rattle.std.specs.Prelude.{◌≡◌, ℕ, ◌+◌, ◌*◌, ◌≤◌, ◌++◌, IfOk, OnOk};
ghost use Rattle.gd_options.specs.declared.churn.TheConstants.{CHURN_STEPS};
ghost use Rattle.gd_world.specs.Drawn.{IsPlayed};
ghost use Rattle.gd_world.specs.Playing.{Follows, Gets, IsReady};
ghost use Rattle.gd_worlds.specs.Churn.{Churning as SlowChurning, ids_made, is_making};
ghost use Rattle.gd_worlds.specs.Churn.{new_churning, passed, rounded, rounds_to_all, stepped, times, with_line};

use crate::churning::counting::Counts;
use crate::churning::drawing;
use crate::churning::holding::all_hold_all;
use crate::world::World;
use gd_base::{Edit, Stamp, Steps};
use gd_lines::{Command, Reply, ScriptLine};
use rand_core::SeedableRng;
use rand_pcg::Pcg32;
use std::alloc::{AllocError, Global};
use std::sync::ledger::Ledger;

/// The number of the session that is played.
const SESSION: u32 = 1;

/// How many sites it has.
const SITES: u8 = 4;

/// Who sends to whom in a round, one after the other.
const PASSAGES: [(u8, u8); 12] = [
    (1, 2),
    (1, 3),
    (1, 4),
    (2, 1),
    (2, 3),
    (2, 4),
    (3, 1),
    (3, 2),
    (3, 4),
    (4, 1),
    (4, 2),
    (4, 3),
];

/// How far a churn has come.
#[derive(Drop)]
pub(crate) struct Churning {
    pub(crate) world: World,
    generator: Pcg32,
    made: Vec<Stamp>,
    pub(crate) counts: Counts,
}

impl Churning {
    /// No line was played so far. `AllocError` where memory ran out.
    pub(crate) fn new(alloc: Global, seed: u64) -> Result<Self, AllocError>
        ensures { IfOk result (λ churning. (steps : ℕ)
            → Follows 0 (new_churning seed) steps churning steps) }
    {
        Ok(Churning {
            world: World::new(alloc, SITES, SESSION)?,
            generator: Pcg32::seed_from_u64(seed),
            made: Vec::new(alloc),
            counts: Counts::new(),
        })
    }

    /// So many steps, then rounds until every site holds every event, and one more round. `AllocError` where memory ran
    /// out.
    pub(crate) fn run<L: Ledger>(
        &mut self,
        count: u32,
        steps: &mut Steps<L>,
    ) -> Result<(), AllocError>
        requires few { count ≤ CHURN_STEPS }
        requires ready { IsReady (count + 24 * (5 + count)) self.old steps.old }
        ensures { (lines : ℕ) (c : SlowChurning) (before : ℕ)
            → Follows lines c before self.old steps.old
            → Gets (lines + count + 24 * (5 + count))
            (rounded (rounds_to_all (4 + count) (times count stepped c))) before
            result self.new steps.new }
    {
        self.steps(count, steps)?;
        self.rounds_to_all(4 + count, steps)?;
        self.round(steps)
    }

    fn steps<L: Ledger>(&mut self, count: u32, steps: &mut Steps<L>) -> Result<(), AllocError>
        requires { IsReady count self.old steps.old }
        ensures { (lines : ℕ) (c : SlowChurning) (before : ℕ)
            → Follows lines c before self.old steps.old
            → Gets (lines + count) (times count stepped c) before result self.new steps.new }
    {
        for done in 0..count {
            self.step(steps)?;
        }
        Ok(())
    }

    /// Rounds until every site holds every event, at most so many.
    fn rounds_to_all<L: Ledger>(
        &mut self,
        most: u32,
        steps: &mut Steps<L>,
    ) -> Result<(), AllocError>
        requires { IsReady (24 * most) self.old steps.old }
        ensures { (lines : ℕ) (c : SlowChurning) (before : ℕ)
            → Follows lines c before self.old steps.old
            → Gets (lines + 24 * most) (rounds_to_all most c) before
            result self.new steps.new }
    {
        for done in 0..most {
            if all_hold_all(&self.world) {
                return Ok(());
            }
            self.round(steps)?;
        }
        Ok(())
    }

    /// A round: each site sends to each other one.
    fn round<L: Ledger>(&mut self, steps: &mut Steps<L>) -> Result<(), AllocError>
        requires { IsReady 24 self.old steps.old }
        ensures { (lines : ℕ) (c : SlowChurning) (before : ℕ)
            → Follows lines c before self.old steps.old
            → Gets (lines + 24) (rounded c) before result self.new steps.new }
    {
        for passage in PASSAGES {
            self.pass(passage.0, passage.1, steps)?;
        }
        Ok(())
    }

    /// A site sends to another one, and that mail, the last one, is delivered at once.
    fn pass<L: Ledger>(&mut self, from: u8, to: u8, steps: &mut Steps<L>) -> Result<(), AllocError>
        requires { IsReady 2 self.old steps.old }
        ensures { (lines : ℕ) (c : SlowChurning) (before : ℕ)
            → Follows lines c before self.old steps.old
            → Gets (lines + 2) (passed c (from, to)) before result self.new steps.new }
    {
        self.take_line(&ScriptLine::Send { from, to }, steps)?;
        let mail = self.world.mails() as u32;
        self.take_line(&ScriptLine::Deliver { mail }, steps)
    }

    /// A step, which may be idle.
    fn step<L: Ledger>(&mut self, steps: &mut Steps<L>) -> Result<(), AllocError>
        requires { IsReady 1 self.old steps.old }
        ensures { (lines : ℕ) (c : SlowChurning) (before : ℕ)
            → Follows lines c before self.old steps.old
            → Gets (lines + 1) (stepped c) before result self.new steps.new }
    {
        let mails = self.world.mails() as u32;
        match drawing::step(&mut self.generator, self.made.as_slice(), mails) {
            Some(line) => self.take_line(&line, steps),
            None => {
                self.counts.add_idle();
                Ok(())
            }
        }
    }

    /// Has the world answer a line, and counts what is said of it.
    fn take_line<L: Ledger>(
        &mut self,
        line: &ScriptLine,
        steps: &mut Steps<L>,
    ) -> Result<(), AllocError>
        requires played { IsPlayed line.now }
        requires ready { IsReady 1 self.old steps.old }
        ensures { (lines : ℕ) (c : SlowChurning) (before : ℕ)
            → Follows lines c before self.old steps.old
            → Gets (lines + 1) (with_line c line.now) before result self.new steps.new }
    {
        let Ok(replies) = self.world.answer_line(line, steps) else {
            return Err(AllocError);
        };
        let said = replies.as_slice();
        self.counts.add_all(said);
        keep_ids(&mut self.made, line, said)
    }
}

/// Keeps the id of what a line made, where it was accepted. `AllocError` where memory ran out.
fn keep_ids(made: &mut Vec<Stamp>, line: &ScriptLine, replies: &[Reply]) -> Result<(), AllocError>
    ensures { OnOk result (made.new.items ≡ made.old.items ++ ids_made line.now replies.now) }
{
    if !is_making(line) {
        return Ok(());
    }
    for reply in replies {
        if let Reply::Done { id } = reply {
            made.push(*id)?;
        }
    }
    Ok(())
}

/// Whether a line asks for an object or a group.
fn is_making(line: &ScriptLine) -> bool
    ensures { result ≡ is_making line.now }
{
    matches!(
        line,
        ScriptLine::At {
            command: Command::Edit(Edit::Create { .. } | Edit::Group { .. } | Edit::Connect { .. }),
            ..
        }
    )
}
