//! The lines of a script.

ghost use Rattle.gd_reference.specs.World.{World as SlowWorld};
ghost use Rattle.gd_world.specs.Calls.{Answers, Goes, IsScript};

use crate::fault::WorldFault;
use crate::replies::Replies;
use crate::telling::only;
use crate::world::World;
use gd_base::{Refusal, Steps};
use gd_lines::ScriptLine;
use gd_words::Reply;
use std::sync::ledger::Ledger;

impl World {
    ghost use Rattle.gd_world.specs.Standing.{StandsFor};

    /// Answers a line: with what is said of it, a refusal too. `NoMemory` where memory ran out; there is no other
    /// fault.
    pub(crate) fn answer_line<L: Ledger>(
        &mut self,
        line: &ScriptLine,
        steps: &mut Steps<L>,
    ) -> Result<Replies, WorldFault>
        requires { IsScript line.now }
        ensures { (w : SlowWorld) → StandsFor w self.old
            → Answers w line.now result steps.old self.new steps.new }
    {
        let alloc = self.alloc();
        match self.go(line, steps) {
            Ok(replies) => Ok(replies),
            Err(WorldFault::NoSite) => only(
                alloc,
                Reply::Refused {
                    why: Refusal::NoSite,
                },
            ),
            Err(WorldFault::NoMail) => only(
                alloc,
                Reply::Refused {
                    why: Refusal::NoMail,
                },
            ),
            Err(WorldFault::NoMemory) => Err(WorldFault::NoMemory),
        }
    }

    /// Does what a line says, and returns what is said of it, where it isn't refused.
    fn go<L: Ledger>(
        &mut self,
        line: &ScriptLine,
        steps: &mut Steps<L>,
    ) -> Result<Replies, WorldFault>
        requires { IsScript line.now }
        ensures { (w : SlowWorld) → StandsFor w self.old
            → Goes w line.now result self.old steps.old self.new steps.new }
    {
        match line {
            ScriptLine::At { site, command } => self.line(*site, command, steps),
            ScriptLine::Send { from, to } => {
                let number = self.send(*from, *to)?;
                only(self.alloc(), Reply::Mail { number })
            }
            ScriptLine::Deliver { mail } => {
                let mut replies = self.deliver(*mail, steps)?;
                replies.push(Reply::Delivered { number: *mail })?;
                Ok(replies)
            }
            ScriptLine::Blank | ScriptLine::Quit => Ok(Replies::new(self.alloc())),
        }
    }
}
