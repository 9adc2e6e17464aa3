//! What C is handed of numbers.
ghost use Rattle.std.specs.Prelude.{◌≡◌};
ghost use Rattle.gd_embed.specs.Records.{StatusIs, NoteIs};

use gd_base::{Note, SiteStatus};

/// Where a member stands: how many events it holds, how many of them may still be reordered, its line, its clock, and
/// from how many sites it has parted.
#[repr(C)]
#[derive(Clone, Copy)]
pub struct Standing {
    pub held: u64,
    pub kept: u64,
    pub line: u64,
    pub clock: u64,
    pub parted: u64,
}

impl Standing {
    pub fn of(status: &SiteStatus) -> Standing
        ensures { StatusIs status.now result }
    {
        Standing {
            held: u64::from(status.held),
            kept: u64::from(status.kept),
            line: status.line,
            clock: status.clock,
            parted: u64::from(status.parted),
        }
    }
}

/// A note: its number, and clock and site of its focus, or 0 and 0 where it has none.
#[repr(C)]
#[derive(Clone, Copy)]
pub struct Noted {
    pub number: u64,
    pub clock: u64,
    pub site: u64,
}

impl Noted {
    pub fn of(note: &Note) -> Noted
        ensures { NoteIs note.now result }
    {
        let (clock, site) = match note.focus {
            Some(focus) => (focus.clock(), u64::from(focus.site())),
            None => (0, 0),
        };
        Noted {
            number: u64::from(note.number),
            clock,
            site,
        }
    }
}
