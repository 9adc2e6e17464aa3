ghost use Rattle.std.specs.Prelude.{◌≡◌, length};
ghost use Rattle.gd_base.specs.Notes.{no_note};
ghost use Rattle.gd_base.specs.Sites.{IsSite};
ghost use Rattle.gd_base.specs.declared.ranges.TheConstants.{SITES};
ghost use Rattle.gd_aware.specs.Notes.{no_notes, note_of, noted};

use gd_base::Note;
use std::array;
use std::marker::Model;

/// The newest note of each site, which contracts see as a list of notes in the order of the sites.
#[derive(Drop)]
pub struct Notes {
    notes: [Note; 16],
}

impl Model for Notes {
    ghost use Rattle.std.specs.Prelude.{List};
    ghost use Rattle.gd_base.specs.declared.note.Note as note;

    ghost Value = { List note.Note };

    ghost view = { λ n. n.notes };
}

impl Notes {
    /// No note of any site.
    pub fn new() -> Self
        ensures { result ≡ no_notes }
    {
        Notes {
            notes: array::from_fn(|_| none()),
        }
    }

    /// Keeps the note where its number is greater than that of the site's kept one. The notes of other sites stay.
    pub fn put(&mut self, site: u8, note: Note)
        requires { IsSite site }
        ensures notes { self.new ≡ noted self.old site note }
        ensures sites { length self.new ≡ SITES }
    {
        let kept = &mut self.notes[usize::from(site) - 1];
        if kept.number < note.number {
            *kept = note;
        }
    }

    /// The kept note of the site, which is number 0 with neither name nor focus where there is none.
    pub fn get(&self, site: u8) -> Note
        requires { IsSite site }
        ensures note { result ≡ note_of self.now site }
        ensures sites { length self.now ≡ SITES }
    {
        self.notes[usize::from(site) - 1].copy()
    }
}

fn none() -> Note
    ensures { result ≡ no_note }
{
    Note {
        number: 0,
        name: None,
        focus: None,
    }
}
