//! What holds of notes.

ghost use Rattle.std.specs.Prelude.{ℕ, List, All};
ghost use Rattle.gd_base.specs.Sites.{IsSite};
ghost use Rattle.gd_aware.specs.Notes.{Put, note_of, notes_after, IsNewest};

/// After any puts for sites, the kept note of a site is the first of the greatest number that was put for it, or no
/// note where none above number 0 was put.
pub fn the_newest_note_is_kept()
    ensures { (puts : List Put) (site : ℕ) → All (λ p. IsSite p.site) puts → IsSite site
        → IsNewest puts site (note_of (notes_after puts) site) }
{}
