//! The newest note of each site, which says how its user is called and what its user looks at. No call takes memory.
#![tactic(auto)]

mod laws;
mod notes;

pub use laws::the_newest_note_is_kept;
pub use notes::Notes;
