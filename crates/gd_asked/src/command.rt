use gd_options::Format;
use gd_outside::{Word, WordList};

/// What the program is asked to do.
#[derive(Drop)]
pub enum Command {
    /// Read a log, and print the drawing of its events.
    Replay {
        format: Format,
        /// Whether it is counted, besides, how the events went.
        counts: bool,
        /// Whether what stands before the first fault is shown, where there is one.
        upto_fault: bool,
    },
    /// Read a log, and write it in the newest version.
    Upgrade,
    /// Read a log, and write a snapshot of its drawing, for who looks on.
    Snapshot,
    /// Read a snapshot and the frames behind it, and print the drawing.
    View,
    /// Read a log of cards, and print the board of its events.
    Board {
        /// Whether it is counted, besides, how the events went.
        counts: bool,
    },
    /// Be one site of a session: answer lines, keep a journal, and exchange frames with the other sites.
    Node {
        session: u32,
        /// From 1 to the number of addresses.
        site: u8,
        /// The path of the journal.
        journal: Word,
        /// Where each site of the session is, this one too: 1 to 16 of them.
        addresses: WordList,
    },
    /// Be that site again: go on from the journal, which it kept before.
    Rejoin {
        session: u32,
        /// From 1 to the number of addresses.
        site: u8,
        /// The path of the journal.
        journal: Word,
        /// Where each site of the session is, this one too: 1 to 16 of them.
        addresses: WordList,
    },
    /// Play a session of so many sites, 1 to 16, in one process, as the lines say.
    Rehearse {
        sites: u8,
    },
    /// Play a session by random steps, at most `gd_options::CHURN_STEPS` of them.
    Churn {
        seed: u64,
        steps: u32,
    },
}
