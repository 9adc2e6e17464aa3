//! Nodes of session 7 over objects in memory: what is handed to one, and what became of it.

use crate::over::{ran_on, words_of};
use gd_outside::{
    Fail, MemoryJournal, MemoryLink, MemorySink, MemorySource, Status, Word, WordList,
};
use std::alloc::{AllocError, Global};
use std::str;

/// More than any of these nodes prints, and more than its journal has.
pub const ROOM: usize = 100_000;

/// More frames than any of these nodes tries.
const FRAMES: usize = 10_000;

const ADDRESSES: [&str; 3] = ["A", "B", "C"];

/// What became of a node.
#[derive(Drop)]
pub struct Node {
    pub status: Status,
    pub output: MemorySink,
    pub journal: MemoryJournal,
    pub link: MemoryLink,
}

impl Node {
    /// What was printed.
    pub fn text(&self) -> &str {
        str::from_utf8(self.output.bytes()).unwrap_or("no text")
    }

    /// How many frames were tried.
    pub fn tries(&self) -> usize {
        for k in 0..FRAMES {
            if self.link.tried(k).is_none() {
                return k;
            }
        }
        FRAMES
    }
}

/// The number of a site, and how many sites there are.
pub type Seat = (u8, usize);

/// The words of a node at that seat, behind `node` and perhaps a flag.
fn words_behind(alloc: Global, front: &[&str], seat: Seat) -> Result<WordList, AllocError> {
    let site = format!(in alloc; "{}", seat.0)?;
    let texts = ["--session", "7", "--site", site.as_str(), "--journal", "j"];
    let mut words = words_of(alloc, front)?;
    for text in texts {
        words.push(Word::new(alloc, text)?)?;
    }
    for address in ADDRESSES.iter().take(seat.1) {
        words.push(Word::new(alloc, address)?)?;
    }
    Ok(words)
}

/// The words of a node at that seat.
fn node_words(alloc: Global, seat: Seat) -> Result<WordList, AllocError> {
    words_behind(alloc, &["node"], seat)
}

/// A node to which these lines are typed, with that link.
pub fn answered(
    alloc: Global,
    seat: Seat,
    lines: &[u8],
    link: MemoryLink,
) -> Result<Node, AllocError> {
    answered_failing(alloc, seat, lines, link, &[])
}

/// The same, where these calls on the input, the output and the journal fail.
pub fn answered_failing(
    alloc: Global,
    seat: Seat,
    lines: &[u8],
    mut link: MemoryLink,
    fails: &[Fail],
) -> Result<Node, AllocError> {
    let words = node_words(alloc, seat)?;
    let mut input = MemorySource::new(alloc, lines, fails)?;
    let mut output = MemorySink::new(alloc, ROOM, fails)?;
    let mut journal = MemoryJournal::new(alloc, ROOM, fails)?;
    let status = ran_on(
        alloc,
        &words,
        &mut input,
        &mut output,
        &mut journal,
        &mut link,
    );
    Ok(Node {
        status,
        output,
        journal,
        link,
    })
}

/// A node at that seat that goes on from this journal, to which these lines are typed, where these calls on the input
/// and the output fail.
pub fn gone_on(
    alloc: Global,
    seat: Seat,
    mut journal: MemoryJournal,
    lines: &[u8],
    mut link: MemoryLink,
    fails: &[Fail],
) -> Result<Node, AllocError> {
    let words = words_behind(alloc, &["node", "--resume"], seat)?;
    let mut input = MemorySource::new(alloc, lines, fails)?;
    let mut output = MemorySink::new(alloc, ROOM, fails)?;
    let status = ran_on(
        alloc,
        &words,
        &mut input,
        &mut output,
        &mut journal,
        &mut link,
    );
    Ok(Node {
        status,
        output,
        journal,
        link,
    })
}
