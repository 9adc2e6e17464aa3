//! A run of words over objects in memory.

ghost use Rattle.std.specs.Prelude.{◌≡◌, ◌<◌};

use gd_base::Steps;
use gd_outside::{
    Journal, Link, Sink, Source, Status, SureJournal, SureLink, SureSink, SureSource, Word,
    WordList,
};
use gd_program::run;
use std::alloc::{AllocError, Global};
use std::marker::Brand;
use std::sync::ledger::{Blank, Ledger};

/// More than any of these runs prints.
pub(crate) const ROOM: usize = 10_000;

/// A rect of site 2 and an ellipse of site 1, both at clock 1.
pub(crate) const TIE: [u8; 70] = [
    b'G', b'D', b'O', b'L', 1, 0, 0, 0, 7, 1, 2, 0xC3, 0, 0, 0, 0, 0, 1, 2, 0, 1, 1, 1, 0, 0, 0, 5,
    0, 0, 0, 5, 0, 0, 0, 10, 0, 0, 0, 10, 0, 0xC3, 0, 0, 0, 0, 0, 1, 1, 0, 1, 1, 2, 0, 0, 0, 0, 0,
    0, 0, 0, 0, 0, 0, 20, 0, 0, 0, 20, 0, 0,
];

pub(crate) const TIE_TEXT: &str =
    "ellipse 1.1 in - at 0 0 size 20 20 stroke 000000 fill none width 1\nrect 1.2 in - at 5 5 size 10 10 stroke 000000 fill none width 1\nend 2\n";

pub(crate) fn words_of(alloc: Global, texts: &[&str]) -> Result<WordList, AllocError> {
    let mut words = WordList::new(alloc);
    for text in texts {
        words.push(Word::new(alloc, text)?)?;
    }
    Ok(words)
}

pub(crate) fn with_ledger<S: Source, K: Sink, J: Journal, N: Link, L: Ledger>(
    blank: Blank,
    alloc: Global,
    words: &WordList,
    input: &mut S,
    output: &mut K,
    journal: &mut J,
    link: &mut N,
) -> Status
    requires name { blank.name ≡ L.name }
    requires parts { blank.parts ≡ L.parts }
    requires some { 0 < blank.parts }
{
    let mut steps = Steps::<L>::new(blank);
    run(alloc, words, input, output, journal, link, &mut steps)
}

pub(crate) fn ran_on<S: Source, K: Sink, J: Journal, N: Link>(
    alloc: Global,
    words: &WordList,
    input: &mut S,
    output: &mut K,
    journal: &mut J,
    link: &mut N,
) -> Status {
    with_ledger::<S, K, J, N, Brand>(Blank::new(1), alloc, words, input, output, journal, link)
}

/// The same, with a journal and a link that keep nothing.
pub(crate) fn ran<S: Source, K: Sink>(
    alloc: Global,
    words: &WordList,
    input: &mut S,
    output: &mut K,
) -> Result<Status, AllocError> {
    let mut journal = SureJournal::new(alloc, 0)?;
    let mut link = SureLink::new(alloc, 0)?;
    Ok(ran_on(alloc, words, input, output, &mut journal, &mut link))
}

/// How a run of these words over these bytes ends, and what it prints.
pub(crate) fn ran_over(
    alloc: Global,
    texts: &[&str],
    bytes: &[u8],
) -> Result<(Status, SureSink), AllocError> {
    let words = words_of(alloc, texts)?;
    let mut input = SureSource::new(alloc, bytes)?;
    let mut output = SureSink::new(alloc, ROOM)?;
    let status = ran(alloc, &words, &mut input, &mut output)?;
    Ok((status, output))
}
