//! What is said on standard error of a run that wasn't carried out: what happened, and what to do.

use crate::help::{COMMANDS, topic_of};
use gd_asked::Command;
use gd_outside::{Status, Word, WordList};
use gd_real::FileState;
use std::alloc::{AllocError, Global};
use std::net::SocketAddr;
use strsim::jaro_winkler;

/// A word at least so near to a command's name may be meant for it.
const NEAR: f64 = 0.8;

/// The command that opens the page, which stands beside the program.
const DRAW: &str = "draw";

/// What was under the name of a node's journal, before the run and after it.
#[derive(Clone, Copy, Debug, PartialEq, Eq)]
pub struct Traces {
    pub before: FileState,
    pub after: FileState,
}

/// The lines on a run of a command that ended with that status; none where its output says all.
pub fn advice_on(
    alloc: Global,
    status: Status,
    command: &Command,
    traces: Traces,
) -> Result<Option<String>, AllocError> {
    let text = match status {
        Status::Done | Status::Usage => return Ok(None),
        Status::BadLog => return advice_on_bad_log(alloc, command, traces),
        Status::JournalFault => return advice_on_journal(alloc, command, traces),
        Status::LinkFault => return advice_on_link(alloc, command),
        Status::OtherJournal => return advice_on_other_journal(alloc, command),
        Status::ReadFault =>
            "standard input can't be read: it has to be a file, a pipe or a terminal",
        Status::WriteFault => {
            "standard output can't be written, and what was printed is cut: is the disk full, or did its reader end?"
        }
        Status::NoMemory => "out of memory: give it more, or a smaller input",
        Status::LineLimit => {
            "the input is too long: a line has at most 65,536 bytes, and there are at most 1,000,000 lines or items"
        }
        Status::BadView => {
            "the input is no snapshot with frames behind it: `groupdesign snapshot` makes one of a log"
        }
    };
    Ok(Some(String::from_str(alloc, text)?))
}

/// The path of the journal that the command names, and whether it goes on from it.
pub fn journal_of(command: &Command) -> Option<(&str, bool)> {
    match command {
        Command::Node { journal, .. } => Some((journal.as_str(), false)),
        Command::Rejoin { journal, .. } => Some((journal.as_str(), true)),
        _ => None,
    }
}

// A log that is read from standard input has its line there.
fn advice_on_bad_log(
    alloc: Global,
    command: &Command,
    traces: Traces,
) -> Result<Option<String>, AllocError> {
    let Some((path, _)) = journal_of(command) else {
        return Ok(None);
    };
    let text = match traces.before {
        FileState::Empty => {
            format!(in alloc;
                "the journal {path} is empty, since its node ended before it was ready: remove it, and start without --resume"
            )?
        }
        _ => {
            format!(in alloc;
                "the journal {path} is no whole log: name the right file, or begin another session: a site that starts anew in this one parts from the others"
            )?
        }
    };
    Ok(Some(text))
}

fn advice_on_journal(
    alloc: Global,
    command: &Command,
    traces: Traces,
) -> Result<Option<String>, AllocError> {
    match journal_of(command) {
        Some((path, false)) => Ok(Some(advice_on_new(alloc, path, traces)?)),
        Some((path, true)) => Ok(Some(advice_on_kept(alloc, path, traces)?)),
        None => Ok(None),
    }
}

/// On a journal that was to be made.
fn advice_on_new(alloc: Global, path: &str, traces: Traces) -> Result<String, AllocError> {
    match (traces.before, traces.after) {
        (FileState::Missing, FileState::Missing) => {
            format!(in alloc;
                "the journal {path} can't be made or was taken away: is its folder there, may it be written, and is the disk full?"
            )
        }
        (FileState::Missing, _) => advice_on_cut(alloc, path),
        (FileState::Folder, _) => advice_on_folder(alloc, path),
        _ => {
            format!(in alloc;
                "the journal {path} is there already: go on with --resume, or name another"
            )
        }
    }
}

/// On a journal that was to be gone on with.
fn advice_on_kept(alloc: Global, path: &str, traces: Traces) -> Result<String, AllocError> {
    match (traces.before, traces.after) {
        (FileState::Missing, _) => {
            format!(in alloc;
                "the journal {path} isn't there: name the right one, or start without --resume to make it"
            )
        }
        (FileState::Folder, _) => advice_on_folder(alloc, path),
        (FileState::Foreign, _) => {
            format!(in alloc;
                "the journal {path} belongs to another user: let that user run the node"
            )
        }
        (FileState::Held, _) => {
            format!(in alloc; "the journal {path} is held by a node that runs: end that one first")
        }
        (_, FileState::Missing) => {
            format!(in alloc;
                "the journal {path} was taken away while the node ran: put it back, and go on with --resume"
            )
        }
        _ => advice_on_cut(alloc, path),
    }
}

fn advice_on_cut(alloc: Global, path: &str) -> Result<String, AllocError> {
    format!(in alloc;
        "the journal {path} can't be read or written any more: is the disk full, or is another file in its place? go on with --resume then"
    )
}

fn advice_on_folder(alloc: Global, path: &str) -> Result<String, AllocError> {
    format!(in alloc; "the journal {path} is a folder: name a file")
}

fn advice_on_other_journal(alloc: Global, command: &Command) -> Result<Option<String>, AllocError> {
    let Some((path, _)) = journal_of(command) else {
        return Ok(None);
    };
    let text = format!(in alloc;
        "the journal {path} is of another session, site or number of sites, or of version one or two: give the words that it was begun with, or name another"
    )?;
    Ok(Some(text))
}

fn advice_on_link(alloc: Global, command: &Command) -> Result<Option<String>, AllocError> {
    let (site, addresses) = match command {
        Command::Node {
            site,
            addresses,
            ..
        } => (*site, addresses),
        Command::Rejoin {
            site,
            addresses,
            ..
        } => (*site, addresses),
        _ => return Ok(None),
    };
    Ok(Some(advice_on_addresses(alloc, site, addresses)?))
}

fn advice_on_addresses(
    alloc: Global,
    site: u8,
    addresses: &WordList,
) -> Result<String, AllocError> {
    let words = addresses.as_slice();
    for word in words {
        if !is_address(word) {
            return format!(in alloc;
                "{} is no address in figures: write it as 192.0.2.7:4101 or [2001:db8::7]:4101",
                word.as_str()
            );
        }
    }
    if are_mixed(words) {
        return String::from_str(
            alloc,
            "the addresses are of both kinds: write all as IPv4 or all as IPv6",
        );
    }
    match words.get(usize::from(site).saturating_sub(1)) {
        Some(own) => {
            format!(in alloc;
                "the own address {} can't be opened: it has to be one of this machine's, with a port that no other program has",
                own.as_str()
            )
        }
        None => format!(in alloc; "there is no address of site {site}"),
    }
}

fn is_address(word: &Word) -> bool {
    word.as_str().parse::<SocketAddr>().is_ok()
}

fn is_ipv6(word: &Word) -> bool {
    word.as_str().starts_with("[")
}

fn are_mixed(words: &[Word]) -> bool {
    words.iter().any(|word| is_ipv6(word)) && !words.iter().all(|word| is_ipv6(word))
}

/// The word that has to name a command: the first, or behind `help` the second.
fn name_in(words: &[Word]) -> Option<&str> {
    let first = words.first()?.as_str();
    if first != "help" && first != "--help" && first != "-h" {
        return Some(first);
    }
    Some(words.get(1)?.as_str())
}

/// What is said of words that ask for no command.
pub fn advice_on_words(alloc: Global, words: &[Word]) -> Result<String, AllocError> {
    let Some(name) = name_in(words) else {
        return String::from_str(alloc, "a command is missing: groupdesign --help lists them");
    };
    if topic_of(name).is_some() {
        return format!(in alloc;
            "these words behind {name} don't fit: groupdesign {name} --help explains them, with an example"
        );
    }
    if name == DRAW {
        return String::from_str(
            alloc,
            "draw opens the page and isn't in this program alone: the installed groupdesign has it, and a checkout as ./draw",
        );
    }
    match near(alloc, name)? {
        Some(command) => {
            format!(in alloc;
                "there is no command {name}: is {command} meant? groupdesign --help lists them all"
            )
        }
        None => format!(in alloc; "there is no command {name}: groupdesign --help lists them"),
    }
}

/// The command whose name is near to that.
fn near(alloc: Global, name: &str) -> Result<Option<&'static str>, AllocError> {
    let mut found = None;
    let mut most = NEAR;
    for (command, _) in COMMANDS {
        let score = jaro_winkler(alloc, command, name)?;
        if score > most {
            most = score;
            found = Some(command);
        }
    }
    if jaro_winkler(alloc, DRAW, name)? > most {
        found = Some(DRAW);
    }
    Ok(found)
}
