//! The options and the addresses of `node`, and its flag `--resume`.

ghost use Rattle.std.specs.Prelude.{◌≡◌, IfOk, Some, None, false, map};
ghost use Rattle.clap.specs.Words.{app_of, rule_of};
ghost use Rattle.gd_commands.specs.Forms.{app, asked_by, text_of};
ghost use Rattle.gd_commands.specs.Node.{addresses_rule, node_by, node_form, node_numbers, texts_of};
ghost use Rattle.gd_commands.specs.Node.{node_command as node_or_rejoin};

use crate::fault::CommandFault;
use crate::matched::{bare, flag, is_set, matches_of, text, texts, value};
use crate::number::number_from;
use clap::{Arg, Command as ClapCommand};
use gd_asked::Command;
use gd_base::SITES;
use gd_outside::{Word, WordList};
use std::alloc::{AllocError, Global};
use std::convert::AsStr;

fn addresses<'a>(alloc: Global) -> Arg<'a>
    ensures rule { rule_of result ≡ addresses_rule }
    ensures local { result.global ≡ false }
{
    Arg::new(alloc, "address").num_args(1..).required(true)
}

fn node_command<'a>(alloc: Global) -> Result<ClapCommand<'a>, AllocError>
    ensures { IfOk result (λ c. app_of c ≡ app node_form) }
{
    bare(alloc, "node")
        .arg(flag(alloc, "resume"))?
        .arg(value(alloc, "session"))?
        .arg(value(alloc, "site"))?
        .arg(value(alloc, "journal"))?
        .arg(addresses(alloc))
}

/// The session and the site, where there are so many addresses.
fn node_numbers(session: &str, site: &str, count: usize) -> Option<(u32, u8)>
    ensures { result ≡ node_numbers session.now site.now count }
{
    if count > usize::from(SITES) {
        return None;
    }
    let session = number_from(0, u64::from(u32::MAX), session)? as u32;
    let site = number_from(1, count as u64, site)? as u8;
    Some((session, site))
}

fn copied(alloc: Global, texts: &[&str]) -> Result<WordList, AllocError>
    ensures { IfOk result (λ words. words ≡ map (λ s. s.now) texts.now) }
{
    let mut words = WordList::new(alloc);
    for text in texts {
        words.push(Word::new(alloc, text)?)?;
    }
    Ok(words)
}

/// To begin the journal, or to go on from it.
fn node_or_rejoin(
    resume: bool,
    session: u32,
    site: u8,
    journal: Word,
    addresses: WordList,
) -> Command
    ensures { result ≡ node_or_rejoin resume session site journal addresses }
{
    if resume {
        Command::Rejoin {
            session,
            site,
            journal,
            addresses,
        }
    } else {
        Command::Node {
            session,
            site,
            journal,
            addresses,
        }
    }
}

fn copied_node(
    alloc: Global,
    resume: bool,
    session: u32,
    site: u8,
    journal: &str,
    addresses: &[&str],
) -> Result<Command, AllocError>
    ensures { IfOk result (λ c.
        c ≡ node_or_rejoin resume session site journal.now (map (λ s. s.now) addresses.now)) }
{
    let journal = Word::new(alloc, journal)?;
    let addresses = copied(alloc, addresses)?;
    Ok(node_or_rejoin(resume, session, site, journal, addresses))
}

/// The command with these values.
fn node_with(
    alloc: Global,
    resume: Option<&str>,
    session: &str,
    site: &str,
    journal: &str,
    addresses: &[&str],
) -> Result<Command, CommandFault>
    ensures asked { IfOk result (λ c.
        node_by (text_of resume.entry) (Some session.now) (Some site.now) (Some journal.now)
        (Some (map (λ s. s.now) addresses.now)) ≡ Some c) }
    ensures usage { result ≡ Err CommandFault.Usage
        → node_by (text_of resume.entry) (Some session.now) (Some site.now) (Some journal.now)
        (Some (map (λ s. s.now) addresses.now)) ≡ None }
{
    match node_numbers(session, site, addresses.len()) {
        Some((session, site)) => {
            Ok(copied_node(alloc, is_set(resume), session, site, journal, addresses)?)
        }
        None => Err(CommandFault::Usage),
    }
}

/// The same, where each of the others is there.
fn node_by(
    alloc: Global,
    resume: Option<&str>,
    session: Option<&str>,
    site: Option<&str>,
    journal: Option<&str>,
    addresses: Option<&[&str]>,
) -> Result<Command, CommandFault>
    ensures asked { IfOk result (λ c.
        node_by (text_of resume.entry) (text_of session.entry) (text_of site.entry)
        (text_of journal.entry) (texts_of addresses.entry) ≡ Some c) }
    ensures usage { result ≡ Err CommandFault.Usage
        → node_by (text_of resume.entry) (text_of session.entry) (text_of site.entry)
        (text_of journal.entry) (texts_of addresses.entry) ≡ None }
{
    match (session, site, journal, addresses) {
        (Some(session), Some(site), Some(journal), Some(addresses)) => {
            node_with(alloc, resume, session, site, journal, addresses)
        }
        _ => Err(CommandFault::Usage),
    }
}

/// The command that the words behind `node` ask for; `Usage` only where they aren't in its form.
pub fn read_node<S: AsStr>(alloc: Global, words: &[S]) -> Result<Command, CommandFault>
    ensures asked { IfOk result (λ c. asked_by node_form (map S.text words.now) ≡ Some c) }
    ensures usage { result ≡ Err CommandFault.Usage
        → asked_by node_form (map S.text words.now) ≡ None }
{
    let matches = matches_of(node_command(alloc)?, words)?;
    node_by(
        alloc,
        text(&matches, "resume"),
        text(&matches, "session"),
        text(&matches, "site"),
        text(&matches, "journal"),
        texts(&matches, "address"),
    )
}
