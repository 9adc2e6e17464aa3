//! The program: hands the command line, the standard streams, a file and a socket to `run`.
#![tactic(auto)]

ghost use Rattle.std.specs.Prelude.{◌≡◌, ◌<◌};
ghost use Rattle.std.specs.Process.{exit_status};
ghost use Rattle.gd_effects.specs.Outside.{outside};
ghost use Rattle.gd_outside.specs.Statuses.{status_number};
ghost use Rattle.groupdesign.specs.Exits.{Exits, words_status};

mod advice;
mod help;
mod words;

use advice::{Traces, advice_on, advice_on_words, journal_of};
use gd_base::Steps;
use gd_commands::{CommandFault, read_command};
use gd_outside::{Journal, Link, Sink, Source, Status, WordList};
use gd_program::run;
use gd_real::{FileJournal, FileState, SocketLink, StandardInput, StandardOutput, look_at};
use help::{Question, VERSION, help_on, question_of};
use std::alloc::{AllocError, Global};
use std::io;
use std::marker::Brand;
use std::process::ExitCode;
use std::sync::ledger::{Blank, Ledger};
use words::{NO_WORDS, WordsFault, words_of};

fn main(rt: HostRuntime) -> ExitCode {
    let words = match words_of(&rt) {
        Ok(words) => words,
        Err(fault) => return exit_without_words(&rt, fault),
    };
    if let Some(question) = question_of(rt.alloc(), &words) {
        return answer(&rt, question);
    }
    let before = look_at_journal(&rt, &words);
    let code = carry_out::<Brand>(rt, &words, Blank::new(1));
    let after = look_at_journal(&rt, &words);
    advise(&rt, code, &words, Traces { before, after });
    code
}

/// Prints what was asked for.
fn answer(rt: &HostRuntime, question: Question) -> ExitCode {
    let printed = match question {
        Question::Help(topic) => print!(rt; "{}", help_on(topic)),
        Question::Version => println!(rt; "groupdesign {VERSION}"),
    };
    match printed {
        Ok(()) => exit(Status::Done),
        Err(_) => exit(Status::WriteFault),
    }
}

/// What there is under the name of the journal that the words name. Where they name none, nothing is.
fn look_at_journal(rt: &HostRuntime, words: &WordList) -> FileState {
    let Ok(command) = read_command(rt.alloc(), words) else {
        return FileState::Missing;
    };
    match journal_of(&command) {
        Some((path, _)) => look_at(rt, path),
        None => FileState::Missing,
    }
}

/// Says on standard error what happened, where a run wasn't carried out, and what to do.
fn advise(rt: &HostRuntime, code: ExitCode, words: &WordList, traces: Traces) {
    let Some(status) = status_of(code) else {
        return;
    };
    match text_on(rt.alloc(), status, words, traces) {
        Ok(Some(text)) => {
            let _told = eprintln!(rt; "groupdesign: {text}");
        }
        Ok(None) => {}
        Err(_) => {
            let _told = eprintln!(rt; "groupdesign: out of memory");
        }
    }
}

fn text_on(
    alloc: Global,
    status: Status,
    words: &WordList,
    traces: Traces,
) -> Result<Option<String>, AllocError> {
    if status == Status::Done {
        return Ok(None);
    }
    match read_command(alloc, words) {
        Ok(command) => advice_on(alloc, status, &command, traces),
        Err(CommandFault::Usage) => Ok(Some(advice_on_words(alloc, words.as_slice())?)),
        Err(CommandFault::NoMemory) => Err(AllocError),
    }
}

/// The status that the exit code is of.
fn status_of(code: ExitCode) -> Option<Status> {
    for status in STATUSES {
        if code == ExitCode::from(status.number()) {
            return Some(status);
        }
    }
    None
}

const STATUSES: [Status; 11] = [
    Status::Done,
    Status::Usage,
    Status::BadLog,
    Status::ReadFault,
    Status::WriteFault,
    Status::JournalFault,
    Status::LinkFault,
    Status::NoMemory,
    Status::LineLimit,
    Status::OtherJournal,
    Status::BadView,
];

/// Runs over the standard streams, a file and a socket. Nobody reads the steps.
fn carry_out<L: Ledger>(rt: HostRuntime, words: &WordList, blank: Blank) -> ExitCode
    requires name { blank.name ≡ L.name }
    requires parts { blank.parts ≡ L.parts }
    requires some { 0 < blank.parts }
{
    let mut input = StandardInput::new(rt.reader());
    let mut output = StandardOutput::new(io::writer(&rt));
    let mut journal = FileJournal::new(rt);
    let mut link = SocketLink::new(rt);
    let mut steps = Steps::<L>::new(blank);
    ended(
        rt.alloc(),
        words,
        &mut input,
        &mut output,
        &mut journal,
        &mut link,
        &mut steps,
    )
}

/// The exit code of the run that the words name.
fn ended<S: Source, K: Sink, J: Journal, N: Link, L: Ledger>(
    alloc: Global,
    words: &WordList,
    input: &mut S,
    output: &mut K,
    journal: &mut J,
    link: &mut N,
    steps: &mut Steps<L>,
) -> ExitCode
    // The exit code is the number of the status of a run with the headline's sentences.
    ensures { Exits words.now (exit_status result)
        (outside (S.seen input.old) (K.seen output.old) (J.seen journal.old)
        (N.seen link.old) steps.old)
        (outside (S.seen input.new) (K.seen output.new) (J.seen journal.new)
        (N.seen link.new) steps.new) }
{
    exit(run(alloc, words, input, output, journal, link, steps))
}

fn exit(status: Status) -> ExitCode
    ensures { exit_status result ≡ status_number status }
{
    ExitCode::from(status.number())
}

/// Says why there are no words to run by.
fn exit_without_words(rt: &HostRuntime, fault: WordsFault) -> ExitCode {
    let text = match fault {
        WordsFault::Memory => "out of memory",
        WordsFault::Call => "a word of the command line is no UTF-8: write another",
    };
    let _told = eprintln!(rt; "groupdesign: {text}");
    exit_of_fault(fault)
}

/// The exit code of a program that has no words to run by.
fn exit_of_fault(fault: WordsFault) -> ExitCode
    ensures { exit_status result ≡ words_status fault }
{
    match fault {
        WordsFault::Memory => exit(Status::NoMemory),
        WordsFault::Call => ExitCode::from(NO_WORDS),
    }
}
