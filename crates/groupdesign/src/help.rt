//! What the program says of itself where it is asked.

ghost use Rattle.std.specs.Prelude.{◌≡◌, ◌≢◌, IsSome, None};
ghost use Rattle.gd_commands.specs.Commands.{command_of};

use gd_commands::{CommandFault, read_command};
use gd_outside::{Word, WordList};
use std::alloc::Global;

/// The version of the program, as the file VERSION has it.
pub const VERSION: &str = "0.10.0";

/// What is asked for in place of a run.
#[derive(Clone, Copy, Debug, PartialEq, Eq)]
pub enum Question {
    /// How the program is called, or one of its commands.
    Help(Topic),
    Version,
}

#[derive(Clone, Copy, Debug, PartialEq, Eq)]
pub enum Topic {
    Program,
    Node,
    Rehearse,
    Churn,
    Replay,
    Upgrade,
    Snapshot,
    View,
    Board,
}

/// The names of the commands.
pub const COMMANDS: [(&str, Topic); 8] = [
    ("node", Topic::Node),
    ("rehearse", Topic::Rehearse),
    ("churn", Topic::Churn),
    ("replay", Topic::Replay),
    ("upgrade", Topic::Upgrade),
    ("snapshot", Topic::Snapshot),
    ("view", Topic::View),
    ("board", Topic::Board),
];

/// What the words ask for, if it is no run: `--help`, `-h` or `help`, alone or in front of a command; `--help` or `-h`
/// among the options of a command, and so in front of a `--`; `--version` or `-V`; and nothing else.
pub fn question_of(alloc: Global, words: &WordList) -> Option<Question>
    // Words that ask for a command are no question.
    ensures { IsSome (command_of words.now) → result ≡ None }
{
    match read_command(alloc, words) {
        Ok(_) => None,
        Err(fault) => question_behind(fault, words),
    }
}

/// What words ask for of which a command couldn't be read.
fn question_behind(fault: CommandFault, words: &WordList) -> Option<Question>
    ensures { fault ≢ CommandFault.Usage → result ≡ None }
{
    match fault {
        CommandFault::Usage => question_in(words.as_slice()),
        CommandFault::NoMemory => None,
    }
}

fn question_in(words: &[Word]) -> Option<Question> {
    let (first, rest) = words.split_first()?;
    match first.as_str() {
        "--help" | "-h" | "help" => help_before(rest),
        "--version" | "-V" => version_before(rest),
        name => help_among(topic_of(name)?, rest),
    }
}

fn help_before(words: &[Word]) -> Option<Question> {
    match words {
        [] => Some(Question::Help(Topic::Program)),
        [name] => Some(Question::Help(topic_of(name.as_str())?)),
        _ => None,
    }
}

fn version_before(words: &[Word]) -> Option<Question> {
    if words.is_empty() {
        Some(Question::Version)
    } else {
        None
    }
}

/// Help on the command, where these words behind it ask for that.
fn help_among(topic: Topic, words: &[Word]) -> Option<Question> {
    for word in words {
        match word.as_str() {
            "--help" | "-h" => return Some(Question::Help(topic)),
            "--" => return None,
            _ => {}
        }
    }
    None
}

/// The command of that name.
pub fn topic_of(name: &str) -> Option<Topic> {
    for (command, topic) in COMMANDS {
        if command == name {
            return Some(topic);
        }
    }
    None
}

/// How it is called, with an example.
pub fn help_on(topic: Topic) -> &'static str {
    match topic {
        Topic::Program => PROGRAM,
        Topic::Node => NODE,
        Topic::Rehearse => REHEARSE,
        Topic::Churn => CHURN,
        Topic::Replay => REPLAY,
        Topic::Upgrade => UPGRADE,
        Topic::Snapshot => SNAPSHOT,
        Topic::View => VIEW,
        Topic::Board => BOARD,
    }
}

const PROGRAM: &str = "usage: groupdesign COMMAND OPTIONS

A drawing editor for several people at once, with these commands:

  node      be one site of a session: answer typed lines, keep a journal, exchange frames with the other sites
  rehearse  play all sites of a session and the network between them, by typed lines
  churn     play a session of four sites from a number, and print how it went
  replay    print the drawing of a log, or its events
  upgrade   print a log in the newest version
  snapshot  print the drawing of a log without its history, for who looks on
  view      print the drawing of a snapshot and the frames behind it
  board     print the cards of a log of cards

groupdesign COMMAND --help has the options of a command and an example. --version prints the version.
All but churn read standard input.

Exit statuses: 0 done, 2 other words, 3 no log, 4 a failed read, 5 a failed write, 6 a failed journal, 7 a failed link,
8 out of memory, 9 too long an input, 11 another session's journal, 12 no snapshot, 13 a word that is no UTF-8.
Where it isn't 0, standard error says what happened and what to do.

example: groupdesign replay < mine.log
";

const NODE: &str =
    "usage: groupdesign node [--resume] --session N --site S --journal PATH ADDRESS ..

Be site S of a session: answer the lines of standard input, log each accepted event to PATH, and at `poll` and after each
edit or gesture exchange frames with the other sites by UDP.

  --session N     the number of the session, from 0 to 4294967295, the same for all of its sites
  --site S        the own number: the own address is the one in that place, counted from 1
  --journal PATH  the file of the log, which is made, and may not be there before
  --resume        go on from the journal that this site kept before
  ADDRESS ..      the addresses of all sites, 1 to 16, the own one too, in the same order at each site:
                  all as 192.0.2.7:4101, or all as [2001:db8::7]:4101

Lines: create, move, delete and so on, one by one or from begin to end as one gesture; undo, redo, show, poll, status,
quit. docs/LINES.md has them all.
Exit statuses: 0, 2, 4 to 9, 13, and with --resume 3 and 11.

example: groupdesign node --session 7 --site 1 --journal one.log 127.0.0.1:4101 127.0.0.1:4102
";

const REHEARSE: &str = "usage: groupdesign rehearse --sites N < LINES

Play all N sites of a session, 1 to 16, and the network between them, as the lines of standard input say, such as
`at 1 create rect 0 0 9 9`, `send 1 2` and `deliver 1`. docs/LINES.md has them all.
Exit statuses: 0, 2, 4, 5, 8, 9, 13.

example: groupdesign rehearse --sites 2 < lines.txt
";

const CHURN: &str = "usage: groupdesign churn --seed N --steps M

Play a session of four sites by M random steps, at most 10000, which the number N decides, and print how it went.
Exit statuses: 0, 2, 5, 8, 13.

example: groupdesign churn --seed 1 --steps 100
";

const REPLAY: &str =
    "usage: groupdesign replay [--format text|json|events] [--counts] [--upto-fault] < LOG

Print the drawing of a log, as text (without --format) or JSON, or its events as JSON.

  --counts      print last how many events were applied, covered and repaired
  --upto-fault  of a log with a fault, print what stands before it, and then the fault

Exit statuses: 0, 2, 3, 4, 5, 8, 13.

example: groupdesign replay --format json < mine.log
";

const UPGRADE: &str = "usage: groupdesign upgrade < LOG > NEW

Print a log in the newest version.
Exit statuses: 0, 2, 3, 4, 5, 8, 13.

example: groupdesign upgrade < old.log > new.log
";

const SNAPSHOT: &str = "usage: groupdesign snapshot < LOG > SNAPSHOT

Print the drawing of a log as a snapshot, without its history, for who looks on (`groupdesign view`).
Exit statuses: 0, 2, 3, 4, 5, 8, 13.

example: groupdesign snapshot < mine.log > mine.snapshot
";

const VIEW: &str = "usage: groupdesign view < SNAPSHOT

Look on: read a snapshot and the frames behind it, and print what came of each and the drawing.
Exit statuses: 0, 2, 4, 5, 8, 9, 12, 13.

example: groupdesign view < mine.snapshot
";

const BOARD: &str = "usage: groupdesign board [--counts] < LOG

Print the cards of a log of cards.

  --counts  print last how many events were applied, covered and repaired

Exit statuses: 0, 2, 3, 4, 5, 8, 13.

example: groupdesign board --counts < cards.log
";
