//! The words of the command line, without the program's name.

ghost use Rattle.std.specs.Prelude.{◌≡◌, ◌≢◌, ◌++◌, ◌∷◌, [], OnOk, OnErr};

use gd_outside::{Word, WordList};
use std::alloc::{AllocError, Global};
use std::env;
use std::io::ErrorKind;

/// The exit status where the words of the command line can't be had, for another cause than memory: one is no UTF-8.
pub const NO_WORDS: u8 = 13;

/// Why the words aren't there.
#[derive(Clone, Copy, Debug, PartialEq, Eq)]
pub enum WordsFault {
    Memory,
    /// The call for them failed, since one of them is no UTF-8.
    Call,
}

impl From<AllocError> for WordsFault {
    ghost use Rattle.std.specs.Prelude.{◌≡◌};
    ghost use Rattle.groupdesign.specs.declared.words.WordsFault.TheVariants.{Memory};

    ghost from_gives = { λ _ fault. fault ≡ Memory };

    fn from(_: AllocError) -> Self {
        WordsFault::Memory
    }
}

/// The words, or why they aren't there. No clause can say what the command line has.
pub fn words_of(rt: &HostRuntime) -> Result<WordList, WordsFault> {
    let args = match env::args(rt) {
        Ok(args) => args,
        Err(error) => return Err(fault_of(error.kind())),
    };
    let mut words = WordList::new(rt.alloc());
    for arg in args.skip(1) {
        add_word(rt.alloc(), &mut words, arg.as_str())?;
    }
    Ok(words)
}

fn fault_of(kind: ErrorKind) -> WordsFault
    ensures memory { kind ≡ ErrorKind.OutOfMemory → result ≡ WordsFault.Memory }
    ensures call { kind ≢ ErrorKind.OutOfMemory → result ≡ WordsFault.Call }
{
    match kind {
        ErrorKind::OutOfMemory => WordsFault::Memory,
        _ => WordsFault::Call,
    }
}

/// Puts the word last.
fn add_word(alloc: Global, words: &mut WordList, text: &str) -> Result<(), AllocError>
    ensures ok { OnOk result (words.new ≡ words.old ++ text.now ∷ []) }
    ensures err { OnErr result (words.new ≡ words.old) }
{
    let word = Word::new(alloc, text)?;
    words.push(word)
}
