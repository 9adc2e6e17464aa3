//! What is printed of how the events of a log went.

ghost use Rattle.std.specs.Prelude.{◌≡◌, map, Err};
ghost use Rattle.gd_effects.specs.Effects.{Print};
ghost use Rattle.gd_effects.specs.Prints.{Prints};
ghost use Rattle.gd_reference.specs.SlowRun.{counts_lines};

use gd_arriving::Tally;
use gd_effects::print;
use gd_outside::{End, Sink};
use gd_words::AsText;

/// Prints the counts, where they are asked for. `WriteFault` where a write failed; no other end comes.
pub fn write_counts<K: Sink>(tally: &Tally, asked: bool, output: &mut K) -> Result<(), End>
    ensures does { Prints (K.seen output.old) (map Print (counts_lines asked tally.now)) result
        (K.seen output.new) }
    ensures end { (e : End) → result ≡ Err e → e ≡ End.WriteFault }
{
    if !asked {
        return Ok(());
    }
    let text = tally.reply().text();
    print(output, text.as_slice())
}
