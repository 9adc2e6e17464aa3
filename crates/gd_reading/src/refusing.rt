//! What is printed of bytes that are no log.

ghost use Rattle.std.specs.Prelude.{◌≡◌, [], ◌∷◌, Err};
ghost use Rattle.gd_lines.specs.Text.{bad_log_line};
ghost use Rattle.gd_effects.specs.Effects.{Print};
ghost use Rattle.gd_effects.specs.Prints.{Prints};

use gd_base::LogWhy;
use gd_effects::print;
use gd_outside::{End, Sink};
use gd_words::{AsText, Reply};

/// Prints the line of the first fault of bytes that are no log. No early end comes but `WriteFault`.
pub fn refuse<K: Sink>(output: &mut K, at: u64, why: LogWhy) -> Result<(), End>
    ensures does { Prints (K.seen output.old) (Print (bad_log_line at why) ∷ []) result
        (K.seen output.new) }
    ensures end { (e : End) → result ≡ Err e → e ≡ End.WriteFault }
{
    let line = Reply::BadLog { at, why }.text();
    print(output, line.as_slice())
}
