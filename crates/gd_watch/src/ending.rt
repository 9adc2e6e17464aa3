//! The last line of a run.

ghost use Rattle.std.specs.Prelude.{◌≡◌, [], ◌∷◌, IfOk};
ghost use Rattle.gd_effects.specs.Prints.{Prints};
ghost use Rattle.gd_reference.specs.Said.{says};

use gd_answers::say;
use gd_outside::{End, Sink, Status};
use gd_words::Reply;

/// Prints a reply, with which a run ends so. `WriteFault` where a write failed.
pub(crate) fn end_with<K: Sink>(
    reply: &Reply,
    status: Status,
    output: &mut K,
) -> Result<Status, End>
    ensures does { Prints (K.seen output.old) (says reply.now ∷ []) result (K.seen output.new) }
    ensures end { IfOk result (λ s. s ≡ status) }
{
    say(reply, output)?;
    Ok(status)
}
