ghost use Rattle.std.specs.Prelude.{◌≡◌, map, Err};
ghost use Rattle.gd_lines.specs.Text.{lines};
ghost use Rattle.gd_effects.specs.Effects.{Print};
ghost use Rattle.gd_effects.specs.Prints.{Prints};

use crate::picture::Picture;
use gd_effects::print;
use gd_outside::{End, Sink};
use gd_words::ReplyText;

/// Writes the text of the picture, one line a piece. It takes no memory.
///
/// `WriteFault` where a write failed, with some lines written and a prefix of the next one; no other end comes.
pub fn write_text<K: Sink>(picture: &Picture, output: &mut K) -> Result<(), End>
    ensures does { Prints (K.seen output.old) (map Print (lines picture.now))
        result (K.seen output.new) }
    ensures end { (e : End) → result ≡ Err e → e ≡ End.WriteFault }
{
    let items = picture.as_slice();
    let mut text = ReplyText::new();
    for item in items {
        text.put_item(item);
        print(output, text.as_slice())?;
    }
    text.put_end(items.len() as u64);
    print(output, text.as_slice())
}
