ghost use Rattle.std.specs.Prelude.{◌≡◌, ℕ, List};
ghost use Rattle.gd_lines.specs.Replies.{reply_text};

use crate::reply_text::ReplyText;
use gd_lines::Reply;

/// What is printed as one line.
pub trait AsText {
    ghost line: { Self → List ℕ };

    /// Its line, with the LF.
    fn text(&self) -> ReplyText
        ensures { result ≡ line self.now };
}

impl AsText for Reply {
    ghost line = { reply_text };

    fn text(&self) -> ReplyText {
        let mut text = ReplyText::new();
        text.put(self);
        text
    }
}
