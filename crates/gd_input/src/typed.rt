//! What lines are read as.

ghost use Rattle.std.specs.Prelude.{◌≡◌, ℕ, List};
ghost use Rattle.gd_lines.specs.Lines.{read as read_command};
ghost use Rattle.gd_lines.specs.ScriptLines.{read_script};

use gd_base::LineFault;
use gd_lines::{Command, ScriptLine};
use gd_words::Line;

/// What a line of an input is read as.
pub trait TypedLine: Drop {
    /// What each line is read as.
    ghost read: { List ℕ → Self };

    /// Reads a line. `bytes` are the line without its LF; a CR at their end is one of them.
    fn read(bytes: &[u8]) -> Self
        ensures { result ≡ read bytes.now };
}

/// A line that people type.
impl TypedLine for Result<Command, LineFault> {
    ghost read = { read_command };

    fn read(bytes: &[u8]) -> Self {
        Line::read(bytes)
    }
}

/// A line of a rehearsal.
impl TypedLine for Result<ScriptLine, LineFault> {
    ghost read = { read_script };

    fn read(bytes: &[u8]) -> Self {
        Line::read_script(bytes)
    }
}
