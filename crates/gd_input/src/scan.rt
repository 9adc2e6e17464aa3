//! The search for the end of a line.

ghost use Rattle.std.specs.Prelude.{◌≤◌, length, take, MatchOption};
ghost use Rattle.gd_input.specs.Cutting.{HasNoLf, IsLineEnd};

use memchr::memchr;

/// Where the first line ends. The bytes in front of `looked` aren't looked at again.
pub(crate) fn line_end(bytes: &[u8], looked: usize) -> Option<usize>
    requires within { looked ≤ length bytes.now }
    requires no_lf { HasNoLf (take looked bytes.now) }
    ensures { MatchOption result (HasNoLf bytes.now) (λ end. IsLineEnd bytes.now end) }
{
    Some(looked + memchr(b'\n', &bytes[looked..])?)
}
