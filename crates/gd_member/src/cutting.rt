//! Bytes, cut into lines.

ghost use Rattle.std.specs.List.{position};
ghost use Rattle.std.specs.Prelude.{◌≡◌, ◌≤◌, drop, length, take};
ghost use Rattle.gd_member.specs.Cutting.{is_lf, line_end};

/// The first line, up to its line feed, or to the end where there is none.
pub(crate) fn first_line(bytes: &[u8]) -> &[u8]
    ensures line { result.now ≡ take (line_end bytes.now) bytes.now }
    ensures len { length result.now ≡ line_end bytes.now }
{
    &bytes[..line_end(bytes)]
}

/// The bytes from there on.
pub(crate) fn from(bytes: &[u8], start: usize) -> &[u8]
    requires { start ≤ length bytes.now }
    ensures { result.now ≡ drop start bytes.now }
{
    &bytes[start..]
}

/// The place of the first line feed, or the end where there is none.
#[tactic(auto, using(crate::proofs::Cuts::or_end))]
fn line_end(bytes: &[u8]) -> usize
    ensures value { result ≡ line_end bytes.now }
    ensures within { result ≤ length bytes.now }
{
    line_feed(bytes).unwrap_or(bytes.len())
}

/// The place of the first line feed, if there is one.
fn line_feed(bytes: &[u8]) -> Option<usize>
    ensures { result ≡ position is_lf bytes.now }
{
    bytes.iter().position(|byte| *byte == b'\n')
}
