//! The items behind a snapshot, read ahead of their use.

ghost use Rattle.std.specs.Prelude.{◌≡◌, ℕ, ◌≤◌, ◌+◌, [], Some, drop, length, take, IsErr};
ghost use Rattle.gd_handover.specs.Parts.{Grown};
ghost use Rattle.gd_watch.specs.Items.{ComesNext, IsCut, NextIs, Settles};
ghost use Rattle.gd_watch.specs.declared.items.TheConstants.{LENGTH_BYTES};

use gd_grammar::FRAME_BYTES;
use gd_handover::{Ahead, ViewWhy};
use gd_outside::{Failed, Source};
use gd_wire::Bytes;

/// An item is a length of so many bytes, and a frame.
pub(crate) const LENGTH_BYTES: usize = 2;

/// Many bytes are read at a time, and more than an item has.
const ROOM: usize = 65_536;

/// What comes next behind a snapshot.
#[derive(Drop)]
pub(crate) enum Next {
    /// Nothing does.
    End,
    /// A whole item is ahead, with a frame of so many bytes.
    Item(usize),
    /// An item has this fault, so many bytes behind its first one.
    Broken { at: usize, why: ViewWhy },
    /// An item begins, and is one too many.
    TooMany,
}

/// Reads until the next item is ahead, or its fault is known, where `left` more may come. Only bytes that it needs for
/// that are waited for.
///
/// Fails where a read failed. Then what is ahead is no whole item, and has no fault yet.
pub(crate) fn next_item<S: Source>(
    ahead: &mut Ahead,
    left: u32,
    input: &mut S,
) -> Result<Next, Failed>
    ensures grown { Grown ahead.old ahead.new (S.seen input.old) (S.seen input.new) (IsErr result) }
    ensures next { NextIs left result ahead.new (S.seen input.new).left }
{
    'more: loop {
        if let Some(next) = settled(ahead.as_slice(), left) {
            return Ok(next);
        }
        if ahead.read(input, ROOM)? == 0 {
            return Ok(at_end(ahead.as_slice(), left));
        }
    }
}

/// What these bytes say of the next item, whatever follows them. None where they are the beginning of an item that may
/// come.
fn settled(bytes: &[u8], left: u32) -> Option<Next>
    ensures { Settles left bytes.now result }
{
    if bytes.is_empty() {
        return None;
    }
    if left == 0 {
        return Some(Next::TooMany);
    }
    front(bytes)
}

/// The same where one more may come, and there are bytes.
fn front(bytes: &[u8]) -> Option<Next>
    ensures { (left : ℕ) → 1 ≤ left → 1 ≤ length bytes.now → Settles left bytes.now result }
{
    let mut rest = Bytes::new(bytes);
    let Ok(count) = rest.half() else {
        return None;
    };
    let count = usize::from(count);
    if count > FRAME_BYTES {
        return Some(Next::Broken {
            at: 0,
            why: ViewWhy::Long,
        });
    }
    if rest.len() < count {
        return None;
    }
    Some(Next::Item(count))
}

/// What the beginning of an item is behind which nothing comes.
fn at_end(bytes: &[u8], left: u32) -> Next
    requires { IsCut left bytes.now }
    ensures { ComesNext left result bytes.now (Some []) }
{
    match bytes.len() {
        0 => Next::End,
        at => Next::Broken {
            at,
            why: ViewWhy::Short,
        },
    }
}

/// The bytes of the frame of the item that is ahead.
pub(crate) fn frame_of(ahead: &Ahead, count: usize) -> &[u8]
    requires { count + LENGTH_BYTES ≤ length ahead.now }
    ensures { result.now ≡ take count (drop LENGTH_BYTES ahead.now) }
{
    &ahead.as_slice()[LENGTH_BYTES..count + LENGTH_BYTES]
}
