ghost use Rattle.std.specs.Prelude.{◌≡◌, ◌+◌, ◌≤◌, length, min, vec_len, vec_capacity, IsOk, OnOk};
ghost use Rattle.gd_outside.specs.Journals.{put_at};

use std::alloc::AllocError;

/// Puts the piece at that place, over what is there, and past the end where it is longer; at the end, where the place
/// is behind that.
pub(crate) fn put_over(bytes: &mut Vec<u8>, pos: u64, piece: &[u8]) -> Result<(), AllocError>
    ensures items { OnOk result (bytes.new.items ≡ put_at bytes.old.items pos piece.now) }
    ensures capacity { vec_capacity bytes.old ≤ vec_capacity bytes.new }
    ensures sure { min pos (vec_len bytes.old) + length piece.now ≤ vec_capacity bytes.old
        → IsOk result }
{
    let at = (bytes.len() as u64).min(pos) as usize;
    let over = piece.len().min(bytes.len() - at);
    bytes[at..at + over].copy_from_slice(&piece[..over]);
    bytes.extend_from_slice(&piece[over..])
}
