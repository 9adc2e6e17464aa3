//! What is written to the caller's buffers.
ghost use Rattle.std.specs.Prelude.{◌≡◌, IfOk, length};
ghost use Rattle.gd_embed.specs.Buffers.{FillIs};

use crate::answers::Fault;
use std::alloc::{AllocError, Global};

/// Writes bytes to a buffer where it has room for them, and says how many there are in any case. `Room` where it
/// hasn't, and then it stays as it was.
pub fn fill(bytes: &[u8], out: &mut [u8], needed: &mut u64) -> Result<i64, Fault>
    ensures fills { FillIs bytes.now out.old result out.new }
    ensures needed { needed.new ≡ length bytes.now }
{
    let count = bytes.len();
    *needed = count as u64;
    if out.len() < count {
        return Err(Fault::Room);
    }
    out[..count].copy_from_slice(bytes);
    Ok(count as i64)
}

/// The same bytes. `AllocError` where memory ran out.
pub fn copy_of(alloc: Global, bytes: &[u8]) -> Result<Vec<u8>, AllocError>
    ensures { IfOk result (λ copy. copy.items ≡ bytes.now) }
{
    let mut copy = Vec::new(alloc);
    copy.extend_from_slice(bytes)?;
    Ok(copy)
}
