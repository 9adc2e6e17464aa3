ghost use Rattle.std.specs.Prelude.{◌<◌, ◌≤◌, length, take, IsErr, IfOk, OnErr};
ghost use Rattle.std.specs.Io.KnownBytes.{Appends};
ghost use Rattle.gd_outside.specs.Called.{SinkCalled};
ghost use Rattle.gd_outside.specs.Told.{Grows, GrowsByFront};
ghost use Rattle.gd_real.specs.Untold.{seen_output};

use gd_outside::{Failed, Sink};
use std::io::Write;

/// Standard output, with the number of its writes that failed. What it takes goes out at once.
#[derive(Drop)]
pub struct StandardOutput<W> {
    inner: W,
    faults: u64,
}

impl<W> StandardOutput<W> {
    pub fn new(inner: W) -> Self {
        StandardOutput { inner, faults: 0 }
    }
}

impl<W: Write> Sink for StandardOutput<W> {
    ghost seen = { λ s. seen_output s.faults };

    // A write that takes nothing of a piece would be handed that piece for ever: it counts as a fault.
    fn write(&mut self, piece: &[u8]) -> Result<usize, Failed>
        ensures size { IfOk result (λ k. k ≤ length piece.now) }
        ensures some { IfOk result (λ k. 0 < length piece.now → 0 < k) }
        ensures written { IfOk result (λ k. Grows
            (seen_output self.old.faults).bytes (take k piece.now)
            (seen_output self.new.faults).bytes) }
        ensures failed { OnErr result (GrowsByFront
            (seen_output self.old.faults).bytes piece.now (seen_output self.new.faults).bytes) }
        ensures called { SinkCalled (seen_output self.old.faults) (seen_output self.new.faults)
            (IsErr result) }

        // Where the writer below tells its bytes, what is taken of a piece is put behind them.
        ensures through { IfOk result (λ k. Appends
            (W.contents self.old.inner) (W.contents self.new.inner) (take k piece.now)) }
    {
        if let Ok(count) = self.inner.write(piece)
            && (count > 0 || piece.is_empty())
            && self.inner.flush().is_ok()
        {
            return Ok(count);
        }
        self.faults = self.faults.saturating_add(1);
        Err(Failed)
    }
}
