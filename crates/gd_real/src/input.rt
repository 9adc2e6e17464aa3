ghost use Rattle.std.specs.Prelude.{◌≡◌, ◌<◌, ◌≤◌, [], Ok, length, take, IsErr, IsSome, IfOk, OnErr};
ghost use Rattle.std.specs.Io.KnownBytes.{ReadConsumes};
ghost use Rattle.gd_outside.specs.Called.{SourceCalled};
ghost use Rattle.gd_outside.specs.Told.{told, HandsOut};
ghost use Rattle.gd_real.specs.Untold.{seen_input};

use gd_outside::{Failed, Source};
use std::io::Read;

/// Standard input, with the number of its reads that failed.
#[derive(Drop)]
pub struct StandardInput<R> {
    inner: R,
    faults: u64,
}

impl<R> StandardInput<R> {
    pub fn new(inner: R) -> Self {
        StandardInput { inner, faults: 0 }
    }
}

impl<R: Read> Source for StandardInput<R> {
    ghost seen = { λ s. seen_input s.faults };

    fn read(&mut self, buf: &mut [u8]) -> Result<usize, Failed>
        ensures size { IfOk result (λ k. k ≤ length buf.new) }
        ensures handed { IfOk result (λ k. HandsOut
            (seen_input self.old.faults).left (take k buf.new) (seen_input self.new.faults).left) }
        ensures end { result ≡ Ok 0 → 0 < length buf.new → IsSome (seen_input self.new.faults).left
            → told (seen_input self.new.faults).left ≡ [] }
        ensures failed { OnErr result (HandsOut (seen_input self.old.faults).left []
            (seen_input self.new.faults).left) }
        ensures called { SourceCalled (seen_input self.old.faults) (seen_input self.new.faults)
            (IsErr result) }

        // Where the reader below tells its bytes, they are handed through.
        ensures through { ReadConsumes (R.remaining self.old.inner)
            (R.remaining self.new.inner) result buf.new }
    {
        match self.inner.read(buf) {
            Ok(count) => Ok(count),
            Err(_) => {
                self.faults = self.faults.saturating_add(1);
                Err(Failed)
            }
        }
    }
}
