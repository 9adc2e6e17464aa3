//! Bytes that are read ahead of their use, so that the source is asked for many at a time.

ghost use Rattle.std.specs.Prelude.{◌≡◌, ◌<◌, ◌≤◌, ◌+◌, ◌-◌, [], Ok, length, take, drop, IfOk, IsErr, IsSome, OnErr};
ghost use Rattle.gd_outside.specs.Told.{told};
ghost use Rattle.gd_handover.specs.Parts.{Grown};
ghost use Rattle.gd_handover.specs.declared.ahead.TheConstants.{SIZE};

use gd_outside::{Failed, Source};
use std::marker::Model;

/// How many bytes are ahead at most.
const SIZE: usize = 65_536;

/// Bytes that were read ahead of their use, which contracts see as a list.
#[derive(Drop)]
pub struct Ahead {
    bytes: [u8; SIZE],
    start: usize,
    end: usize,
}

impl Model for Ahead {
    ghost use Rattle.std.specs.Prelude.{ℕ, ◌≤◌, ◌-◌, List, take, drop};
    ghost use Rattle.gd_handover.specs.declared.ahead.TheConstants.{SIZE};

    ghost Value = { List ℕ };

    ghost view = { λ a. take (a.end - a.start) (drop a.start a.bytes) };

    ghost invariant = { λ a. (a.start ≤ a.end) × (a.end ≤ SIZE) };
}

impl Ahead {
    pub fn new() -> Self
        ensures { result ≡ [] }
    {
        Ahead {
            bytes: [0; SIZE],
            start: 0,
            end: 0,
        }
    }

    pub fn len(&self) -> usize
        ensures value { result ≡ length self.now }
        ensures few { result ≤ SIZE }
    {
        self.end - self.start
    }

    pub fn as_slice(&self) -> &[u8]
        ensures { result.now ≡ self.now }
    {
        &self.bytes[self.start..self.end]
    }

    /// Consumes the first `count` bytes.
    pub fn skip(&mut self, count: usize)
        requires { count ≤ length self.old }
        ensures { self.new ≡ drop count self.old }
    {
        self.start += count;
    }

    /// Reads once, so that at most `most` bytes are ahead. How many came: none is the end of the source.
    ///
    /// Fails where the read failed, and then the bytes ahead stay as they were.
    pub fn read<S: Source>(&mut self, source: &mut S, most: usize) -> Result<usize, Failed>
        requires room { length self.old < SIZE }
        requires more { length self.old < most }
        ensures grown { Grown self.old self.new (S.seen source.old) (S.seen source.new)
            (IsErr result) }
        ensures came { IfOk result (λ count. length self.new ≡ length self.old + count) }
        ensures few { IfOk result (λ count. length self.new ≤ most) }
        ensures end { result ≡ Ok 0 → IsSome (S.seen source.new).left
            → told (S.seen source.new).left ≡ [] }
        ensures err { OnErr result (self.new ≡ self.old) }
    {
        move_to_start(&mut self.bytes, self.start, self.end);
        self.end -= self.start;
        self.start = 0;
        let room = most.min(SIZE);
        let count = source.read(&mut self.bytes[self.end..room])?;
        self.end += count;
        Ok(count)
    }
}

/// Moves a part of the bytes to the beginning, so that there is room behind it.
fn move_to_start(bytes: &mut [u8], start: usize, end: usize)
    requires in_order { start ≤ end }
    requires in_bytes { end ≤ length bytes.old }
    ensures { take (end - start) bytes.new ≡ take (end - start) (drop start bytes.old) }
{
    bytes.copy_within(start..end, 0);
}
