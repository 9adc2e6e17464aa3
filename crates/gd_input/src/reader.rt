//! Reading lines.

ghost use Rattle.std.specs.Prelude.{◌≡◌, ◌≤◌, ◌+◌, ◌-◌, [], length, take, drop, false, Ok, IfOk, IsErr, OnErr};
ghost use Rattle.std.specs.Prelude.{MatchOption};
ghost use Rattle.gd_input.specs.Cutting.{HasNoLf, IsLineEnd, Cuts, is_end};
ghost use Rattle.gd_input.specs.Reading.{IsAtEnd, Reads, Takes};
ghost use Rattle.gd_input.specs.declared.reader.TheConstants.{LONGEST};
ghost use Rattle.gd_outside.specs.Called.{SourceCalled};

use crate::next::Next;
use crate::scan::line_end;
use crate::typed::TypedLine;
use gd_outside::{Failed, Source};
use std::marker::Model;

/// The most bytes of a line.
const LONGEST: usize = 65_536;

/// The most bytes that are pending.
const SIZE: usize = 73_728;

/// Reads the lines of an input. Contracts see the bytes that were taken from the source and are in no line yet. No call
/// takes memory.
#[derive(Drop)]
pub struct LineReader {
    bytes: [u8; SIZE],
    start: usize,
    end: usize,
    /// How many of the pending bytes were looked at. None of these is an LF.
    looked: usize,
}

impl Model for LineReader {
    ghost use Rattle.std.specs.Prelude.{ℕ, List};
    ghost use Rattle.gd_input.specs.Buffers.{pending, IsBuffer};

    ghost Value = { List ℕ };

    ghost view = { λ r. pending r.bytes r.start r.end };

    ghost invariant = { λ r. IsBuffer r.bytes r.start r.end r.looked };
}

impl LineReader {
    pub fn new() -> Self
        ensures { result ≡ [] }
    {
        LineReader {
            bytes: [0; SIZE],
            start: 0,
            end: 0,
            looked: 0,
        }
    }

    /// Reads the next line, and asks the source for more bytes as long as no whole line is pending.
    ///
    /// Fails where a read failed; what was taken before it stays pending. A line that is too long stays pending too,
    /// and is found again. Behind the last line, and at the end, nothing is pending.
    pub fn next<T: TypedLine, S: Source>(&mut self, input: &mut S) -> Result<Next<T>, Failed>
        ensures reads { Reads T.read self.old (S.seen input.old).left
            result self.new (S.seen input.new).left }
        ensures called { SourceCalled (S.seen input.old) (S.seen input.new) (IsErr result) }
    {
        loop {
            if let Some(end) = self.line_end() {
                return Ok(self.cut(end));
            }
            if self.pending().len() > LONGEST {
                return Ok(Next::TooLong);
            }
            if self.fill(input)? == 0 {
                return Ok(self.cut_last());
            }
        }
    }

    fn pending(&self) -> &[u8]
        ensures { result.now ≡ self.now }
    {
        &self.bytes[self.start..self.end]
    }

    /// Where the first pending line ends.
    fn line_end(&mut self) -> Option<usize>
        ensures same { self.new ≡ self.old }
        ensures end { MatchOption result (HasNoLf self.old) (λ end. IsLineEnd self.old end) }
    {
        let end = line_end(&self.bytes[self.start..self.end], self.looked);
        self.looked = end.unwrap_or(self.end - self.start);
        end
    }

    /// Takes the line that ends there off the front.
    fn cut<T: TypedLine>(&mut self, end: usize) -> Next<T>
        requires { IsLineEnd self.old end }
        ensures cuts { Cuts T.read self.old result self.new }
        ensures more { is_end result ≡ false }
    {
        if end > LONGEST {
            return Next::TooLong;
        }
        let line = T::read(&self.pending()[..end]);
        self.skip(end + 1);
        Next::Line {
            line,
            is_last: false,
        }
    }

    /// Takes the last line off the front, where there is one.
    fn cut_last<T: TypedLine>(&mut self) -> Next<T>
        requires no_lf { HasNoLf self.old }
        requires fits { length self.old ≤ LONGEST }
        ensures { Cuts T.read self.old result self.new }
    {
        if self.pending().is_empty() {
            return Next::Finished;
        }
        let line = T::read(self.pending());
        self.skip(self.pending().len());
        Next::Line {
            line,
            is_last: true,
        }
    }

    /// Lets go of the first bytes.
    fn skip(&mut self, count: usize)
        requires { count ≤ length self.old }
        ensures { self.new ≡ drop count self.old }
    {
        self.start += count;
        self.looked = 0;
    }

    /// Asks the source for more bytes, and says how many came. None is the end.
    fn fill<S: Source>(&mut self, input: &mut S) -> Result<usize, Failed>
        requires { length self.old ≤ LONGEST }
        ensures takes { Takes self.old (S.seen input.old).left
            self.new (S.seen input.new).left }
        ensures count { IfOk result (λ count. length self.new ≡ length self.old + count) }
        ensures end { result ≡ Ok 0 → IsAtEnd (S.seen input.new).left }
        ensures failed { OnErr result (self.new ≡ self.old) }
        ensures called { SourceCalled (S.seen input.old) (S.seen input.new) (IsErr result) }
    {
        move_to_front(&mut self.bytes, self.start, self.end);
        self.end -= self.start;
        self.start = 0;
        let count = input.read(&mut self.bytes[self.end..])?;
        self.end += count;
        Ok(count)
    }
}

/// Moves a part of the bytes to the front, so that there is room behind it.
fn move_to_front(bytes: &mut [u8], start: usize, end: usize)
    requires in_order { start ≤ end }
    requires in_bytes { end ≤ length bytes.old }
    ensures { take (end - start) bytes.new ≡ take (end - start) (drop start bytes.old) }
{
    if start > 0 {
        bytes.copy_within(start..end, 0);
    }
}
