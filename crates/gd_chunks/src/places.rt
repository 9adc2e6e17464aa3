//! Where an element stands in rows, and what changes the rows around it.

ghost use Rattle.std.specs.Prelude.{◌≡◌, ℕ, ◌+◌, ◌-◌, ◌^◌, nat_lt, ◌<◌, ◌≤◌, IsTrue, [], ◌∷◌, ◌++◌, length, take, drop};
ghost use Rattle.std.specs.Prelude.{slice_index, if◌then◌else◌, vec_len, vec_capacity};
ghost use Rattle.gd_chunks.specs.Rows.{joined, starts_from, row_at, IsPlace, IsLastUpto, HasRoom, parted};

use crate::row::{HALF, ROW, Row};
use crate::starts::Starts;
use std::alloc::Global;
use std::mem;

/// A row, and a column in it.
#[derive(Drop, Clone, Copy)]
pub(crate) struct Place {
    pub(crate) row: usize,
    pub(crate) column: usize,
}

/// Whether the number at the place is the last of the rising ones that is not above `n`, and not the last of all.
fn is_last_upto(starts: &Starts, place: usize, n: usize) -> bool
    requires some { 0 < length starts.now.items }
    ensures { IsTrue result → IsLastUpto starts.now.items n place }
{
    place < starts.len() - 1 && starts.get(place) <= n && n < starts.get(place + 1)
}

/// The place of the last of the rising numbers that is not above `n`. It looks at the last one first, since most
/// elements come at the end, then at the one that is guessed, and then it halves.
fn last_upto(starts: &Starts, guess: usize, n: usize) -> usize
    requires some { 0 < length starts.now.items }
    requires first { slice_index starts.now.items 0 ≤ n }
    ensures { IsLastUpto starts.now.items n result }
{
    let mut low = 0;
    let mut high = starts.len();
    if starts.get(high - 1) <= n {
        return high - 1;
    }
    if is_last_upto(starts, guess, n) {
        return guess;
    }
    while low + 1 < high {
        let middle = low + (high - low) / 2;
        (low, high) = narrowed(low, high, middle, n < starts.get(middle));
    }
    low
}

/// The half of the places that is left.
fn narrowed(low: usize, high: usize, middle: usize, above: bool) -> (usize, usize)
    ensures { result ≡ (if above then (low, middle) else (middle, high)) }
{
    if above { (low, middle) } else { (middle, high) }
}

/// The place of element `at`, or, at the end, the place behind the last row. The guess is the row that it may stand in.
pub(crate) fn find<T>(rows: &[Row<T>], starts: &Starts, guess: usize, at: usize) -> Place
    requires some { 0 < length rows.now }
    requires starts { starts.now.items ≡ starts_from 0 rows.now }
    requires at { at ≤ length (joined rows.now) }
    ensures place { IsPlace rows.now at result.row result.column }
    ensures inside { at < length (joined rows.now)
        → result.column < length (row_at rows.now result.row) }
{
    let row = last_upto(starts, guess, at);
    Place {
        row,
        column: at - starts.get(row),
    }
}

/// Puts an empty row at the end, for an element behind all.
fn open<T>(rows: &mut Vec<Row<T>>, starts: &mut Starts, blank: Vec<T>, at: usize) -> Place
    requires starts { starts.old.items ≡ starts_from 0 rows.old.items }
    requires at { at ≡ length (joined rows.old.items) }
    requires blank { blank.items ≡ [] }
    requires blank_room { ROW ≤ vec_capacity blank }
    requires rows_room { vec_len rows.old < vec_capacity rows.old }
    requires starts_room { 0 < starts.old.room }
    ensures { HasRoom rows.old.items rows.new.items starts.new.items at result.row result.column }
{
    let row = rows.len();
    rows.push_reserved(Row::of(blank));
    starts.push_reserved(at);
    Place { row, column: 0 }
}

/// Parts a full row in halves.
fn part_row<T: Drop>(rows: &mut Vec<Row<T>>, blank: Vec<T>, row: usize)
    requires row { row < length rows.old.items }
    requires full { length (row_at rows.old.items row) ≡ ROW }
    requires blank { blank.items ≡ [] }
    requires blank_room { ROW ≤ vec_capacity blank }
    requires rows_room { vec_len rows.old < vec_capacity rows.old }
    ensures { rows.new.items ≡ parted rows.old.items row HALF }
{
    let second = rows[row].part(blank);
    let _row = rows.insert(row + 1, second);
}

/// Parts a full row in halves, and counts anew where it and each later row starts.
fn part<T: Drop>(rows: &mut Vec<Row<T>>, starts: &mut Starts, blank: Vec<T>, row: usize)
    requires starts { starts.old.items ≡ starts_from 0 rows.old.items }
    requires row { row < length rows.old.items }
    requires full { length (row_at rows.old.items row) ≡ ROW }
    requires fits { length (joined rows.old.items) < 2 ^ 64 }
    requires blank { blank.items ≡ [] }
    requires blank_room { ROW ≤ vec_capacity blank }
    requires rows_room { vec_len rows.old < vec_capacity rows.old }
    requires starts_room { 0 < starts.old.room }
    ensures rows { rows.new.items ≡ parted rows.old.items row HALF }
    ensures starts { starts.new.items ≡ starts_from 0 (parted rows.old.items row HALF) }
{
    let start = starts.get(row);
    part_row(rows, blank, row);
    count_again(rows.as_slice(), starts, row, start);
}

/// Where a place of a row is once that row was parted in halves.
fn halved(place: Place) -> Place
    requires { place.row + 1 < 2 ^ 64 }
    ensures row { result.row ≡ (if nat_lt HALF place.column then place.row + 1 else place.row) }
    ensures column { result.column
        ≡ (if nat_lt HALF place.column then place.column - HALF else place.column) }
{
    if HALF < place.column {
        Place {
            row: place.row + 1,
            column: place.column - HALF,
        }
    } else {
        place
    }
}

/// A place in front of element `at`, in a row that is not full. A full row is parted in halves; but behind the last one
/// an empty row is put, so that rows that are filled in order stay full.
pub(crate) fn room_for<T: Drop>(
    rows: &mut Vec<Row<T>>,
    starts: &mut Starts,
    blank: &mut Vec<T>,
    alloc: Global,
    guess: usize,
    at: usize,
) -> Place
    requires starts { starts.old.items ≡ starts_from 0 rows.old.items }
    requires at { at ≤ length (joined rows.old.items) }
    requires fits { length (joined rows.old.items) < 2 ^ 64 }
    requires blank { blank.old.items ≡ [] }
    requires blank_room { ROW ≤ vec_capacity blank.old }
    requires rows_room { vec_len rows.old < vec_capacity rows.old }
    requires starts_room { 0 < starts.old.room }
    ensures room { HasRoom rows.old.items rows.new.items starts.new.items at
        result.row result.column }
    ensures blank { blank.new.items ≡ [] }
{
    if rows.is_empty() {
        return open(rows, starts, mem::replace(blank, Vec::new(alloc)), at);
    }
    let place = find(rows.as_slice(), starts, guess, at);
    if rows[place.row].len() < ROW {
        return place;
    }
    let blank = mem::replace(blank, Vec::new(alloc));
    if place.column == ROW && place.row + 1 == rows.len() {
        return open(rows, starts, blank, at);
    }
    part(rows, starts, blank, place.row);
    halved(place)
}

/// Counts the elements in front of each row anew, from a row on that has `count` in front of it.
fn count_again<T>(rows: &[Row<T>], starts: &mut Starts, from: usize, count: usize)
    requires from { from ≤ length rows.now }
    requires known { from ≤ length starts.old.items }
    requires starts { take from starts.old.items ≡ starts_from 0 (take from rows.now) }
    requires count { count ≡ length (joined (take from rows.now)) }
    requires room { length rows.now ≤ length starts.old.items + starts.old.room }
    requires fits { length (joined rows.now) < 2 ^ 64 }
    ensures { starts.new.items ≡ starts_from 0 rows.now }
{
    starts.truncate(from);
    let mut start = count;
    for at in from..rows.len() {
        starts.push_reserved(start);
        start += rows[at].len();
    }
}

/// Drops the first `count` rows.
fn drop_rows<T: Drop>(rows: &mut Vec<Row<T>>, count: usize)
    requires { count ≤ length rows.old.items }
    ensures { rows.new.items ≡ drop count rows.old.items }
{
    drop(rows.drain(..count));
}

/// Takes the first `count` elements away.
pub(crate) fn shed<T: Drop>(rows: &mut Vec<Row<T>>, starts: &mut Starts, count: usize)
    requires some { 0 < length rows.old.items }
    requires starts { starts.old.items ≡ starts_from 0 rows.old.items }
    requires count { count ≤ length (joined rows.old.items) }
    requires fits { length (joined rows.old.items) < 2 ^ 64 }
    ensures items { joined rows.new.items ≡ drop count (joined rows.old.items) }
    ensures starts { starts.new.items ≡ starts_from 0 rows.new.items }
{
    let place = find(rows.as_slice(), starts, 0, count);
    drop_rows(rows, place.row);
    rows[0].shed(place.column);
    count_again(rows.as_slice(), starts, 0, 0);
}
