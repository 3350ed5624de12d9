//! Places in a document: lines, and columns in units of UTF-16 or in bytes.

ghost use Rattle.std.specs.Prelude.{◌≡◌, ◌<◌, ◌≤◌, ◌+◌, ◌^◌, ◌⊎◌, ℕ, false, true, length, min, nat_le, take, IfOk};
ghost use Rattle.std.specs.List.Sorted.{IsNonDecreasing, IsPartitionPoint};
ghost use Rattle.language_server.specs.Lines.{ends_line, starts_upto};
ghost use Rattle.language_server.specs.Positions.{units_of, units, begins_character, AreMarks, AreLinesOf, IsPlaceOf, IsBetween, IsBehind};
ghost use Rattle.language_server.specs.declared.places.Encoding.TheVariants.{Utf16};

use std::alloc::{AllocError, Global};

/// A place in a document. Both count from 0.
#[derive(Clone, Copy, Debug, PartialEq, Eq, Drop)]
pub struct Position {
    /// The line.
    pub line: u64,
    /// The column, in units of the encoding.
    pub character: u64,
}

/// In what columns count.
#[derive(Clone, Copy, Debug, PartialEq, Eq)]
pub enum Encoding {
    /// Units of UTF-16.
    Utf16,
    /// Bytes of UTF-8.
    Utf8,
}

/// How many bytes lie between two marks.
const STEP: usize = 1024;

/// A line with more bytes than these is long.
const LONG: usize = 8192;

/// The lines of a document, with marks where one of them is long: a place costs as much in a long line as in a short one.
#[derive(Debug, Drop)]
pub struct Lines {
    /// Where the lines begin. A line ends with LF, CR LF or CR.
    pub starts: Vec<usize>,
    /// How many units of UTF-16 come before each 1024th byte, from the first one on; none where no line is long.
    pub marks: Vec<u64>,
}

impl Lines {
    /// Finds the lines of a text.
    pub fn of_text(alloc: Global, text: &str) -> Result<Lines, AllocError>
        ensures { length text.now < 2 ^ 63 → IfOk result (AreLinesOf text.now) }
    {
        let starts = line_starts(alloc, text)?;
        let marks = if has_long(starts.as_slice(), text.len()) {
            marks_of(alloc, text.as_bytes())?
        } else {
            Vec::new(alloc)
        };
        Ok(Lines { starts, marks })
    }
}

/// Returns whether one of the lines that begin at these offsets is long, in a text of `len` bytes.
fn has_long(starts: &[usize], len: usize) -> bool {
    let mut begin: usize = 0;
    'starts: for start in starts {
        if start.saturating_sub(begin) > LONG {
            return true;
        }
        begin = *start;
    }
    len.saturating_sub(begin) > LONG
}

/// Returns how many units of UTF-16 come before each 1024th byte.
fn marks_of(alloc: Global, bytes: &[u8]) -> Result<Vec<u64>, AllocError>
    ensures { length bytes.now < 2 ^ 63 → IfOk result (λ v. AreMarks bytes.now v.items) }
{
    let mut marks = Vec::new(alloc);
    let mut units: u64 = 0;
    'marks: for number in 0..bytes.len() / STEP + 1 {
        marks.push(units)?;
        let from = number * STEP;
        let past = from.saturating_add(STEP).min(bytes.len());
        units = units.saturating_add(units_in(&bytes[from..past]));
    }
    Ok(marks)
}

/// Returns where the lines of a text begin. A line ends with LF, CR LF or CR.
fn line_starts(alloc: Global, text: &str) -> Result<Vec<usize>, AllocError>
    ensures { IfOk result (λ v. v.items ≡ starts_upto text.now (length text.now)) }
{
    let mut starts = Vec::new(alloc);
    starts.push(0)?;
    let bytes = text.as_bytes();
    'bytes: for index in 0..bytes.len() {
        if ends_line(bytes, index) {
            starts.push(index.saturating_add(1))?;
        }
    }
    Ok(starts)
}

/// Returns whether a line ends behind a byte.
fn ends_line(bytes: &[u8], index: usize) -> bool
    ensures { result ≡ ends_line bytes.now index }
{
    match bytes.get(index) {
        Some(b'\n') => true,
        Some(b'\r') => bytes.get(index.saturating_add(1)) != Some(&b'\n'),
        _ => false,
    }
}

/// Returns how many units the character has that a byte begins: none of a byte within a character.
fn units_of(byte: u8, encoding: Encoding) -> u64
    ensures { result ≡ units_of encoding byte }
{
    match encoding {
        Encoding::Utf8 => 1,
        Encoding::Utf16 => {
            if byte < 0x80 {
                1
            } else if byte < 0xc0 {
                0
            } else if byte < 0xf0 {
                1
            } else {
                2
            }
        }
    }
}

/// Returns how many units of UTF-16 bytes have.
fn units_in(bytes: &[u8]) -> u64
    ensures { length bytes.now < 2 ^ 63 → result ≡ units Utf16 bytes.now }
{
    if bytes.is_ascii() {
        return bytes.len() as u64;
    }
    let mut units: u64 = 0;
    'bytes: for byte in bytes {
        units = units.saturating_add(units_of(*byte, Encoding::Utf16));
    }
    units
}

/// Returns how many units of UTF-16 come before an offset, on from the last mark.
fn units_before(marks: &[u64], bytes: &[u8], at: usize) -> u64
    requires { at ≤ length bytes.now }
    ensures { length bytes.now < 2 ^ 63 → AreMarks bytes.now marks.now → result ≡ units Utf16 (take at bytes.now) }
{
    let number = (at / STEP).min(marks.len().saturating_sub(1));
    let mark = marks.get(number).copied().unwrap_or(0);
    mark.saturating_add(units_in(&bytes[number * STEP..at]))
}

/// Returns how many units of UTF-16 lie between two offsets of a line.
fn units_between(marks: &[u64], bytes: &[u8], start: usize, end: usize) -> u64
    requires order { start ≤ end }
    requires within { end ≤ length bytes.now }
    ensures { length bytes.now < 2 ^ 63 → AreMarks bytes.now marks.now → units Utf16 (take start bytes.now) + result ≡ units Utf16 (take end bytes.now) }
{
    if marks.is_empty() || end - start <= STEP {
        return units_in(&bytes[start..end]);
    }
    units_before(marks, bytes, end).saturating_sub(units_before(marks, bytes, start))
}

/// Returns how many lines begin at an offset or before it.
fn lines_upto(starts: &[usize], offset: usize) -> usize
    ensures bound { result ≤ length starts.now }
    ensures point { IsNonDecreasing starts.now → IsPartitionPoint (λ p. nat_le p offset ≡ true) (λ p. nat_le p offset ≡ false) starts.now result }
{
    starts.partition_point(|start| *start <= offset)
}

/// Returns the place of an offset: of the end for one past it.
pub(crate) fn position_at(text: &str, lines: &Lines, offset: usize, encoding: Encoding) -> Position
    ensures { length text.now < 2 ^ 63 → AreLinesOf text.now lines.now → IsPlaceOf encoding text.now (min offset (length text.now)) result }
{
    let end = offset.min(text.len());
    let starts = lines.starts.as_slice();
    let line = lines_upto(starts, end).saturating_sub(1);
    let start = starts.get(line).copied().unwrap_or(0).min(end);
    let character = match encoding {
        Encoding::Utf8 => (end - start) as u64,
        Encoding::Utf16 => units_between(lines.marks.as_slice(), text.as_bytes(), start, end),
    };
    let line = line as u64;
    Position { line, character }
}

/// Returns whether a byte isn't within a character.
fn begins_character(byte: u8) -> bool
    ensures { result ≡ begins_character byte }
{
    byte < 0x80 || byte >= 0xc0
}

/// Returns the offset of a place. One past the end of a line counts as that end, one past the text as the text's, and one within a
/// character as where that begins.
pub(crate) fn offset_at(text: &str, lines: &Lines, place: Position, encoding: Encoding) -> usize
    ensures bound { result ≤ length text.now }
    ensures read_back { AreLinesOf text.now lines.now → (a : ℕ) → a ≤ length text.now → IsPlaceOf encoding text.now a place → IsBetween text.now a → result ≡ a }
{
    let bytes = text.as_bytes();
    let start = lines
        .starts
        .get(place.line as usize)
        .copied()
        .unwrap_or(bytes.len());
    column_at(bytes, start, place.character, encoding)
}

/// Returns whether a column ends before a byte, with these units left and this many needed: at the end of a line, where too few are left,
/// or where none are and a character begins.
fn ends_before(byte: u8, begins: bool, left: u64, needed: u64) -> bool
    ensures why { result ≡ true → (byte ≡ 10) ⊎ (byte ≡ 13) ⊎ (left < needed) ⊎ ((begins ≡ true) × (left ≡ 0)) }
    ensures enough { result ≡ false → needed ≤ left }
    ensures within { result ≡ false → left ≡ 0 → begins ≡ false }
{
    byte == b'\n' || byte == b'\r' || left < needed || begins && left == 0
}

/// Returns the offset that is a number of units behind another one, on the same line.
fn column_at(bytes: &[u8], start: usize, units: u64, encoding: Encoding) -> usize
    ensures bound { result ≤ length bytes.now }
    ensures behind { (a : ℕ) → IsBehind encoding bytes.now start units a → result ≡ a }
{
    let mut left = units;
    let mut begin = start.min(bytes.len());
    for index in start..bytes.len() {
        let byte = bytes[index];
        let begins = begins_character(byte);
        begin = if begins { index } else { begin };
        let needed = units_of(byte, encoding);
        if ends_before(byte, begins, left, needed) {
            return begin;
        }
        left -= needed;
    }
    bytes.len()
}
