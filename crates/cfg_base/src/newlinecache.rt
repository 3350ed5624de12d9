//! Lines and columns of a text.

ghost use Rattle.std.specs.Prelude.{◌≡◌, ◌≤◌, ◌<◌, ◌+◌, ◌^◌, ◌++◌, ℕ, List, [], length, IfOk, OnOk, OnErr, true, false, nat_lt, nat_le, nat_eq, if◌then◌else◌, ◌&&◌, ◌-◌, slice_index, vec_len, vec_capacity, count_by, ◌==◌};
ghost use Rattle.std.specs.Borrow.{Bor};
ghost use Rattle.std.specs.Iterator.{Drains, HoldsAlong, IsFinite};
ghost use Rattle.std.specs.Str.{chars};
ghost use Rattle.std.specs.List.Sorted.{IsNonDecreasing, IsPartitionPoint};
ghost use Rattle.cfg_base.specs.Pieces.{PiecesFit, text_of};
ghost use Rattle.cfg_base.specs.Text.{is_line_feed, line_end};
ghost use Rattle.cfg_base.specs.Newlines.{chars_ended, column_of, joined, line_of, line_start, newline_offsets, newlines_of};

use crate::span::Span;
use std::alloc::{AllocError, Global};
use std::marker::Model;

/// The offsets at which the lines of a text begin and end. The text is fed once, whole or in pieces, and isn't
/// stored. Lines and columns count from one; offsets are byte offsets.
#[derive(Drop)]
pub struct NewlineCache {
    newlines: Vec<usize>,
    bytes: usize,
}

impl Model for NewlineCache {
    ghost use Rattle.std.specs.Prelude.{◌≡◌, ℕ, List};
    ghost use Rattle.cfg_base.specs.Newlines.{Newlines, newlines_of};

    ghost Value = { Newlines };

    ghost view = { λ c. record { offsets = c.newlines.items; bytes = c.bytes } };

    ghost invariant = { λ c. (text : List ℕ) × (newlines_of text ≡ record { offsets = c.newlines.items; bytes = c.bytes }) };
}

impl NewlineCache {
    /// Makes the cache of the empty text.
    pub fn new(alloc: Global) -> NewlineCache
        ensures { result ≡ newlines_of [] }
    {
        NewlineCache {
            newlines: Vec::new(alloc),
            bytes: 0,
        }
    }

    /// Makes the cache of a whole text.
    pub fn from_str(alloc: Global, text: &str) -> Result<NewlineCache, AllocError>
        ensures { IfOk result (λ cache. cache ≡ newlines_of text.now) }
    {
        let mut cache = NewlineCache::new(alloc);
        cache.feed(text)?;
        Ok(cache)
    }

    /// Makes the cache of a text in pieces.
    pub fn from_iter<'a, U: IntoIterator<Item = &'a str>>(
        alloc: Global,
        pieces: U,
    ) -> Result<NewlineCache, AllocError>
        requires { (it : U.IntoIter) → U.into_iter_gives pieces it →
            U.IntoIter.can_next it × IsFinite (U.IntoIter.remaining it) × HoldsAlong U.IntoIter.next_gives it PiecesFit }
        ensures { IfOk result (λ cache.
            (it : U.IntoIter) × (texts : List (Bor (List ℕ))) × U.into_iter_gives pieces it ×
            Drains U.IntoIter.next_gives it texts × (cache ≡ newlines_of (text_of texts))) }
    {
        let mut cache = NewlineCache::new(alloc);
        for piece in pieces {
            cache.feed(piece)?;
        }
        Ok(cache)
    }

    /// Takes the next piece of the text. A piece that is refused leaves the cache as it was.
    pub fn feed(&mut self, piece: &str) -> Result<(), AllocError>
        requires { self.old.bytes + length piece.now < 2 ^ 64 }
        ensures ok { OnOk result (self.new ≡ joined self.old (newlines_of piece.now)) }
        ensures err { OnErr result (self.new ≡ self.old) }
    {
        let count = count_newlines(piece.as_bytes());
        self.newlines.reserve(count)?;
        let bytes = self.bytes;
        push_newlines(&mut self.newlines, bytes, piece.as_bytes());
        self.bytes = bytes + piece.len();
        Ok(())
    }

    /// Returns the line of a byte; `None` past the end of the text.
    pub fn byte_to_line_num(&self, byte: usize) -> Option<usize>
        ensures { (text : List ℕ) → self.now ≡ newlines_of text →
            result ≡ (if nat_le byte (length text) then Some (line_of text byte) else None) }
    {
        if byte > self.bytes {
            return None;
        }
        Some(count_before(&self.newlines, byte) + 1)
    }

    /// Returns the offset of the first byte of the line of a byte; `None` past the end of the text.
    pub fn byte_to_line_byte(&self, byte: usize) -> Option<usize>
        ensures { (text : List ℕ) → self.now ≡ newlines_of text →
            result ≡ (if nat_le byte (length text) then Some (line_start text byte) else None) }
    {
        if byte > self.bytes {
            return None;
        }
        Some(start_after(&self.newlines, count_before(&self.newlines, byte)))
    }

    /// Returns the line and the column of a byte of `src`, the text that was fed; `None` past its end, or where
    /// `src` hasn't the fed length. A column counts characters.
    pub fn byte_to_line_num_and_col_num(&self, src: &str, byte: usize) -> Option<(usize, usize)>
        ensures { (text : List ℕ) → self.now ≡ newlines_of text →
            result ≡ (
            if nat_le byte (length text) && length src.now == length text
            then Some (line_of text byte, column_of text src.now byte)
            else None
            ) }
    {
        if byte > self.bytes || src.len() != self.bytes {
            return None;
        }
        let count = count_before(&self.newlines, byte);
        let start = start_after(&self.newlines, count);
        Some((count + 1, chars_between(src, start, byte) + 1))
    }

    /// Returns the byte offsets of the lines that a span touches: that of the first byte of its first line, and
    /// that of the newline, or of the text's end, behind its last line.
    pub fn span_line_bytes(&self, span: Span) -> (usize, usize)
        requires { span.end ≤ self.now.bytes }
        ensures start { (text : List ℕ) → self.now ≡ newlines_of text → result.0 ≡ line_start text span.start }
        ensures end { (text : List ℕ) → self.now ≡ newlines_of text → result.1 ≡ line_end text span.end }
    {
        let before_start = count_before(&self.newlines, span.start());
        let before_end = count_before(&self.newlines, span.end());
        let end = end_after(&self.newlines, before_end, self.bytes);
        (start_after(&self.newlines, before_start), end)
    }
}

impl<'a> FromIterator<&'a str> for NewlineCache {
    type Alloc = Global;

    ghost can_from_iter = { PiecesFit };

    ghost from_iter_gives = { λ texts cache. cache ≡ newlines_of (text_of texts) };

    fn from_iter<U: IntoIterator<Item = &'a str>>(
        alloc: Global,
        pieces: U,
    ) -> Result<NewlineCache, AllocError> {
        NewlineCache::from_iter(alloc, pieces)
    }
}

/// Proves that a text in two pieces, one fed after the other, leaves what the whole text does. So feeding a text in
/// any pieces equals feeding it whole.
pub fn pieces_make_the_whole()
    ensures { (a b : List ℕ) → joined (newlines_of a) (newlines_of b) ≡ newlines_of (a ++ b) }
{}

// Counts the LFs.
fn count_newlines(bytes: &[u8]) -> usize
    ensures { result ≡ count_by is_line_feed bytes.now }
{
    bytes.iter().filter(|byte| **byte == b'\n').count()
}

// Adds the offsets of the LFs of `bytes`, which begin at offset `from`.
fn push_newlines(newlines: &mut Vec<usize>, from: usize, bytes: &[u8])
    requires fits { from + length bytes.now < 2 ^ 64 }
    requires room { vec_len newlines.old + count_by is_line_feed bytes.now ≤ vec_capacity newlines.old }
    ensures { newlines.new.items ≡ newlines.old.items ++ newline_offsets from bytes.now }
{
    for (offset, byte) in bytes.iter().enumerate() {
        if *byte == b'\n' {
            newlines.push(from + offset).unwrap();
        }
    }
}

// Counts the offsets that come before `byte`, by halving.
fn count_before(offsets: &[usize], byte: usize) -> usize
    requires { IsNonDecreasing offsets.now }
    ensures bound { result ≤ length offsets.now }
    ensures point { IsPartitionPoint (λ p. nat_lt p byte ≡ true) (λ p. nat_lt p byte ≡ false) offsets.now result }
{
    offsets.partition_point(|offset| *offset < byte)
}

// Returns the offset of the first byte of the line that `count` newlines come before.
fn start_after(offsets: &[usize], count: usize) -> usize
    requires bound { count ≤ length offsets.now }
    requires fit { (k : ℕ) → k < count → slice_index offsets.now k < 2 ^ 64 - 1 }
    ensures { result ≡ (if nat_eq count 0 then 0 else slice_index offsets.now (count - 1) + 1) }
{
    if count == 0 {
        0
    } else {
        offsets[count - 1] + 1
    }
}

// Returns the end of the line that `count` newlines come before, in a text of `bytes` bytes.
fn end_after(offsets: &[usize], count: usize, bytes: usize) -> usize
    ensures { result ≡ (if nat_lt count (length offsets.now) then slice_index offsets.now count else bytes) }
{
    if count < offsets.len() {
        offsets[count]
    } else {
        bytes
    }
}

/// Counts the characters that end after byte `from` and at or before byte `to`.
pub(crate) fn chars_between(src: &str, from: usize, to: usize) -> usize
    requires order { from ≤ to }
    requires inside { to ≤ length src.now }
    ensures value { result ≡ chars_ended src.now to - chars_ended src.now from }
    ensures small { result ≤ length src.now }
{
    let first = src.floor_char_boundary(from);
    let last = src.floor_char_boundary(to);
    char_count(&src[first..last])
}

// Counts the characters of a text.
fn char_count(text: &str) -> usize
    ensures value { result ≡ length (chars text.now) }
    ensures small { result ≤ length text.now }
{
    text.chars().count()
}
