//! What a query is about: a document, and places in it.

ghost use Rattle.std.specs.Prelude.{◌≡◌, ◌<◌, ◌≤◌, ◌^◌, ℕ, length, get_or, IfOk};
ghost use Rattle.grammar_index.specs.declared.occurrence.Occurrence.{Occurrence};
ghost use Rattle.language_server.specs.Positions.{AreLinesOf, IsBetween, IsPlaceOf, IsRangeOf};
ghost use Rattle.language_server.specs.declared.answers.Range.{Range};

use crate::answers::Range;
use crate::places::{Encoding, Lines, Position, offset_at, position_at};
use grammar_index::{GrammarIndex, Occurrence};
use std::alloc::{AllocError, Global};

/// A document that a query is about.
#[derive(Clone, Copy)]
pub struct Asked<'a> {
    /// Its name.
    pub uri: &'a str,
    /// Its text.
    pub text: &'a str,
    /// Where the text names its rules and tokens.
    pub index: &'a GrammarIndex,
    /// Its lines.
    pub lines: &'a Lines,
    /// In what columns count.
    pub encoding: Encoding,
}

impl<'a> Asked<'a> {
    /// Returns the range between two offsets.
    pub fn range(&self, start: usize, end: usize) -> Range
        ensures { length self.now.text.now < 2 ^ 63 → AreLinesOf self.now.text.now self.now.lines.now → IsRangeOf self.now.encoding self.now.text.now start end result }
    {
        Range {
            start: position_at(self.text, self.lines, start, self.encoding),
            end: position_at(self.text, self.lines, end, self.encoding),
        }
    }

    /// Returns the range of a name.
    pub fn range_of(&self, one: Occurrence) -> Range
        ensures { length self.now.text.now < 2 ^ 63 → AreLinesOf self.now.text.now self.now.lines.now → IsRangeOf self.now.encoding self.now.text.now one.start one.end result }
    {
        self.range(one.start, one.end)
    }

    /// Returns the text between two offsets; none where an end is within a character.
    pub fn part(&self, start: usize, end: usize) -> &'a str {
        self.text.get(start..end).unwrap_or("")
    }

    /// Returns the offset of a place.
    pub fn offset(&self, place: Position) -> usize
        ensures { AreLinesOf self.now.text.now self.now.lines.now → (a : ℕ) → a ≤ length self.now.text.now → IsPlaceOf self.now.encoding self.now.text.now a place → IsBetween self.now.text.now a → result ≡ a }
    {
        offset_at(self.text, self.lines, place, self.encoding)
    }

    /// Returns the name at a place, if there is one.
    pub fn name_at(&self, place: Option<Position>) -> Option<Occurrence> {
        let place = place?;
        self.index.at(self.offset(place))
    }

    /// Returns the ranges of names.
    pub fn ranges_of(&self, alloc: Global, names: &[Occurrence]) -> Result<Vec<Range>, AllocError>
        ensures count { IfOk result (λ v. length v.items ≡ length names.now) }
        ensures ranges { length self.now.text.now < 2 ^ 63 → AreLinesOf self.now.text.now self.now.lines.now → IfOk result (λ v. (k : ℕ) (r : Range) (o : Occurrence) → k < length names.now → IsRangeOf self.now.encoding self.now.text.now (get_or names.now k o).start (get_or names.now k o).end (get_or v.items k r)) }
    {
        let mut ranges = Vec::with_capacity(alloc, names.len())?;
        'names: for index in 0..names.len() {
            ranges.push(self.range_of(names[index]))?;
        }
        Ok(ranges)
    }
}
