//! The texts of errors.

ghost use Rattle.std.specs.Prelude.{◌≡◌, ◌≤◌, ◌+◌, ◌-◌, ◌++◌, ℕ, List, suc, length, map, replicate, reverse, codes, IfOk, OnOk};
ghost use Rattle.std.specs.List.{flat_map, AllByRecursion};
ghost use Rattle.std.specs.Fmt.{decimal};
ghost use Rattle.std.specs.String.{string_bytes};
ghost use Rattle.parse_trees.specs.Shown.{shown_of, shown_lists};
ghost use Rattle.parse_trees.specs.ErrorTexts.{seen_as, join, before_shown, shown_parts, Touches, escaped, comma_joined, number_front, sequence_lines, repairs_text, part_text, sequence_text, lexing_error_text, parsing_error_text, AnswersNames, ShownFits, EditFits};

use crate::lex_api::{Lexeme, LexerTypes, NonStreamingLexer};
use crate::parse_repair::ParseRepair;
use cfg_base::index::IndexStorage;
use cfg_base::span::Span;
use cfg_base::symbol::TIdx;
use std::alloc::{AllocError, Global};

/// A part of what is shown of a sequence: a token that is put in, and parts of the input, by their offsets.
#[derive(Clone, Copy)]
enum Piece<S> {
    Insert(TIdx<S>),
    Delete(usize, usize),
    Shift(usize, usize),
}

/// Returns the end of the last part, where that is a deletion that starts at an offset.
fn deletion_end<S: IndexStorage>(pieces: &[Piece<S>], end: usize) -> Option<usize>
    ensures { Touches end (reverse (map (seen_as S.number) pieces.now)) result }
{
    let Some(last) = pieces.last() else {
        return None;
    };
    let Piece::Delete(from, to) = last else {
        return None;
    };
    if *from != end {
        return None;
    }
    Some(*to)
}

/// Puts a deletion in front of parts, whose first is the last of the list.
fn push_deletion<S: IndexStorage>(
    pieces: &mut Vec<Piece<S>>,
    start: usize,
    end: usize,
) -> Result<(), AllocError>
    ensures { OnOk result (reverse (map (seen_as S.number) pieces.new.items) ≡ join start end (reverse (map (seen_as S.number) pieces.old.items))) }
{
    let Some(to) = deletion_end(pieces.as_slice(), end) else {
        pieces.push(Piece::Delete(start, end))?;
        return Ok(());
    };
    pieces.pop();
    pieces.push(Piece::Delete(start, to))?;
    Ok(())
}

/// Puts a step in front of parts.
fn push_piece<S: IndexStorage, L: Lexeme<S>>(
    pieces: &mut Vec<Piece<S>>,
    repair: &ParseRepair<L, S>,
) -> Result<(), AllocError>
    ensures { OnOk result (reverse (map (seen_as S.number) pieces.new.items) ≡ before_shown L.lex (shown_of S.number repair.now) (reverse (map (seen_as S.number) pieces.old.items))) }
{
    match repair {
        ParseRepair::Insert(tidx) => {
            pieces.push(Piece::Insert(TIdx(tidx.0)))?;
            Ok(())
        }
        ParseRepair::Delete(lexeme) => {
            let span = lexeme.span();
            push_deletion(pieces, span.start(), span.end())?;
            Ok(())
        }
        ParseRepair::Shift(lexeme) => {
            let span = lexeme.span();
            pieces.push(Piece::Shift(span.start(), span.end()))?;
            Ok(())
        }
    }
}

/// Returns the parts of a sequence, the first one last.
fn pieces_of<S: IndexStorage, L: Lexeme<S>>(
    alloc: Global,
    repairs: &[ParseRepair<L, S>],
) -> Result<Vec<Piece<S>>, AllocError>
    ensures { IfOk result (λ pieces. reverse (map (seen_as S.number) pieces.items) ≡ shown_parts L.lex (map (shown_of S.number) repairs.now)) }
{
    let count = repairs.len();
    let mut pieces = Vec::new(alloc);
    'repairs: for done in 0..count {
        push_piece(&mut pieces, &repairs[count - 1 - done])?;
    }
    Ok(pieces)
}

/// Puts a text, with each LF as `\n`.
fn push_escaped(text: &mut String, part: &str) -> Result<(), AllocError>
    ensures { OnOk result (string_bytes text.new ≡ string_bytes text.old ++ escaped part.now) }
{
    let mut rest = part;
    'lines: while let Some((line, after)) = rest.split_once('\n') {
        text.push_str(line)?;
        text.push_str("\\n")?;
        rest = after;
    }
    text.push_str(rest)?;
    Ok(())
}

/// Puts a text behind a comma and a space.
fn push_behind_comma(text: &mut String, part: &str) -> Result<(), AllocError>
    ensures { OnOk result (string_bytes text.new ≡ string_bytes text.old ++ (codes ", " ++ part.now)) }
{
    text.push_str(", ")?;
    text.push_str(part)?;
    Ok(())
}

/// Puts texts, each behind a comma and a space.
fn push_further(text: &mut String, parts: &[String]) -> Result<(), AllocError>
    ensures { OnOk result (string_bytes text.new ≡ string_bytes text.old ++ flat_map (λ u. codes ", " ++ u) (map string_bytes parts.now)) }
{
    'parts: for i in 0..parts.len() {
        push_behind_comma(text, parts[i].as_str())?;
    }
    Ok(())
}

/// Texts with a comma and a space between them.
fn comma_list(alloc: Global, parts: &[String]) -> Result<String, AllocError>
    ensures { IfOk result (λ text. string_bytes text ≡ comma_joined (map string_bytes parts.now)) }
{
    let mut text = String::new(alloc);
    match parts.split_first() {
        Some((first, rest)) => {
            text.push_str(first.as_str())?;
            push_further(&mut text, rest)?;
            Ok(text)
        }
        None => Ok(text),
    }
}

/// Returns the spaces that fill a number up to the digits of another.
fn filling_of(alloc: Global, count: usize, number: &str) -> Result<String, AllocError>
    ensures { IfOk result (λ spaces. string_bytes spaces ≡ replicate (length (decimal count) - length number.now) 32) }
{
    let widest = format!(in alloc; "{count}")?;
    let missing = widest.as_str().len().saturating_sub(number.len());
    let spaces = " ".repeat(alloc, missing)?;
    Ok(spaces)
}

/// Returns the line in front of a sequence, which has its number.
fn front_of(alloc: Global, count: usize, number: usize) -> Result<String, AllocError>
    ensures { IfOk result (λ front. string_bytes front ≡ number_front count number) }
{
    let shown = format!(in alloc; "{number}")?;
    let spaces = filling_of(alloc, count, shown.as_str())?;
    let mut front = String::new(alloc);
    front.push_str("\n   ")?;
    front.push_str(spaces.as_str())?;
    front.push_str(shown.as_str())?;
    front.push_str(": ")?;
    Ok(front)
}

/// Puts a sequence behind its number.
fn push_sequence(
    alloc: Global,
    text: &mut String,
    count: usize,
    number: usize,
    sequence: &str,
) -> Result<(), AllocError>
    ensures { OnOk result (string_bytes text.new ≡ string_bytes text.old ++ (number_front count number ++ sequence.now)) }
{
    let front = front_of(alloc, count, number)?;
    text.push_str(front.as_str())?;
    text.push_str(sequence)?;
    Ok(())
}

/// Puts sequences, each behind its number.
fn push_sequences(alloc: Global, text: &mut String, sequences: &[String]) -> Result<(), AllocError>
    ensures { OnOk result (string_bytes text.new ≡ string_bytes text.old ++ sequence_lines (length sequences.now) 1 (map string_bytes sequences.now)) }
{
    let count = sequences.len();
    'sequences: for i in 0..count {
        push_sequence(alloc, text, count, i + 1, sequences[i].as_str())?;
    }
    Ok(())
}

/// Puts the sequences that can be taken, or that there are none.
fn push_repairs(alloc: Global, text: &mut String, sequences: &[String]) -> Result<(), AllocError>
    ensures { OnOk result (string_bytes text.new ≡ string_bytes text.old ++ repairs_text (map string_bytes sequences.now)) }
{
    if sequences.len() == 0 {
        text.push_str(" No repair sequences found.")?;
        return Ok(());
    }
    text.push_str(" Repair sequences found:")?;
    push_sequences(alloc, text, sequences)?;
    Ok(())
}

/// Puts the text of a token, or its number where there is no text.
fn push_name<'a, S: IndexStorage, F: Fn(TIdx<S>) -> Option<&'a str>>(
    alloc: Global,
    text: &mut String,
    epp: &F,
    tidx: TIdx<S>,
) -> Result<(), AllocError>
    requires { F.IsAlwaysCallable epp.now }
    ensures { OnOk result ((names : ℕ → List ℕ) → AnswersNames S.number (F.post epp.now) names → string_bytes text.new ≡ string_bytes text.old ++ names (S.number tidx.0)) }
{
    match epp(tidx) {
        Some(name) => {
            text.push_str(name)?;
            Ok(())
        }
        None => {
            let number = tidx.0.to_usize();
            let shown = format!(in alloc; "token {number}")?;
            text.push_str(shown.as_str())?;
            Ok(())
        }
    }
}

/// Returns the text of a part of a sequence.
fn part_of<
    'input,
    T: LexerTypes,
    X: NonStreamingLexer<'input, T>,
    F: Fn(TIdx<T::StorageT>) -> Option<&'input str>,
>(alloc: Global, lexer: &X, epp: &F, piece: &Piece<T::StorageT>) -> Result<String, AllocError>
    requires names { F.IsAlwaysCallable epp.now }
    requires fits { ShownFits (X.text lexer.now) (seen_as T.StorageT.number piece.now) }
    ensures { IfOk result (λ text. (names : ℕ → List ℕ) → AnswersNames T.StorageT.number (F.post epp.now) names → string_bytes text ≡ part_text names (X.text lexer.now) (seen_as T.StorageT.number piece.now)) }
{
    let mut text = String::new(alloc);
    match piece {
        Piece::Insert(tidx) => {
            text.push_str("Insert ")?;
            push_name(alloc, &mut text, epp, TIdx(tidx.0))?;
            Ok(text)
        }
        Piece::Delete(start, end) => {
            text.push_str("Delete ")?;
            push_escaped(&mut text, lexer.span_str(Span::new(*start, *end)))?;
            Ok(text)
        }
        Piece::Shift(start, end) => {
            text.push_str("Shift ")?;
            push_escaped(&mut text, lexer.span_str(Span::new(*start, *end)))?;
            Ok(text)
        }
    }
}

/// Returns the text of the parts of a sequence.
fn parts_of<
    'input,
    T: LexerTypes,
    X: NonStreamingLexer<'input, T>,
    F: Fn(TIdx<T::StorageT>) -> Option<&'input str>,
>(
    alloc: Global,
    lexer: &X,
    epp: &F,
    pieces: &[Piece<T::StorageT>],
) -> Result<Vec<String>, AllocError>
    requires names { F.IsAlwaysCallable epp.now }
    requires fits { AllByRecursion (ShownFits (X.text lexer.now)) (map (seen_as T.StorageT.number) pieces.now) }
    ensures { IfOk result (λ parts. (names : ℕ → List ℕ) → AnswersNames T.StorageT.number (F.post epp.now) names → map string_bytes parts.items ≡ map (part_text names (X.text lexer.now)) (map (seen_as T.StorageT.number) pieces.now)) }
{
    let mut parts = Vec::new(alloc);
    'pieces: for i in 0..pieces.len() {
        let part = part_of(alloc, lexer, epp, &pieces[i])?;
        parts.push(part)?;
    }
    Ok(parts)
}

/// Returns the text of a sequence.
fn sequence_of<
    'input,
    T: LexerTypes,
    X: NonStreamingLexer<'input, T>,
    F: Fn(TIdx<T::StorageT>) -> Option<&'input str>,
>(
    alloc: Global,
    lexer: &X,
    epp: &F,
    repairs: &[ParseRepair<T::LexemeT, T::StorageT>],
) -> Result<String, AllocError>
    requires names { F.IsAlwaysCallable epp.now }
    requires fits { AllByRecursion (EditFits (X.text lexer.now) T.LexemeT.lex) (map (shown_of T.StorageT.number) repairs.now) }
    ensures { IfOk result (λ text. (names : ℕ → List ℕ) → AnswersNames T.StorageT.number (F.post epp.now) names → string_bytes text ≡ sequence_text names (X.text lexer.now) T.LexemeT.lex (map (shown_of T.StorageT.number) repairs.now)) }
{
    let mut pieces = pieces_of(alloc, repairs)?;
    pieces.reverse();
    let parts = parts_of(alloc, lexer, epp, pieces.as_slice())?;
    let text = comma_list(alloc, parts.as_slice())?;
    Ok(text)
}

/// Returns the text of sequences.
fn sequences_of<
    'input,
    T: LexerTypes,
    X: NonStreamingLexer<'input, T>,
    F: Fn(TIdx<T::StorageT>) -> Option<&'input str>,
>(
    alloc: Global,
    lexer: &X,
    epp: &F,
    repairs: &[Vec<ParseRepair<T::LexemeT, T::StorageT>>],
) -> Result<Vec<String>, AllocError>
    requires names { F.IsAlwaysCallable epp.now }
    requires fits { AllByRecursion (AllByRecursion (EditFits (X.text lexer.now) T.LexemeT.lex)) (shown_lists T.StorageT.number repairs.now) }
    ensures { IfOk result (λ sequences. (names : ℕ → List ℕ) → AnswersNames T.StorageT.number (F.post epp.now) names → map string_bytes sequences.items ≡ map (sequence_text names (X.text lexer.now) T.LexemeT.lex) (shown_lists T.StorageT.number repairs.now)) }
{
    let mut sequences = Vec::new(alloc);
    'repairs: for i in 0..repairs.len() {
        let sequence = sequence_of(alloc, lexer, epp, repairs[i].as_slice())?;
        sequences.push(sequence)?;
    }
    Ok(sequences)
}

/// Returns the text of an error of parsing at a lexeme, where these sequences of repairs can be taken.
pub fn parsing_text<
    'input,
    T: LexerTypes,
    X: NonStreamingLexer<'input, T>,
    F: Fn(TIdx<T::StorageT>) -> Option<&'input str>,
>(
    alloc: Global,
    lexer: &X,
    epp: &F,
    lexeme: T::LexemeT,
    repairs: &[Vec<ParseRepair<T::LexemeT, T::StorageT>>],
) -> Result<String, AllocError>
    requires names { F.IsAlwaysCallable epp.now }
    requires within { (T.LexemeT.lex lexeme).places.end ≤ length (X.text lexer.now) }
    requires fits { AllByRecursion (AllByRecursion (EditFits (X.text lexer.now) T.LexemeT.lex)) (shown_lists T.StorageT.number repairs.now) }
    ensures { IfOk result (λ text. (names : ℕ → List ℕ) → AnswersNames T.StorageT.number (F.post epp.now) names → string_bytes text ≡ parsing_error_text names (X.text lexer.now) T.LexemeT.lex lexeme (shown_lists T.StorageT.number repairs.now)) }
{
    let ((line, column), _) = lexer.line_col(lexeme.span());
    let mut text = format!(in alloc; "Parsing error at line {line} column {column}.")?;
    let sequences = sequences_of(alloc, lexer, epp, repairs)?;
    push_repairs(alloc, &mut text, sequences.as_slice())?;
    Ok(text)
}

/// Returns the text of an error of lexing.
pub fn lexing_text<'input, T: LexerTypes, X: NonStreamingLexer<'input, T>>(
    alloc: Global,
    lexer: &X,
    span: Span,
) -> Result<String, AllocError>
    requires { span.end ≤ length (X.text lexer.now) }
    ensures { IfOk result (λ text. string_bytes text ≡ lexing_error_text (X.text lexer.now) span) }
{
    let ((line, column), _) = lexer.line_col(span);
    let text = format!(in alloc; "Lexing error at line {line} column {column}.")?;
    Ok(text)
}
