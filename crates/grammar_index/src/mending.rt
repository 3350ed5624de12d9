//! What can be read of a text that doesn't read.

ghost use Rattle.std.specs.Prelude.{◌≡◌, IfOk, IsSomeAnd};
ghost use Rattle.cfg_read.specs.SyntaxTexts.{SyntaxText};
ghost use Rattle.cfg_read.specs.SyntaxModels.{syntax_of};
ghost use Rattle.cfg_read.specs.Reading.{Reads};

use cfg_base::text::is_white;
use cfg_read::yacc::YaccKind;
use cfg_read::yacc::parser::error::ReadError;
use cfg_read::yacc::parser::syntax::Syntax;
use cfg_read::yacc::parser::{laws, read_syntax};
use std::alloc::{AllocError, Global};

/// How many faults of a text are passed over.
const MOST_FAULTS: usize = 16;

/// Returns the bytes before an offset.
fn ahead(text: &str, offset: usize) -> &[u8] {
    text.as_bytes().get(..offset).unwrap_or(text.as_bytes())
}

/// Returns the offset behind the last such byte before an offset; 0 where there is none.
fn behind_last(text: &str, offset: usize, wanted: u8) -> usize {
    match ahead(text, offset).iter().rposition(|byte| *byte == wanted) {
        Some(at) => at.saturating_add(1),
        None => 0,
    }
}

/// Returns the offset of the first such byte from an offset on; the end where there is none.
fn first_from(text: &str, offset: usize, wanted: u8) -> usize {
    let rest = text.as_bytes().get(offset..).unwrap_or(&[]);
    match rest.iter().position(|byte| *byte == wanted) {
        Some(at) => offset.saturating_add(at),
        None => text.len(),
    }
}

/// Returns the offset behind the first `%%`, if there is one.
fn rules_start(text: &str) -> Option<usize> {
    match text.find("%%") {
        Some(at) => Some(at.saturating_add(2)),
        None => None,
    }
}

/// Returns the part of a text with a fault: from behind the last `;` up to behind the next one, before the rules the line.
fn faulty_part(text: &str, start: usize, fault: usize) -> (usize, usize) {
    match rules_start(text) {
        Some(rules) if rules <= fault => {
            let from = behind_last(text, fault, b';').max(rules);
            (from, first_from(text, fault, b';').saturating_add(1))
        }
        _ => {
            let from = behind_last(text, fault, b'\n').max(start);
            (from, first_from(text, fault, b'\n'))
        }
    }
}

/// Returns the offset of the white byte before the name that a `:` follows, if the `:` is at this offset.
fn gap_before_head(text: &str, fault: usize) -> Option<usize> {
    if text.as_bytes().get(fault) != Some(&b':') {
        return None;
    }
    let upto = ahead(text, fault).trim_ascii_end();
    let name = upto.iter().rposition(|byte| is_white(*byte))?;
    if name.saturating_add(1) == upto.len() {
        return None;
    }
    Some(name)
}

/// Returns a text with each byte of a part replaced, and the text itself where an end of the part is within a character.
fn with_filled(
    alloc: Global,
    text: String,
    part: (usize, usize),
    filler: char,
) -> Result<String, AllocError> {
    let whole = text.as_str();
    let (from, past) = (part.0, part.1.min(whole.len()));
    let (Some(first), Some(last)) = (whole.get(..from), whole.get(past..)) else {
        return Ok(text);
    };
    let mut changed = String::from_str(alloc, first)?;
    'bytes: for _ in from..past {
        changed.push(filler)?;
    }
    changed.push_str(last)?;
    Ok(changed)
}

/// Returns a text with a fault mend: with a `;` at its end or before a heading, or without the rule or line that has it.
fn mend(alloc: Global, text: String, start: usize, fault: usize) -> Result<String, AllocError> {
    if fault >= text.len() && !text.as_str().ends_with(';') {
        let mut text = text;
        text.push(';')?;
        return Ok(text);
    }
    if let Some(gap) = gap_before_head(text.as_str(), fault) {
        return with_filled(alloc, text, (gap, gap.saturating_add(1)), ';');
    }
    let part = faulty_part(text.as_str(), start, fault);
    with_filled(alloc, text, part, ' ')
}

/// Returns what a text with faults says beside them, if it reads once the first of them are mend.
fn read_around(
    alloc: Global,
    kind: YaccKind,
    text: &str,
    start: usize,
    fault: usize,
) -> Result<Option<Syntax>, AllocError> {
    let mut copy = String::from_str(alloc, text)?;
    let mut fault = fault;
    'faults: for _ in 0..MOST_FAULTS {
        copy = mend(alloc, copy, start, fault)?;
        match read_syntax(alloc, kind, copy.as_str(), start) {
            Ok(syntax) => return Ok(Some(syntax)),
            Err(ReadError::Memory(e)) => return Err(e),
            Err(ReadError::Fault(_, next)) => fault = next,
        }
    }
    Ok(None)
}

/// Returns what a text of a kind says from an offset on, where it doesn't read beside its faults, if they are few.
pub(crate) fn read_most(
    alloc: Global,
    kind: YaccKind,
    text: &str,
    start: usize,
) -> Result<Option<Syntax>, AllocError>
    ensures { (x : SyntaxText) → Reads kind text.now start x → IfOk result (λ o. IsSomeAnd o (λ s. syntax_of s ≡ x)) }
{
    laws::one_reading();
    match read_syntax(alloc, kind, text, start) {
        Ok(syntax) => Ok(Some(syntax)),
        Err(ReadError::Memory(e)) => Err(e),
        Err(ReadError::Fault(_, fault)) => read_around(alloc, kind, text, start, fault),
    }
}
