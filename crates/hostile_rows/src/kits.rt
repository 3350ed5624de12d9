//! Kits of hostile texts.

use cfg_base::span::Spanned;
use cfg_read::yacc::{YaccGrammarError, YaccKind, YaccOriginalActionKind};
use parser_kit::{KitError, ParserKit};
use std::alloc::{AllocError, Global};

// No chain of reductions on one token goes past this.
const CAP: u16 = 1000;

const KINDS: [YaccKind; 5] = [
    YaccKind::Original(YaccOriginalActionKind::UserAction),
    YaccKind::Original(YaccOriginalActionKind::GenericParseTree),
    YaccKind::Original(YaccOriginalActionKind::NoAction),
    YaccKind::Grmtools,
    YaccKind::Eco,
];

/// Whether an error has spans, and each lies in the text, on starts of characters.
fn lies_in(text: &str, error: &YaccGrammarError) -> bool {
    for span in error.spans() {
        if !text.is_char_boundary(span.start()) || !text.is_char_boundary(span.end()) {
            return false;
        }
    }
    !error.spans().is_empty()
}

/// Whether there are errors, and each lies in the text.
fn lie_in(text: &str, errors: &[YaccGrammarError]) -> bool {
    for error in errors {
        if !lies_in(text, error) {
            return false;
        }
    }
    !errors.is_empty()
}

/// Whether the bytes are a text, there are errors, and each lies in it.
pub fn lie_in_bytes(bytes: &[u8], errors: &[YaccGrammarError]) -> bool {
    match str::from_utf8(bytes) {
        Ok(text) => lie_in(text, errors),
        Err(_) => false,
    }
}

/// Whether the text, as one of this kind, has a kit, or a refusal whose offsets lie in it.
fn is_answered(alloc: Global, text: &str, kind: YaccKind) -> Result<bool, AllocError> {
    match ParserKit::<u32>::new(alloc, text, kind, CAP) {
        Ok(kit) => {
            drop(kit);
            Ok(true)
        }
        Err(KitError::Memory(e)) => Err(e),
        Err(KitError::Grammar(errors)) => Ok(lie_in(text, errors.as_slice())),
        Err(_) => Ok(true),
    }
}

/// The same of a text of each kind. What is no text isn't asked.
pub fn are_answered(alloc: Global, text: &[u8]) -> Result<bool, AllocError> {
    let Ok(text) = str::from_utf8(text) else {
        return Ok(true);
    };
    for kind in KINDS {
        if !is_answered(alloc, text, kind)? {
            return Ok(false);
        }
    }
    Ok(true)
}
