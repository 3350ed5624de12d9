//! Hints for errors.

ghost use Rattle.std.specs.Prelude.{◌≡◌, None, IfOk, IfSome};
ghost use Rattle.grammar_hints.specs.Within.{IsWithin};

use crate::names::{precedence_words, unknown_words};
use crate::reading::reading_hint;
use cfg_base::span::Span;
use cfg_read::yacc::ast::GrammarAST;
use cfg_read::yacc::{YaccGrammarError, YaccGrammarErrorKind};
use std::alloc::{AllocError, Global};

/// What may help with an error or a declaration.
#[derive(Debug, Drop)]
pub struct Hint {
    /// What is said, without an end of a line.
    pub words: String,
    /// Where it is to be seen, if elsewhere than the error.
    pub span: Option<Span>,
}

/// Makes a hint that is seen where the error is.
fn hint_there(words: String) -> Hint
    ensures { result.span ≡ None }
{
    let span = None;
    Hint { words, span }
}

/// Returns a hint for an error of a text, of which this tree was read, if there is one.
pub fn hint_of(
    alloc: Global,
    text: &str,
    ast: &GrammarAST,
    error: &YaccGrammarError,
) -> Result<Option<Hint>, AllocError>
    ensures within { IfOk result (λ o. IfSome o (λ h. IsWithin text.now h.span)) }
{
    match &error.kind {
        YaccGrammarErrorKind::UnknownRuleRef(name) => {
            let words = unknown_words(alloc, name.as_str(), ast)?;
            Ok(Some(hint_there(words)))
        }
        YaccGrammarErrorKind::NoPrecForToken(name) => {
            let words = precedence_words(alloc, name.as_str(), ast)?;
            Ok(Some(hint_there(words)))
        }
        kind => match error.spans.as_slice().first() {
            Some(span) => reading_hint(alloc, text, kind, span.start()),
            None => Ok(None),
        },
    }
}
