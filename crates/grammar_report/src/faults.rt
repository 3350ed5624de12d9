//! Errors and warnings of a text.

ghost use Rattle.std.specs.Prelude.{◌≡◌, IfOk, OnOk, drop, map, min, slice_get, string_bytes, take, ⊤};
ghost use Rattle.cfg_read.specs.WarningModels.{warning_of};
ghost use Rattle.text_messages.specs.Added.{AddsOne, AddsSaid, AddsSome, AddsWarnings, OneForEach};
ghost use Rattle.grammar_report.specs.Messages.{AreFirstWarnings, AreOfError, AreOfErrors, AreOfFirstUnused, AreOfRefusal, AreOfUnused, AreOfWarnings, ExplainRefusal, IsNamed, NamesPart, SaysUnused, again_at, at_places, places_len};

use crate::accept_reduce::{kept_of, push_ending};
use crate::long_chains::push_long_chain;
use cfg_base::span::Span;
use cfg_read::yacc::ast::GrammarAST;
use cfg_read::yacc::ast::warnings::YaccGrammarWarning;
use cfg_read::yacc::{ASTWithValidityInfo, YaccGrammarError};
use grammar_hints::{Hint, hint_of, token_warnings};
use parser_kit::KitError;
use refused_tables::Beginning;
use std::alloc::{AllocError, Global};
use text_messages::{Message, Messages, Severity, part};

/// Each unknown name is compared with all others, up to this number of names.
const MOST_COMPARED: usize = 100_000;

/// Adds a note at each further place of an error.
fn push_again(alloc: Global, messages: &mut Messages<'_>, spans: &[Span]) -> Result<(), AllocError>
    ensures { OnOk result (AddsSaid (map (again_at messages.old.text) spans.now) messages.old messages.new) }
{
    'spans: for span in spans {
        let words = String::from_str(alloc, "and here again")?;
        messages.push(Message::new(Severity::Note, Some(*span), words))?;
    }
    Ok(())
}

/// Returns the first of the places of an error, and those behind it.
fn places_of(spans: &[Span]) -> (Option<Span>, &[Span])
    ensures first { result.0 ≡ slice_get spans.now 0 }
    ensures further { result.1.now ≡ drop 1 spans.now }
{
    let first = spans.first().copied();
    match spans.get(1..) {
        Some(further) => (first, further),
        None => (first, &[]),
    }
}

/// Adds an error with help at the first of its places, and a note at each other one.
fn push_at_places(
    alloc: Global,
    messages: &mut Messages<'_>,
    error: &YaccGrammarError,
    help: Option<String>,
) -> Result<(), AllocError>
    ensures { OnOk result (AddsSaid (at_places messages.old.text error.now) messages.old messages.new) }
{
    let words = error.to_string(alloc)?;
    let (first, further) = places_of(error.spans.as_slice());
    let mut message = Message::new(Severity::Error, first, words);
    message.help = help;
    messages.push(message)?;
    push_again(alloc, messages, further)
}

/// Adds an error at the first of its places, a note at each other one, and what may help: in the error, or as a note elsewhere.
fn push_error(
    alloc: Global,
    messages: &mut Messages<'_>,
    ast: &GrammarAST,
    error: &YaccGrammarError,
) -> Result<(), AllocError>
    ensures { OnOk result (AddsSome (AreOfError messages.old.text error.now) messages.old messages.new) }
{
    match hint_of(alloc, messages.text(), ast, error)? {
        Some(Hint { words, span: None }) => push_at_places(alloc, messages, error, Some(words)),
        Some(Hint { words, span }) => {
            push_at_places(alloc, messages, error, None)?;
            messages.push(Message::new(Severity::Note, span, words))
        }
        None => push_at_places(alloc, messages, error, None),
    }
}

/// Adds an error as `push_error` does, or without what may help.
fn push_hinted(
    alloc: Global,
    messages: &mut Messages<'_>,
    ast: &GrammarAST,
    error: &YaccGrammarError,
    wants_hint: bool,
) -> Result<(), AllocError>
    ensures { OnOk result (AddsSome (AreOfError messages.old.text error.now) messages.old messages.new) }
{
    if wants_hint {
        push_error(alloc, messages, ast, error)
    } else {
        push_at_places(alloc, messages, error, None)
    }
}

/// Adds errors, each with its notes; the first with what may help, until too many names were compared for that.
fn push_errors(
    alloc: Global,
    messages: &mut Messages<'_>,
    ast: &GrammarAST,
    errors: &[YaccGrammarError],
) -> Result<(), AllocError>
    ensures { OnOk result (AddsSome (AreOfErrors messages.old.text errors.now) messages.old messages.new) }
{
    let names = ast.rules().len().saturating_add(ast.tokens().len());
    let mut compared: usize = 0;
    'errors: for error in errors {
        push_hinted(alloc, messages, ast, error, compared < MOST_COMPARED)?;
        compared = compared.saturating_add(names);
    }
    Ok(())
}

/// Returns how many places errors have, and at least one each.
fn places_len(errors: &[YaccGrammarError]) -> usize
    ensures { result ≡ min (places_len errors.now) usize.MAX }
{
    let mut count: usize = 0;
    'errors: for index in 0..errors.len() {
        count = count.saturating_add(errors[index].spans.len().max(1));
    }
    count
}

/// Adds the first errors, as many as `most`, each with its notes, and returns how many places the others have.
pub(crate) fn push_first_errors(
    alloc: Global,
    messages: &mut Messages<'_>,
    ast: &GrammarAST,
    errors: &[YaccGrammarError],
    most: usize,
) -> Result<usize, AllocError>
    ensures added { OnOk result (AddsSome (AreOfErrors messages.old.text (take most errors.now)) messages.old messages.new) }
    ensures left { IfOk result (λ n. n ≡ min (places_len (drop most errors.now)) usize.MAX) }
{
    let (first, others) = errors.split_at(most.min(errors.len()));
    push_errors(alloc, messages, ast, first)?;
    Ok(places_len(others))
}

/// Adds why a text gives no parser, by what is kept of it.
fn push_refusal_of(
    alloc: Global,
    messages: &mut Messages<'_>,
    kept: &ASTWithValidityInfo,
    refusal: &KitError<u32>,
) -> Result<(), AllocError>
    ensures { OnOk result (AddsSome (AreOfRefusal messages.old.text kept.now.ast refusal.now) messages.old messages.new) }
{
    match refusal {
        KitError::Grammar(errors) => push_errors(alloc, messages, kept.ast(), errors.as_slice()),
        KitError::AcceptReduce(pidx) => push_ending(alloc, messages, kept, *pidx),
        KitError::TooManyReductions {
            state,
            rule,
            token,
            cap,
        } => {
            let beginning = Beginning {
                state: *state,
                rule: *rule,
                token: *token,
            };
            push_long_chain(alloc, messages, kept, *cap, beginning)
        }
        other => {
            let words = other.to_string(alloc)?;
            messages.push(Message::new(Severity::Error, None, words))
        }
    }
}

/// Adds why a text gives no parser: errors, and notes on the error before them. The text is that of the messages.
pub fn push_refusal(
    alloc: Global,
    messages: &mut Messages<'_>,
    refusal: &KitError<u32>,
) -> Result<(), AllocError>
    ensures { OnOk result (AddsSome (ExplainRefusal messages.old.text refusal.now) messages.old messages.new) }
{
    let kept = kept_of(alloc, messages.text())?;
    let pushed = push_refusal_of(alloc, messages, &kept, refusal);
    drop(kept);
    pushed
}

/// Returns words about the name that a text has at a place.
fn named_words(alloc: Global, text: &str, span: Span, what: &str) -> Result<String, AllocError>
    ensures { IfOk result (λ words. NamesPart text.now span what.now (string_bytes words)) }
{
    let name = part(text, span.start(), span.end());
    let words = format!(in alloc; "{what} '{name}'")?;
    Ok(words)
}

/// Adds a message about the name at a place.
pub(crate) fn push_named(
    alloc: Global,
    messages: &mut Messages<'_>,
    severity: Severity,
    span: Span,
    what: &str,
) -> Result<(), AllocError>
    ensures { OnOk result (AddsOne (IsNamed messages.old.text severity span what.now) messages.old messages.new) }
{
    let words = named_words(alloc, messages.text(), span, what)?;
    messages.push(Message::new(severity, Some(span), words))
}

/// Adds that a name is declared and isn't used.
fn push_unused_name(
    alloc: Global,
    messages: &mut Messages<'_>,
    warning: &YaccGrammarWarning,
) -> Result<(), AllocError>
    ensures { OnOk result (AddsOne (SaysUnused messages.old.text (warning_of warning.now)) messages.old messages.new) }
{
    let what = warning.to_string(alloc)?;
    match warning.spans.as_slice().first() {
        Some(span) => push_named(alloc, messages, Severity::Warning, *span, what.as_str()),
        None => messages.push(Message::new(Severity::Warning, None, what)),
    }
}

/// Adds that names are declared and aren't used.
fn push_unused_names(
    alloc: Global,
    messages: &mut Messages<'_>,
    warnings: &[YaccGrammarWarning],
) -> Result<(), AllocError>
    ensures { OnOk result (AddsSome (OneForEach (λ w. ⊤) (SaysUnused messages.old.text) (map warning_of warnings.now)) messages.old messages.new) }
{
    'warnings: for warning in warnings {
        push_unused_name(alloc, messages, warning)?;
    }
    Ok(())
}

/// Adds a warning for each rule and token that a valid text has and doesn't use.
fn push_unused(
    alloc: Global,
    messages: &mut Messages<'_>,
    ast: &GrammarAST,
) -> Result<(), AllocError>
    ensures { OnOk result (AddsSome (AreOfUnused messages.old.text ast.now) messages.old messages.new) }
{
    let warnings = ast.warnings(alloc)?;
    push_unused_names(alloc, messages, warnings.as_slice())
}

/// Adds a warning for each of the first unused rules and tokens, as many as `most`, and returns how many are left.
fn push_first_unused(
    alloc: Global,
    messages: &mut Messages<'_>,
    ast: &GrammarAST,
    most: usize,
) -> Result<usize, AllocError>
    ensures { IfOk result (λ left. AddsSome (AreOfFirstUnused messages.old.text most ast.now left) messages.old messages.new) }
{
    let warnings = ast.warnings(alloc)?;
    let (first, others) = warnings.as_slice().split_at(most.min(warnings.len()));
    push_unused_names(alloc, messages, first)?;
    Ok(others.len())
}

/// Adds what of the declared tokens means something else than it seems to.
fn push_token_warnings(alloc: Global, messages: &mut Messages<'_>) -> Result<(), AllocError>
    ensures { OnOk result (AddsWarnings messages.old messages.new) }
{
    let hints = token_warnings(alloc, messages.text())?;
    'hints: for hint in &hints {
        let words = String::from_str(alloc, hint.words.as_str())?;
        messages.push(Message::new(Severity::Warning, hint.span, words))?;
    }
    Ok(())
}

/// Adds what a text declares and doesn't use, or declares twice.
pub(crate) fn push_warnings(
    alloc: Global,
    messages: &mut Messages<'_>,
    ast: &GrammarAST,
) -> Result<(), AllocError>
    ensures { OnOk result (AddsSome (AreOfWarnings messages.old.text ast.now) messages.old messages.new) }
{
    push_unused(alloc, messages, ast)?;
    push_token_warnings(alloc, messages)
}

/// Adds the warnings of `push_warnings`, but of unused names the first `most` alone, and returns how many of these are left.
pub(crate) fn push_first_warnings(
    alloc: Global,
    messages: &mut Messages<'_>,
    ast: &GrammarAST,
    most: usize,
) -> Result<usize, AllocError>
    ensures { IfOk result (λ left. AddsSome (AreFirstWarnings messages.old.text most ast.now left) messages.old messages.new) }
{
    let left = push_first_unused(alloc, messages, ast, most)?;
    push_token_warnings(alloc, messages)?;
    Ok(left)
}
