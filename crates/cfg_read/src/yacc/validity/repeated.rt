//! Names and declarations that appear more than once.

ghost use Rattle.std.specs.Prelude.{◌≡◌, ◌++◌, ◌≤◌, [], map, vec_len, true, OnOk, IfOk};
ghost use Rattle.std.specs.List.{flat_map};
ghost use Rattle.cfg_read.specs.Names.{distinct, texts, level_tokens, avoided_tokens, implicit_tokens_of};
ghost use Rattle.cfg_read.specs.SyntaxModels.{words_of, number_text, syntax_of};
ghost use Rattle.cfg_read.specs.LinesByName.{AreLinesOf};
ghost use Rattle.cfg_read.specs.NameModels.{words_at, names_in};
ghost use Rattle.cfg_read.specs.ErrorModels.{failures_in, kind_of, repeated_failure, span_lists, with_span};
ghost use Rattle.cfg_read.specs.Validity.{FailureKind, repeated, repeated_names, repeated_words, repeated_declarations, word_spans, number_spans, groups_of, epp_tokens, DuplicatePrecedence, DuplicateEPP, DuplicateAvoidInsertDeclaration, DuplicateImplicitTokensDeclaration};

use super::YaccGrammarError;
use crate::yacc::ast::parts::Lines;
use crate::yacc::names;
use crate::yacc::parser::error::YaccGrammarErrorKind;
use crate::yacc::parser::syntax::{Number, Syntax, Word};
use cfg_base::name_hasher::NameHasher;
use cfg_base::span::Span;
use indexmap::IndexSet;
use std::alloc::{AllocError, Global};

/// What may occur once.
#[derive(Clone, Copy, PartialEq, Eq)]
enum Repeated {
    Precedence,
    Epp,
    AvoidInsert,
    ImplicitToken,
    Start,
    Expect,
    ExpectRR,
    ActionType,
}

/// Returns the kind of error of what appears more than once.
fn repeated_kind(what: Repeated) -> YaccGrammarErrorKind
    ensures { kind_of result ≡ repeated_failure what }
{
    match what {
        Repeated::Precedence => YaccGrammarErrorKind::DuplicatePrecedence,
        Repeated::Epp => YaccGrammarErrorKind::DuplicateEPP,
        Repeated::AvoidInsert => YaccGrammarErrorKind::DuplicateAvoidInsertDeclaration,
        Repeated::ImplicitToken => YaccGrammarErrorKind::DuplicateImplicitTokensDeclaration,
        Repeated::Start => YaccGrammarErrorKind::DuplicateStartDeclaration,
        Repeated::Expect => YaccGrammarErrorKind::DuplicateExpectDeclaration,
        Repeated::ExpectRR => YaccGrammarErrorKind::DuplicateExpectRRDeclaration,
        Repeated::ActionType => YaccGrammarErrorKind::DuplicateActiontypeDeclaration,
    }
}

/// Puts one failure with all these spans behind the others, where they are more than one.
fn push_if_repeated(
    errors: &mut Vec<YaccGrammarError>,
    what: Repeated,
    spans: Vec<Span>,
) -> Result<(), AllocError>
    ensures { OnOk result (failures_in errors.new.items
        ≡ failures_in errors.old.items ++ repeated (repeated_failure what) spans.items) }
{
    if spans.len() > 1 {
        let kind = repeated_kind(what);
        errors.push(YaccGrammarError { kind, spans })?;
    }
    Ok(())
}

/// Adds a span to the list of this index, or to a new one behind the last.
fn add_span(
    alloc: Global,
    groups: &mut Vec<Vec<Span>>,
    index: usize,
    span: Span,
) -> Result<(), AllocError>
    requires { index ≤ vec_len groups.old }
    ensures { OnOk result (span_lists groups.new.items ≡ with_span (span_lists groups.old.items) index span) }
{
    if index == groups.len() {
        groups.push(vec![in alloc; span]?)?;
    } else {
        groups[index].push(span)?;
    }
    Ok(())
}

/// Lists the spans of each name, in the order of the first ones.
fn group_spans(
    alloc: Global,
    words: &[(&str, Span)],
    hasher: NameHasher,
) -> Result<Vec<Vec<Span>>, AllocError>
    ensures { IfOk result (λ groups. span_lists groups.items ≡ groups_of (words_at words.now)) }
{
    let mut names = IndexSet::with_hasher(alloc, hasher);
    let mut groups = Vec::new(alloc);
    'words: for word in words {
        let index = match names.insert_full(word.0) {
            Ok((index, _)) => index,
            Err(e) => {
                drop(names);
                return Err(e.into());
            }
        };
        match add_span(alloc, &mut groups, index, word.1) {
            Ok(()) => {}
            Err(e) => {
                drop(names);
                return Err(e);
            }
        }
    }
    drop(names);
    Ok(groups)
}

/// Returns whether these words have as many names, if these are their names, so that none is reported as repeated.
fn all_differ(words: &[(&str, Span)], names: &IndexSet<&str, NameHasher>) -> bool
    ensures { result ≡ true → names_in names.now ≡ texts (distinct (words_at words.now)) → (k : FailureKind) → repeated_names k (words_at words.now) ≡ [] }
{
    names.len() == words.len()
}

/// Puts a failure for each list of more than one span behind the others.
fn push_groups(
    errors: &mut Vec<YaccGrammarError>,
    what: Repeated,
    groups: Vec<Vec<Span>>,
) -> Result<(), AllocError>
    ensures { OnOk result (failures_in errors.new.items
        ≡ failures_in errors.old.items ++ flat_map (repeated (repeated_failure what)) (span_lists groups.items)) }
{
    'groups: for spans in groups {
        push_if_repeated(errors, what, spans)?;
    }
    Ok(())
}

/// Puts a failure for each name that appears more than once among these words behind the others, where these are
/// their names.
fn push_repeated_among(
    alloc: Global,
    errors: &mut Vec<YaccGrammarError>,
    what: Repeated,
    words: &[(&str, Span)],
    names: &IndexSet<&str, NameHasher>,
) -> Result<(), AllocError>
    ensures { OnOk result (names_in names.now ≡ texts (distinct (words_at words.now)) → failures_in errors.new.items
        ≡ failures_in errors.old.items ++ repeated_names (repeated_failure what) (words_at words.now)) }
{
    if all_differ(words, names) {
        return Ok(());
    }
    let groups = group_spans(alloc, words, *names.hasher())?;
    push_groups(errors, what, groups)?;
    Ok(())
}

/// Puts a failure for each name that appears more than once among these words behind the others.
fn push_repeated_names(
    alloc: Global,
    errors: &mut Vec<YaccGrammarError>,
    what: Repeated,
    words: &[(&str, Span)],
    hasher: NameHasher,
) -> Result<(), AllocError>
    ensures { OnOk result (failures_in errors.new.items
        ≡ failures_in errors.old.items ++ repeated_names (repeated_failure what) (words_at words.now)) }
{
    let names = names::distinct_names(alloc, words, hasher)?;
    match push_repeated_among(alloc, errors, what, words, &names) {
        Ok(()) => {
            drop(names);
            Ok(())
        }
        Err(e) => {
            drop(names);
            Err(e)
        }
    }
}

/// Puts a failure for each token with more than one precedence behind the others.
fn push_repeated_levels(
    alloc: Global,
    errors: &mut Vec<YaccGrammarError>,
    x: &Syntax,
    lines: &Lines,
) -> Result<(), AllocError>
    requires { AreLinesOf (syntax_of x.now) lines.now }
    ensures { OnOk result (failures_in errors.new.items
        ≡ failures_in errors.old.items ++ repeated_names DuplicatePrecedence (level_tokens (syntax_of x.now))) }
{
    if names::have_so_many_tokens(&x.levels, lines.precs.len()) {
        return Ok(());
    }
    let words = names::level_words(alloc, &x.levels)?;
    push_repeated_names(
        alloc,
        errors,
        Repeated::Precedence,
        &words,
        x.names.hasher(),
    )?;
    Ok(())
}

/// Puts a failure for each token with more than one printed text behind the others.
fn push_repeated_epps(
    alloc: Global,
    errors: &mut Vec<YaccGrammarError>,
    x: &Syntax,
) -> Result<(), AllocError>
    ensures { OnOk result (failures_in errors.new.items
        ≡ failures_in errors.old.items ++ repeated_names DuplicateEPP (epp_tokens (syntax_of x.now))) }
{
    let words = names::epp_words(alloc, &x.epp)?;
    push_repeated_names(alloc, errors, Repeated::Epp, &words, x.names.hasher())
}

/// Puts a failure for each token that appears more than once in `%avoid_insert` behind the others.
fn push_repeated_avoided(
    alloc: Global,
    errors: &mut Vec<YaccGrammarError>,
    x: &Syntax,
    lines: &Lines,
) -> Result<(), AllocError>
    requires { AreLinesOf (syntax_of x.now) lines.now }
    ensures { OnOk result (failures_in errors.new.items
        ≡ failures_in errors.old.items ++ repeated_names DuplicateAvoidInsertDeclaration (avoided_tokens (syntax_of x.now))) }
{
    if names::have_so_many_items(&x.avoid_insert, lines.avoid_insert.len()) {
        return Ok(());
    }
    let words = names::line_words(alloc, &x.avoid_insert)?;
    push_repeated_names(
        alloc,
        errors,
        Repeated::AvoidInsert,
        &words,
        x.names.hasher(),
    )?;
    Ok(())
}

/// Puts a failure for each token that appears more than once in `%implicit_tokens` behind the others.
fn push_repeated_implicit(
    alloc: Global,
    errors: &mut Vec<YaccGrammarError>,
    x: &Syntax,
    lines: &Lines,
) -> Result<(), AllocError>
    requires { AreLinesOf (syntax_of x.now) lines.now }
    ensures { OnOk result (failures_in errors.new.items
        ≡ failures_in errors.old.items ++ repeated_names DuplicateImplicitTokensDeclaration (implicit_tokens_of (syntax_of x.now))) }
{
    if names::have_so_many_items(&x.implicit_tokens, lines.implicit_tokens.len()) {
        return Ok(());
    }
    let words = names::line_words(alloc, &x.implicit_tokens)?;
    push_repeated_names(
        alloc,
        errors,
        Repeated::ImplicitToken,
        &words,
        x.names.hasher(),
    )?;
    Ok(())
}

/// Puts a failure for each name that occurs more often than it may behind the others.
pub(super) fn push_repeated_words(
    alloc: Global,
    errors: &mut Vec<YaccGrammarError>,
    x: &Syntax,
    lines: &Lines,
) -> Result<(), AllocError>
    requires { AreLinesOf (syntax_of x.now) lines.now }
    ensures { OnOk result (failures_in errors.new.items
        ≡ failures_in errors.old.items ++ repeated_words (syntax_of x.now)) }
{
    push_repeated_levels(alloc, errors, x, lines)?;
    push_repeated_epps(alloc, errors, x)?;
    push_repeated_avoided(alloc, errors, x, lines)?;
    push_repeated_implicit(alloc, errors, x, lines)?;
    Ok(())
}

/// Lists the spans of words.
fn spans_of_words(alloc: Global, words: &[Word]) -> Result<Vec<Span>, AllocError>
    ensures { IfOk result (λ spans. spans.items ≡ word_spans (words_of words.now)) }
{
    let mut spans = Vec::new(alloc);
    'words: for word in words {
        spans.push(word.span)?;
    }
    Ok(spans)
}

/// Lists the spans of numbers.
fn spans_of_numbers(alloc: Global, numbers: &[Number]) -> Result<Vec<Span>, AllocError>
    ensures { IfOk result (λ spans. spans.items ≡ number_spans (map number_text numbers.now)) }
{
    let mut spans = Vec::new(alloc);
    'numbers: for number in numbers {
        spans.push(number.span)?;
    }
    Ok(spans)
}

/// Puts a failure for each declaration that occurs more often than it may behind the others.
pub(super) fn push_repeated_declarations(
    alloc: Global,
    errors: &mut Vec<YaccGrammarError>,
    x: &Syntax,
) -> Result<(), AllocError>
    ensures { OnOk result (failures_in errors.new.items
        ≡ failures_in errors.old.items ++ repeated_declarations (syntax_of x.now)) }
{
    let starts = spans_of_words(alloc, &x.starts)?;
    let expect = spans_of_numbers(alloc, &x.expect)?;
    let expect_rr = spans_of_numbers(alloc, &x.expect_rr)?;
    let types = spans_of_words(alloc, &x.action_types)?;
    push_if_repeated(errors, Repeated::Start, starts)?;
    push_if_repeated(errors, Repeated::Expect, expect)?;
    push_if_repeated(errors, Repeated::ExpectRR, expect_rr)?;
    push_if_repeated(errors, Repeated::ActionType, types)
}
