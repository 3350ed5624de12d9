//! Names that mean nothing.

ghost use Rattle.std.specs.Prelude.{◌≡◌, ◌++◌, ◌∷◌, [], if◌then◌else◌, IfOk, OnOk};
ghost use Rattle.std.specs.String.{string_bytes};
ghost use Rattle.cfg_read.specs.Asts.{has_precedence, precedences_of};
ghost use Rattle.cfg_read.specs.Names.{is_among, words_in, avoided_tokens};
ghost use Rattle.cfg_read.specs.SyntaxModels.{words_of, symbol_of, syntax_of};
ghost use Rattle.cfg_read.specs.NameModels.{words_at, symbols_at};
ghost use Rattle.cfg_read.specs.NameTables.{known_of};
ghost use Rattle.cfg_read.specs.AstModels.{named_spans, named_precedences};
ghost use Rattle.cfg_read.specs.Settling.{unknown_words, uses_of};
ghost use Rattle.cfg_read.specs.ErrorModels.{failures_in, kind_of, unknown_failure};
ghost use Rattle.cfg_read.specs.Validity.{failure_at, failures_at, invalid_start_rule, unknown_by, unknown_in_declarations, known_by, unknown_symbols_by, unknown_precs, epp_tokens, UnknownSymbol, UnknownRuleRef, UnknownEPP, UnknownToken, NoPrecForToken};

use super::{YaccGrammarError, push_failure};
use crate::yacc::ast::settle::Uses;
use crate::yacc::name::Name;
use crate::yacc::name_table::NameTable;
use crate::yacc::parser::error::YaccGrammarErrorKind;
use crate::yacc::parser::syntax::{Symbol, Syntax, Word};
use crate::yacc::{Precedence, names};
use cfg_base::name_hasher::NameHasher;
use cfg_base::span::Span;
use indexmap::IndexMap;
use std::alloc::{AllocError, Global};

/// What an unknown name should have been.
#[derive(Clone, Copy, PartialEq, Eq)]
enum Unknown {
    StartRule,
    Rule,
    Precedence,
    Epp,
    Token,
}

/// Returns the kind of error of an unknown name.
fn unknown_kind(what: Unknown, name: String) -> YaccGrammarErrorKind
    ensures { kind_of result ≡ unknown_failure what (string_bytes name) }
{
    match what {
        Unknown::StartRule => YaccGrammarErrorKind::InvalidStartRule(name),
        Unknown::Rule => YaccGrammarErrorKind::UnknownRuleRef(name),
        Unknown::Precedence => YaccGrammarErrorKind::NoPrecForToken(name),
        Unknown::Epp => YaccGrammarErrorKind::UnknownEPP(name),
        Unknown::Token => YaccGrammarErrorKind::UnknownToken(name),
    }
}

/// Puts a failure for a word behind the others, where its name isn't known.
fn push_if_unknown(
    alloc: Global,
    errors: &mut Vec<YaccGrammarError>,
    text: &str,
    span: Span,
    is_known: bool,
    what: Unknown,
) -> Result<(), AllocError>
    ensures { OnOk result (failures_in errors.new.items
        ≡ failures_in errors.old.items ++ unknown_by (unknown_failure what) (λ q. is_known) (record { text = text.now; span = span } ∷ [])) }
{
    if !is_known {
        let name = String::from_str(alloc, text)?;
        push_failure(alloc, errors, unknown_kind(what, name), span)?;
    }
    Ok(())
}

/// Puts a failure for each of these names behind the others.
fn push_all_unknown(
    alloc: Global,
    errors: &mut Vec<YaccGrammarError>,
    names: &[(Name, Span)],
) -> Result<(), AllocError>
    ensures { OnOk result (failures_in errors.new.items
        ≡ failures_in errors.old.items ++ failures_at UnknownRuleRef (unknown_words names.now)) }
{
    'names: for name in names {
        push_if_unknown(alloc, errors, name.0.as_str(), name.1, false, Unknown::Rule)?;
    }
    Ok(())
}

/// Puts a failure for each token of a precedence behind the others, whose name has none.
fn push_without_precedence(
    alloc: Global,
    errors: &mut Vec<YaccGrammarError>,
    words: &[(&str, Span)],
    precs: &IndexMap<String, (Precedence, Span), NameHasher>,
) -> Result<(), AllocError>
    ensures { OnOk result (failures_in errors.new.items
        ≡ failures_in errors.old.items ++ unknown_by NoPrecForToken (has_precedence (named_precedences precs.now)) (words_at words.now)) }
{
    'words: for word in words {
        let is_known = precs.contains_key(word.0);
        push_if_unknown(alloc, errors, word.0, word.1, is_known, Unknown::Precedence)?;
    }
    Ok(())
}

/// Puts a failure for each word behind the others, whose name isn't among these tokens.
fn push_unknown(
    alloc: Global,
    errors: &mut Vec<YaccGrammarError>,
    words: &[(&str, Span)],
    tokens: &IndexMap<String, Span, NameHasher>,
    what: Unknown,
) -> Result<(), AllocError>
    ensures { OnOk result (failures_in errors.new.items
        ≡ failures_in errors.old.items ++ unknown_by (unknown_failure what) (is_among (named_spans tokens.now)) (words_at words.now)) }
{
    'words: for word in words {
        let is_known = tokens.contains_key(word.0);
        push_if_unknown(alloc, errors, word.0, word.1, is_known, what)?;
    }
    Ok(())
}

/// Puts a failure for the first `%start` behind the others, where it names no rule.
fn push_invalid_start(
    alloc: Global,
    errors: &mut Vec<YaccGrammarError>,
    starts: &[Word],
    table: &NameTable,
) -> Result<(), AllocError>
    ensures { OnOk result (failures_in errors.new.items
        ≡ failures_in errors.old.items ++ invalid_start_rule (known_of table.now).rules (words_of starts.now)) }
{
    if let Some(start) = starts.first() {
        let text = start.text.as_str();
        let name = Name::new(alloc, text)?;
        let is_known = table.entry(&name).is_rule;
        push_if_unknown(
            alloc,
            errors,
            text,
            start.span,
            is_known,
            Unknown::StartRule,
        )?;
    }
    Ok(())
}

/// Returns whether a symbol of `%expect-unused` names something.
fn is_known(symbol: &Symbol, table: &NameTable, tokens: &IndexMap<String, Span, NameHasher>) -> bool
    ensures { result ≡ known_by (known_of table.now).rules (is_among (named_spans tokens.now)) (symbol_of symbol.now) }
{
    let name = symbol.name();
    tokens.contains_key(name.as_str()) || !symbol.is_quoted() && table.entry(name).is_rule
}

/// Puts a failure for a symbol of `%expect-unused` behind the others, where it isn't known.
fn push_if_unknown_symbol(
    alloc: Global,
    errors: &mut Vec<YaccGrammarError>,
    symbol: &Symbol,
    known: bool,
) -> Result<(), AllocError>
    ensures { OnOk result (failures_in errors.new.items
        ≡ failures_in errors.old.items ++ (if known then [] else failure_at UnknownSymbol (symbol_of symbol.now).word.span ∷ [])) }
{
    if !known {
        push_failure(
            alloc,
            errors,
            YaccGrammarErrorKind::UnknownSymbol,
            symbol.span(),
        )?;
    }
    Ok(())
}

/// Puts a failure for each symbol of `%expect-unused` that names nothing behind the others.
fn push_unknown_symbols(
    alloc: Global,
    errors: &mut Vec<YaccGrammarError>,
    symbols: &[&Symbol],
    table: &NameTable,
    tokens: &IndexMap<String, Span, NameHasher>,
) -> Result<(), AllocError>
    ensures { OnOk result (failures_in errors.new.items
        ≡ failures_in errors.old.items ++ unknown_symbols_by (known_by (known_of table.now).rules (is_among (named_spans tokens.now))) (symbols_at symbols.now)) }
{
    'symbols: for symbol in symbols {
        push_if_unknown_symbol(alloc, errors, symbol, is_known(symbol, table, tokens))?;
    }
    Ok(())
}

/// Returns the failures of tokens of `%prec` without a precedence.
pub(crate) fn unknown_precs(
    alloc: Global,
    x: &Syntax,
    precs: &IndexMap<String, (Precedence, Span), NameHasher>,
) -> Result<Vec<YaccGrammarError>, AllocError>
    requires { named_precedences precs.now ≡ precedences_of (syntax_of x.now).levels }
    ensures { IfOk result (λ errors. failures_in errors.items ≡ unknown_precs (syntax_of x.now)) }
{
    let mut errors = Vec::new(alloc);
    let words = names::prec_words(alloc, &x.rules)?;
    push_without_precedence(alloc, &mut errors, &words, precs)?;
    Ok(errors)
}

/// Puts a failure for each token of `%epp` that isn't the grammar's behind the others.
fn push_unknown_epps(
    alloc: Global,
    errors: &mut Vec<YaccGrammarError>,
    x: &Syntax,
    known: &IndexMap<String, Span, NameHasher>,
) -> Result<(), AllocError>
    ensures { OnOk result (failures_in errors.new.items
        ≡ failures_in errors.old.items ++ unknown_by UnknownEPP (is_among (named_spans known.now)) (epp_tokens (syntax_of x.now))) }
{
    let words = names::epp_words(alloc, &x.epp)?;
    push_unknown(alloc, errors, &words, known, Unknown::Epp)
}

/// Puts a failure for each of these symbols behind the others, whose name isn't that of a token.
fn push_unknown_items(
    alloc: Global,
    errors: &mut Vec<YaccGrammarError>,
    symbols: &[&Symbol],
    table: &NameTable,
) -> Result<(), AllocError>
    ensures { OnOk result (failures_in errors.new.items
        ≡ failures_in errors.old.items ++ unknown_by UnknownToken (is_among table.now.tokens) (words_in (symbols_at symbols.now))) }
{
    'symbols: for symbol in symbols {
        let name = symbol.name();
        let is_known = table.entry(name).is_token;
        push_if_unknown(
            alloc,
            errors,
            name.as_str(),
            symbol.span(),
            is_known,
            Unknown::Token,
        )?;
    }
    Ok(())
}

/// Puts a failure for each token of `%avoid_insert` that isn't the grammar's behind the others.
fn push_unknown_tokens(
    alloc: Global,
    errors: &mut Vec<YaccGrammarError>,
    x: &Syntax,
    table: &NameTable,
) -> Result<(), AllocError>
    ensures { OnOk result (failures_in errors.new.items
        ≡ failures_in errors.old.items ++ unknown_by UnknownToken (is_among table.now.tokens) (avoided_tokens (syntax_of x.now))) }
{
    let symbols = names::line_symbols(alloc, &x.avoid_insert)?;
    push_unknown_items(alloc, errors, &symbols, table)?;
    Ok(())
}

/// Puts a failure for each unknown name in declarations behind the others.
fn push_unknown_in_declarations(
    alloc: Global,
    errors: &mut Vec<YaccGrammarError>,
    x: &Syntax,
    table: &NameTable,
) -> Result<(), AllocError>
    ensures { OnOk result (failures_in errors.new.items
        ≡ failures_in errors.old.items ++ unknown_in_declarations (known_of table.now).rules (is_among table.now.tokens) (syntax_of x.now)) }
{
    let tokens = table.tokens();
    push_unknown_epps(alloc, errors, x, tokens)?;
    push_unknown_tokens(alloc, errors, x, table)?;
    let symbols = names::line_symbols(alloc, &x.expect_unused)?;
    push_unknown_symbols(alloc, errors, &symbols, table, tokens)?;
    Ok(())
}

/// Puts these errors behind the others.
fn push_errors(
    errors: &mut Vec<YaccGrammarError>,
    others: Vec<YaccGrammarError>,
) -> Result<(), AllocError>
    ensures { OnOk result (failures_in errors.new.items ≡ failures_in errors.old.items ++ failures_in others.items) }
{
    'others: for error in others {
        errors.push(error)?;
    }
    Ok(())
}

/// Puts a failure for each name that means nothing behind the others; `precs` are the failures of the tokens of
/// `%prec`.
pub(super) fn push_unknown_names(
    alloc: Global,
    errors: &mut Vec<YaccGrammarError>,
    x: &Syntax,
    uses: &Uses,
    precs: Vec<YaccGrammarError>,
) -> Result<(), AllocError>
    ensures { OnOk result (failures_in errors.new.items ≡ failures_in errors.old.items
        ++ ((invalid_start_rule (known_of uses.now.table).rules (syntax_of x.now).starts ++ (failures_at UnknownRuleRef (uses_of uses.now).unknown ++ failures_in precs.items))
        ++ unknown_in_declarations (known_of uses.now.table).rules (is_among uses.now.table.tokens) (syntax_of x.now))) }
{
    push_invalid_start(alloc, errors, &x.starts, &uses.table)?;
    push_all_unknown(alloc, errors, &uses.unknown)?;
    push_errors(errors, precs)?;
    push_unknown_in_declarations(alloc, errors, x, &uses.table)?;
    Ok(())
}
