//! Makes the parts of a syntax tree from what a text says.

ghost use Rattle.std.specs.Prelude.{◌≡◌, ◌++◌, [], map, fold, option_map, IfOk, OnOk};
ghost use Rattle.std.specs.List.{flat_map};
ghost use Rattle.std.specs.String.{string_bytes};
ghost use Rattle.cfg_read.specs.Asts.{text_of, with_epp_of, with_precedence_of, precedence_ast, precedences_of};
ghost use Rattle.cfg_read.specs.AstModels.{production_of, named_spans, named_epps, named_precedences};
ghost use Rattle.cfg_read.specs.Names.{with_distinct, distinct, words_in};
ghost use Rattle.cfg_read.specs.SyntaxModels.{word_of, symbol_of, symbols_of, line_of, epp_of, level_of, syntax_of};
ghost use Rattle.cfg_read.specs.LinesByName.{AreLinesOf};

use super::{Production, Symbol};
use crate::yacc::parser::syntax::{Epp, Level, Line, Syntax, Word};
use crate::yacc::{Precedence, PrecedenceLevel};
use cfg_base::name_hasher::NameHasher;
use cfg_base::span::Span;
use indexmap::IndexMap;
use std::alloc::{AllocError, Global};

/// Returns a word's text, if there is a word.
pub(super) fn to_text(word: &Option<Word>) -> Result<Option<String>, AllocError>
    ensures { IfOk result (λ text. option_map string_bytes text ≡ text_of (option_map word_of word.now)) }
{
    match word {
        Some(word) => Ok(Some(word.text.clone()?)),
        None => Ok(None),
    }
}

/// Puts these productions behind the others.
pub(super) fn push_all(
    made: &mut Vec<Production>,
    others: Vec<Production>,
) -> Result<(), AllocError>
    ensures { OnOk result (map production_of made.new.items
        ≡ map production_of made.old.items ++ map production_of others.items) }
{
    'others: for production in others {
        made.push(production)?;
    }
    Ok(())
}

/// Puts a name with its span behind the others, where it isn't there yet.
fn insert_first(
    alloc: Global,
    spans: &mut IndexMap<String, Span, NameHasher>,
    name: &str,
    span: Span,
) -> Result<(), AllocError>
    ensures { OnOk result (named_spans spans.new ≡ with_distinct (named_spans spans.old) (record { text = name.now; span = span })) }
{
    let key = String::from_str(alloc, name)?;
    let (index, old) = spans.insert_full(key, span)?;
    if let Some(first) = old {
        spans[index] = first;
    }
    Ok(())
}

/// Puts the names of these symbols with their spans behind the others, where they aren't there yet.
fn take_all_first(
    alloc: Global,
    spans: &mut IndexMap<String, Span, NameHasher>,
    symbols: &[Symbol],
) -> Result<(), AllocError>
    ensures { OnOk result (named_spans spans.new ≡ fold with_distinct (named_spans spans.old) (words_in (symbols_of symbols.now))) }
{
    'symbols: for symbol in symbols {
        insert_first(alloc, spans, symbol.name().as_str(), symbol.span())?;
    }
    Ok(())
}

/// Returns each name of these lines with its first span, in the order of these.
fn first_spans(
    alloc: Global,
    lines: &[Line],
    hasher: NameHasher,
) -> Result<IndexMap<String, Span, NameHasher>, AllocError>
    ensures { IfOk result (λ spans. named_spans spans ≡ distinct (flat_map words_in (map line_of lines.now))) }
{
    let mut spans = IndexMap::with_capacity_and_hasher(alloc, lines.len(), hasher)?;
    'lines: for line in lines {
        take_all_first(alloc, &mut spans, &line.items)?;
    }
    Ok(spans)
}

/// Puts a token's printed text behind the others, where it has none yet.
fn insert_epp(
    epps: &mut IndexMap<String, (Span, (String, Span)), NameHasher>,
    epp: Epp,
) -> Result<(), AllocError>
    ensures { OnOk result (named_epps epps.new ≡ with_epp_of (named_epps epps.old) (epp_of epp)) }
{
    let Epp { token, text } = epp;
    let Word {
        text: name,
        span: at,
    } = token;
    let Word {
        text: printed,
        span,
    } = text;
    let (index, old) = epps.insert_full(name, (at, (printed, span)))?;
    if let Some(first) = old {
        epps[index] = first;
    }
    Ok(())
}

/// Returns the printed texts, a token's first one.
pub(super) fn first_epps(
    alloc: Global,
    all: Vec<Epp>,
    hasher: NameHasher,
) -> Result<IndexMap<String, (Span, (String, Span)), NameHasher>, AllocError>
    ensures { IfOk result (λ epps. named_epps epps ≡ fold with_epp_of [] (map epp_of all.items)) }
{
    let mut epps = IndexMap::with_capacity_and_hasher(alloc, all.len(), hasher)?;
    'epps: for epp in all {
        insert_epp(&mut epps, epp)?;
    }
    Ok(epps)
}

/// Puts a token's precedence behind the others, where it has none yet.
fn insert_precedence(
    alloc: Global,
    found: &mut IndexMap<String, (Precedence, Span), NameHasher>,
    precedence: Precedence,
    symbol: &Symbol,
) -> Result<(), AllocError>
    ensures { OnOk result (named_precedences found.new
        ≡ with_precedence_of (named_precedences found.old) (precedence_ast precedence.level precedence.kind (symbol_of symbol.now).word)) }
{
    let key = String::from_str(alloc, symbol.name().as_str())?;
    let (index, old) = found.insert_full(key, (precedence, symbol.span()))?;
    if let Some(first) = old {
        found[index] = first;
    }
    Ok(())
}

/// Puts this precedence of these tokens behind the others, for those that have none yet.
fn insert_level(
    alloc: Global,
    found: &mut IndexMap<String, (Precedence, Span), NameHasher>,
    precedence: Precedence,
    tokens: &[Symbol],
) -> Result<(), AllocError>
    ensures { OnOk result (named_precedences found.new
        ≡ fold with_precedence_of (named_precedences found.old) (map (precedence_ast precedence.level precedence.kind) (words_in (symbols_of tokens.now)))) }
{
    'tokens: for token in tokens {
        insert_precedence(alloc, found, precedence, token)?;
    }
    Ok(())
}

/// Returns the precedences: each line is a level, the first one 0, and a token's first one counts.
fn first_precedences(
    alloc: Global,
    levels: &[Level],
    hasher: NameHasher,
) -> Result<IndexMap<String, (Precedence, Span), NameHasher>, AllocError>
    ensures { IfOk result (λ found. named_precedences found ≡ precedences_of (map level_of levels.now)) }
{
    let mut found = IndexMap::with_capacity_and_hasher(alloc, levels.len(), hasher)?;
    'levels: for (number, level) in levels.iter().enumerate() {
        let precedence = Precedence {
            level: number as PrecedenceLevel,
            kind: level.kind,
        };
        insert_level(alloc, &mut found, precedence, &level.tokens)?;
    }
    Ok(found)
}

/// What the lines of a text say by names: precedences, and the tokens of `%avoid_insert` and of `%implicit_tokens`.
#[derive(Drop)]
pub(crate) struct Lines {
    pub(crate) precs: IndexMap<String, (Precedence, Span), NameHasher>,
    pub(crate) avoid_insert: IndexMap<String, Span, NameHasher>,
    pub(crate) implicit_tokens: IndexMap<String, Span, NameHasher>,
}

/// Returns the lines of a text by names, where the first one of a name counts.
pub(crate) fn first_lines(alloc: Global, x: &Syntax) -> Result<Lines, AllocError>
    ensures { IfOk result (λ l. AreLinesOf (syntax_of x.now) l) }
{
    let hasher = x.names.hasher();
    let precs = first_precedences(alloc, &x.levels, hasher)?;
    let avoid_insert = match first_spans(alloc, &x.avoid_insert, hasher) {
        Ok(spans) => spans,
        Err(e) => {
            drop(precs);
            return Err(e);
        }
    };
    let implicit_tokens = match first_spans(alloc, &x.implicit_tokens, hasher) {
        Ok(spans) => spans,
        Err(e) => {
            drop(precs);
            drop(avoid_insert);
            return Err(e);
        }
    };
    Ok(Lines {
        precs,
        avoid_insert,
        implicit_tokens,
    })
}
