//! The names of a grammar text, collected for looking them up.

ghost use Rattle.std.specs.Prelude.{◌≡◌, ◌≤◌, true, ◌++◌, ◌∷◌, [], List, map, fold, drop, length, option_map, option_to_list, IfOk, OnOk};
ghost use Rattle.std.specs.List.{flat_map};
ghost use Rattle.cfg_read.specs.SyntaxTexts.{WordText};
ghost use Rattle.cfg_read.specs.Names.{is_among, distinct, texts, words_in, declared_tokens, implicit_tokens_of, put_by_offset, by_offset};
ghost use Rattle.cfg_read.specs.Validity.{precs_in};
ghost use Rattle.cfg_read.specs.SyntaxModels.{boxed_word, line_of, symbols_of, alternative_of, rule_of, level_of, epp_of, syntax_of};
ghost use Rattle.cfg_read.specs.NameModels.{words_at, symbols_at, names_in, has_name};
ghost use Rattle.cfg_read.specs.NameTables.{known_of, no_names, with_declared, with_rule_name, with_token, known_before};

use crate::yacc::name::NameSet;
use crate::yacc::name_table::NameTable;
use crate::yacc::parser::syntax::{Alternative, Epp, Level, Line, Rule, Symbol, Syntax, Word};
use cfg_base::name_hasher::NameHasher;
use cfg_base::span::Span;
use indexmap::IndexSet;
use std::alloc::{AllocError, Global};

/// Puts a word behind the others.
fn push_mention<'a>(
    found: &mut Vec<(&'a str, Span)>,
    text: &'a str,
    span: Span,
) -> Result<(), AllocError>
    ensures { OnOk result (words_at found.new.items ≡ words_at found.old.items ++ record { text = text.now; span = span } ∷ []) }
{
    found.reserve(1)?;
    match found.push((text, span)) {
        Ok(()) => Ok(()),
        Err(_) => unreachable!(),
    }
}

/// Collects each name of the words once, at its first appearance.
pub(crate) fn distinct_names<'a>(
    alloc: Global,
    words: &[(&'a str, Span)],
    hasher: NameHasher,
) -> Result<IndexSet<&'a str, NameHasher>, AllocError>
    ensures names { IfOk result (λ s. names_in s ≡ texts (distinct (words_at words.now))) }
    ensures has { IfOk result (λ s. has_name s ≡ is_among (words_at words.now)) }
{
    let mut names = IndexSet::with_capacity_and_hasher(alloc, words.len(), hasher)?;
    'words: for word in words {
        names.insert(word.0)?;
    }
    Ok(names)
}

/// Puts the words of these symbols behind the others.
fn push_words<'a>(found: &mut Vec<(&'a str, Span)>, symbols: &'a [Symbol]) -> Result<(), AllocError>
    ensures { OnOk result (words_at found.new.items ≡ words_at found.old.items ++ words_in (symbols_of symbols.now)) }
{
    'symbols: for symbol in symbols {
        push_mention(found, symbol.name().as_str(), symbol.span())?;
    }
    Ok(())
}

/// Collects the words of these lines.
pub(crate) fn line_words<'a>(
    alloc: Global,
    lines: &'a [Line],
) -> Result<Vec<(&'a str, Span)>, AllocError>
    ensures { IfOk result (λ found. words_at found.items ≡ flat_map words_in (map line_of lines.now)) }
{
    let mut found = Vec::with_capacity(alloc, lines.len())?;
    'lines: for line in lines {
        push_words(&mut found, &line.items)?;
    }
    Ok(found)
}

/// Collects the tokens of the precedence lines.
pub(crate) fn level_words<'a>(
    alloc: Global,
    levels: &'a [Level],
) -> Result<Vec<(&'a str, Span)>, AllocError>
    ensures { IfOk result (λ found. words_at found.items ≡ flat_map (λ l. words_in l.tokens) (map level_of levels.now)) }
{
    let mut found = Vec::with_capacity(alloc, levels.len())?;
    'levels: for level in levels {
        push_words(&mut found, &level.tokens)?;
    }
    Ok(found)
}

/// Returns whether these precedence lines have `count` tokens.
pub(crate) fn have_so_many_tokens(levels: &[Level], count: usize) -> bool
    ensures { result ≡ true → length (flat_map (λ l. words_in l.tokens) (map level_of levels.now)) ≡ count }
{
    let mut left = count;
    'levels: for level in levels {
        match left.checked_sub(level.tokens.len()) {
            Some(rest) => left = rest,
            None => return false,
        }
    }
    left == 0
}

/// Returns whether these lines have `count` names and tokens.
pub(crate) fn have_so_many_items(lines: &[Line], count: usize) -> bool
    ensures { result ≡ true → length (flat_map words_in (map line_of lines.now)) ≡ count }
{
    let mut left = count;
    'lines: for line in lines {
        match left.checked_sub(line.items.len()) {
            Some(rest) => left = rest,
            None => return false,
        }
    }
    left == 0
}

/// Collects the tokens of `%epp`.
pub(crate) fn epp_words<'a>(
    alloc: Global,
    epp: &'a [Epp],
) -> Result<Vec<(&'a str, Span)>, AllocError>
    ensures { IfOk result (λ found. words_at found.items ≡ map (λ e. e.token) (map epp_of epp.now)) }
{
    let mut found = Vec::with_capacity(alloc, epp.len())?;
    'epp: for one in epp {
        push_mention(&mut found, one.token.text.as_str(), one.token.span)?;
    }
    Ok(found)
}

/// Puts a word behind the others, if there is one.
fn push_option<'a>(
    found: &mut Vec<(&'a str, Span)>,
    word: &'a Option<Box<Word>>,
) -> Result<(), AllocError>
    ensures { OnOk result (words_at found.new.items
        ≡ words_at found.old.items ++ option_to_list (option_map boxed_word word.now)) }
{
    if let Some(word) = word {
        push_mention(found, word.text.as_str(), word.span)?;
    }
    Ok(())
}

/// Puts the token of `%prec` behind the others, if the alternative has one.
fn push_prec<'a>(
    found: &mut Vec<(&'a str, Span)>,
    alternative: &'a Alternative,
) -> Result<(), AllocError>
    ensures { OnOk result (words_at found.new.items
        ≡ words_at found.old.items ++ option_to_list (alternative_of alternative.now).precedence) }
{
    match alternative {
        Alternative::Body(body) => push_option(found, &body.precedence),
        _ => Ok(()),
    }
}

/// Puts the tokens of `%prec` of these alternatives behind the others.
fn push_precs<'a>(
    found: &mut Vec<(&'a str, Span)>,
    alternatives: &'a [Alternative],
) -> Result<(), AllocError>
    ensures { OnOk result (words_at found.new.items
        ≡ words_at found.old.items ++ flat_map (λ a. option_to_list a.precedence) (map alternative_of alternatives.now)) }
{
    'alternatives: for alternative in alternatives {
        push_prec(found, alternative)?;
    }
    Ok(())
}

/// Collects the tokens of `%prec`.
pub(crate) fn prec_words<'a>(
    alloc: Global,
    rules: &'a [Rule],
) -> Result<Vec<(&'a str, Span)>, AllocError>
    ensures { IfOk result (λ found. words_at found.items ≡ flat_map precs_in (map rule_of rules.now)) }
{
    let mut found = Vec::with_capacity(alloc, rules.len())?;
    'rules: for rule in rules {
        push_precs(&mut found, &rule.alternatives)?;
    }
    Ok(found)
}

/// Puts these symbols behind the others.
fn push_symbols<'a>(found: &mut Vec<&'a Symbol>, symbols: &'a [Symbol]) -> Result<(), AllocError>
    ensures { OnOk result (symbols_at found.new.items ≡ symbols_at found.old.items ++ symbols_of symbols.now) }
{
    'symbols: for symbol in symbols {
        found.push(symbol)?;
    }
    Ok(())
}

/// Collects the symbols of these lines.
pub(crate) fn line_symbols<'a>(
    alloc: Global,
    lines: &'a [Line],
) -> Result<Vec<&'a Symbol>, AllocError>
    ensures { IfOk result (λ found. symbols_at found.items ≡ flat_map (λ l. l) (map line_of lines.now)) }
{
    let mut found = Vec::with_capacity(alloc, lines.len())?;
    'lines: for line in lines {
        push_symbols(&mut found, &line.items)?;
    }
    Ok(found)
}

/// Puts symbols from `next` on behind the others, as long as they begin before a byte offset. Returns the index of
/// the first that doesn't.
fn push_before<'a>(
    found: &mut Vec<&'a Symbol>,
    symbols: &[&'a Symbol],
    next: usize,
    offset: usize,
) -> Result<usize, AllocError>
    requires { next ≤ length symbols.now }
    ensures within { IfOk result (λ at. at ≤ length symbols.now) }
    ensures put_by_offset { (v : WordText) → (rest : List WordText → List WordText) → v.span.start ≡ offset →
        IfOk result (λ at. words_in (symbols_at found.new.items) ++ v ∷ rest (drop at (words_in (symbols_at symbols.now)))
        ≡ words_in (symbols_at found.old.items) ++ put_by_offset v rest (drop next (words_in (symbols_at symbols.now)))) }
{
    let mut at = next;
    'scan: while at < symbols.len() {
        let symbol = symbols[at];
        if symbol.span().start() >= offset {
            return Ok(at);
        }
        found.push(symbol)?;
        at += 1;
    }
    Ok(at)
}

/// Puts these symbols behind the others.
fn push_refs<'a>(found: &mut Vec<&'a Symbol>, symbols: &[&'a Symbol]) -> Result<(), AllocError>
    ensures { OnOk result (symbols_at found.new.items ≡ symbols_at found.old.items ++ symbols_at symbols.now) }
{
    'symbols: for symbol in symbols {
        found.push(symbol)?;
    }
    Ok(())
}

/// Joins two lists of symbols, each in the order of the text, to one in this order.
fn by_offset<'a>(
    alloc: Global,
    symbols: &'a [Symbol],
    others: &[&'a Symbol],
) -> Result<Vec<&'a Symbol>, AllocError>
    ensures { IfOk result (λ found. words_in (symbols_at found.items) ≡ by_offset (words_in (symbols_of symbols.now)) (words_in (symbols_at others.now))) }
{
    let mut found = Vec::with_capacity(alloc, symbols.len())?;
    let mut next = 0usize;
    'symbols: for symbol in symbols {
        next = push_before(&mut found, others, next, symbol.span().start())?;
        found.push(symbol)?;
    }
    push_refs(&mut found, &others[next..])?;
    Ok(found)
}

/// Collects the tokens of `%token` and of `%implicit_tokens`, in the order of the text.
fn told_tokens<'a>(alloc: Global, x: &'a Syntax) -> Result<Vec<&'a Symbol>, AllocError>
    ensures { IfOk result (λ found. words_in (symbols_at found.items)
        ≡ by_offset (declared_tokens (syntax_of x.now)) (implicit_tokens_of (syntax_of x.now))) }
{
    let implicit = line_symbols(alloc, &x.implicit_tokens)?;
    let found = by_offset(alloc, &x.tokens, &implicit)?;
    Ok(found)
}

/// Notes the names that `%token` declares.
fn note_declared(table: &mut NameTable, symbols: &[Symbol]) -> Result<(), AllocError>
    ensures { OnOk result (known_of table.new ≡ fold with_declared (known_of table.old) (words_in (symbols_of symbols.now))) }
{
    'symbols: for symbol in symbols {
        table.note_declared(symbol.name())?;
    }
    Ok(())
}

/// Notes the names of rules.
fn note_rules(table: &mut NameTable, rules: &[Rule]) -> Result<(), AllocError>
    ensures { OnOk result (known_of table.new ≡ fold with_rule_name (known_of table.old) (map (λ r. r.name) (map rule_of rules.now))) }
{
    'rules: for rule in rules {
        table.note_rule(&rule.name)?;
    }
    Ok(())
}

/// Notes these tokens.
fn note_tokens(alloc: Global, table: &mut NameTable, symbols: &[&Symbol]) -> Result<(), AllocError>
    ensures { OnOk result (known_of table.new ≡ fold with_token (known_of table.old) (words_in (symbols_at symbols.now))) }
{
    'symbols: for symbol in symbols {
        table.note_token(alloc, symbol.name(), symbol.span())?;
    }
    Ok(())
}

/// Notes what the names of a text mean, as far as it is known before its alternatives.
fn note_all(alloc: Global, table: &mut NameTable, x: &Syntax) -> Result<(), AllocError>
    requires { known_of table.old ≡ no_names }
    ensures { OnOk result (known_of table.new ≡ known_before (syntax_of x.now)) }
{
    note_declared(table, &x.tokens)?;
    note_rules(table, &x.rules)?;
    let told = told_tokens(alloc, x)?;
    note_tokens(alloc, table, &told)?;
    Ok(())
}

/// Returns what the names of a text mean, as far as it is known before its alternatives.
pub(crate) fn table_of(alloc: Global, names: NameSet, x: &Syntax) -> Result<NameTable, AllocError>
    ensures { IfOk result (λ t. known_of t ≡ known_before (syntax_of x.now)) }
{
    let room = names.len().saturating_sub(x.rules.len());
    let mut table = NameTable::of(alloc, names, room)?;
    match note_all(alloc, &mut table, x) {
        Ok(()) => Ok(table),
        Err(e) => {
            drop(table);
            Err(e)
        }
    }
}
