//! Whether the rules, the start rule and the levels that were read in a text are those of a Bison file.

ghost use Rattle.std.specs.Prelude.{◌≡◌, map, option_map};
ghost use Rattle.std.specs.List.{list_any};
ghost use Rattle.cfg_read.specs.SyntaxTexts.{WordText};
ghost use Rattle.cfg_read.specs.SyntaxModels.{symbol_of, symbols_of, alternative_of, rule_of, syntax_of, level_of, words_of};
ghost use Rattle.bison_rules.specs.Rules.{alias_of};
ghost use Rattle.bison_rules.specs.Models as bison;
ghost use Rattle.checked_import.specs.Spelling.{all_pairs};
ghost use Rattle.checked_import.specs.SameRules as spec;

use crate::spelling::{is_quoted, spells};
use bison_rules::{Alias, BisonFile, Body, Level as BisonLevel, Rule as BisonRule};
use cfg_read::yacc::AssocKind;
use cfg_read::yacc::parser::syntax::{Alternative, Level, Rule, Symbol, Syntax, Word};

/// Returns the token that a symbol stands for: the one of its first alias, or itself.
fn token_of<'a>(aliases: &'a [Alias], symbol: &'a [u8]) -> &'a [u8]
    ensures { result.now ≡ alias_of (map bison.alias_pair aliases.now) symbol.now }
{
    'aliases: for alias in aliases {
        if alias.string.as_slice() == symbol {
            return alias.token.as_slice();
        }
    }
    symbol
}

/// Returns whether a symbol is the one that was read.
fn same_symbol(aliases: &[Alias], symbol: &[u8], read: &Symbol) -> bool
    ensures { result ≡ spec.same_symbol (map bison.alias_pair aliases.now) symbol.now (symbol_of read.now) }
{
    let token = token_of(aliases, symbol);
    match read {
        Symbol::Rule(name, _) => spells(token, name.as_str().as_bytes()) && !is_quoted(token),
        Symbol::Token(name, _) => spells(token, name.as_str().as_bytes()) && is_quoted(token),
    }
}

/// Returns whether the symbols of an alternative are those that were read.
fn same_symbols(aliases: &[Alias], symbols: &[Vec<u8>], read: &[Symbol]) -> bool
    ensures { result ≡ all_pairs (spec.same_symbol (map bison.alias_pair aliases.now)) (map bison.bytes_of symbols.now) (symbols_of read.now) }
{
    if symbols.len() != read.len() {
        return false;
    }
    'symbols: for i in 0..symbols.len() {
        if !same_symbol(aliases, symbols[i].as_slice(), &read[i]) {
            return false;
        }
    }
    true
}

/// Returns whether a token is among those of a level.
fn is_in_level(token: &[u8], level: &Level) -> bool
    ensures { result ≡ spec.is_in_level token.now (level_of level.now) }
{
    'tokens: for symbol in level.tokens.as_slice() {
        if spells(token, symbol.name().as_str().as_bytes()) {
            return true;
        }
    }
    false
}

/// Returns whether a token is among those of any level.
fn has_level(token: &[u8], levels: &[Level]) -> bool
    ensures { result ≡ list_any (spec.is_in_level token.now) (map level_of levels.now) }
{
    'levels: for level in levels {
        if is_in_level(token, level) {
            return true;
        }
    }
    false
}

/// Returns the token of the `%prec` of an alternative that was read.
fn prec_of(read: &Alternative) -> Option<&str>
    ensures { option_map (λ s. s.now) result ≡ option_map (λ (w : WordText). w.text) (alternative_of read.now).precedence }
{
    match read {
        Alternative::Body(body) => match &body.precedence {
            Some(word) => Some(word.text.as_str()),
            None => None,
        },
        _ => None,
    }
}

/// Returns whether the token of a `%prec` is the one that was read, or is left out and has no level.
fn same_prec(aliases: &[Alias], levels: &[Level], body: &Body, read: &Alternative) -> bool
    ensures { result ≡ spec.same_prec (map bison.alias_pair aliases.now) (map level_of levels.now) (bison.body_of body.now).prec (alternative_of read.now).precedence }
{
    match (&body.prec, prec_of(read)) {
        (None, None) => true,
        (None, Some(_)) => false,
        (Some(token), Some(text)) => spells(token_of(aliases, token.as_slice()), text.as_bytes()),
        (Some(token), None) => !has_level(token_of(aliases, token.as_slice()), levels),
    }
}

/// Returns whether an alternative is the one that was read.
fn same_body(aliases: &[Alias], levels: &[Level], body: &Body, read: &Alternative) -> bool
    ensures { result ≡ spec.same_body (map bison.alias_pair aliases.now) (map level_of levels.now) (bison.body_of body.now) (alternative_of read.now) }
{
    same_symbols(aliases, body.symbols.as_slice(), read.symbols())
        && same_prec(aliases, levels, body, read)
}

/// Returns whether alternatives are those that were read.
fn same_bodies(aliases: &[Alias], levels: &[Level], bodies: &[Body], read: &[Alternative]) -> bool
    ensures { result ≡ all_pairs (spec.same_body (map bison.alias_pair aliases.now) (map level_of levels.now)) (map bison.body_of bodies.now) (map alternative_of read.now) }
{
    if bodies.len() != read.len() {
        return false;
    }
    'bodies: for i in 0..bodies.len() {
        if !same_body(aliases, levels, &bodies[i], &read[i]) {
            return false;
        }
    }
    true
}

/// Returns whether a rule is the one that was read.
fn same_rule(aliases: &[Alias], levels: &[Level], rule: &BisonRule, read: &Rule) -> bool
    ensures { result ≡ spec.same_rule (map bison.alias_pair aliases.now) (map level_of levels.now) (bison.rule_of rule.now) (rule_of read.now) }
{
    spells(rule.head.as_slice(), read.name.as_str().as_bytes())
        && same_bodies(
            aliases,
            levels,
            rule.bodies.as_slice(),
            read.alternatives.as_slice(),
        )
}

/// Returns whether rules are those that were read.
fn same_lists(aliases: &[Alias], levels: &[Level], rules: &[BisonRule], read: &[Rule]) -> bool
    ensures { result ≡ all_pairs (spec.same_rule (map bison.alias_pair aliases.now) (map level_of levels.now)) (map bison.rule_of rules.now) (map rule_of read.now) }
{
    if rules.len() != read.len() {
        return false;
    }
    'rules: for i in 0..rules.len() {
        if !same_rule(aliases, levels, &rules[i], &read[i]) {
            return false;
        }
    }
    true
}

/// Returns whether the rules that were read are those of a Bison file.
pub fn same_rules(file: &BisonFile, read: &Syntax) -> bool
    ensures { result ≡ spec.same_rules (bison.file_of file.now) (syntax_of read.now) }
{
    same_lists(
        file.aliases.as_slice(),
        read.levels.as_slice(),
        file.rules.as_slice(),
        read.rules.as_slice(),
    )
}

/// Returns whether start rules are those that were read.
fn same_words(starts: &[Vec<u8>], read: &[Word]) -> bool
    ensures { result ≡ all_pairs spec.same_start (map bison.bytes_of starts.now) (words_of read.now) }
{
    if starts.len() != read.len() {
        return false;
    }
    'starts: for i in 0..starts.len() {
        if !spells(starts[i].as_slice(), read[i].text.as_str().as_bytes()) {
            return false;
        }
    }
    true
}

/// Returns whether the start rules that were read are those of a Bison file.
pub fn same_starts(file: &BisonFile, read: &Syntax) -> bool
    ensures { result ≡ spec.same_starts (bison.file_of file.now) (syntax_of read.now) }
{
    same_words(file.starts.as_slice(), read.starts.as_slice())
}

/// Returns whether a directive has this associativity.
fn is_kind(word: &[u8], kind: AssocKind) -> bool
    ensures { result ≡ spec.is_kind word.now kind }
{
    match kind {
        AssocKind::Left => word == b"%left".as_slice(),
        AssocKind::Right => word == b"%right".as_slice(),
        AssocKind::Nonassoc => !(word == b"%left".as_slice() || word == b"%right".as_slice()),
    }
}

/// Returns whether a level is the one that was read.
fn same_level(aliases: &[Alias], level: &BisonLevel, read: &Level) -> bool
    ensures { result ≡ spec.same_level (map bison.alias_pair aliases.now) (bison.level_of level.now) (level_of read.now) }
{
    is_kind(level.word.as_slice(), read.kind)
        && same_symbols(aliases, level.symbols.as_slice(), read.tokens.as_slice())
}

/// Returns whether levels are those that were read, but for some of `%precedence`.
fn same_level_lists(aliases: &[Alias], levels: &[BisonLevel], read: &[Level]) -> bool
    ensures { result ≡ spec.same_levels (map bison.alias_pair aliases.now) (map bison.level_of levels.now) (map level_of read.now) }
{
    let mut rest = read;
    'levels: for level in levels {
        if let [first, more @ ..] = rest
            && same_level(aliases, level, first)
        {
            rest = more;
        } else if level.word.as_slice() != b"%precedence".as_slice() {
            return false;
        }
    }
    rest.is_empty()
}

/// Returns whether the levels that were read are those of a Bison file.
pub fn same_levels(file: &BisonFile, read: &Syntax) -> bool
    ensures { result ≡ spec.same_levels (bison.file_of file.now).aliases (bison.file_of file.now).levels (syntax_of read.now).levels }
{
    same_level_lists(
        file.aliases.as_slice(),
        file.levels.as_slice(),
        read.levels.as_slice(),
    )
}
