//! Names of symbols, productions and items.

ghost use Rattle.std.specs.Prelude.{◌≡◌, ◌+◌, ◌++◌, codes, drop, length, OnOk};
ghost use Rattle.std.specs.String.{string_bytes};
ghost use Rattle.cfg_theory.specs.Grammar.{body_of};
ghost use Rattle.cfg_numbered.specs.Symbols.{sym_of, syms_of};
ghost use Rattle.grammar_names.specs.Names.{form_text, head_text, item_text, prod_text, rule_text, spaced, symbol_text, symbols_text, token_text};

use cfg_base::index::IndexStorage;
use cfg_base::symbol::{PIdx, RIdx, SIdx, Symbol, TIdx};
use cfg_numbered::yacc::NumberedGrammar;
use std::alloc::AllocError;

/// A grammar, as names of it are asked for.
pub type Grammar = NumberedGrammar<u32>;

/// Returns the name of a token; `$` for the end token.
pub fn token_name(grm: &Grammar, tidx: TIdx<u32>) -> &str
    ensures { result.now ≡ token_text grm.now tidx.0 }
{
    if !grm.has_token(tidx) {
        return "$";
    }
    grm.token_name(tidx).unwrap_or("$")
}

/// Returns the name of a rule; none of one that the grammar doesn't have.
fn rule_name(grm: &Grammar, ridx: RIdx<u32>) -> &str
    ensures { result.now ≡ rule_text grm.now ridx.0 }
{
    if !grm.has_rule(ridx) {
        return "";
    }
    grm.rule_name_str(ridx)
}

/// Returns the name of a symbol.
pub fn symbol_name(grm: &Grammar, symbol: Symbol<u32>) -> &str
    ensures { result.now ≡ symbol_text grm.now (sym_of (λ n. n) symbol) }
{
    match symbol {
        Symbol::Rule(ridx) => rule_name(grm, ridx),
        Symbol::Token(tidx) => token_name(grm, tidx),
    }
}

/// Returns the symbols of a production.
pub fn prod_body(grm: &Grammar, pidx: PIdx<u32>) -> &[Symbol<u32>]
    ensures { syms_of (λ n. n) result.now ≡ body_of grm.now.grammar pidx.0 }
{
    if !grm.has_prod(pidx) {
        return &[];
    }
    grm.prod(pidx)
}

/// Returns how many symbols a production has.
pub fn body_len(grm: &Grammar, pidx: PIdx<u32>) -> usize
    ensures { result ≡ length (body_of grm.now.grammar pidx.0) }
{
    prod_body(grm, pidx).len()
}

/// Returns the symbols behind the rule after the dot.
#[tactic(auto, using(crate::proofs::Bodies::map_drop))]
pub fn symbols_behind(grm: &Grammar, item: (PIdx<u32>, SIdx<u32>)) -> &[Symbol<u32>]
    ensures { syms_of (λ n. n) result.now ≡ drop (item.1.0 + 1) (body_of grm.now.grammar item.0.0) }
{
    let (pidx, dot) = item;
    let body = prod_body(grm, pidx);
    let (_, behind) = body.split_at(dot.0.to_usize().saturating_add(1).min(body.len()));
    behind
}

/// Adds a word.
pub fn push_word(text: &mut String, word: &str) -> Result<(), AllocError>
    ensures { OnOk result (string_bytes text.new ≡ string_bytes text.old ++ spaced word.now) }
{
    text.push(' ')?;
    text.push_str(word)
}

/// Adds a token.
pub fn push_token(text: &mut String, grm: &Grammar, tidx: TIdx<u32>) -> Result<(), AllocError>
    ensures { OnOk result (string_bytes text.new ≡ string_bytes text.old ++ spaced (token_text grm.now tidx.0)) }
{
    push_word(text, token_name(grm, tidx))
}

/// Adds symbols.
pub fn push_symbols(
    text: &mut String,
    grm: &Grammar,
    symbols: &[Symbol<u32>],
) -> Result<(), AllocError>
    ensures { OnOk result (string_bytes text.new ≡ string_bytes text.old ++ symbols_text grm.now (syms_of (λ n. n) symbols.now)) }
{
    'symbols: for symbol in symbols {
        push_word(text, symbol_name(grm, *symbol))?;
    }
    Ok(())
}

/// Adds symbols, and `%empty` in place of none.
pub fn push_body(
    text: &mut String,
    grm: &Grammar,
    symbols: &[Symbol<u32>],
) -> Result<(), AllocError>
    ensures { OnOk result (string_bytes text.new ≡ string_bytes text.old ++ form_text grm.now (syms_of (λ n. n) symbols.now)) }
{
    if symbols.is_empty() {
        return push_word(text, "%empty");
    }
    push_symbols(text, grm, symbols)
}

/// Adds the front of a production: `RULE:`.
fn push_head(text: &mut String, grm: &Grammar, pidx: PIdx<u32>) -> Result<(), AllocError>
    ensures { OnOk result (string_bytes text.new ≡ string_bytes text.old ++ head_text grm.now pidx.0) }
{
    if grm.has_prod(pidx) {
        text.push_str(rule_name(grm, grm.prod_to_rule(pidx)))?;
    }
    text.push(':')
}

/// Adds a production: `RULE: X Y`.
pub fn push_prod(text: &mut String, grm: &Grammar, pidx: PIdx<u32>) -> Result<(), AllocError>
    ensures { OnOk result (string_bytes text.new ≡ string_bytes text.old ++ prod_text grm.now pidx.0) }
{
    push_head(text, grm, pidx)?;
    push_body(text, grm, prod_body(grm, pidx))
}

/// Adds a production with a dot: `RULE: X . Y`.
pub fn push_item(
    text: &mut String,
    grm: &Grammar,
    pidx: PIdx<u32>,
    dot: SIdx<u32>,
) -> Result<(), AllocError>
    ensures { OnOk result (string_bytes text.new ≡ string_bytes text.old ++ item_text grm.now pidx.0 dot.0) }
{
    push_head(text, grm, pidx)?;
    let body = prod_body(grm, pidx);
    let (before, after) = body.split_at(dot.0.to_usize().min(body.len()));
    push_symbols(text, grm, before)?;
    push_word(text, ".")?;
    push_symbols(text, grm, after)
}

/// Adds a line.
pub fn push_line(text: &mut String, line: &str) -> Result<(), AllocError>
    ensures { OnOk result (string_bytes text.new ≡ string_bytes text.old ++ (line.now ++ codes "\n")) }
{
    text.push_str(line)?;
    text.push('\n')
}
