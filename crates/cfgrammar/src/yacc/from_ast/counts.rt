//! Counts, and whether they fit an index type.

ghost use Rattle.std.specs.Prelude.{◌≡◌, ℕ, length, map, nat_le};
ghost use Rattle.std.specs.List.{flat_map};
ghost use Rattle.cfg_read.specs.AstModels.{ast_symbol_of};
ghost use Rattle.cfg_read.specs.Asts.{Ast};
ghost use Rattle.cfgrammar.specs.FromAst as tree;

use super::TooMany;
use cfg_base::index::IndexStorage;
use cfg_read::yacc::ast::{GrammarAST, Symbol};

/// Whether the index type has a number for each of so many.
fn fits<S: IndexStorage>(count: usize) -> bool
    ensures { result ≡ nat_le count S.MAX }
{
    S::from_usize(count).is_some()
}

fn count_rules(ast: &GrammarAST, implicit: bool) -> usize
    ensures { result ≡ length (tree.rules_of implicit ast.now) }
{
    let rules = ast.rules().len() + 1;
    if implicit { rules + 2 } else { rules }
}

fn count_prods(ast: &GrammarAST, implicit: bool) -> usize
    ensures { result ≡ tree.as_told (length (tree.productions_of implicit ast.now)) }
{
    let prods = ast.prods().len().saturating_add(1);
    if implicit {
        prods.saturating_add(ast.implicit_tokens().len() + 2)
    } else {
        prods
    }
}

fn count_tokens(ast: &GrammarAST) -> usize
    ensures { result ≡ length (tree.tokens_of ast.now) }
{
    ast.tokens().len() + 1
}

/// How many symbols of a grammar a symbol stands for.
fn width(symbol: &Symbol, implicit: bool) -> usize
    ensures { (ast : Ast) → result ≡ length (tree.syms_of implicit ast (ast_symbol_of symbol.now)) }
{
    match symbol {
        Symbol::Rule(_name, _span) => 1,
        Symbol::Token(_name, _span) => { if implicit { 2 } else { 1 } }
    }
}

fn count_symbols(symbols: &[Symbol], implicit: bool) -> usize
    ensures { (ast : Ast) → result ≡ tree.as_told (length (flat_map (tree.syms_of implicit ast) (map ast_symbol_of symbols.now))) }
{
    let mut count = 0usize;
    'symbols: for symbol in symbols {
        count = count.saturating_add(width(symbol, implicit));
    }
    count
}

/// Of the longest production.
fn longest(ast: &GrammarAST, implicit: bool) -> usize
    ensures { result ≡ tree.as_told (tree.longest (tree.productions_of implicit ast.now)) }
{
    let mut most = if implicit { 2 } else { 1 };
    'prods: for prod in ast.prods() {
        most = most.max(count_symbols(prod.symbols(), implicit));
    }
    most
}

/// The first count that doesn't fit.
pub(crate) fn too_many<S: IndexStorage>(ast: &GrammarAST, implicit: bool) -> Option<TooMany>
    ensures { result ≡ tree.too_many S.MAX (tree.grammar_of implicit ast.now) }
{
    let rules = count_rules(ast, implicit);
    if !fits::<S>(rules) {
        return Some(TooMany::TooManyRules(rules));
    }
    let prods = count_prods(ast, implicit);
    if !fits::<S>(prods) {
        return Some(TooMany::TooManyProds(prods));
    }
    let tokens = count_tokens(ast);
    if !fits::<S>(tokens) {
        return Some(TooMany::TooManyTokens(tokens));
    }
    let symbols = longest(ast, implicit);
    if !fits::<S>(symbols) {
        return Some(TooMany::TooManySymbols(symbols));
    }
    None
}
