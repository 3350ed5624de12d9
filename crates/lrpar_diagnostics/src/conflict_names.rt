//! Names, spans and symbols by which conflicts are shown.

ghost use Rattle.std.specs.Prelude.{◌≡◌, ◌<◌, ℕ, length, slice_get, map, IfOk, IfSome, option_map, Some};
ghost use Rattle.cfg_theory.specs.Grammar.{head_of};
ghost use Rattle.cfg_read.specs.AstModels.{ast_symbol_of, production_of};
ghost use Rattle.lrpar_diagnostics.specs.ProductionMarks.{spans_of, production_spans};
ghost use Rattle.lrpar_diagnostics.specs.ConflictTexts.{rule_name, rule_span, shown_token, token_span, IsSpanOfToken};

use cfg_base::index::IndexStorage;
use cfg_base::span::Span;
use cfg_base::symbol::{PIdx, RIdx, TIdx};
use cfg_numbered::yacc::NumberedGrammar;
use cfg_read::yacc::ast::{GrammarAST, Production, Symbol};
use std::alloc::{AllocError, Global};

/// Returns the rule of a production.
fn rule_of<S: IndexStorage>(grm: &NumberedGrammar<S>, pidx: PIdx<S>) -> RIdx<S>
    requires { S.number pidx.0 < length grm.now.grammar.productions }
    ensures value { S.number result.0 ≡ head_of grm.now.grammar (S.number pidx.0) }
    ensures within { S.number result.0 < grm.now.grammar.rules }
{
    // Called for its clause that the grammar is well formed.
    let _start = grm.start_prod();
    grm.prod_to_rule(pidx)
}

/// Returns the name of the rule of a production.
pub(crate) fn rule_name<S: IndexStorage>(grm: &NumberedGrammar<S>, pidx: PIdx<S>) -> &str
    requires { S.number pidx.0 < length grm.now.grammar.productions }
    ensures { result.now ≡ rule_name grm.now (S.number pidx.0) }
{
    grm.rule_name_str(rule_of(grm, pidx))
}

/// Returns the span of the name of a production's rule in the text.
pub(crate) fn rule_span<S: IndexStorage>(grm: &NumberedGrammar<S>, pidx: PIdx<S>) -> Span
    requires { S.number pidx.0 < length grm.now.grammar.productions }
    ensures { result ≡ rule_span grm.now (S.number pidx.0) }
{
    grm.rule_name_span(rule_of(grm, pidx))
}

/// Returns the name of a token; `$` for the end token.
pub(crate) fn shown_token<S: IndexStorage>(grm: &NumberedGrammar<S>, tidx: TIdx<S>) -> &str
    ensures { result.now ≡ shown_token grm.now (S.number tidx.0) }
{
    if !grm.has_token(tidx) {
        return "$";
    }
    grm.token_name(tidx).unwrap_or("$")
}

/// Returns the span of a token in the text; `dollar` for the end token.
pub(crate) fn token_span<S: IndexStorage>(
    grm: &NumberedGrammar<S>,
    dollar: &Option<Span>,
    tidx: TIdx<S>,
) -> Option<Span>
    ensures { result ≡ token_span grm.now dollar.now (S.number tidx.0) }
{
    if tidx.0.to_usize() == grm.eof_token_idx().0.to_usize() {
        return *dollar;
    }
    if !grm.has_token(tidx) {
        return None;
    }
    grm.token_span(tidx)
}

/// Returns the span of the token of this name.
pub(crate) fn span_of_token<S: IndexStorage>(grm: &NumberedGrammar<S>, name: &str) -> Option<Span>
    ensures { IsSpanOfToken grm.now name.now result }
{
    match grm.token_idx(name) {
        Some(tidx) => grm.token_span(tidx),
        None => None,
    }
}

fn span_of_symbol(symbol: &Symbol) -> Span
    ensures { result ≡ (ast_symbol_of symbol.now).word.span }
{
    match symbol {
        Symbol::Rule(_, span) => *span,
        Symbol::Token(_, span) => *span,
    }
}

fn spans_of_symbols(alloc: Global, symbols: &[Symbol]) -> Result<Vec<Span>, AllocError>
    ensures { IfOk result (λ spans. spans.items ≡ map (λ s. s.word.span) (map ast_symbol_of symbols.now)) }
{
    let mut spans = Vec::new(alloc);
    'symbols: for i in 0..symbols.len() {
        spans.push(span_of_symbol(&symbols[i]))?;
    }
    Ok(spans)
}

/// Returns the spans of a production's symbols; without these its own.
fn spans_of(alloc: Global, production: &Production) -> Result<Vec<Span>, AllocError>
    ensures { IfOk result (λ spans. spans.items ≡ spans_of (production_of production.now)) }
{
    let mut spans = spans_of_symbols(alloc, production.symbols())?;
    if spans.is_empty() {
        spans.push(production.prod_span())?;
    }
    Ok(spans)
}

/// Returns the spans of the symbols of the production of this number; (0, 0) for one past the text's productions.
pub(crate) fn production_spans(
    alloc: Global,
    ast: &GrammarAST,
    number: usize,
) -> Result<Vec<Span>, AllocError>
    ensures { IfOk result (λ spans. spans.items ≡ production_spans ast.now number) }
{
    match ast.prods().get(number) {
        Some(production) => spans_of(alloc, production),
        None => {
            let mut spans = Vec::new(alloc);
            spans.push(Span::new(0, 0))?;
            Ok(spans)
        }
    }
}
