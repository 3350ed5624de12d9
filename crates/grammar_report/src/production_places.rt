//! Where a text has its productions and their tokens.

ghost use Rattle.std.specs.Prelude.{◌≡◌, ◌-◌, length, map, slice_get, take};
ghost use Rattle.std.specs.Option.{option_and_then};
ghost use Rattle.cfg_theory.specs.Grammar.{body_of};
ghost use Rattle.cfg_read.specs.AstModels.{ast_symbol_of};
ghost use Rattle.grammar_report.specs.Places.{production_place, token_count, token_place, token_places};

use cfg_base::index::IndexStorage;
use cfg_base::span::Span;
use cfg_base::symbol::{PIdx, SIdx, Symbol};
use cfg_read::yacc::ast::{self, GrammarAST};
use conflict_examples::ConflictExample;
use grammar_names::{Grammar, prod_body};
use parser_kit::ParserKit;

/// Returns where a production stands. One that is added to those of the text has no place.
pub fn production_span(ast: &GrammarAST, pidx: PIdx<u32>) -> Option<Span>
    ensures { result ≡ production_place ast.now pidx.0 }
{
    let production = ast.prods().get(pidx.0.to_usize())?;
    Some(production.prod_span())
}

/// Returns how many tokens a production has before the dot.
fn tokens_before(grm: &Grammar, pidx: PIdx<u32>, dot: SIdx<u32>) -> usize
    ensures { result ≡ token_count (take dot.0 (body_of grm.now.grammar pidx.0)) }
{
    let body = prod_body(grm, pidx);
    let mut count: usize = 0;
    'symbols: for index in 0..dot.0.to_usize().min(body.len()) {
        if let Symbol::Token(_) = body[index] {
            count = count.saturating_add(1);
        }
    }
    count
}

/// Returns where the token of this number stands among the tokens of a production, counted from nought.
fn nth_token_span(symbols: &[ast::Symbol], number: usize) -> Option<Span>
    ensures { result ≡ slice_get (token_places (map ast_symbol_of symbols.now)) number }
{
    let mut left = number;
    'symbols: for symbol in symbols {
        if let ast::Symbol::Token(_, span) = symbol {
            if left == 0 {
                return Some(*span);
            }
            left = left.saturating_sub(1);
        }
    }
    None
}

/// Returns where the token of an example of a shift is shifted: in the production of the item, if the text has it. The rules
/// that may follow the tokens of a production, where its kind has implicit tokens, are passed over: the text doesn't have them.
pub fn shift_span(kit: &ParserKit<u32>, example: &ConflictExample<u32>) -> Option<Span>
    ensures { let spine = example.now.first.spine.items in result ≡ option_and_then (token_place kit.now.kept.ast kit.now.parser.grammar.grammar) (slice_get spine (length spine - 1)) }
{
    let (pidx, dot) = *example.first.spine.as_slice().last()?;
    let production = kit.ast().prods().get(pidx.0.to_usize())?;
    nth_token_span(production.symbols(), tokens_before(kit.grm(), pidx, dot))
}
