//! Shows for each rule of a grammar a shortest list of tokens that it derives, if it derives one; of a text that has no
//! grammar the errors, with their lines and columns.
//!
//! The clause of `cheapest` is proved by the clause `ok` of `SentenceGenerator::min_sentence`. A sentence that isn't
//! the rule's cheapest, or one that the rule doesn't derive, would break it.
ghost use Rattle.std.specs.Prelude.{◌<◌, IfOk, IfSome};
ghost use Rattle.cfg_theory.specs.Cost.{IsCheapest};
ghost use Rattle.cfg_sentences.specs.CostTable.{cost_of};
ghost use Rattle.cfg_sentences.specs.TokenLists.{tokens_of};

mod report;

use cfgrammar::index::IndexStorage;
use cfgrammar::yacc::{SentenceError, SentenceGenerator};
use cfgrammar::{RIdx, TIdx};
use std::alloc::{AllocError, Global};

/// Returns a cheapest list of tokens that the rule derives. `None` where it derives no list, or the cost is past
/// 65,535.
fn cheapest<S: IndexStorage>(
    alloc: Global,
    sentences: &SentenceGenerator<'_, S>,
    ridx: RIdx<S>,
) -> Result<Option<Vec<TIdx<S>>>, AllocError>
    requires { S.number ridx.0 < sentences.now.grammar.rules }
    ensures { IfOk result (λ found. IfSome found (λ list. IsCheapest sentences.now.grammar (cost_of sentences.now.costs) (S.number ridx.0) (tokens_of S.number list.items))) }
{
    match sentences.min_sentence(alloc, ridx) {
        Ok(list) => Ok(Some(list)),
        Err(SentenceError::Memory(e)) => Err(e),
        Err(_) => Ok(None),
    }
}

const STATEMENTS: &str = "%start S
%%
S: 'if' C 'then' S | 'id' '=' E ';';
C: '(' C ')' | E '<' E;
E: E '+' 'n' | 'n';
L: L 'x';
";

const WRONG: &str = "%start S\n%%\nS: 'a' T;\nU: 'é' V;\n";

/// Returns the output for a grammar and for a text that has none.
pub fn output(alloc: Global) -> Result<String, AllocError> {
    let mut out = report::report_on(alloc, STATEMENTS)?;
    out.push_str(report::report_on(alloc, WRONG)?.as_str())?;
    Ok(out)
}
