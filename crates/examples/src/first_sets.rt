//! Shows for each rule of a grammar whether it is nullable, and its FIRST and FOLLOW sets; of a text that has no grammar
//! the errors, with their lines and columns.
//!
//! The clauses of `is_nullable`, `begins` and `follows` speak of derivations. They are proved by `AreFirsts` and `AreFollows`,
//! the clauses of the library's calls `firsts` and `follows`. Sets that lack a token that comes after a nullable rule, or
//! hold one that no derivation shows, would break them.
ghost use Rattle.std.specs.Prelude.{◌↔◌, ◌<◌, [], ◌∷◌, IsTrue};
ghost use Rattle.cfg_theory.specs.Grammar.{rule};
ghost use Rattle.cfg_theory.specs.Derivation.{Nullable, IsFirst, IsFollow};
ghost use Rattle.cfg_sets.specs.Firsts.{AreFirsts};
ghost use Rattle.cfg_sets.specs.Follows.{AreFollows};

mod report;

use cfgrammar::index::IndexStorage;
use cfgrammar::yacc::{NumberedGrammar, YaccFirsts, YaccFollows};
use cfgrammar::{RIdx, TIdx};
use std::alloc::{AllocError, Global};

/// Returns whether the rule derives the empty list.
fn is_nullable<S: IndexStorage>(
    grm: &NumberedGrammar<S>,
    firsts: &YaccFirsts<S>,
    ridx: RIdx<S>,
) -> bool
    requires rule { S.number ridx.0 < grm.now.grammar.rules }
    requires firsts { AreFirsts grm.now.grammar firsts.now }
    ensures { IsTrue result ↔ Nullable grm.now.grammar (rule (S.number ridx.0) ∷ []) }
{
    firsts.is_epsilon_set(ridx)
}

/// Returns whether a list that the rule derives begins with the token.
fn begins<S: IndexStorage>(
    grm: &NumberedGrammar<S>,
    firsts: &YaccFirsts<S>,
    ridx: RIdx<S>,
    tidx: TIdx<S>,
) -> bool
    requires rule { S.number ridx.0 < grm.now.grammar.rules }
    requires token { S.number tidx.0 < grm.now.grammar.tokens }
    requires firsts { AreFirsts grm.now.grammar firsts.now }
    ensures { IsTrue result ↔ IsFirst grm.now.grammar (rule (S.number ridx.0) ∷ []) (S.number tidx.0) }
{
    firsts.is_set(ridx, tidx)
}

/// Returns whether the token comes right after the rule in a list that the start rule derives.
fn follows<S: IndexStorage>(
    grm: &NumberedGrammar<S>,
    sets: &YaccFollows<S>,
    ridx: RIdx<S>,
    tidx: TIdx<S>,
) -> bool
    requires rule { S.number ridx.0 < grm.now.grammar.rules }
    requires token { S.number tidx.0 < grm.now.grammar.tokens }
    requires sets { AreFollows grm.now.grammar sets.now }
    ensures { IsTrue result ↔ IsFollow grm.now.grammar (S.number ridx.0) (S.number tidx.0) }
{
    sets.is_set(ridx, tidx)
}

const NESTED: &str = "%start S\n%%\nS: A 'b';\nA: 'a' A | ;\n";

const WRONG: &str = "%start S\n%%\nS: 'a' T;\nU: 'é' V;\n";

/// Returns the output for a grammar and for a text that has none.
pub fn output(alloc: Global) -> Result<String, AllocError> {
    let mut out = report::report_on(alloc, NESTED)?;
    out.push_str(report::report_on(alloc, WRONG)?.as_str())?;
    Ok(out)
}
