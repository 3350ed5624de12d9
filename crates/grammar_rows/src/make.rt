//! Grammars of texts, and whether a number is one of a grammar's.

ghost use Rattle.std.specs.Prelude.{◌<◌, IsTrue, length};

use cfgrammar::index::IndexStorage;
use cfgrammar::yacc::{
    ASTModificationError, ASTWithValidityInfo, YaccGrammar, YaccGrammarFailure,
    YaccGrammarMakeError, YaccKind,
};
use cfgrammar::{PIdx, RIdx, TIdx};
use std::alloc::{AllocError, Global};

/// Whether this is a rule of the grammar.
pub fn has_rule<S: IndexStorage>(grm: &YaccGrammar<S>, ridx: RIdx<S>) -> bool
    ensures { IsTrue result → S.number ridx.0 < grm.now.grammar.rules }
{
    ridx.0.to_usize() < grm.rules_len().0.to_usize()
}

/// Whether this is a token of the grammar.
pub fn has_token<S: IndexStorage>(grm: &YaccGrammar<S>, tidx: TIdx<S>) -> bool
    ensures { IsTrue result → S.number tidx.0 < grm.now.grammar.tokens }
{
    tidx.0.to_usize() < grm.tokens_len().0.to_usize()
}

/// Whether this is a production of the grammar.
pub fn has_prod<S: IndexStorage>(grm: &YaccGrammar<S>, pidx: PIdx<S>) -> bool
    ensures { IsTrue result → S.number pidx.0 < length grm.now.grammar.productions }
{
    pidx.0.to_usize() < grm.prods_len().0.to_usize()
}

type Made<S> = Result<YaccGrammar<S>, YaccGrammarMakeError>;

/// What a text is kept as, by its kind or by its section.
fn tree_of(
    alloc: Global,
    kind: Option<YaccKind>,
    text: &str,
) -> Result<ASTWithValidityInfo, YaccGrammarMakeError> {
    match kind {
        Some(kind) => match ASTWithValidityInfo::new(alloc, kind, text) {
            Ok(kept) => Ok(kept),
            Err(e) => Err(YaccGrammarMakeError::Memory(e)),
        },
        None => match ASTWithValidityInfo::from_str(alloc, text) {
            Ok(kept) => Ok(kept),
            Err(YaccGrammarFailure::Memory(e)) => Err(YaccGrammarMakeError::Memory(e)),
            Err(YaccGrammarFailure::Invalid(errors)) => Err(YaccGrammarMakeError::Invalid(errors)),
        },
    }
}

/// The grammar that starts at a rule; where there is no such rule, the grammar of the text as it stands.
fn starting_at<S: IndexStorage>(alloc: Global, kept: &ASTWithValidityInfo, start: &str) -> Made<S> {
    match kept.clone_and_change_start_rule(alloc, start) {
        Ok(changed) => {
            let made = YaccGrammar::new_from_ast_with_validity_info(alloc, &changed);
            drop(changed);
            made
        }
        Err(ASTModificationError::Memory(e)) => Err(YaccGrammarMakeError::Memory(e)),
        Err(ASTModificationError::UnknownRule) => {
            YaccGrammar::new_from_ast_with_validity_info(alloc, kept)
        }
    }
}

fn made_at<S: IndexStorage>(
    alloc: Global,
    kind: Option<YaccKind>,
    text: &str,
    start: &str,
) -> Made<S> {
    match tree_of(alloc, kind, text) {
        Ok(kept) => {
            let made = starting_at(alloc, &kept, start);
            drop(kept);
            made
        }
        Err(e) => Err(e),
    }
}

/// The grammar of a text, with another start rule where one is named.
pub fn grammar_of<S: IndexStorage>(
    alloc: Global,
    kind: Option<YaccKind>,
    text: &str,
    start: Option<&str>,
) -> Made<S> {
    match (kind, start) {
        (_, Some(start)) => made_at(alloc, kind, text, start),
        (Some(kind), None) => YaccGrammar::new_with_storaget(alloc, kind, text),
        (None, None) => YaccGrammar::from_str(alloc, text),
    }
}
