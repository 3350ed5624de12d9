//! The steps from what is kept of a text to a kit.

ghost use Rattle.std.specs.Prelude.{◌≡◌, ℕ, IfOk, IfErr, OnOk};
ghost use Rattle.parser_kit.specs.Kit.{grammar_of};
ghost use Rattle.parser_kit.specs.KitErrors.{HasFitting, IsKeptRefusal};
ghost use Rattle.parser_kit.specs.Tabled.{HasTabledCause, IsTabled, IsTabledRefusal, NeverAcceptsAndReduces};

use crate::grammar_kit::GrammarKit;
use crate::kit_error::KitError;
use cfg_base::index::IndexStorage;
use cfg_numbered::yacc::NumberedGrammar;
use cfgrammar::yacc::{ASTWithValidityInfo, YaccGrammar, YaccGrammarMakeError};
use std::alloc::Global;

/// The grammar of what is kept of a text.
fn grammar_in<S: IndexStorage>(
    alloc: Global,
    kept: &ASTWithValidityInfo,
) -> Result<NumberedGrammar<S>, KitError<S>>
    ensures fits { OnOk result (HasFitting S.MAX kept.now) }
    ensures made { IfOk result (λ g. g ≡ grammar_of kept.now) }
    ensures refused { (cap : ℕ) → IfErr result (IsKeptRefusal S.MAX kept.now (λ v. IsTabledRefusal S.number S.MAX v cap)) }
    ensures crowded { IfErr result (IsKeptRefusal S.MAX kept.now (λ v. HasTabledCause S.number S.MAX v)) }
{
    match YaccGrammar::new_from_ast_with_validity_info(alloc, kept) {
        Ok(grm) => Ok(grm.into_numbered()),
        Err(YaccGrammarMakeError::Memory(e)) => Err(KitError::Memory(e)),
        Err(YaccGrammarMakeError::Invalid(errors)) => Err(KitError::Grammar(errors)),
        Err(YaccGrammarMakeError::TooMany(count)) => Err(KitError::TooMany(count)),
    }
}

/// The kit of the grammar of what is kept of a text.
pub(crate) fn kit_in<S: IndexStorage>(
    alloc: Global,
    kept: &ASTWithValidityInfo,
    cap: u16,
) -> Result<GrammarKit<S>, KitError<S>>
    ensures fits { OnOk result (HasFitting S.MAX kept.now) }
    ensures grammar { IfOk result (λ k. k.grammar ≡ grammar_of kept.now) }
    ensures cap { IfOk result (λ k. k.cap ≡ cap) }
    ensures tabled { IfOk result (IsTabled S.MAX) }
    ensures refused { IfErr result (IsKeptRefusal S.MAX kept.now (λ v. IsTabledRefusal S.number S.MAX v cap)) }
    ensures crowded { IfErr result (IsKeptRefusal S.MAX kept.now (λ v. HasTabledCause S.number S.MAX v)) }
    ensures accepts { OnOk result (NeverAcceptsAndReduces (grammar_of kept.now).grammar) }
{
    let grm = grammar_in(alloc, kept)?;
    match GrammarKit::new(alloc, grm, cap) {
        Ok(kit) => Ok(kit),
        Err(e) => Err(KitError::from(e)),
    }
}
