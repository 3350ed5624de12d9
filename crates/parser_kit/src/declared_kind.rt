//! The kind of a text whose section may name it.

ghost use Rattle.std.specs.Prelude.{IfOk, IfErr};
ghost use Rattle.parser_kit.specs.KitErrors.{IsUntold};
ghost use Rattle.parser_kit.specs.TextKinds.{IsKindOfText};

use crate::kit_error::KitError;
use cfg_base::index::IndexStorage;
use cfg_read::yacc::{YaccGrammarFailure, YaccKind, YaccOriginalActionKind, kind_of};
use std::alloc::Global;

/// Returns the kind that a text's section names, else that of Yacc's own syntax with trees.
pub(crate) fn kind_or_default<S: IndexStorage>(
    alloc: Global,
    text: &str,
) -> Result<YaccKind, KitError<S>>
    ensures kind { IfOk result (IsKindOfText text.now) }
    ensures refused { IfErr result (IsUntold text.now) }
{
    match kind_of(alloc, text) {
        Ok(Some(kind)) => Ok(kind),
        Ok(None) => Ok(YaccKind::Original(YaccOriginalActionKind::GenericParseTree)),
        Err(YaccGrammarFailure::Memory(e)) => Err(KitError::Memory(e)),
        Err(YaccGrammarFailure::Invalid(errors)) => Err(KitError::Grammar(errors)),
    }
}
