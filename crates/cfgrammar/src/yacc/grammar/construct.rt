//! Grammars of texts.

ghost use Rattle.std.specs.Prelude.{◌≡◌, true};
ghost use Rattle.cfg_read.specs.ValidityInfo.{is_valid};
ghost use Rattle.cfgrammar.specs.FromAst.{Makes, MakesTree, Refuses, MakesText, MakesFile};

use super::YaccGrammar;
use crate::yacc::from_ast::{self, YaccGrammarMakeError};
use cfg_base::index::IndexStorage;
use cfg_read::yacc::{ASTWithValidityInfo, YaccGrammarFailure, YaccKind, one_file, one_kind};
use std::alloc::Global;

/// The grammar of what is kept of a valid text, which is let go.
fn of_valid_kept<S: IndexStorage>(
    alloc: Global,
    info: ASTWithValidityInfo,
) -> Result<YaccGrammar<S>, YaccGrammarMakeError>
    requires { is_valid info.errors ≡ true }
    ensures { MakesTree S.MAX info.kind info.ast result }
{
    let kind = info.yacc_kind();
    from_ast::of_own_tree(alloc, kind, info.into_ast())
}

/// The answer for what is kept of an invalid text, which is let go.
fn refused_kept<S: IndexStorage>(
    alloc: Global,
    info: ASTWithValidityInfo,
) -> Result<YaccGrammar<S>, YaccGrammarMakeError>
    ensures { Refuses info.errors result }
{
    let refused = from_ast::refusal_of(alloc, info.errors());
    drop(info);
    refused
}

/// The grammar of what is kept of a text, which is let go.
fn of_kept<S: IndexStorage>(
    alloc: Global,
    info: ASTWithValidityInfo,
) -> Result<YaccGrammar<S>, YaccGrammarMakeError>
    ensures { Makes S.MAX info result }
{
    if info.is_valid() {
        of_valid_kept(alloc, info)
    } else {
        refused_kept(alloc, info)
    }
}

impl YaccGrammar<u32> {
    /// Makes the grammar of a text of a kind, with numbers of 32 bits. Fails as `new_with_storaget` does.
    pub fn new(
        alloc: Global,
        kind: YaccKind,
        text: &str,
    ) -> Result<YaccGrammar<u32>, YaccGrammarMakeError>
        ensures { MakesText 4294967295 kind text.now result }
    {
        YaccGrammar::new_with_storaget(alloc, kind, text)
    }
}

impl<S: IndexStorage> YaccGrammar<S> {
    /// Makes the grammar of a text of a kind. A section is read, and its `yacckind` ignored.
    ///
    /// # Errors
    ///
    /// - `Invalid` with all that is wrong with the text.
    /// - `TooMany` where the text is valid, and a count of the grammar past the index type's greatest number.
    /// - `Memory` where memory is refused.
    pub fn new_with_storaget(
        alloc: Global,
        kind: YaccKind,
        text: &str,
    ) -> Result<YaccGrammar<S>, YaccGrammarMakeError>
        ensures { MakesText S.MAX kind text.now result }
    {
        one_file();
        match ASTWithValidityInfo::new(alloc, kind, text) {
            Ok(info) => of_kept(alloc, info),
            Err(e) => Err(YaccGrammarMakeError::Memory(e)),
        }
    }

    /// Makes the grammar of a checked syntax tree. Returns `Invalid` with the tree's errors where it has some,
    /// `TooMany` where a count of the grammar is past the index type's greatest number, and `Memory` where memory
    /// is refused.
    pub fn new_from_ast_with_validity_info(
        alloc: Global,
        info: &ASTWithValidityInfo,
    ) -> Result<YaccGrammar<S>, YaccGrammarMakeError>
        ensures { Makes S.MAX info.now result }
    {
        if info.is_valid() {
            from_ast::of_lent_tree(alloc, info.yacc_kind(), info.ast())
        } else {
            from_ast::refusal_of(alloc, info.errors())
        }
    }

    /// Makes the grammar of a text whose section names its kind by `yacckind`. Fails as `new_with_storaget` does;
    /// `Invalid` also has the errors of the section, or of a `yacckind` that is missing or names no kind.
    pub fn from_str(alloc: Global, text: &str) -> Result<YaccGrammar<S>, YaccGrammarMakeError>
        ensures { MakesFile S.MAX text.now result }
    {
        one_file();
        one_kind();
        match ASTWithValidityInfo::from_str(alloc, text) {
            Ok(info) => of_kept(alloc, info),
            Err(YaccGrammarFailure::Memory(e)) => Err(YaccGrammarMakeError::Memory(e)),
            Err(YaccGrammarFailure::Invalid(errors)) => Err(YaccGrammarMakeError::Invalid(errors)),
        }
    }
}
