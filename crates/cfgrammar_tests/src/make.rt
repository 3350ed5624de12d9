//! Grammars of texts.

use cfgrammar::yacc::{YaccGrammar, YaccGrammarMakeError, YaccKind, YaccOriginalActionKind};
use std::alloc::Global;
use std::test::*;

pub const TREE: YaccKind = YaccKind::Original(YaccOriginalActionKind::GenericParseTree);

/// Makes the grammar of a text that has one.
pub fn grammar_of(alloc: Global, text: &str) -> Result<YaccGrammar<u8>, Fail> {
    match YaccGrammar::new_with_storaget(alloc, TREE, text) {
        Ok(grm) => Ok(grm),
        Err(YaccGrammarMakeError::Memory(e)) => Err(e.into()),
        Err(refusal) => {
            drop(refusal);
            Err("no grammar".into())
        }
    }
}
