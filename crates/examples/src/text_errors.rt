//! The grammar of a text, or the errors of the text with their lines and columns.

use cfgrammar::yacc::{
    YaccGrammar, YaccGrammarError, YaccGrammarMakeError, YaccKind, YaccOriginalActionKind,
};
use cfgrammar::{NewlineCache, Spanned};
use std::alloc::{AllocError, Global};

const TREE: YaccKind = YaccKind::Original(YaccOriginalActionKind::GenericParseTree);

/// Returns a line for each place of each error.
fn lines_of(alloc: Global, text: &str, errors: &[YaccGrammarError]) -> Result<String, AllocError> {
    let cache = NewlineCache::from_str(alloc, text)?;
    let mut out = String::new(alloc);
    for error in errors {
        for span in error.spans() {
            if let Some((line, column)) = cache.byte_to_line_num_and_col_num(text, span.start()) {
                out.push_str(format!(in alloc; "{line}:{column}: {error}\n")?.as_str())?;
            }
        }
    }
    Ok(out)
}

/// Returns why a text has no grammar.
fn refusal_text(
    alloc: Global,
    text: &str,
    refusal: &YaccGrammarMakeError,
) -> Result<String, AllocError> {
    match refusal {
        YaccGrammarMakeError::Memory(e) => Err(*e),
        YaccGrammarMakeError::Invalid(errors) => lines_of(alloc, text, errors.as_slice()),
        YaccGrammarMakeError::TooMany(many) => format!(in alloc; "{many}\n"),
    }
}

/// Returns the grammar of a text, or why it has none.
pub fn grammar(alloc: Global, text: &str) -> Result<Result<YaccGrammar<u32>, String>, AllocError> {
    match YaccGrammar::new(alloc, TREE, text) {
        Ok(grm) => Ok(Ok(grm)),
        Err(refusal) => {
            let told = refusal_text(alloc, text, &refusal);
            drop(refusal);
            Ok(Err(told?))
        }
    }
}
