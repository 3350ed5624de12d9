//! Errors as they are shown.

use cfg_base::symbol::TIdx;
use cfg_numbered::yacc::NumberedGrammar;
use lrpar::{
    DefaultLexeme, DefaultLexerTypes, LexError, LexParseError, Lexeme, ParseError, ParseRepair,
};
use lrpar_diagnostics::SpannedDiagnosticFormatter;
use std::alloc::{AllocError, Global};

fn name_of(grm: &NumberedGrammar<u32>, tidx: TIdx<u32>) -> &str {
    if !grm.has_token(tidx) {
        return "";
    }
    grm.token_name(tidx).unwrap_or("")
}

/// Returns the tokens that could be inserted at an error.
fn advice(
    alloc: Global,
    grm: &NumberedGrammar<u32>,
    error: &ParseError<DefaultLexeme<u32>, u32>,
) -> Result<String, AllocError> {
    let mut text = String::from_str(alloc, "Insert")?;
    for repairs in error.repairs.as_slice() {
        if let Some(ParseRepair::Insert(tidx)) = repairs.first() {
            let name = name_of(grm, *tidx);
            text.push_str(format!(in alloc; " `{name}`")?.as_str())?;
        }
    }
    Ok(text)
}

/// Returns an error underlined.
pub fn underline_error(
    alloc: Global,
    grm: &NumberedGrammar<u32>,
    formatter: &SpannedDiagnosticFormatter,
    error: &LexParseError<DefaultLexerTypes<u32>>,
) -> Result<String, AllocError> {
    match error {
        LexParseError::LexError(e) => {
            formatter.underline_span_with_text(alloc, e.span(), "No token", '^')
        }
        LexParseError::ParseError(e) => {
            let told = advice(alloc, grm, e)?;
            formatter.underline_span_with_text(alloc, e.lexeme.span(), told.as_str(), '^')
        }
    }
}
