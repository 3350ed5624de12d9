//! Underlines the errors of a text as an editor does, each with the tokens that could be inserted there. The
//! `Recoverer` of this example offers every token, the parser lists those after which the next lexeme is shifted, and
//! goes on with the first.
//!
//! The clause of its `AnyToken::sequences`, that each token is offered once and in order, is what the clause of
//! `Recoverer::sequences` requires, by the edits that steps are. A view of steps that loses the token of an
//! insertion, or passes on sequences in another order, would break it.
mod lexer;
mod offers;
mod shown;

use crate::editor::lexer::lexer_of;
use crate::parser_data;
use cfg_numbered::yacc::NumberedGrammar;
use lrpar::{DefaultLexerTypes, LexParseError, ParseRefusal, ParserData, RTParserBuilder};
use lrpar_diagnostics::SpannedDiagnosticFormatter;
use std::alloc::{AllocError, Global};

const GRAMMAR: &str = "%start S %% S: L | S L; L: E ';'; E: T | E '+' T; T: 'n' | '(' E ')';";

const TEXT: &str = "(n+n;\nn+;\nn n;\nn";

/// Adds the errors underlined, one below the other.
fn push_shown(
    alloc: Global,
    grm: &NumberedGrammar<u32>,
    formatter: &SpannedDiagnosticFormatter,
    errors: &[LexParseError<DefaultLexerTypes<u32>>],
    out: &mut String,
) -> Result<(), AllocError> {
    for error in errors {
        let text = shown::underline_error(alloc, grm, formatter, error)?;
        out.push_str(text.as_str())?;
        out.push('\n')?;
    }
    Ok(())
}

/// Returns errors of the text underlined.
fn all_shown(
    alloc: Global,
    data: &ParserData<u32>,
    errors: &[LexParseError<DefaultLexerTypes<u32>>],
) -> Result<String, AllocError> {
    let formatter = SpannedDiagnosticFormatter::new(alloc, TEXT, "sums")?;
    let mut out = String::new(alloc);
    let pushed = push_shown(alloc, data.grm(), &formatter, errors, &mut out);
    drop(formatter);
    pushed?;
    Ok(out)
}

/// Returns the errors of the text, as they are shown, where any one token is offered at each.
fn errors_text(alloc: Global, data: &ParserData<u32>) -> Result<String, AllocError> {
    let lexer = lexer_of(alloc, data.grm(), TEXT)?;
    let offers = offers::AnyToken {
        count: data.grm().eof_token_idx().0,
    };
    let parser = RTParserBuilder::<DefaultLexerTypes<u32>, _>::new(data).recoverer(&offers);
    let parsed = parser.parse_noaction(alloc, &lexer);
    drop(lexer);
    match parsed {
        Ok(errors) => {
            let shown = all_shown(alloc, data, errors.as_slice());
            drop(errors);
            shown
        }
        Err(ParseRefusal::Memory(e)) => Err(e),
        Err(_) => String::from_str(alloc, "refused\n"),
    }
}

/// Returns the errors of the text as an editor shows them.
pub fn output(alloc: Global) -> Result<String, AllocError> {
    match parser_data::data(alloc, GRAMMAR)? {
        Some(data) => {
            let errors = errors_text(alloc, &data);
            drop(data);
            errors
        }
        None => Ok(String::new(alloc)),
    }
}
