//! Errors of lines, each with the tokens that may come there.

use crate::asked::LineFile;
use cfg_base::index::IndexStorage;
use cfg_base::span::Span;
use cfg_base::symbol::TIdx;
use grammar_names::push_token;
use lrpar::{LexError, LexParseError, Lexer, ParseRefusal, Prefix, RTParserBuilder};
use parser_kit::ParserKit;
use std::alloc::{AllocError, Global};
use text_messages::{Severity, Source};
use vob::Vob;
use word_lines::{WordLexer, WordLexerTypes};

/// The tokens of a line's lexemes that begin before an offset.
fn prefix_before<'a>(
    alloc: Global,
    kit: &'a ParserKit<u32>,
    lexer: &WordLexer<'_, u32>,
    end: usize,
) -> Result<Prefix<'a, u32>, AllocError> {
    let mut prefix = kit.parser_data().prefix(alloc)?;
    'items: for item in lexer.iter() {
        if let Ok(lexeme) = item {
            if lexeme.span.start() < end {
                prefix.push(TIdx(lexeme.token))?;
            }
        }
    }
    Ok(prefix)
}

/// Adds the tokens whose bits are set.
fn push_set(text: &mut String, kit: &ParserKit<u32>, bits: &Vob) -> Result<(), AllocError> {
    'tokens: for token in 0..kit.grm().tokens_len().0.to_usize() {
        if bits.get(token) == Some(true) {
            push_token(text, kit.grm(), kit.grm().token_at(token))?;
        }
    }
    Ok(())
}

/// Returns what is wrong at a token: its name, or that the line ends, and which tokens may come there.
fn unexpected_text(
    alloc: Global,
    kit: &ParserKit<u32>,
    lexer: &WordLexer<'_, u32>,
    token: TIdx<u32>,
    end: usize,
) -> Result<String, AllocError> {
    let prefix = prefix_before(alloc, kit, lexer, end)?;
    let bits = prefix.next_tokens(alloc)?;
    let mut text = String::from_str(alloc, "unexpected")?;
    if token == kit.grm().eof_token_idx() {
        text.push_str(" end of the line")?;
    } else {
        push_token(&mut text, kit.grm(), token)?;
    }
    text.push_str("; may come here:")?;
    push_set(&mut text, kit, &bits)?;
    Ok(text)
}

/// A span of a line as one of the file that the line begins in at `start`.
fn span_in_file(span: Span, start: usize) -> Span {
    let first = start.saturating_add(span.start());
    let last = start.saturating_add(span.end());
    Span::new(first, first.max(last))
}

/// The words of a line, and the byte offset in the file at which the line begins.
#[derive(Drop)]
struct PlacedLine<'a, 'w> {
    lexer: &'a WordLexer<'w, u32>,
    start: usize,
}

/// Adds an error of a line.
fn push_error(
    alloc: Global,
    text: &mut String,
    source: &Source<'_>,
    kit: &ParserKit<u32>,
    line: &PlacedLine<'_, '_>,
    error: &LexParseError<WordLexerTypes<u32>>,
) -> Result<(), AllocError> {
    match error {
        LexParseError::LexError(e) => {
            let span = span_in_file(e.span(), line.start);
            source.push_message(alloc, text, Severity::Error, span, "no token has this name")
        }
        LexParseError::ParseError(e) => {
            let span = e.lexeme.span;
            let token = TIdx(e.lexeme.token);
            let message = unexpected_text(alloc, kit, line.lexer, token, span.start())?;
            let span = span_in_file(span, line.start);
            source.push_message(alloc, text, Severity::Error, span, message.as_str())
        }
    }
}

/// Adds the first error of a line's words, if there is one.
fn push_first(
    alloc: Global,
    text: &mut String,
    source: &Source<'_>,
    kit: &ParserKit<u32>,
    line: &PlacedLine<'_, '_>,
) -> Result<(), AllocError> {
    let parser = RTParserBuilder::<WordLexerTypes<u32>, _>::new(kit.parser_data());
    match parser.parse_noaction(alloc, line.lexer) {
        Ok(errors) => {
            match errors.first() {
                Some(error) => push_error(alloc, text, source, kit, line, error),
                None => Ok(()),
            }
        }
        Err(ParseRefusal::Memory(e)) => Err(e),
        Err(_) => Ok(()),
    }
}

/// Adds the first error of the words of a line.
fn push_line_error(
    alloc: Global,
    text: &mut String,
    source: &Source<'_>,
    kit: &ParserKit<u32>,
    words: &str,
    start: usize,
) -> Result<(), AllocError> {
    let lexer = WordLexer::new(alloc, kit.grm(), words)?;
    let line = PlacedLine {
        lexer: &lexer,
        start,
    };
    let pushed = push_first(alloc, text, source, kit, &line);
    drop(lexer);
    pushed
}

/// Adds the errors of all lines; behind a last LF no line follows, and a CR before an LF is no part of a line.
fn push_lines(
    alloc: Global,
    text: &mut String,
    source: &Source<'_>,
    kit: &ParserKit<u32>,
    lines: &str,
) -> Result<(), AllocError> {
    let mut start: usize = 0;
    'lines: for line in lines.split_inclusive('\n') {
        let words = line.lines().next().unwrap_or("");
        push_line_error(alloc, text, source, kit, words, start)?;
        start = start.saturating_add(line.len());
    }
    Ok(())
}

/// The errors of a file's lines.
fn errors_of(
    alloc: Global,
    kit: &ParserKit<u32>,
    lines: LineFile<'_>,
    color: bool,
) -> Result<String, AllocError> {
    let mut text = String::new(alloc);
    let source = Source::new(alloc, lines.text, lines.path)?.with_color(color);
    let pushed = push_lines(alloc, &mut text, &source, kit, lines.text);
    drop(source);
    pushed?;
    Ok(text)
}

/// Adds for each line with an error the first one, and which tokens may come there.
pub(crate) fn push_next(
    alloc: Global,
    text: &mut String,
    kit: &ParserKit<u32>,
    lines: LineFile<'_>,
    color: bool,
) -> Result<(), AllocError> {
    text.push_str("\nLines:\n")?;
    let errors = errors_of(alloc, kit, lines, color)?;
    if errors.is_empty() {
        return text.push_str("No line has an error.\n");
    }
    text.push_str(errors.as_str())
}
