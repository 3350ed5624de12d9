//! The lines of a file as texts of token names.

use crate::fault::{Outcome, ParseFault};
use crate::streams::{fault_of_answer, read_file};
use crate::warnings::say_conflicts;
use crate::words::Words;
use byte_streams::Recorded;
use parser_kit::ParserKit;
use std::alloc::Global;
use std::io;
use std::io::Write;
use std::rt::Files;
use text_messages::Source;
use text_parses::{FileLine, Input, answer_line};

/// Answers a line, and returns whether it has a tree.
fn answer_words<W: Write>(
    alloc: Global,
    words: &Words,
    kit: &ParserKit<u32>,
    line: FileLine<'_>,
    text: &str,
    out: &mut Recorded<W>,
) -> Result<bool, ParseFault> {
    let input = Input {
        path: words.path(1),
        text,
        form: words.form,
        named: true,
        edits: words.edits,
        listed: words.listed,
        next: words.next,
    };
    match answer_line(alloc, kit, line, input, out) {
        Ok(well) => Ok(well),
        Err(fault) => Err(fault_of_answer(alloc, out, fault)),
    }
}

/// Returns a line without its end: a CR before an LF is part of that, and one at the very end of the file is part of the last word.
fn line_text(line: &str, has_feed: bool) -> &str {
    if has_feed {
        return line.strip_suffix('\r').unwrap_or(line);
    }
    line
}

/// Answers all lines, one after another; behind a last LF no line follows.
fn answer_all<W: Write>(
    alloc: Global,
    words: &Words,
    kit: &ParserKit<u32>,
    source: &Source<'_>,
    text: &str,
    out: &mut Recorded<W>,
) -> Result<Outcome, ParseFault> {
    let mut outcome = Outcome::Parsed;
    let mut start: usize = 0;
    let mut number: usize = 0;
    'lines: for part in text.split('\n') {
        let end = start.saturating_add(part.len());
        if start < text.len() {
            number = number.saturating_add(1);
            let at = FileLine {
                source,
                start,
                number,
            };
            if !answer_words(
                alloc,
                words,
                kit,
                at,
                line_text(part, end < text.len()),
                out,
            )? {
                outcome = Outcome::Faulty;
            }
        }
        start = end.saturating_add(1);
    }
    Ok(outcome)
}

/// Reads the lines, and answers them.
pub fn answer_lines<R: Files + io::Input + Print + Eprint + AllocGlobal>(
    rt: &R,
    words: &Words,
    kit: &ParserKit<u32>,
) -> Result<Outcome, ParseFault> {
    say_conflicts(rt, words.path(0), kit);
    let text = read_file(rt, words, 1)?;
    let source = Source::new(rt.alloc(), text.as_str(), words.path(1))?;
    let mut out = Recorded::new(io::writer(rt));
    let answered = answer_all(rt.alloc(), words, kit, &source, text.as_str(), &mut out);
    drop(source);
    answered
}
