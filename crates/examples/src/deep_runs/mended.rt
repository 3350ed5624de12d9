//! What short lines come to with recoverers that offer anything.

use crate::deep_runs::lexer::lexer_of;
use crate::deep_runs::offers::Offers;
use crate::deep_runs::outcome::push_flat;
use crate::parser_data::data;
use lrpar::ParserData;
use std::alloc::{AllocError, Global};

const SUMS: &str = "%start E %% E: T '+' E | T; T: 'a';";

/// The recoverers that meet the line `a +`.
const AT_END: &[Offers] = &[
    Offers::Empty,
    Offers::Many,
    Offers::Long,
    Offers::Deletes,
    Offers::Outside,
    Offers::Past,
    Offers::Changing,
];

/// The recoverers that meet the line `a a a a`.
const AT_SECOND: &[Offers] = &[
    Offers::Empty,
    Offers::Many,
    Offers::Deletes,
    Offers::Changing,
];

/// Adds what a line comes to with each of the recoverers: `counts.0` of the second token, then `counts.1` of the first.
fn push_line(
    alloc: Global,
    out: &mut String,
    data: &ParserData<u32>,
    counts: (u32, u32),
    all: &[Offers],
) -> Result<(), AllocError> {
    let lexer = lexer_of(alloc, (1, counts.0), (0, counts.1))?;
    for offers in all {
        out.push_str(format!(in alloc; "{offers:?}: ")?.as_str())?;
        push_flat(alloc, out, data, &lexer, offers)?;
    }
    Ok(())
}

/// Adds what both lines come to.
fn push_lines(alloc: Global, out: &mut String, data: &ParserData<u32>) -> Result<(), AllocError> {
    out.push_str("a +\n")?;
    push_line(alloc, out, data, (1, 1), AT_END)?;
    out.push_str("a a a a\n")?;
    push_line(alloc, out, data, (4, 0), AT_SECOND)
}

/// Adds what lines of sums come to.
pub fn push_sums(alloc: Global, out: &mut String) -> Result<(), AllocError> {
    match data(alloc, SUMS)? {
        Some(data) => {
            let pushed = push_lines(alloc, out, &data);
            drop(data);
            pushed
        }
        None => out.push_str("no data\n"),
    }
}
