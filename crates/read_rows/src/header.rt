//! Sections, a line for each key or error.

use cfg_base::span::{Location, Span, Spanned, SpansKind};
use cfg_sections::header::{
    GrmtoolsSectionParser, Header, HeaderError, SectionError, try_from_header,
};
use row_files::push_spans;
use std::alloc::{AllocError, Global};

/// Adds an error as its text and its spans.
fn push_error(
    alloc: Global,
    out: &mut String,
    error: &HeaderError<Span>,
) -> Result<(), AllocError> {
    out.push_str(format!(in alloc; "error {error}:")?.as_str())?;
    push_spans(alloc, out, error.spans())?;
    out.push_str(match error.spanskind() {
        SpansKind::DuplicationError => " duplicates\n",
        SpansKind::Error => "\n",
    })
}

fn push_errors(
    alloc: Global,
    out: &mut String,
    errors: &[HeaderError<Span>],
) -> Result<(), AllocError> {
    for error in errors {
        push_error(alloc, out, error)?;
    }
    Ok(())
}

/// Adds each key with its value, and the offset behind the section.
fn push_values(
    alloc: Global,
    out: &mut String,
    header: &Header<Location>,
    end: usize,
) -> Result<(), AllocError> {
    'keys: for (key, value) in header {
        out.push_str(format!(in alloc; "{key} {value:?}\n")?.as_str())?;
    }
    out.push_str(format!(in alloc; "end {end}\n")?.as_str())
}

fn push_at_locations(
    alloc: Global,
    out: &mut String,
    header: &Header<Span>,
    end: usize,
) -> Result<(), AllocError> {
    let converted = try_from_header(alloc, header)?;
    let pushed = push_values(alloc, out, &converted, end);
    drop(converted);
    pushed
}

/// Adds what a text's section says at locations, or its errors.
pub fn push_section(
    alloc: Global,
    out: &mut String,
    text: &str,
    is_required: bool,
) -> Result<(), AllocError> {
    match GrmtoolsSectionParser::new(text, is_required).parse(alloc) {
        Ok((header, end)) => {
            let pushed = push_at_locations(alloc, out, &header, end);
            drop(header);
            pushed
        }
        Err(SectionError::Memory(e)) => Err(e),
        Err(SectionError::Invalid(errors)) => {
            let pushed = push_errors(alloc, out, errors.as_slice());
            drop(errors);
            pushed
        }
    }
}
