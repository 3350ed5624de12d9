//! Tests of spans and of what spans of an error are.

use crate::same::same;
use cfg_base::span::{Span, SpansKind};
use std::test::Fail;

#[test]
fn spans_answer_their_offsets(rt: HostRuntime) -> Result<(), Fail> {
    let span = Span::new(3, 7);
    let offsets = (span.start(), span.end(), span.len());
    same(&rt, "start, end and length", offsets, (3, 7, 4));
    let are_empty = [span.is_empty(), Span::new(3, 3).is_empty()];
    same(&rt, "four bytes and none", are_empty, [false, true]);
    assert!(rt; span == Span::new(3, 7) && span != Span::new(3, 8) && span != Span::new(2, 7));
    let copy = span;
    let text = format!(in rt.alloc(); "{copy:?} {span:?}")?;
    let wanted = "Span { start: 3, end: 7 } Span { start: 3, end: 7 }";
    same(&rt, "text", text.as_str(), wanted);
    Ok(())
}

#[test]
fn kinds_are_compared(rt: HostRuntime) {
    assert!(rt; SpansKind::Error == SpansKind::Error);
    assert!(rt; SpansKind::DuplicationError == SpansKind::DuplicationError);
    assert!(rt; SpansKind::Error != SpansKind::DuplicationError);
}
