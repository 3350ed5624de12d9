//! Tests of the bytes of a text.

use crate::same::same;
use cfg_base::text;
use cfg_base::text::GapPart;
use std::process::Abort;

const GAPS: &[(&str, usize, GapPart)] = &[
    ("", 0, GapPart::NoPart),
    (" a", 0, GapPart::Part(1)),
    ("\t\r\n", 1, GapPart::Part(2)),
    ("é", 0, GapPart::NoPart),
    ("/", 0, GapPart::NoPart),
    ("/a", 0, GapPart::NoPart),
    ("//", 0, GapPart::Part(2)),
    ("//é\nb", 0, GapPart::Part(4)),
    ("/**/", 0, GapPart::Part(4)),
    ("/*/", 0, GapPart::Unclosed),
    ("/* a *//", 0, GapPart::Part(7)),
    ("a/* */", 1, GapPart::Part(6)),
    ("a", 1, GapPart::NoPart),
    ("a", 2, GapPart::NoPart),
];

#[test]
fn gaps_are_found(rt: HostRuntime) {
    'gaps: for (source, offset, expected) in GAPS {
        let found = text::gap_at(source, *offset);
        same(&rt, source, found == *expected, true);
    }
}

#[test]
fn runs_end_where_a_byte_fails(rt: HostRuntime) {
    ends_are(&rt, " \t7", 0, (2, 0, 3));
    ends_are(&rt, "09a\n", 0, (0, 2, 3));
    ends_are(&rt, "a\n", 1, (2, 1, 1));
    ends_are(&rt, "a", 1, (1, 1, 1));
}

// The ends of the white, the digits and the line that begin at an offset.
fn ends_are(rt: &impl Abort, source: &str, offset: usize, expected: (usize, usize, usize)) {
    assert!(rt; offset <= source.len());
    let white = text::white_end(source, offset);
    let digits = text::digits_end(source, offset);
    let line = text::line_end(source, offset);
    same(rt, source, (white, digits, line), expected);
}
