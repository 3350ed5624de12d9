//! Tests of lines and columns.

use crate::same::same;
use cfg_base::newlinecache::NewlineCache;
use cfg_base::span::Span;
use std::alloc::AllocError;
use std::process::Abort;
use std::test::Fail;

const LINES: &[(usize, usize, usize)] = &[(0, 1, 0), (2, 1, 0), (3, 1, 0), (4, 2, 4), (5, 2, 4)];

const COLUMNS: &[(usize, (usize, usize))] = &[
    (0, (1, 1)),
    (1, (1, 2)),
    (2, (1, 2)),
    (3, (1, 3)),
    (4, (2, 1)),
    (5, (2, 2)),
];

#[test]
fn lines_and_columns_of_a_text(rt: HostRuntime) -> Result<(), AllocError> {
    let text = "aé\nb";
    let cache = NewlineCache::from_str(rt.alloc(), text)?;
    'lines: for (byte, line, start) in LINES {
        stands_in_line(&rt, &cache, *byte, Some(*line), Some(*start));
    }
    stands_in_line(&rt, &cache, 6, None, None);
    'columns: for (byte, column) in COLUMNS {
        stands_at(&rt, &cache, text, *byte, Some(*column));
    }
    stands_at(&rt, &cache, text, 6, None);
    stands_at(&rt, &cache, "a\nb", 1, None);
    Ok(())
}

fn stands_in_line(
    rt: &impl Abort,
    cache: &NewlineCache,
    byte: usize,
    line: Option<usize>,
    start: Option<usize>,
) {
    let found = (
        byte,
        cache.byte_to_line_num(byte),
        cache.byte_to_line_byte(byte),
    );
    same(rt, "byte, line and start", found, (byte, line, start));
}

fn stands_at(
    rt: &impl Abort,
    cache: &NewlineCache,
    text: &str,
    byte: usize,
    column: Option<(usize, usize)>,
) {
    let found = (byte, cache.byte_to_line_num_and_col_num(text, byte));
    same(rt, "byte, line and column", found, (byte, column));
}

#[test]
fn pieces_are_fed(rt: HostRuntime) -> Result<(), AllocError> {
    let mut by_pieces = NewlineCache::new(rt.alloc());
    by_pieces.feed("aé")?;
    by_pieces.feed("")?;
    by_pieces.feed("\nb")?;
    stands_at(&rt, &by_pieces, "aé\nb", 5, Some((2, 2)));
    Ok(())
}

const LINES_OF_SPANS: &[(usize, usize, (usize, usize))] = &[
    (1, 3, (0, 3)),
    (1, 4, (0, 5)),
    (4, 5, (4, 5)),
    (0, 0, (0, 3)),
];

#[test]
fn spans_take_whole_lines(rt: HostRuntime) -> Result<(), AllocError> {
    let cache = NewlineCache::from_str(rt.alloc(), "aé\nb")?;
    'spans: for (start, end, lines) in LINES_OF_SPANS {
        assert!(rt; *end <= 5 && *start <= *end);
        let found = (*start, *end, cache.span_line_bytes(Span::new(*start, *end)));
        same(&rt, "span and lines", found, (*start, *end, *lines));
    }
    Ok(())
}

#[test]
fn pieces_are_gathered(rt: HostRuntime) -> Result<(), Fail> {
    let cache = NewlineCache::from_iter(rt.alloc(), ["a", "é\n", "", "b"])?;
    for (byte, column) in [(0, (1, 1)), (3, (1, 3)), (4, (2, 1)), (5, (2, 2))] {
        stands_at(&rt, &cache, "aé\nb", byte, Some(column));
    }
    same(&rt, "6", cache.byte_to_line_num(6), None);
    Ok(())
}

// The method of the trait gathers them too.
#[test]
fn pieces_are_gathered_by_the_trait(rt: HostRuntime) -> Result<(), Fail> {
    let cache = <NewlineCache as FromIterator<&str>>::from_iter(rt.alloc(), ["a", "\nb"])?;
    stands_at(&rt, &cache, "a\nb", 2, Some((2, 1)));
    Ok(())
}

#[test]
fn no_pieces_make_the_empty_text(rt: HostRuntime) -> Result<(), Fail> {
    let none: [&str; 0] = [];
    let cache = NewlineCache::from_iter(rt.alloc(), none)?;
    is_empty_text(&rt, &cache);
    Ok(())
}

// A feed that is refused changes nothing.
#[test]
fn a_refused_feed_changes_nothing(rt: HostRuntime) -> Result<(), Fail> {
    let mut cache = NewlineCache::from_str(rt.alloc(), "ab\n")?;
    let lines = match cache.feed("c\nd\ne\nf\ng\nh\ni\nj\nk\n") {
        Ok(()) => Some(3),
        Err(_) => None,
    };
    same(&rt, "3", cache.byte_to_line_num(3), Some(2));
    same(&rt, "5", cache.byte_to_line_num(5), lines);
    Ok(())
}

fn is_empty_text(rt: &impl Abort, cache: &NewlineCache) {
    stands_in_line(rt, cache, 0, Some(1), Some(0));
    stands_in_line(rt, cache, 1, None, None);
    stands_at(rt, cache, "", 0, Some((1, 1)));
    stands_at(rt, cache, "a", 0, None);
}

#[test]
fn the_empty_text_has_one_line(rt: HostRuntime) -> Result<(), AllocError> {
    is_empty_text(&rt, &NewlineCache::new(rt.alloc()));
    is_empty_text(&rt, &NewlineCache::from_str(rt.alloc(), "")?);
    let mut fed = NewlineCache::new(rt.alloc());
    fed.feed("")?;
    is_empty_text(&rt, &fed);
    Ok(())
}
