//! Finds keys that appear more than once.

ghost use Rattle.std.specs.Prelude.{◌≡◌, ◌++◌, [], ℕ, List, map, filter, if◌then◌else◌, IfOk, OnOk, string_bytes};
ghost use Rattle.std.specs.Option.{option_map_or};
ghost use Rattle.std.specs.BTreeMap.{get_by_text};
ghost use Rattle.std.specs.Str.{bytes_eq};
ghost use Rattle.cfg_sections.specs.SectionResults.{pair_text, error_text, repeat_text};
ghost use Rattle.cfg_sections.specs.SectionRepeats.{repeats_of, several};

use crate::header::error::{HeaderError, HeaderErrorKind};
use crate::header::settings::Pair;
use cfg_base::span::Span;
use std::alloc::{AllocError, Global};
use std::collections::BTreeMap;

/// Lists the spans of each key, in order.
fn spans_by_key(alloc: Global, pairs: &[Pair]) -> Result<BTreeMap<String, Vec<Span>>, AllocError>
    ensures { IfOk result (λ m. (q : List ℕ) → option_map_or (λ g. g.items) (get_by_text m q) [] ≡
        map (λ p. p.span) (filter (λ p. bytes_eq q (string_bytes p.key)) pairs.now)) }
{
    let mut spans: BTreeMap<String, Vec<Span>> = BTreeMap::new(alloc);
    'pairs: for pair in pairs {
        let key = pair.key.clone()?;
        spans.entry(key)?.or_default().push(pair.span)?;
    }
    Ok(spans)
}

/// Takes out the spans of a key.
fn take_spans(spans: &mut BTreeMap<String, Vec<Span>>, key: &str) -> Option<Vec<Span>>
    ensures taken { option_map_or (λ g. g.items) result [] ≡ option_map_or (λ g. g.items) (get_by_text spans.old key.now) [] }
    ensures left { (q : List ℕ) → option_map_or (λ g. g.items) (get_by_text spans.new q) [] ≡
        (if bytes_eq q key.now then [] else option_map_or (λ g. g.items) (get_by_text spans.old q) []) }
{
    spans.remove(key)
}

/// Adds an error for a key that has several spans.
fn push_repeat(
    repeats: &mut Vec<HeaderError<Span>>,
    spans: Option<Vec<Span>>,
) -> Result<(), AllocError>
    ensures { OnOk result (map error_text repeats.new.items ≡
        map error_text repeats.old.items ++ map repeat_text (several (option_map_or (λ g. g.items) spans []))) }
{
    if let Some(locations) = spans {
        if locations.len() > 1 {
            let kind = HeaderErrorKind::DuplicateEntry;
            repeats.push(HeaderError { kind, locations })?;
        }
    }
    Ok(())
}

/// Makes an error for each key that appears more than once, in order of their first spans.
pub(crate) fn repeats(alloc: Global, pairs: &[Pair]) -> Result<Vec<HeaderError<Span>>, AllocError>
    ensures { IfOk result (λ errors. map error_text errors.items ≡ map repeat_text (repeats_of (map pair_text pairs.now))) }
{
    let mut spans = spans_by_key(alloc, pairs)?;
    let mut repeats = Vec::new(alloc);
    'pairs: for pair in pairs {
        let of_key = take_spans(&mut spans, pair.key.as_str());
        push_repeat(&mut repeats, of_key)?;
    }
    Ok(repeats)
}
