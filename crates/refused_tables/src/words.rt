//! Reductions that go round, in words.

ghost use Rattle.std.specs.Prelude.{◌≡◌, ◌++◌, IfOk, OnOk};
ghost use Rattle.std.specs.String.{string_bytes};
ghost use Rattle.cfg_numbered.specs.Symbols.{numbers_of, syms_of};
ghost use Rattle.refused_tables.specs.Cycles.{AddsRound, ahead_text, front_text, front_words, others_text, round_text};

use crate::cycle::{Beginning, find_cycle};
use cfg_base::symbol::{PIdx, Symbol, TIdx};
use grammar_names::{Grammar, push_prod, push_symbols, push_token};
use std::alloc::{AllocError, Global};

/// Adds the token before which reductions go round.
fn push_ahead(text: &mut String, grm: &Grammar, token: TIdx<u32>) -> Result<(), AllocError>
    ensures { OnOk result (string_bytes text.new ≡ string_bytes text.old ++ ahead_text grm.now token.0) }
{
    text.push_str(": before")?;
    push_token(text, grm, token)?;
    text.push_str(", ")
}

/// Adds the productions behind the first one of a round.
fn push_others(text: &mut String, grm: &Grammar, others: &[PIdx<u32>]) -> Result<(), AllocError>
    ensures { OnOk result (string_bytes text.new ≡ string_bytes text.old ++ others_text grm.now (numbers_of (λ n. n) others.now)) }
{
    'others: for pidx in others {
        text.push_str(", then ")?;
        push_prod(text, grm, *pidx)?;
    }
    Ok(())
}

/// Adds the productions that go round before a token: `: before b, E: %empty, again and again`.
fn push_round(
    text: &mut String,
    grm: &Grammar,
    token: TIdx<u32>,
    first: PIdx<u32>,
    others: &[PIdx<u32>],
) -> Result<(), AllocError>
    ensures { OnOk result (string_bytes text.new ≡ string_bytes text.old ++ round_text grm.now token.0 first.0 (numbers_of (λ n. n) others.now)) }
{
    push_ahead(text, grm, token)?;
    push_prod(text, grm, first)?;
    push_others(text, grm, others)?;
    text.push_str(", again and again")?;
    Ok(())
}

/// Returns the words before the symbols behind which reductions begin.
fn front_words(before: &[Symbol<u32>]) -> &'static str
    ensures { result.now ≡ front_words (syms_of (λ n. n) before.now) }
{
    if before.is_empty() {
        "they begin at the front of a text"
    } else {
        "they begin behind"
    }
}

/// Adds where these reductions begin: `they begin behind x y`, or `they begin at the front of a text`.
fn push_front(text: &mut String, grm: &Grammar, before: &[Symbol<u32>]) -> Result<(), AllocError>
    ensures { OnOk result (string_bytes text.new ≡ string_bytes text.old ++ front_text grm.now (syms_of (λ n. n) before.now)) }
{
    text.push_str(front_words(before))?;
    push_symbols(text, grm, before)
}

/// Adds to the words of an error which productions go round, and to its help where they begin. Returns the first of
/// these productions; adds nothing and returns `None` where none are found.
pub fn push_cycle(
    alloc: Global,
    words: &mut String,
    help: &mut String,
    grm: &Grammar,
    beginning: Beginning,
) -> Result<Option<PIdx<u32>>, AllocError>
    ensures { IfOk result (λ r. AddsRound grm.now beginning.token.0 r (string_bytes words.old, string_bytes help.old) (string_bytes words.new, string_bytes help.new)) }
{
    let Some(cycle) = find_cycle(alloc, grm, beginning)? else {
        return Ok(None);
    };
    let Some((first, others)) = cycle.productions.as_slice().split_first() else {
        return Ok(None);
    };
    push_round(words, grm, beginning.token, *first, others)?;
    push_front(help, grm, cycle.before.as_slice())?;
    Ok(Some(*first))
}
