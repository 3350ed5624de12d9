//! Examples of conflicts as a person reads them.

ghost use Rattle.std.specs.Prelude.{◌≡◌, ◌++◌, [], codes, OnOk};
ghost use Rattle.std.specs.String.{string_bytes};
ghost use Rattle.refused_tables.specs.ExampleTexts.{AddsAction, AddsExample, AddsString, reduction_text, shift_text, spine_text};

use cfg_base::index::IndexStorage;
use cfg_base::symbol::{PIdx, SIdx, Symbol};
use conflict_examples::{ActionExample, ConflictExample};
use grammar_names::{
    Grammar, body_len, prod_body, push_body, push_item, push_prod, push_symbols, push_token,
    push_word,
};
use std::alloc::{AllocError, Global};

/// How many symbols the forms behind a reduction may have, all together, but for the last one. Where they would have more,
/// their productions are listed.
const MOST_SYMBOLS: usize = 262_144;

/// Returns the symbols behind the innermost dot.
fn after_dot<'a>(grm: &'a Grammar, spine: &[(PIdx<u32>, SIdx<u32>)]) -> &'a [Symbol<u32>] {
    let Some((pidx, dot)) = spine.last() else {
        return &[];
    };
    prod_body(grm, *pidx).get(dot.0.to_usize()..).unwrap_or(&[])
}

/// Returns what follows the string as an action has it: the symbols behind the innermost dot, and the last of the forms
/// behind that production.
fn rest_of(
    alloc: Global,
    grm: &Grammar,
    action: &ActionExample<u32>,
) -> Result<Vec<Symbol<u32>>, AllocError> {
    let mut rest = Vec::from_slice(alloc, after_dot(grm, action.spine.as_slice()))?;
    let forms = action.forms(alloc, grm)?;
    if let Some(form) = forms.as_slice().last() {
        rest.extend_from_slice(form.as_slice())?;
    }
    Ok(rest)
}

/// Returns what follows the string, if both actions have it follow, so that the whole has two trees; nothing else.
fn shared_rest(
    alloc: Global,
    grm: &Grammar,
    example: &ConflictExample<u32>,
) -> Result<Vec<Symbol<u32>>, AllocError> {
    if has_long_forms(grm, &example.first) || has_long_forms(grm, &example.second) {
        return Ok(Vec::new(alloc));
    }
    let first = rest_of(alloc, grm, &example.first)?;
    let second = rest_of(alloc, grm, &example.second)?;
    if first.as_slice() == second.as_slice() {
        Ok(first)
    } else {
        Ok(Vec::new(alloc))
    }
}

/// Adds the string, a dot and what follows: what both actions have follow, if that is the same, else the token alone.
fn push_string(
    alloc: Global,
    text: &mut String,
    grm: &Grammar,
    example: &ConflictExample<u32>,
) -> Result<(), AllocError>
    ensures { OnOk result (AddsString grm.now example.now (string_bytes text.old) (string_bytes text.new)) }
{
    text.push_str("  Example:")?;
    push_symbols(text, grm, example.symbols.as_slice())?;
    push_word(text, ".")?;
    let rest = shared_rest(alloc, grm, example)?;
    if rest.is_empty() {
        push_token(text, grm, example.token)?;
    } else {
        push_symbols(text, grm, rest.as_slice())?;
    }
    text.push('\n')
}

/// Adds open productions, each below the one that it stands in and two spaces further in.
fn push_spine(
    alloc: Global,
    text: &mut String,
    grm: &Grammar,
    spine: &[(PIdx<u32>, SIdx<u32>)],
) -> Result<(), AllocError>
    ensures { OnOk result (string_bytes text.new ≡ string_bytes text.old ++ spine_text grm.now (codes "    ") spine.now) }
{
    let mut front = String::from_str(alloc, "    ")?;
    'items: for index in 0..spine.len() {
        let (pidx, dot) = spine[index];
        text.push_str(front.as_str())?;
        push_item(text, grm, pidx, dot)?;
        text.push('\n')?;
        front.push_str("  ")?;
    }
    Ok(())
}

/// How many symbols stand behind the innermost production.
fn behind_len(grm: &Grammar, spine: &[(PIdx<u32>, SIdx<u32>)]) -> usize {
    let mut length: usize = 0;
    'items: for index in 0..spine.len().saturating_sub(1) {
        let (pidx, dot) = spine[index];
        let passed = dot.0.to_usize().saturating_add(1);
        length = length.saturating_add(body_len(grm, pidx).saturating_sub(passed));
    }
    length
}

/// How many symbols the forms from one of this length have, all together, but for the last one. Each production takes the
/// place of one symbol.
fn forms_len(grm: &Grammar, first: usize, steps: &[PIdx<u32>]) -> usize {
    let mut length = first;
    let mut all: usize = 0;
    'steps: for index in 0..steps.len() {
        all = all.saturating_add(length);
        let behind = length.saturating_sub(1);
        length = behind.saturating_add(body_len(grm, steps[index]));
    }
    all
}

/// Whether the forms behind a reduction have too many symbols to be written out.
fn has_long_forms(grm: &Grammar, action: &ActionExample<u32>) -> bool {
    let first = behind_len(grm, action.spine.as_slice());
    forms_len(grm, first, action.steps.as_slice()) > MOST_SYMBOLS
}

/// Adds the productions by which each form behind a reduction comes from the one before.
fn push_steps(text: &mut String, grm: &Grammar, steps: &[PIdx<u32>]) -> Result<(), AllocError> {
    text.push_str("    behind it, each in the place of the first symbol:\n")?;
    'steps: for index in 0..steps.len() {
        text.push_str("      ")?;
        push_prod(text, grm, steps[index])?;
        text.push('\n')?;
    }
    Ok(())
}

/// Adds the forms behind a reduction, or their productions where they are long, unless the first begins with the token at
/// once.
fn push_forms(
    alloc: Global,
    text: &mut String,
    grm: &Grammar,
    action: &ActionExample<u32>,
) -> Result<(), AllocError> {
    if action.steps.is_empty() {
        return Ok(());
    }
    if has_long_forms(grm, action) {
        return push_steps(text, grm, action.steps.as_slice());
    }
    let forms = action.forms(alloc, grm)?;
    let mut front = "    behind it:";
    'forms: for form in &forms {
        text.push_str(front)?;
        push_body(text, grm, form.as_slice())?;
        text.push('\n')?;
        front = "            =>";
    }
    Ok(())
}

/// Adds why an action is right.
fn push_action(
    alloc: Global,
    text: &mut String,
    grm: &Grammar,
    action: &ActionExample<u32>,
) -> Result<(), AllocError>
    ensures { OnOk result (AddsAction grm.now ([]) action.now (string_bytes text.old) (string_bytes text.new)) }
{
    let mut forms = String::new(alloc);
    push_forms(alloc, &mut forms, grm, action)?;
    text.push('\n')?;
    push_spine(alloc, text, grm, action.spine.as_slice())?;
    text.push_str(forms.as_str())
}

/// Adds the first action of a conflict with a reduction: the shift of a token, or the accepting of a text that has ended.
fn push_shift(
    alloc: Global,
    text: &mut String,
    grm: &Grammar,
    example: &ConflictExample<u32>,
) -> Result<(), AllocError>
    ensures { OnOk result (AddsAction grm.now (shift_text grm.now example.now.token.0) example.now.first (string_bytes text.old) (string_bytes text.new)) }
{
    if example.token.0 == grm.eof_token_idx().0 {
        text.push_str("  accept")?;
    } else {
        text.push_str("  shift")?;
        push_token(text, grm, example.token)?;
    }
    push_action(alloc, text, grm, &example.first)
}

fn push_reduction(
    alloc: Global,
    text: &mut String,
    grm: &Grammar,
    pidx: PIdx<u32>,
    action: &ActionExample<u32>,
) -> Result<(), AllocError>
    ensures { OnOk result (AddsAction grm.now (reduction_text grm.now pidx.0) action.now (string_bytes text.old) (string_bytes text.new)) }
{
    text.push_str("  reduce ")?;
    push_prod(text, grm, pidx)?;
    push_action(alloc, text, grm, action)
}

/// Adds the example of a shift or the end of a text against a reduction, or of a pair of reductions.
pub fn push_example(
    alloc: Global,
    text: &mut String,
    grm: &Grammar,
    example: &ConflictExample<u32>,
    pidx: PIdx<u32>,
    other: Option<PIdx<u32>>,
) -> Result<(), AllocError>
    ensures { OnOk result (AddsExample grm.now example.now pidx other (string_bytes text.old) (string_bytes text.new)) }
{
    push_string(alloc, text, grm, example)?;
    match other {
        Some(_) => push_reduction(alloc, text, grm, pidx, &example.first)?,
        None => push_shift(alloc, text, grm, example)?,
    }
    push_reduction(alloc, text, grm, other.unwrap_or(pidx), &example.second)
}
