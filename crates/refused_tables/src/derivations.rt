//! How a start rule derives itself, by names.

ghost use Rattle.std.specs.Prelude.{◌≡◌, ◌++◌, ◌∷◌, [], cond, drop, ltb, IfOk, OnOk};
ghost use Rattle.std.specs.List.{flat_map};
ghost use Rattle.std.specs.String.{string_bytes};
ghost use Rattle.cfg_theory.specs.Grammar.{body_of};
ghost use Rattle.cfg_numbered.specs.Symbols.{syms_of};
ghost use Rattle.refused_tables.specs.Derivations.{arrow, derivation_text, forms_to};

use cfg_base::index::IndexStorage;
use cfg_base::symbol::{PIdx, SIdx, Symbol};
use grammar_names::{Grammar, prod_body, push_symbols};
use std::alloc::{AllocError, Global};

/// Adds an arrow and a form.
fn push_form(text: &mut String, grm: &Grammar, form: &[Symbol<u32>]) -> Result<(), AllocError>
    ensures { OnOk result (string_bytes text.new ≡ string_bytes text.old ++ arrow grm.now (syms_of (λ n. n) form.now)) }
{
    text.push_str(" ⇒")?;
    push_symbols(text, grm, form)
}

/// Returns a form with the symbols of a production in the place of the first one.
fn next_form(
    alloc: Global,
    grm: &Grammar,
    form: &[Symbol<u32>],
    pidx: PIdx<u32>,
) -> Result<Vec<Symbol<u32>>, AllocError>
    ensures { IfOk result (λ f. syms_of (λ n. n) f.items ≡ body_of grm.now.grammar pidx.0 ++ drop 1 (syms_of (λ n. n) form.now)) }
{
    let mut next = Vec::from_slice(alloc, prod_body(grm, pidx))?;
    let (_, rest) = form.split_at(form.len().min(1));
    next.extend_from_slice(rest)?;
    Ok(next)
}

/// Adds the start's own symbols behind a longer form.
fn push_start_if(text: &mut String, grm: &Grammar, len: usize) -> Result<(), AllocError>
    ensures { OnOk result (string_bytes text.new ≡ string_bytes text.old ++ flat_map (arrow grm.now) (cond (ltb 1 len) (body_of grm.now.grammar grm.now.grammar.start ∷ []) [])) }
{
    if len > 1 {
        return push_form(text, grm, prod_body(grm, grm.start_prod()));
    }
    Ok(())
}

/// Adds the forms behind one of a derivation.
fn push_forms(
    alloc: Global,
    text: &mut String,
    grm: &Grammar,
    first: &[Symbol<u32>],
    opened: &[(PIdx<u32>, SIdx<u32>)],
) -> Result<(), AllocError>
    ensures { OnOk result (string_bytes text.new ≡ string_bytes text.old ++ flat_map (arrow grm.now) (forms_to grm.now.grammar (syms_of (λ n. n) first.now) opened.now)) }
{
    let mut form = Vec::from_slice(alloc, first)?;
    'items: for index in 0..opened.len() {
        let (pidx, dot) = opened[index];
        form = next_form(alloc, grm, form.as_slice(), pidx)?;
        push_form(text, grm, form.as_slice())?;
        if dot.0.to_usize() > 0 {
            return push_start_if(text, grm, form.len());
        }
    }
    Ok(())
}

/// Adds the forms from the start rule to one that begins with it again, and that rule alone where more stands behind it,
/// which vanishes. The spine begins with the start production, and has dots in front up to that form.
pub fn push_derivation(
    alloc: Global,
    text: &mut String,
    grm: &Grammar,
    spine: &[(PIdx<u32>, SIdx<u32>)],
) -> Result<(), AllocError>
    ensures { OnOk result (string_bytes text.new ≡ string_bytes text.old ++ derivation_text grm.now spine.now) }
{
    let start = prod_body(grm, grm.start_prod());
    push_symbols(text, grm, start)?;
    let (_, opened) = spine.split_at(spine.len().min(1));
    push_forms(alloc, text, grm, start, opened)
}
