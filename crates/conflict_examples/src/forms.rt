//! Writes out the forms of an example: what follows its innermost production, and one form for each step from there.

ghost use Rattle.std.specs.Prelude.{◌≡◌, ◌∷◌, ◌++◌, suc, [], map, reverse, IfOk};
ghost use Rattle.lr_theory.specs.Canonical.{from_dot};
ghost use Rattle.cfg_numbered.specs.Symbols.{syms_of, numbers_of};
ghost use Rattle.conflict_examples.specs.ExampleViews.{spine_of};
ghost use Rattle.conflict_examples.specs.Opening.{has_rule_first};
ghost use Rattle.conflict_examples.specs.Spines.{around, forms_by};

use crate::derivation::{first_of, put_first};
use crate::productions::{symbols_behind, symbols_of};
use crate::symbols::{push_reversed, reverse_form};
use cfg_base::index::IndexStorage;
use cfg_base::symbol::{PIdx, SIdx, Symbol};
use cfg_numbered::yacc::NumberedGrammar;
use std::alloc::{AllocError, Global};

/// Adds the symbols behind the one after a dot, before those that are there.
fn push_behind<S: IndexStorage>(
    grm: &NumberedGrammar<S>,
    pidx: PIdx<S>,
    dot: SIdx<S>,
    rest: &mut Vec<Symbol<S>>,
) -> Result<(), AllocError>
    ensures { IfOk result (λ _. reverse (syms_of S.number rest.new.items) ≡ from_dot grm.now.grammar (S.number pidx.0) (suc (S.number dot.0)) ++ reverse (syms_of S.number rest.old.items)) }
{
    let behind = symbols_behind(symbols_of(grm, pidx), dot.0.to_usize());
    push_reversed(behind, rest)
}

/// Returns the symbols that follow the innermost production, the first of them last.
pub(crate) fn behind_innermost<S: IndexStorage>(
    alloc: Global,
    grm: &NumberedGrammar<S>,
    items: &[(PIdx<S>, SIdx<S>)],
) -> Result<Vec<Symbol<S>>, AllocError>
    ensures { IfOk result (λ v. reverse (syms_of S.number v.items) ≡ around grm.now.grammar (spine_of S.number items.now)) }
{
    let mut rest = Vec::new(alloc);
    'items: for k in 0..items.len().saturating_sub(1) {
        let item = items[k];
        push_behind(grm, item.0, item.1, &mut rest)?;
    }
    Ok(rest)
}

/// Returns whether the form, which has its first symbol last, begins with a rule.
fn begins_with_rule<S: IndexStorage>(form: &[Symbol<S>]) -> bool
    ensures { result ≡ has_rule_first (reverse (syms_of S.number form.now)) }
{
    match first_of(form) {
        Some(Symbol::Rule(_)) => true,
        Some(Symbol::Token(_)) => false,
        None => false,
    }
}

/// Appends a form, which has its first symbol last.
fn with_form<S: IndexStorage>(
    alloc: Global,
    forms: Vec<Vec<Symbol<S>>>,
    form: &[Symbol<S>],
) -> Result<Vec<Vec<Symbol<S>>>, AllocError>
    ensures { IfOk result (λ v. map (λ f. syms_of S.number f.items) v.items ≡ map (λ f. syms_of S.number f.items) forms.items ++ reverse (syms_of S.number form.now) ∷ []) }
{
    let mut forms = forms;
    forms.push(reverse_form(alloc, form)?)?;
    Ok(forms)
}

/// Returns the forms from one, which has its first symbol last, by these steps, as far as a rule is first.
fn forms_from<S: IndexStorage>(
    alloc: Global,
    grm: &NumberedGrammar<S>,
    form: Vec<Symbol<S>>,
    steps: &[PIdx<S>],
) -> Result<Vec<Vec<Symbol<S>>>, AllocError>
    ensures { IfOk result (λ v. map (λ f. syms_of S.number f.items) v.items ≡ forms_by grm.now.grammar (reverse (syms_of S.number form.items)) (numbers_of S.number steps.now)) }
{
    let mut form = form;
    let mut forms = Vec::new(alloc);
    'steps: for k in 0..steps.len() {
        if !begins_with_rule(form.as_slice()) {
            return with_form(alloc, forms, form.as_slice());
        }
        forms.push(reverse_form(alloc, form.as_slice())?)?;
        put_first(grm, steps[k], &mut form)?;
    }
    with_form(alloc, forms, form.as_slice())
}

/// Returns the forms from the symbols that follow the innermost production, by these steps.
pub(crate) fn forms_behind<S: IndexStorage>(
    alloc: Global,
    grm: &NumberedGrammar<S>,
    items: &[(PIdx<S>, SIdx<S>)],
    steps: &[PIdx<S>],
) -> Result<Vec<Vec<Symbol<S>>>, AllocError>
    ensures { IfOk result (λ v. map (λ f. syms_of S.number f.items) v.items ≡ forms_by grm.now.grammar (around grm.now.grammar (spine_of S.number items.now)) (numbers_of S.number steps.now)) }
{
    let rest = behind_innermost(alloc, grm, items)?;
    forms_from(alloc, grm, rest, steps)
}
