//! What each rule reaches by left corners, closed once, so that the closing of a core takes each rule behind a dot
//! alone.

ghost use Rattle.std.specs.Prelude.{◌≡◌, ◌<◌, ◌↔◌, ◌∷◌, ℕ, length, map, get_or, [], IfOk, IsTrue, OnOk};
ghost use Rattle.std.specs.List.{Contains};
ghost use Rattle.vob.specs.Sets.{is_set};
ghost use Rattle.lrtable.specs.Fronts.{front_of};
ghost use Rattle.lrtable.specs.Opening.{Front, AllFit, HasFront};
ghost use Rattle.lrtable.specs.Pruning.{Marks};
ghost use Rattle.lrtable.specs.Reachers.{HasReach};
ghost use Rattle.lrtable.specs.Reaching.{AreReachedBy, IsReachedBy, MayBeReachedBy, PassedIn, PassesTo};

use crate::openers::{Opener, Openers};
use crate::opening::Opening;
use crate::pruning::mark;
use crate::rule_queue::RuleQueue;
use std::alloc::{AllocError, Global};
use vob::Vob;

/// Marks the rule of an opener, if what follows the rule is nullable.
fn mark_passed(
    opener: &Opener,
    passed: &mut Vob,
    waiting: &mut Vec<usize>,
) -> Result<(), AllocError>
    requires { opener.now.rule < length passed.old.bits }
    ensures { OnOk result (Marks (PassedIn (front_of opener.now ∷ [])) passed.old.bits passed.new.bits waiting.old.items waiting.new.items) }
{
    if opener.rest.nullable {
        mark(passed, waiting, opener.rule)?;
    }
    Ok(())
}

/// Marks all left corners of a rule as passed.
fn mark_all_passed(
    openers: &[Opener],
    passed: &mut Vob,
    waiting: &mut Vec<usize>,
) -> Result<(), AllocError>
    requires { (e : Front) → Contains (map front_of openers.now) e → e.rule < length passed.old.bits }
    ensures { OnOk result (Marks (PassedIn (map front_of openers.now)) passed.old.bits passed.new.bits waiting.old.items waiting.new.items) }
{
    'openers: for opener in openers {
        mark_passed(opener, passed, waiting)?;
    }
    Ok(())
}

/// Marks the rules to which a rule passes its lookaheads on, itself among them.
fn mark_reached(
    openers: &Openers,
    passed: &mut Vob,
    waiting: &mut Vec<usize>,
    rule: usize,
) -> Result<(), AllocError>
    requires rule { rule < length openers.now }
    requires width { length passed.old.bits ≡ length openers.now }
    requires fit { (A : ℕ) (e : Front) → HasFront openers.now A e → e.rule < length openers.now }
    requires none_waits { waiting.old.items ≡ [] }
    ensures width { OnOk result (length passed.new.bits ≡ length openers.now) }
    ensures passed { OnOk result ((B : ℕ) → IsTrue (is_set passed.new.bits B) ↔ PassesTo openers.now rule B) }
    ensures none_waits { OnOk result (waiting.new.items ≡ []) }
{
    passed.set_all(false);
    mark(passed, waiting, rule)?;
    'waiting: while let Some(number) = waiting.pop() {
        mark_all_passed(openers.of_rule(number), passed, waiting)?;
    }
    Ok(())
}

/// Buffers for what one rule after another reaches.
#[derive(Drop)]
pub(crate) struct Reacher {
    pub opening: Opening,
    /// The rules to which the rule passes its lookaheads on.
    pub passed: Vob,
    /// Those of them that wait to be gone through.
    pub marked: Vec<usize>,
    /// The lookaheads of the rule that is taken.
    pub looks: Vob,
    /// The rules that wait to be taken.
    pub waiting: RuleQueue,
}

impl Reacher {
    /// Makes the buffers, with no open rule.
    fn new(alloc: Global, rules: usize, tokens: usize) -> Result<Reacher, AllocError>
        ensures { IfOk result (λ r. HasReach rules tokens r) }
    {
        Ok(Reacher {
            opening: Opening::empty(alloc, rules, tokens)?,
            passed: Vob::from_elem(alloc, false, rules)?,
            marked: Vec::new(alloc),
            looks: Vob::from_elem(alloc, false, tokens)?,
            waiting: RuleQueue::empty(alloc, rules)?,
        })
    }
}

/// Returns what a rule reaches.
fn reached_by(
    alloc: Global,
    openers: &Openers,
    reacher: &mut Reacher,
    rule: usize,
) -> Result<Vec<Opener>, AllocError>
    requires rule { rule < length openers.now }
    requires reacher { HasReach (length openers.now) reacher.old.opening.tokens reacher.old }
    requires fit { (A : ℕ) → AllFit (length openers.now) reacher.old.opening.tokens (get_or openers.now A []) }
    ensures reached { IfOk result (λ v. IsReachedBy openers.now reacher.old.opening.tokens rule (map front_of v.items)) }
    ensures reacher { OnOk result (HasReach (length openers.now) reacher.old.opening.tokens reacher.new) }
{
    mark_reached(openers, &mut reacher.passed, &mut reacher.marked, rule)?;
    reacher
        .opening
        .open_from(openers, &mut reacher.looks, &mut reacher.waiting, rule)?;
    let list = reacher.opening.to_openers(alloc, &reacher.passed)?;
    Ok(list)
}

/// Returns what a rule reaches if it is marked, and else no list.
fn reached_if_marked(
    alloc: Global,
    openers: &Openers,
    reacher: &mut Reacher,
    marks: &Vob,
    rule: usize,
) -> Result<Vec<Opener>, AllocError>
    requires rule { rule < length openers.now }
    requires reacher { HasReach (length openers.now) reacher.old.opening.tokens reacher.old }
    requires fit { (A : ℕ) → AllFit (length openers.now) reacher.old.opening.tokens (get_or openers.now A []) }
    ensures reached { IfOk result (λ v. MayBeReachedBy openers.now reacher.old.opening.tokens rule (map front_of v.items)) }
    ensures reacher { OnOk result (HasReach (length openers.now) reacher.old.opening.tokens reacher.new) }
{
    match marks.get(rule) {
        Some(true) => {
            let list = reached_by(alloc, openers, reacher, rule)?;
            Ok(list)
        }
        _ => Ok(Vec::new(alloc)),
    }
}

/// Returns what each marked rule reaches, and an empty list for the others, by these buffers.
fn lists_by(
    alloc: Global,
    openers: &Openers,
    reacher: &mut Reacher,
    marks: &Vob,
) -> Result<Vec<Vec<Opener>>, AllocError>
    requires reacher { HasReach (length openers.now) reacher.old.opening.tokens reacher.old }
    requires fit { (A : ℕ) → AllFit (length openers.now) reacher.old.opening.tokens (get_or openers.now A []) }
    ensures { IfOk result (λ lists. AreReachedBy openers.now reacher.old.opening.tokens (map (λ l. map front_of l.items) lists.items)) }
{
    let rules = openers.len();
    let mut reached = Vec::with_capacity(alloc, rules)?;
    'rules: for rule in 0..rules {
        let list = reached_if_marked(alloc, openers, reacher, marks, rule)?;
        reached.push(list)?;
    }
    Ok(reached)
}

/// Returns what each marked rule reaches, and an empty list for the others.
fn reached_lists(
    alloc: Global,
    openers: &Openers,
    marks: &Vob,
    tokens: usize,
) -> Result<Vec<Vec<Opener>>, AllocError>
    requires { (A : ℕ) → AllFit (length openers.now) tokens (get_or openers.now A []) }
    ensures { IfOk result (λ lists. AreReachedBy openers.now tokens (map (λ l. map front_of l.items) lists.items)) }
{
    let mut reacher = Reacher::new(alloc, openers.len(), tokens)?;
    let lists = lists_by(alloc, openers, &mut reacher, marks);
    drop(reacher);
    lists
}

/// Returns the openers with what each marked rule reaches.
pub(crate) fn with_reached(
    alloc: Global,
    openers: Openers,
    marks: &Vob,
    tokens: usize,
) -> Result<Openers, AllocError>
    requires { (A : ℕ) → AllFit (length openers) tokens (get_or openers A []) }
    ensures { IfOk result (λ o. o ≡ openers) }
{
    match reached_lists(alloc, &openers, marks, tokens) {
        Ok(lists) => Ok(openers.with_reached(lists, tokens)),
        Err(e) => {
            drop(openers);
            Err(e)
        }
    }
}
