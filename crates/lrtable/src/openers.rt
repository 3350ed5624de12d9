//! The left corners of rules: the rules that come first in productions, with what may follow them there.

ghost use Rattle.std.specs.Prelude.{◌≡◌, ◌<◌, [], length, map, get_or, IfOk, IfSome, OnOk};
ghost use Rattle.std.specs.List.{Contains};
ghost use Rattle.cfg_sets.specs.Firsts.{AreFirsts};
ghost use Rattle.cfg_numbered.specs.Value.{productions_of};
ghost use Rattle.lrtable.specs.Closes.{AreFronts, AreFrontsOf, PutsFront, PutsAt, joined_front};
ghost use Rattle.lrtable.specs.Fronts.{front_of, front_with};
ghost use Rattle.lrtable.specs.Opening.{Front};
ghost use Rattle.lrtable.specs.Reaching.{AreReachedBy, IsReachedBy};

use crate::capacities::zeros;
use crate::tails::{Rest, fill_rest, rule_after};
use cfg_base::index::IndexStorage;
use cfg_base::symbol::{PIdx, RIdx};
use cfg_numbered::yacc::NumberedGrammar;
use cfg_sets::YaccFirsts;
use std::alloc::{AllocError, Global};
use std::marker::Model;

/// A rule that comes first in a production, and what follows it there.
#[derive(Drop)]
pub(crate) struct Opener {
    pub rule: usize,
    pub rest: Rest,
}

/// For each rule, the rules that come first in its productions. For the rules of which it was asked, also all rules
/// that the rule reaches in this way, with what is brought to each of them.
#[derive(Drop)]
pub(crate) struct Openers {
    rules: Vec<Vec<Opener>>,
    reached: Vec<Vec<Opener>>,
    tokens: usize,
}

impl Model for Openers {
    ghost use Rattle.std.specs.Prelude.{List, map};
    ghost use Rattle.lrtable.specs.Opening.{Front};
    ghost use Rattle.lrtable.specs.Fronts.{front_of};
    ghost use Rattle.lrtable.specs.Reaching.{AreReachedBy};

    ghost Value = { List (List Front) };

    ghost view = { λ o. map (λ l. map front_of l.items) o.rules.items };

    ghost invariant = { λ o. AreReachedBy (map (λ l. map front_of l.items) o.rules.items) o.tokens (map (λ l. map front_of l.items) o.reached.items) };
}

/// Returns the index of the opener of a rule, if it is where the rule's last opener was put.
fn opener_of(openers: &[Opener], places: &[usize], rule: usize) -> Option<usize>
    ensures { IfSome result (λ k. (k < length openers.now) × ((d : Front) → (get_or (map front_of openers.now) k d).rule ≡ rule)) }
{
    let place = *places.get(rule)?;
    match openers.get(place) {
        Some(opener) if opener.rule == rule => Some(place),
        _ => None,
    }
}

/// Adds what may follow a rule in another production.
fn join_rest(opener: &mut Opener, rest: &Rest)
    requires { length opener.old.rest.first.bits ≡ length rest.now.first.bits }
    ensures { front_of opener.new ≡ joined_front (front_of opener.old) rest.now.first.bits rest.now.nullable }
{
    opener.rest.first.or(&rest.first);
    opener.rest.nullable |= rest.nullable;
}

/// Puts what a production opens with the others, if it begins with a rule: one opener for each rule.
fn put_opener<S: IndexStorage>(
    alloc: Global,
    grm: &NumberedGrammar<S>,
    firsts: &YaccFirsts<S>,
    pidx: PIdx<S>,
    openers: &mut Vec<Opener>,
    places: &mut [usize],
) -> Result<(), AllocError>
    requires production { S.number pidx.0 < length grm.now.grammar.productions }
    requires firsts { AreFirsts grm.now.grammar firsts.now }
    requires width { (e : Front) → Contains (map front_of openers.old.items) e → length e.first ≡ grm.now.grammar.tokens }
    ensures { OnOk result (PutsFront grm.now.grammar (S.number pidx.0) (map front_of openers.old.items) (map front_of openers.new.items)) }
{
    match rule_after(grm, pidx, 0) {
        Some(ridx) => {
            let mut rest = Rest::empty(alloc, grm.tokens_len().0.to_usize())?;
            fill_rest(grm, firsts, pidx, 0, &mut rest);
            put_rest(openers, places, ridx.0.to_usize(), rest)
        }
        None => Ok(()),
    }
}

/// Puts a rule that comes first in a production with the others, and what follows it there.
fn put_rest(
    openers: &mut Vec<Opener>,
    places: &mut [usize],
    rule: usize,
    rest: Rest,
) -> Result<(), AllocError>
    requires { (e : Front) → Contains (map front_of openers.old.items) e → length e.first ≡ length rest.first.bits }
    ensures { OnOk result (PutsAt (front_with rule rest) (map front_of openers.old.items) (map front_of openers.new.items)) }
{
    match opener_of(openers.as_slice(), places, rule) {
        Some(k) => {
            join_rest(&mut openers[k], &rest);
            Ok(())
        }
        None => {
            if let Some(place) = places.get_mut(rule) {
                *place = openers.len();
            }
            openers.push(Opener { rule, rest })?;
            Ok(())
        }
    }
}

/// Returns the rules that come first in the productions of a rule. For each rule, `places` has the index that its last opener
/// was put at: what is read there is checked, so these may be left from other rules.
fn openers_of<S: IndexStorage>(
    alloc: Global,
    grm: &NumberedGrammar<S>,
    firsts: &YaccFirsts<S>,
    ridx: RIdx<S>,
    places: &mut [usize],
) -> Result<Vec<Opener>, AllocError>
    requires rule { S.number ridx.0 < grm.now.grammar.rules }
    requires firsts { AreFirsts grm.now.grammar firsts.now }
    ensures { IfOk result (λ v. AreFrontsOf grm.now.grammar (productions_of grm.now.grammar (S.number ridx.0)) (map front_of v.items)) }
{
    let mut openers = Vec::new(alloc);
    let prods = grm.rule_to_prods(ridx);
    'prods: for k in 0..prods.len() {
        put_opener(alloc, grm, firsts, prods[k], &mut openers, places)?;
    }
    Ok(openers)
}

impl Openers {
    /// Computes the left corners of each rule.
    pub(crate) fn new<S: IndexStorage>(
        alloc: Global,
        grm: &NumberedGrammar<S>,
        firsts: &YaccFirsts<S>,
    ) -> Result<Openers, AllocError>
        requires { AreFirsts grm.now.grammar firsts.now }
        ensures { IfOk result (λ o. AreFronts grm.now.grammar o) }
    {
        grm.start_prod();
        let mut rules = Vec::new(alloc);
        let count = grm.rules_len().0.to_usize();
        let mut places = zeros(alloc, count)?;
        'rules: for number in 0..count {
            let ridx = grm.rule_at(number);
            rules.push(openers_of(alloc, grm, firsts, ridx, &mut places)?)?;
        }
        Ok(Openers {
            rules,
            reached: Vec::new(alloc),
            tokens: grm.tokens_len().0.to_usize(),
        })
    }

    /// Adds, for each rule, the list of what it reaches, made for this number of tokens.
    pub(crate) fn with_reached(self, lists: Vec<Vec<Opener>>, tokens: usize) -> Openers
        requires { AreReachedBy self tokens (map (λ l. map front_of l.items) lists.items) }
        ensures { result ≡ self }
    {
        let Openers {
            rules,
            reached: _,
            tokens: _,
        } = self;
        Openers {
            rules,
            reached: lists,
            tokens,
        }
    }

    /// Returns how many rules there are.
    pub(crate) fn len(&self) -> usize
        ensures { result ≡ length self.now }
    {
        self.rules.len()
    }

    /// Returns what a rule reaches, if that was computed for this number of tokens.
    pub(crate) fn reached_from(&self, rule: usize, tokens: usize) -> Option<&[Opener]>
        ensures { IfSome result (λ l. IsReachedBy self.now tokens rule (map front_of l.now)) }
    {
        if tokens != self.tokens {
            return None;
        }
        if rule >= self.reached.len() {
            return None;
        }
        let list = &self.reached[rule];
        if list.is_empty() {
            return None;
        }
        Some(list.as_slice())
    }

    /// Returns the left corners of a rule.
    pub(crate) fn of_rule(&self, rule: usize) -> &[Opener]
        requires { rule < length self.now }
        ensures { map front_of result.now ≡ get_or self.now rule [] }
    {
        self.rules[rule].as_slice()
    }
}
