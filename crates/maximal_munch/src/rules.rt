//! Rules: what each matches, where it is active, and what it does to the start condition.

ghost use Rattle.std.specs.Prelude.{◌≡◌, ◌++◌, ◌∷◌, [], map, slice_index_or, IfOk, IfSome, OnOk, OnErr};
ghost use Rattle.regex.specs.Strings.{regex_pattern};
ghost use Rattle.maximal_munch.specs.Beginnings.{rows_of, LosesNone};

use crate::beginnings::first_bytes;
use crate::tried::TriedRules;
use regex::{Matcher, Regex};
use regex_levels::Level;
use regex_syntax::Config;
use std::alloc::{AllocError, Global};

/// What a rule does to the stack of start conditions.
#[derive(Clone, Copy, Debug, PartialEq, Eq)]
pub enum Target {
    /// Nothing.
    Stay,
    /// This condition takes the place of all of the stack.
    Replace(usize),
    /// This condition is put on the top.
    Push(usize),
    /// The one at the top is taken off. Where none is below it, condition 0 takes its place.
    Pop,
}

/// An expression with the start conditions that it is active in.
#[derive(Drop)]
pub struct Rule {
    /// What is searched for, from the offset on.
    pub regex: Regex,
    /// The numbers of the conditions that the rule is limited to. If there are none, it is active in each one that isn't
    /// exclusive.
    pub conditions: Vec<usize>,
    /// What happens where the rule has matched.
    pub target: Target,
}

impl Rule {
    ghost use Rattle.maximal_munch.specs.RuleValues.{is_active};

    /// Returns whether the rule is active in a condition, of which `exclusive` says whether it is limited to rules that name it.
    fn is_active(&self, exclusive: bool, condition: usize) -> bool
        ensures { result ≡ is_active exclusive condition self.now.conditions.items }
    {
        if self.conditions.is_empty() {
            return !exclusive;
        }
        self.conditions.contains(&condition)
    }
}

/// Rules in order, and start conditions by number, of which each may be exclusive. Lexing begins in condition 0.
#[derive(Drop)]
pub struct RuleSet {
    exclusive: Vec<bool>,
    rules: Vec<Rule>,
    tried: TriedRules,
    ghost loses_none: { LosesNone (rows_of tried) (map (λ r. regex_pattern r.regex) rules.items) },
}

impl RuleSet {
    ghost use Rattle.regex.specs.Strings.{matcher_pattern, regex_config, IsReadFromSource};
    ghost use Rattle.maximal_munch.specs.Beginnings.{BeginsIn};
    ghost use Rattle.maximal_munch.specs.RuleValues.{rule_set_of, rule_value, is_active_at, target_at, pattern_of_rule};

    /// Makes a set of no rule and no condition. A condition that isn't in the set isn't exclusive.
    pub fn new(alloc: Global) -> RuleSet
        ensures { rule_set_of result ≡ record { exclusive = []; rules = [] } }
    {
        RuleSet {
            exclusive: Vec::new(alloc),
            rules: Vec::new(alloc),
            tried: TriedRules::new(alloc),
        }
    }

    /// Adds a rule behind the others. It is tried at each offset.
    pub fn push(&mut self, rule: Rule) -> Result<(), AllocError>
        ensures ok { OnOk result (rule_set_of self.new ≡ record (rule_set_of self.old) { rules = (rule_set_of self.old).rules ++ rule_value rule ∷ [] }) }
        ensures err { OnErr result (rule_set_of self.new ≡ rule_set_of self.old) }
    {
        self.push_tried(rule, None)
    }

    /// Adds a rule behind the others. Its expression is read once more, with the options that it was compiled with, for the bytes
    /// that its matches begin with: the rule is tried before these alone.
    pub fn push_read(
        &mut self,
        alloc: Global,
        rule: Rule,
        config: &Config,
    ) -> Result<(), AllocError>
        requires config { regex_config rule.regex ≡ config.now }
        requires read { IsReadFromSource rule.regex }
        ensures ok { OnOk result (rule_set_of self.new ≡ record (rule_set_of self.old) { rules = (rule_set_of self.old).rules ++ rule_value rule ∷ [] }) }
        ensures err { OnErr result (rule_set_of self.new ≡ rule_set_of self.old) }
    {
        let first = first_bytes(alloc, &rule.regex, config)?;
        self.push_tried(rule, first)
    }

    /// Adds a rule that is tried before these bytes, or before each one.
    fn push_tried(&mut self, rule: Rule, first: Option<Level>) -> Result<(), AllocError>
        requires { IfSome first (BeginsIn (regex_pattern rule.regex)) }
        ensures ok { OnOk result (rule_set_of self.new ≡ record (rule_set_of self.old) { rules = (rule_set_of self.old).rules ++ rule_value rule ∷ [] }) }
        ensures err { OnErr result (rule_set_of self.new ≡ rule_set_of self.old) }
    {
        let first = first.unwrap_or([true; 256]);
        self.tried.add(self.rules.len(), &first)?;
        self.rules.push(rule)?;
        Ok(())
    }

    /// Returns the numbers of the rules that are tried before a byte.
    pub(crate) fn tried_before(&self, byte: u8) -> &[usize]
        ensures { result.now ≡ slice_index_or (rows_of self.now.tried) byte [] }
    {
        self.tried.at(byte)
    }

    /// Adds the next condition, and whether it is exclusive.
    pub fn push_condition(&mut self, exclusive: bool) -> Result<(), AllocError>
        ensures ok { OnOk result (rule_set_of self.new ≡ record (rule_set_of self.old) { exclusive = (rule_set_of self.old).exclusive ++ exclusive ∷ [] }) }
        ensures err { OnErr result (rule_set_of self.new ≡ rule_set_of self.old) }
    {
        self.exclusive.push(exclusive)?;
        Ok(())
    }

    /// Returns whether a rule is there and is active in a condition.
    pub(crate) fn is_active(&self, rule: usize, condition: usize) -> bool
        ensures { result ≡ is_active_at (rule_set_of self.now) condition rule }
    {
        let exclusive = self.exclusive.get(condition).copied().unwrap_or(false);
        match self.rules.get(rule) {
            Some(rule) => rule.is_active(exclusive, condition),
            None => false,
        }
    }

    /// Returns what a rule does to the stack of conditions; one that isn't there does nothing.
    pub(crate) fn target(&self, rule: usize) -> Target
        ensures { result ≡ target_at (rule_set_of self.now) rule }
    {
        match self.rules.get(rule) {
            Some(rule) => rule.target,
            None => Target::Stay,
        }
    }

    /// Makes what searches for each rule.
    pub(crate) fn matchers(&self, alloc: Global) -> Result<Vec<Matcher<'_>>, AllocError>
        ensures { IfOk result (λ ms. map matcher_pattern ms.items ≡ map pattern_of_rule (rule_set_of self.now).rules) }
    {
        let mut matchers = Vec::with_capacity(alloc, self.rules.len())?;
        'rules: for index in 0..self.rules.len() {
            matchers.push(self.rules[index].regex.matcher(alloc)?)?;
        }
        Ok(matchers)
    }
}
