//! The parts of a text.

ghost use Rattle.std.specs.Prelude.{◌≡◌, [], map, IfOk};
ghost use Rattle.regex.specs.Strings.{matcher_pattern};
ghost use Rattle.maximal_munch.specs.RuleValues.{rule_set_of, pattern_of_rule};
ghost use Rattle.maximal_munch.specs.Munching.{Munches};

use crate::conditions::Conditions;
use crate::matching::best_match;
use crate::rules::RuleSet;
use regex::Matcher;
use std::alloc::{AllocError, Global};

/// A part of a text that a rule has matched.
#[derive(Clone, Copy, Debug, PartialEq, Eq)]
pub struct Part {
    /// The rule's number, from 0 on.
    pub rule: usize,
    /// The byte offset of the part.
    pub start: usize,
    /// The number of its bytes, at least one.
    pub len: usize,
}

/// Where lexing ends.
#[derive(Clone, Copy, Debug, PartialEq, Eq)]
pub enum Ending {
    /// At the text's end.
    Finished,
    /// At this byte offset, where no rule that is active matches.
    NoMatch(usize),
}

/// The parts of a text, in order, and where its lexing ends.
#[derive(Drop)]
pub struct Munched {
    /// Each part begins where the one before it ends.
    pub parts: Vec<Part>,
    /// The text's end, or the first offset at which there is no part.
    pub ending: Ending,
}

/// Returns the parts of a text by the rules. The time is that of a search at each part for each active rule.
pub fn munch(alloc: Global, rules: &RuleSet, text: &str) -> Result<Munched, AllocError>
    ensures { IfOk result (λ m. Munches (rule_set_of rules.now) text.now m.parts.items m.ending) }
{
    let mut matchers = rules.matchers(alloc)?;
    let mut parts = Vec::new(alloc);
    match push_parts(alloc, rules, &mut matchers, text, &mut parts) {
        Ok(ending) => {
            drop(matchers);
            Ok(Munched { parts, ending })
        }
        Err(e) => {
            drop(matchers);
            Err(e)
        }
    }
}

/// Puts the parts of a text into an empty list, and returns where lexing ends.
fn push_parts(
    alloc: Global,
    rules: &RuleSet,
    matchers: &mut Vec<Matcher<'_>>,
    text: &str,
    parts: &mut Vec<Part>,
) -> Result<Ending, AllocError>
    requires patterns { map matcher_pattern matchers.old.items ≡ map pattern_of_rule (rule_set_of rules.now).rules }
    requires empty { parts.old.items ≡ [] }
    ensures { IfOk result (λ e. Munches (rule_set_of rules.now) text.now parts.new.items e) }
{
    let mut conditions = Conditions {
        current: 0,
        below: Vec::new(alloc),
    };
    let mut rest = text;
    let mut offset = 0;
    'text: while !rest.is_empty() {
        let best = best_match(rules, matchers, conditions.current, rest);
        if best.len == 0 {
            return Ok(Ending::NoMatch(offset));
        }
        conditions.follow(rules.target(best.rule))?;
        parts.push(Part {
            rule: best.rule,
            start: offset,
            len: best.len,
        })?;
        rest = &rest[best.len..];
        offset += best.len;
    }
    Ok(Ending::Finished)
}
