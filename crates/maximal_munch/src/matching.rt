//! The longest match at one offset.

ghost use Rattle.std.specs.Prelude.{◌≡◌, ◌≤◌, ◌<◌, map, length, if◌then◌else◌};
ghost use Rattle.std.specs.Prelude.{IsCharBoundary};
ghost use Rattle.regex.specs.Strings.{matcher_pattern};
ghost use Rattle.maximal_munch.specs.RuleValues.{rule_set_of, pattern_of_rule};
ghost use Rattle.maximal_munch.specs.Beginnings.{match_len};
ghost use Rattle.maximal_munch.specs.Munching.{len_at, IsBest};

use crate::rules::RuleSet;
use regex::Matcher;

/// A rule, and the bytes that it matches.
#[derive(Clone, Copy)]
pub(crate) struct Best {
    pub(crate) rule: usize,
    pub(crate) len: usize,
}

/// Returns the length of the match at the front of the rest, 0 where there is none.
fn match_len(matcher: &mut Matcher<'_>, rest: &str) -> usize
    ensures value { result ≡ match_len (matcher_pattern matcher.old) rest.now }
    ensures within { result ≤ length rest.now }
    ensures cut { IsCharBoundary rest.now result }
    ensures same { matcher_pattern matcher.new ≡ matcher_pattern matcher.old }
{
    match matcher.find(rest) {
        Some(found) => { if found.start() == 0 { found.end() } else { 0 } }
        None => 0,
    }
}

/// Returns the length of a rule's match, 0 where it isn't active in the condition.
fn rule_len(
    rules: &RuleSet,
    matchers: &mut Vec<Matcher<'_>>,
    index: usize,
    condition: usize,
    rest: &str,
) -> usize
    requires patterns { map matcher_pattern matchers.old.items ≡ map pattern_of_rule (rule_set_of rules.now).rules }
    ensures value { result ≡ len_at (rule_set_of rules.now) condition rest.now index }
    ensures within { result ≤ length rest.now }
    ensures cut { IsCharBoundary rest.now result }
    ensures same { map matcher_pattern matchers.new.items ≡ map matcher_pattern matchers.old.items }
{
    if index < matchers.len() && rules.is_active(index, condition) {
        match_len(&mut matchers[index], rest)
    } else {
        0
    }
}

/// Returns the first of the rules that match most, or a length of 0 where none matches.
pub(crate) fn best_match(
    rules: &RuleSet,
    matchers: &mut Vec<Matcher<'_>>,
    condition: usize,
    rest: &str,
) -> Best
    requires patterns { map matcher_pattern matchers.old.items ≡ map pattern_of_rule (rule_set_of rules.now).rules }
    requires some { 0 < length rest.now }
    ensures best { IsBest (len_at (rule_set_of rules.now) condition rest.now) result.rule result.len }
    ensures within { result.len ≤ length rest.now }
    ensures cut { IsCharBoundary rest.now result.len }
    ensures same { map matcher_pattern matchers.new.items ≡ map matcher_pattern matchers.old.items }
{
    let mut best = Best { rule: 0, len: 0 };
    let tried = rules.tried_before(rest.as_bytes()[0]);
    'rules: for index in 0..tried.len() {
        let rule = tried[index];
        let len = rule_len(rules, matchers, rule, condition, rest);
        if len > best.len || (len == best.len && rule < best.rule) {
            best = Best { rule, len };
        }
    }
    best
}
