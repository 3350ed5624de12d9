//! Texts and numbers of the file that mean nothing to the grammar.

ghost use Rattle.std.specs.Prelude.{◌≡◌, ◌<◌, ◌∷◌, [], ℕ, length, slice_get, option_map, Some, IfSome, MatchOption};
ghost use Rattle.std.specs.String.{string_bytes};
ghost use Rattle.cfg_theory.specs.Grammar.{end_token};
ghost use Rattle.cfg_numbered.specs.Info.{param_facts, token_beside};
ghost use Rattle.cfg_numbered.specs.Value.{IsRuleNamed, shown_text};

use super::NumberedGrammar;
use crate::yacc::info::TokenInfo;
use cfg_base::index::IndexStorage;
use cfg_base::span::Span;
use cfg_base::symbol::{PIdx, RIdx, TIdx};

impl<S: IndexStorage> NumberedGrammar<S> {
    /// Returns the text by which messages show a token: that of `%epp`, else its name; None of the end token.
    pub fn token_epp(&self, tidx: TIdx<S>) -> Option<&str>
        requires { S.number tidx.0 < self.now.grammar.tokens }
        ensures text { option_map shown_text (slice_get self.now.tokens (S.number tidx.0)) ≡ Some (option_map (λ s. s.now) result) }
        ensures end { MatchOption result (S.number tidx.0 ≡ end_token self.now.grammar) (λ _. S.number tidx.0 < end_token self.now.grammar) }
    {
        match self.token_info(tidx) {
            Some((name, token)) => Some(name_to_show(name, token)),
            None => None,
        }
    }

    /// Returns whether `%avoid_insert` names a token.
    pub fn avoid_insert(&self, tidx: TIdx<S>) -> bool
        requires { S.number tidx.0 < self.now.grammar.tokens }
        ensures { option_map (λ t. t.is_avoided) (slice_get self.now.tokens (S.number tidx.0)) ≡ Some result }
    {
        match self.token_info(tidx) {
            Some((_, token)) => token.is_avoided,
            None => false,
        }
    }

    /// Returns the action of a production, without its braces.
    pub fn action(&self, pidx: PIdx<S>) -> &Option<String>
        requires { S.number pidx.0 < length self.now.grammar.productions }
        ensures { option_map (λ p. p.action) (slice_get self.now.productions (S.number pidx.0)) ≡ Some (option_map string_bytes result.now) }
    {
        &self.prods[pidx.0.to_usize()].action
    }

    /// Returns the byte span of a production's action.
    pub fn action_span(&self, pidx: PIdx<S>) -> Option<Span>
        requires { S.number pidx.0 < length self.now.grammar.productions }
        ensures { option_map (λ p. p.action_span) (slice_get self.now.productions (S.number pidx.0)) ≡ Some result }
    {
        self.prods[pidx.0.to_usize()].action_span
    }

    /// Returns the type of the actions of a rule.
    pub fn actiontype(&self, ridx: RIdx<S>) -> &Option<String>
        requires { S.number ridx.0 < self.now.grammar.rules }
        ensures { option_map (λ r. r.action_type) (slice_get self.now.rules (S.number ridx.0)) ≡ Some (option_map string_bytes result.now) }
    {
        &self.rule_info(ridx).1.action_type
    }

    /// Returns the name and the type of `%parse-param`.
    pub fn parse_param(&self) -> &Option<(String, String)>
        ensures { option_map param_facts result.now ≡ self.now.kept.parse_param }
    {
        &self.kept.parse_param
    }

    /// Returns the text of `%parse-generics`.
    pub fn parse_generics(&self) -> &Option<String>
        ensures { option_map string_bytes result.now ≡ self.now.kept.parse_generics }
    {
        &self.kept.parse_generics
    }

    /// Returns the text behind the second `%%`.
    pub fn programs(&self) -> &Option<String>
        ensures { option_map string_bytes result.now ≡ self.now.kept.programs }
    {
        &self.kept.programs
    }

    /// Returns how many conflicts between shifts and reductions are expected.
    pub fn expect(&self) -> Option<usize>
        ensures { result ≡ self.now.kept.expect }
    {
        self.kept.expect
    }

    /// Returns how many conflicts among reductions are expected.
    pub fn expectrr(&self) -> Option<usize>
        ensures { result ≡ self.now.kept.expect_rr }
    {
        self.kept.expect_rr
    }

    /// Returns the rule `~` of the tokens that may appear anywhere, where the text declares such.
    pub fn implicit_rule(&self) -> Option<RIdx<S>>
        ensures value { option_map (λ r. S.number r.0) result ≡ self.now.kept.implicit_rule }
        ensures named { IfSome result (λ r. IsRuleNamed self.now (S.number r.0) (126 ∷ [])) }
    {
        self.kept.implicit_rule
    }
}

fn name_to_show<'a>(name: &'a str, token: &'a TokenInfo) -> &'a str
    ensures { shown_text (token_beside name.now token.now) ≡ Some result.now }
{
    match &token.epp {
        Some(text) => text.as_str(),
        None => name,
    }
}
