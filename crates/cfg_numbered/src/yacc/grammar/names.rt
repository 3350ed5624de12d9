//! Data beside the numbers: names, spans in the text, and precedences.

ghost use Rattle.std.specs.Prelude.{◌≡◌, ◌<◌, ℕ, length, slice_get, option_map, Some, IfSome, IfNone, MatchOption};
ghost use Rattle.cfg_theory.specs.Grammar.{end_token};
ghost use Rattle.cfg_numbered.specs.Value.{IsRuleNamed, IsTokenNamed, GrammarLevelsHaveOneKind};

use super::{NumberedGrammar, index_of};
use cfg_base::index::IndexStorage;
use cfg_base::precedence::Precedence;
use cfg_base::span::Span;
use cfg_base::symbol::{PIdx, RIdx, TIdx};

impl<S: IndexStorage> NumberedGrammar<S> {
    /// Returns the name of a rule.
    pub fn rule_name_str(&self, ridx: RIdx<S>) -> &str
        requires { S.number ridx.0 < self.now.grammar.rules }
        ensures { IsRuleNamed self.now (S.number ridx.0) result.now }
    {
        self.rule_info(ridx).0
    }

    /// Returns the name of a rule, as `rule_name_str` does.
    pub fn rule_name(&self, ridx: RIdx<S>) -> &str
        requires { S.number ridx.0 < self.now.grammar.rules }
        ensures { IsRuleNamed self.now (S.number ridx.0) result.now }
    {
        self.rule_name_str(ridx)
    }

    /// Returns the rule with a name. A name is that of one rule at most.
    pub fn rule_idx(&self, name: &str) -> Option<RIdx<S>>
        ensures found { IfSome result (λ r. IsRuleNamed self.now (S.number r.0) name.now) }
        ensures within { IfSome result (λ r. S.number r.0 < self.now.grammar.rules) }
        ensures none { IfNone result ((A : ℕ) → IsRuleNamed self.now A name.now → ⊥) }
        ensures only { (A B : ℕ) → IsRuleNamed self.now A name.now → IsRuleNamed self.now B name.now → A ≡ B }
    {
        match self.rules.get_index_of(name) {
            Some(index) => Some(RIdx(index_of(index))),
            None => None,
        }
    }

    /// Returns the token with a name. A name is that of one token at most, and the end token has none.
    pub fn token_idx(&self, name: &str) -> Option<TIdx<S>>
        ensures found { IfSome result (λ t. IsTokenNamed self.now (S.number t.0) name.now) }
        ensures within { IfSome result (λ t. S.number t.0 < self.now.grammar.tokens) }
        ensures none { IfNone result ((t : ℕ) → IsTokenNamed self.now t name.now → ⊥) }
        ensures only { (t u : ℕ) → IsTokenNamed self.now t name.now → IsTokenNamed self.now u name.now → t ≡ u }
    {
        match self.tokens.get_index_of(name) {
            Some(index) => Some(TIdx(index_of(index))),
            None => None,
        }
    }

    /// Returns the name of a token; None of the end token.
    pub fn token_name(&self, tidx: TIdx<S>) -> Option<&str>
        requires { S.number tidx.0 < self.now.grammar.tokens }
        ensures name { option_map (λ t. t.name) (slice_get self.now.tokens (S.number tidx.0)) ≡ Some (option_map (λ s. s.now) result) }
        ensures end { MatchOption result (S.number tidx.0 ≡ end_token self.now.grammar) (λ _. S.number tidx.0 < end_token self.now.grammar) }
    {
        match self.token_info(tidx) {
            Some((name, _)) => Some(name),
            None => None,
        }
    }

    /// Returns the byte span of a rule's name in the text; (0, 0) for a rule that the text doesn't have.
    pub fn rule_name_span(&self, ridx: RIdx<S>) -> Span
        requires { S.number ridx.0 < self.now.grammar.rules }
        ensures { option_map (λ r. r.span) (slice_get self.now.rules (S.number ridx.0)) ≡ Some result }
    {
        self.rule_info(ridx).1.span
    }

    /// Returns the byte span of a token's first appearance in the text; `None` for the end token.
    pub fn token_span(&self, tidx: TIdx<S>) -> Option<Span>
        requires { S.number tidx.0 < self.now.grammar.tokens }
        ensures { option_map (λ t. t.span) (slice_get self.now.tokens (S.number tidx.0)) ≡ Some result }
    {
        match self.token_info(tidx) {
            Some((_, token)) => Some(token.span),
            None => None,
        }
    }

    /// Returns the precedence that the text declares for a token. Precedences of one level have one kind, those
    /// of productions too.
    pub fn token_precedence(&self, tidx: TIdx<S>) -> Option<Precedence>
        requires { S.number tidx.0 < self.now.grammar.tokens }
        ensures value { option_map (λ t. t.precedence) (slice_get self.now.tokens (S.number tidx.0)) ≡ Some result }
        ensures levels { GrammarLevelsHaveOneKind self.now }
    {
        match self.token_info(tidx) {
            Some((_, token)) => token.precedence,
            None => None,
        }
    }

    /// Returns the precedence of a production. Precedences of one level have one kind, those of tokens too.
    pub fn prod_precedence(&self, pidx: PIdx<S>) -> Option<Precedence>
        requires { S.number pidx.0 < length self.now.grammar.productions }
        ensures value { option_map (λ p. p.precedence) (slice_get self.now.productions (S.number pidx.0)) ≡ Some result }
        ensures levels { GrammarLevelsHaveOneKind self.now }
    {
        self.prods[pidx.0.to_usize()].precedence
    }

    /// Returns the byte span of a production in the text.
    pub fn prod_span(&self, pidx: PIdx<S>) -> Span
        requires { S.number pidx.0 < length self.now.grammar.productions }
        ensures { option_map (λ p. p.span) (slice_get self.now.productions (S.number pidx.0)) ≡ Some result }
    {
        self.prods[pidx.0.to_usize()].span
    }
}
