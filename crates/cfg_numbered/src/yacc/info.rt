//! What a grammar value has beside each number.

use cfg_base::precedence::Precedence;
use cfg_base::span::Span;
use cfg_base::symbol::{RIdx, Symbol};

/// The data beside the name of a rule.
#[derive(Drop)]
pub struct RuleInfo {
    /// The byte span of the rule's name in its first heading.
    pub span: Span,
    /// The type of its actions.
    pub action_type: Option<String>,
}

/// The data beside the name of a token. The end token has no name, and none of these.
#[derive(Drop)]
pub struct TokenInfo {
    /// The byte span of the token's first appearance, without quotes.
    pub span: Span,
    /// The text by which messages show it, where it isn't the name.
    pub epp: Option<String>,
    /// Its precedence, where one is declared.
    pub precedence: Option<Precedence>,
    /// Whether repairs should rather not insert it.
    pub is_avoided: bool,
}

/// A production with the data beside its number.
#[derive(Drop)]
pub struct ProductionInfo<S> {
    /// The rule that it is of.
    pub rule: RIdx<S>,
    /// Its symbols, in order.
    pub symbols: Vec<Symbol<S>>,
    /// The byte span of the production in the text.
    pub span: Span,
    /// Its precedence, where it has one.
    pub precedence: Option<Precedence>,
    /// The text of its action, without the braces.
    pub action: Option<String>,
    /// The byte span of the action's trimmed text.
    pub action_span: Option<Span>,
}

/// Data of the whole text that derivations don't depend on.
#[derive(Drop)]
pub struct KeptInfo<S> {
    /// The rule `~` of the tokens that may appear anywhere, where there are such.
    pub implicit_rule: Option<RIdx<S>>,
    /// The name and the type of the parameter that actions share.
    pub parse_param: Option<(String, String)>,
    /// The type parameters of the parser.
    pub parse_generics: Option<String>,
    /// The text behind the rules.
    pub programs: Option<String>,
    /// How many conflicts between shifts and reductions are expected.
    pub expect: Option<usize>,
    /// How many conflicts among reductions are expected.
    pub expect_rr: Option<usize>,
}
