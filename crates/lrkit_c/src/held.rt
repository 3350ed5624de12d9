//! What a parser's handle holds.

use lrlex::LexRules;
use parser_kit::ParserKit;

/// A kit, with the rules of a lexer if it was made with any.
#[derive(Drop)]
pub struct Held {
    /// The kit.
    pub kit: ParserKit<u32>,
    /// The rules.
    pub rules: Option<LexRules>,
}
