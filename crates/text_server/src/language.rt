//! A language, and what its texts are to the server.

use crate::completion::completion_answer;
use crate::diagnostics::push_errors;
use crate::outline::outline_answer;
use byte_streams::MOST_BYTES;
use language_server::{
    Answer, Asked, Diagnostic, Language, Offers, Params, Query, ServeFault, View,
};
use lrlex::BoundRules;
use parser_kit::ParserKit;
use std::alloc::Global;

/// A language: its parser, and the rules of its lexer by the parser's tokens.
#[derive(Clone, Copy)]
pub struct TextLanguage<'a> {
    /// The parser.
    pub kit: &'a ParserKit<u32>,
    /// The rules.
    pub bound: &'a BoundRules<'a, u32>,
}

impl<'a> Language for TextLanguage<'a> {
    fn offers(&self) -> Offers {
        Offers::Texts
    }

    fn push_found(
        &self,
        alloc: Global,
        view: &View<'_>,
        found: &mut Vec<Diagnostic>,
    ) -> Result<(), ServeFault> {
        push_errors(alloc, self.kit, self.bound, view, found)
    }

    #[tactic(auto, using(crate::proofs::NoErrors::no_error))]
    fn answer(
        &self,
        alloc: Global,
        asked: &Asked<'_>,
        query: Query,
        params: &Params,
    ) -> Result<Answer, ServeFault> {
        if asked.text.len() > MOST_BYTES {
            return Ok(Answer::Done);
        }
        match query {
            Query::Symbols => outline_answer(alloc, self.kit, self.bound, asked),
            Query::Completion => {
                completion_answer(alloc, self.kit, self.bound, asked, params.place)
            }
            Query::Folds
            | Query::Definition
            | Query::References
            | Query::Highlights
            | Query::Renamable
            | Query::Rename
            | Query::Hover => Ok(Answer::Done),
        }
    }
}
