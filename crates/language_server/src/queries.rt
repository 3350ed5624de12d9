//! Answers to what is asked of a document.

ghost use Rattle.std.specs.Prelude.{◌≡◌, IfOk, None};
ghost use Rattle.language_server.specs.Protocol.{MayFail, error_in};

use crate::answers::Answer;
use crate::asked::Asked;
use crate::completion::completion_answer;
use crate::hovering::hover_answer;
use crate::messages::{Params, Query};
use crate::naming::{
    definition_answer, highlights_answer, references_answer, renamable_answer, rename_answer,
};
use crate::outline::{folds_answer, symbols_answer};
use std::alloc::{AllocError, Global};

/// Answers what is asked of a document.
#[tactic(auto, using(crate::proofs::Errors::no_error))]
pub fn query_answer(
    alloc: Global,
    asked: &Asked<'_>,
    query: Query,
    params: &Params,
) -> Result<Answer, AllocError>
    ensures { IfOk result (λ a. MayFail (error_in a) query) }
{
    match query {
        Query::Symbols => symbols_answer(alloc, asked),
        Query::Folds => folds_answer(alloc, asked),
        Query::Definition => definition_answer(alloc, asked, params),
        Query::References => references_answer(alloc, asked, params),
        Query::Highlights => highlights_answer(alloc, asked, params),
        Query::Renamable => Ok(renamable_answer(asked, params)),
        Query::Rename => rename_answer(alloc, asked, params),
        Query::Completion => completion_answer(alloc, asked, params),
        Query::Hover => hover_answer(alloc, asked, params),
    }
}
