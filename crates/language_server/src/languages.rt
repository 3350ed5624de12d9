//! What is served: which documents, what is wrong with them, and what is answered of them.

ghost use Rattle.std.specs.Prelude.{IfOk};
ghost use Rattle.language_server.specs.Protocol.{MayFail, error_in};

use crate::answers::{Answer, Diagnostic, Offers};
use crate::asked::Asked;
use crate::diagnostics::{View, push_diagnostics};
use crate::fault::ServeFault;
use crate::messages::{Params, Query};
use crate::queries::query_answer;
use bison_sources::bison_sign;
use grammar_index::GrammarIndex;
use std::alloc::{AllocError, Global};

/// Serves documents of one kind.
pub trait Language {
    /// Returns which requests are offered.
    fn offers(&self) -> Offers;

    /// Returns where a document's text names rules and tokens: nowhere, if it is no grammar.
    fn index(&self, alloc: Global, _text: &str) -> Result<GrammarIndex, AllocError> {
        Ok(GrammarIndex::empty(alloc))
    }

    /// Adds what is found of a document.
    fn push_found(
        &self,
        alloc: Global,
        view: &View<'_>,
        found: &mut Vec<Diagnostic>,
    ) -> Result<(), ServeFault>;

    /// Answers what is asked of a document.
    fn answer(
        &self,
        alloc: Global,
        asked: &Asked<'_>,
        query: Query,
        params: &Params,
    ) -> Result<Answer, ServeFault>
        ensures { IfOk result (λ a. MayFail (error_in a) query) };
}

/// Serves grammar files.
#[derive(Clone, Copy, Debug)]
pub struct GrammarFiles;

impl Language for GrammarFiles {
    fn offers(&self) -> Offers {
        Offers::Grammars
    }

    fn index(&self, alloc: Global, text: &str) -> Result<GrammarIndex, AllocError> {
        if bison_sign(text).is_some() {
            return Ok(GrammarIndex::empty(alloc));
        }
        GrammarIndex::of_text(alloc, text)
    }

    fn push_found(
        &self,
        alloc: Global,
        view: &View<'_>,
        found: &mut Vec<Diagnostic>,
    ) -> Result<(), ServeFault> {
        push_diagnostics(alloc, view, found)
    }

    fn answer(
        &self,
        alloc: Global,
        asked: &Asked<'_>,
        query: Query,
        params: &Params,
    ) -> Result<Answer, ServeFault> {
        match query_answer(alloc, asked, query, params) {
            Ok(answer) => Ok(answer),
            Err(e) => Err(ServeFault::Memory(e)),
        }
    }
}
