//! The list of a lexer before a run: its lexemes or the first fault, and whether a run takes them.

ghost use Rattle.std.specs.Prelude.{◌<◌, IfOk, IfErr, length};
ghost use Rattle.parse_trees.specs.LexemeViews.{TellsLexemeMisfit, TellsAt};
ghost use Rattle.parse_trees.specs.Refusals.{Admits, IsParseRefusal};

use crate::lex_api::Lexeme;
use crate::lexeme_list::{LexemeList, read_list};
use cfg_base::index::IndexStorage;
use cfg_numbered::yacc::grammar::NumberedGrammar;
use std::alloc::AllocError;
use thiserror::Error;

/// Why nothing is parsed. The data of the parser are as they were.
#[derive(Debug, Drop, Error)]
pub enum ParseRefusal {
    /// The lexeme at this index is of no token of the grammar, or of the end token.
    #[error("LexemeOutside")]
    LexemeOutside(usize),
    /// The lexeme at this index starts before the one in front of it.
    #[error("StartDecreases")]
    StartDecreases(usize),
    /// There is no memory.
    #[error("Memory")]
    Memory(AllocError),
}

/// Why lexemes aren't parsed, with the index of the first that doesn't fit.
#[derive(Clone, Copy, Debug, PartialEq, Eq)]
pub(crate) enum LexemeMisfit {
    /// It is of no token of the grammar, or of the end token.
    Outside(usize),
    /// It starts before the one in front of it.
    Decreases(usize),
}

/// Returns what keeps a run from taking the lexeme at an index, if anything does.
fn misfit_at<S: IndexStorage, L: Lexeme<S>, E: Copy>(
    end: usize,
    lexemes: &LexemeList<'_, L, E>,
    index: usize,
) -> Option<LexemeMisfit>
    requires { index < length lexemes.now }
    ensures { TellsAt end L.lex lexemes.now index result }
{
    let lexeme = lexemes.at(index);
    let start = lexeme.span().start();
    if lexeme.tok_id().to_usize() >= end {
        return Some(LexemeMisfit::Outside(index));
    }
    if index == 0 {
        return None;
    }
    let front = lexemes.at(index - 1);
    if start < front.span().start() {
        return Some(LexemeMisfit::Decreases(index));
    }
    None
}

/// Returns what keeps a run from taking the first lexeme that it doesn't take, if there is one.
pub(crate) fn misfit_of<S: IndexStorage, L: Lexeme<S>, E: Copy>(
    grm: &NumberedGrammar<S>,
    lexemes: &LexemeList<'_, L, E>,
) -> Option<LexemeMisfit>
    ensures { TellsLexemeMisfit grm.now.grammar L.lex lexemes.now result }
{
    let end = grm.eof_token_idx().0.to_usize();
    'lexemes: for index in 0..lexemes.len() {
        if let Some(misfit) = misfit_at(end, lexemes, index) {
            return Some(misfit);
        }
    }
    None
}

/// Checks the list of a lexer and returns its lexemes, or the list's first error. Returns `LexemeOutside` or
/// `StartDecreases` for the first lexeme that no run takes, where the list has no error.
pub fn admit<'a, S: IndexStorage, L: Lexeme<S>, E: Copy>(
    grm: &NumberedGrammar<S>,
    items: &'a [Result<L, E>],
) -> Result<Result<LexemeList<'a, L, E>, E>, ParseRefusal>
    ensures admitted { IfOk result (Admits grm.now.grammar L.lex items.now) }
    ensures refused { IfErr result (IsParseRefusal grm.now.grammar L.lex items.now) }
{
    let lexemes = match read_list(items) {
        Ok(lexemes) => lexemes,
        Err(fault) => return Ok(Err(fault)),
    };
    match misfit_of(grm, &lexemes) {
        Some(LexemeMisfit::Outside(index)) => Err(ParseRefusal::LexemeOutside(index)),
        Some(LexemeMisfit::Decreases(index)) => Err(ParseRefusal::StartDecreases(index)),
        None => Ok(Ok(lexemes)),
    }
}
