//! What is wrong at a lexeme, and which tokens may come there.

use crate::names::{Grammar, shown_name, token_name};
use crate::parsing::{WordError, WordLexer};
use cfg_base::index::IndexStorage;
use cfg_base::symbol::TIdx;
use lrlex::DefaultLexeme;
use lrpar::{Lexer, ParseRepair, Prefix};
use parser_kit::ParserKit;
use std::alloc::{AllocError, Global};
use vob::Vob;

/// How many tokens are named at most.
const MOST_NAMED: usize = 8;

/// Adds what a token is called: its `%epp` text, or its name in quotes.
pub(crate) fn push_token(
    text: &mut String,
    grm: &Grammar,
    tidx: TIdx<u32>,
) -> Result<(), AllocError> {
    if tidx == grm.eof_token_idx() {
        return text.push_str("end of input");
    }
    let name = token_name(grm, tidx);
    let shown = shown_name(grm, tidx);
    if shown != name {
        return text.push_str(shown);
    }
    text.push('\'')?;
    text.push_str(name)?;
    text.push('\'')
}

/// The lexemes of a text, and the tokens up to some place, earlier errors repaired by their first repairs.
#[derive(Drop)]
pub(crate) struct Reader<'a> {
    kit: &'a ParserKit<u32>,
    lexemes: Vec<DefaultLexeme<u32>>,
    prefix: Prefix<'a, u32>,
    /// The index of the next lexeme.
    next: usize,
}

/// Returns the lexemes of a text.
fn lexemes_of(alloc: Global, lexer: &WordLexer<'_>) -> Result<Vec<DefaultLexeme<u32>>, AllocError> {
    let mut lexemes = Vec::new(alloc);
    'items: for item in lexer.iter() {
        if let Ok(lexeme) = item {
            lexemes.push(*lexeme)?;
        }
    }
    Ok(lexemes)
}

impl<'a> Reader<'a> {
    /// Begins at the start of the lexemes.
    pub(crate) fn new(
        alloc: Global,
        kit: &'a ParserKit<u32>,
        lexer: &WordLexer<'_>,
    ) -> Result<Reader<'a>, AllocError> {
        let lexemes = lexemes_of(alloc, lexer)?;
        let prefix = kit.parser_data().prefix(alloc)?;
        Ok(Reader {
            kit,
            lexemes,
            prefix,
            next: 0,
        })
    }

    /// Lends the grammar.
    pub(crate) fn grm(&self) -> &'a Grammar {
        self.kit.grm()
    }

    /// Adds a token, if it may come next.
    fn push(&mut self, token: u32) -> Result<(), AllocError> {
        let _shifted = self.prefix.push(TIdx(token))?;
        Ok(())
    }

    /// Reads the next lexeme, if it begins before an offset, and returns whether it does.
    fn read_one(&mut self, end: usize) -> Result<bool, AllocError> {
        if let Some(lexeme) = self.lexemes.get(self.next).copied() {
            if lexeme.span.start() < end {
                self.push(lexeme.tok_id)?;
                self.next = self.next.saturating_add(1);
                return Ok(true);
            }
        }
        Ok(false)
    }

    /// Reads the lexemes before an offset.
    fn read_before(&mut self, end: usize) -> Result<(), AllocError> {
        'lexemes: for _index in self.next..self.lexemes.len() {
            if !self.read_one(end)? {
                return Ok(());
            }
        }
        Ok(())
    }

    /// Does what a repair says.
    fn repair(&mut self, steps: &[ParseRepair<DefaultLexeme<u32>, u32>]) -> Result<(), AllocError> {
        'steps: for step in steps {
            match step {
                ParseRepair::Insert(token) => self.push(token.0)?,
                ParseRepair::Delete(_) => {
                    self.next = self.next.saturating_add(1);
                }
                ParseRepair::Shift(lexeme) => {
                    self.push(lexeme.tok_id)?;
                    self.next = self.next.saturating_add(1);
                }
            }
        }
        Ok(())
    }

    /// Returns the tokens that may come at an error, and goes behind its first repair.
    pub(crate) fn expected(&mut self, alloc: Global, error: &WordError) -> Result<Vob, AllocError> {
        self.read_before(error.lexeme.span.start())?;
        let bits = self.prefix.next_tokens(alloc)?;
        if let Some(first) = error.repairs.first() {
            self.repair(first.as_slice())?;
        }
        Ok(bits)
    }

    /// Returns what is wrong at an error, and goes behind it.
    pub(crate) fn message(
        &mut self,
        alloc: Global,
        error: &WordError,
    ) -> Result<String, AllocError> {
        let bits = self.expected(alloc, error)?;
        message_of(alloc, self.kit.grm(), error, &bits)
    }
}

/// Returns what is wrong at an error, where the tokens may come whose bits are set.
pub(crate) fn message_of(
    alloc: Global,
    grm: &Grammar,
    error: &WordError,
    bits: &Vob,
) -> Result<String, AllocError> {
    let mut text = String::from_str(alloc, "unexpected ")?;
    push_token(&mut text, grm, TIdx(error.lexeme.tok_id))?;
    push_expected(alloc, &mut text, grm, bits)?;
    Ok(text)
}

/// Returns how many tokens have set bits.
fn count_of(grm: &Grammar, bits: &Vob) -> usize {
    let mut count: usize = 0;
    'tokens: for token in 0..grm.tokens_len().0.to_usize() {
        if bits.get(token) == Some(true) {
            count = count.saturating_add(1);
        }
    }
    count
}

/// Adds the first tokens whose bits are set.
fn push_first(text: &mut String, grm: &Grammar, bits: &Vob) -> Result<(), AllocError> {
    let mut count: usize = 0;
    'tokens: for token in 0..grm.tokens_len().0.to_usize() {
        if bits.get(token) == Some(true) && count < MOST_NAMED {
            text.push_str(if count > 0 { ", " } else { " " })?;
            push_token(text, grm, grm.token_at(token))?;
            count = count.saturating_add(1);
        }
    }
    Ok(())
}

/// Adds which tokens may come: a few by their names, and how many more.
fn push_expected(
    alloc: Global,
    text: &mut String,
    grm: &Grammar,
    bits: &Vob,
) -> Result<(), AllocError> {
    let count = count_of(grm, bits);
    if count == 0 {
        return Ok(());
    }
    text.push_str(if count == 1 {
        ", expected"
    } else {
        ", expected one of:"
    })?;
    push_first(text, grm, bits)?;
    let more = count.saturating_sub(MOST_NAMED);
    if more > 0 {
        let words = format!(in alloc; " and {more} more")?;
        text.push_str(words.as_str())?;
    }
    Ok(())
}
