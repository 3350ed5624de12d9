//! The tokens of a file.

ghost use Rattle.std.specs.Prelude.{◌≡◌, ◌++◌, ◌&&◌, ◌||◌, false, option_map, option_to_list, OnOk};
ghost use Rattle.std.specs.List.{list_any};
ghost use Rattle.bison_rules.specs.Pieces as spec;
ghost use Rattle.bison_rules.specs.Models.{token_of, tokens_of};
ghost use Rattle.bison_rules.specs.Rules.{is_whole};

use crate::pieces::{Token, piece_of};
use crate::sizes::behind;
use std::alloc::AllocError;

impl Token<'_> {
    /// Returns whether it is this mark.
    pub(crate) fn is(&self, mark: &[u8]) -> bool
        ensures { result ≡ spec.is mark.now (token_of self.now) }
    {
        match self {
            Token::Mark(text) => *text == mark,
            _ => false,
        }
    }
}

/// Returns whether a piece is a `%%`.
fn gives_section(token: &Option<Token<'_>>) -> bool
    ensures { result ≡ spec.gives_section (option_map token_of token.now) }
{
    match token {
        Some(token) => token.is(b"%%"),
        None => false,
    }
}

/// Returns whether a piece is the second `%%`.
fn is_end(has_rules: bool, is_section: bool) -> bool
    ensures { result ≡ (has_rules && is_section) }
{
    has_rules && is_section
}

/// Returns whether a `%%` was read.
fn has_section(has_rules: bool, is_section: bool) -> bool
    ensures { result ≡ (has_rules || is_section) }
{
    has_rules || is_section
}

/// Adds a token, if there is one.
fn push_token<'a>(tokens: &mut Vec<Token<'a>>, token: Option<Token<'a>>) -> Result<(), AllocError>
    ensures { OnOk result (tokens_of tokens.new.items ≡ tokens_of tokens.old.items ++ option_to_list (option_map token_of token.entry)) }
{
    if let Some(token) = token {
        tokens.push(token)?;
    }
    Ok(())
}

/// Adds the tokens of a text up to its second `%%`.
pub(crate) fn push_tokens<'a>(tokens: &mut Vec<Token<'a>>, text: &'a [u8]) -> Result<(), AllocError>
    ensures { OnOk result (tokens_of tokens.new.items ≡ tokens_of tokens.old.items ++ spec.tokens_from 0 false text.now) }
{
    let mut skipped: usize = 0;
    let mut has_rules = false;
    'bytes: for (i, b) in text.iter().enumerate() {
        if skipped > 0 {
            skipped -= 1;
            continue;
        }
        let all = behind(text, i);
        let rest = behind(text, i + 1);
        let piece = piece_of(all, *b, rest);
        let is_section = gives_section(&piece.token);
        if is_end(has_rules, is_section) {
            return Ok(());
        }
        skipped = piece.size;
        has_rules = has_section(has_rules, is_section);
        push_token(tokens, piece.token)?;
    }
    Ok(())
}

/// Returns whether a mark is among tokens.
fn has_mark(tokens: &[Token<'_>], mark: &[u8]) -> bool
    ensures { result ≡ list_any (spec.is mark.now) (tokens_of tokens.now) }
{
    'tokens: for token in tokens {
        if token.is(mark) {
            return true;
        }
    }
    false
}

/// Returns whether tokens are those of a file of Bison.
pub(crate) fn is_whole(tokens: &[Token<'_>]) -> bool
    ensures { result ≡ is_whole (tokens_of tokens.now) }
{
    has_mark(tokens, b"%%") && !has_mark(tokens, b"")
}
