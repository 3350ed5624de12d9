//! The lines of nodes, whose names are made once for a grammar.

ghost use Rattle.std.specs.Prelude.{◌≡◌, ◌<◌, ◌≤◌, ◌++◌, ◌∷◌, [], List, ℕ, Some, drop, length, replicate, slice_get, IfOk, OnOk};
ghost use Rattle.cfg_theory.specs.Grammar.{end_token, head_of};
ghost use Rattle.lrpar.specs.FullTables.{AreRows};
ghost use Rattle.parse_trees.specs.Shapes.{lexeme_line, rule_line};
ghost use Rattle.word_lines.specs.Lexing.{lex_of};
ghost use Rattle.word_lines.specs.NodeRows.{IsNamed, IsRuleRow, IsTokenRow, behind_spaces};

use crate::lexeme::WordLexeme;
use crate::trees::{push_spaces, token_name};
use cfg_base::index::IndexStorage;
use cfg_base::symbol::{PIdx, RIdx, TIdx};
use cfg_numbered::yacc::grammar::NumberedGrammar;
use std::alloc::{AllocError, Global};
use std::marker::Model;

// The number of spaces before each name: few nodes are deeper.
const SPACES: usize = 64;

/// The lines of a grammar's rules, and of lexemes by their tokens, each behind spaces. A node's line is a part of such a row, from
/// its depth on. Contracts see the grammar.
#[derive(Drop)]
pub struct NodeLines<'g, S: IndexStorage> {
    grm: &'g NumberedGrammar<S>,
    rules: Vec<Vec<u8>>,
    tokens: Vec<Vec<u8>>,
}

impl<'g, S: IndexStorage> Model for NodeLines<'g, S> {
    ghost use Rattle.cfg_numbered.specs.Value.{GrammarValue};
    ghost use Rattle.cfg_theory.specs.Grammar.{end_token};
    ghost use Rattle.lrpar.specs.FullTables.{AreRows};
    ghost use Rattle.word_lines.specs.NodeRows.{IsRuleRow, IsTokenRow};

    ghost Value = { GrammarValue };

    ghost view = { λ l. l.grm.now };

    ghost invariant = { λ l. AreRows l.grm.now.grammar.rules (IsRuleRow l.grm.now) l.rules.items × AreRows (end_token l.grm.now.grammar) (IsTokenRow l.grm.now) l.tokens.items };
}

/// Makes the row of a name, with a byte behind it.
fn row_of(alloc: Global, name: &str, last: u8) -> Result<Vec<u8>, AllocError>
    ensures { IfOk result (λ row. row.items ≡ behind_spaces name.now last) }
{
    let mut row = Vec::with_capacity(alloc, name.len().saturating_add(SPACES + 1))?;
    push_spaces(SPACES, &mut row)?;
    row.extend_from_slice(name.as_bytes())?;
    row.push(last)?;
    Ok(row)
}

/// Makes the row of a token: its name, a space, the name again as the text of a lexeme, and LF.
fn token_row(alloc: Global, name: &str) -> Result<Vec<u8>, AllocError>
    ensures { IfOk result (λ row. row.items ≡ behind_spaces (name.now ++ 32 ∷ name.now) 10) }
{
    let mut row = row_of(alloc, name, b' ')?;
    row.extend_from_slice(name.as_bytes())?;
    row.push(b'\n')?;
    Ok(row)
}

/// Makes the rows of all rules.
fn rule_rows<S: IndexStorage>(
    alloc: Global,
    grm: &NumberedGrammar<S>,
) -> Result<Vec<Vec<u8>>, AllocError>
    ensures { IfOk result (λ rows. AreRows grm.now.grammar.rules (IsRuleRow grm.now) rows.items) }
{
    let count = grm.rules_len().0.to_usize();
    let mut rows = Vec::with_capacity(alloc, count)?;
    'rules: for number in 0..count {
        let row = row_of(alloc, grm.rule_name_str(grm.rule_at(number)), b'\n')?;
        rows.push(row)?;
    }
    Ok(rows)
}

/// Makes the rows of all tokens but the end.
fn token_rows<S: IndexStorage>(
    alloc: Global,
    grm: &NumberedGrammar<S>,
) -> Result<Vec<Vec<u8>>, AllocError>
    ensures { IfOk result (λ rows. AreRows (end_token grm.now.grammar) (IsTokenRow grm.now) rows.items) }
{
    let count = grm.eof_token_idx().0.to_usize();
    let mut rows = Vec::with_capacity(alloc, count)?;
    'tokens: for number in 0..count {
        let row = token_row(alloc, token_name(grm, grm.token_at(number)))?;
        rows.push(row)?;
    }
    Ok(rows)
}

/// Returns the row of a number.
#[inline(always)]
fn row_at(rows: &[Vec<u8>], number: usize) -> &Vec<u8>
    requires { number < length rows.now }
    ensures { slice_get rows.now number ≡ Some result.now }
{
    &rows[number]
}

/// Adds a row without the first bytes.
#[inline(always)]
fn push_part(row: &[u8], skipped: usize, text: &mut Vec<u8>) -> Result<(), AllocError>
    requires { skipped ≤ length row.now }
    ensures { OnOk result (text.new.items ≡ text.old.items ++ drop skipped row.now) }
{
    text.extend_from_slice(&row[skipped..])?;
    Ok(())
}

/// Adds a row behind more spaces.
fn push_deep(row: &[u8], more: usize, text: &mut Vec<u8>) -> Result<(), AllocError>
    ensures { OnOk result (text.new.items ≡ text.old.items ++ (replicate more 32 ++ row.now)) }
{
    push_spaces(more, text)?;
    text.extend_from_slice(row)?;
    Ok(())
}

/// Adds a row from a depth on.
#[inline(always)]
fn push_row(row: &[u8], depth: usize, text: &mut Vec<u8>) -> Result<(), AllocError>
    requires { (name : List ℕ) × (last : ℕ) × (row.now ≡ behind_spaces name last) }
    ensures { (name : List ℕ) (last : ℕ) → row.now ≡ behind_spaces name last → OnOk result (text.new.items ≡ text.old.items ++ ((replicate depth 32 ++ name) ++ last ∷ [])) }
{
    if SPACES < depth {
        return push_deep(row, depth - SPACES, text);
    }
    push_part(row, SPACES - depth, text)
}

impl<'g, S: IndexStorage> NodeLines<'g, S> {
    /// Makes the rows of a grammar.
    pub fn new(alloc: Global, grm: &'g NumberedGrammar<S>) -> Result<NodeLines<'g, S>, AllocError>
        ensures { IfOk result (λ l. l ≡ grm.entry.now) }
    {
        let rules = rule_rows(alloc, grm)?;
        let tokens = token_rows(alloc, grm)?;
        Ok(NodeLines { grm, rules, tokens })
    }

    /// Adds the line of a production's node.
    #[inline(always)]
    pub(crate) fn push_prod(
        &self,
        depth: usize,
        pidx: PIdx<S>,
        text: &mut Vec<u8>,
    ) -> Result<(), AllocError>
        requires { S.number pidx.0 < length self.now.grammar.productions }
        ensures { OnOk result (text.new.items ≡ text.old.items ++ rule_line self.now depth (head_of self.now.grammar (S.number pidx.0))) }
    {
        // Read, so that the proof may use that rules are in range.
        let _start = self.grm.start_prod();
        let ridx = self.grm.prod_to_rule(pidx);
        push_row(
            row_at(self.rules.as_slice(), ridx.0.to_usize()).as_slice(),
            depth,
            text,
        )
    }

    /// Adds the line of a lexeme whose text is the name of its token. The contract alone reads the line.
    #[inline(always)]
    pub(crate) fn push_lexeme(
        &self,
        line: &str,
        depth: usize,
        lexeme: WordLexeme<S>,
        text: &mut Vec<u8>,
    ) -> Result<(), AllocError>
        requires inside { S.number lexeme.token < end_token self.now.grammar }
        requires named { IsNamed S.number self.now line.now lexeme }
        ensures { OnOk result (text.new.items ≡ text.old.items ++ lexeme_line self.now (lex_of S.number) line.now depth lexeme) }
    {
        push_row(
            row_at(self.tokens.as_slice(), lexeme.token.to_usize()).as_slice(),
            depth,
            text,
        )
    }
}
