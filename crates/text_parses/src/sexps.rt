//! A node of a tree within an expression: `(RULE ..)`, or `("TOKEN" "TEXT")`.

ghost use Rattle.std.specs.Prelude.{◌≡◌, ◌<◌, ◌++◌, ◌∷◌, [], length, replicate, Some, OnOk};
ghost use Rattle.std.specs.List.{flat_map};
ghost use Rattle.parse_trees.specs.FlatLines.{CanShowPiece};
ghost use Rattle.parse_trees.specs.FlatTrees.{piece_of};
ghost use Rattle.parse_trees.specs.Shapes.{HasText};
ghost use Rattle.text_parses.specs.Parses.{itself, lexeme_lex};
ghost use Rattle.text_parses.specs.Quoted.{closed_from, escaped, letter_of, lexeme_head, node_head, piece_head, quoted, rule_head, space_at};

use crate::lines::WordNode;
use crate::names::{Grammar, rule_name, token_name};
use crate::repeated::push_repeated;
use cfg_base::symbol::{PIdx, TIdx};
use lrlex::DefaultLexeme;
use lrpar::flat::FlatNode;
use std::alloc::AllocError;
use text_messages::part;

/// Returns what is behind the backslash for a byte that has one within quotes: a quote, a backslash and an LF.
fn letter_of(byte: u8) -> Option<u8>
    ensures { result ≡ letter_of byte }
{
    if byte == b'"' {
        Some(b'"')
    } else if byte == b'\\' {
        Some(b'\\')
    } else if byte == b'\n' {
        Some(b'n')
    } else {
        None
    }
}

/// Adds a byte within quotes.
fn push_escaped(byte: u8, text: &mut Vec<u8>) -> Result<(), AllocError>
    ensures { OnOk result (text.new.items ≡ text.old.items ++ escaped byte) }
{
    match letter_of(byte) {
        Some(letter) => {
            text.push(b'\\')?;
            text.push(letter)?;
        }
        None => text.push(byte)?,
    }
    Ok(())
}

/// Adds bytes within quotes.
fn push_all_escaped(bytes: &[u8], text: &mut Vec<u8>) -> Result<(), AllocError>
    ensures { OnOk result (text.new.items ≡ text.old.items ++ flat_map escaped bytes.now) }
{
    'bytes: for byte in bytes {
        push_escaped(*byte, text)?;
    }
    Ok(())
}

/// Adds a text in quotes.
fn push_quoted(inner: &str, text: &mut Vec<u8>) -> Result<(), AllocError>
    ensures { OnOk result (text.new.items ≡ text.old.items ++ quoted inner.now) }
{
    text.push(b'"')?;
    push_all_escaped(inner.as_bytes(), text)?;
    text.push(b'"')?;
    Ok(())
}

/// Adds the beginning of a production's node.
pub(crate) fn push_rule_head(
    grm: &Grammar,
    pidx: PIdx<u32>,
    text: &mut Vec<u8>,
) -> Result<(), AllocError>
    ensures { pidx.0 < length grm.now.grammar.productions → OnOk result (text.new.items ≡ text.old.items ++ rule_head grm.now pidx.0) }
{
    text.push(b'(')?;
    text.extend_from_slice(rule_name(grm, pidx).as_bytes())
}

/// Adds the beginning of a lexeme's node.
pub(crate) fn push_lexeme_head(
    grm: &Grammar,
    input: &str,
    lexeme: DefaultLexeme<u32>,
    text: &mut Vec<u8>,
) -> Result<(), AllocError>
    ensures { HasText grm.now lexeme_lex input.now lexeme → OnOk result (text.new.items ≡ text.old.items ++ lexeme_head grm.now input.now lexeme) }
{
    let span = lexeme.span;
    text.push(b'(')?;
    push_quoted(token_name(grm, TIdx(lexeme.tok_id)), text)?;
    text.push(b' ')?;
    push_quoted(part(input, span.start(), span.end()), text)
}

/// Adds a space before each node but the root.
pub(crate) fn push_space(depth: usize, text: &mut Vec<u8>) -> Result<(), AllocError>
    ensures { OnOk result (text.new.items ≡ text.old.items ++ space_at depth) }
{
    if depth > 0 {
        text.push(b' ')?;
    }
    Ok(())
}

/// Adds the beginning of a node.
fn push_node_head(
    grm: &Grammar,
    input: &str,
    node: WordNode,
    text: &mut Vec<u8>,
) -> Result<(), AllocError>
    ensures { CanShowPiece grm.now lexeme_lex input.now (Some (piece_of itself node)) → OnOk result (text.new.items ≡ text.old.items ++ piece_head grm.now input.now (Some (piece_of itself node))) }
{
    match node {
        FlatNode::Term { lexeme } => push_lexeme_head(grm, input, lexeme, text),
        FlatNode::Nonterm {
            pidx,
            span: _,
            below: _,
        } => push_rule_head(grm, pidx, text),
    }
}

/// Closes the nodes that are open from a depth on, behind a node of this depth, if there is one.
pub(crate) fn push_closing(
    last: Option<usize>,
    depth: usize,
    text: &mut Vec<u8>,
) -> Result<(), AllocError>
    ensures { OnOk result (text.new.items ≡ text.old.items ++ closed_from last depth) }
{
    match last {
        Some(last) => {
            if last < depth {
                return Ok(());
            }
            text.push(b')')?;
            push_repeated(b')', last - depth, text)
        }
        None => Ok(()),
    }
}

/// Closes the nodes that are open from a depth on, and adds the beginning of a node there, behind one of this depth, if there is
/// one. The root has no space before it.
pub fn push_head(
    grm: &Grammar,
    input: &str,
    node: WordNode,
    depth: usize,
    last: Option<usize>,
    text: &mut Vec<u8>,
) -> Result<(), AllocError>
    ensures { CanShowPiece grm.now lexeme_lex input.now (Some (piece_of itself node)) →
        OnOk result (text.new.items ≡ text.old.items ++ node_head grm.now input.now last depth (Some (piece_of itself node))) }
{
    push_closing(last, depth, text)?;
    push_space(depth, text)?;
    push_node_head(grm, input, node, text)
}

/// Closes all nodes behind one of this depth, and ends the line.
pub fn push_end(last: Option<usize>, text: &mut Vec<u8>) -> Result<(), AllocError>
    ensures { OnOk result (text.new.items ≡ text.old.items ++ (closed_from last 0 ++ 10 ∷ [])) }
{
    push_closing(last, 0, text)?;
    text.push(b'\n')?;
    Ok(())
}
