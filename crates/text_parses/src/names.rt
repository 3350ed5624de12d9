//! Names of a tree's nodes.

ghost use Rattle.std.specs.Prelude.{◌≡◌, ◌<◌, length, option_map, slice_get, Some};
ghost use Rattle.cfg_numbered.specs.Value.{shown_text};
ghost use Rattle.cfg_theory.specs.Grammar.{end_token, head_of};
ghost use Rattle.parse_trees.specs.Shapes.{rule_text, token_text};

use cfg_base::index::IndexStorage;
use cfg_base::symbol::{PIdx, TIdx};
use cfg_numbered::yacc::NumberedGrammar;
use std::alloc::{AllocError, Global};
use vob::Vob;

/// A grammar with its names.
pub type Grammar = NumberedGrammar<u32>;

/// Returns the name of a token; nothing for the end token, and for one that the grammar lacks.
pub fn token_name(grm: &Grammar, tidx: TIdx<u32>) -> &str
    ensures { tidx.0 < end_token grm.now.grammar → result.now ≡ token_text grm.now tidx.0 }
{
    // Read, so that the proof may use what is so of each grammar.
    let _end = grm.eof_token_idx();
    if !grm.has_token(tidx) {
        return "";
    }
    match grm.token_name(tidx) {
        Some(name) => name,
        None => "",
    }
}

/// Returns the text by which messages show a token: that of its `%epp` if it has one, else its name; nothing for the end token, and
/// for one that the grammar lacks.
pub fn shown_name(grm: &Grammar, tidx: TIdx<u32>) -> &str
    ensures { tidx.0 < end_token grm.now.grammar → option_map shown_text (slice_get grm.now.tokens tidx.0) ≡ Some (Some result.now) }
{
    // Read, so that the proof may use what is so of each grammar.
    let _end = grm.eof_token_idx();
    if !grm.has_token(tidx) {
        return "";
    }
    match grm.token_epp(tidx) {
        Some(shown) => shown,
        None => "",
    }
}

/// Returns the name of a token, the end token's as `$`.
pub(crate) fn shown_token(grm: &Grammar, tidx: TIdx<u32>) -> &str
    ensures { tidx.0 < end_token grm.now.grammar → result.now ≡ token_text grm.now tidx.0 }
{
    if tidx == grm.eof_token_idx() {
        return "$";
    }
    token_name(grm, tidx)
}

/// Returns the name of the rule of a production; nothing for one that the grammar lacks.
pub fn rule_name(grm: &Grammar, pidx: PIdx<u32>) -> &str
    ensures { pidx.0 < length grm.now.grammar.productions → result.now ≡ rule_text grm.now (head_of grm.now.grammar pidx.0) }
{
    // Read, so that the proof may use that rules are in range.
    let _start = grm.start_prod();
    if !grm.has_prod(pidx) {
        return "";
    }
    let ridx = grm.prod_to_rule(pidx);
    if !grm.has_rule(ridx) {
        return "";
    }
    grm.rule_name_str(ridx)
}

/// Returns the names of the tokens whose bits are set.
pub(crate) fn names_of<'a>(
    alloc: Global,
    grm: &'a Grammar,
    bits: &Vob,
) -> Result<Vec<&'a str>, AllocError> {
    let mut names = Vec::new(alloc);
    'tokens: for token in 0..grm.tokens_len().0.to_usize() {
        if bits.get(token) == Some(true) {
            names.push(shown_token(grm, grm.token_at(token)))?;
        }
    }
    Ok(names)
}
