//! Counts and names of a grammar.

ghost use Rattle.std.specs.Prelude.{◌≡◌, ◌<◌, IfSome, IsSome, length};
ghost use Rattle.cfg_theory.specs.Grammar.{head_of};
ghost use Rattle.lrkit_c.specs.Answers.{answer_of};
ghost use Rattle.lrkit_c.specs.Names.{PutsName, TellsToken, counts_of, name_of, pairs_of, rule_name, shifts_of, token_name};
ghost use Rattle.lrkit_c.specs.declared.status.Status.TheVariants as statuses;

use crate::answers::{LrkitAnswer, answer, put_text};
use crate::handle::LrkitParser;
use crate::status::Status;
use cfg_base::index::IndexStorage;
use cfg_base::symbol::{PIdx, RIdx, TIdx};
use cfg_numbered::yacc::NumberedGrammar;
use parser_kit::ParserKit;
use std::alloc::Global;

/// What a grammar and its table have.
#[repr(C)]
#[derive(Clone, Copy)]
pub struct LrkitCounts {
    /// Tokens, the end token among them, which is the last.
    pub tokens: usize,
    /// Rules, with the one that the kit adds for the start.
    pub rules: usize,
    /// Productions, with those that the kit adds.
    pub productions: usize,
    /// Conflicts between a shift and a reduction that no precedence settles.
    pub shift_reduce: usize,
    /// Conflicts between reductions.
    pub reduce_reduce: usize,
}

/// Returns how many shifts are against a reduction, and how many pairs of reductions.
fn conflicts_of(kit: &ParserKit<u32>) -> (usize, usize)
    ensures shifts { result.0 ≡ shifts_of kit.now.parser.table.conflicts }
    ensures pairs { result.1 ≡ pairs_of kit.now.parser.table.conflicts }
{
    match kit.conflicts() {
        Some(listed) => (listed.sr_len(), listed.rr_len()),
        None => (0, 0),
    }
}

/// Returns the counts of a kit.
fn counts_of(kit: &ParserKit<u32>) -> LrkitCounts
    ensures { result ≡ counts_of kit.now.parser }
{
    let (shift_reduce, reduce_reduce) = conflicts_of(kit);
    let grm = kit.grm();
    LrkitCounts {
        tokens: grm.tokens_len().0.to_usize(),
        rules: grm.rules_len().0.to_usize(),
        productions: grm.prods_len().0.to_usize(),
        shift_reduce,
        reduce_reduce,
    }
}

/// Writes how many tokens, rules, productions and conflicts there are.
#[unsafe(no_mangle)]
pub extern "C" fn lrkit_parser_counts(
    alloc: Global,
    parser: &mut LrkitParser,
    counts: &mut LrkitCounts,
) -> LrkitAnswer
    requires { IsSome parser.old.value }
    ensures parser { parser.new.value ≡ parser.old.value }
    ensures counts { IfSome parser.old.value (λ h. counts.new ≡ counts_of h.kit.parser) }
    ensures answer { result ≡ answer_of statuses.Done 0 }
{
    let held = parser.take(alloc);
    *counts = counts_of(&held.kit);
    parser.put(held);
    answer(Status::Done, 0)
}

/// Writes the name of a token; nothing for the end token, which has none.
fn put_token_name(grm: &NumberedGrammar<u32>, number: u32, out: &mut [u8]) -> LrkitAnswer
    ensures { PutsName (token_name grm.now number) out.old out.new result }
{
    let tidx = TIdx(number);
    if !grm.has_token(tidx) {
        return answer(Status::Unknown, 0);
    }
    match grm.token_name(tidx) {
        Some(name) => put_text(Status::Done, name.as_bytes(), out),
        None => put_text(Status::Done, b"", out),
    }
}

/// Returns the rule of a production.
fn rule_of(grm: &NumberedGrammar<u32>, pidx: PIdx<u32>) -> RIdx<u32>
    requires { pidx.0 < length grm.now.grammar.productions }
    ensures value { result.0 ≡ head_of grm.now.grammar pidx.0 }
    ensures within { result.0 < grm.now.grammar.rules }
{
    // Called for its clause that the grammar is well formed.
    let _start = grm.start_prod();
    grm.prod_to_rule(pidx)
}

/// Writes the name of a production's rule.
fn put_rule_name(grm: &NumberedGrammar<u32>, number: u32, out: &mut [u8]) -> LrkitAnswer
    ensures { PutsName (rule_name grm.now number) out.old out.new result }
{
    let pidx = PIdx(number);
    if !grm.has_prod(pidx) {
        return answer(Status::Unknown, 0);
    }
    let name = grm.rule_name_str(rule_of(grm, pidx));
    put_text(Status::Done, name.as_bytes(), out)
}

/// Writes the name of a kind and number.
fn put_name(grm: &NumberedGrammar<u32>, kind: u32, number: u32, out: &mut [u8]) -> LrkitAnswer
    ensures { PutsName (name_of grm.now kind number) out.old out.new result }
{
    if kind == 0 {
        return put_token_name(grm, number, out);
    }
    if kind == 1 {
        return put_rule_name(grm, number, out);
    }
    answer(Status::Unknown, 0)
}

/// Writes the name of a node's kind and number: of a token for 0, of a production's rule for 1.
#[unsafe(no_mangle)]
pub extern "C" fn lrkit_name(
    alloc: Global,
    parser: &mut LrkitParser,
    kind: u32,
    number: u32,
    out: &mut [u8],
) -> LrkitAnswer
    requires { IsSome parser.old.value }
    ensures parser { parser.new.value ≡ parser.old.value }
    ensures answer { IfSome parser.old.value (λ h. PutsName (name_of h.kit.parser.grammar kind number) out.old out.new result) }
{
    let held = parser.take(alloc);
    let put = put_name(held.kit.grm(), kind, number, out);
    parser.put(held);
    put
}

/// Writes the number of the token of a name.
fn put_token(grm: &NumberedGrammar<u32>, name: &[u8], number: &mut u32) -> LrkitAnswer
    ensures { TellsToken grm.now name.now number.old number.new result }
{
    let Ok(name) = std::str::from_utf8(name) else {
        return answer(Status::NotUtf8, 0);
    };
    match grm.token_idx(name) {
        Some(tidx) => {
            *number = tidx.0;
            answer(Status::Done, 0)
        }
        None => answer(Status::Unknown, 0),
    }
}

/// Writes the number of the token of a name.
#[unsafe(no_mangle)]
pub extern "C" fn lrkit_token(
    alloc: Global,
    parser: &mut LrkitParser,
    name: &[u8],
    number: &mut u32,
) -> LrkitAnswer
    requires { IsSome parser.old.value }
    ensures parser { parser.new.value ≡ parser.old.value }
    ensures answer { IfSome parser.old.value (λ h. TellsToken h.kit.parser.grammar name.now number.old number.new result) }
{
    let held = parser.take(alloc);
    let put = put_token(held.kit.grm(), name, number);
    parser.put(held);
    put
}
