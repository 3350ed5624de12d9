//! Shows what a kit of each of some grammar texts has: its counts, whether it is LR(1), its conflicts; or why there
//! is no kit.
//!
//! The clause of `is_lr1` is proved by the clause `exact` of `ParserKit::conflicts`. A list that lacks a conflict, or
//! has one that no string shows, would break it.
ghost use Rattle.std.specs.Prelude.{◌≡◌, ◌↔◌, [], IsTrue};
ghost use Rattle.table_theory.specs.CellLaws.{SomeContested};

use cfg_base::index::IndexStorage;
use cfg_read::yacc::{YaccKind, YaccOriginalActionKind};
use parser_kit::{KitError, ParserKit};
use std::alloc::{AllocError, Global};

const TREE: YaccKind = YaccKind::Original(YaccOriginalActionKind::GenericParseTree);

const SUMS: &str = "%start E %% E: E '+' 'n' | 'n';";

const UNCLEAR: &str = "%start E %% E: E '+' E | 'n';";

const UNFINISHED: &str = "%start E %% E: E '+'";

const ROUND: &str = "%start S %% S: S | 'x';";

/// Returns whether no string of symbols leaves a token two actions of canonical LR(1), for a text that declares no
/// precedence.
fn is_lr1<S: IndexStorage>(kit: &ParserKit<S>) -> bool
    ensures { kit.now.kept.ast.precedences ≡ [] → IsTrue result ↔ (SomeContested kit.now.parser.grammar.grammar → ⊥) }
{
    kit.conflicts().is_none()
}

/// Returns a line about the kit of a text.
fn kit_line(alloc: Global, kit: &ParserKit<u32>) -> Result<String, AllocError> {
    let rules = usize::from(kit.grm().rules_len());
    let states = kit.sgraph().all_states_len().0.to_usize();
    let said = if is_lr1(kit) { "LR(1)" } else { "not LR(1)" };
    match kit.conflicts() {
        Some(listed) => {
            let (sr, rr) = (listed.sr_len(), listed.rr_len());
            format!(in alloc;
                "{rules} rules, {states} states, {said}: {sr} shift/reduce, {rr} reduce/reduce\n"
            )
        }
        None => format!(in alloc; "{rules} rules, {states} states, {said}\n"),
    }
}

/// Returns a line about the kit of a text, or why it has no kit.
fn line_about(alloc: Global, text: &str) -> Result<String, AllocError> {
    match ParserKit::new(alloc, text, TREE, 1000) {
        Ok(kit) => {
            let line = kit_line(alloc, &kit);
            drop(kit);
            line
        }
        Err(KitError::Memory(e)) => Err(e),
        Err(refusal) => format!(in alloc; "{refusal}\n"),
    }
}

/// Returns the output for each text.
pub fn output(alloc: Global) -> Result<String, AllocError> {
    let mut out = String::new(alloc);
    for text in [SUMS, UNCLEAR, UNFINISHED, ROUND] {
        out.push_str(line_about(alloc, text)?.as_str())?;
    }
    Ok(out)
}
