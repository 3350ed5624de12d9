//! The kind that a grammar text names in its section.

ghost use Rattle.std.specs.Prelude.{◌≡◌, None, IfOk, IfErr, IfSome};
ghost use Rattle.cfg_read.specs.Files.{FailsToTell, IsFailure, TellsKind, TellsNoKind};

use crate::yacc::YaccKind;
use crate::yacc::file::{YaccGrammarResult, kind_in, read_section};
use std::alloc::Global;

/// Returns the kind that a text's section names by `yacckind`, and `None` where the text has no section, or one
/// without this key. What is behind the section isn't read.
///
/// # Errors
///
/// - `Invalid` with the errors of the section, else with that of the key's value, where it names no kind.
/// - `Memory` where memory is refused.
pub fn kind_of(alloc: Global, text: &str) -> YaccGrammarResult<Option<YaccKind>>
    ensures named { IfOk result (λ k. IfSome k (TellsKind text.now)) }
    ensures unnamed { IfOk result (λ k. k ≡ None → TellsNoKind text.now) }
    ensures err { IfErr result (λ e. IsFailure (FailsToTell text.now) e) }
{
    let (header, _start) = match read_section(alloc, text) {
        Ok(read) => read,
        Err(e) => return Err(e),
    };
    match kind_in(alloc, &header) {
        Ok(kind) => {
            drop(header);
            Ok(kind)
        }
        Err(e) => {
            drop(header);
            Err(e)
        }
    }
}
