//! The bytes that the matches of a regex begin with.

ghost use Rattle.std.specs.Prelude.{◌≡◌, IfOk, IfSome};
ghost use Rattle.regex.specs.Strings.{regex_config, regex_pattern, IsReadFromSource};
ghost use Rattle.maximal_munch.specs.Beginnings.{BeginsIn, IsAutomatonOf};

use regex::Regex;
use regex_compile::compile;
use regex_levels::{Level, first_level};
use regex_nfa::Nfa;
use regex_syntax::{Config, Parsed, parse};
use std::alloc::{AllocError, Global};

/// The most bytes that the automaton of an expression may take.
const MOST_BYTES: usize = 10 << 20;

/// Makes the automaton of what a text reads as.
fn automaton(alloc: Global, source: &str, config: &Config) -> Option<Nfa>
    ensures { IfSome result (IsAutomatonOf source.now config.now) }
{
    let Ok(Parsed { hir, names }) = parse(alloc, source, config) else {
        return None;
    };
    let groups = u32::try_from(names.len()).unwrap_or(u32::MAX);
    compile(alloc, &hir, groups, MOST_BYTES).ok()
}

/// Returns a flag for each byte that a match may begin with, or None where it may be any, as far as is known.
pub(crate) fn first_bytes(
    alloc: Global,
    regex: &Regex,
    config: &Config,
) -> Result<Option<Level>, AllocError>
    requires config { regex_config regex.now ≡ config.now }
    requires read { IsReadFromSource regex.now }
    ensures { IfOk result (λ o. IfSome o (BeginsIn (regex_pattern regex.now))) }
{
    let Some(nfa) = automaton(alloc, regex.as_str(), config) else {
        return Ok(None);
    };
    first_level(alloc, &nfa)
}
