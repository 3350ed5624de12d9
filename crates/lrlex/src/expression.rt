//! Expressions, compiled.

ghost use Rattle.std.specs.Prelude.{◌≡◌, IfOk};
ghost use Rattle.lrlex.specs.Expressions.{SearchesFor, lex_config};

use regex::{Error, Regex, RegexBuilder};
use regex_syntax::Config;
use std::alloc::Global;

/// Compiles the expression of a rule, to be searched for at the front of a text. `.` matches LF too, `^` and `$` match at the
/// ends of lines, and `\141` is an octal escape.
pub fn compile(alloc: Global, expression: &str) -> Result<Regex, Error>
    ensures { IfOk result (SearchesFor expression.now) }
{
    let source = format!(in alloc; "\\A(?:{expression})")?;
    RegexBuilder::new(source.as_str())
        .octal(true)
        .multi_line(true)
        .dot_matches_new_line(true)
        .build(alloc)
}

/// Returns the options that expressions are compiled with.
pub(crate) fn options() -> Config
    ensures { result ≡ lex_config }
{
    let mut config = Config::default();
    config.octal = true;
    config.flags.multi_line = true;
    config.flags.dot_matches_new_line = true;
    config
}
