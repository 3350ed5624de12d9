//! The value of a line.

ghost use Rattle.std.specs.Prelude.{IfOk};
ghost use Rattle.examples.specs.Values.{Evaluates};

use crate::calc::actions::Differences;
use lrpar::{DefaultLexerTypes, ListLexer, ParseRefusal, ParserData, RTParserBuilder};
use std::alloc::Global;

/// Returns the value of the words of a line, if they have one. Returns a `ParseRefusal` where the words' starts decrease,
/// a token's number is past the grammar's, or memory is refused.
pub fn eval(
    alloc: Global,
    checked: &ParserData<u32>,
    line: &str,
    words: &ListLexer<DefaultLexerTypes<u32>>,
) -> Result<Option<u64>, ParseRefusal>
    ensures { IfOk result (Evaluates checked.now line.now words.now) }
{
    let parser = RTParserBuilder::<DefaultLexerTypes<u32>, _>::new(checked);
    let (value, errors) = parser.parse_actions(alloc, words, &Differences { line })?;
    drop(errors);
    Ok(value)
}
