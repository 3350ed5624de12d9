//! Values as JSON objects.

ghost use Rattle.std.specs.Prelude.{IfOk, string_bytes};
ghost use Rattle.report_forms.specs.ObjectTexts.{IsLineOf, IsObjectLine};
ghost use Rattle.report_forms.specs.ParseTexts.{IsParseLine};

use crate::parse_values::Parse;
use crate::values::Findings;
use serde::Serialize;
use std::alloc::Global;

/// Memory was refused to what writes an object, which keeps no request that was refused.
#[derive(Clone, Copy, Debug)]
pub struct Unwritten;

/// Returns a value as JSON, on a line. Its keys are texts and its numbers whole, so that only memory can be missing.
fn line_of<T: Serialize>(alloc: Global, value: &T) -> Result<String, Unwritten>
    ensures { IfOk result (λ text. IsLineOf (T.writes value.now) (string_bytes text)) }
{
    let Ok(mut text) = serde_json::to_string(alloc, value) else {
        return Err(Unwritten);
    };
    match text.push('\n') {
        Ok(()) => Ok(text),
        Err(_) => Err(Unwritten),
    }
}

/// Returns the report as one JSON object, on a line.
pub fn json_text(alloc: Global, findings: &Findings) -> Result<String, Unwritten>
    ensures { IfOk result (λ text. IsObjectLine findings.now.object (string_bytes text)) }
{
    line_of(alloc, &findings.object)
}

/// Returns the parse of a text as one JSON object, on a line.
pub fn parse_json(alloc: Global, parse: &Parse<'_>) -> Result<String, Unwritten>
    ensures { IfOk result (λ text. IsParseLine parse.now (string_bytes text)) }
{
    line_of(alloc, parse)
}
