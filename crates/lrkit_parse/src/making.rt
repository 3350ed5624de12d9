//! The rules of the lexer's text.

ghost use Rattle.std.specs.Prelude.{IfOk};
ghost use Rattle.lrlex.specs.LexTexts.{ReadsRules};

use crate::fault::ParseFault;
use kit_texts::lexer_fault;
use lrlex::LexRules;
use std::alloc::Global;

/// Makes the rules of a lexer's text, or returns the text that says what is wrong with it.
pub fn make_rules(
    alloc: Global,
    text: &str,
    path: &str,
) -> Result<Result<LexRules, String>, ParseFault>
    ensures { IfOk result (λ r. IfOk r (ReadsRules text.now)) }
{
    match LexRules::from_text(alloc, text) {
        Ok(rules) => Ok(Ok(rules)),
        Err(error) => {
            if error.is_memory() {
                drop(error);
                return Err(ParseFault::Memory);
            }
            let shown = lexer_fault(alloc, text, path, &error);
            drop(error);
            Ok(Err(shown?))
        }
    }
}
