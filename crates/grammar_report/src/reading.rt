//! A grammar's text as a parser of it, or as what is wrong with it.

ghost use Rattle.std.specs.Prelude.{◌≡◌, IfOk, Ok, OnErr, OnOk};
ghost use Rattle.parser_kit.specs.KitErrors.{IsMemory};
ghost use Rattle.grammar_report.specs.Outcomes.{IsKitIn, IsOutcome, TellsOutcome};
ghost use Rattle.grammar_report.specs.declared.outcome.Outcome.TheVariants.{Invalid};

use crate::counts::outcome_of;
use crate::outcome::Outcome;
use parser_kit::{KitError, ParserKit};
use std::alloc::{AllocError, Global};

// No chain of reductions on one token goes past this.
const CAP: u16 = 1000;

/// What a grammar's text gives.
#[derive(Drop)]
pub struct Reading {
    /// What holds for the text.
    pub outcome: Outcome,
    /// Its parser, or why there is none.
    pub kit: Result<ParserKit<u32>, KitError<u32>>,
}

/// Returns an error where a refusal is that of memory.
fn refuse_memory(refusal: &KitError<u32>) -> Result<(), AllocError>
    ensures { OnOk result (IsMemory refusal.now → ⊥) }
{
    if let KitError::Memory(e) = refusal {
        return Err(*e);
    }
    Ok(())
}

/// Returns a kit with what holds for its text.
fn reading_of_kit(alloc: Global, kit: ParserKit<u32>) -> Result<Reading, AllocError>
    ensures outcome { IfOk result (λ r. TellsOutcome kit r.outcome) }
    ensures kit { IfOk result (λ r. r.kit ≡ Ok kit) }
{
    match outcome_of(alloc, &kit) {
        Ok(outcome) => {
            let read = Ok(kit);
            Ok(Reading { outcome, kit: read })
        }
        Err(e) => {
            drop(kit);
            Err(e)
        }
    }
}

/// Reads a grammar's text, of the kind that its section names, else of `Original(GenericParseTree)`. No chain of reductions on
/// one token passes 1000.
pub fn read_grammar(alloc: Global, text: &str) -> Result<Reading, AllocError>
    ensures outcome { IfOk result (λ r. IsOutcome text.now r.outcome) }
    ensures kit { IfOk result (λ r. IfOk r.kit (λ k. IsKitIn text.now k × TellsOutcome k r.outcome)) }
    ensures refusal { IfOk result (λ r. OnErr r.kit (r.outcome ≡ Invalid)) }
{
    match ParserKit::of_text(alloc, text, CAP) {
        Ok(kit) => {
            let reading = reading_of_kit(alloc, kit)?;
            Ok(reading)
        }
        Err(refusal) => {
            if let Err(e) = refuse_memory(&refusal) {
                drop(refusal);
                return Err(e);
            }
            let outcome = Outcome::Invalid;
            let kit = Err(refusal);
            Ok(Reading { outcome, kit })
        }
    }
}
