//! Why a text is not answered, or not wholly.

ghost use Rattle.std.specs.Prelude.{◌≡◌};

use byte_streams::WriteFault;
use lrpar::ParseRefusal;
use std::alloc::AllocError;

/// Why a text is not answered, or not wholly.
#[derive(Debug, Drop)]
pub enum AnswerFault {
    /// A write failed, or took nothing of a text that isn't empty.
    Write,
    /// The lexemes of the text aren't of the grammar's tokens, or not in the order of the text.
    Lexemes,
    /// The request for memory that was refused.
    Memory(AllocError),
    /// Memory was refused to what writes an object.
    Unwritten,
}

impl From<AllocError> for AnswerFault {
    ghost use Rattle.text_parses.specs.declared.answer_fault.AnswerFault.TheVariants.{Memory};

    ghost from_gives = { λ x e. e ≡ Memory x };

    fn from(e: AllocError) -> AnswerFault {
        AnswerFault::Memory(e)
    }
}

impl From<WriteFault> for AnswerFault {
    ghost use Rattle.text_parses.specs.declared.answer_fault.AnswerFault.TheVariants.{Write};

    ghost from_gives = { λ x e. e ≡ Write };

    fn from(_e: WriteFault) -> AnswerFault {
        AnswerFault::Write
    }
}

impl From<ParseRefusal> for AnswerFault {
    ghost use Rattle.text_parses.specs.AnswerFaults.{fault_of_parse};

    ghost from_gives = { λ x e. e ≡ fault_of_parse x };

    fn from(refusal: ParseRefusal) -> AnswerFault {
        match refusal {
            ParseRefusal::LexemeOutside(_) => AnswerFault::Lexemes,
            ParseRefusal::StartDecreases(_) => AnswerFault::Lexemes,
            ParseRefusal::Memory(e) => AnswerFault::Memory(e),
        }
    }
}
