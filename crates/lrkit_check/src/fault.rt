//! Why no report is written, and the program's status.

ghost use Rattle.std.specs.Prelude.{◌≡◌};
ghost use Rattle.lrkit_check.specs.Statuses.{fault_of, input_of, status_of};

use byte_streams::InputFault;
use grammar_report::Outcome;
use report_values::FindingsError;
use std::alloc::AllocError;
use thiserror::Error;

/// A file of the program.
#[derive(Clone, Copy, Debug, PartialEq, Eq)]
pub enum Input {
    /// The grammar's file.
    Grammar,
    /// The file of lines whose next tokens are asked for.
    Lines,
    /// The page that is written.
    Page,
}

/// Why no report is written, or not all of it. The system's cause is in words.
#[derive(Debug, Drop, Error)]
pub enum CheckFault {
    /// The input is no UTF-8.
    #[error("not UTF-8")]
    NotUtf8(Input),
    /// The input can't be opened, or a read fails.
    #[error("{1}")]
    Read(Input, String),
    /// The input has more than 64 MiB.
    #[error("more than 67108864 bytes")]
    TooLong(Input),
    /// A write failed, or took nothing of a text that isn't empty.
    #[error("write fault: {0}")]
    Write(String),
    /// The reader of the pipe that is written to is gone.
    #[error("closed pipe")]
    Closed,
    /// The request for memory that was refused.
    #[error("out of memory")]
    Memory(AllocError),
    /// Memory was refused to what writes an object.
    #[error("out of memory")]
    Unwritten,
    /// The grammar has this many states, which are too many to draw.
    #[error("{0} states are too many to draw: at most 2000")]
    TooManyStates(usize),
    /// The page can't be written.
    #[error("{0}")]
    Page(String),
}

impl From<AllocError> for CheckFault {
    ghost use Rattle.lrkit_check.specs.declared.fault.CheckFault.TheVariants.{Memory};

    ghost from_gives = { λ x e. e ≡ Memory x };

    fn from(e: AllocError) -> CheckFault {
        CheckFault::Memory(e)
    }
}

impl From<FindingsError> for CheckFault {
    ghost use Rattle.lrkit_check.specs.Forms.{fault_of_findings};

    ghost from_gives = { λ x e. e ≡ fault_of_findings x };

    fn from(e: FindingsError) -> CheckFault {
        match e {
            FindingsError::TooManyStates(count) => CheckFault::TooManyStates(count),
            FindingsError::Memory(e) => CheckFault::Memory(e),
        }
    }
}

impl CheckFault {
    /// Returns the file that the fault is about, if it is about one.
    pub fn input(&self) -> Option<Input>
        ensures { result ≡ input_of self.now }
    {
        match self {
            CheckFault::NotUtf8(input) => Some(*input),
            CheckFault::Read(input, _) => Some(*input),
            CheckFault::TooLong(input) => Some(*input),
            CheckFault::Write(_) => None,
            CheckFault::Closed => None,
            CheckFault::Memory(_) => None,
            CheckFault::Unwritten => None,
            CheckFault::TooManyStates(_) => Some(Input::Grammar),
            CheckFault::Page(_) => Some(Input::Page),
        }
    }
}

/// Returns the fault of an input as the program's, with the system's cause.
pub fn fault_of(input: Input, cause: String, fault: InputFault) -> CheckFault
    ensures { result ≡ fault_of input cause fault }
{
    match fault {
        InputFault::Read => CheckFault::Read(input, cause),
        InputFault::TooLong => CheckFault::TooLong(input),
        InputFault::NotUtf8 => CheckFault::NotUtf8(input),
        InputFault::Memory(e) => CheckFault::Memory(e),
    }
}

/// Returns the program's exit status.
pub fn status(outcome: &Result<Outcome, CheckFault>) -> u8
    ensures { result ≡ status_of outcome.now }
{
    match outcome {
        Ok(told) => grammar_report::status(*told),
        Err(CheckFault::Memory(_)) => 6,
        Err(CheckFault::Unwritten) => 6,
        Err(_) => 5,
    }
}
