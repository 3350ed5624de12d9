//! Why a run stops, and the program's status.

ghost use Rattle.std.specs.Prelude.{◌≡◌};
ghost use Rattle.lrkit.specs.Faults.{run_fault_of, status_of};

use byte_streams::InputFault;
use parser_kit::KitError;
use std::alloc::AllocError;
use std::fmt;
use thiserror::Error;

/// One of the inputs of a run.
#[derive(Clone, Copy, Debug, PartialEq, Eq)]
pub enum Input {
    Grammar,
    Lines,
    Repairs,
}

impl fmt::Display for Input {
    fn fmt<W: fmt::Write>(&self, f: &mut fmt::Formatter<W>) -> fmt::Result {
        match self {
            Input::Grammar => write!(f, "grammar"),
            Input::Lines => write!(f, "lines"),
            Input::Repairs => write!(f, "repairs"),
        }
    }
}

/// Why a run stops without an answer. Its text has a line for each error of the grammar, and else one line.
#[derive(Debug, Drop, Error)]
pub enum RunFault {
    /// The grammar's text gives no parser, or there is no memory.
    #[error(transparent)]
    Kit(KitError<u32>),
    /// The counts of the listed conflicts aren't those of `%expect` and `%expect-rr`.
    #[error("conflicts: {shift_reduce} shift/reduce, {reduce_reduce} reduce/reduce, expected {expect} and {expect_rr}")]
    Conflicts {
        shift_reduce: usize,
        reduce_reduce: usize,
        expect: usize,
        expect_rr: usize,
    },
    /// This line of the repairs, counted from one, is the first that is no repair.
    #[error("repairs line {0}: not a repair")]
    NotARepair(usize),
    #[error("{0}: not UTF-8")]
    NotUtf8(Input),
    #[error("{0}: read fault")]
    Read(Input),
    /// The input has more than 67,108,864 bytes.
    #[error("{0}: too long")]
    TooLong(Input),
    /// A write failed, or took nothing of a text that isn't empty.
    #[error("write fault")]
    Write,
}

impl From<KitError<u32>> for RunFault {
    ghost use Rattle.lrkit.specs.declared.fault.RunFault.TheVariants.{Kit};

    ghost from_gives = { λ x e. e ≡ Kit x };

    fn from(e: KitError<u32>) -> RunFault {
        RunFault::Kit(e)
    }
}

impl From<AllocError> for RunFault {
    ghost use Rattle.lrkit.specs.declared.fault.RunFault.TheVariants.{Kit};
    ghost use Rattle.parser_kit.specs.declared.kit_error.KitError.TheVariants.{Memory};

    ghost from_gives = { λ x e. e ≡ Kit (Memory x) };

    fn from(e: AllocError) -> RunFault {
        RunFault::Kit(KitError::Memory(e))
    }
}

/// The fault of an input as the run's.
pub(crate) fn run_fault(input: Input, fault: InputFault) -> RunFault
    ensures { result ≡ run_fault_of input fault }
{
    match fault {
        InputFault::Read => RunFault::Read(input),
        InputFault::TooLong => RunFault::TooLong(input),
        InputFault::NotUtf8 => RunFault::NotUtf8(input),
        InputFault::Memory(e) => RunFault::Kit(KitError::Memory(e)),
    }
}

/// The program's exit status.
pub fn status(outcome: &Result<bool, RunFault>) -> u8
    ensures { result ≡ status_of outcome.now }
{
    match outcome {
        Ok(false) => 0,
        Ok(true) => 1,
        Err(RunFault::Kit(KitError::Memory(_))) => 6,
        Err(RunFault::Kit(_)) => 2,
        Err(RunFault::Conflicts { .. }) => 3,
        Err(RunFault::NotARepair(_)) => 4,
        Err(_) => 5,
    }
}
