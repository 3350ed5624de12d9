//! Recoverers that offer what no sensible one does.

ghost use Rattle.std.specs.Prelude.{IfOk};

use cfg_base::symbol::TIdx;
use lrpar::{DefaultLexeme, Recoverer, RepairStep};
use lrtable::StIdx;
use std::alloc::{AllocError, Global};

const MANY: u32 = 1000;

const LONG: u32 = 500_000;

/// What a recoverer offers at each error.
#[derive(Clone, Copy, Debug)]
pub enum Offers {
    /// The empty sequence.
    Empty,
    /// A thousand times the same sequence, to insert the second token.
    Many,
    /// One sequence of 1,000,001 steps: the second token, and 500,000 times the first and the second.
    Long,
    /// One sequence of 500,000 steps that leave lexemes out, whatever is left.
    Deletes,
    /// The end token, and tokens that no grammar has.
    Outside,
    /// To shift the end.
    Past,
    /// Before a lexeme of an odd index the first token; at an even one the lexeme is left out, and then the first token.
    Changing,
}

/// Adds a step to a sequence `count` times.
fn push_steps(
    steps: &mut Vec<RepairStep<u32>>,
    step: RepairStep<u32>,
    count: u32,
) -> Result<(), AllocError> {
    'steps: for _number in 0..count {
        steps.push(step)?;
    }
    Ok(())
}

/// Adds a sequence.
fn push_sequence(
    all: &mut Vec<Vec<RepairStep<u32>>>,
    steps: Vec<RepairStep<u32>>,
) -> Result<(), AllocError> {
    all.push(steps)?;
    Ok(())
}

/// Adds a sequence of one step `count` times.
fn push_single(
    alloc: Global,
    all: &mut Vec<Vec<RepairStep<u32>>>,
    step: RepairStep<u32>,
    count: u32,
) -> Result<(), AllocError> {
    'sequences: for _number in 0..count {
        let mut steps = Vec::new(alloc);
        steps.push(step)?;
        push_sequence(all, steps)?;
    }
    Ok(())
}

/// Returns the second token, and many times the first and the second.
fn long_steps(alloc: Global) -> Result<Vec<RepairStep<u32>>, AllocError> {
    let mut steps = Vec::new(alloc);
    steps.push(RepairStep::Insert(TIdx(1)))?;
    'pairs: for _number in 0..LONG {
        steps.push(RepairStep::Insert(TIdx(0)))?;
        steps.push(RepairStep::Insert(TIdx(1)))?;
    }
    Ok(steps)
}

/// Returns what may mend the error before the lexeme at the index.
fn changing_steps(alloc: Global, index: usize) -> Result<Vec<RepairStep<u32>>, AllocError> {
    let mut steps = Vec::new(alloc);
    if index % 2 == 0 {
        steps.push(RepairStep::Delete)?;
    }
    steps.push(RepairStep::Insert(TIdx(0)))?;
    Ok(steps)
}

impl Offers {
    /// Adds what is offered before the lexeme at the index.
    fn push_all(
        &self,
        alloc: Global,
        laidx: usize,
        all: &mut Vec<Vec<RepairStep<u32>>>,
    ) -> Result<(), AllocError> {
        match self {
            Offers::Empty => push_sequence(all, Vec::new(alloc)),
            Offers::Many => push_single(alloc, all, RepairStep::Insert(TIdx(1)), MANY),
            Offers::Long => push_sequence(all, long_steps(alloc)?),
            Offers::Deletes => {
                let mut steps = Vec::new(alloc);
                push_steps(&mut steps, RepairStep::Delete, LONG)?;
                push_sequence(all, steps)
            }
            Offers::Outside => {
                push_single(alloc, all, RepairStep::Insert(TIdx(2)), 1)?;
                push_single(alloc, all, RepairStep::Insert(TIdx(99)), 1)?;
                push_single(alloc, all, RepairStep::Insert(TIdx(u32::MAX)), 1)
            }
            Offers::Past => push_single(alloc, all, RepairStep::Shift, 1),
            Offers::Changing => push_sequence(all, changing_steps(alloc, laidx)?),
        }
    }
}

impl Recoverer<u32, DefaultLexeme<u32>> for Offers {
    ghost answers = { λ offers state index lexeme offered. Unit {0} };

    fn sequences(
        &self,
        alloc: Global,
        _stidx: StIdx<u32>,
        laidx: usize,
        _lexeme: DefaultLexeme<u32>,
    ) -> Result<Vec<Vec<RepairStep<u32>>>, AllocError>
        ensures { IfOk result (λ r. Unit {0}) }
    {
        let mut all = Vec::new(alloc);
        match self.push_all(alloc, laidx, &mut all) {
            Ok(()) => Ok(all),
            Err(e) => {
                drop(all);
                Err(e)
            }
        }
    }
}
