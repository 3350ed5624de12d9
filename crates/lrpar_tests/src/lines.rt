//! Repairs by hand.

ghost use Rattle.std.specs.Prelude.{IfOk};

use cfg_base::symbol::TIdx;
use lrpar::{DefaultLexeme, Recoverer, RepairStep};
use lrtable::StIdx;
use std::alloc::{AllocError, Global};
use std::cell::Cell;

/// Writes a number down behind those before, as a digit one more than it.
pub fn note(digits: &Cell<usize>, number: usize) {
    let digit = number.wrapping_add(1);
    digits.set(digits.get().wrapping_mul(10).wrapping_add(digit));
}

/// Passes the same sequences at each error, and writes down the index at which it is asked.
#[derive(Drop)]
pub struct Lines<'a> {
    sequences: Vec<Vec<RepairStep<u8>>>,
    indices: &'a Cell<usize>,
}

impl<'a> Recoverer<u8, DefaultLexeme<u8>> for Lines<'a> {
    ghost answers = { λ lines state index lexeme offered. Unit {0} };

    fn sequences(
        &self,
        alloc: Global,
        _stidx: StIdx<u8>,
        laidx: usize,
        _lexeme: DefaultLexeme<u8>,
    ) -> Result<Vec<Vec<RepairStep<u8>>>, AllocError>
        ensures { IfOk result (λ r. Unit {0}) }
    {
        note(self.indices, laidx);
        let mut all = Vec::new(alloc);
        for sequence in self.sequences.as_slice() {
            all.push(Vec::from_clones(alloc, sequence.as_slice())?)?;
        }
        Ok(all)
    }
}

/// Returns the step of a letter: `d` deletes, `s` shifts, a digit inserts that token, any other letter the token of its own
/// number, as `c` 99.
fn step_of(letter: u8) -> RepairStep<u8> {
    match letter {
        b'd' => RepairStep::Delete,
        b's' => RepairStep::Shift,
        b'0'..=b'9' => RepairStep::Insert(TIdx(letter % 16)),
        _ => RepairStep::Insert(TIdx(letter)),
    }
}

/// Returns the sequences of letters, with a blank between two of them.
pub fn lines_of<'a>(
    alloc: Global,
    letters: &str,
    indices: &'a Cell<usize>,
) -> Result<Lines<'a>, AllocError> {
    let mut sequences = Vec::new(alloc);
    let mut sequence = Vec::new(alloc);
    for letter in letters.as_bytes() {
        if *letter == b' ' {
            sequences.push(sequence)?;
            sequence = Vec::new(alloc);
        } else {
            sequence.push(step_of(*letter))?;
        }
    }
    sequences.push(sequence)?;
    Ok(Lines { sequences, indices })
}
