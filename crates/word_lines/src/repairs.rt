//! Repairs in words, and who hands them in.

ghost use Rattle.std.specs.Prelude.{◌≡◌, [], ◌∷◌, ◌++◌, Some, map, option_map, IfOk, OnOk, IfErr};
ghost use Rattle.std.specs.Str.Lines.{lines};
ghost use Rattle.parse_trees.specs.Edits.{edits_of, sequences_of};
ghost use Rattle.word_lines.specs.Repairs.{repair_line};
ghost use Rattle.word_lines.specs.RepairReading.{IsRepairsError, TakesLine, TakesPart, ReadsWord};

use crate::names::find_token;
use cfg_base::index::IndexStorage;
use cfg_numbered::yacc::grammar::NumberedGrammar;
use lrpar::{Lexeme, Recoverer, RepairStep};
use state_table::StIdx;
use std::alloc::{AllocError, Global};
use std::error::Error;
use std::fmt;
use std::fmt::{Display, Formatter, Write};
use std::marker::Model;

/// Why a text has no repairs.
#[derive(Clone, Copy, Debug)]
pub enum RepairsError {
    /// This line, counted from one, is the first that is no repair.
    NotARepair(usize),
    /// There is no memory.
    Memory(AllocError),
}

impl Display for RepairsError {
    ghost use Rattle.std.specs.Prelude.{Some};
    ghost use Rattle.word_lines.specs.LexemeTexts.{repairs_error_text};

    ghost output = { λ e. Some (repairs_error_text e) };

    fn fmt<W: Write>(&self, f: &mut Formatter<W>) -> fmt::Result {
        match self {
            RepairsError::NotARepair(line) => write!(f, "repairs line {line}: not a repair"),
            RepairsError::Memory(_) => write!(f, "out of memory"),
        }
    }
}

impl Error for RepairsError {}

impl From<AllocError> for RepairsError {
    ghost use Rattle.word_lines.specs.declared.repairs.RepairsError.TheVariants.{Memory};

    ghost from_gives = { λ x e. e ≡ Memory x };

    fn from(e: AllocError) -> RepairsError {
        RepairsError::Memory(e)
    }
}

/// Sequences of repairs, all of which are offered at each error, in their order. Contracts see lists of edits.
#[derive(Drop)]
pub struct RepairLines<S: IndexStorage> {
    sequences: Vec<Vec<RepairStep<S>>>,
}

impl<S: IndexStorage> Model for RepairLines<S> {
    ghost use Rattle.std.specs.Prelude.{List};
    ghost use Rattle.lr_theory.specs.Repair.{Edit};
    ghost use Rattle.parse_trees.specs.Edits.{sequences_of};

    ghost Value = { List (List Edit) };

    ghost view = { λ l. sequences_of S.number l.sequences.items };
}

impl<S: IndexStorage, L: Lexeme<S>> Recoverer<S, L> for RepairLines<S> {
    ghost answers = { λ lines state index lexeme offered. offered ≡ lines };

    fn sequences(
        &self,
        alloc: Global,
        _stidx: StIdx<S>,
        _laidx: usize,
        _lexeme: L,
    ) -> Result<Vec<Vec<RepairStep<S>>>, AllocError>
        ensures { IfOk result (λ r. sequences_of S.number r.items ≡ self.now) }
    {
        copies(alloc, self.sequences.as_slice())
    }
}

/// Copies of sequences.
fn copies<S: IndexStorage>(
    alloc: Global,
    sequences: &[Vec<RepairStep<S>>],
) -> Result<Vec<Vec<RepairStep<S>>>, AllocError>
    ensures { IfOk result (λ r. sequences_of S.number r.items ≡ sequences_of S.number sequences.now) }
{
    let mut all = Vec::new(alloc);
    'sequences: for index in 0..sequences.len() {
        push_copy(alloc, sequences[index].as_slice(), &mut all)?;
    }
    Ok(all)
}

/// Puts the copy of a sequence.
fn push_copy<S: IndexStorage>(
    alloc: Global,
    sequence: &[RepairStep<S>],
    all: &mut Vec<Vec<RepairStep<S>>>,
) -> Result<(), AllocError>
    ensures { OnOk result (sequences_of S.number all.new.items ≡ sequences_of S.number all.old.items ++ edits_of S.number sequence.now ∷ []) }
{
    let copy = Vec::from_slice(alloc, sequence)?;
    all.push(copy)?;
    Ok(())
}

/// Reads a text in which each line is any number of `insert NAME`, `delete` and `shift`, where `NAME` is that of a
/// token, in words separated by spaces. Lines end at LF, a CR before it is dropped, and none follows the last LF.
/// Returns `NotARepair` with the number, counted from 1, of the first line that is something else, and `Memory` where
/// memory is refused.
pub fn read_repairs<S: IndexStorage>(
    alloc: Global,
    grm: &NumberedGrammar<S>,
    text: &str,
) -> Result<RepairLines<S>, RepairsError>
    ensures ok { IfOk result (λ repairs. map (repair_line grm.now) (lines text.now) ≡ map Some repairs) }
    ensures err { IfErr result (IsRepairsError grm.now (lines text.now)) }
{
    let mut sequences = Vec::new(alloc);
    'lines: for line in text.lines() {
        let taken = take_line(alloc, grm, line, &mut sequences)?;
        if !taken {
            return Err(RepairsError::NotARepair(sequences.len() + 1));
        }
    }
    Ok(RepairLines { sequences })
}

/// Puts the sequence of a line. It answers whether the line is a repair.
fn take_line<S: IndexStorage>(
    alloc: Global,
    grm: &NumberedGrammar<S>,
    line: &str,
    sequences: &mut Vec<Vec<RepairStep<S>>>,
) -> Result<bool, AllocError>
    ensures { IfOk result (TakesLine grm.now line.now (sequences_of S.number sequences.old.items) (sequences_of S.number sequences.new.items)) }
{
    let steps = read_line(alloc, grm, line)?;
    match steps {
        Some(sequence) => {
            sequences.push(sequence)?;
            Ok(true)
        }
        None => Ok(false),
    }
}

/// Reads a line of repairs; None where it is none.
fn read_line<S: IndexStorage>(
    alloc: Global,
    grm: &NumberedGrammar<S>,
    line: &str,
) -> Result<Option<Vec<RepairStep<S>>>, AllocError>
    ensures { IfOk result (λ steps. option_map (λ v. edits_of S.number v.items) steps ≡ repair_line grm.now line.now) }
{
    let mut steps = Vec::new(alloc);
    let mut inserting = false;
    'parts: for part in line.split(' ') {
        let taken = take_part(grm, part, &mut inserting, &mut steps)?;
        if !taken {
            return Ok(None);
        }
    }
    if inserting {
        return Ok(None);
    }
    Ok(Some(steps))
}

/// Takes a part between spaces into the steps so far. It answers whether a repair may go on with it; `inserting` tells that an
/// `insert` waits for its name.
fn take_part<S: IndexStorage>(
    grm: &NumberedGrammar<S>,
    part: &str,
    inserting: &mut bool,
    steps: &mut Vec<RepairStep<S>>,
) -> Result<bool, AllocError>
    ensures { IfOk result (TakesPart grm.now part.now (edits_of S.number steps.old.items) inserting.old (edits_of S.number steps.new.items) inserting.new) }
{
    if part.is_empty() {
        return Ok(true);
    }
    match read_word(grm, *inserting, part) {
        WordRead::Insert => {
            *inserting = true;
            Ok(true)
        }
        WordRead::Step(step) => {
            steps.push(step)?;
            *inserting = false;
            Ok(true)
        }
        WordRead::Other => Ok(false),
    }
}

/// What a word of a line of repairs says.
enum WordRead<S: IndexStorage> {
    /// The next word is a token's name.
    Insert,
    /// A step, whose last word it is.
    Step(RepairStep<S>),
    /// No repair has it there.
    Other,
}

/// Reads a word; `inserting` tells whether `insert` stands before it.
fn read_word<S: IndexStorage>(grm: &NumberedGrammar<S>, inserting: bool, word: &str) -> WordRead<S>
    ensures { ReadsWord S.number grm.now inserting word.now result }
{
    if inserting {
        return match find_token(grm, word) {
            Some(token) => WordRead::Step(RepairStep::Insert(token)),
            None => WordRead::Other,
        };
    }
    match word {
        "insert" => WordRead::Insert,
        "delete" => WordRead::Step(RepairStep::Delete),
        "shift" => WordRead::Step(RepairStep::Shift),
        _ => WordRead::Other,
    }
}
