//! What may come at the errors of a parse: earlier errors are repaired by their first repairs.

ghost use Rattle.std.specs.Prelude.{◌≡◌, ◌≤◌, ℕ, [], ◌++◌, drop, length, IfOk, List, OnOk};
ghost use Rattle.lrkit_c.specs.Expecting.{numbers_of};
ghost use Rattle.lrkit_c.specs.Marks.{error_marks};
ghost use Rattle.lrkit_c.specs.Reading.{MarksErrors, AreNextOf, MarksError, ReadsUpTo, Reading, TakesStep, TakesSteps, first_steps};
ghost use Rattle.lrkit_c.specs.declared.marks.LrkitMark.{LrkitMark};

use crate::expected::numbers_of;
use crate::marks::{LrkitMark, Step, marks_of_error};
use cfg_base::symbol::TIdx;
use lrlex::DefaultLexeme;
use lrpar::{ParserData, Prefix};
use std::alloc::{AllocError, Global};
use text_parses::WordError;

/// Returns lexemes without the first ones.
fn behind(lexemes: &[DefaultLexeme<u32>], index: usize) -> &[DefaultLexeme<u32>]
    requires { index ≤ length lexemes.now }
    ensures { result.now ≡ drop index lexemes.entry.now }
{
    &lexemes[index..]
}

/// Takes lexemes up to the first that can't come, and returns those that are left.
fn read_on<'l>(
    prefix: &mut Prefix<'_, u32>,
    left: &'l [DefaultLexeme<u32>],
) -> Result<&'l [DefaultLexeme<u32>], AllocError>
    ensures reads { IfOk result (λ rest. ReadsUpTo prefix.old.parser (record { front = prefix.old.tokens; left = left.entry.now }) (record { front = prefix.new.tokens; left = rest.now })) }
    ensures parser { OnOk result (prefix.new.parser ≡ prefix.old.parser) }
{
    'lexemes: for index in 0..left.len() {
        if !prefix.push(TIdx(left[index].tok_id))? {
            return Ok(behind(left, index));
        }
    }
    Ok(behind(left, left.len()))
}

/// Returns lexemes without the first.
fn behind_first(left: &[DefaultLexeme<u32>]) -> &[DefaultLexeme<u32>]
    ensures { result.now ≡ drop 1 left.entry.now }
{
    if left.is_empty() {
        return left;
    }
    behind(left, 1)
}

/// Takes a step of a repair, and returns the lexemes that are left.
fn take_step<'l>(
    prefix: &mut Prefix<'_, u32>,
    left: &'l [DefaultLexeme<u32>],
    step: Step,
) -> Result<&'l [DefaultLexeme<u32>], AllocError>
    ensures takes { IfOk result (λ rest. TakesStep prefix.old.parser step (record { front = prefix.old.tokens; left = left.entry.now }) (record { front = prefix.new.tokens; left = rest.now })) }
    ensures parser { OnOk result (prefix.new.parser ≡ prefix.old.parser) }
{
    match step {
        Step::Insert(token) => {
            let _taken = prefix.push(token)?;
            Ok(left)
        }
        Step::Delete(_) => Ok(behind_first(left)),
        Step::Shift(lexeme) => {
            let _taken = prefix.push(TIdx(lexeme.tok_id))?;
            Ok(behind_first(left))
        }
    }
}

/// Takes the steps of a repair, and returns the lexemes that are left.
fn take_steps<'l>(
    prefix: &mut Prefix<'_, u32>,
    left: &'l [DefaultLexeme<u32>],
    steps: &[Step],
) -> Result<&'l [DefaultLexeme<u32>], AllocError>
    ensures takes { IfOk result (λ rest. TakesSteps prefix.old.parser steps.now (record { front = prefix.old.tokens; left = left.entry.now }) (record { front = prefix.new.tokens; left = rest.now })) }
    ensures parser { OnOk result (prefix.new.parser ≡ prefix.old.parser) }
{
    let mut rest = left;
    'steps: for index in 0..steps.len() {
        rest = take_step(prefix, rest, steps[index])?;
    }
    Ok(rest)
}

/// Returns the numbers of the tokens that may come behind those of a prefix, ascending.
fn next_numbers(
    alloc: Global,
    parser: &ParserData<u32>,
    prefix: &Prefix<'_, u32>,
) -> Result<Vec<u32>, AllocError>
    requires { prefix.now.parser ≡ parser.now }
    ensures { IfOk result (λ v. AreNextOf parser.now prefix.now.tokens v.items) }
{
    // Called for the proof alone: the tokens' count is a u32.
    let _count = parser.grm().tokens_len();
    let bits = prefix.next_tokens(alloc)?;
    let numbers = numbers_of(alloc, &bits)?;
    Ok(numbers)
}

/// Returns the steps of the first repair of an error; none where it has no repair.
fn first_steps(error: &WordError) -> &[Step]
    ensures { result.now ≡ first_steps error.entry.now }
{
    match error.repairs.first() {
        Some(first) => first.as_slice(),
        None => &[],
    }
}

/// Adds the marks of an error, with the tokens that may come behind those of a prefix.
fn push_marks(
    alloc: Global,
    parser: &ParserData<u32>,
    prefix: &Prefix<'_, u32>,
    error: &WordError,
    marks: &mut Vec<LrkitMark>,
) -> Result<(), AllocError>
    requires { prefix.now.parser ≡ parser.now }
    ensures { OnOk result ((tokens : List ℕ) × AreNextOf parser.now prefix.now.tokens tokens × (marks.new.items ≡ marks.old.items ++ error_marks tokens error.now)) }
{
    let numbers = next_numbers(alloc, parser, prefix)?;
    let made = marks_of_error(alloc, numbers.as_slice(), error)?;
    marks.extend_from_slice(made.as_slice())?;
    Ok(())
}

/// Adds the marks of the next error, and goes behind its first repair. Returns the lexemes that are left.
fn push_error<'l>(
    alloc: Global,
    parser: &ParserData<u32>,
    prefix: &mut Prefix<'_, u32>,
    left: &'l [DefaultLexeme<u32>],
    error: &WordError,
    marks: &mut Vec<LrkitMark>,
) -> Result<&'l [DefaultLexeme<u32>], AllocError>
    requires { prefix.old.parser ≡ parser.now }
    ensures marks { IfOk result (λ rest. (made : List LrkitMark) × MarksError parser.now error.now (record { front = prefix.old.tokens; left = left.entry.now }) (record { front = prefix.new.tokens; left = rest.now }) made × (marks.new.items ≡ marks.old.items ++ made)) }
    ensures parser { OnOk result (prefix.new.parser ≡ parser.now) }
{
    let at = read_on(prefix, left)?;
    push_marks(alloc, parser, prefix, error, marks)?;
    let rest = take_steps(prefix, at, first_steps(error))?;
    Ok(rest)
}

/// Adds the marks of errors, in their order.
fn push_errors(
    alloc: Global,
    parser: &ParserData<u32>,
    prefix: &mut Prefix<'_, u32>,
    lexemes: &[DefaultLexeme<u32>],
    errors: &[WordError],
    marks: &mut Vec<LrkitMark>,
) -> Result<(), AllocError>
    requires parser { prefix.old.parser ≡ parser.now }
    requires front { prefix.old.tokens ≡ [] }
    requires marks { marks.old.items ≡ [] }
    ensures { OnOk result ((last : Reading) × MarksErrors parser.now errors.now (record { front = []; left = lexemes.now }) last marks.new.items) }
{
    let mut left = lexemes;
    'errors: for index in 0..errors.len() {
        left = push_error(alloc, parser, prefix, left, &errors[index], marks)?;
    }
    Ok(())
}

/// Returns the marks of the errors of a parse of lexemes.
pub fn marks_of_errors(
    alloc: Global,
    parser: &ParserData<u32>,
    lexemes: &[DefaultLexeme<u32>],
    errors: &[WordError],
) -> Result<Vec<LrkitMark>, AllocError>
    ensures { IfOk result (λ v. (last : Reading) × MarksErrors parser.now errors.now (record { front = []; left = lexemes.now }) last v.items) }
{
    let mut marks = Vec::new(alloc);
    let mut prefix = parser.prefix(alloc)?;
    push_errors(alloc, parser, &mut prefix, lexemes, errors, &mut marks)?;
    Ok(marks)
}
