//! The answer to a line.

ghost use Rattle.std.specs.Prelude.{◌≡◌, ◌≤◌, ◌++◌, Option, IfOk, IfErr, IfSome, OnOk, OnErr, length, false, true};
ghost use Rattle.std.specs.List.{AllByRecursion};
ghost use Rattle.std.specs.Str.{IsUtf8};
ghost use Rattle.byte_streams.specs.Sink.{BeginningWritten, IsOutBut};
ghost use Rattle.cfg_theory.specs.Tree.{Tree};
ghost use Rattle.lrpar.specs.FlatParses.{HasFlat};
ghost use Rattle.parse_trees.specs.Lexemes.{Misfit};
ghost use Rattle.parse_trees.specs.Refusals.{HasMisfit};
ghost use Rattle.parse_trees.specs.Lex.{span_by};
ghost use Rattle.word_lines.specs.Lexing.{items_of, lex_of};
ghost use Rattle.word_lines.specs.LineTexts.{ErrorCanBeShown, TreeCanBeShown, fault_line};
ghost use Rattle.lrkit.specs.LineSteps.{IsFaultless, LeavesParsed};
ghost use Rattle.lrkit.specs.Output.{Word, id, parsed_text};
ghost use Rattle.lrkit.specs.Run.{IsLate, IsWriteCause};
ghost use Rattle.lrkit.specs.Writing.{BeginsLine, LeavesLine};

use crate::fault::RunFault;
use crate::trees::{Answers, give_out, write_outline, write_rest, write_tree};
use byte_streams::Sink;
use lrpar::{FlatTree, Lexer, Outline, ParseError, ParseRefusal};
use parser_kit::GrammarKit;
use std::alloc::{AllocError, Global};
use word_lines::laws::{
    flat_parses_can_be_shown, items_are_parts_of_their_line, lexemes_of_lines_are_named,
    parses_can_be_shown,
};
use word_lines::shown::{push_errors, push_fault};
use word_lines::{LexerRoom, RepairLines, WordLexError, WordLexeme, WordLexer, WordLexerTypes};

type LineTree = FlatTree<u32, WordLexeme<u32>>;

type LineOutline = Outline<u32, WordLexeme<u32>>;

type LineError = ParseError<WordLexeme<u32>, u32>;

type LineLexer<'a> = WordLexer<'a, u32>;

/// Adds the text of a line to what waits: its errors, and then its tree, if it has a value. What waits is written whenever it is
/// long, and where the line can't be read for want of memory. It answers whether there was an error, and the room of its lexer's
/// list, which serves the next line.
pub(crate) fn write_line<W: Sink>(
    answers: &Answers<'_>,
    room: LexerRoom<u32>,
    line: &str,
    text: &mut Vec<u8>,
    out: &mut W,
) -> Result<(bool, LexerRoom<u32>), RunFault>
    ensures ok { IfOk result (λ r. LeavesLine answers.now.kit.now answers.now.repairs.now line.now (W.known out.old) (W.known out.new) text.old.items text.new.items r.0) }
    ensures late { IfErr result IsLate }
    ensures begins { OnErr result (BeginsLine answers.now.kit.now answers.now.repairs.now line.now (W.known out.old) (W.known out.new) text.old.items) }
    ensures cause { IfErr result (IsWriteCause (W.faults out.old) (W.faults out.new)) }
    ensures kept { OnOk result (W.faults out.new ≡ W.faults out.old) }
{
    let read = match room.read(answers.kit.grm(), line) {
        Ok(read) => read,
        Err(e) => return Err(give_up(text.as_slice(), out, e)),
    };
    match outline_of(answers.alloc, answers.kit, answers.repairs, &read) {
        Ok(Some(outline)) => {
            write_faultless(answers, line, &read, &outline, text, out)?;
            Ok((false, read))
        }
        Ok(None) => write_read(answers, read, line, text, out),
        Err(e) => Err(give_up(text.as_slice(), out, e)),
    }
}

// Writes what waits before a line for which there is no memory, and returns why the run stops.
fn give_up<W: Sink>(text: &[u8], out: &mut W, e: AllocError) -> RunFault
    ensures late { IsLate result }
    ensures begins { BeginningWritten (W.known out.old) (W.known out.new) text.now }
    ensures cause { IsWriteCause (W.faults out.old) (W.faults out.new) result }
{
    match write_rest(text, out) {
        Ok(()) => RunFault::from(e),
        Err(fault) => fault,
    }
}

// Adds the text of a line whose items are at hand.
fn write_read<W: Sink>(
    answers: &Answers<'_>,
    read: LexerRoom<u32>,
    line: &str,
    text: &mut Vec<u8>,
    out: &mut W,
) -> Result<(bool, LexerRoom<u32>), RunFault>
    requires items { read ≡ items_of id answers.now.kit.now.grammar line.now }
    requires not_refused { (m : Misfit) → HasMisfit answers.now.kit.now.grammar.grammar (lex_of id) read m → ⊥ }
    ensures ok { IfOk result (λ r. LeavesLine answers.now.kit.now answers.now.repairs.now line.now (W.known out.old) (W.known out.new) text.old.items text.new.items r.0) }
    ensures late { IfErr result IsLate }
    ensures begins { OnErr result (BeginsLine answers.now.kit.now answers.now.repairs.now line.now (W.known out.old) (W.known out.new) text.old.items) }
    ensures cause { IfErr result (IsWriteCause (W.faults out.old) (W.faults out.new)) }
    ensures kept { OnOk result (W.faults out.new ≡ W.faults out.old) }
{
    let lexer = WordLexer::of_read(answers.alloc, read, line)?;
    match write_lexed(answers, line, &lexer, text, out) {
        Ok(wrong) => Ok((wrong, lexer.into_room())),
        Err(e) => Err(e),
    }
}

// Returns the outline of the tree of a line without errors, if it is not too large.
fn outline_of(
    alloc: Global,
    kit: &GrammarKit<u32>,
    repairs: &RepairLines<u32>,
    read: &LexerRoom<u32>,
) -> Result<Option<LineOutline>, AllocError>
    ensures { IfOk result (λ o. IfSome o (IsFaultless kit.now repairs.now read.now)) }
{
    let parsed = kit.parse_outline::<WordLexerTypes<u32>, LexerRoom<u32>, RepairLines<u32>>(
        alloc, read, repairs,
    );
    match parsed {
        Ok(Ok((outline, errors))) => {
            if errors.is_empty() {
                Ok(outline)
            } else {
                Ok(None)
            }
        }
        Ok(Err(_)) => Ok(None),
        Err(ParseRefusal::Memory(e)) => Err(e),
        Err(ParseRefusal::LexemeOutside(_)) => Ok(None),
        Err(ParseRefusal::StartDecreases(_)) => Ok(None),
    }
}

// Adds the tree of a line without errors, by its outline. It is not inlined into the loop over lines.
#[inline(never)]
fn write_faultless<W: Sink>(
    answers: &Answers<'_>,
    line: &str,
    read: &LexerRoom<u32>,
    outline: &LineOutline,
    text: &mut Vec<u8>,
    out: &mut W,
) -> Result<(), RunFault>
    requires items { read.now ≡ items_of id answers.now.kit.now.grammar line.now }
    requires faultless { IsFaultless answers.now.kit.now answers.now.repairs.now read.now outline.now }
    ensures ok { OnOk result (LeavesLine answers.now.kit.now answers.now.repairs.now line.now (W.known out.old) (W.known out.new) text.old.items text.new.items false) }
    ensures late { IfErr result IsLate }
    ensures begins { OnErr result (BeginsLine answers.now.kit.now answers.now.repairs.now line.now (W.known out.old) (W.known out.new) text.old.items) }
    ensures cause { IfErr result (IsWriteCause (W.faults out.old) (W.faults out.new)) }
    ensures kept { OnOk result (W.faults out.new ≡ W.faults out.old) }
{
    parses_can_be_shown::<WordLexerTypes<u32>, RepairLines<u32>>();
    items_are_parts_of_their_line::<u32>();
    lexemes_of_lines_are_named::<u32>();
    answers.kit.stays_tabled();
    write_outline(answers, line, read.iter().as_slice(), outline, text, out)
}

// Adds the text of a line that is lexed.
fn write_lexed<'a, W: Sink>(
    answers: &Answers<'a>,
    line: &'a str,
    lexer: &LineLexer<'a>,
    text: &mut Vec<u8>,
    out: &mut W,
) -> Result<bool, RunFault>
    requires line { lexer.now.text ≡ line.now }
    requires items { lexer.now.items ≡ items_of id answers.now.kit.now.grammar line.now }
    requires not_refused { (m : Misfit) → HasMisfit answers.now.kit.now.grammar.grammar (lex_of id) lexer.now.items m → ⊥ }
    ensures ok { IfOk result (LeavesLine answers.now.kit.now answers.now.repairs.now line.now (W.known out.old) (W.known out.new) text.old.items text.new.items) }
    ensures late { IfErr result IsLate }
    ensures begins { OnErr result (BeginsLine answers.now.kit.now answers.now.repairs.now line.now (W.known out.old) (W.known out.new) text.old.items) }
    ensures cause { IfErr result (IsWriteCause (W.faults out.old) (W.faults out.new)) }
    ensures kept { OnOk result (W.faults out.new ≡ W.faults out.old) }
{
    flat_parses_can_be_shown::<WordLexerTypes<u32>, RepairLines<u32>>();
    items_are_parts_of_their_line::<u32>();
    answers.kit.stays_tabled();
    let parsed = answers
        .kit
        .parse_flat::<WordLexerTypes<u32>, LineLexer<'_>, RepairLines<u32>>(
            answers.alloc,
            lexer,
            answers.repairs,
        );
    match parsed {
        Ok(Ok((tree, errors))) => {
            let lexed = ReadLine { line, lexer };
            write_parsed(answers, &lexed, &tree, errors, text, out)
        }
        Ok(Err(error)) => write_first_fault(answers, lexer, error, text, out),
        Err(ParseRefusal::Memory(e)) => Err(give_up(text.as_slice(), out, e)),
        Err(ParseRefusal::LexemeOutside(_)) => unreachable!(),
        Err(ParseRefusal::StartDecreases(_)) => unreachable!(),
    }
}

// A line, and the lexer of its words.
#[derive(Drop)]
struct ReadLine<'r, 'a> {
    line: &'r str,
    lexer: &'r LineLexer<'a>,
}

// Adds the texts of these errors, and then that of the tree, if there is one.
fn write_parsed<'a, W: Sink>(
    answers: &Answers<'a>,
    lexed: &ReadLine<'_, 'a>,
    tree: &Option<LineTree>,
    errors: Vec<LineError>,
    text: &mut Vec<u8>,
    out: &mut W,
) -> Result<bool, RunFault>
    requires line { lexed.now.lexer.now.text ≡ lexed.now.line.now }
    requires errors { AllByRecursion (ErrorCanBeShown id answers.now.kit.now.grammar lexed.now.line.now) errors.items }
    requires tree { TreeCanBeShown id answers.now.kit.now.grammar lexed.now.line.now tree.now }
    ensures ok { (t : Option (Tree Word)) → HasFlat (span_by (lex_of id)) tree.now t → IfOk result (LeavesParsed answers.now.kit.now.grammar lexed.now.line.now (W.known out.old) (W.known out.new) text.old.items text.new.items t errors.items) }
    ensures late { IfErr result IsLate }
    ensures begins { (t : Option (Tree Word)) → HasFlat (span_by (lex_of id)) tree.now t → OnErr result (BeginningWritten (W.known out.old) (W.known out.new) (text.old.items ++ parsed_text answers.now.kit.now.grammar lexed.now.line.now errors.items t)) }
    ensures cause { IfErr result (IsWriteCause (W.faults out.old) (W.faults out.new)) }
    ensures kept { OnOk result (W.faults out.new ≡ W.faults out.old) }
{
    let alloc = answers.alloc;
    let grm = answers.kit.grm();
    let faulty = !errors.is_empty();
    push_errors(alloc, grm, lexed.lexer, errors, text)?;
    write_tree(alloc, grm, lexed.line, tree, text, out)?;
    Ok(faulty)
}

// Adds the text of the line's first word that is no token's name.
fn write_first_fault<'a, W: Sink>(
    answers: &Answers<'a>,
    lexer: &LineLexer<'a>,
    error: WordLexError,
    text: &mut Vec<u8>,
    out: &mut W,
) -> Result<bool, RunFault>
    requires within { error.span.end ≤ length lexer.now.text }
    ensures ok { IfOk result (λ faulty. IsOutBut (W.known out.old) (W.known out.new) (text.old.items ++ fault_line lexer.now.text error) text.new.items × (faulty ≡ true)) }
    ensures late { IfErr result IsLate }
    ensures begins { OnErr result (BeginningWritten (W.known out.old) (W.known out.new) (text.old.items ++ fault_line lexer.now.text error)) }
    ensures cause { IfErr result (IsWriteCause (W.faults out.old) (W.faults out.new)) }
    ensures kept { OnOk result (W.faults out.new ≡ W.faults out.old) }
{
    push_fault(answers.alloc, answers.kit.grm(), lexer, error, text)?;
    give_out(text, out)?;
    Ok(true)
}
