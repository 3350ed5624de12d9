//! From grammar, repairs and lines to the text.

ghost use Rattle.std.specs.Prelude.{◌≡◌, ◌||◌, ◌+◌, ℕ, List, Option, None, IfOk, IfErr, OnOk, OnErr, string_bytes};
ghost use Rattle.std.specs.Str.Lines.{lines};
ghost use Rattle.byte_streams.specs.Inputs.{most_bytes, TakesAtMost};
ghost use Rattle.lrkit.specs.Output.{BeginsTexts};
ghost use Rattle.lrkit.specs.Run.{AreGoodBefore, IsCauseIn, IsEarlyIn, IsGoodKitIn, IsInput, IsLate, IsOutAt, IsReadFaultOf, IsRefusal, IsWriteCause, ReadsRepairsIn, WritesOutput};
ghost use Rattle.lrkit.specs.RunKits.{IsRunKit, IsRunKitRefusal};
ghost use Rattle.lrkit.specs.Writing.{WritesLines};

use crate::answering::write_line;
use crate::counts::check_counts;
use crate::fault::{Input, RunFault, run_fault};
use crate::trees::{Answers, write_rest};
use byte_streams::{Sink, Source, read_text};
use parser_kit::{GrammarKit, KitError, ParserKit};
use std::alloc::Global;
use word_lines::{LexerRoom, NodeLines, RepairLines, RepairsError, read_repairs};

// No chain of reductions on one token goes past this.
const CAP: u16 = 1000;

/// Writes, for each line, its errors and then its tree, if it has a value. It answers whether some line has an error.
///
/// It reads the grammar and makes its parser, reads the repairs and then all lines, each input to its end and at most one
/// byte more than 67,108,864; only then it writes, at least 65,536 bytes at once until the last. No more bytes are out than
/// `write` returns.
pub fn run<G: Source, L: Source, R: Source, W: Sink>(
    alloc: Global,
    grammar: &mut G,
    lines: &mut L,
    repairs: &mut R,
    out: &mut W,
) -> Result<bool, RunFault>
    ensures ok { IfOk result (WritesOutput (G.known grammar.old) (L.known lines.old) (R.known repairs.old) (W.known out.old) (W.known out.new)) }
    ensures out_at { IfErr result (IsOutAt (G.known grammar.old) (L.known lines.old) (R.known repairs.old) (W.known out.old) (W.known out.new)) }

    // Why nothing, or not all, is written.
    ensures refused { IfErr result (IsRefusal (G.known grammar.old) (R.known repairs.old)) }
    ensures early { IfErr result (AreGoodBefore (G.known grammar.old) (R.known repairs.old)) }
    ensures in_grammar { IfErr result (IsCauseIn Input.Grammar (G.known grammar.old) (G.faults grammar.old) (G.faults grammar.new)) }
    ensures in_lines { IfErr result (IsCauseIn Input.Lines (L.known lines.old) (L.faults lines.old) (L.faults lines.new)) }
    ensures in_repairs { IfErr result (IsCauseIn Input.Repairs (R.known repairs.old) (R.faults repairs.old) (R.faults repairs.new)) }
    ensures in_out { IfErr result (IsWriteCause (W.faults out.old) (W.faults out.new)) }
    ensures kept { OnOk result (W.faults out.new ≡ W.faults out.old) }

    // How much is read.
    ensures took_grammar { TakesAtMost (most_bytes + 1) (G.known grammar.old) (G.known grammar.new) }
    ensures took_lines { TakesAtMost (most_bytes + 1) (L.known lines.old) (L.known lines.new) }
    ensures took_repairs { TakesAtMost (most_bytes + 1) (R.known repairs.old) (R.known repairs.new) }
{
    let kit = read_kit(alloc, grammar)?;
    let outcome = run_kit(alloc, &kit, lines, repairs, out);
    drop(kit);
    outcome
}

// What is left of a run with a kit: it reads the repairs and all lines, and then writes.
fn run_kit<L: Source, R: Source, W: Sink>(
    alloc: Global,
    kit: &GrammarKit<u32>,
    lines: &mut L,
    repairs: &mut R,
    out: &mut W,
) -> Result<bool, RunFault>
    ensures ok { (known : Option (List ℕ)) → IsGoodKitIn known kit.now → IfOk result (WritesOutput known (L.known lines.old) (R.known repairs.old) (W.known out.old) (W.known out.new)) }
    ensures out_at { (known : Option (List ℕ)) → IsGoodKitIn known kit.now → IfErr result (IsOutAt known (L.known lines.old) (R.known repairs.old) (W.known out.old) (W.known out.new)) }
    ensures refused { (known : Option (List ℕ)) → IsGoodKitIn known kit.now → IfErr result (IsRefusal known (R.known repairs.old)) }
    ensures early { (known : Option (List ℕ)) → IsGoodKitIn known kit.now → IfErr result (AreGoodBefore known (R.known repairs.old)) }
    ensures in_grammar { (known : Option (List ℕ)) (faults faults' : ℕ) → IfErr result (IsCauseIn Input.Grammar known faults faults') }
    ensures in_lines { IfErr result (IsCauseIn Input.Lines (L.known lines.old) (L.faults lines.old) (L.faults lines.new)) }
    ensures in_repairs { IfErr result (IsCauseIn Input.Repairs (R.known repairs.old) (R.faults repairs.old) (R.faults repairs.new)) }
    ensures in_out { IfErr result (IsWriteCause (W.faults out.old) (W.faults out.new)) }
    ensures kept { OnOk result (W.faults out.new ≡ W.faults out.old) }
    ensures took_lines { TakesAtMost (most_bytes + 1) (L.known lines.old) (L.known lines.new) }
    ensures took_repairs { TakesAtMost (most_bytes + 1) (R.known repairs.old) (R.known repairs.new) }
{
    let repair_lines = read_repair_lines(alloc, kit, repairs)?;
    let line_text = read_input(alloc, Input::Lines, lines)?;
    write_lines(alloc, kit, &repair_lines, line_text.as_str(), out)
}

// The parser of the grammar of a text, whose syntax tree is dropped.
fn kit_of(alloc: Global, text: &str) -> Result<GrammarKit<u32>, KitError<u32>>
    ensures kit { IfOk result (IsRunKit text.now) }
    ensures refused { IfErr result (IsRunKitRefusal text.now) }
{
    match ParserKit::of_text(alloc, text, CAP) {
        Ok(kit) => Ok(kit.into_kit()),
        Err(e) => Err(e),
    }
}

// The parser of the grammar that the source holds, whose conflicts are expected.
fn read_kit<G: Source>(alloc: Global, grammar: &mut G) -> Result<GrammarKit<u32>, RunFault>
    ensures ok { IfOk result (IsGoodKitIn (G.known grammar.old)) }
    ensures early { IfErr result (IsEarlyIn Input.Grammar) }
    ensures refused { IfErr result (IsRefusal (G.known grammar.old) None) }
    ensures cause { IfErr result (IsCauseIn Input.Grammar (G.known grammar.old) (G.faults grammar.old) (G.faults grammar.new)) }
    ensures took { TakesAtMost (most_bytes + 1) (G.known grammar.old) (G.known grammar.new) }
{
    let text = read_input(alloc, Input::Grammar, grammar)?;
    let kit = kit_of(alloc, text.as_str())?;
    match check_counts(&kit) {
        Ok(()) => Ok(kit),
        Err(e) => {
            drop(kit);
            Err(e)
        }
    }
}

// The repairs that the source holds.
fn read_repair_lines<R: Source>(
    alloc: Global,
    kit: &GrammarKit<u32>,
    repairs: &mut R,
) -> Result<RepairLines<u32>, RunFault>
    ensures ok { IfOk result (ReadsRepairsIn kit.now (R.known repairs.old)) }
    ensures early { IfErr result (IsEarlyIn Input.Repairs) }
    ensures refused { (known : Option (List ℕ)) → IsGoodKitIn known kit.now → IfErr result (IsRefusal known (R.known repairs.old)) }
    ensures cause { IfErr result (IsCauseIn Input.Repairs (R.known repairs.old) (R.faults repairs.old) (R.faults repairs.new)) }
    ensures took { TakesAtMost (most_bytes + 1) (R.known repairs.old) (R.known repairs.new) }
{
    let text = read_input(alloc, Input::Repairs, repairs)?;
    match read_repairs(alloc, kit.grm(), text.as_str()) {
        Ok(repair_lines) => Ok(repair_lines),
        Err(RepairsError::NotARepair(line)) => Err(RunFault::NotARepair(line)),
        Err(RepairsError::Memory(e)) => Err(RunFault::from(e)),
    }
}

// An input as a text.
fn read_input<S: Source>(alloc: Global, input: Input, source: &mut S) -> Result<String, RunFault>
    ensures ok { IfOk result (λ t. IsInput (S.known source.old) (string_bytes t)) }
    ensures early { IfErr result (IsReadFaultOf input) }
    ensures cause { IfErr result (IsCauseIn input (S.known source.old) (S.faults source.old) (S.faults source.new)) }
    ensures took { TakesAtMost (most_bytes + 1) (S.known source.old) (S.known source.new) }
{
    match read_text(alloc, source) {
        Ok(text) => {
            // Read, so that the proof may use how many bytes it has.
            let _bytes = text.as_bytes();
            Ok(text)
        }
        Err(e) => Err(run_fault(input, e)),
    }
}

// Writes the texts of all lines, as many at once as are long enough. It answers whether some line has an error.
fn write_lines<W: Sink>(
    alloc: Global,
    kit: &GrammarKit<u32>,
    repairs: &RepairLines<u32>,
    line_text: &str,
    out: &mut W,
) -> Result<bool, RunFault>
    ensures ok { IfOk result (WritesLines kit.now repairs.now (lines line_text.now) (W.known out.old) (W.known out.new)) }
    ensures late { IfErr result IsLate }
    ensures begins { OnErr result (BeginsTexts kit.now repairs.now (lines line_text.now) (W.known out.old) (W.known out.new)) }
    ensures cause { IfErr result (IsWriteCause (W.faults out.old) (W.faults out.new)) }
    ensures kept { OnOk result (W.faults out.new ≡ W.faults out.old) }
{
    // Rows of names are made for lines alone.
    if line_text.is_empty() {
        return Ok(false);
    }
    let shown = NodeLines::new(alloc, kit.grm())?;
    let answers = Answers {
        alloc,
        kit,
        repairs,
        shown: &shown,
    };
    let mut faulty = false;
    let mut room = LexerRoom::new(alloc);
    let mut text = Vec::new(alloc);
    'lines: for line in line_text.lines() {
        let (wrong, left) = write_line(&answers, room, line, &mut text, out)?;
        faulty = either(faulty, wrong);
        room = left;
    }
    write_rest(text.as_slice(), out)?;
    Ok(faulty)
}

fn either(a: bool, b: bool) -> bool
    ensures { result ≡ (a || b) }
{
    a || b
}
