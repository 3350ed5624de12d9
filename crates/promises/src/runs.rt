//! A run has one output, or one refusal.

ghost use Rattle.std.specs.Prelude.{◌≡◌, ℕ, Bool, List, Some, IfErr, IfOk};
ghost use Rattle.std.specs.Io.KnownBytes.{Appends};
ghost use Rattle.lrkit.specs.Answers.{GivesFault, GivesOutput, IsFaultOf, IsSameFault};
ghost use Rattle.lrkit.specs.Output.{Output};
ghost use Rattle.lrkit.specs.declared.fault.RunFault.{RunFault};

use lrkit::laws::{outputs_are_one, refusals_are_one};
use lrkit::{RunFault, Sink, Source, run};
use std::alloc::Global;

/// A grammar, lines and repairs have one output at most: one text, and one answer whether some line has an error.
/// Shown by `kit_rows`; refused: `mutants/lrkit`.
pub fn a_run_has_one_output()
    ensures { (grammar lines repairs text other : List ℕ) (faulty other_faulty : Bool) → Output grammar lines repairs text faulty → Output grammar lines repairs other other_faulty → (text ≡ other) × (faulty ≡ other_faulty) }
{
    outputs_are_one();
}

/// Inputs have an output or a refusal, never both, and one refusal at most: the same fault, told with the same numbers, and
/// with the same failures where it tells errors of the grammar.
/// Shown by `kit_rows`, whose rows have texts or statuses with faults; refused: `mutants/lrkit`.
pub fn inputs_have_one_output_or_one_refusal()
    ensures apart { (grammar lines repairs text : List ℕ) (faulty : Bool) (e : RunFault) → GivesOutput grammar lines repairs text faulty → GivesFault grammar lines repairs e → ⊥ }
    ensures one { (grammar lines repairs : List ℕ) (e f : RunFault) → GivesFault grammar lines repairs e → GivesFault grammar lines repairs f → IsSameFault e f }
{
    refusals_are_one();
}

/// A run of inputs whose bytes are known writes their output, or answers their refusal; or there was no memory, or a read or
/// a write failed.
/// Shown by `kit_rows`; refused: `mutants/lrkit`.
pub fn a_run_answers_what_its_inputs_have<G: Source, L: Source, R: Source, W: Sink>(
    alloc: Global,
    grammar: &mut G,
    lines: &mut L,
    repairs: &mut R,
    out: &mut W,
) -> Result<bool, RunFault>
    ensures output { (g l r : List ℕ) → G.known grammar.old ≡ Some g → L.known lines.old ≡ Some l → R.known repairs.old ≡ Some r → IfOk result (λ faulty. (text : List ℕ) × GivesOutput g l r text faulty × Appends (W.known out.old) (W.known out.new) text) }
    ensures refusal { (g l r : List ℕ) → G.known grammar.old ≡ Some g → L.known lines.old ≡ Some l → R.known repairs.old ≡ Some r → IfErr result (IsFaultOf g l r) }
{
    run(alloc, grammar, lines, repairs, out)
}
