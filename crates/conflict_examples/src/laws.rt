//! Laws over spines and examples.

ghost use Rattle.conflict_examples.specs.Spines.{SpinesAreItems, ExamplesAreContests, StepsMakeForms};

/// Proves what spines are in canonical LR(1) (Knuth 1965). An item is present after a string if and only if it is
/// innermost in a spine with this string before its dots. A token is among its lookaheads if and only if it may
/// follow such a spine.
#[tactic(auto, using(crate::proofs::Items::spines_are_items))]
pub fn spines_are_items()
    ensures { SpinesAreItems }
{}

/// Proves that there is an example if and only if canonical LR(1) leaves a token two actions. It leaves them after
/// the example's string.
#[tactic(auto, using(crate::proofs::Contests::examples_are_contests))]
pub fn examples_are_contests()
    ensures { ExamplesAreContests }
{}

/// Proves what the forms of a reduction are that `ActionExample::forms` makes. The first is what follows the
/// innermost production. Each comes from the one before by one replacement. The last one begins with the token, or is
/// empty where the token is the end token.
#[tactic(auto, using(crate::proofs::Contests::steps_make_forms))]
pub fn steps_make_forms()
    ensures { StepsMakeForms }
{}
