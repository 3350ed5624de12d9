ghost use Rattle.cfg_theory.specs.SmallGrammar.{ExampleIsMet};

/// Proves that a small grammar meets each definition. For `S: 'a' S | B; B: 'b' | ;` these are a sentence with its
/// tree, value and span; tables of FIRST, FOLLOW, paths, productive rules and costs; a greatest cost; the unbounded
/// rules and how they are found; and tables of capped costs.
#[tactic(auto, using(crate::proofs::ExampleMet::example_is_met))]
pub fn definitions_are_met()
    ensures { ExampleIsMet }
{}
