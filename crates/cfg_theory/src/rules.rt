ghost use Rattle.cfg_theory.specs.Path.{PathTablesAreExact};
ghost use Rattle.cfg_theory.specs.Productive.{ProductiveTablesAreExact, AllRulesProductive};

/// Proves that a set of rules that a rule reaches, closed under references, has exactly the rules that it reaches.
#[tactic(auto, using(crate::proofs::Paths::path_tables_exact))]
pub fn path_tables_are_exact()
    ensures { PathTablesAreExact }
{}

/// Proves that a set of productive rules that is closed under the productions is exact, for rules and for lists.
#[tactic(auto, using(crate::proofs::Productive::productive_tables_exact))]
pub fn productive_tables_are_exact()
    ensures { ProductiveTablesAreExact }
{}

/// Proves that, where each rule has a production, the rules that bodies name all derive some token list if and only
/// if all rules do.
#[tactic(auto, using(crate::proofs::Productive::all_rules_productive))]
pub fn named_rules_are_productive_where_all_are()
    ensures { AllRulesProductive }
{}
