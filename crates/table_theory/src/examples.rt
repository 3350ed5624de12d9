ghost use Rattle.table_theory.specs.SmallTables.{MeetingIsSettled, EndlessIsRefused, TinyHasTable};

/// Proves the action and the listed conflicts of a cell with a shift and two reductions, without precedences and with
/// a left grouping of each level.
#[tactic(auto, using(crate::proofs::TableExample::meeting_is_settled))]
pub fn meeting_actions_are_settled()
    ensures { MeetingIsSettled }
{}

/// Proves that a small grammar is refused with the production 0. It is `S: S | x;`.
#[tactic(auto, using(crate::proofs::TableExample::endless_is_refused))]
pub fn a_grammar_is_refused()
    ensures { EndlessIsRefused }
{}

/// Proves that a small grammar has a table by the rules, with no conflict listed. It is `^: S; S: ;`.
#[tactic(auto, using(crate::proofs::TableExample::tiny_has_table))]
pub fn a_grammar_has_its_table()
    ensures { TinyHasTable }
{}
