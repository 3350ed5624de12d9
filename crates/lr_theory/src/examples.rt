ghost use Rattle.lr_theory.specs.SmallGrammars.{ClashIsContested, TinyIsReady, CrossingStaysApart, StateGrows, MissingLexemeIsInserted};
ghost use Rattle.lr_theory.specs.SmallCases.{EditsAreApplied, SymbolsAreInOrder, StatesAreInOrder, SharedTokensJoin, FirstFitIsJoined, LeastChainIsTold};

/// Proves that canonical LR(1) leaves a token two reductions in a small grammar. In `S: A x y | B x z; A: a; B: a;`
/// it is x after a.
#[tactic(auto, using(crate::proofs::ContestExample::clash_is_contested))]
pub fn a_token_is_contested()
    ensures { ClashIsContested }
{}

/// Proves the graph of a small grammar by the steps of the building, its automaton and table, which meet all that the
/// laws of the machine require, and a run that accepts the empty text. The grammar is `^: S; S: ;`.
#[tactic(auto, using(crate::proofs::MachineExample::tiny_is_ready))]
pub fn a_grammar_has_its_machine()
    ensures { TinyIsReady }
{}

/// Proves that two sets of one core may stay apart. They are the sets after a c and after b c in `S: a A d | b B d |
/// a B e | b A e; A: c; B: c;`.
#[tactic(auto, using(crate::proofs::MergeExample::crossing_stays_apart))]
pub fn sets_of_one_core_stay_apart()
    ensures { CrossingStaysApart }
{}

/// Proves that a state that gets itself again with more lookaheads grows and is taken again. It is the state after a
/// in `S: a S b | ;`, of which the whole graph is given.
#[tactic(auto, using(crate::proofs::NestedGraph::state_grows))]
pub fn a_state_grows()
    ensures { StateGrows }
{}

/// Proves that a run inserts a missing lexeme. In `^: S; S: x;` the empty text gets the missing x, with one error.
/// The graph by the steps of the building, the automaton and the table meet all that the laws of the machine require.
#[tactic(auto, using(crate::proofs::RepairExample::missing_lexeme_is_inserted))]
pub fn a_missing_lexeme_is_inserted()
    ensures { MissingLexemeIsInserted }
{}

/// Proves that an inserted lexeme is before the next one, that a deleted lexeme is gone, and that a shifted one
/// stays.
#[tactic(auto, using(crate::proofs::CaseExample::edits_are_applied))]
pub fn edits_change_lexemes()
    ensures { EditsAreApplied }
{}

/// Proves that the symbols of a grammar are in order, rules before tokens, each kind ascending.
#[tactic(auto, using(crate::proofs::CaseExample::symbols_are_in_order))]
pub fn symbols_have_their_order()
    ensures { SymbolsAreInOrder }
{}

/// Proves that states are numbered as they are made, and that the least that is to be taken is taken first. The graph
/// is that of `^: S; S: a c | b d;`.
#[tactic(auto, using(crate::proofs::OrderExample::states_are_in_order))]
pub fn states_have_their_order()
    ensures { StatesAreInOrder }
{}

/// Proves that two sets of one core whose items cross join where the items share a token in the newer set alone, and
/// where they share it in the older one alone.
#[tactic(auto, using(crate::proofs::CaseExample::shared_tokens_join))]
pub fn sets_with_shared_tokens_join()
    ensures { SharedTokensJoin }
{}

/// Proves that of two states that a set fits it joins the first.
#[tactic(auto, using(crate::proofs::CaseExample::first_fit_is_joined))]
pub fn a_set_joins_the_first_that_fits()
    ensures { FirstFitIsJoined }
{}

/// Proves that of the chains of reductions that pass a cap the least is reported, by state, then without a rule
/// before rules, then by token.
#[tactic(auto, using(crate::proofs::CaseExample::least_chain_is_told))]
pub fn the_least_chain_is_told()
    ensures { LeastChainIsTold }
{}
