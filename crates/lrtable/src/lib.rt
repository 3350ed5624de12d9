//! LR(1) tables by Pager's merging.
//!
//! ```rust
//! use cfg_numbered::yacc::NumberedGrammar;
//! use lrtable::{FromYaccError, Minimiser, from_yacc};
//! use std::alloc::{AllocError, Global};
//!
//! /// The conflicts of a grammar, or why it has no table.
//! fn conflicts(alloc: Global, grm: &NumberedGrammar<u32>) -> Result<String, AllocError> {
//!     match from_yacc(alloc, grm, Minimiser::Pager) {
//!         Ok((_graph, table)) => match table.conflicts() {
//!             Some(conflicts) => conflicts.pp(alloc, grm),
//!             None => String::from_str(alloc, "No conflicts\n"),
//!         },
//!         Err(FromYaccError::Memory(e)) => Err(e),
//!         Err(refusal) => format!(in alloc; "{refusal}\n"),
//!     }
//! }
//! ```
//!
//! For `%start S %% S: 'if' S 'else' S | 'if' S | 'x';`, where an `else` may belong to either of two `if`s, it
//! returns
//!
//! ```text
//! Shift/Reduce conflicts:
//!    State 4: Shift("else") / Reduce(S: "if" "S")
//! ```
//!
//! A `YaccGrammar` of `cfgrammar` can be passed as it is.
//!
//! `from_yacc` builds the graph and the table of a grammar. The other modules have closure and goto of item sets
//! (`itemset`), and build the states of a grammar by the method of Pager (1977). Item sets, graphs and tables
//! themselves are those of `state_table`, whose names are here too. Contracts speak of the item sets and the building
//! of `lr_theory` and of the cells of `table_theory`. The contracts that matter most are those of `from_yacc` and of
//! `itemset::Closing`.
#![tactic(auto)]

mod capacities;
mod closures;
mod finishing;
mod flags;
mod grammar_table;
mod insertion_list;
pub mod itemset;
pub mod laws;
mod least_room;
mod left_corners;
mod moved_items;
mod moves;
mod openers;
mod opening;
mod pager;
mod pruning;
mod revisiting;
mod rule_queue;
mod rule_rows;
mod state_lists;
mod states;
mod tails;
mod weak_compatibility;

pub use grammar_table::{FromYaccError, Minimiser, from_yacc, minimiser_is_its_value};
pub use itemset::Itemset;
pub use state_table::{
    Action, Conflicts, CoreReducesIterator, StIdx, StIdxs, StateActionsIterator, StateGraph,
    StateTable, StateTableError, StateTableErrorKind, StateTableNewError, cells, conflicts,
    row_search, rows, stategraph, statetable, stidx, table_iterators,
};
