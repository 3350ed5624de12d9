//! Item sets, graphs of states and tables as values.
//!
//! ```rust
//! use cfg_numbered::yacc::NumberedGrammar;
//! use state_table::{StateGraph, StateTable, StateTableNewError};
//! use std::alloc::{AllocError, Global};
//!
//! /// The conflicts of a graph of states, or why it has no table.
//! fn conflicts(
//!     alloc: Global,
//!     grm: &NumberedGrammar<u32>,
//!     graph: &StateGraph<u32>,
//! ) -> Result<String, AllocError> {
//!     match StateTable::new(alloc, grm, graph) {
//!         Ok(table) => match table.conflicts() {
//!             Some(conflicts) => conflicts.pp(alloc, grm),
//!             None => String::from_str(alloc, "No conflicts\n"),
//!         },
//!         Err(StateTableNewError::Memory(e)) => Err(e),
//!         Err(refusal) => format!(in alloc; "{refusal}\n"),
//!     }
//! }
//! ```
//!
//! The graph that `lrtable` makes of `%start S %% S: 'if' S 'else' S | 'if' S | 'x';` gives
//!
//! ```text
//! Shift/Reduce conflicts:
//!    State 4: Shift("else") / Reduce(S: "if" "S")
//! ```
//!
//! An `Itemset` is a finite map from items to sets of tokens, a `StateGraph` the states of a grammar with their edges, and
//! `StateTable::new` makes of a graph its cells with Yacc's precedences and the list of conflicts. `lrtable` builds the
//! graph of a grammar; parsers need the values alone. Contracts speak of the item sets and graphs of `lr_theory` and of the
//! cells of `table_theory`. The contracts that matter most are those of `itemset::Itemset` and of `statetable::StateTable`.
//! `cores`, `shared_sets` and `set_index` are for crates that build states.
#![tactic(auto)]

pub mod capacities;
pub mod cells;
pub mod conflicts;
pub mod cores;
mod dense_rows;
mod graph_rows;
mod graph_texts;
pub mod itemset;
pub mod laws;
pub mod rows;
pub mod set_index;
pub mod shared_sets;
mod state_rows;
pub mod stategraph;
pub mod statetable;
pub mod stidx;
pub mod table_iterators;
mod table_rows;

pub use cells::Action;
pub use conflicts::Conflicts;
pub use itemset::Itemset;
pub use rows::row_search;
pub use stategraph::{StIdxs, StateGraph};
pub use statetable::{StateTable, StateTableError, StateTableErrorKind, StateTableNewError};
pub use stidx::StIdx;
pub use table_iterators::{CoreReducesIterator, StateActionsIterator};
