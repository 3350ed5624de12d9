//! Which grammars and tables are refused, and where, with their parts returned; which tokens may come next.

mod next;
mod refused;
