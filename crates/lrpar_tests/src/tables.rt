//! Item sets by hand, halving over a row, and indices of states.

mod adding;
mod items;
mod rows;
