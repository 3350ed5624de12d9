//! Indices of states.

ghost use Rattle.std.specs.Prelude.{◌≡◌};

use cfg_base::index::IndexStorage;
use std::hash::Hash;

/// The index of a state.
#[derive(Clone, Copy, Debug, PartialEq, Eq, PartialOrd, Ord, Hash)]
pub struct StIdx<S>(pub S);

impl<S: IndexStorage> StIdx<S> {
    /// Returns the stored number.
    pub fn as_storaget(&self) -> S
        ensures { result ≡ self.now.0 }
    {
        let StIdx(number) = *self;
        number
    }
}

impl<S: IndexStorage> From<StIdx<S>> for usize {
    ghost from_gives = { λ index n. n ≡ S.number index.0 };

    fn from(index: StIdx<S>) -> usize {
        index.0.to_usize()
    }
}

impl<S: IndexStorage> From<StIdx<S>> for u32 {
    ghost from_gives = { λ index n. n ≡ S.number index.0 };

    fn from(index: StIdx<S>) -> u32 {
        index.0.to_usize() as u32
    }
}
