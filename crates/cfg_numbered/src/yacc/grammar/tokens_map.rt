//! The named tokens by their names.

ghost use Rattle.std.specs.Prelude.{◌≡◌, map, IfOk};
ghost use Rattle.std.specs.List.{enumerate_from, filter_map};

use super::{NumberedGrammar, index_of};
use cfg_base::index::IndexStorage;
use cfg_base::name_hasher::NameHasher;
use cfg_base::symbol::TIdx;
use indexmap::IndexMap;
use std::alloc::{AllocError, Global};

impl<S: IndexStorage> NumberedGrammar<S> {
    /// Returns the tokens that have a name by their names, in the order of their numbers.
    pub fn tokens_map(
        &self,
        alloc: Global,
    ) -> Result<IndexMap<&str, TIdx<S>, NameHasher>, AllocError>
        ensures { IfOk result (λ m. map (λ e. (S.number e.1.0, e.0.now)) m.entries ≡ enumerate_from 0 (filter_map (λ k. k.name) self.now.tokens)) }
    {
        let mut indices = IndexMap::with_hasher(alloc, *self.tokens.hasher());
        'names: for number in 0..self.tokens.len() {
            let (name, _) = self.tokens.get_index(number).unwrap();
            indices.insert(name.as_str(), TIdx(index_of(number)))?;
        }
        Ok(indices)
    }
}
