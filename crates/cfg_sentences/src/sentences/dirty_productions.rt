//! Productions that are taken in again only where that may change something.
//!
//! For a rule that waits each production that names it is taken in again, so a production that names many rules would
//! be taken in once for each. Productions that were taken in since are left out.

ghost use Rattle.std.specs.Prelude.{◌≡◌, ℕ, ◌<◌, length, IfOk};
ghost use Rattle.cfg_sets.specs.Orders.{IsOrder};
ghost use Rattle.cfg_sets.specs.WorkLists.{ListsNaming};

use super::bounded::take_out;
use crate::by_prods::{ByProds, ProdTable, close_by_prods};
use cfg_sets::naming::Naming;
use cfg_sets::orders::Order;
use std::alloc::{AllocError, Global};
use vob::Vob;

/// A table that knows productions under which it is closed, and doesn't take these in.
#[derive(Drop)]
struct Once<'n, T> {
    table: T,
    naming: &'n Naming,
    /// The productions that were taken in, and name no rule whose entry changed since.
    taken: Vob,
}

impl<'n, T: ProdTable + Drop> ProdTable for Once<'n, T> {
    ghost use Rattle.std.specs.Prelude.{◌≡◌, ℕ, length, IsTrue, refl};
    ghost use Rattle.std.proofs.Common.{◌∙◌};
    ghost use Rattle.vob.specs.Sets.{is_set};
    ghost use Rattle.cfg_sets.specs.WorkLists.{ListsNaming};

    ghost grammar = { λ s. T.grammar s.table };

    ghost is_sound = { λ s. T.is_sound s.table × ListsNaming (T.grammar s.table) (length (T.grammar s.table).productions) s.naming.now × (length s.taken.bits ≡ length (T.grammar s.table).productions) × ((p : ℕ) → IsTrue (is_set s.taken.bits p) → T.is_closed_by s.table p) };

    ghost room = { λ s. T.room s.table };

    ghost is_closed_by = { λ s p. T.is_closed_by s.table p };

    ghost is_of_same = { λ s t. T.is_of_same s.table t.table };

    ghost same_refl = { λ s. T.same_refl s.table };

    ghost same_trans = { λ s t u h k. T.same_trans s.table t.table u.table h k };

    fn take_prod(&mut self, number: usize) -> Result<Option<usize>, AllocError> {
        if self.taken.get_unchecked(number) {
            return Ok(None);
        }
        let told = self.table.take_prod(number)?;
        self.taken.set(number, true);
        let Some(rule) = told else {
            return Ok(None);
        };
        take_out(self.naming.of(rule), &mut self.taken);
        Ok(Some(rule))
    }
}

/// Fills a table until it is closed under all productions, of which there are `prods`, and returns it.
pub(super) fn closed_by_prods<T: ProdTable + Drop>(
    alloc: Global,
    order: &Order,
    naming: &Naming,
    prods: usize,
    table: T,
) -> Result<T, AllocError>
    requires order { IsOrder (length (T.grammar table).productions) order.now }
    requires naming { ListsNaming (T.grammar table) (length (T.grammar table).productions) naming.now }
    requires prods { prods ≡ length (T.grammar table).productions }
    requires sound { T.is_sound table }
    ensures same { IfOk result (λ t. T.is_of_same table t) }
    ensures sound { IfOk result (λ t. T.is_sound t) }
    ensures closed { IfOk result (λ t. (p : ℕ) → p < length (T.grammar table).productions → T.is_closed_by t p) }
{
    let taken = Vob::from_elem(alloc, false, prods)?;
    let table = Once {
        table,
        naming,
        taken,
    };
    let mut filling = ByProds { table, naming };
    close_by_prods(alloc, order, &mut filling)?;
    Ok(filling.table.table)
}
