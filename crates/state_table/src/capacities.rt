//! How much room rows are to have, here and in crates that build states. Only the number of requests for memory
//! depends on it.

ghost use Rattle.std.specs.Prelude.{◌≡◌, ◌^◌, ◌-◌, min};
ghost use Rattle.std.specs.List.{flat_map};
ghost use Rattle.vob.specs.Bits.{count_true};

use vob::Vob;
use vob::word::Word;

/// Returns how many bits of these blocks are set, at most `usize::MAX`.
fn bits_in<T: Word>(blocks: &[T]) -> usize
    ensures { result ≡ min (count_true (flat_map T.bits blocks.now)) (2 ^ 64 - 1) }
{
    let mut count: usize = 0;
    'each: for k in 0..blocks.len() {
        count = count.saturating_add(blocks[k].set_count());
    }
    count
}

/// Returns how many bits of a set are set, block by block.
pub fn bits_set(set: &Vob) -> usize
    ensures { result ≡ count_true set.now.bits }
{
    bits_in(set.get_storage()).min(set.len())
}
