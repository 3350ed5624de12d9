//! Joins sets of small numbers to one, and counts the joins that changed it.
//!
//! The clause `seldom` of `join_each` is proved by the law `vob::laws::or_changes_seldom` from the clauses `bits` and `changed`
//! of `Vob::or`. An `or` that answers true where nothing changed, or one that drops an item of the set, would break it.
ghost use Rattle.std.specs.Prelude.{◌≡◌, ◌<◌, ◌≤◌, length, All, IfOk};

use std::alloc::{AllocError, Global};
use vob::{Vob, laws};

/// Returns the set of one number below ten.
fn set_of(alloc: Global, number: usize) -> Result<Vob, AllocError>
    requires { number < 10 }
    ensures { IfOk result (λ set. length set.bits ≡ 10) }
{
    let mut set = Vob::from_elem(alloc, false, 10)?;
    set.set(number, true);
    Ok(set)
}

/// Joins each of the others to a set, and counts the joins that changed it. However many are joined, at most as many as
/// the set has items do.
fn join_each(set: &mut Vob, others: &[Vob]) -> usize
    requires { All (λ other. length other.bits ≡ length set.old.bits) others.now }
    ensures length { length set.new.bits ≡ length set.old.bits }
    ensures seldom { result ≤ length set.old.bits }
{
    laws::or_changes_seldom();
    let mut count = 0;
    for other in others {
        if set.or(other) {
            count += 1;
        }
    }
    count
}

/// Returns how many of some joins changed a set, and what it holds then.
pub fn output(alloc: Global) -> Result<String, AllocError> {
    let mut set = set_of(alloc, 3)?;
    let others = [
        set_of(alloc, 7)?,
        set_of(alloc, 3)?,
        set_of(alloc, 1)?,
        set_of(alloc, 7)?,
    ];
    let count = join_each(&mut set, &others);
    let mut out = format!(in alloc;
        "{count} of {} joins changed the set. It holds:\n",
        others.len()
    )?;
    for number in set.iter_set_bits(..) {
        out.push_str(format!(in alloc; "{number}\n")?.as_str())?;
    }
    Ok(out)
}
