//! Names in the order of their numbers, with what stands beside each.

ghost use Rattle.std.specs.Prelude.{◌≡◌, ◌++◌, ◌∷◌, [], false, OnOk};
ghost use Rattle.std.specs.List.{list_any};
ghost use Rattle.std.specs.Str.{bytes_eq};
ghost use Rattle.std.specs.String.{string_bytes};

use cfg_base::name_hasher::NameHasher;
use indexmap::IndexMap;
use std::alloc::AllocError;

/// Puts a name that isn't there yet behind the others.
pub(crate) fn put_last<T: Drop>(
    names: &mut IndexMap<String, T, NameHasher>,
    name: String,
    beside: T,
) -> Result<(), AllocError>
    requires { list_any (λ e. bytes_eq (string_bytes name) (string_bytes e.0)) names.old.entries ≡ false }
    ensures { OnOk result (names.new.entries ≡ names.old.entries ++ (name, beside) ∷ []) }
{
    names.insert(name, beside)?;
    Ok(())
}
