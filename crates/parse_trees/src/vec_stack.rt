//! Vectors as stacks, whose top is last.

ghost use Rattle.std.specs.Prelude.{◌≡◌, ◌≤◌, ◌∷◌, ◌++◌, [], length, take, OnOk};

use std::alloc::AllocError;

/// Truncates the stack to its first `kept` entries, and puts one on them.
pub fn put_above<T: Copy>(stack: &mut Vec<T>, kept: usize, top: T) -> Result<(), AllocError>
    requires { kept ≤ length stack.old.items }
    ensures { OnOk result (stack.new.items ≡ take kept stack.old.items ++ top ∷ []) }
{
    if kept < stack.len() {
        stack[kept] = top;
        stack.truncate(kept + 1);
    } else {
        stack.push(top)?;
    }
    Ok(())
}
