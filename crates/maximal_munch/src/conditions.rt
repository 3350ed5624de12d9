//! The stack of start conditions.

ghost use Rattle.std.specs.Prelude.{◌≡◌, OnOk};
ghost use Rattle.maximal_munch.specs.RuleValues.{moved, stack_of};

use crate::rules::Target;
use std::alloc::AllocError;

/// The condition that lexing is in, and those below it, of which the last is the next.
#[derive(Drop)]
pub(crate) struct Conditions {
    pub(crate) current: usize,
    pub(crate) below: Vec<usize>,
}

impl Conditions {
    /// Does what a rule's target says.
    pub(crate) fn follow(&mut self, target: Target) -> Result<(), AllocError>
        ensures { OnOk result (stack_of self.new ≡ moved target (stack_of self.old)) }
    {
        match target {
            Target::Stay => {}
            Target::Replace(condition) => {
                self.below.clear();
                self.current = condition;
            }
            Target::Push(condition) => {
                self.below.push(self.current)?;
                self.current = condition;
            }
            Target::Pop => match self.below.pop() {
                Some(condition) => {
                    self.current = condition;
                }
                None => {
                    self.current = 0;
                }
            },
        }
        Ok(())
    }
}
