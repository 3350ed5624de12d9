//! Whether the listed conflicts are as many as a grammar expects.

ghost use Rattle.std.specs.Prelude.{◌≡◌, IfErr, OnOk, Some};
ghost use Rattle.lrkit.specs.RunKits.{AreExpected, HasOtherCounts};

use crate::fault::RunFault;
use lrtable::Conflicts;
use parser_kit::GrammarKit;

/// Refuses a kit whose listed conflicts aren't as many as `%expect` and `%expect-rr` say. A missing number counts as
/// nought. A kit with no conflict is taken, whatever is expected.
pub(crate) fn check_counts(kit: &GrammarKit<u32>) -> Result<(), RunFault>
    ensures ok { OnOk result (AreExpected kit.now) }
    ensures err { IfErr result (HasOtherCounts kit.now) }
{
    match kit.conflicts() {
        Some(conflicts) => compare(kit, conflicts),
        None => Ok(()),
    }
}

// Compares the counts of these conflicts with those that are expected.
fn compare(kit: &GrammarKit<u32>, conflicts: &Conflicts<u32>) -> Result<(), RunFault>
    requires { kit.now.table.conflicts ≡ Some conflicts.now }
    ensures ok { OnOk result (AreExpected kit.now) }
    ensures err { IfErr result (HasOtherCounts kit.now) }
{
    let shift_reduce = conflicts.sr_len();
    let reduce_reduce = conflicts.rr_len();
    let expect = kit.grm().expect().unwrap_or(0);
    let expect_rr = kit.grm().expectrr().unwrap_or(0);
    if shift_reduce == expect && reduce_reduce == expect_rr {
        return Ok(());
    }
    Err(RunFault::Conflicts {
        shift_reduce,
        reduce_reduce,
        expect,
        expect_rr,
    })
}
