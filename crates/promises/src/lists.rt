//! The conflict list is exact.

ghost use Rattle.std.specs.Prelude.{◌≡◌, ◌↔◌, [], IfSome, IsNone, IsSome, IsTrue, option_map};
ghost use Rattle.lr_theory.specs.Automaton.{Complete};
ghost use Rattle.state_table.specs.Tables.{AreContested, automaton_of};
ghost use Rattle.table_theory.specs.CellLaws.{SomeContested};

use cfg_base::index::IndexStorage;
use lrtable::Conflicts;
use parser_kit::ParserKit;

/// Where the text declares no precedence, conflicts are listed exactly where some string of symbols leaves some token two
/// actions of canonical LR(1).
/// Shown by `a_token_is_contested`, `sets_of_one_core_stay_apart` of `lr_theory`; `examples` (`kit`); refused: `merge_all`, `closure_by_follow`.
pub fn lists_are_exact<S: IndexStorage>(kit: &ParserKit<S>) -> Option<&Conflicts<S>>
    ensures value { option_map (λ c. c.now) result ≡ kit.now.parser.table.conflicts }
    ensures exact { kit.now.kept.ast.precedences ≡ [] → IsSome kit.now.parser.table.conflicts ↔ SomeContested kit.now.parser.grammar.grammar }
{
    kit.conflicts()
}

/// With any precedences, what is listed is contested: a shift and a reduction on the listed token, a pair of reductions on
/// some token.
/// Shown by the same; refused: `every_pair_is_listed`, `second_reduction`.
pub fn listed_conflicts_are_contested<S: IndexStorage>(kit: &ParserKit<S>) -> Option<&Conflicts<S>>
    ensures value { option_map (λ c. c.now) result ≡ kit.now.parser.table.conflicts }
    ensures contested { IfSome kit.now.parser.table.conflicts (AreContested kit.now.parser.grammar.grammar) }
{
    kit.conflicts()
}

/// Where the text declares no precedence, the table does all that the items say exactly where no conflict is listed.
/// Shown by `examples` (`kit`); refused: `mutants/lrpar/complete_by_conflicts`.
pub fn complete_where_none_is_listed<S: IndexStorage>(kit: &ParserKit<S>) -> bool
    ensures value { IsTrue result ↔ Complete kit.now.parser.grammar.grammar (automaton_of kit.now.parser.graph kit.now.parser.table) }
    ensures unlisted { kit.now.kept.ast.precedences ≡ [] → IsTrue result ↔ IsNone kit.now.parser.table.conflicts }
{
    kit.complete()
}
