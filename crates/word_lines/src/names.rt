//! Tokens by their names.

ghost use Rattle.std.specs.Prelude.{◌≡◌, ◌<◌, IfSome, option_map};
ghost use Rattle.cfg_theory.specs.Grammar.{end_token};
ghost use Rattle.word_lines.specs.Words.{token_named};

use cfg_base::index::IndexStorage;
use cfg_base::symbol::TIdx;
use cfg_numbered::yacc::grammar::NumberedGrammar;

/// The token with a name.
pub(crate) fn find_token<S: IndexStorage>(grm: &NumberedGrammar<S>, name: &str) -> Option<TIdx<S>>
    ensures named { option_map (λ t. S.number t.0) result ≡ token_named grm.now name.now }
    ensures inside { IfSome result (λ t. S.number t.0 < end_token grm.now.grammar) }
{
    // Read, so that the proof may use that the end token has no name.
    grm.token_name(grm.eof_token_idx());
    grm.token_idx(name)
}
