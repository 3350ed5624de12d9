//! The example of a conflict.

ghost use Rattle.std.specs.Prelude.{◌≡◌, map, IfOk};
ghost use Rattle.cfg_numbered.specs.Symbols.{syms_of};
ghost use Rattle.conflict_examples.specs.ExampleViews.{shown_of};
ghost use Rattle.conflict_examples.specs.Spines.{forms_of};

use crate::forms::forms_behind;
use cfg_base::index::IndexStorage;
use cfg_base::symbol::{PIdx, SIdx, Symbol, TIdx};
use cfg_numbered::yacc::NumberedGrammar;
use std::alloc::{AllocError, Global};

/// A conflict by an example: after the symbols the token leaves both actions. Contracts see it as an example of the
/// grammar of numbers, its string with the last symbol first.
#[derive(Drop)]
pub struct ConflictExample<S> {
    /// The rules and tokens before the token.
    pub symbols: Vec<Symbol<S>>,
    /// The token on which the conflict is; the end token where it is at the text's end.
    pub token: TIdx<S>,
    /// For a shift against a reduction the shift, for a pair the reduction that the entry names first.
    pub first: ActionExample<S>,
    /// The reduction against a shift, or the other reduction of a pair.
    pub second: ActionExample<S>,
}

/// Why an action is right after the symbols on the token.
#[derive(Drop)]
pub struct ActionExample<S> {
    /// The open productions, from that of the start to the innermost, each with its dot. Each is of the rule after the dot of
    /// the one before it. The symbols before the dots, one list behind the other, are those of the example.
    pub spine: Vec<(PIdx<S>, SIdx<S>)>,
    /// For a shift none. For a reduction the productions that lead from what follows the innermost production to
    /// a form that begins with the token, or to the empty form where the token is the end token. Each replaces
    /// the first symbol, which is its rule.
    pub steps: Vec<PIdx<S>>,
}

impl<S: IndexStorage> ActionExample<S> {
    /// Writes out the forms from what follows the innermost production, each with the next of `steps` in the place of its first
    /// symbol. Of a reduction in an example the last one begins with the token, or is empty where the token is the end token
    /// (`laws::steps_make_forms`). They may have as many symbols as steps and symbols of a form multiply to. Of other values
    /// they end where no rule comes first, and a production that the grammar doesn't have counts as one without symbols.
    pub fn forms(
        &self,
        alloc: Global,
        grm: &NumberedGrammar<S>,
    ) -> Result<Vec<Vec<Symbol<S>>>, AllocError>
        ensures { IfOk result (λ v. map (λ f. syms_of S.number f.items) v.items ≡ forms_of grm.now.grammar (shown_of S.number self.now)) }
    {
        forms_behind(alloc, grm, self.spine.as_slice(), self.steps.as_slice())
    }
}
