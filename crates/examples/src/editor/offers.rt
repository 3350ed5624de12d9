//! The tokens that are offered at each error.

ghost use Rattle.std.specs.Prelude.{◌≡◌, [], ◌∷◌, ◌++◌, IfOk, OnOk};
ghost use Rattle.lr_theory.specs.Repair.{insert};
ghost use Rattle.parse_trees.specs.Edits.{sequences_of};
ghost use Rattle.examples.specs.Offers.{any_token};

use cfg_base::symbol::TIdx;
use lrpar::{DefaultLexeme, Recoverer, RepairStep};
use lrtable::StIdx;
use std::alloc::{AllocError, Global};

/// A recoverer that offers, at each error, to insert any one of `count` tokens.
#[derive(Drop)]
pub struct AnyToken {
    /// The number of tokens; those below it are offered.
    pub count: u32,
}

impl Recoverer<u32, DefaultLexeme<u32>> for AnyToken {
    ghost use Rattle.examples.specs.Offers.{any_token};

    ghost answers = { λ any state index lexeme offered. offered ≡ any_token any.count };

    fn sequences(
        &self,
        alloc: Global,
        _stidx: StIdx<u32>,
        _laidx: usize,
        _lexeme: DefaultLexeme<u32>,
    ) -> Result<Vec<Vec<RepairStep<u32>>>, AllocError>
        ensures { IfOk result (λ r. sequences_of (λ t. t) r.items ≡ any_token self.now.count) }
    {
        all_offers(alloc, self.count)
    }
}

/// Offers to insert each of `count` tokens, in order.
fn all_offers(alloc: Global, count: u32) -> Result<Vec<Vec<RepairStep<u32>>>, AllocError>
    ensures { IfOk result (λ r. sequences_of (λ t. t) r.items ≡ any_token count) }
{
    let mut all = Vec::new(alloc);
    'tokens: for token in 0..count {
        push_offer(alloc, token, &mut all)?;
    }
    Ok(all)
}

/// Puts the offer of a token.
fn push_offer(
    alloc: Global,
    token: u32,
    all: &mut Vec<Vec<RepairStep<u32>>>,
) -> Result<(), AllocError>
    ensures { OnOk result (sequences_of (λ t. t) all.new.items ≡ sequences_of (λ t. t) all.old.items ++ (insert token ∷ []) ∷ []) }
{
    let mut steps = Vec::new(alloc);
    steps.push(RepairStep::Insert(TIdx(token)))?;
    all.push(steps)?;
    Ok(())
}
