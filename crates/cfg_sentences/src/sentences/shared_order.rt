//! Which of two lists that share their parts comes first, whatever follows both. Both are split from their fronts,
//! the part with the larger number first; a part that both have at one offset is skipped, so that lists with much in
//! common are compared by what differs.

ghost use Rattle.std.specs.Prelude.{◌≡◌, ◌+◌, ◌<◌, ◌∷◌, ◌++◌, IfOk, MatchOption, [], length, get_or, not};
ghost use Rattle.std.specs.List.{All};
ghost use Rattle.std.specs.Option.{option_map};
ghost use Rattle.cfg_sentences.specs.SharedLists.{HasTokens, AreRests, IsTold, IsAhead, AreNested, stacked, turns, turns_of};

use super::shared_lists::SharedLists;
use cfg_base::index::IndexStorage;
use cfg_base::symbol::TIdx;
use std::alloc::{AllocError, Global};

/// Returns whether the first of two tokens comes before the second; none where they are one.
fn told_by<S: IndexStorage>(left: TIdx<S>, right: TIdx<S>) -> Option<bool>
    ensures { MatchOption result (S.number left.0 ≡ S.number right.0) (λ b. IsTold (S.number left.0 ∷ []) (S.number right.0 ∷ []) b) }
{
    let left = left.0.to_usize();
    let right = right.0.to_usize();
    if left < right {
        return Some(true);
    }
    if right < left {
        return Some(false);
    }
    None
}

/// Splits the first of two lists; where that is a token the second; and where both are tokens returns which list
/// comes first. Behind them are the lists of the stacks.
fn turn_left<S: IndexStorage>(
    shared: &SharedLists<S>,
    left: usize,
    right: usize,
    lefts: &mut Vec<usize>,
    rights: &mut Vec<usize>,
) -> Result<Option<bool>, AllocError>
    requires left { HasTokens shared.now.lists left }
    requires right { HasTokens shared.now.lists right }
    requires lefts { All (HasTokens shared.now.lists) lefts.old.items }
    requires rights { All (HasTokens shared.now.lists) rights.old.items }
    ensures lefts { IfOk result (λ _. All (HasTokens shared.now.lists) lefts.new.items) }
    ensures rights { IfOk result (λ _. All (HasTokens shared.now.lists) rights.new.items) }
    ensures told { IfOk result (λ o. MatchOption o (AreRests (get_or shared.now.lists left [] ++ stacked shared.now.lists lefts.old.items) (get_or shared.now.lists right [] ++ stacked shared.now.lists rights.old.items) (stacked shared.now.lists lefts.new.items) (stacked shared.now.lists rights.new.items)) (λ b. IsTold (get_or shared.now.lists left [] ++ stacked shared.now.lists lefts.old.items) (get_or shared.now.lists right [] ++ stacked shared.now.lists rights.old.items) b)) }
    ensures fewer { IfOk result (λ _. turns shared.now.lists lefts.new.items + turns shared.now.lists rights.new.items < (turns shared.now.lists lefts.old.items + turns_of shared.now.lists left) + (turns shared.now.lists rights.old.items + turns_of shared.now.lists right)) }
{
    let Some(token) = shared.split(left, lefts)? else {
        rights.push(right)?;
        return Ok(None);
    };
    let Some(other) = shared.split(right, rights)? else {
        lefts.push(left)?;
        return Ok(None);
    };
    Ok(told_by(token, other))
}

fn opposite(told: Option<bool>) -> Option<bool>
    ensures { result ≡ option_map not told }
{
    match told {
        Some(is_before) => Some(!is_before),
        None => None,
    }
}

/// Splits the list with the larger number, and skips lists with one number.
fn turn<S: IndexStorage>(
    shared: &SharedLists<S>,
    left: usize,
    right: usize,
    lefts: &mut Vec<usize>,
    rights: &mut Vec<usize>,
) -> Result<Option<bool>, AllocError>
    requires left { HasTokens shared.now.lists left }
    requires right { HasTokens shared.now.lists right }
    requires lefts { All (HasTokens shared.now.lists) lefts.old.items }
    requires rights { All (HasTokens shared.now.lists) rights.old.items }
    ensures lefts { IfOk result (λ _. All (HasTokens shared.now.lists) lefts.new.items) }
    ensures rights { IfOk result (λ _. All (HasTokens shared.now.lists) rights.new.items) }
    ensures told { IfOk result (λ o. MatchOption o (AreRests (get_or shared.now.lists left [] ++ stacked shared.now.lists lefts.old.items) (get_or shared.now.lists right [] ++ stacked shared.now.lists rights.old.items) (stacked shared.now.lists lefts.new.items) (stacked shared.now.lists rights.new.items)) (λ b. IsTold (get_or shared.now.lists left [] ++ stacked shared.now.lists lefts.old.items) (get_or shared.now.lists right [] ++ stacked shared.now.lists rights.old.items) b)) }
    ensures fewer { IfOk result (λ _. turns shared.now.lists lefts.new.items + turns shared.now.lists rights.new.items < (turns shared.now.lists lefts.old.items + turns_of shared.now.lists left) + (turns shared.now.lists rights.old.items + turns_of shared.now.lists right)) }
{
    if left == right {
        return Ok(None);
    }
    if right < left {
        return turn_left(shared, left, right, lefts, rights);
    }
    let told = turn_left(shared, right, left, rights, lefts)?;
    Ok(opposite(told))
}

/// Returns whether a list forks before another one, or the other one leads it; none where one begins the other.
fn goes_ahead<S: IndexStorage>(
    alloc: Global,
    shared: &SharedLists<S>,
    left: usize,
    right: usize,
) -> Result<Option<bool>, AllocError>
    requires left { HasTokens shared.now.lists left }
    requires right { HasTokens shared.now.lists right }
    ensures { IfOk result (λ o. MatchOption o (AreNested (get_or shared.now.lists left []) (get_or shared.now.lists right [])) (λ b. IsAhead (get_or shared.now.lists left []) (get_or shared.now.lists right []) b)) }
{
    let mut lefts = Vec::new(alloc);
    let mut rights = Vec::new(alloc);
    lefts.push(left)?;
    rights.push(right)?;
    'turns: loop {
        let Some(first) = lefts.pop() else {
            if rights.len() > 0 {
                return Ok(None);
            }
            return Ok(Some(false));
        };
        let Some(second) = rights.pop() else {
            return Ok(None);
        };
        if let Some(told) = turn(shared, first, second, &mut lefts, &mut rights)? {
            return Ok(Some(told));
        }
    }
}

/// Returns whether a list forks before another one, or the other one leads it; none where one begins the other.
pub(super) fn is_list_ahead<S: IndexStorage>(
    alloc: Global,
    shared: &SharedLists<S>,
    left: usize,
    right: usize,
) -> Result<Option<bool>, AllocError>
    requires left { left < length shared.now.lists }
    requires right { right < length shared.now.lists }
    ensures { IfOk result (λ o. MatchOption o (AreNested (get_or shared.now.lists left []) (get_or shared.now.lists right [])) (λ b. IsAhead (get_or shared.now.lists left []) (get_or shared.now.lists right []) b)) }
{
    if shared.is_empty(left) {
        if shared.is_empty(right) {
            return Ok(Some(false));
        }
        return Ok(None);
    }
    if shared.is_empty(right) {
        return Ok(None);
    }
    goes_ahead(alloc, shared, left, right)
}
