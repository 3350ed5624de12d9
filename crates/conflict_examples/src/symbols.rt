//! Compares lists of symbols, and reverses them.

ghost use Rattle.std.specs.Prelude.{◌≡◌, ◌++◌, length, reverse, IsTrue, IfOk};
ghost use Rattle.cfg_numbered.specs.Symbols.{sym_of, syms_of};

use cfg_base::index::IndexStorage;
use cfg_base::symbol::Symbol;
use std::alloc::{AllocError, Global};

/// Returns whether two symbols are the same.
pub(crate) fn same_symbol<S: IndexStorage>(a: Symbol<S>, b: Symbol<S>) -> bool
    ensures { IsTrue result → sym_of S.number a ≡ sym_of S.number b }
{
    match (a, b) {
        (Symbol::Rule(a), Symbol::Rule(b)) => a.0.to_usize() == b.0.to_usize(),
        (Symbol::Token(a), Symbol::Token(b)) => a.0.to_usize() == b.0.to_usize(),
        _ => false,
    }
}

/// Returns whether two lists of one length have the same symbols.
fn same_each<S: IndexStorage>(a: &[Symbol<S>], b: &[Symbol<S>]) -> bool
    requires { length a.now ≡ length b.now }
    ensures { IsTrue result → syms_of S.number a.now ≡ syms_of S.number b.now }
{
    'symbols: for k in 0..a.len() {
        if !same_symbol(a[k], b[k]) {
            return false;
        }
    }
    true
}

/// Returns whether two lists have the same symbols.
pub(crate) fn same_symbols<S: IndexStorage>(a: &[Symbol<S>], b: &[Symbol<S>]) -> bool
    ensures { IsTrue result → syms_of S.number a.now ≡ syms_of S.number b.now }
{
    if a.len() != b.len() {
        return false;
    }
    same_each(a, b)
}

/// Appends the symbols in reverse order.
pub(crate) fn push_reversed<S: IndexStorage>(
    symbols: &[Symbol<S>],
    list: &mut Vec<Symbol<S>>,
) -> Result<(), AllocError>
    ensures { IfOk result (λ _. syms_of S.number list.new.items ≡ syms_of S.number list.old.items ++ reverse (syms_of S.number symbols.now)) }
{
    'symbols: for back in 0..symbols.len() {
        list.push(symbols[symbols.len() - 1 - back])?;
    }
    Ok(())
}

/// Returns the symbols in reverse order.
pub(crate) fn reverse_form<S: IndexStorage>(
    alloc: Global,
    symbols: &[Symbol<S>],
) -> Result<Vec<Symbol<S>>, AllocError>
    ensures { IfOk result (λ v. syms_of S.number v.items ≡ reverse (syms_of S.number symbols.now)) }
{
    let mut list = Vec::new(alloc);
    push_reversed(symbols, &mut list)?;
    Ok(list)
}
