//! The list of a lexer, each of whose items is a lexeme.

ghost use Rattle.std.specs.Prelude.{◌≡◌, ◌<◌, Some, length, slice_get};
ghost use Rattle.parse_trees.specs.LexemeViews.{ReadsAs};

use std::marker::Model;

/// A lexer's list without a copy: each item of it is a lexeme. Contracts see the lexemes.
#[derive(Drop)]
pub struct LexemeList<'a, L, E> {
    items: &'a [Result<L, E>],
}

impl<'a, L, E> Model for LexemeList<'a, L, E> {
    ghost use Rattle.std.specs.Prelude.{List};
    ghost use Rattle.parse_trees.specs.Lexemes.{AreItems, lexemes_of};

    ghost Value = { List L };

    ghost view = { λ l. lexemes_of l.items.now };

    ghost invariant = { λ l. AreItems l.items.now (lexemes_of l.items.now) };
}

/// Returns the lexemes of a lexer's list, or the first fault.
pub(crate) fn read_list<L: Copy, E: Copy>(items: &[Result<L, E>]) -> Result<LexemeList<'_, L, E>, E>
    ensures { ReadsAs items.now result }
{
    'items: for index in 0..items.len() {
        if let Err(e) = items[index] {
            return Err(e);
        }
    }
    Ok(LexemeList { items })
}

impl<'a, L: Copy, E: Copy> LexemeList<'a, L, E> {
    /// Returns how many there are.
    pub fn len(&self) -> usize
        ensures { result ≡ length self.now }
    {
        self.items.len()
    }

    /// Returns the lexeme at the index, or none past the last one.
    #[inline(always)]
    pub fn get(&self, index: usize) -> Option<L>
        ensures { result ≡ slice_get self.now index }
    {
        match self.items.get(index) {
            Some(Ok(lexeme)) => Some(*lexeme),
            _ => None,
        }
    }

    /// Returns the lexeme at an index before the end.
    pub fn at(&self, index: usize) -> L
        requires { index < length self.now }
        ensures { slice_get self.now index ≡ Some result }
    {
        match self.get(index) {
            Some(lexeme) => lexeme,
            None => unreachable!(),
        }
    }
}
