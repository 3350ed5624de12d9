//! Which `%precedence` levels the profile can say.
//!
//! A production and a token of one such level stay in conflict where they meet. The profile has no such level. But where no token
//! of the level may follow a rule with a production of that precedence they never meet, and `%nonassoc` says the same.

use crate::errors::ImportError;
use crate::names::Names;
use crate::roles::{Part, Role};
use crate::tokens::{Kind, Token};
use cfg_base::name_hasher::NameHasher;
use indexmap::IndexMap;
use std::alloc::Global;

/// Passes over the productions, after which nothing is known.
const MOST_PASSES: usize = 256;

/// What is known of a symbol: sets of levels, a bit for each.
#[derive(Clone, Copy)]
struct Symbol {
    /// Levels of tokens that may begin what it derives.
    first: u64,
    /// Levels of tokens that may follow it.
    follow: u64,
    /// Levels of tokens that may follow it within a production.
    near: u64,
    is_empty: bool,
    is_token: bool,
}

/// A token of which nothing is known.
const NOTHING: Symbol = Symbol {
    first: 0,
    follow: 0,
    near: 0,
    is_empty: false,
    is_token: true,
};

/// Returns what is behind the symbol before one, of what is behind this one: tokens that may follow, in all and within the
/// production, and whether the production may end there.
fn before(symbol: Symbol, behind: Symbol) -> Symbol {
    if symbol.is_empty {
        return Symbol {
            follow: behind.follow | symbol.first,
            near: behind.near | symbol.first,
            ..behind
        };
    }
    Symbol {
        follow: symbol.first,
        near: symbol.first,
        ..NOTHING
    }
}

/// A production: its rule, the range of its symbols, and the level of its `%prec`.
#[derive(Clone, Copy)]
struct Production {
    rule: usize,
    start: usize,
    end: usize,
    prec: Option<u64>,
}

#[derive(Drop)]
struct Levels<'a, 'b> {
    names: &'b Names<'a>,
    numbers: IndexMap<&'a str, usize, NameHasher>,
    symbols: Vec<Symbol>,
    /// The symbols of all productions.
    bodies: Vec<usize>,
    productions: Vec<Production>,
    /// The production that is read, if one is open.
    last: Production,
    is_open: bool,
}

impl<'a> Levels<'a, '_> {
    /// Returns the number of a token's key.
    fn number(&mut self, token: Token) -> Result<usize, ImportError> {
        let key = self.names.key(token);
        if let Some(number) = self.numbers.get(&key) {
            return Ok(*number);
        }
        let number = self.symbols.len();
        self.numbers.insert(key, number)?;
        self.symbols.push(NOTHING)?;
        Ok(number)
    }

    /// Returns what is known of a symbol.
    fn symbol(&self, number: usize) -> Symbol {
        self.symbols.get(number).copied().unwrap_or(NOTHING)
    }

    /// Adds to what is known of a symbol, and returns whether that is new.
    fn add(&mut self, number: usize, more: Symbol) -> bool {
        let Some(symbol) = self.symbols.get_mut(number) else {
            return false;
        };
        let before = *symbol;
        symbol.first = before.first | more.first;
        symbol.follow = before.follow | more.follow;
        symbol.near = before.near | more.near;
        symbol.is_empty = before.is_empty || more.is_empty;
        symbol.first != before.first
            || symbol.follow != before.follow
            || symbol.near != before.near
            || symbol.is_empty != before.is_empty
    }

    /// Ends an alternative, if one is open.
    fn end(&mut self) -> Result<(), ImportError> {
        if !self.is_open {
            return Ok(());
        }
        let end = self.bodies.len();
        self.productions.push(Production { end, ..self.last })?;
        self.last.start = end;
        self.last.prec = None;
        Ok(())
    }

    /// Begins a rule.
    fn begin(&mut self, head: Token) -> Result<(), ImportError> {
        self.end()?;
        self.is_open = false;
        let rule = self.number(head)?;
        self.last.rule = rule;
        if let Some(symbol) = self.symbols.get_mut(rule) {
            symbol.is_token = false;
        }
        Ok(())
    }

    /// Takes a part of the file.
    fn take(&mut self, part: Part) -> Result<(), ImportError> {
        match (part.role, part.token.kind) {
            (Role::Level | Role::MovedLevel, _) => {
                let number = self.number(part.token)?;
                let first = part.bit;
                self.add(number, Symbol { first, ..NOTHING });
            }
            (Role::Head, _) => self.begin(part.token)?,
            (Role::Symbol, _) => {
                let number = self.number(part.token)?;
                self.bodies.push(number)?;
            }
            (Role::Prec | Role::MovedPrec, Kind::Name | Kind::Text | Kind::Character) => {
                let number = self.number(part.token)?;
                self.last.prec = Some(self.symbol(number).first);
            }
            (Role::Keep, Kind::Colon) => self.is_open = true,
            (Role::Keep, Kind::Bar) => self.end()?,
            (Role::Keep, Kind::Semicolon) => {
                self.end()?;
                self.is_open = false;
            }
            _ => {}
        }
        Ok(())
    }

    /// Goes over a production, and returns whether anything was new.
    fn pass(&mut self, production: Production) -> bool {
        let mut behind = Symbol {
            follow: self.symbol(production.rule).follow,
            is_empty: true,
            ..NOTHING
        };
        let mut is_new = false;
        for at in 0..production.end.saturating_sub(production.start) {
            let place = production.end.saturating_sub(at).saturating_sub(1);
            let Some(number) = self.bodies.get(place).copied() else {
                continue;
            };
            let more = Symbol {
                follow: behind.follow,
                near: behind.near,
                ..NOTHING
            };
            is_new = self.add(number, more) || is_new;
            behind = before(self.symbol(number), behind);
        }
        let more = Symbol {
            first: behind.near,
            is_empty: behind.is_empty,
            ..NOTHING
        };
        self.add(production.rule, more) || is_new
    }

    /// Goes over the productions until nothing is new, and returns whether it came that far.
    fn close(&mut self) -> bool {
        for _ in 0..MOST_PASSES {
            let mut is_new = false;
            for at in 0..self.productions.len() {
                if let Some(production) = self.productions.get(at).copied() {
                    is_new = self.pass(production) || is_new;
                }
            }
            if !is_new {
                return true;
            }
        }
        false
    }

    /// Returns the level of a production: that of its `%prec`, or else of its last token.
    fn level(&self, production: Production) -> u64 {
        let mut level = 0;
        let range = production.start..production.end;
        for number in self.bodies.get(range).unwrap_or(&[]) {
            let symbol = self.symbol(*number);
            if symbol.is_token {
                level = symbol.first;
            }
        }
        production.prec.unwrap_or(level)
    }

    /// Returns the levels of tokens that may be shifted where a production is complete.
    fn beside(&self, production: Production) -> u64 {
        let range = production.start..production.end;
        match self.bodies.get(range).unwrap_or(&[]).last() {
            Some(number) => self.symbol(*number).near,
            None => u64::MAX,
        }
    }

    /// Returns the levels where a production and a token may meet: the token may follow the rule, and also the production's last
    /// symbol within a production.
    fn meeting(&self) -> u64 {
        let mut levels = 0;
        for production in self.productions.as_slice() {
            let follow = self.symbol(production.rule).follow;
            levels |= follow & self.level(*production) & self.beside(*production);
        }
        levels
    }

    fn take_all(&mut self, parts: &[Part]) -> Result<u64, ImportError> {
        for part in parts {
            self.take(*part)?;
        }
        self.end()?;
        let is_known = self.close();
        Ok(if is_known { self.meeting() } else { u64::MAX })
    }
}

/// Returns the `%precedence` levels of which a production and a token may meet, a bit for each in the order of the file, with
/// one for all past the sixty-third.
pub(crate) fn meeting_levels(
    alloc: Global,
    names: &Names<'_>,
    parts: &[Part],
) -> Result<u64, ImportError> {
    if parts.iter().all(|part| part.bit == 0) {
        return Ok(0);
    }
    let mut levels = Levels {
        names,
        numbers: IndexMap::with_hasher(alloc, names.hasher()),
        symbols: Vec::new(alloc),
        bodies: Vec::new(alloc),
        productions: Vec::new(alloc),
        last: Production {
            rule: 0,
            start: 0,
            end: 0,
            prec: None,
        },
        is_open: false,
    };
    let meeting = levels.take_all(parts);
    drop(levels);
    meeting
}
