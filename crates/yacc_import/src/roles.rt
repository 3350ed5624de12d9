//! What each token of a file is for.

use crate::ends::line_end;
use crate::errors::{Fault, ImportError};
use crate::notes::{NoteKind, cut};
use crate::tokens::{Kind, Token};
use crate::words::says_nothing;
use std::alloc::Global;

/// What a token is for, and so what becomes of it.
#[derive(Clone, Copy, PartialEq, Eq)]
pub(crate) enum Role {
    /// It stays.
    Keep,
    /// It is left out.
    Leave(NoteKind),
    /// The first `%%`.
    Section,
    /// The word of a declaration among the rules, which is moved.
    Late,
    /// The word of a precedence level among the rules.
    LateLevel,
    /// A directive that the profile calls otherwise.
    Rename(&'static str),
    /// `%precedence`.
    Precedence,
    /// A token of `%token`.
    Declared,
    /// A token of a `%token` among the rules.
    LateDeclared,
    /// A string that stands for the token at this index.
    AliasOf(usize),
    /// The start rule of a `%start`.
    Start,
    /// The start rule of a `%start` among the rules.
    LateStart,
    /// A token of a precedence level.
    Level,
    /// A token of a precedence level on a later line than the level's word.
    MovedLevel,
    /// The name that begins a rule.
    Head,
    /// A symbol of an alternative.
    Symbol,
    /// `%prec`.
    PrecWord,
    /// The token of `%prec`.
    Prec,
    /// `%prec` or its token, where something follows it in its alternative.
    MovedPrec,
    /// The action in the middle of an alternative with this number.
    Midrule(usize),
}

/// A token, what it is for, and what is put behind it.
#[derive(Clone, Copy)]
pub(crate) struct Part {
    pub token: Token,
    pub role: Role,
    /// The bit of the `%precedence` level that it belongs to, or 0.
    pub bit: u64,
    /// The index of the token of a `%prec` that is put behind this token.
    pub prec: Option<usize>,
    /// Whether a `;` is put behind it.
    pub semicolon: bool,
    /// Whether the tokens of its level on later lines are put behind it.
    pub level: bool,
    /// The index of the word of a level among the rules that is put behind it.
    pub late: Option<usize>,
}

impl Part {
    /// Returns whether it is a token of a precedence level.
    pub(crate) fn is_in_level(&self) -> bool {
        matches!(self.role, Role::Level | Role::MovedLevel)
    }

    /// Returns whether it is a name that isn't left out.
    pub(crate) fn is_name(&self) -> bool {
        matches!(self.token.kind, Kind::Name | Kind::Head) && !matches!(self.role, Role::Leave(_))
    }
}

/// The parts of a file.
#[derive(Drop)]
pub(crate) struct Parts {
    pub list: Vec<Part>,
    /// The index of the last token of the rules.
    pub last: Option<usize>,
    /// How many actions are in the middle of an alternative.
    pub midrules: usize,
    /// The index of the last token of a precedence level before the rules.
    pub last_level: Option<usize>,
}

impl Parts {
    /// Returns the token at an index.
    pub(crate) fn token(&self, at: usize) -> Option<Token> {
        self.list.get(at).map(|part| part.token)
    }
}

/// What the next token may belong to.
#[derive(Clone, Copy, PartialEq, Eq)]
enum Context {
    Nothing,
    Tokens,
    Nonterminals,
    Level,
    Start,
    Expect,
    LeftOut,
    Prec,
    /// The one argument of a directive in a rule.
    Argument,
}

#[derive(Drop)]
struct Roles<'a> {
    text: &'a str,
    found: Parts,
    context: Context,
    /// How many `%%` there were.
    sections: u8,
    /// The index of the token that an alias is for.
    name: Option<usize>,
    /// Whether a rule is open.
    is_open: bool,
    /// Whether the colon of a rule is still to come.
    is_head: bool,
    /// The index of the last action of the alternative, if nothing follows it.
    action: Option<usize>,
    /// The index of the `%prec` of the alternative.
    prec: Option<usize>,
    /// The index of the token of the `%prec` of the alternative, if something follows it.
    moved: Option<usize>,
    /// The index of the `;` behind the last rule.
    semicolon: Option<usize>,
    /// The index of the last token that stays on the line of a precedence level.
    anchor: Option<usize>,
    /// Whether the last token is on the line of a precedence level.
    is_level_line: bool,
    /// The bit of the `%precedence` level that is open, or 0, and that of the next one.
    bit: u64,
    next_bit: u64,
}

fn refuse<T>(fault: Fault, at: usize) -> Result<T, ImportError> {
    Err(ImportError::Refused(fault, at))
}

impl Roles<'_> {
    /// Ends an alternative.
    fn end_alternative(&mut self) {
        let moved = self.moved;
        if let Some(part) = self.found.list.last_mut() {
            part.prec = moved;
        }
        self.moved = None;
        self.prec = None;
        self.action = None;
    }

    /// Ends the rule that is open, which no `;` ends.
    fn close(&mut self) {
        if self.is_open {
            self.end_alternative();
            if let Some(part) = self.found.list.last_mut() {
                part.semicolon = true;
            }
        }
        self.is_open = false;
        self.semicolon = None;
    }

    /// Changes what the token at an index is for.
    fn change(&mut self, at: usize, role: Role) {
        if let Some(part) = self.found.list.get_mut(at) {
            part.role = role;
        }
    }

    /// Notes that something follows in the alternative: an action before is in the middle, a `%prec` before is moved.
    fn follow(&mut self) {
        if let Some(at) = self.action {
            self.found.midrules = self.found.midrules.saturating_add(1);
            let number = self.found.midrules;
            self.change(at, Role::Midrule(number));
            self.action = None;
            self.move_prec();
        }
    }

    /// Moves the `%prec` before, if there is one.
    fn move_prec(&mut self) {
        if let Some(at) = self.prec {
            let next = at.saturating_add(1);
            self.change(at, Role::MovedPrec);
            self.change(next, Role::MovedPrec);
            self.moved = Some(next);
            self.prec = None;
        }
    }

    /// Takes a part of a rule.
    fn rule_part(&mut self, at: usize, token: Token) -> Result<Role, ImportError> {
        match token.kind {
            Kind::Colon if self.is_head => {
                self.is_head = false;
                Ok(Role::Keep)
            }
            Kind::Reference => Ok(Role::Leave(NoteKind::Reference)),
            Kind::Tag => Ok(Role::Leave(NoteKind::Tag)),
            Kind::Bar => {
                self.end_alternative();
                Ok(Role::Keep)
            }
            Kind::Semicolon => {
                self.end_alternative();
                self.is_open = false;
                self.semicolon = Some(at);
                Ok(Role::Keep)
            }
            Kind::Name | Kind::Text | Kind::Character => {
                self.follow();
                self.move_prec();
                Ok(Role::Symbol)
            }
            Kind::Code => {
                self.follow();
                self.action = Some(at);
                Ok(Role::Leave(NoteKind::Action))
            }
            _ => refuse(Fault::ForeignForm, token.start),
        }
    }

    /// Takes what stands between two rules.
    fn between_rules(&mut self, token: Token) -> Result<Role, ImportError> {
        match (token.kind, self.semicolon) {
            (Kind::Semicolon, _) => Ok(Role::Leave(NoteKind::Mark)),
            (Kind::Bar, Some(at)) => {
                self.change(at, Role::Leave(NoteKind::Mark));
                self.is_open = true;
                self.semicolon = None;
                Ok(Role::Keep)
            }
            _ => refuse(Fault::RuleWanted, token.start),
        }
    }

    /// Takes the token of a `%prec`.
    fn prec_part(&mut self, at: usize, token: Token) -> Result<Role, ImportError> {
        self.context = Context::Nothing;
        match token.kind {
            Kind::Name | Kind::Text | Kind::Character => {
                self.prec = at.checked_sub(1);
                Ok(Role::Prec)
            }
            _ => refuse(Fault::TokenWanted, token.start),
        }
    }

    /// Takes a token of a `%token`.
    fn token_part(&mut self, at: usize, token: Token) -> Result<Role, ImportError> {
        match token.kind {
            Kind::Name => {
                self.name = Some(at);
                if self.sections == 0 {
                    Ok(Role::Declared)
                } else {
                    Ok(Role::LateDeclared)
                }
            }
            Kind::Number => Ok(Role::Leave(NoteKind::Number)),
            Kind::Tag => Ok(Role::Leave(NoteKind::Tag)),
            Kind::Character => {
                self.name = Some(at);
                Ok(Role::Leave(NoteKind::Moved))
            }
            Kind::Text => Ok(self.alias()),
            _ => refuse(Fault::DeclarationWanted, token.start),
        }
    }

    /// Returns what a string in a list of tokens is for.
    fn alias(&self) -> Role {
        match self.name {
            Some(at) => Role::AliasOf(at),
            None => Role::Leave(NoteKind::Alias),
        }
    }

    /// Takes a token of a precedence level.
    fn level_part(&mut self, at: usize, token: Token) -> Result<Role, ImportError> {
        match token.kind {
            Kind::Name | Kind::Text | Kind::Character => {
                if self.sections == 0 {
                    self.found.last_level = Some(at);
                }
                if self.is_level_line {
                    self.anchor = Some(at);
                    return Ok(Role::Level);
                }
                if let Some(anchor) = self.anchor
                    && let Some(part) = self.found.list.get_mut(anchor)
                {
                    part.level = true;
                }
                Ok(Role::MovedLevel)
            }
            Kind::Number => Ok(Role::Leave(NoteKind::Number)),
            Kind::Tag => Ok(Role::Leave(NoteKind::Tag)),
            _ => refuse(Fault::DeclarationWanted, token.start),
        }
    }

    /// Takes what belongs to a declaration.
    fn argument(&mut self, at: usize, token: Token) -> Result<Role, ImportError> {
        match self.context {
            Context::Tokens => self.token_part(at, token),
            Context::Level => self.level_part(at, token),
            Context::Nonterminals => {
                if token.kind == Kind::Name {
                    self.name = Some(at);
                }
                if token.kind == Kind::Text {
                    return Ok(self.alias());
                }
                Ok(Role::Leave(NoteKind::Directive))
            }
            Context::Start => {
                self.context = Context::LeftOut;
                if self.sections == 0 {
                    Ok(Role::Start)
                } else {
                    Ok(Role::LateStart)
                }
            }
            Context::Expect if self.sections == 0 => {
                self.context = Context::LeftOut;
                Ok(Role::Keep)
            }
            Context::Expect | Context::LeftOut => Ok(Role::Leave(NoteKind::Directive)),
            _ => refuse(Fault::DeclarationWanted, token.start),
        }
    }

    /// Begins a declaration, which ends the rule before it.
    fn declare(&mut self, context: Context) {
        self.close();
        self.name = None;
        self.context = context;
        self.bit = 0;
    }

    /// Begins a declaration that is kept, on a line without a precedence level, or moved if it is among the rules.
    fn stay(&mut self, token: Token, context: Context, role: Role) -> Result<Role, ImportError> {
        self.declare(context);
        if self.sections > 0 {
            return Ok(Role::Late);
        }
        if self.is_level_line {
            return refuse(Fault::CrowdedLine, token.start);
        }
        Ok(role)
    }

    /// Begins a precedence level.
    fn begin_level(&mut self, at: usize, token: Token, role: Role) -> Result<Role, ImportError> {
        if self.stay(token, Context::Level, role)? == Role::Late {
            self.anchor = None;
            return Ok(Role::LateLevel);
        }
        self.found.last_level = Some(at);
        self.anchor = Some(at);
        self.is_level_line = true;
        Ok(role)
    }

    /// Begins a `%precedence` level. Levels past the sixty-third have one bit for all.
    fn begin_precedence(&mut self, at: usize, token: Token) -> Result<Role, ImportError> {
        if self.sections > 0 {
            return refuse(Fault::LateLevel, token.start);
        }
        let role = self.begin_level(at, token, Role::Precedence)?;
        self.bit = self.next_bit;
        self.next_bit = self.bit.checked_mul(2).unwrap_or(self.bit);
        Ok(role)
    }

    /// Takes a directive that has a meaning of its own in an alternative.
    fn directive_in_rule(&mut self, at: usize, word: &str) -> Option<Role> {
        match word {
            "%expect" | "%expect-rr" | "%expect_rr" | "%dprec" | "%merge" => {
                self.context = Context::Argument;
                Some(Role::Leave(NoteKind::RuleDirective))
            }
            "%prec" => {
                self.context = Context::Prec;
                self.prec = Some(at);
                Some(Role::PrecWord)
            }
            "%empty" => {
                self.move_prec();
                Some(Role::Keep)
            }
            _ => None,
        }
    }

    /// Takes a directive.
    fn directive(&mut self, at: usize, token: Token) -> Result<Role, ImportError> {
        let word = cut(self.text, token.start, token.end);
        if self.is_open
            && let Some(role) = self.directive_in_rule(at, word)
        {
            return Ok(role);
        }
        self.declaration(at, token, word)
    }

    /// Takes a directive that begins a declaration.
    fn declaration(&mut self, at: usize, token: Token, word: &str) -> Result<Role, ImportError> {
        match word {
            "%token" => self.stay(token, Context::Tokens, Role::Keep),
            "%term" => self.stay(token, Context::Tokens, Role::Rename("%token")),
            "%left" | "%right" | "%nonassoc" => self.begin_level(at, token, Role::Keep),
            "%binary" => self.begin_level(at, token, Role::Rename("%nonassoc")),
            "%precedence" => self.begin_precedence(at, token),
            "%start" => self.stay(token, Context::Start, Role::Keep),
            "%expect" | "%expect-rr" => self.stay(token, Context::Expect, Role::Keep),
            "%expect_rr" => self.stay(token, Context::Expect, Role::Rename("%expect-rr")),
            "%nterm" => Ok(self.leave_out(Context::Nonterminals)),
            "%no-default-prec" | "%no_default_prec" => refuse(Fault::NoDefaultPrec, token.start),
            "%ifdef" | "%endif" | "%ident" => refuse(Fault::ForeignForm, token.start),
            _ if says_nothing(word) => Ok(self.leave_out(Context::LeftOut)),
            _ => refuse(Fault::UnknownDirective, token.start),
        }
    }

    /// Begins a declaration that is left out.
    fn leave_out(&mut self, context: Context) -> Role {
        self.declare(context);
        Role::Leave(NoteKind::Directive)
    }

    /// Takes a `%%`.
    fn section(&mut self, token: Token) -> Result<Role, ImportError> {
        self.context = Context::Nothing;
        self.sections = self.sections.saturating_add(1);
        if self.sections == 1 {
            if self.is_level_line {
                return refuse(Fault::CrowdedLine, token.start);
            }
            return Ok(Role::Section);
        }
        self.close();
        Ok(Role::Leave(NoteKind::Epilogue))
    }

    /// Takes the name of a rule.
    fn head(&mut self, token: Token) -> Result<Role, ImportError> {
        if self.sections == 0 {
            return refuse(Fault::DeclarationWanted, token.start);
        }
        self.close();
        self.context = Context::Nothing;
        self.is_open = true;
        self.is_head = true;
        Ok(Role::Head)
    }

    /// Takes a token that is no directive and begins nothing.
    fn other(&mut self, at: usize, token: Token) -> Result<Role, ImportError> {
        match self.context {
            Context::Nothing if self.is_open => self.rule_part(at, token),
            Context::Nothing if self.sections > 0 => self.between_rules(token),
            Context::Prec => self.prec_part(at, token),
            Context::Argument => {
                self.context = Context::Nothing;
                Ok(Role::Leave(NoteKind::RuleDirective))
            }
            _ if token.kind == Kind::Semicolon => {
                self.context = Context::Nothing;
                Ok(Role::Leave(NoteKind::Mark))
            }
            _ => self.argument(at, token),
        }
    }

    /// Takes a token.
    fn take(&mut self, at: usize, token: Token) -> Result<(), ImportError> {
        let role = match token.kind {
            Kind::Mark => Role::Leave(NoteKind::Mark),
            Kind::Prologue => Role::Leave(NoteKind::Prologue),
            Kind::Epilogue => Role::Leave(NoteKind::Epilogue),
            Kind::Section => self.section(token)?,
            Kind::Directive => self.directive(at, token)?,
            Kind::Head => self.head(token)?,
            _ => self.other(at, token)?,
        };
        if self.sections == 1 {
            self.found.last = Some(at);
        }
        self.found.list.push(Part {
            token,
            role,
            bit: self.bit,
            prec: None,
            semicolon: false,
            level: false,
            late: None,
        })?;
        Ok(())
    }

    /// Takes all tokens.
    fn take_all(&mut self, tokens: &[Token]) -> Result<(), ImportError> {
        let bytes = self.text.as_bytes();
        let mut last = 0;
        for (at, token) in tokens.iter().enumerate() {
            if self.is_level_line && line_end(bytes, last, token.start) < token.start {
                self.is_level_line = false;
            }
            last = token.start;
            self.take(at, *token)?;
        }
        if self.sections == 0 {
            return refuse(Fault::RulesWanted, self.text.len());
        }
        self.close();
        Ok(())
    }
}

/// Returns what each token is for.
pub(crate) fn parts_of(alloc: Global, text: &str, tokens: &[Token]) -> Result<Parts, ImportError> {
    let mut roles = Roles {
        text,
        found: Parts {
            list: Vec::with_capacity(alloc, tokens.len())?,
            last: None,
            midrules: 0,
            last_level: None,
        },
        context: Context::Nothing,
        sections: 0,
        name: None,
        is_open: false,
        is_head: false,
        action: None,
        prec: None,
        moved: None,
        semicolon: None,
        anchor: None,
        is_level_line: false,
        bit: 0,
        next_bit: 1,
    };
    roles.take_all(tokens)?;
    Ok(roles.found)
}
