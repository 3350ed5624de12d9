//! Syntax trees of grammar texts, with what is wrong with the texts.

ghost use Rattle.std.specs.Prelude.{◌≡◌, ◌≤◌, ℕ, List, [], Some, true, false, length, IfOk, IfErr, OnOk};
ghost use Rattle.cfg_sections.specs.Sections.{PairText};
ghost use Rattle.cfg_read.specs.declared.yacc.YaccKind.{YaccKind};
ghost use Rattle.cfg_read.specs.SyntaxModels.{syntax_of};
ghost use Rattle.cfg_read.specs.AstModels.{named_rules, named_spans};
ghost use Rattle.cfg_read.specs.NameTables.{known_before};
ghost use Rattle.cfg_read.specs.Settling.{uses_of};
ghost use Rattle.cfg_read.specs.Judging.{IsJudged, with_rules, with_lines_of};
ghost use Rattle.cfg_read.specs.LinesByName.{AreLinesOf};
ghost use Rattle.cfg_read.specs.Asts.{no_ast, ast_of};
ghost use Rattle.cfg_read.specs.Validity.{FailureText, failures};
ghost use Rattle.cfg_read.specs.ErrorModels.{failures_in};
ghost use Rattle.cfg_read.specs.Files.{HasSection, FailsFile, TellsKind, LacksKind, IsFailure};
ghost use Rattle.cfg_read.specs.WellFormedAst.{IsWellFormedAst, NamesAreWords};
ghost use Rattle.cfg_read.specs.ValidityInfo.{CheckedAst, is_valid, read_as, unread, IsChecked, heading_at, starts_at, ChangesStart, IsChangeError, HeadingsAreWords, IsWellMade};

use crate::yacc::ast::parts::{Lines, first_lines};
use crate::yacc::ast::settle::{Uses, all_settled};
use crate::yacc::ast::{GrammarAST, Rule, build};
use crate::yacc::file::{
    YaccGrammarFailure, YaccGrammarResult, kind_in, no_kind, one_file, read_rest, read_section,
};
use crate::yacc::name::NameSet;
use crate::yacc::parser::syntax::Syntax;
use crate::yacc::validity::{YaccGrammarError, copy_errors, failures_by, unknown};
use crate::yacc::{YaccKind, names};
use cfg_base::name_hasher::NameHasher;
use cfg_base::span::Span;
use indexmap::IndexMap;
use std::alloc::{AllocError, Global};
use std::error::Error;
use std::fmt::{Display, Formatter, Write};
use std::marker::Model;
use std::{fmt, mem};

/// Why a syntax tree isn't changed.
#[derive(Debug, Drop)]
pub enum ASTModificationError {
    /// The request for memory that was refused; the tree is as it was.
    Memory(AllocError),
    /// No rule has this name.
    UnknownRule,
}

impl Display for ASTModificationError {
    ghost use Rattle.std.specs.Prelude.{Some};
    ghost use Rattle.cfg_read.specs.ErrorTexts.{change_error_text};

    ghost output = { λ e. Some (change_error_text e) };

    fn fmt<W: Write>(&self, f: &mut Formatter<W>) -> fmt::Result {
        match self {
            ASTModificationError::Memory(_) => write!(f, "Memory"),
            ASTModificationError::UnknownRule => write!(f, "Rule does not appear in grammar"),
        }
    }
}

impl Error for ASTModificationError {}

/// The syntax tree of a grammar text, empty where the text can't be read, and all that is wrong with the
/// text.
#[derive(Debug, Drop)]
pub struct ASTWithValidityInfo {
    yacc_kind: YaccKind,
    ast: GrammarAST,
    errors: Vec<YaccGrammarError>,
}

/// Returns whether there are no errors.
fn none_of(errors: &Vec<YaccGrammarError>) -> bool
    ensures { result ≡ is_valid (failures_in errors.now.items) }
{
    errors.is_empty()
}

/// Returns the span of a rule's first heading.
fn heading_at(rules: &IndexMap<String, Rule, NameHasher>, name: &str) -> Option<Span>
    ensures { result ≡ heading_at (named_rules rules.now) name.now }
{
    match rules.get(name) {
        Some(rule) => Some(rule.name.1),
        None => None,
    }
}

impl Model for ASTWithValidityInfo {
    ghost use Rattle.cfg_read.specs.ErrorModels.{failures_in};
    ghost use Rattle.cfg_read.specs.ValidityInfo.{CheckedAst, IsWellMade};

    ghost Value = { CheckedAst };

    ghost view = { λ c. record { kind = c.yacc_kind; ast = c.ast; errors = failures_in c.errors.items } };

    ghost invariant = { λ c. IsWellMade (record { kind = c.yacc_kind; ast = c.ast; errors = failures_in c.errors.items }) };
}

/// Returns the names of a text, as far as they are known before its alternatives.
fn uses_before(alloc: Global, x: &mut Syntax) -> Result<Uses, AllocError>
    ensures same { syntax_of x.new ≡ syntax_of x.old }
    ensures known { IfOk result (λ u. uses_of u ≡ record { known = known_before (syntax_of x.old); unknown = []; fresh = [] }) }
{
    let hasher = x.names.hasher();
    let names = mem::replace(&mut x.names, NameSet::new(alloc, hasher));
    let table = names::table_of(alloc, names, x)?;
    Ok(Uses::of(alloc, table))
}

/// Returns the tokens, taken over.
fn tokens_in(uses: Uses) -> IndexMap<String, Span, NameHasher>
    ensures { named_spans result ≡ (uses_of uses).known.tokens }
{
    uses.table.into_tokens()
}

/// Puts the rules of a text into its tree, and lists the failures of the text.
fn take_rules(
    alloc: Global,
    ast: &mut GrammarAST,
    x: &mut Syntax,
    uses: &mut Uses,
    lines: &Lines,
) -> Result<Vec<YaccGrammarError>, AllocError>
    requires uses { uses_of uses.old ≡ record { known = known_before (syntax_of x.old); unknown = []; fresh = [] } }
    requires lines { AreLinesOf (syntax_of x.old) lines.now }
    ensures errors { IfOk result (λ errors. failures_in errors.items ≡ failures (syntax_of x.old)) }
    ensures rules { OnOk result (IsJudged (syntax_of x.old) (uses_of uses.new) ast.old ast.new) }
    ensures rest { OnOk result (syntax_of x.new ≡ with_rules (syntax_of x.old) []) }
{
    all_settled();
    let precs = unknown::unknown_precs(alloc, x, &lines.precs)?;
    let heads = build::heads(alloc, &x.rules)?;
    let rules = mem::replace(&mut x.rules, Vec::new(alloc));
    let prods = uses.productions(alloc, rules)?;
    let errors = failures_by(alloc, x, uses, lines, !heads.is_empty(), precs)?;
    ast.fill_prods(alloc, prods, &heads, &uses.fresh)?;
    Ok(errors)
}

/// Fills an empty tree with what a text says but for the lines that name tokens, and lists the failures of the text.
fn take_names(
    alloc: Global,
    ast: &mut GrammarAST,
    x: &mut Syntax,
    lines: &Lines,
) -> Result<Vec<YaccGrammarError>, AllocError>
    requires empty { ast.old ≡ no_ast }
    requires lines { AreLinesOf (syntax_of x.old) lines.now }
    ensures errors { IfOk result (λ errors. failures_in errors.items ≡ failures (syntax_of x.old)) }
    ensures ast { IfOk result (λ errors. with_lines_of (ast_of true (syntax_of x.old)) ast.new ≡ ast_of (is_valid (failures_in errors.items)) (syntax_of x.old)) }
    ensures rest { OnOk result (syntax_of x.new ≡ with_rules (syntax_of x.old) []) }
{
    let mut uses = uses_before(alloc, x)?;
    match ast.fill(alloc, x, uses.table.rules_len()) {
        Ok(()) => {}
        Err(e) => {
            drop(uses);
            return Err(e);
        }
    }
    match take_rules(alloc, ast, x, &mut uses, lines) {
        Ok(errors) => {
            ast.set_tokens(tokens_in(uses), none_of(&errors));
            Ok(errors)
        }
        Err(e) => {
            drop(uses);
            Err(e)
        }
    }
}

/// Fills an empty tree with what a text says, and lists the failures of the text.
fn take_all(
    alloc: Global,
    ast: &mut GrammarAST,
    mut x: Syntax,
) -> Result<Vec<YaccGrammarError>, AllocError>
    requires { ast.old ≡ no_ast }
    ensures errors { IfOk result (λ errors. failures_in errors.items ≡ failures (syntax_of x)) }
    ensures ast { IfOk result (λ errors. ast.new ≡ ast_of (is_valid (failures_in errors.items)) (syntax_of x)) }
{
    let lines = match first_lines(alloc, &x) {
        Ok(lines) => lines,
        Err(e) => {
            drop(x);
            return Err(e);
        }
    };
    match take_names(alloc, ast, &mut x, &lines) {
        Ok(errors) => {
            ast.take_words(alloc, x, lines)?;
            Ok(errors)
        }
        Err(e) => {
            drop(lines);
            drop(x);
            Err(e)
        }
    }
}

/// Makes the tree of a text that reads, and lists its failures.
fn judge_syntax(alloc: Global, x: Syntax) -> Result<(GrammarAST, Vec<YaccGrammarError>), AllocError>
    ensures errors { IfOk result (λ r. failures_in r.1.items ≡ failures (syntax_of x)) }
    ensures ast { IfOk result (λ r. r.0 ≡ ast_of (is_valid (failures_in r.1.items)) (syntax_of x)) }
{
    let mut ast = GrammarAST::empty(alloc, false);
    match take_all(alloc, &mut ast, x) {
        Ok(errors) => Ok((ast, errors)),
        Err(e) => {
            drop(ast);
            Err(e)
        }
    }
}

impl ASTWithValidityInfo {
    /// Makes the tree of a text that reads, with its failures.
    fn of_syntax(
        alloc: Global,
        yacc_kind: YaccKind,
        x: Syntax,
    ) -> Result<ASTWithValidityInfo, AllocError>
        requires { HeadingsAreWords (syntax_of x) }
        ensures { IfOk result (λ c. c ≡ read_as yacc_kind (syntax_of x)) }
    {
        let (ast, errors) = judge_syntax(alloc, x)?;
        Ok(ASTWithValidityInfo {
            yacc_kind,
            ast,
            errors,
        })
    }

    /// Makes the empty tree of a text that doesn't read, with its errors.
    fn of_errors(
        alloc: Global,
        yacc_kind: YaccKind,
        errors: Vec<YaccGrammarError>,
    ) -> ASTWithValidityInfo
        requires { is_valid (failures_in errors.items) ≡ false }
        ensures { result ≡ unread yacc_kind (failures_in errors.items) }
    {
        let ast = GrammarAST::empty(alloc, false);
        ASTWithValidityInfo {
            yacc_kind,
            ast,
            errors,
        }
    }

    /// Makes the tree of a text whose section ends at the offset `start`.
    fn behind_section(
        alloc: Global,
        yacc_kind: YaccKind,
        text: &str,
        start: usize,
    ) -> Result<ASTWithValidityInfo, AllocError>
        requires { start ≤ length text.now }
        ensures { (pairs : List PairText) → HasSection text.now pairs start → IfOk result (λ c. IsChecked yacc_kind text.now c) }
    {
        match read_rest(alloc, yacc_kind, text, start) {
            Ok(x) => {
                let checked = ASTWithValidityInfo::of_syntax(alloc, yacc_kind, x)?;
                Ok(checked)
            }
            Err(YaccGrammarFailure::Memory(e)) => Err(e),
            Err(YaccGrammarFailure::Invalid(errors)) => {
                Ok(ASTWithValidityInfo::of_errors(alloc, yacc_kind, errors))
            }
        }
    }

    /// Reads a text of a kind and checks it. The section is read, and its `yacckind` ignored. A text that doesn't
    /// read gives an empty tree with its errors: those of the section, else the one fault of the text behind it.
    /// Only refused memory is an `Err`.
    pub fn new(
        alloc: Global,
        yacc_kind: YaccKind,
        text: &str,
    ) -> Result<ASTWithValidityInfo, AllocError>
        ensures { IfOk result (λ c. IsChecked yacc_kind text.now c) }
    {
        match read_section(alloc, text) {
            Ok((_header, start)) => {
                let checked = ASTWithValidityInfo::behind_section(alloc, yacc_kind, text, start)?;
                Ok(checked)
            }
            Err(YaccGrammarFailure::Memory(e)) => Err(e),
            Err(YaccGrammarFailure::Invalid(errors)) => {
                Ok(ASTWithValidityInfo::of_errors(alloc, yacc_kind, errors))
            }
        }
    }

    /// Reads a text whose section names its kind by `yacckind`, and checks it. Where the text behind the section
    /// doesn't read, the result has that as its error, as with `new`.
    ///
    /// # Errors
    ///
    /// The first of these, in this order; `Memory` may come at any time.
    ///
    /// - `Invalid` with the errors of the section.
    /// - `Invalid` with `InvalidYaccKind` at (0, 0) where the key is missing.
    /// - `Invalid` with the error of the key's value, where it names no kind.
    /// - `Memory` where memory is refused.
    pub fn from_str(alloc: Global, text: &str) -> YaccGrammarResult<ASTWithValidityInfo>
        ensures kind { IfOk result (λ c. TellsKind text.now c.kind) }
        ensures ok { IfOk result (λ c. IsChecked c.kind text.now c) }
        ensures err { IfErr result (λ e. IsFailure (LacksKind text.now) e) }
    {
        let (header, start) = match read_section(alloc, text) {
            Ok(read) => read,
            Err(e) => return Err(e),
        };
        let kind = match kind_in(alloc, &header) {
            Ok(Some(kind)) => kind,
            Ok(None) => return Err(no_kind(alloc)),
            Err(e) => return Err(e),
        };
        match ASTWithValidityInfo::behind_section(alloc, kind, text, start) {
            Ok(checked) => Ok(checked),
            Err(e) => Err(YaccGrammarFailure::Memory(e)),
        }
    }

    /// Copies the tree with another rule as the start rule, at the span of the rule's first heading. Kind and
    /// errors stay. Returns `UnknownRule` where no rule has the name, and `Memory` where memory is refused.
    pub fn clone_and_change_start_rule(
        &self,
        alloc: Global,
        name: &str,
    ) -> Result<ASTWithValidityInfo, ASTModificationError>
        ensures ok { IfOk result (λ c. ChangesStart self.now name.now c) }
        ensures err { IfErr result (λ e. IsChangeError self.now name.now e) }
    {
        let Some(span) = heading_at(self.ast.rules(), name) else {
            return Err(ASTModificationError::UnknownRule);
        };
        match self.starting_at(alloc, name, span) {
            Ok(changed) => Ok(changed),
            Err(e) => Err(ASTModificationError::Memory(e)),
        }
    }

    /// Copies the tree with this name, at this span, as that of the start rule.
    fn starting_at(
        &self,
        alloc: Global,
        name: &str,
        span: Span,
    ) -> Result<ASTWithValidityInfo, AllocError>
        requires { heading_at self.now.ast.rules name.now ≡ Some span }
        ensures { IfOk result (λ c. c ≡ starts_at self.now name.now span) }
    {
        let errors = copy_errors(alloc, self.errors.as_slice())?;
        let name = String::from_str(alloc, name)?;
        let mut ast = self.ast.clone()?;
        ast.set_start(name, span);
        Ok(ASTWithValidityInfo {
            yacc_kind: self.yacc_kind,
            ast,
            errors,
        })
    }

    /// Returns the syntax tree; empty where the text doesn't read. Where nothing is wrong with the text, all that
    /// the tree names is there, and its rules have names of the file grammar, or names that end in `?`.
    pub fn ast(&self) -> &GrammarAST
        ensures ast { result.now ≡ self.now.ast }
        ensures well_formed { is_valid self.now.errors ≡ true → IsWellFormedAst result.now }
        ensures names { is_valid self.now.errors ≡ true → NamesAreWords result.now }
    {
        &self.ast
    }

    /// Returns the tree alone, for what takes its parts over.
    pub fn into_ast(self) -> GrammarAST
        ensures ast { result ≡ self.ast }
        ensures well_formed { is_valid self.errors ≡ true → IsWellFormedAst result }
        ensures names { is_valid self.errors ≡ true → NamesAreWords result }
    {
        self.ast
    }

    /// Returns whether nothing is wrong with the text.
    pub fn is_valid(&self) -> bool
        ensures { result ≡ is_valid self.now.errors }
    {
        self.errors.is_empty()
    }

    /// Returns the kind of the text.
    pub fn yacc_kind(&self) -> YaccKind
        ensures { result ≡ self.now.kind }
    {
        self.yacc_kind
    }

    /// Returns all that is wrong with the text.
    pub fn errors(&self) -> &[YaccGrammarError]
        ensures { failures_in result.now ≡ self.now.errors }
    {
        self.errors.as_slice()
    }
}

/// Proves that the tree and the errors of a text of a kind are a function of both, and that a text that doesn't read
/// is invalid. The tree shows whether its text is valid, so an invalid one has no warnings.
pub fn one_answer()
    ensures answers { (kind : YaccKind) (text : List ℕ) (c d : CheckedAst) → IsChecked kind text c → IsChecked kind text d → c ≡ d }
    ensures unread { (kind : YaccKind) (text : List ℕ) (fs : List FailureText) → FailsFile kind text fs → is_valid fs ≡ false }
    ensures told { (kind : YaccKind) (text : List ℕ) (c : CheckedAst) → IsChecked kind text c → c.ast.is_valid ≡ is_valid c.errors }
{
    one_file();
}

/// Proves that where nothing is wrong with a text its tree is well formed, whichever rule is made the start rule. Its
/// rules have names of the file grammar, or names that end in `?`.
pub fn valid_trees_are_well_formed()
    ensures kept { (kind : YaccKind) (text : List ℕ) (c : CheckedAst) → IsChecked kind text c → IsWellMade c }
    ensures changed { (old : CheckedAst) (name : List ℕ) (new : CheckedAst) → IsWellMade old → ChangesStart old name new → IsWellMade new }
{}
