//! The arguments.

ghost use Rattle.std.specs.Prelude.{◌≡◌, codes, IfOk, IsSome};
ghost use Rattle.clap.specs.Matches.{first_value, found_of};
ghost use Rattle.lrkit_check.specs.Asked.{HasForm, lent, path_of};
ghost use Rattle.lrkit_check.specs.declared.words.Shape.TheVariants.{Html};

use crate::fault::Input;
use clap::error::ErrorKind;
use clap::{Arg, ArgAction, ArgMatches, Command, Error};
use std::alloc::{AllocError, Global};

/// The form of a report.
#[derive(Clone, Copy, PartialEq, Eq)]
pub enum Shape {
    /// For a person.
    Text,
    /// One JSON object.
    Json,
    /// The states for Graphviz.
    Dot,
    /// A page.
    Html,
}

/// What a report is asked for.
#[derive(Clone, Copy)]
pub struct Words<'a> {
    /// The path of the grammar.
    pub grammar: &'a str,
    /// The path of the lines, where their errors are asked for.
    pub lines: Option<&'a str>,
    /// The path of the page, where one is asked for.
    pub page: Option<&'a str>,
    /// Whether the grammar is said to be a Bison file.
    pub bison: bool,
    /// Whether each conflict is to have a block.
    pub each: bool,
    /// Whether examples are to begin at the start.
    pub full: bool,
    /// Whether the closed states are asked for.
    pub states: bool,
    /// Whether a sentence of each rule is asked for.
    pub sentences: bool,
    /// Whether messages are to be in color.
    pub color: bool,
    /// The form of the report.
    pub shape: Shape,
}

impl<'a> Words<'a> {
    /// Returns the path of a file, as it was given.
    pub fn path(&self, input: Input) -> &'a str
        ensures { result.now ≡ path_of self.now input }
    {
        match input {
            Input::Grammar => self.grammar,
            Input::Lines => self.lines.unwrap_or(""),
            Input::Page => self.page.unwrap_or(""),
        }
    }
}

/// Makes an option without a value, which may be repeated.
fn flag(alloc: Global, name: &str) -> Result<Arg<'_>, AllocError> {
    let arg = Arg::new(alloc, name).long(name).action(ArgAction::SetTrue);
    arg.overrides_with(name)
}

/// Makes an option whose value is the path that comes next.
fn path_option<'a>(alloc: Global, name: &'a str, value: &'a str) -> Arg<'a> {
    Arg::new(alloc, name).long(name).value_name(value)
}

/// Refuses what only a report for a person has.
fn without_parts(arg: Arg<'_>) -> Result<Arg<'_>, AllocError> {
    arg.conflicts_with("states")?
        .conflicts_with("sentences")?
        .conflicts_with("next")
}

/// Refuses what only a report for a person and one object have.
fn without_examples(arg: Arg<'_>) -> Result<Arg<'_>, AllocError> {
    without_parts(arg)?
        .conflicts_with("each")?
        .conflicts_with("full")
}

/// Makes the options of the forms, of which one may be asked for.
fn with_forms<'a>(alloc: Global, command: Command<'a>) -> Result<Command<'a>, AllocError> {
    let json = without_parts(flag(alloc, "json")?)?;
    let dot = without_examples(flag(alloc, "dot")?)?.conflicts_with("json")?;
    let page = without_examples(path_option(alloc, "html", "FILE"))?
        .conflicts_with("json")?
        .conflicts_with("dot")?;
    command.arg(json)?.arg(dot)?.arg(page)
}

/// Makes what reads the words.
fn command<'a>(alloc: Global) -> Result<Command<'a>, AllocError> {
    let color = Arg::new(alloc, "color")
        .long("color")
        .value_name("WHEN")
        .value_parser(["always", "never"].as_slice())
        .require_equals(true)
        .overrides_with("color")?;
    let command = Command::new(alloc, "lrkit-check")
        .version("")
        .no_binary_name(true)
        .arg(Arg::new(alloc, "GRAMMAR").required(true))?
        .arg(flag(alloc, "bison")?)?
        .arg(flag(alloc, "each")?)?
        .arg(flag(alloc, "full")?)?
        .arg(flag(alloc, "states")?)?
        .arg(flag(alloc, "sentences")?)?
        .arg(path_option(alloc, "next", "LINES"))?
        .arg(color)?;
    with_forms(alloc, command)
}

/// Returns the form that is asked for.
fn shape_of(matches: &ArgMatches<'_>) -> Shape
    ensures { result ≡ Html → IsSome (first_value (found_of matches.now) (codes "html")) }
{
    if matches.get_flag("json") {
        Shape::Json
    } else if matches.get_flag("dot") {
        Shape::Dot
    } else if matches.get_str("html").is_some() {
        Shape::Html
    } else {
        Shape::Text
    }
}

/// Refuses standard input as both the grammar and the lines.
fn reads_twice(alloc: Global) -> Result<Error, AllocError> {
    let mut command = command(alloc)?;
    let words = "standard input can't be both the grammar and the lines";
    command.error(ErrorKind::ArgumentConflict, words)
}

/// Returns what the arguments behind the program's name ask for, or the text for who called it otherwise. The values of the
/// arguments are as clap reads them.
pub fn read_words<'a>(alloc: Global, args: &'a [String]) -> Result<Words<'a>, Error>
    ensures page { IfOk result HasForm }
    ensures input { IfOk result (λ w. w.grammar.now ≡ codes "-" → lent w.lines ≡ codes "-" → ⊥) }
{
    let command = command(alloc)?;
    let matches = command.try_get_matches_from(args)?;
    let words = Words {
        grammar: matches.get_str("GRAMMAR").unwrap_or(""),
        lines: matches.get_str("next"),
        page: matches.get_str("html"),
        bison: matches.get_flag("bison"),
        each: matches.get_flag("each"),
        full: matches.get_flag("full"),
        states: matches.get_flag("states"),
        sentences: matches.get_flag("sentences"),
        color: matches.get_str("color") == Some("always"),
        shape: shape_of(&matches),
    };
    drop(matches);
    if words.grammar == "-" && words.lines == Some("-") {
        return Err(reads_twice(alloc)?);
    }
    Ok(words)
}
