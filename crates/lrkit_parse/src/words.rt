//! The arguments.

ghost use Rattle.std.specs.Prelude.{◌≡◌, IfOk, IfSome, IsTrue, None};
ghost use Rattle.lrkit_parse.specs.Calls.{IsComplete, IsCompleteCall, IsNoParse};
ghost use Rattle.lrkit_parse.specs.Paths.{path_at};

use std::alloc::{AllocError, Global};
use std::env::Args;
use text_parses::Form;

/// How many edits a repair has at most where the arguments don't say.
const EDITS: usize = 3;

/// What is to be parsed.
#[derive(Drop)]
pub struct Words {
    /// The paths of the grammar, the lexer and the texts, in this order.
    pub paths: Vec<String>,
    /// How trees are written.
    pub form: Form,
    /// How many lexemes a repair deletes and inserts at most.
    pub edits: usize,
    /// Whether repairs are listed.
    pub listed: bool,
    /// Whether the grammar is said to be a Bison file.
    pub bison: bool,
    /// Whether the tokens are told that may come at the first error, else at the end.
    pub next: bool,
    /// Whether the second path is that of a file whose lines are the texts, as names of tokens.
    pub lines: bool,
}

/// What the arguments ask for.
#[derive(Drop)]
pub enum Call {
    /// Parses.
    Parse(Words),
    /// How the program is called.
    Help,
    /// The form of what it writes.
    Version,
    /// Nothing that can be done.
    Wrong,
}

impl Words {
    /// Returns a path, as it was given; nothing where there is none of this number.
    pub fn path(&self, index: usize) -> &str
        ensures { result.now ≡ path_at self.now.paths.items index }
    {
        match self.paths.as_slice().get(index) {
            Some(path) => path.as_str(),
            None => "",
        }
    }

    /// Returns whether there are a grammar and a file of lines, or a grammar, a lexer and a text.
    fn has_paths(&self) -> bool
        ensures { IsTrue result → IsComplete self.now }
    {
        let count = self.paths.len();
        if self.lines { count == 2 } else { count >= 3 }
    }

    /// Returns whether there is a text, standard input is no more than one of the files, and a graph is written of whole files and
    /// without notes.
    fn is_complete(&self) -> bool
        ensures { IsTrue result → IsComplete self.now }
    {
        let mut inputs: usize = 0;
        'paths: for path in &self.paths {
            if path.as_str() == "-" {
                inputs = inputs.saturating_add(1);
            }
        }
        let fits = self.form != Form::Dot || !(self.next || self.lines);
        self.has_paths() && inputs <= 1 && fits
    }
}

/// Returns the form that an option asks for, if it asks for one.
fn form_of(word: &str) -> Option<Form> {
    match word {
        "--tree" => Some(Form::Tree),
        "--sexp" => Some(Form::Sexp),
        "--json" => Some(Form::Json),
        "--dot" => Some(Form::Dot),
        "--quiet" => Some(Form::Quiet),
        _ => None,
    }
}

/// Returns what an option asks for that asks for no form.
fn call_of(word: &str) -> Call
    ensures { IsNoParse result }
{
    match word {
        "--help" => Call::Help,
        "--version" => Call::Version,
        _ => Call::Wrong,
    }
}

/// Takes an option without a value, and returns whether it is one.
fn take_option(read: &mut Words, word: &str) -> bool {
    match word {
        "--bison" => read.bison = true,
        "--next" => read.next = true,
        "--lines" => read.lines = true,
        _ => match form_of(word) {
            Some(form) => read.form = form,
            None => return false,
        },
    }
    true
}

/// Takes the number of edits, and returns whether the word is one.
fn take_edits(read: &mut Words, word: &str) -> bool {
    match word.parse::<usize>() {
        Ok(edits) => {
            read.edits = edits;
            read.listed = true;
            true
        }
        Err(_) => false,
    }
}

/// Takes the words behind the program's name, and returns another call where they ask for one. Behind `--` each word is a path.
fn take_words(read: &mut Words, words: Args) -> Result<Option<Call>, AllocError>
    ensures complete { IfOk result (λ call. call ≡ None → IsComplete read.new) }
    ensures other { IfOk result (λ call. IfSome call IsNoParse) }
{
    let mut only_paths = false;
    let mut wants_edits = false;
    'words: for word in words {
        if wants_edits {
            wants_edits = false;
            if !take_edits(read, word.as_str()) {
                return Ok(Some(Call::Wrong));
            }
        } else if only_paths || !word.as_str().starts_with("--") {
            read.paths.push(word)?;
        } else if word.as_str() == "--" {
            only_paths = true;
        } else if word.as_str() == "--repairs" {
            wants_edits = true;
        } else if !take_option(read, word.as_str()) {
            return Ok(Some(call_of(word.as_str())));
        }
    }
    if wants_edits || !read.is_complete() {
        return Ok(Some(Call::Wrong));
    }
    Ok(None)
}

/// Returns what the arguments ask for.
pub fn read_words(alloc: Global, mut words: Args) -> Result<Call, AllocError>
    ensures { IfOk result IsCompleteCall }
{
    let _program = words.next();
    let mut read = Words {
        paths: Vec::new(alloc),
        form: Form::Tree,
        edits: EDITS,
        listed: false,
        bison: false,
        next: false,
        lines: false,
    };
    match take_words(&mut read, words) {
        Ok(None) => Ok(Call::Parse(read)),
        Ok(Some(call)) => {
            drop(read);
            Ok(call)
        }
        Err(e) => {
            drop(read);
            Err(e)
        }
    }
}
