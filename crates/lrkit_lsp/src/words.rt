//! The arguments.

use clap::{Arg, Command, Error};
use std::alloc::{AllocError, Global};

/// What the arguments ask for.
#[derive(Clone, Copy)]
pub enum Call<'a> {
    /// To serve grammar files.
    Grammars,
    /// To serve texts, by the paths of a grammar and of a lexer.
    Texts(&'a str, &'a str),
    /// Nothing that can be done.
    Wrong,
}

/// Makes what reads the words.
fn command<'a>(alloc: Global) -> Result<Command<'a>, AllocError> {
    let grammar = Arg::new(alloc, "grammar")
        .long("grammar")
        .value_name("GRAMMAR");
    let lexer = Arg::new(alloc, "lexer").long("lexer").value_name("LEXER");
    Command::new(alloc, "lrkit-lsp")
        .no_binary_name(true)
        .arg(grammar)?
        .arg(lexer)
}

/// Returns what the arguments behind the program's name ask for. The values of the arguments are as clap reads them.
pub fn read_words<'a>(alloc: Global, args: &'a [String]) -> Result<Call<'a>, Error> {
    let command = command(alloc)?;
    let matches = command.try_get_matches_from(args)?;
    let call = match (matches.get_str("grammar"), matches.get_str("lexer")) {
        (None, None) => Call::Grammars,
        (Some(grammar), Some(lexer)) => Call::Texts(grammar, lexer),
        _ => Call::Wrong,
    };
    drop(matches);
    Ok(call)
}
