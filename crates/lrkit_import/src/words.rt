//! The arguments.

ghost use Rattle.std.specs.Prelude.{◌≡◌, List, option_map, string_bytes, map, length, drop};
ghost use Rattle.std.specs.Vec.Iter.{into_iter_items, into_iter_len};
ghost use Rattle.lrkit_import.specs.Calls.{words_of, is_path, is_out, call_of_three, call_of_one, call_in};

use std::env::Args;

/// What the arguments say.
#[derive(Drop)]
pub struct Words {
    /// The path of the file.
    pub file: String,
    /// Where the text goes; to standard output if it is none.
    pub out: Option<String>,
}

/// Returns whether a word may be the path of the file.
fn is_path(word: &[u8]) -> bool
    ensures { result ≡ is_path word.now }
{
    match word {
        [] => true,
        [b, ..] => *b != b'-',
    }
}

/// Returns whether the word behind this one is the path of the output.
fn is_out(word: &[u8]) -> bool
    ensures { result ≡ is_out word.now }
{
    word == b"-o".as_slice()
}

/// Returns what one word says.
fn read_one(file: String) -> Option<Words>
    ensures { option_map words_of result ≡ call_of_one (string_bytes file) }
{
    if is_path(file.as_bytes()) {
        Some(Words { file, out: None })
    } else {
        None
    }
}

/// Returns what three words say.
fn read_three(first: String, second: String, third: String) -> Option<Words>
    ensures { option_map words_of result ≡ call_of_three (string_bytes first) (string_bytes second) (string_bytes third) }
{
    if is_out(first.as_bytes()) && is_path(third.as_bytes()) {
        return Some(Words {
            file: third,
            out: Some(second),
        });
    }
    if is_path(first.as_bytes()) && is_out(second.as_bytes()) {
        return Some(Words {
            file: first,
            out: Some(third),
        });
    }
    None
}

/// Returns what the arguments say behind the program's name; none where they say nothing that can be done.
pub fn read_words(mut words: Args) -> Option<Words>
    ensures { into_iter_len words ≡ length (into_iter_items words) → option_map words_of result ≡ call_in (map string_bytes (into_iter_items words)) }
{
    let _program = words.next();
    match (words.next(), words.next(), words.next(), words.next()) {
        (Some(file), None, _, _) => read_one(file),
        (Some(first), Some(second), Some(third), None) => read_three(first, second, third),
        _ => None,
    }
}
