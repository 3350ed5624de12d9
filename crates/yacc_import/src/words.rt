//! The directives of Bison that say nothing about the grammar.

/// These directives. Bison takes an underscore in place of each dash.
const OTHERS: &[&str] = &[
    "%type %union %code %define %param %parse-param %lex-param %destructor %printer %initial-action %require %skeleton %language",
    "%debug %defines %header %default-prec %error-verbose %file-prefix %fixed-output-files %glr-parser %locations %name-prefix",
    "%no-lines %nondeterministic-parser %output %pure-parser %token-table %verbose %yacc",
];

/// Returns whether a word is a known one, but for underscores in place of dashes.
fn is_spelled(word: &str, known: &str) -> bool {
    if word.len() != known.len() {
        return false;
    }
    for (a, b) in word.bytes().zip(known.bytes()) {
        if a != b && (a != b'_' || b != b'-') {
            return false;
        }
    }
    true
}

/// Returns whether a word with its `%` is a directive that says nothing about the grammar.
pub(crate) fn says_nothing(word: &str) -> bool {
    for line in OTHERS {
        for known in line.split(' ') {
            if is_spelled(word, known) {
                return true;
            }
        }
    }
    false
}
