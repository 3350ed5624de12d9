//! Answers rows by `lrpar_diagnostics`: a file of rows is returned with what is answered to each of its texts in place of
//! the stored answer, so that a file of right answers stays as it is. The program `rows` prints these. `row_files` says the
//! form of the files. An answer is a text, each line of which stands between `>` and `<`, with a CR as `\r`: a text that
//! ends with an LF ends with an empty line. The path of each text is `g.y`.
//!
//! - `= underlined MARK SPAN MESSAGE` and `= prefixed PREFIX MARK SPAN MESSAGE` ask for the span's underline.
//! - `= located SPAN MESSAGE` and `= unlocated MESSAGE` ask for the message with its place.
//! - `= repeated SPAN,.. MESSAGE` and `= faulty SPAN,.. MESSAGE` ask for an error with these spans: of what should stand
//!   once, or of where the error is. The answer to a warning is told where it is another.
//! - `= KIND errors` asks for the errors and the warnings of a grammar's text, `= KIND conflicts` for its conflicts.
//! - `= parsing SPAN SEQUENCE ..` and `= lexing SPAN` ask for the text of an error there. The steps of a sequence stand
//!   between commas: `d1-2` deletes, `s1-2` shifts, `i0` and `i1` insert `y` and `z`.
//! - `= ordinals` asks for each word of the text as a number that tells an order.
#![tactic(auto)]

mod answer;
mod conflicts;
mod errors;
mod fitting;
mod lines;
mod repairs;
mod spans;

pub use answer::answer_file;
