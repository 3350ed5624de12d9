//! Answers rows by `lrkit::run`: a file of rows is returned with what is answered to each of its texts in place of the
//! stored answer, so that a file of right answers stays as it is. The program `rows` prints these. `data/kit/worked.rows` of
//! `rows` says the form of the files.
//!
//! A heading, a line `= WORD ..`, tells how the streams of the rows below it behave:
//!
//! - `in:N`: a read gives at most N bytes. `out:N`: a write takes at most N bytes.
//! - `room:N`: behind the first N bytes a write fails. `full:N`: there it takes nothing.
//! - `grammar-fails:N`, `lines-fails:N`, `repairs-fails:N`: read N of that input, counted from one, fails.
//! - `interrupted`: such a read fails as one that was interrupted.
//! - `fault` and one of `rules:N`, `productions:N`, `tokens:N`, `symbols:N`, `states:N`, `cells` or `memory`: below it stand the text
//!   and the status of this fault, which no text of a row comes to.
//! - `grammar-blanks:N`, `lines-blanks:N`, `repairs-blanks:N`: that input has N spaces behind its bytes.
#![tactic(auto)]

mod answer;
mod fault;
mod row;
mod streams;

pub use answer::answer_file;
