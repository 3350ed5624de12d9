//! Answers rows by `cfgrammar`: a file of rows is returned with what is answered to each of its texts in place of the stored
//! answer, so that a file of right answers stays as it is. The program `rows` prints these. `row_files` says the form of the
//! files. The second word of a heading tells what is asked.
#![tactic(auto)]

mod answer;
mod costs;
mod kept;
mod make;
mod numbers;
mod sets;

pub use answer::answer_file;
