//! Answers rows by `cfg_read`: a file of rows is returned with what is answered to each of its texts in place of the stored
//! answer, so that a file of right answers stays as it is. The program `rows` prints these. `row_files` says the form of the
//! files.
#![tactic(auto)]

mod answer;
mod header;
mod tree;

pub use answer::answer_file;
