//! Answers rows by `grammar_report`: a file of rows is returned with what is answered to each of its texts in place of the
//! stored answer, so that a file of right answers stays as it is. The program `rows` prints these. `row_files` says the form
//! of the files. An answer is the text of the report, each line behind `>`, and then the exit status. A heading `= report
//! WORD ..` asks for `each`, `full`, `states` and `sentences`, as many of them as it names, for messages in `color`, or for the
//! forms `json` and `dot`; `path:PATH` is the path of the texts below it, which is else `g.y`. What stands behind a line `|----` of a text are lines of token names, whose errors are asked for; their path is
//! `g.lines`.
#![tactic(auto)]

mod answer;

pub use answer::answer_file;
