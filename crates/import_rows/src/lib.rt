//! Answers rows by `yacc_import`: a file of rows is returned with what is answered to each of its texts in place of the stored
//! answer, so that a file of right answers stays as it is. The program `rows` prints these. `row_files` says the form of the
//! files. An answer is the text of the import, each line behind `>`, or `refused` with the fault and its byte offset. Below a
//! heading `= import notes` the notes follow: the kind, the range in the source, and behind `:` the text that is put. Below a
//! heading `= leave out START-END` or `= put TEXT in START-END` a note of this range is applied, not those that `import` finds.
#![tactic(auto)]

mod answer;

pub use answer::answer_file;
