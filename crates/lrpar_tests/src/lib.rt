//! Tests of `lrtable`, `parse_trees`, `lrpar`, `word_lines` and `lrlex`. Of the first what needs more than a text and what is
//! printed of its table: item sets by hand, halving over a row, indices of states. Of the next two which data are refused; which
//! tokens may come next; what lines yield, with repairs and without, by each call that parses; how often a parse asks; trees as
//! lists and as texts; texts of errors. Of lines of words their items, the places of these, and texts of repairs. Of lexers by
//! expressions lexemes and errors with their places, ties, start conditions, a long text, and names that one side has. Texts
//! with their states, cells, conflicts and refusals are the rows of the program `table_rows`.
#![tactic(auto)]

#[cfg(test)]
mod flat;
#[cfg(test)]
mod lexer;
#[cfg(test)]
mod lexers;
#[cfg(test)]
mod lines;
#[cfg(test)]
mod make;
#[cfg(test)]
mod nodes;
#[cfg(test)]
mod outcomes;
#[cfg(test)]
mod parserdata;
#[cfg(test)]
mod parses;
#[cfg(test)]
mod paths;
#[cfg(test)]
mod rows;
#[cfg(test)]
mod same;
#[cfg(test)]
mod shown;
#[cfg(test)]
mod spell;
#[cfg(test)]
mod tables;
#[cfg(test)]
mod texts;
#[cfg(test)]
mod trees;
#[cfg(test)]
mod ways;
#[cfg(test)]
mod words;
