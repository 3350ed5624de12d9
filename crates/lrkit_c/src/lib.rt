//! The kit for callers in C: a static library, whose header is `bindings/c/lrkit.h`.
//!
//! ```c
//! lrkit_parser parser;
//! lrkit_answer made = lrkit_parser_new(grammar, grammar_len, lexer, lexer_len, &parser, message, sizeof message);
//! if (made.status == LRKIT_OK) {
//!     lrkit_answer parsed = lrkit_parse_text(&parser, text, text_len, nodes, 256, &place);
//!     lrkit_parser_free(&parser);
//! }
//! ```
//!
//! Each export is thin over `parser_kit`, `lrlex`, `text_parses`, `grammar_report`, `report_values` or `yacc_import`. Its contract says
//! what it writes: `lrkit_parse` and `lrkit_parse_text` the nodes of the tree that the kit's parse has, or the place of the first error
//! (`AnswersParse`, `AnswersText`), `lrkit_parse_errors` each error with the tokens that may come there and its repairs, in their order
//! (`AnswersErrors`), `lrkit_parse_json` the same as an object (`AnswersObject`), `lrkit_parser_new` a handle of the kit of the text, or
//! a true cause (`MakesParser`), `lrkit_expected` the tokens that a run takes next (`TellsExpected`), `lrkit_report` an outcome that
//! holds for the text (`Reports`). A call that refuses answers a number of `Status`. One type of handle (`LrkitParser`) serves all
//! calls: they take out what it holds, and put it back. The header lists what C must uphold, and so does `bindings/README.md`.
#![tactic(auto)]

mod answers;
mod errors;
mod expected;
mod handle;
mod held;
mod lexemes;
mod lexer_faults;
mod lexing;
mod loose;
mod making;
mod marks;
mod names;
mod nodes;
mod objects;
mod parsing;
mod reading;
mod reports;
mod status;
