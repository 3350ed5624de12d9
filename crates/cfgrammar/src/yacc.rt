//! Yacc grammars: what `cfg_read` reads of a text, and the grammar values made of it.

pub mod from_ast;
pub mod grammar;

pub use cfg_base::span::SpansKind;
pub use cfg_numbered::yacc::NumberedGrammar;
pub use cfg_read::yacc::{
    ASTModificationError, ASTWithValidityInfo, AssocKind, KindError, Name, Precedence,
    PrecedenceLevel, YaccGrammarError, YaccGrammarErrorKind, YaccGrammarFailure, YaccGrammarResult,
    YaccGrammarWarning, YaccGrammarWarningKind, YaccKind, YaccOriginalActionKind, ast, parser,
    validity,
};
pub use cfg_sentences::{CostError, SentenceError, SentenceGenerator, sentences};
pub use cfg_sets::{YaccFirsts, YaccFollows, firsts, follows, sets};
pub use from_ast::{TooMany, YaccGrammarMakeError};
pub use grammar::YaccGrammar;
