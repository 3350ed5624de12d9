//! Types at the paths of the Rust crates. A path that is missing here fails to compile.

use cfgrammar::precedence::Precedence;
pub use cfgrammar::steps::Steps;
use cfgrammar::yacc::Name;
use cfgrammar::yacc::ast::ASTModificationError;
use lrpar::parser::{AStackType, LexParseError, Node, ParseError, ParseRepair, RTParserBuilder};
use lrpar::{Cell, DefaultLexeme, DefaultLexerTypes, NoRecovery, Parts};
use lrtable::statetable::Conflicts;
pub use vob::{Block, Word};
use vob::{Iter, IterSetBits, IterUnsetBits, RawVob, StorageIter, VobError, VobRecord};

/// Types of `vob`.
type Bits<'a> = (
    Iter<'a, u8>,
    IterSetBits<'a, u8>,
    IterUnsetBits<'a, u8>,
    StorageIter<'a, u8>,
    RawVob<u8>,
    VobRecord,
    VobError,
);

/// Types of `cfgrammar` and `lrtable`.
type Grammars = (Precedence, Name, ASTModificationError, Conflicts<u8>);

/// Types of `lrpar`.
type Parsers<'a> = (
    AStackType<DefaultLexeme<u8>, u8>,
    LexParseError<DefaultLexerTypes<u8>>,
    ParseError<DefaultLexeme<u8>, u8>,
    Node<DefaultLexeme<u8>, u8>,
    ParseRepair<DefaultLexeme<u8>, u8>,
    RTParserBuilder<'a, DefaultLexerTypes<u8>, NoRecovery>,
    Cell<u8>,
    Parts<u8>,
);
