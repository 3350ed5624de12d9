//! How a call ended, as a number.

ghost use Rattle.std.specs.Prelude.{◌≡◌, ◌<◌, IfNone, IfSome};
ghost use Rattle.lrkit_c.specs.Answers.{number_of, text_of};

/// How a call ended.
#[derive(Clone, Copy, Debug, PartialEq, Eq)]
pub enum Status {
    /// It did what it is for.
    Done,
    /// Memory is refused.
    Memory,
    /// A text is not UTF-8.
    NotUtf8,
    /// The room is too small: nothing is written, and the count says how much is wanted.
    Room,
    /// The grammar's text gives no parser.
    Grammar,
    /// The lexer's text gives no lexer.
    Lexer,
    /// The file can't be imported.
    File,
    /// No lexeme is at a place of the text.
    Unlexed,
    /// The lexemes are no sentence.
    Syntax,
    /// A lexeme is of no token, or starts before the one in front of it.
    Lexemes,
    /// There is no such name or number.
    Unknown,
    /// The parser was made without a lexer.
    NoLexer,
}

impl Status {
    /// Returns the number that C sees.
    pub fn number(self) -> u32
        ensures { result ≡ number_of self }
    {
        match self {
            Status::Done => 0,
            Status::Memory => 1,
            Status::NotUtf8 => 2,
            Status::Room => 3,
            Status::Grammar => 4,
            Status::Lexer => 5,
            Status::File => 6,
            Status::Unlexed => 7,
            Status::Syntax => 8,
            Status::Lexemes => 9,
            Status::Unknown => 10,
            Status::NoLexer => 11,
        }
    }

    /// Returns the status of a number, if it is one's.
    pub fn of_number(number: u32) -> Option<Status>
        ensures some { IfSome result (λ s. number_of s ≡ number) }
        ensures none { IfNone result (11 < number) }
    {
        match number {
            0 => Some(Status::Done),
            1 => Some(Status::Memory),
            2 => Some(Status::NotUtf8),
            3 => Some(Status::Room),
            4 => Some(Status::Grammar),
            5 => Some(Status::Lexer),
            6 => Some(Status::File),
            7 => Some(Status::Unlexed),
            8 => Some(Status::Syntax),
            9 => Some(Status::Lexemes),
            10 => Some(Status::Unknown),
            11 => Some(Status::NoLexer),
            _ => None,
        }
    }

    /// Returns its text.
    pub fn text(self) -> &'static str
        ensures { result.now ≡ text_of self }
    {
        match self {
            Status::Done => "done",
            Status::Memory => "out of memory",
            Status::NotUtf8 => "a text is not UTF-8",
            Status::Room => "the room is too small",
            Status::Grammar => "the grammar's text gives no parser",
            Status::Lexer => "the lexer's text gives no lexer",
            Status::File => "the file can't be imported",
            Status::Unlexed => "no lexeme is at a place of the text",
            Status::Syntax => "the lexemes are no sentence",
            Status::Lexemes => "a lexeme is of no token, or starts before the one in front of it",
            Status::Unknown => "there is no such name or number",
            Status::NoLexer => "the parser was made without a lexer",
        }
    }
}
