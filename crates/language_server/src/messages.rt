//! Messages of the protocol, as the server takes and sends them.

ghost use Rattle.std.specs.Prelude.{◌≡◌};
ghost use Rattle.language_server.specs.Protocol.{code_number, code_text};

use crate::places::Position;

/// The id of a request.
#[derive(Debug, Drop)]
pub enum Id {
    /// A whole number.
    Number(i64),
    /// A text.
    Text(String),
    /// No id: that of an answer to what has none that can be read.
    Null,
}

/// What a request asks for.
#[derive(Clone, Copy, Debug, PartialEq, Eq)]
pub enum Method {
    /// `initialize`.
    Initialize,
    /// `shutdown`.
    Shutdown,
    /// A query about a document.
    Asks(Query),
    /// Any other one.
    Unknown,
}

/// What is asked of a document.
#[derive(Clone, Copy, Debug, PartialEq, Eq)]
pub enum Query {
    /// `textDocument/documentSymbol`.
    Symbols,
    /// `textDocument/foldingRange`.
    Folds,
    /// `textDocument/definition`.
    Definition,
    /// `textDocument/references`.
    References,
    /// `textDocument/documentHighlight`.
    Highlights,
    /// `textDocument/prepareRename`.
    Renamable,
    /// `textDocument/rename`.
    Rename,
    /// `textDocument/completion`.
    Completion,
    /// `textDocument/hover`.
    Hover,
}

/// What a notification says.
#[derive(Clone, Copy, Debug, PartialEq, Eq)]
pub enum Notice {
    /// `exit`.
    Exit,
    /// `textDocument/didOpen`.
    Opened,
    /// `textDocument/didChange`.
    Changed,
    /// `textDocument/didClose`.
    Closed,
    /// Any other one, which is ignored.
    Other,
}

/// The error of a request, or of what is no message.
#[derive(Clone, Copy, Debug, PartialEq, Eq)]
pub enum ErrorCode {
    /// The text is no JSON.
    ParseError,
    /// The JSON is no message, or the request isn't allowed now.
    InvalidRequest,
    /// The server doesn't know the method.
    MethodNotFound,
    /// The request came before `initialize`.
    ServerNotInitialized,
    /// What is asked for is refused.
    RequestFailed,
}

/// A part of a document that is replaced; all of it where there is no range.
#[derive(Debug, Drop)]
pub struct Change {
    /// From where to where.
    pub range: Option<(Position, Position)>,
    /// The new text.
    pub text: String,
}

/// What a message says beside its method, as far as the server uses it.
#[derive(Debug, Drop)]
pub struct Params {
    /// The document.
    pub uri: Option<String>,
    /// Its version.
    pub version: Option<i64>,
    /// Its text.
    pub text: Option<String>,
    /// How it changed, in order.
    pub changes: Vec<Change>,
    /// A place in the document.
    pub place: Option<Position>,
    /// A new name.
    pub new_name: Option<String>,
    /// Whether the client counts columns in bytes, if the server does.
    pub has_utf8: bool,
    /// Whether the client shows places beside a diagnostic.
    pub has_related: bool,
}

/// What came from the client.
#[derive(Debug, Drop)]
pub enum Message {
    /// A request, which is answered.
    Request(Id, Method, Params),
    /// A notification, which isn't.
    Notification(Notice, Params),
    /// An answer, of which the server waits for none.
    Reply,
    /// No message, with the id that it has, if it can be read.
    Malformed(Id, ErrorCode),
}

impl ErrorCode {
    /// Returns the number of the protocol.
    pub fn number(self) -> i64
        ensures { result ≡ code_number self }
    {
        match self {
            ErrorCode::ParseError => -32700,
            ErrorCode::InvalidRequest => -32600,
            ErrorCode::MethodNotFound => -32601,
            ErrorCode::ServerNotInitialized => -32002,
            ErrorCode::RequestFailed => -32803,
        }
    }

    /// Returns the error in words.
    pub fn words(self) -> &'static str
        ensures { result.now ≡ code_text self }
    {
        match self {
            ErrorCode::ParseError => "no JSON",
            ErrorCode::InvalidRequest => "no valid request",
            ErrorCode::MethodNotFound => "unknown method",
            ErrorCode::ServerNotInitialized => "not initialized",
            ErrorCode::RequestFailed => "refused",
        }
    }
}
