//! From the text of a message to what it says.

ghost use Rattle.std.specs.Prelude.{◌≡◌, ◌≢◌, Some, IfOk, IfSome, IsSomeAnd, None, codes, option_and_then};
ghost use Rattle.serde_json.specs.Find.{as_i64, as_number, get};
ghost use Rattle.serde_json.specs.View.{view};
ghost use Rattle.language_server.specs.Reading.{IsId, IsMethod, IsNotice, IsRead, Says, method_in, query_text};
ghost use Rattle.language_server.specs.declared.messages.Query.{Query};

use crate::fault::ServeFault;
use crate::messages::{Change, ErrorCode, Id, Message, Method, Notice, Params, Query};
use crate::places::Position;
use serde_json::Value;
use std::alloc::{AllocError, Global};

/// Returns a text within a value, if there is one.
fn text_at(alloc: Global, value: &Value, path: &str) -> Result<Option<String>, AllocError> {
    match value.pointer(path).and_then(Value::as_str) {
        Some(text) => Ok(Some(String::from_str(alloc, text)?)),
        None => Ok(None),
    }
}

/// Returns the place within a value, if there is one.
fn place_at(value: &Value, line: &str, character: &str) -> Option<Position> {
    let line = value.pointer(line).and_then(Value::as_u64)?;
    let character = value.pointer(character).and_then(Value::as_u64)?;
    Some(Position { line, character })
}

/// Returns the range of a change, if there is one.
fn range_of(value: &Value) -> Option<(Position, Position)> {
    let start = place_at(value, "/range/start/line", "/range/start/character")?;
    let end = place_at(value, "/range/end/line", "/range/end/character")?;
    Some((start, end))
}

/// Adds a change.
fn push_change(alloc: Global, changes: &mut Vec<Change>, value: &Value) -> Result<(), AllocError> {
    let Some(text) = text_at(alloc, value, "/text")? else {
        return Ok(());
    };
    let range = range_of(value);
    changes.push(Change { range, text })?;
    Ok(())
}

/// Adds the changes of a document.
fn push_changes(alloc: Global, changes: &mut Vec<Change>, value: &Value) -> Result<(), AllocError> {
    let Some(list) = value
        .pointer("/params/contentChanges")
        .and_then(Value::as_array)
    else {
        return Ok(());
    };
    'changes: for index in 0..list.len() {
        push_change(alloc, changes, &list[index])?;
    }
    Ok(())
}

/// Returns whether the client counts columns in bytes, if the server does.
fn has_utf8(value: &Value) -> bool {
    let path = "/params/capabilities/general/positionEncodings";
    let Some(list) = value.pointer(path).and_then(Value::as_array) else {
        return false;
    };
    for index in 0..list.len() {
        if list[index].as_str() == Some("utf-8") {
            return true;
        }
    }
    false
}

/// Returns whether the client shows places beside a diagnostic.
fn has_related(value: &Value) -> bool {
    let path = "/params/capabilities/textDocument/publishDiagnostics/relatedInformation";
    value
        .pointer(path)
        .and_then(Value::as_bool)
        .unwrap_or(false)
}

/// Fills in what a message says beside its method.
fn fill_params(alloc: Global, params: &mut Params, value: &Value) -> Result<(), AllocError> {
    params.uri = text_at(alloc, value, "/params/textDocument/uri")?;
    params.text = text_at(alloc, value, "/params/textDocument/text")?;
    params.new_name = text_at(alloc, value, "/params/newName")?;
    push_changes(alloc, &mut params.changes, value)
}

/// Returns what a message says beside its method.
fn params_of(alloc: Global, value: &Value) -> Result<Params, AllocError> {
    let version = value
        .pointer("/params/textDocument/version")
        .and_then(Value::as_i64);
    let mut params = Params {
        uri: None,
        version,
        text: None,
        changes: Vec::new(alloc),
        place: place_at(value, "/params/position/line", "/params/position/character"),
        new_name: None,
        has_utf8: has_utf8(value),
        has_related: has_related(value),
    };
    match fill_params(alloc, &mut params, value) {
        Ok(()) => Ok(params),
        Err(e) => {
            drop(params);
            Err(e)
        }
    }
}

/// Returns the query of a name, if there is one.
fn query_of(name: &str) -> Option<Query>
    ensures some { IfSome result (λ query. name.now ≡ query_text query) }
    ensures none { result ≡ None → (query : Query) → name.now ≢ query_text query }
{
    match name {
        "textDocument/documentSymbol" => Some(Query::Symbols),
        "textDocument/foldingRange" => Some(Query::Folds),
        "textDocument/definition" => Some(Query::Definition),
        "textDocument/references" => Some(Query::References),
        "textDocument/documentHighlight" => Some(Query::Highlights),
        "textDocument/prepareRename" => Some(Query::Renamable),
        "textDocument/rename" => Some(Query::Rename),
        "textDocument/completion" => Some(Query::Completion),
        "textDocument/hover" => Some(Query::Hover),
        _ => None,
    }
}

/// Returns the method of a name.
fn method_of(name: &str) -> Method
    ensures { IsMethod result name.now }
{
    match name {
        "initialize" => Method::Initialize,
        "shutdown" => Method::Shutdown,
        _ => match query_of(name) {
            Some(query) => Method::Asks(query),
            None => Method::Unknown,
        },
    }
}

/// Returns the notice of a name.
fn notice_of(name: &str) -> Notice
    ensures { IsNotice result name.now }
{
    match name {
        "exit" => Notice::Exit,
        "textDocument/didOpen" => Notice::Opened,
        "textDocument/didChange" => Notice::Changed,
        "textDocument/didClose" => Notice::Closed,
        _ => Notice::Other,
    }
}

/// Returns the name of a value's method, if there is one.
fn method_name(value: &Value) -> Option<&str>
    ensures some { IfSome result (λ name. method_in (view value.now) ≡ Some name.now) }
    ensures none { result ≡ None → method_in (view value.now) ≡ None }
{
    match value.get("method") {
        Some(method) => method.as_str(),
        None => None,
    }
}

/// Returns the id of a value that is no number: a text, or none.
fn text_id(alloc: Global, value: &Value) -> Result<Id, AllocError>
    requires { option_and_then as_i64 (as_number (view value.now)) ≡ None }
    ensures { IfOk result (IsId (view value.now)) }
{
    match value.as_str() {
        Some(text) => Ok(Id::Text(String::from_str(alloc, text)?)),
        None => Ok(Id::Null),
    }
}

/// Returns the id of a value: a whole number, a text, or none.
fn id_of(alloc: Global, value: &Value) -> Result<Id, AllocError>
    ensures { IfOk result (IsId (view value.now)) }
{
    match value.as_i64() {
        Some(number) => Ok(Id::Number(number)),
        None => text_id(alloc, value),
    }
}

/// Returns whether a value is an answer.
fn is_reply(value: &Value) -> bool {
    value.get("result").is_some() || value.get("error").is_some()
}

/// Returns what a value says that has an id and no method.
fn without_method(value: &Value, id: Id) -> Message
    requires named { method_in (view value.now) ≡ None }
    requires same { IsSomeAnd (get (codes "id") (view value.now)) (λ i. IsId i id) }
    ensures { Says (view value.now) result }
{
    if is_reply(value) {
        drop(id);
        return Message::Reply;
    }
    Message::Malformed(id, ErrorCode::InvalidRequest)
}

/// Returns what a value says that has an id.
fn with_id(alloc: Global, value: &Value, id: &Value) -> Result<Message, AllocError>
    requires { get (codes "id") (view value.now) ≡ Some (view id.now) }
    ensures { IfOk result (Says (view value.now)) }
{
    let id = id_of(alloc, id)?;
    match method_name(value) {
        Some(name) => with_method(alloc, value, id, method_of(name)),
        None => Ok(without_method(value, id)),
    }
}

/// Returns a request.
fn with_method(alloc: Global, value: &Value, id: Id, method: Method) -> Result<Message, AllocError>
    requires named { IsSomeAnd (method_in (view value.now)) (IsMethod method) }
    requires same { IsSomeAnd (get (codes "id") (view value.now)) (λ i. IsId i id) }
    ensures { IfOk result (Says (view value.now)) }
{
    if let Id::Null = id {
        return Ok(Message::Malformed(id, ErrorCode::InvalidRequest));
    }
    match params_of(alloc, value) {
        Ok(params) => Ok(Message::Request(id, method, params)),
        Err(e) => {
            drop(id);
            Err(e)
        }
    }
}

/// Returns what a value says that has no id.
fn without_id(alloc: Global, value: &Value) -> Result<Message, AllocError>
    requires { get (codes "id") (view value.now) ≡ None }
    ensures { IfOk result (Says (view value.now)) }
{
    match method_name(value) {
        Some(name) => {
            let params = params_of(alloc, value)?;
            Ok(Message::Notification(notice_of(name), params))
        }
        None => Ok(Message::Malformed(Id::Null, ErrorCode::InvalidRequest)),
    }
}

/// Returns what a value says.
pub fn message_of(alloc: Global, value: &Value) -> Result<Message, AllocError>
    ensures { IfOk result (Says (view value.now)) }
{
    match value.get("id") {
        Some(id) => with_id(alloc, value, id),
        None => without_id(alloc, value),
    }
}

/// Returns what the bytes of a message say.
pub fn read_message(alloc: Global, bytes: &[u8]) -> Result<Message, ServeFault>
    ensures { IfOk result (IsRead bytes.now) }
{
    let value = match Value::from_slice(alloc, bytes) {
        Ok(value) => value,
        Err(e) if e.is_memory() => return Err(ServeFault::Unwritten),
        Err(_) => return Ok(Message::Malformed(Id::Null, ErrorCode::ParseError)),
    };
    let message = message_of(alloc, &value);
    drop(value);
    match message {
        Ok(message) => Ok(message),
        Err(e) => Err(ServeFault::Memory(e)),
    }
}
