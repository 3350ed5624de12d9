//! The server: a state, and what it does with a message.

ghost use Rattle.std.specs.Prelude.{◌≡◌, IfOk, OnOk, None, Some};
ghost use Rattle.language_server.specs.Protocol.{Answers, IsAnswered, MayFail, MayGive, error_in, phase_after, phase_behind, status_after, status_in, status_on};
ghost use Rattle.language_server.specs.declared.answers.Response.{Response};

use crate::answers::{Answer, Offers, Published, Response};
use crate::asked::Asked;
use crate::diagnostics::{View, push_too_long};
use crate::documents::{Document, with_changes};
use crate::fault::ServeFault;
use crate::languages::Language;
use crate::messages::{Change, ErrorCode, Id, Message, Method, Notice, Params, Query};
use crate::places::{Encoding, Lines};
use byte_streams::MOST_BYTES;
use std::alloc::{AllocError, Global};
use std::collections::BTreeMap;

/// How far the session has come.
#[derive(Clone, Copy, Debug, PartialEq, Eq)]
pub enum Phase {
    /// `initialize` hasn't come.
    Fresh,
    /// Requests are answered.
    Ready,
    /// `shutdown` has come.
    Stopped,
}

/// The state between two messages.
#[derive(Drop)]
pub struct Server {
    /// How far the session has come.
    pub phase: Phase,
    /// In what columns count.
    pub encoding: Encoding,
    /// Whether the client shows places beside a diagnostic.
    pub has_related: bool,
    /// The open documents by their names.
    pub documents: BTreeMap<String, Document>,
}

/// What is done with a message.
#[derive(Debug, Drop)]
pub struct Taken {
    /// The answer to it, if it gets one.
    pub response: Option<Response>,
    /// The diagnostics that it brings about, if it does.
    pub published: Option<Published>,
    /// The status that the server ends with, if it ends.
    pub status: Option<u8>,
}

/// Returns what is done with a message that gets this answer alone.
fn with_response(response: Option<Response>) -> Taken
    ensures response { result.response ≡ response }
    ensures status { result.status ≡ None }
{
    Taken {
        response,
        published: None,
        status: None,
    }
}

/// Returns what is done with a message that brings diagnostics about.
fn with_published(published: Option<Published>) -> Taken
    ensures response { result.response ≡ None }
    ensures status { result.status ≡ None }
{
    Taken {
        response: None,
        published,
        status: None,
    }
}

/// Returns what is done with a message that ends the server.
fn with_status(status: u8) -> Taken
    ensures response { result.response ≡ None }
    ensures status { result.status ≡ Some status }
{
    Taken {
        response: None,
        published: None,
        status: Some(status),
    }
}

impl Phase {
    /// Returns the status that the server ends with.
    pub fn status(self) -> u8
        ensures { result ≡ status_in self }
    {
        match self {
            Phase::Fresh => 1,
            Phase::Ready => 1,
            Phase::Stopped => 0,
        }
    }
}

impl Server {
    /// Makes the server of a session that hasn't begun.
    pub fn new(alloc: Global) -> Server
        ensures { result.phase ≡ Phase.Fresh }
    {
        Server {
            phase: Phase::Fresh,
            encoding: Encoding::Utf16,
            has_related: false,
            documents: BTreeMap::new(alloc),
        }
    }

    /// Begins the session with what the client can do.
    fn initialize(&mut self, offers: Offers, params: &Params) -> Answer
        ensures answer { error_in result ≡ None }
        ensures phase { self.new.phase ≡ Phase.Ready }
    {
        self.phase = Phase::Ready;
        self.has_related = params.has_related;
        if params.has_utf8 {
            self.encoding = Encoding::Utf8;
        }
        Answer::Initialized(offers, self.encoding)
    }

    /// Answers a request before the session has begun.
    fn answer_fresh(&mut self, offers: Offers, method: Method, params: &Params) -> Answer
        requires { self.old.phase ≡ Phase.Fresh }
        ensures answer { MayGive Phase.Fresh method (error_in result) }
        ensures phase { self.new.phase ≡ phase_behind Phase.Fresh method }
    {
        match method {
            Method::Initialize => self.initialize(offers, params),
            Method::Shutdown => Answer::Error(ErrorCode::ServerNotInitialized),
            Method::Asks(_) => Answer::Error(ErrorCode::ServerNotInitialized),
            Method::Unknown => Answer::Error(ErrorCode::ServerNotInitialized),
        }
    }

    /// Makes the index of a document, if it is open and has none.
    fn make_index<L: Language>(
        &mut self,
        alloc: Global,
        language: &L,
        uri: &str,
    ) -> Result<(), AllocError>
        ensures { self.new.phase ≡ self.old.phase }
    {
        match self.documents.get_mut(uri) {
            Some(document) => document.make_index(alloc, language),
            None => Ok(()),
        }
    }

    /// Answers what is asked of a document with an index. One that isn't open has nothing.
    fn ask_of<L: Language>(
        &self,
        alloc: Global,
        language: &L,
        uri: &str,
        query: Query,
        params: &Params,
    ) -> Result<Answer, ServeFault>
        ensures { IfOk result (λ a. MayFail (error_in a) query) }
    {
        let Some(document) = self.documents.get(uri) else {
            return Ok(Answer::Done);
        };
        let Some(index) = &document.index else {
            return Ok(Answer::Done);
        };
        let asked = Asked {
            uri,
            text: document.text.as_str(),
            index,
            lines: &document.lines,
            encoding: self.encoding,
        };
        language.answer(alloc, &asked, query, params)
    }

    /// Answers what is asked of a document. The first query of a version makes its index.
    fn ask<L: Language>(
        &mut self,
        alloc: Global,
        language: &L,
        query: Query,
        params: &Params,
    ) -> Result<Answer, ServeFault>
        ensures answer { IfOk result (λ a. MayFail (error_in a) query) }
        ensures phase { self.new.phase ≡ self.old.phase }
    {
        let Some(uri) = &params.uri else {
            return Ok(Answer::Done);
        };
        self.make_index(alloc, language, uri.as_str())?;
        self.ask_of(alloc, language, uri.as_str(), query, params)
    }

    /// Answers a request within the session.
    fn answer_ready<L: Language>(
        &mut self,
        alloc: Global,
        language: &L,
        method: Method,
        params: &Params,
    ) -> Result<Answer, ServeFault>
        requires { self.old.phase ≡ Phase.Ready }
        ensures answer { IfOk result (λ a. MayGive Phase.Ready method (error_in a)) }
        ensures phase { OnOk result (self.new.phase ≡ phase_behind Phase.Ready method) }
    {
        match method {
            Method::Initialize => Ok(Answer::Error(ErrorCode::InvalidRequest)),
            Method::Shutdown => {
                self.phase = Phase::Stopped;
                Ok(Answer::Done)
            }
            Method::Asks(query) => self.ask(alloc, language, query, params),
            Method::Unknown => Ok(Answer::Error(ErrorCode::MethodNotFound)),
        }
    }

    /// Answers a request.
    fn answer<L: Language>(
        &mut self,
        alloc: Global,
        language: &L,
        method: Method,
        params: &Params,
    ) -> Result<Answer, ServeFault>
        ensures answer { IfOk result (λ a. MayGive self.old.phase method (error_in a)) }
        ensures phase { OnOk result (self.new.phase ≡ phase_behind self.old.phase method) }
    {
        match self.phase {
            Phase::Fresh => Ok(self.answer_fresh(language.offers(), method, params)),
            Phase::Ready => self.answer_ready(alloc, language, method, params),
            Phase::Stopped => Ok(Answer::Error(ErrorCode::InvalidRequest)),
        }
    }

    /// Answers a request, with its id.
    fn respond<L: Language>(
        &mut self,
        alloc: Global,
        language: &L,
        id: Id,
        method: Method,
        params: &Params,
    ) -> Result<Taken, ServeFault>
        ensures response { IfOk result (λ t. Answers id (MayGive self.old.phase method) t.response) }
        ensures phase { OnOk result (self.new.phase ≡ phase_behind self.old.phase method) }
        ensures status { IfOk result (λ t. t.status ≡ None) }
    {
        match self.answer(alloc, language, method, params) {
            Ok(answer) => Ok(with_response(Some(Response { id, answer }))),
            Err(e) => {
                drop(id);
                Err(e)
            }
        }
    }

    /// Fills in the diagnostics of a document.
    fn fill<L: Language>(
        &self,
        alloc: Global,
        language: &L,
        published: &mut Published,
        text: &str,
        lines: &Lines,
    ) -> Result<(), ServeFault> {
        if text.len() > MOST_BYTES {
            push_too_long(alloc, &mut published.diagnostics)?;
            return Ok(());
        }
        let view = View {
            uri: published.uri.as_str(),
            text,
            lines,
            encoding: self.encoding,
            has_related: self.has_related,
        };
        language.push_found(alloc, &view, &mut published.diagnostics)
    }

    /// Stores a document's text, and publishes its diagnostics.
    fn store<L: Language>(
        &mut self,
        alloc: Global,
        language: &L,
        uri: String,
        version: Option<i64>,
        text: String,
    ) -> Result<Taken, ServeFault>
        ensures response { IfOk result (λ t. t.response ≡ None) }
        ensures status { IfOk result (λ t. t.status ≡ None) }
        ensures phase { OnOk result (self.new.phase ≡ self.old.phase) }
    {
        let lines = Lines::of_text(alloc, text.as_str())?;
        let diagnostics = Vec::new(alloc);
        let name = String::from_str(alloc, uri.as_str())?;
        let mut published = Published {
            uri: name,
            version,
            diagnostics,
        };
        if let Err(e) = self.fill(alloc, language, &mut published, text.as_str(), &lines) {
            drop(published);
            return Err(e);
        }
        if let Err(e) = self.put(uri, Document::new(text, lines)) {
            drop(published);
            return Err(e);
        }
        Ok(with_published(Some(published)))
    }

    /// Puts a document in the place of what was there.
    fn put(&mut self, uri: String, document: Document) -> Result<(), ServeFault>
        ensures { OnOk result (self.new.phase ≡ self.old.phase) }
    {
        match self.documents.insert(uri, document) {
            Ok(old) => {
                drop(old);
                Ok(())
            }
            Err(_) => Err(ServeFault::Unwritten),
        }
    }

    /// Changes a document, and publishes its diagnostics.
    fn change<L: Language>(
        &mut self,
        alloc: Global,
        language: &L,
        uri: String,
        version: Option<i64>,
        changes: Vec<Change>,
    ) -> Result<Taken, ServeFault>
        ensures response { IfOk result (λ t. t.response ≡ None) }
        ensures status { IfOk result (λ t. t.status ≡ None) }
        ensures phase { OnOk result (self.new.phase ≡ self.old.phase) }
    {
        let Some(document) = self.documents.remove(uri.as_str()) else {
            return Ok(with_published(None));
        };
        let Document { text, lines, index } = document;
        drop(index);
        let text = with_changes(alloc, text, lines, changes, self.encoding)?;
        self.store(alloc, language, uri, version, text)
    }

    /// Forgets a document, and takes back its diagnostics.
    fn close(&mut self, alloc: Global, uri: String) -> Taken
        ensures response { result.response ≡ None }
        ensures status { result.status ≡ None }
        ensures phase { self.new.phase ≡ self.old.phase }
    {
        match self.documents.remove(uri.as_str()) {
            Some(_) => with_published(Some(Published {
                uri,
                version: None,
                diagnostics: Vec::new(alloc),
            })),
            None => with_published(None),
        }
    }

    /// Follows a notification about a document, which is ignored where requests aren't answered.
    fn follow<L: Language>(
        &mut self,
        alloc: Global,
        language: &L,
        notice: Notice,
        params: Params,
    ) -> Result<Taken, ServeFault>
        ensures response { IfOk result (λ t. t.response ≡ None) }
        ensures status { IfOk result (λ t. t.status ≡ None) }
        ensures phase { OnOk result (self.new.phase ≡ self.old.phase) }
    {
        if self.phase != Phase::Ready {
            return Ok(with_published(None));
        }
        let Params {
            uri,
            version,
            text,
            changes,
            place: _,
            new_name: _,
            has_utf8: _,
            has_related: _,
        } = params;
        match (notice, uri, text) {
            (Notice::Opened, Some(uri), Some(text)) => self.store(
                alloc, language, uri, version, text,
            ),
            (Notice::Changed, Some(uri), _) => self.change(alloc, language, uri, version, changes),
            (Notice::Closed, Some(uri), _) => Ok(self.close(alloc, uri)),
            _ => Ok(with_published(None)),
        }
    }

    /// Follows a notification.
    fn notice<L: Language>(
        &mut self,
        alloc: Global,
        language: &L,
        notice: Notice,
        params: Params,
    ) -> Result<Taken, ServeFault>
        ensures response { IfOk result (λ t. t.response ≡ None) }
        ensures status { IfOk result (λ t. t.status ≡ status_on self.old.phase notice) }
        ensures phase { OnOk result (self.new.phase ≡ self.old.phase) }
    {
        match notice {
            Notice::Exit => Ok(with_status(self.phase.status())),
            Notice::Opened => self.follow(alloc, language, notice, params),
            Notice::Changed => self.follow(alloc, language, notice, params),
            Notice::Closed => self.follow(alloc, language, notice, params),
            Notice::Other => Ok(with_published(None)),
        }
    }

    /// Does what a message asks for.
    pub fn take<L: Language>(
        &mut self,
        alloc: Global,
        language: &L,
        message: Message,
    ) -> Result<Taken, ServeFault>
        ensures response { IfOk result (λ t. IsAnswered self.old.phase message t.response) }
        ensures status { IfOk result (λ t. t.status ≡ status_after self.old.phase message) }
        ensures phase { OnOk result (self.new.phase ≡ phase_after self.old.phase message) }
    {
        match message {
            Message::Request(id, method, params) => {
                self.respond(alloc, language, id, method, &params)
            }
            Message::Notification(notice, params) => self.notice(alloc, language, notice, params),
            Message::Reply => Ok(with_response(None)),
            Message::Malformed(id, code) => {
                let answer = Answer::Error(code);
                Ok(with_response(Some(Response { id, answer })))
            }
        }
    }
}
