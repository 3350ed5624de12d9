//! Messages about one text, whose places lie within it.

ghost use Rattle.std.specs.Prelude.{◌≡◌, ◌++◌, ◌∷◌, [], IfSome, OnErr, OnOk, length, min, option_map};
ghost use Rattle.std.specs.List.{All};
ghost use Rattle.text_messages.specs.Added.{IsPartOf, LiesWithin, part_within, placed_in};

use crate::source::Message;
use cfg_base::span::Span;
use std::alloc::{AllocError, Global};
use std::marker::Model;

/// A text, and messages about it: the place of each lies within the text. Contracts see both.
#[derive(Drop)]
pub struct Messages<'a> {
    text: &'a str,
    list: Vec<Message>,
}

impl<'a> Model for Messages<'a> {
    ghost use Rattle.std.specs.List.{All};
    ghost use Rattle.text_messages.specs.Added.{LiesWithin, MessagesValue};

    ghost Value = { MessagesValue };

    ghost view = { λ m. record { text = m.text.now; list = m.list.items } };

    ghost invariant = { λ m. All (LiesWithin m.text.now) m.list.items };
}

/// Returns the part of a span that lies within a text: an offset past the end counts as the end.
fn part_within(text: &str, span: Span) -> Span
    ensures value { result ≡ part_within text.now span }
    ensures inside { IsPartOf text.now result }
{
    let end = span.end().min(text.len());
    Span::new(span.start().min(end), end)
}

/// Returns the part of a span, if there is one, that lies within a text.
fn part_if(text: &str, span: Option<Span>) -> Option<Span>
    ensures value { result ≡ option_map (part_within text.now) span }
    ensures inside { IfSome result (IsPartOf text.now) }
{
    let span = span?;
    Some(part_within(text, span))
}

impl<'a> Messages<'a> {
    /// Makes an empty list of messages about a text.
    pub fn new(alloc: Global, text: &'a str) -> Messages<'a>
        ensures { result ≡ record { text = text.entry.now; list = [] } }
    {
        let list = Vec::new(alloc);
        Messages { text, list }
    }

    /// Returns the text.
    pub fn text(&self) -> &'a str
        ensures { result.now ≡ self.now.text }
    {
        self.text
    }

    /// Adds a message. An offset of its place past the end of the text counts as the end.
    pub fn push(&mut self, message: Message) -> Result<(), AllocError>
        ensures added { OnOk result (self.new ≡ record self.old { list = self.old.list ++ placed_in self.old.text message ∷ [] }) }
        ensures same { OnErr result (self.new ≡ self.old) }
    {
        let mut message = message;
        message.span = part_if(self.text, message.span);
        self.list.push(message)?;
        Ok(())
    }

    /// Lends the messages, in order.
    pub fn as_slice(&self) -> &[Message]
        ensures value { result.now ≡ self.now.list }
        ensures within { All (LiesWithin self.now.text) result.now }
    {
        self.list.as_slice()
    }

    /// Returns the messages, in order.
    pub fn into_vec(self) -> Vec<Message>
        ensures value { result.items ≡ self.entry.list }
        ensures within { All (LiesWithin self.entry.text) result.items }
    {
        self.list
    }
}
