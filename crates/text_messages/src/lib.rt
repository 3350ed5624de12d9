//! Messages about places in a text, in the form that editors and terminals jump to, each above the line that it is about.
//!
//! ```rust
//! use cfg_base::span::Span;
//! use std::alloc::{AllocError, Global};
//! use text_messages::{Severity, Source};
//!
//! /// The message that something is wrong at a span of a text.
//! fn complaint(alloc: Global, text: &str, span: Span) -> Result<String, AllocError> {
//!     let source = Source::new(alloc, text, "sums")?;
//!     let mut told = String::new(alloc);
//!     source.push_message(alloc, &mut told, Severity::Error, span, "no sum")?;
//!     Ok(told)
//! }
//! ```
//!
//! For the text `"n + n\nn n\n"` and the span of the last `n` it answers
//!
//! ```text
//! sums:2:3: error: no sum
//!     2 | n n
//!       |   ^
//! ```
//!
//! A list of `Messages` about a text has places within it alone (`LiesWithin` of `specs/Added`): an offset past the end counts as
//! the end.
//!
//! Where the text was made of another one, as an import of a file is, `Source::of_original` makes a source that shows the other
//! one, with the places there. The contract of `Source::push_heading` is that the first line is `heading` of `specs/Places`: path, line and column of a place
//! that lies within the text shown, how grave it is, and the message. A tab has a tab below it, wide characters have a mark below each
//! column, and of a line with more than 160 columns the part around the place is shown; that is tested, by the rows of
//! `report_rows`.
#![tactic(auto)]

mod excerpt;
mod messages;
mod source;

pub use excerpt::part;
pub use messages::Messages;
pub use source::{Message, Original, Position, Severity, Source};
