//! Sources and sinks of bytes with a count of failures: the traits `Source` and `Sink`, and `Counted`, which makes
//! either of any reader or writer of std; `Recorded` also keeps the last failure. `read_text` reads an input to its end as a text. `write_all` writes a whole
//! text, and `write_long` writes a text in parts as it is made, so that few bytes wait.
//!
//! ```rust
//! use byte_streams::{Counted, InputFault, read_text};
//! use std::alloc::Global;
//! use std::io::Read;
//!
//! /// The text that a reader gives, to its end.
//! fn text_of<R: Read + Drop>(alloc: Global, reader: R) -> Result<String, InputFault> {
//!     let mut input = Counted::new(reader);
//!     read_text(alloc, &mut input)
//! }
//! ```
//!
//! For a reader of the bytes `ID` it returns `Ok` of that text, for one of the byte FF `Err(InputFault::NotUtf8)`,
//! for one that fails `Err(InputFault::Read)`, and for one of more than 67,108,864 bytes `Err(InputFault::TooLong)`.
//!
//! Contracts say which bytes were read from a source or written to a sink, where these are known, and why a call
//! failed. `specs/Source`, `specs/Sink` and `specs/Inputs` have the definitions.
#![tactic(auto)]

mod counting;
mod reading;
mod recorded;
mod writing;

pub use counting::Counted;
pub use reading::{InputFault, MOST_BYTES, Source, read_text};
pub use recorded::{Recorded, cause_of};
pub use writing::{MOST_WAITING, Sink, WriteFault, write_all, write_long};
