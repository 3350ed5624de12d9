//! The section `%grmtools{..}` at the front of a grammar text: keys with values, and their spans.

mod convert;
mod error;
pub mod laws;
mod repeats;
mod scan;
mod section;
mod section_body;
mod settings;
mod value;

pub use convert::try_from_header;
pub use error::{HeaderError, HeaderErrorKind};
pub use section::{GrmtoolsSectionParser, Header, KeyValueError, SectionError};
pub use value::{HeaderValue, Namespaced, Setting, Value};
