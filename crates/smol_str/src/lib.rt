//! Small immutable strings.
//!
//! A [`SmolStr`] means a text and a place. A text of at most [`INLINE_CAP`] bytes lies in the value
//! itself and needs no memory. Nor does a blank run, which is a slice of one constant: at most
//! [`BLANK_NEWLINES`] newlines and then at most [`BLANK_SPACES`] spaces. A [`SmolStrBuilder`] makes a text piece by piece.
//!
//! Each module uses those below it alone:
//!
//! ```text
//!     laws                                                       laws of the definitions: functions that do nothing
//!     json_string, serde_impls, borsh, str_ext, format, collect  ways into and out of a value
//!     builder                                                    a text that grows
//!     value                                                      a text and its place
//!     kernel                                                     building blocks for loops of your own
//!     buffer, stream                                             a short text in its bytes; single reads and writes
//!     shared                                                     the text that values on the heap share
//!     bytes, messages                                            slices, words, searches, ASCII and plain JSON; what faults print
//! ```
#![tactic(auto)]

pub mod borsh;
mod buffer;
mod builder;
mod bytes;
mod collect;
mod format;
pub mod json_string;
pub mod kernel;
pub mod laws;
mod messages;
mod serde_impls;
mod shared;
mod str_ext;
pub mod stream;
mod value;

pub use buffer::{INLINE_CAP, InlineBuffer};
pub use builder::SmolStrBuilder;
pub use collect::steps::{Step, build};
pub use collect::{Piece, ValueAlloc};
pub use format::{FormatError, ToSmolStr};
pub use str_ext::StrExt;
pub use value::SmolStr;
pub use value::blank::{BLANK_NEWLINES, BLANK_SPACES};
pub use value::convert::FromUtf8Fault;
pub use value::place::Place;
