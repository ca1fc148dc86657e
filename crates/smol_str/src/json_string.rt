//! JSON strings: a value as JSON, and back.
//!
//! serde's traits write and read a value too, in any format; the contracts of these calls speak of the
//! JSON value and of the bytes. What a JSON value is, and which text reads as which value, is
//! `serde_json`'s own.

mod fault;
mod read;
mod write;

pub use fault::JsonFault;
pub use read::{from_json, from_value};
pub use write::{to_json, to_value};
