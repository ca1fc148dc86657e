//! Tests of what no clause says, by rows from outside.

mod borsh;
mod builder;
mod collect;
mod fault;
mod format;
mod json_string;
mod kernel;
mod serde_impls;
mod str_ext;
mod stream;
mod value;
