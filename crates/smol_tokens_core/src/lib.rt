//! The program `smol_tokens` but for its `main`: for each line of a text, where a `SmolStr` keeps it, or how often each
//! line occurs; and such counts added up.
//!
//! [`run::run`] is the whole program over any reader and writer, and its contract the program's promise.
//! [`mode::mode_of`] reads the words of a command line, and a [`fault::RunFault`] prints why a run failed.
#![tactic(auto)]

pub mod fault;
pub mod laws;
mod lines;
mod merge;
pub mod mode;
mod report;
pub mod run;
pub mod tally;
mod tokens;
