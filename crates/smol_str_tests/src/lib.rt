//! Tests of the library through its public items, for what no clause says. Most files have the name of the module that
//! they test. What calls ask the heap for is in a crate of its own.
#![tactic(auto)]

#[cfg(test)]
mod tests;
