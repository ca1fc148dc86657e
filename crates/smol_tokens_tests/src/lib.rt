//! Tests of the program, for what no clause says: over outside values, over readers and writers that fail, and with memory
//! refused.
#![tactic(auto)]

#[cfg(test)]
mod tests;
