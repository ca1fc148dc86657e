//! Tests of memory: the law of what each call may ask for, and what a refusal leaves.
#![tactic(auto)]

#[cfg(test)]
mod tests;
