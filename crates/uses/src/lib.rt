//! Callers of the library, each proved by the library's contracts alone.
#![tactic(auto)]

pub mod headline;
pub mod layout;
pub mod making;
pub mod with_crates;
