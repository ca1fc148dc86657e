//! The message that several faults have.

/// What is printed where memory was refused.
pub(crate) const OUT_OF_MEMORY: &str = "memory allocation failed";
