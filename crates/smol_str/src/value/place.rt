//! The three places of a text.

/// Where a value keeps its text.
///
/// Equality, order and hash never depend on it.
#[derive(Clone, Copy, PartialEq, Eq, Debug)]
pub enum Place {
    /// In the value itself.
    Inline,
    /// In memory that lives as long as the program.
    Static,
    /// In memory that was asked for.
    Heap,
}
