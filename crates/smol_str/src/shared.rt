//! The shared text that a value on the heap holds.
//!
//! With `std::rc::RcStr` values are for one thread. With `std::sync::ArcStr` they are `Send + Sync`, and each clone and drop
//! of a value on the heap takes an atomic count. `add_to --threads` writes it, here and in `specs/Shared.antt`.
pub use std::rc::RcStr as SharedText;
