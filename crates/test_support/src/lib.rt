//! What the tests of all crates share: a running test and what its rows compare, values and texts, what things print, memory
//! refused and counted, the law of memory, and streams that fail. A test takes all of it, by `use test_support::*`.
//!
//! ```text
//! static ROWS: [(&str, usize); 2] = table! { ("if", 2); ("é", 2); };      rows, one a line: they cost a proof nothing
//! let test = Test::begin(rt);                                           the test, which keeps its first wrong row
//! let value = ok(&test, SmolStr::new(test.alloc, text));                what a call makes, or an empty one and a wrong row
//! same(&test, &value.len(), &len, &text);                               the two are equal, else the row `text` is wrong
//! holds(&test, !value.is_empty(), &text);                               it is so
//! test.end()                                                            the first wrong row, if there is one
//! ```
//!
//! A row of the law of memory is a line of `laws!`: a call and its name, how many requests it may make, for how many bytes, and
//! of which texts. What a call returns there is a [`Thing`].
//!
//! ```text
//! New => "SmolStr::new", Most(2), 1 * text + 40, UnlessResident;
//! ```
#![tactic(auto)]

mod failing;
mod memory;
mod memory_law;
mod printing;
mod sampling;
mod test;
mod things;
mod values;

pub use failing::{
    Cause, Drip, Reading, Reason, Trickle, Writing, cause_of, empty_drip, fails_at_each_read,
    fails_at_each_write, steps_about, trickle_of,
};
pub use memory::{
    Count, Refusals, can_refuse, counted, end_refusals, is_at_most, refuse, refuse_all,
    start_counts,
};
pub use memory_law::{Asks, Call, Law, Limits, Requests, check_law};
pub use printing::{Sentence, Variant, same_debug, same_display};
pub use sampling::samples;
pub use std::alloc::{AllocError, Global};
pub use std::test::Fail;
pub use test::{Test, holds, no_blocks, ok, same};
pub use things::{IntoThing, Outcome, Thing, changed, made, nothing};
pub use values::{ABOVE_BUFFERS, long_blank, long_text, place_of, same_place, same_value};
