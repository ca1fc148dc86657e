//! Values and builders of texts, the places of values, and texts about the limits.
use crate::test::{Test, ok, same};
use smol_str::{BLANK_NEWLINES, BLANK_SPACES, INLINE_CAP, Place, SmolStr, SmolStrBuilder};
use std::fmt::Debug;

impl Test {
    /// The value of the text.
    pub fn value(&self, text: &str) -> SmolStr {
        ok(self, SmolStr::new(self.alloc, text))
    }

    /// A builder of this capacity that has the text.
    pub fn builder(&self, capacity: usize, text: &str) -> SmolStrBuilder {
        let mut builder = ok(self, SmolStrBuilder::with_capacity(self.alloc, capacity));
        ok(self, builder.push_str(text));
        builder
    }
}

/// Byte lengths above each buffer that a call reads or writes by, and one far above.
pub const ABOVE_BUFFERS: [usize; 3] = [4_097, 65_537, 5_000_000];

/// `a` once more than a buffer has room for: no blank run.
pub fn long_text() -> &'static str {
    text_of(&[b'a'; INLINE_CAP + 1])
}

/// A blank run that is a byte too long for a buffer.
pub fn long_blank() -> &'static str {
    text_of(&[b' '; INLINE_CAP + 1])
}

/// The text of ASCII bytes.
fn text_of(bytes: &[u8]) -> &str {
    str::from_utf8(bytes).unwrap_or("")
}

/// The place of the value of a text: inline in a few bytes, static of a few newlines and then a few spaces, and else heap.
pub fn place_of(text: &str) -> Place {
    let spaces = text.trim_start_matches('\n');
    let newlines = text.len().saturating_sub(spaces.len());
    let is_blank = spaces.trim_start_matches(' ').is_empty();
    if text.len() <= INLINE_CAP {
        Place::Inline
    } else if is_blank && newlines <= BLANK_NEWLINES && spaces.len() <= BLANK_SPACES {
        Place::Static
    } else {
        Place::Heap
    }
}

/// The value is in the place.
pub fn same_place(test: &Test, value: &SmolStr, place: Place, row: &impl Debug) {
    same(test, &value.place(), &place, row);
    let is_on_heap = place == Place::Heap;
    same(test, &value.is_heap_allocated(), &is_on_heap, row);
}

/// The value has the text, in the place.
pub fn same_value(test: &Test, value: &SmolStr, text: &str, place: Place, row: &impl Debug) {
    same(test, &value.as_str(), &text, row);
    same(test, &value.len(), &text.len(), row);
    same(test, &value.is_empty(), &text.is_empty(), row);
    same_place(test, value, place, row);
}
