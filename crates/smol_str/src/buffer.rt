//! A short text in a buffer of its own, as a value keeps it inline; `packing` has the words that it is packed into.
ghost use Rattle.std.specs.Prelude.{◌≡◌, ◌↔◌, IsTrue, ◌+◌, ◌≤◌, ℕ, List, [], ◌∷◌, ◌++◌, length, OnSome, encode_utf8_all};
ghost use Rattle.std.specs.Iterator.{IsFinite, YieldsThen};
ghost use Rattle.std.specs.Str.{chars, all_scalars};
ghost use Rattle.std.specs.Ordering.{nat_cmp};
ghost use Rattle.std.specs.Cmp.Lexicographic.{slice_cmp};
ghost use Rattle.smol_str.specs.Text.{size, IsShort};
ghost use Rattle.smol_str.specs.Buffer.{padded};
ghost use Rattle.smol_str.specs.Case.{IsAsciiText, converted};

mod packing;

use crate::bytes::ascii::{ASCII_LANES, AsciiCase, convert_all, is_all_ascii};
use packing::{copy_packed, equal_words, order_words, pack, pack_char, write_ascii, write_at};
use std::cmp::Ordering;
use std::marker::Model;

/// The most bytes of a text that lies in the value itself.
pub const INLINE_CAP: usize = 39;

/// The whole buffer of a short text: its bytes, and then zeros.
pub type InlineBuffer = [u8; INLINE_CAP];

/// A short text as it is kept: the buffer, and behind it the length, together whole words.
const PACKED_LEN: usize = INLINE_CAP + 1;

type Packed = [u8; PACKED_LEN];

/// A text of at most [`INLINE_CAP`] bytes; the bytes past its end are zero.
///
/// It is aligned, so that it is moved and compared by words.
#[derive(Drop)]
pub(crate) struct InlineText {
    align: [u64; 0],
    packed: Packed,
}

impl Model for InlineText {
    ghost use Rattle.std.specs.Prelude.{ℕ, List};
    ghost use Rattle.std.specs.Str.{chars};
    ghost use Rattle.smol_str.specs.Buffer.{IsPacked, unpacked};

    ghost Value = { List ℕ };

    ghost view = { λ s. chars (unpacked s.packed) };

    ghost invariant = { λ s. IsPacked s.packed };
}

impl InlineText {
    /// The empty text.
    #[inline(always)]
    pub(crate) const fn new() -> InlineText
        ensures { result ≡ [] }
    {
        InlineText {
            align: [],
            packed: [0; PACKED_LEN],
        }
    }

    /// A copy of a short text.
    #[inline(always)]
    pub(crate) fn from_short(text: &str) -> InlineText
        requires { length text.now ≤ INLINE_CAP }
        ensures { result ≡ chars text.now }
    {
        InlineText {
            align: [],
            packed: pack(text.as_bytes()),
        }
    }

    /// The text of one character.
    #[inline(always)]
    pub(crate) fn from_char(character: char) -> InlineText
        ensures { result ≡ character ∷ [] }
    {
        InlineText {
            align: [],
            packed: pack_char(character),
        }
    }

    /// Whether each character is ASCII. It looks at the blocks that `in_case` maps, so that both load them once.
    #[inline(always)]
    pub(crate) fn is_ascii(&self) -> bool
        ensures { IsTrue result ↔ IsAsciiText self.now }
    {
        let (front, back) = self.packed.split_at(PACKED_LEN / ASCII_LANES * ASCII_LANES);
        is_all_ascii(front) & is_all_ascii(back)
    }

    /// The text with its ASCII letters in a case.
    ///
    /// In place: a copy would be written in parts.
    #[inline(always)]
    pub(crate) fn in_case(mut self, case: AsciiCase) -> InlineText
        ensures text { result ≡ converted case self }
        ensures short { IsShort result }
    {
        convert_all(&mut self.packed, case);
        self
    }

    /// The text, as std's `str`.
    #[inline(always)]
    pub(crate) fn as_str(&self) -> &str
        ensures bytes { result.now ≡ encode_utf8_all self.now }
        ensures scalars { IsTrue (all_scalars self.now) }
        ensures short { IsShort self.now }
    {
        let bytes = &self.packed[..self.packed[INLINE_CAP] as usize];
        unsafe { str::from_utf8_unchecked(bytes) }
    }

    /// The length in bytes.
    #[inline(always)]
    pub(crate) fn len(&self) -> usize
        ensures len { result ≡ size self.now }
        ensures short { IsShort self.now }
    {
        self.packed[INLINE_CAP] as usize
    }

    /// The whole buffer.
    #[inline(always)]
    pub(crate) fn buffer(&self) -> &InlineBuffer
        ensures { result.now ≡ padded (encode_utf8_all self.now) }
    {
        self.packed.first_chunk::<INLINE_CAP>().unwrap()
    }

    /// A copy, which cannot be refused.
    #[inline(always)]
    pub(crate) fn duplicate(&self) -> InlineText
        ensures copy { result ≡ self.now }
        ensures short { IsShort self.now }
    {
        InlineText {
            align: [],
            packed: copy_packed(&self.packed),
        }
    }

    /// Whether the texts are equal, by their whole buffers and lengths: the bytes past a text's end
    /// are zero.
    #[inline(always)]
    pub(crate) fn equal_by_words(&self, other: &InlineText) -> bool
        ensures { IsTrue result ↔ (self.now ≡ other.now) }
    {
        equal_words(&self.packed, &other.packed)
    }

    /// The order of the texts. A prefix is followed by zeros, so it sorts first or ties; then the length decides.
    #[inline(always)]
    pub(crate) fn order(&self, other: &InlineText) -> Ordering
        ensures { result ≡ slice_cmp nat_cmp self.now other.now }
    {
        order_words(&self.packed, &other.packed)
    }

    /// Appends a text for which there is room.
    #[inline(always)]
    pub(crate) fn push_str(&mut self, text: &str)
        requires { size self.old + length text.now ≤ INLINE_CAP }
        ensures { self.new ≡ self.old ++ chars text.now }
    {
        let len = self.packed[INLINE_CAP] as usize;
        write_at(&mut self.packed, len, text.as_bytes());
        self.packed[INLINE_CAP] = (len + text.len()) as u8;
    }

    /// Appends the characters of an iterator while they are ASCII and there is room, and returns the first other one.
    #[inline(always)]
    pub(crate) fn extend_ascii<I: Iterator<Item = char>>(&mut self, iter: &mut I) -> Option<char>
        requires can { I.can_next iter.old }
        requires ends { IsFinite (I.remaining iter.old) }
        ensures drew { (items : List ℕ) × YieldsThen I.next_gives iter.old items result iter.new
            × (self.new ≡ self.old ++ items) }
        ensures short { IsShort self.new }
        ensures more { OnSome result (I.can_next iter.new × IsFinite (I.remaining iter.new)) }
    {
        let len = self.packed[INLINE_CAP] as usize;
        let (len, other) = write_ascii(&mut self.packed, len, iter);
        self.packed[INLINE_CAP] = len as u8;
        other
    }
}
