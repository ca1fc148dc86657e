//! The immutable text.
ghost use Rattle.std.specs.Prelude.{◌≡◌, ◌≤◌, ◌↔◌, ◌⊎◌, [], length, IfOk, OnErr, IsSome, IfSome, IsTrue, MatchOption, encode_utf8_all};
ghost use Rattle.std.specs.Str.{chars, all_scalars};
ghost use Rattle.smol_str.specs.Shared.{shared_bytes};
ghost use Rattle.smol_str.specs.Text.{size, IsShort, IsResident, place_of};
ghost use Rattle.smol_str.specs.Buffer.{padded};
ghost use Rattle.smol_str.specs.Case.{IsAsciiText, converted};
ghost use Rattle.smol_str.specs.Meaning.{IsValueOf};

pub mod blank;
mod compare;
pub mod convert;
mod deref;
pub mod place;
mod print;

use crate::buffer::{INLINE_CAP, InlineBuffer, InlineText};
use crate::bytes::ascii::AsciiCase;
use crate::shared::SharedText;
use blank::blank_slice;
use place::Place;
use std::alloc::{AllocError, Global};
use std::marker::Model;

/// An immutable text that is small and cheap to make where it is short.
///
/// A value means its text and its [`Place`]. The place follows from the text alone, but for *pinned*
/// values: those that [`SmolStr::new_static`] made and their clones, which are in place Static
/// whatever their text.
///
/// A text is *resident* where it has at most [`INLINE_CAP`] bytes or is a blank run. [`SmolStr::new`],
/// and each other call that is passed the value's whole text, takes no memory for it.
///
/// ```
/// let token = SmolStr::new(alloc, "if")?;
/// assert_eq!(rt; token.as_str(), "if");
/// assert_eq!(rt; token.place(), Place::Inline);
/// ```
pub struct SmolStr {
    repr: Repr,
}

// By hand, so that a caller's proof sees one call and no private arms.
impl Drop for SmolStr {
    #[inline(always)]
    fn drop(self) {
        let SmolStr { repr: _ } = self;
    }
}

// Inline: the text lies in the value itself. Static: in memory that lives as long as the program.
// Heap: in memory that was asked for.
#[derive(Drop)]
enum Repr {
    Inline(InlineText),
    Static(&'static str),
    Heap(SharedText),
}

impl Model for SmolStr {
    ghost use Rattle.smol_str.specs.Meaning.{Meaning};

    ghost Value = { Meaning };

    ghost use Rattle.smol_str.specs.ValueArms.{repr_text, repr_place, IsSound};

    ghost view = { λ s. record { text = repr_text s.repr; place = repr_place s.repr } };

    ghost invariant = { λ s. IsSound s.repr };
}

impl SmolStr {
    /// The most bytes of a text that lies in the value itself.
    pub const INLINE_CAP: usize = INLINE_CAP;

    /// A value of `text`, copied.
    ///
    /// Resident text needs no memory; any other is refused with [`AllocError`] where the heap has
    /// no room for it, and nothing is made.
    #[inline(always)]
    pub fn new(alloc: Global, text: &str) -> Result<SmolStr, AllocError>
        ensures ok { IfOk result (λ v. IsValueOf (chars text.now) v) }
        ensures refused { OnErr result (¬ (IsResident (chars text.now))) }
    {
        match SmolStr::resident(text) {
            Some(value) => Ok(value),
            None => Ok(SmolStr::from_heap(heap_text(alloc, text)?)),
        }
    }

    /// A value of a text of at most [`INLINE_CAP`] bytes, which needs no memory.
    #[inline(always)]
    pub fn new_inline(text: &str) -> SmolStr
        requires { length text.now ≤ INLINE_CAP }
        ensures { IsValueOf (chars text.now) result }
    {
        SmolStr::from_inline(InlineText::from_short(text))
    }

    /// A value of a text of at most [`INLINE_CAP`] bytes with its ASCII letters in a case, which needs
    /// no memory.
    ///
    /// ```
    /// let header = SmolStr::new_inline_in_case("Content-Type", AsciiCase::Lower);
    /// assert_eq!(rt; header.as_str(), "content-type");
    /// ```
    #[inline(always)]
    pub fn new_inline_in_case(text: &str, case: AsciiCase) -> SmolStr
        requires { length text.now ≤ INLINE_CAP }
        ensures { IsValueOf (converted case (chars text.now)) result }
    {
        SmolStr::from_inline(InlineText::from_short(text).in_case(case))
    }

    /// A value that refers to `text` itself, without a copy: in place Static whatever its length.
    ///
    /// ```
    /// let name = SmolStr::new_static("a constant");
    /// assert_eq!(rt; name.place(), Place::Static);
    /// ```
    #[inline(always)]
    pub const fn new_static(text: &'static str) -> SmolStr
        ensures text { result.text ≡ chars text.now }
        ensures place { result.place ≡ Place.Static }
    {
        SmolStr {
            repr: Repr::Static(text),
        }
    }

    /// A value of equal text and place. Only the clone of a heap value can be refused memory.
    #[inline(always)]
    pub fn clone(&self) -> Result<SmolStr, AllocError>
        ensures ok { IfOk result (λ copy. copy ≡ self.now) }
        ensures refused { OnErr result (self.now.place ≡ Place.Heap) }
        ensures not_resident { OnErr result (¬ (IsResident self.now.text)) }
    {
        let repr = match &self.repr {
            Repr::Heap(text) => Repr::Heap(text.clone()?),
            Repr::Inline(text) => Repr::Inline(text.duplicate()),
            Repr::Static(text) => Repr::Static(text),
        };
        Ok(SmolStr { repr })
    }

    /// The text, as std's `str`.
    #[inline(always)]
    pub fn as_str(&self) -> &str
        ensures bytes { result.now ≡ encode_utf8_all self.now.text }
        ensures scalars { IsTrue (all_scalars self.now.text) }
    {
        match &self.repr {
            Repr::Inline(text) => text.as_str(),
            Repr::Static(text) => text,
            Repr::Heap(text) => text.as_str(),
        }
    }

    /// The length of the text in bytes, not in characters.
    #[inline(always)]
    pub fn len(&self) -> usize
        ensures { result ≡ size self.now.text }
    {
        match &self.repr {
            Repr::Inline(text) => text.len(),
            _ => self.as_str().len(),
        }
    }

    /// Whether the text has no bytes.
    #[inline(always)]
    pub fn is_empty(&self) -> bool
        ensures size { IsTrue result ↔ (size self.now.text ≡ 0) }
        ensures text { IsTrue result ↔ (self.now.text ≡ []) }
    {
        self.len() == 0
    }

    /// Whether each character is ASCII; of inline text the whole buffer is looked at, at once.
    #[inline(always)]
    pub fn is_ascii(&self) -> bool
        ensures { IsTrue result ↔ IsAsciiText self.now.text }
    {
        match &self.repr {
            Repr::Inline(text) => text.is_ascii(),
            _ => self.as_str().is_ascii(),
        }
    }

    /// Whether the text lies in memory that was asked for; resident text never does.
    #[inline(always)]
    pub const fn is_heap_allocated(&self) -> bool
        ensures heap { IsTrue result ↔ (self.now.place ≡ Place.Heap) }
        ensures not_resident { IsTrue result → ¬ (IsResident self.now.text) }
    {
        matches!(self.repr, Repr::Heap(_))
    }

    /// Where the text lies. It follows from the text, but for pinned values, which are in place Static.
    #[inline(always)]
    pub const fn place(&self) -> Place
        ensures place { result ≡ self.now.place }
        ensures inline { self.now.place ≡ Place.Inline → IsShort self.now.text }
        ensures by_text { (self.now.place ≡ place_of self.now.text) ⊎ (self.now.place ≡ Place.Static) }
    {
        match &self.repr {
            Repr::Inline(_) => Place::Inline,
            Repr::Static(_) => Place::Static,
            Repr::Heap(_) => Place::Heap,
        }
    }

    /// The buffer of an inline value, `None` in the other places: the text's bytes, and then zeros
    /// up to its end.
    ///
    /// ```
    /// let token = SmolStr::new_inline("if");
    /// assert!(rt; token.inline_buffer().is_some_and(|buffer| buffer.starts_with(b"if\0")));
    /// ```
    pub fn inline_buffer(&self) -> Option<&InlineBuffer>
        ensures place { IsSome result ↔ (self.now.place ≡ Place.Inline) }
        ensures short { IsSome result → IsShort self.now.text }
        ensures buffer { IfSome result (λ buffer. buffer.now ≡ padded (encode_utf8_all self.now.text)) }
    {
        match &self.repr {
            Repr::Inline(text) => Some(text.buffer()),
            Repr::Static(_) | Repr::Heap(_) => None,
        }
    }

    /// The value of a resident text, which takes no memory.
    #[inline(always)]
    pub(crate) fn resident(text: &str) -> Option<SmolStr>
        ensures { MatchOption result (¬ (IsResident (chars text.now))) (λ v. IsValueOf (chars text.now) v) }
    {
        if text.len() <= INLINE_CAP {
            return Some(SmolStr::new_inline(text));
        }
        Some(SmolStr::new_static(blank_slice(text)?))
    }

    /// The value that keeps a short text in its buffer.
    #[inline(always)]
    pub(crate) fn from_inline(text: InlineText) -> SmolStr
        requires { IsShort text }
        ensures { IsValueOf text result }
    {
        SmolStr {
            repr: Repr::Inline(text),
        }
    }

    /// The value that keeps a text on the heap.
    #[inline(always)]
    pub(crate) fn from_heap(text: SharedText) -> SmolStr
        requires { ¬ (IsResident (chars (shared_bytes text))) }
        ensures { IsValueOf (chars (shared_bytes text)) result }
    {
        SmolStr {
            repr: Repr::Heap(text),
        }
    }
}

/// For containers of values; calls [`SmolStr::clone`].
impl Clone for SmolStr {
    ghost is_clone = { λ s copy. copy ≡ s };

    ghost use Rattle.smol_str.specs.declared.value.place.Place.TheVariants.{Heap};

    ghost is_infallible = { λ s. ¬ (s.place ≡ Heap) };

    fn clone(&self) -> Result<SmolStr, AllocError>
        ensures ok { IfOk result (λ copy. copy ≡ self.now) }
        ensures refused { OnErr result (self.now.place ≡ Place.Heap) }
        ensures not_resident { OnErr result (¬ (IsResident self.now.text)) }
    {
        SmolStr::clone(self)
    }
}

/// Slow path of `new`, out of line. Returns the pointer: a returned `SmolStr` would make `new` clear 48 bytes on the fast
/// path.
#[inline(never)]
fn heap_text(alloc: Global, text: &str) -> Result<SharedText, AllocError>
    ensures { IfOk result (λ heap. shared_bytes heap ≡ text.now) }
{
    SharedText::from_str(alloc, text)
}
