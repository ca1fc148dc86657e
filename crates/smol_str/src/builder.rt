//! The builder of a text.
ghost use Rattle.std.specs.Prelude.{◌≡◌, ◌↔◌, ◌<◌, ◌≤◌, [], ◌∷◌, IsSome, IfSome, IfOk, OnOk, OnErr, IsTrue, false, encode_utf8_all};
ghost use Rattle.std.specs.Str.{chars, all_scalars};
ghost use Rattle.smol_str.specs.Text.{size, IsShort, blank_run};
ghost use Rattle.smol_str.specs.Buffer.{padded};
ghost use Rattle.smol_str.specs.BuilderState.{InBuffer, OnHeap, empty_builder, appended, kind_for};

mod append;
mod chars;
mod compare;
mod deref;
mod finish;

use crate::buffer::{INLINE_CAP, InlineBuffer, InlineText};
use crate::bytes::ascii::ascii_text;
use crate::value::blank::{BLANK_NEWLINES, BLANK_SPACES, blank_text};
use std::alloc::{AllocError, Global};
use std::marker::Model;

/// A text that grows, and is then finished to a [`SmolStr`].
///
/// A builder means its text and its kind. It begins in its own buffer and takes no memory while its
/// text fits there. It moves to the heap when the text outgrows the buffer, or at once where you ask
/// for a larger capacity. What [`finish`](SmolStrBuilder::finish) returns depends on the text alone.
///
/// ```
/// let mut builder = SmolStrBuilder::new(alloc);
/// builder.push_str("fn")?;
/// builder.push('_')?;
/// assert_eq!(rt; builder.as_str(), "fn_");
/// ```
pub struct SmolStrBuilder {
    alloc: Global,
    // How many bytes the text is expected to have, 0 where that is not known.
    expected: usize,
    repr: BuilderRepr,
}

// By hand, so that a caller's proof sees one call and no private arms.
impl Drop for SmolStrBuilder {
    #[inline(always)]
    fn drop(self) {
        let SmolStrBuilder {
            alloc: _,
            expected: _,
            repr: _,
        } = self;
    }
}

// Inline: the text lies in the builder's own buffer. Heap: in memory that was asked for.
#[derive(Drop)]
enum BuilderRepr {
    Inline(InlineText),
    Heap(String),
}

impl Model for SmolStrBuilder {
    ghost use Rattle.smol_str.specs.BuilderState.{BuilderState};

    ghost Value = { BuilderState };

    ghost use Rattle.smol_str.specs.BuilderArms.{builder_text, builder_kind, IsSoundBuilder};

    ghost view = { λ s. record { text = builder_text s.repr; kind = builder_kind s.repr } };

    ghost invariant = { λ s. IsSoundBuilder s.repr };
}

impl SmolStrBuilder {
    /// An empty builder, which takes no memory.
    #[inline(always)]
    pub const fn new(alloc: Global) -> SmolStrBuilder
        ensures { result ≡ empty_builder InBuffer }
    {
        SmolStrBuilder::expecting(alloc, 0)
    }

    /// An empty builder with room for `capacity` bytes.
    ///
    /// Up to [`INLINE_CAP`] bytes it takes no memory. A larger capacity is asked for at once, so that
    /// appends up to it take no more, which is only tested, since no contract sees a capacity. It is
    /// refused with [`AllocError`] where the heap has no such room, and nothing is made.
    ///
    /// ```
    /// let builder = SmolStrBuilder::with_capacity(alloc, 100)?;
    /// assert!(rt; builder.is_empty() && builder.inline_buffer().is_none());
    /// ```
    #[inline(always)]
    pub fn with_capacity(alloc: Global, capacity: usize) -> Result<SmolStrBuilder, AllocError>
        ensures ok { IfOk result (λ b. b ≡ empty_builder (kind_for capacity)) }
        ensures refused { OnErr result (INLINE_CAP < capacity) }
    {
        if capacity <= INLINE_CAP {
            return Ok(SmolStrBuilder::new(alloc));
        }
        let heap = String::with_capacity(alloc, capacity)?;
        Ok(SmolStrBuilder {
            alloc,
            expected: 0,
            repr: BuilderRepr::Heap(heap),
        })
    }

    /// The text so far, as std's `str`.
    #[inline(always)]
    pub fn as_str(&self) -> &str
        ensures bytes { result.now ≡ encode_utf8_all self.now.text }
        ensures scalars { IsTrue (all_scalars self.now.text) }
        ensures short { self.now.kind ≡ InBuffer → IsShort self.now.text }
    {
        match &self.repr {
            BuilderRepr::Inline(text) => text.as_str(),
            BuilderRepr::Heap(text) => text.as_str(),
        }
    }

    /// The length of the text in bytes, not in characters.
    #[inline(always)]
    pub fn len(&self) -> usize
        ensures { result ≡ size self.now.text }
    {
        self.as_str().len()
    }

    /// Whether the text has no bytes.
    pub fn is_empty(&self) -> bool
        ensures size { IsTrue result ↔ (size self.now.text ≡ 0) }
        ensures text { IsTrue result ↔ (self.now.text ≡ []) }
    {
        self.as_str().is_empty()
    }

    /// Does nothing. The clause tells a proof that a builder to which nothing is appended stays in its buffer.
    #[inline(always)]
    pub(crate) fn short_in_buffer(&self)
        ensures { self.now.kind ≡ InBuffer → IsShort self.now.text }
    {
        prove!(self.inline_buffer().is_none() || self.as_str().len() <= INLINE_CAP);
    }

    /// The buffer of a builder that keeps its text there, `None` on the heap: the text's bytes, and
    /// then zeros up to its end.
    pub fn inline_buffer(&self) -> Option<&InlineBuffer>
        ensures kind { IsSome result ↔ (self.now.kind ≡ InBuffer) }
        ensures short { IsSome result → IsShort self.now.text }
        ensures buffer { IfSome result (λ buffer. buffer.now ≡ padded (encode_utf8_all self.now.text)) }
    {
        match &self.repr {
            BuilderRepr::Inline(text) => Some(text.buffer()),
            BuilderRepr::Heap(_) => None,
        }
    }

    /// Appends a character.
    ///
    /// It is refused with [`AllocError`] where the heap has no room, and the builder is as before.
    #[inline(always)]
    pub fn push(&mut self, character: char) -> Result<(), AllocError>
        ensures ok { OnOk result (self.new ≡ appended self.old (character ∷ [])) }
        ensures unchanged { OnErr result (self.new ≡ self.old) }
        ensures refused { OnErr result ((appended self.old (character ∷ [])).kind ≡ OnHeap) }
    {
        let code = character as u32;
        if code < 0x80 {
            // A one-byte `str`, so the compiler drops the tests of other lengths.
            if self.push_in_buffer(ascii_text(&[code as u8])) {
                return Ok(());
            }
            return self.push_ascii_on_heap(code as u8);
        }
        let mut buf = [0; 4];
        if self.push_in_buffer(character.encode_utf8(&mut buf)) {
            return Ok(());
        }
        self.push_wide_on_heap(character)
    }

    /// Appends a text.
    ///
    /// It is refused with [`AllocError`] where the heap has no room, and the builder is as before.
    #[inline(always)]
    pub fn push_str(&mut self, text: &str) -> Result<(), AllocError>
        ensures ok { OnOk result (self.new ≡ appended self.old (chars text.now)) }
        ensures unchanged { OnErr result (self.new ≡ self.old) }
        ensures refused { OnErr result ((appended self.old (chars text.now)).kind ≡ OnHeap) }
    {
        self.push_with_spare(text, INLINE_CAP)
    }

    /// Appends a text behind which some `spare` bytes are to come.
    ///
    /// A builder that moves to the heap asks for room for these, too, so that they need no second request. The call
    /// is refused with [`AllocError`] where the heap has no room for both, and the builder is as before.
    #[inline(always)]
    pub fn push_with_spare(&mut self, text: &str, spare: usize) -> Result<(), AllocError>
        ensures ok { OnOk result (self.new ≡ appended self.old (chars text.now)) }
        ensures unchanged { OnErr result (self.new ≡ self.old) }
        ensures refused { OnErr result ((appended self.old (chars text.now)).kind ≡ OnHeap) }
    {
        if self.push_in_buffer(text) {
            return Ok(());
        }
        self.push_on_heap(text, spare)
    }

    /// Appends a text with which the builder stays in its buffer; `false` where it would not.
    #[inline(always)]
    pub(crate) fn push_in_buffer(&mut self, text: &str) -> bool
        ensures done { IsTrue result → self.new ≡ appended self.old (chars text.now) }
        ensures unchanged { result ≡ false → self.new ≡ self.old }
        ensures outgrown { result ≡ false → (appended self.old (chars text.now)).kind ≡ OnHeap }
    {
        if let BuilderRepr::Inline(short) = &mut self.repr {
            if text.len() <= INLINE_CAP - short.len() {
                short.push_str(text);
                return true;
            }
        }
        false
    }

    /// Appends `newlines` newlines and then `spaces` spaces.
    ///
    /// It is refused with [`AllocError`] where the heap has no room, and the builder is as before.
    ///
    /// ```
    /// let mut builder = SmolStrBuilder::new(alloc);
    /// builder.push_blank(1, 4)?;
    /// assert_eq!(rt; builder.as_str(), "\n    ");
    /// ```
    pub fn push_blank(&mut self, newlines: usize, spaces: usize) -> Result<(), AllocError>
        requires few_newlines { newlines ≤ BLANK_NEWLINES }
        requires few_spaces { spaces ≤ BLANK_SPACES }
        ensures ok { OnOk result (self.new ≡ appended self.old (blank_run newlines spaces)) }
        ensures unchanged { OnErr result (self.new ≡ self.old) }
        ensures refused { OnErr result ((appended self.old (blank_run newlines spaces)).kind ≡ OnHeap) }
    {
        self.push_str(blank_text(newlines, spaces))
    }

    /// A builder of equal text and kind, with this builder's allocator.
    ///
    /// Only a builder on the heap can be refused a clone. The clone has the room that its text needs,
    /// and none that a larger capacity left over.
    pub fn clone(&self) -> Result<SmolStrBuilder, AllocError>
        ensures ok { IfOk result (λ copy. copy ≡ self.now) }
        ensures refused { OnErr result (self.now.kind ≡ OnHeap) }
    {
        let alloc = self.alloc;
        let repr = match &self.repr {
            BuilderRepr::Inline(text) => BuilderRepr::Inline(text.duplicate()),
            BuilderRepr::Heap(text) => BuilderRepr::Heap(String::from_str(alloc, text.as_str())?),
        };
        Ok(SmolStrBuilder {
            alloc,
            expected: 0,
            repr,
        })
    }
}

/// For containers of builders; calls [`SmolStrBuilder::clone`].
impl Clone for SmolStrBuilder {
    ghost is_clone = { λ b copy. copy ≡ b };

    ghost is_infallible = { λ b. b.kind ≡ InBuffer };

    fn clone(&self) -> Result<SmolStrBuilder, AllocError>
        ensures ok { IfOk result (λ copy. copy ≡ self.now) }
        ensures refused { OnErr result (self.now.kind ≡ OnHeap) }
    {
        SmolStrBuilder::clone(self)
    }
}
