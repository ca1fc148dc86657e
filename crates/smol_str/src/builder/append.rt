//! For the library's own loops: builders that expect a text, appends that look for the heap first, and where a text leaves its
//! buffer.
ghost use Rattle.std.specs.Prelude.{◌≡◌, ◌<◌, [], ◌∷◌, length, IfOk, OnOk, OnErr};
ghost use Rattle.std.specs.Str.{chars};
ghost use Rattle.std.specs.String.{string_bytes};
ghost use Rattle.smol_str.specs.Text.{IsShort};
ghost use Rattle.smol_str.specs.BuilderState.{InBuffer, OnHeap, empty_builder, appended};

use super::{BuilderRepr, SmolStrBuilder};
use crate::buffer::{INLINE_CAP, InlineText};
use crate::bytes::ascii::ascii_text;
use std::alloc::{AllocError, Global};

impl SmolStrBuilder {
    /// An empty builder whose text is expected to have so many bytes: it asks for room for them where it leaves its buffer.
    #[inline(always)]
    pub(crate) const fn expecting(alloc: Global, expected: usize) -> SmolStrBuilder
        ensures { result ≡ empty_builder InBuffer }
    {
        SmolStrBuilder {
            alloc,
            expected,
            repr: BuilderRepr::Inline(InlineText::new()),
        }
    }

    /// A builder of a short text, in its buffer, that is expected to grow to so many bytes.
    #[inline(always)]
    #[tactic(auto, using(crate::proofs::BuilderLemmas::State::begun))]
    pub(crate) fn from_short(alloc: Global, text: InlineText, expected: usize) -> SmolStrBuilder
        requires { IsShort text }
        ensures { result ≡ appended (empty_builder InBuffer) text }
    {
        SmolStrBuilder {
            alloc,
            expected,
            repr: BuilderRepr::Inline(text),
        }
    }

    /// A builder of a text that is longer than the buffer, on the heap.
    #[inline(always)]
    #[tactic(auto, using(crate::proofs::BuilderLemmas::State::begun))]
    pub(crate) fn from_long(alloc: Global, text: String) -> SmolStrBuilder
        requires { INLINE_CAP < length (string_bytes text) }
        ensures { result ≡ appended (empty_builder InBuffer) (chars (string_bytes text)) }
    {
        SmolStrBuilder {
            alloc,
            expected: 0,
            repr: BuilderRepr::Heap(text),
        }
    }

    /// Like [`SmolStrBuilder::push`], but looks for the heap first: for loops over the characters of a long text.
    #[inline(always)]
    pub(crate) fn push_heap_first(&mut self, character: char) -> Result<(), AllocError>
        ensures ok { OnOk result (self.new ≡ appended self.old (character ∷ [])) }
        ensures unchanged { OnErr result (self.new ≡ self.old) }
        ensures refused { OnErr result ((appended self.old (character ∷ [])).kind ≡ OnHeap) }
    {
        if let BuilderRepr::Heap(heap) = &mut self.repr {
            return heap.push(character);
        }
        self.push(character)
    }

    /// Like [`SmolStrBuilder::push_str`], but looks for the heap first: for loops over the pieces of a long text.
    #[inline(always)]
    pub(crate) fn push_str_heap_first(&mut self, text: &str) -> Result<(), AllocError>
        ensures ok { OnOk result (self.new ≡ appended self.old (chars text.now)) }
        ensures unchanged { OnErr result (self.new ≡ self.old) }
        ensures refused { OnErr result ((appended self.old (chars text.now)).kind ≡ OnHeap) }
    {
        if let BuilderRepr::Heap(heap) = &mut self.repr {
            return heap.push_str(text);
        }
        self.push_str(text)
    }

    /// Slow path of [`SmolStrBuilder::push`]; only here is the byte spilled to memory.
    #[inline(never)]
    pub(super) fn push_ascii_on_heap(&mut self, byte: u8) -> Result<(), AllocError>
        requires ascii { byte < 128 }
        requires heap { (appended self.old (byte ∷ [])).kind ≡ OnHeap }
        ensures ok { OnOk result (self.new ≡ appended self.old (byte ∷ [])) }
        ensures unchanged { OnErr result (self.new ≡ self.old) }
        ensures refused { OnErr result ((appended self.old (byte ∷ [])).kind ≡ OnHeap) }
    {
        match &mut self.repr {
            // One store: `push_str` would call `memcpy`.
            BuilderRepr::Heap(heap) => heap.push(byte as char),
            BuilderRepr::Inline(_) => self.push_on_heap(ascii_text(&[byte]), INLINE_CAP),
        }
    }

    /// Slow path of [`SmolStrBuilder::push`] for a character past ASCII. On the heap its bytes are stored in place: `memcpy`
    /// would wait for bytes that were stored one by one.
    #[inline(never)]
    pub(super) fn push_wide_on_heap(&mut self, character: char) -> Result<(), AllocError>
        requires heap { (appended self.old (character ∷ [])).kind ≡ OnHeap }
        ensures ok { OnOk result (self.new ≡ appended self.old (character ∷ [])) }
        ensures unchanged { OnErr result (self.new ≡ self.old) }
        ensures refused { OnErr result ((appended self.old (character ∷ [])).kind ≡ OnHeap) }
    {
        if let BuilderRepr::Heap(heap) = &mut self.repr {
            return heap.push(character);
        }
        let mut buf = [0; 4];
        self.push_on_heap(character.encode_utf8(&mut buf), INLINE_CAP)
    }

    /// Slow path of the appends, kept out of line so that the fast path inlines. A builder that moves to the heap asks for
    /// room for all that it expects; for `spare` bytes more where its text is longer than that.
    #[inline(never)]
    pub(super) fn push_on_heap(&mut self, text: &str, spare: usize) -> Result<(), AllocError>
        requires { (appended self.old (chars text.now)).kind ≡ OnHeap }
        ensures ok { OnOk result (self.new ≡ appended self.old (chars text.now)) }
        ensures unchanged { OnErr result (self.new ≡ self.old) }
        ensures refused { OnErr result ((appended self.old (chars text.now)).kind ≡ OnHeap) }
    {
        match &mut self.repr {
            BuilderRepr::Heap(heap) => heap.push_str(text),
            BuilderRepr::Inline(short) => {
                let len = short.len().saturating_add(text.len());
                let room = if len <= self.expected {
                    self.expected
                } else {
                    len.saturating_add(spare)
                };
                // Memory first: a refusal leaves the buffer as it is.
                let mut heap = with_room(self.alloc, short.as_str(), room)?;
                heap.push_str(text)?;
                self.repr = BuilderRepr::Heap(heap);
                Ok(())
            }
        }
    }
}

/// A `String` of a short text with room for so many bytes.
#[inline(always)]
fn with_room(alloc: Global, text: &str, room: usize) -> Result<String, AllocError>
    ensures { IfOk result (λ heap. string_bytes heap ≡ text.now) }
{
    let mut heap = String::with_capacity(alloc, room)?;
    if !text.is_empty() {
        heap.push_str(text)?;
    }
    Ok(heap)
}
