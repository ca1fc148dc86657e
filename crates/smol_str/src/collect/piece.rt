//! What is collected, appended and joined.
ghost use Rattle.std.specs.Prelude.{◌≡◌, ℕ, List, IfSome, OnOk, OnErr};
ghost use Rattle.std.specs.Str.{chars};
ghost use Rattle.std.proofs.Common.{refl};
ghost use Rattle.smol_str.specs.BuilderState.{OnHeap, appended};
ghost use Rattle.smol_str.specs.Joined.{joined, joined_strs, joined_strings, joined_string_refs, char_text, str_text, string_text, string_ref_text};
ghost use Rattle.smol_str.specs.JoinedLaws.{joined-chars, joined-strs, joined-string_refs};

use crate::builder::SmolStrBuilder;
use crate::bytes::ascii::ascii_text;
use crate::value::SmolStr;
use std::alloc::AllocError;

/// An item with a text that is appended in one call: a `char`, `&str`, `String`, `&String`, [`SmolStr`] or `&Step`.
pub trait Piece: Drop {
    ghost text: { Self → List ℕ };

    // The text of items, one after another, in the words of the items' kind.
    ghost texts: { List Self → List ℕ };

    /// Appends the text.
    fn append_to(&self, builder: &mut SmolStrBuilder) -> Result<(), AllocError>
        // On success the builder has the text behind its own.
        ensures ok { OnOk result (builder.new ≡ appended builder.old (text self.now)) }

        // On failure the builder stays. Only a text that would be on the heap can fail.
        ensures unchanged { OnErr result (builder.new ≡ builder.old) }
        ensures refused { OnErr result ((appended builder.old (text self.now)).kind ≡ OnHeap) };

    /// The text, where it lies in memory: [`SmolStr::join`] asks for its room at once, and copies it from there.
    fn lent(&self) -> Option<&str>
        ensures { IfSome result (λ lent. chars lent.now ≡ text self.now) }
    {
        None
    }

    ghost joins: { (items : List Self) → joined text items ≡ texts items };
}

impl Piece for char {
    ghost text = { char_text };

    ghost texts = { λ items. items };

    ghost joins = { joined-chars };

    #[inline(always)]
    fn append_to(&self, builder: &mut SmolStrBuilder) -> Result<(), AllocError> {
        // As `push`, with the path on the heap inlined too: a loop over characters may be of any length.
        let code = *self as u32;
        if code < 0x80 && builder.push_in_buffer(ascii_text(&[code as u8])) {
            return Ok(());
        }
        builder.push_heap_first(*self)
    }
}

impl<'a> Piece for &'a str {
    ghost text = { str_text };

    ghost texts = { joined_strs };

    ghost joins = { joined-strs };

    #[inline(always)]
    fn append_to(&self, builder: &mut SmolStrBuilder) -> Result<(), AllocError> {
        builder.push_str_heap_first(*self)
    }

    #[inline(always)]
    fn lent(&self) -> Option<&str> {
        Some(*self)
    }
}

impl Piece for String {
    ghost text = { string_text };

    ghost texts = { joined_strings };

    ghost joins = { λ _. refl };

    #[inline(always)]
    fn append_to(&self, builder: &mut SmolStrBuilder) -> Result<(), AllocError> {
        builder.push_str_heap_first(self.as_str())
    }

    #[inline(always)]
    fn lent(&self) -> Option<&str> {
        Some(self.as_str())
    }
}

impl<'a> Piece for &'a String {
    ghost text = { string_ref_text };

    ghost texts = { joined_string_refs };

    ghost joins = { joined-string_refs };

    #[inline(always)]
    fn append_to(&self, builder: &mut SmolStrBuilder) -> Result<(), AllocError> {
        builder.push_str_heap_first(self.as_str())
    }

    #[inline(always)]
    fn lent(&self) -> Option<&str> {
        Some(self.as_str())
    }
}

impl Piece for SmolStr {
    ghost text = { λ value. value.text };

    ghost texts = { joined (λ value. value.text) };

    ghost joins = { λ _. refl };

    #[tactic(auto, using(crate::proofs::TextLemmas::Chars::lent))]
    #[inline(always)]
    fn append_to(&self, builder: &mut SmolStrBuilder) -> Result<(), AllocError> {
        builder.push_str_heap_first(self.as_str())
    }

    #[inline(always)]
    fn lent(&self) -> Option<&str> {
        Some(self.as_str())
    }
}
