//! A builder for std's traits: its text lent and printed, and an empty one made.
ghost use Rattle.std.specs.Prelude.{◌≡◌, IfOk, IsOk, IsTrue, encode_utf8_all};
ghost use Rattle.std.specs.Fmt.{debug_str};
ghost use Rattle.std.specs.Str.{all_scalars};
ghost use Rattle.smol_str.specs.Text.{IsShort};
ghost use Rattle.smol_str.specs.BuilderState.{InBuffer, empty_builder};

use super::SmolStrBuilder;
use std::alloc::{AllocError, Global};
use std::convert::{AsSlice, AsStr};
use std::default::{Emptied, MadeWith};
use std::fmt::{self, Debug, Formatter, Write};

/// For code over anything that lends a text; calls [`SmolStrBuilder::as_str`].
impl AsStr for SmolStrBuilder {
    ghost text = { λ b. encode_utf8_all b.text };

    #[inline(always)]
    fn as_str(&self) -> &str
        ensures bytes { result.now ≡ encode_utf8_all self.now.text }
        ensures scalars { IsTrue (all_scalars self.now.text) }
        ensures short { self.now.kind ≡ InBuffer → IsShort self.now.text }
    {
        self.as_str()
    }
}

/// For what takes anything that lends bytes, as upstream's `AsRef<[u8]>` of a value does.
impl AsSlice<u8> for SmolStrBuilder {
    ghost items = { λ b. encode_utf8_all b.text };

    #[inline(always)]
    fn as_slice(&self) -> &[u8] {
        self.as_str().as_bytes()
    }
}

/// An empty builder, for `or_default` of a map; replaces upstream's `Default`.
impl MadeWith<Global> for SmolStrBuilder {
    ghost is_made_with = { λ b. b ≡ empty_builder InBuffer };

    fn made_with(alloc: Global) -> SmolStrBuilder {
        SmolStrBuilder::new(alloc)
    }
}

/// An empty builder with the same allocator, for `mem::try_take`, which is never refused one.
impl Emptied for SmolStrBuilder {
    ghost is_emptied = { λ b. b ≡ empty_builder InBuffer };

    fn emptied(like: &SmolStrBuilder) -> Result<SmolStrBuilder, AllocError>
        ensures ok { IsOk result }
        ensures empty { IfOk result (λ b. b ≡ empty_builder InBuffer) }
    {
        Ok(SmolStrBuilder::new(like.alloc))
    }
}

/// The text in quotes, as of a value.
impl Debug for SmolStrBuilder {
    ghost debug_output = { λ b. debug_str (encode_utf8_all b.text) };

    fn fmt<W: Write>(&self, f: &mut Formatter<W>) -> fmt::Result {
        Debug::fmt(self.as_str(), f)
    }
}
