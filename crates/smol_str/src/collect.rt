//! Texts from the items of an iterator.
//!
//! Collecting is extending an empty builder and finishing it. The items are drawn one at a time and
//! nothing is gathered first, and size hints are not read: they reserve nothing and decide nothing.
//! Memory may be refused only where the text drawn is not short: `Outgrown`, in `specs/Collect.antt`.
//! `extend_chars` writes to the builder's buffer, so it is in `builder/chars.rt`.
ghost use Rattle.std.specs.Prelude.{◌≡◌, IfOk, OnOk, OnErr};
ghost use Rattle.std.specs.Iterator.{IsFinite};
ghost use Rattle.smol_str.specs.Text.{IsResident};
ghost use Rattle.smol_str.specs.Meaning.{Meaning, IsValueOf};
ghost use Rattle.smol_str.specs.BuilderState.{InBuffer, empty_builder};
ghost use Rattle.smol_str.specs.Joined.{joined_strs, joined_strings, joined_string_refs};
ghost use Rattle.smol_str.specs.Collect.{AppendedAll, StoppedAt, Collected, Outgrown};

mod join;
mod piece;
pub mod steps;
mod traits;

use crate::builder::SmolStrBuilder;
use crate::value::SmolStr;
pub use piece::Piece;
use std::alloc::{AllocError, Global};

/// An allocator that collects values: `Global`. You never name it.
///
/// The collecting calls return its `Value`, which is [`SmolStr`]. It puts the result type behind a
/// trait: the borrow checker refuses `SmolStr` here if the iterator's type has several lifetimes.
pub trait ValueAlloc {
    type Value;

    ghost meaning: { Self.Value → Meaning };

    /// A builder without text.
    fn builder(self) -> SmolStrBuilder
        ensures { result ≡ empty_builder InBuffer };

    /// The value of a builder's text.
    fn value_of(builder: SmolStrBuilder) -> Result<Self::Value, AllocError>
        ensures ok { IfOk result (λ v. IsValueOf builder.text (meaning v)) }
        ensures refused { OnErr result (¬ (IsResident builder.text)) };
}

impl ValueAlloc for Global {
    type Value = SmolStr;

    ghost meaning = { λ v. v };

    #[inline(always)]
    fn builder(self) -> SmolStrBuilder {
        SmolStrBuilder::new(self)
    }

    #[inline(always)]
    fn value_of(builder: SmolStrBuilder) -> Result<SmolStr, AllocError> {
        builder.into_value()
    }
}

impl SmolStr {
    /// A value of the characters, in order.
    ///
    /// While their text is short no memory is needed. A refusal is [`AllocError`]: nothing is made,
    /// and the iterator is dropped. `iter.collect(alloc)` does the same, and does not say when memory
    /// may be refused.
    ///
    /// ```
    /// let shout = SmolStr::from_chars(alloc, "abc".chars().rev())?;
    /// assert_eq!(rt; shout.as_str(), "cba");
    /// ```
    pub fn from_chars<A: ValueAlloc, I: Iterator<Item = char>>(
        alloc: A,
        iter: I,
    ) -> Result<A::Value, AllocError>
        requires can { I.can_next iter }
        requires ends { IsFinite (I.remaining iter) }
        ensures ok { IfOk result (Collected (λ items. items) I.next_gives iter A.meaning) }
        ensures refused { OnErr result (Outgrown (λ items. items) I.next_gives iter) }
    {
        let mut builder = alloc.builder();
        builder.extend_chars(iter)?;
        A::value_of(builder)
    }

    /// A value of the texts, one after another: [`SmolStr::from_chars`] of `&str`s.
    ///
    /// ```
    /// let path = SmolStr::from_strs(alloc, "a/b/c".split('/'))?;
    /// assert_eq!(rt; path.as_str(), "abc");
    /// ```
    pub fn from_strs<'a, A: ValueAlloc, I: Iterator<Item = &'a str>>(
        alloc: A,
        iter: I,
    ) -> Result<A::Value, AllocError>
        requires can { I.can_next iter }
        requires ends { IsFinite (I.remaining iter) }
        ensures ok { IfOk result (Collected joined_strs I.next_gives iter A.meaning) }
        ensures refused { OnErr result (Outgrown joined_strs I.next_gives iter) }
    {
        collect(alloc, iter)
    }

    /// A value of the texts, one after another: [`SmolStr::from_chars`] of `String`s, which are
    /// dropped one by one.
    ///
    /// ```
    /// let parts = [String::from_str(alloc, "ab")?, String::from_str(alloc, "c")?];
    /// let whole = SmolStr::from_strings(alloc, parts.into_iter())?;
    /// assert_eq!(rt; whole.as_str(), "abc");
    /// ```
    pub fn from_strings<A: ValueAlloc, I: Iterator<Item = String>>(
        alloc: A,
        iter: I,
    ) -> Result<A::Value, AllocError>
        requires can { I.can_next iter }
        requires ends { IsFinite (I.remaining iter) }
        ensures ok { IfOk result (Collected joined_strings I.next_gives iter A.meaning) }
        ensures refused { OnErr result (Outgrown joined_strings I.next_gives iter) }
    {
        collect(alloc, iter)
    }

    /// A value of the texts, one after another: [`SmolStr::from_chars`] of borrowed `String`s.
    ///
    /// ```
    /// let parts = [String::from_str(alloc, "ab")?, String::from_str(alloc, "c")?];
    /// let whole = SmolStr::from_string_refs(alloc, parts.iter())?;
    /// assert_eq!(rt; whole.as_str(), "abc");
    /// ```
    pub fn from_string_refs<'a, A: ValueAlloc, I: Iterator<Item = &'a String>>(
        alloc: A,
        iter: I,
    ) -> Result<A::Value, AllocError>
        requires can { I.can_next iter }
        requires ends { IsFinite (I.remaining iter) }
        ensures ok { IfOk result (Collected joined_string_refs I.next_gives iter A.meaning) }
        ensures refused { OnErr result (Outgrown joined_string_refs I.next_gives iter) }
    {
        collect(alloc, iter)
    }
}

impl SmolStrBuilder {
    /// Appends the texts, in order: [`SmolStrBuilder::extend_chars`] of `&str`s.
    ///
    /// ```
    /// let mut builder = SmolStrBuilder::new(alloc);
    /// builder.extend_strs("a, b".split(", "))?;
    /// assert_eq!(rt; builder.as_str(), "ab");
    /// ```
    pub fn extend_strs<'a, I: Iterator<Item = &'a str>>(
        &mut self,
        iter: I,
    ) -> Result<(), AllocError>
        requires can { I.can_next iter }
        requires ends { IsFinite (I.remaining iter) }
        ensures ok { OnOk result (AppendedAll joined_strs I.next_gives iter self.old self.new) }
        ensures stopped { OnErr result (StoppedAt joined_strs I.next_gives iter self.old self.new) }
    {
        append_all(self, iter)
    }

    /// Appends the texts, in order: [`SmolStrBuilder::extend_chars`] of borrowed `String`s.
    pub fn extend_strings<'a, I: Iterator<Item = &'a String>>(
        &mut self,
        iter: I,
    ) -> Result<(), AllocError>
        requires can { I.can_next iter }
        requires ends { IsFinite (I.remaining iter) }
        ensures ok { OnOk result (AppendedAll joined_string_refs I.next_gives iter self.old self.new) }
        ensures stopped { OnErr result (StoppedAt joined_string_refs I.next_gives iter self.old self.new) }
    {
        append_all(self, iter)
    }
}

/// Appends the text of each item, in order, up to one that is refused.
pub(crate) fn append_all<P: Piece, I: Iterator<Item = P>>(
    builder: &mut SmolStrBuilder,
    iter: I,
) -> Result<(), AllocError>
    requires can { I.can_next iter }
    requires ends { IsFinite (I.remaining iter) }
    ensures ok { OnOk result (AppendedAll P.texts I.next_gives iter builder.old builder.new) }
    ensures stopped { OnErr result (StoppedAt P.texts I.next_gives iter builder.old builder.new) }
{
    builder.short_in_buffer();
    for piece in iter {
        piece.append_to(builder)?;
    }
    Ok(())
}

/// The value of the texts of all items, one after another.
fn collect<A: ValueAlloc, P: Piece, I: Iterator<Item = P>>(
    alloc: A,
    iter: I,
) -> Result<A::Value, AllocError>
    requires can { I.can_next iter }
    requires ends { IsFinite (I.remaining iter) }
    ensures ok { IfOk result (Collected P.texts I.next_gives iter A.meaning) }
    ensures refused { OnErr result (Outgrown P.texts I.next_gives iter) }
{
    let mut builder = alloc.builder();
    append_all(&mut builder, iter)?;
    A::value_of(builder)
}
