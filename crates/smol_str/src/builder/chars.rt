//! Characters of an iterator, appended.
ghost use Rattle.std.specs.Prelude.{◌≡◌, ◌⊎◌, ℕ, List, [], ◌∷◌, OnSome, OnOk, OnErr};
ghost use Rattle.std.specs.Iterator.{IsFinite, YieldsThen};
ghost use Rattle.smol_str.specs.BuilderState.{OnHeap, appended};
ghost use Rattle.smol_str.specs.BuilderArms.{heap_builder};
ghost use Rattle.smol_str.specs.Collect.{AppendedAll, StoppedAt};

use super::{BuilderRepr, SmolStrBuilder};
use std::alloc::AllocError;

impl SmolStrBuilder {
    /// Appends the characters, in order.
    ///
    /// A refusal is [`AllocError`]: the characters before the refused one stay appended, and the
    /// iterator is dropped. `builder.extend(iter)` does the same.
    ///
    /// ```
    /// let mut builder = SmolStrBuilder::new(alloc);
    /// builder.extend_chars("abc".chars().rev())?;
    /// assert_eq!(rt; builder.as_str(), "cba");
    /// ```
    #[inline(always)]
    pub fn extend_chars<I: Iterator<Item = char>>(&mut self, iter: I) -> Result<(), AllocError>
        requires can { I.can_next iter }
        requires ends { IsFinite (I.remaining iter) }
        ensures ok { OnOk result (AppendedAll (λ items. items) I.next_gives iter self.old self.new) }
        ensures stopped { OnErr result (StoppedAt (λ items. items) I.next_gives iter self.old self.new) }
    {
        let mut iter = iter;
        match self.extend_ascii(&mut iter) {
            Some(other) => self.extend_rest(other, iter),
            None => Ok(()),
        }
    }

    /// Appends the characters of an iterator while they are ASCII and the builder stays in its buffer, and returns the
    /// first other one.
    #[inline(always)]
    fn extend_ascii<I: Iterator<Item = char>>(&mut self, iter: &mut I) -> Option<char>
        requires can { I.can_next iter.old }
        requires ends { IsFinite (I.remaining iter.old) }
        ensures drew { (items : List ℕ) × YieldsThen I.next_gives iter.old items result iter.new
            × (self.new ≡ appended self.old items) }
        ensures more { OnSome result (I.can_next iter.new × IsFinite (I.remaining iter.new)) }
    {
        match &mut self.repr {
            BuilderRepr::Inline(text) => text.extend_ascii(iter),
            BuilderRepr::Heap(_) => iter.next(),
        }
    }

    /// Slow path, kept out of line so that the fast path inlines: appends a character, and then those of an iterator.
    #[inline(never)]
    fn extend_rest<I: Iterator<Item = char>>(
        &mut self,
        first: char,
        iter: I,
    ) -> Result<(), AllocError>
        requires can { I.can_next iter }
        requires ends { IsFinite (I.remaining iter) }
        ensures ok { OnOk result (AppendedAll (λ items. first ∷ items) I.next_gives iter self.old self.new) }
        ensures stopped { OnErr result
            (((self.new ≡ self.old) × ((appended self.old (first ∷ [])).kind ≡ OnHeap))
            ⊎ StoppedAt (λ items. first ∷ items) I.next_gives iter self.old self.new) }
    {
        self.push(first)?;
        if let BuilderRepr::Heap(heap) = &mut self.repr {
            return extend_heap(heap, iter);
        }
        for character in iter {
            self.push_heap_first(character)?;
        }
        Ok(())
    }
}

/// Appends the characters of an iterator to a text on the heap.
#[inline(always)]
fn extend_heap<I: Iterator<Item = char>>(heap: &mut String, iter: I) -> Result<(), AllocError>
    requires can { I.can_next iter }
    requires ends { IsFinite (I.remaining iter) }
    ensures ok { OnOk result (AppendedAll (λ items. items) I.next_gives iter (heap_builder heap.old) (heap_builder heap.new)) }
    ensures stopped { OnErr result (StoppedAt (λ items. items) I.next_gives iter (heap_builder heap.old) (heap_builder heap.new)) }
{
    for character in iter {
        heap.push(character)?;
    }
    Ok(())
}
