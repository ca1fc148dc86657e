//! std's traits for collecting and extending: `iter.collect(alloc)` and `builder.extend(iter)`.
ghost use Rattle.std.specs.Prelude.{◌≡◌, List, IfOk, OnOk, OnErr};
ghost use Rattle.std.specs.Iterator.{Drains, IsFinite};
ghost use Rattle.smol_str.specs.Meaning.{IsValueOf};
ghost use Rattle.smol_str.specs.BuilderState.{appended};
ghost use Rattle.smol_str.specs.Collect.{AppendedAll, StoppedAt, Outgrown};

use super::{Piece, append_all, collect};
use crate::builder::SmolStrBuilder;
use crate::value::SmolStr;
use std::alloc::{AllocError, Global};
use std::iter::{Extend, FromIterator};

/// A value of the items' texts, one after another, of any [`Piece`].
///
/// std's `collect` cannot say when memory is refused: while the joined text is short it is not, as
/// [`SmolStr::from_chars`] has it. After a refusal nothing is made, and the iterator is dropped.
impl<P: Piece> FromIterator<P> for SmolStr {
    type Alloc = Global;

    ghost from_iter_gives = { λ items v. IsValueOf (P.texts items) v };

    fn from_iter<U: IntoIterator<Item = P>>(alloc: Global, iter: U) -> Result<SmolStr, AllocError>
        requires can { (it : U.IntoIter) → U.into_iter_gives iter it → U.IntoIter.can_next it }
        requires ends { (it : U.IntoIter) → U.into_iter_gives iter it → IsFinite (U.IntoIter.remaining it) }
        ensures ran { IfOk result (λ v. (it : U.IntoIter) × (items : List P) × U.into_iter_gives iter it
            × Drains U.IntoIter.next_gives it items × IsValueOf (P.texts items) v) }
        ensures refused { OnErr result ((it : U.IntoIter) × U.into_iter_gives iter it
            × Outgrown P.texts U.IntoIter.next_gives it) }
    {
        collect(alloc, iter.into_iter())
    }
}

/// Appends the items' texts, in order, of any [`Piece`].
///
/// A refusal is [`AllocError`]: the texts of the items before the refused one stay appended, and the
/// iterator is dropped.
impl<P: Piece> Extend<P> for SmolStrBuilder {
    ghost extend_gives = { λ old items new. new ≡ appended old (P.texts items) };

    fn extend<U: IntoIterator<Item = P>>(&mut self, iter: U) -> Result<(), AllocError>
        requires can { (it : U.IntoIter) → U.into_iter_gives iter it → U.IntoIter.can_next it }
        requires ends { (it : U.IntoIter) → U.into_iter_gives iter it → IsFinite (U.IntoIter.remaining it) }
        ensures ok { OnOk result ((it : U.IntoIter) × U.into_iter_gives iter it
            × AppendedAll P.texts U.IntoIter.next_gives it self.old self.new) }
        ensures stopped { OnErr result ((it : U.IntoIter) × U.into_iter_gives iter it
            × StoppedAt P.texts U.IntoIter.next_gives it self.old self.new) }
    {
        append_all(self, iter.into_iter())
    }
}
