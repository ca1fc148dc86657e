//! Comparisons: a value is compared and hashed as its text, whatever its place.
ghost use Rattle.std.specs.Prelude.{◌≡◌, ◌↔◌, Some, IsTrue, encode_utf8_all, nat_eq};
ghost use Rattle.std.proofs.Common.{refl, rules};
ghost use Rattle.std.specs.Str.{chars};
ghost use Rattle.std.specs.String.{string_bytes};
ghost use Rattle.std.specs.Ordering.{nat_cmp};
ghost use Rattle.std.specs.Cmp.{on_per, on_equiv, on_po, on_total, partial_equiv_from_equiv};
ghost use Rattle.std.specs.Cmp.Lexicographic.{pointwise, nat_list_eq_equiv, nat_list_cmp_total, texts_po, texts_ties, slice_cmp};
ghost use Rattle.std.specs.Cmp.Rules.{hashing};
ghost use Rattle.std.specs.Hash as fed;
ghost use Rattle.smol_str.specs.Buffer.{HaveOneBuffer};
ghost use Rattle.smol_str.specs.KeyLaws.{stands_for-hash, stands_for-same};
ghost use Rattle.smol_str.specs.Keys.{stands_for};

use super::place::Place;
use super::{Repr, SmolStr};
use crate::buffer::{INLINE_CAP, InlineText};
use crate::bytes::words::equal_by_blocks;
use indexmap::Equivalent;
use std::cmp::Ordering;
use std::hash::{Hash, Hasher};

impl SmolStr {
    /// Whether the texts are equal; replaces `==` with a `str` on either side.
    ///
    /// ```
    /// assert!(rt; SmolStr::new_inline("if").eq_str("if"));
    /// ```
    #[inline(always)]
    pub fn eq_str(&self, other: &str) -> bool
        ensures { IsTrue result ↔ (self.now.text ≡ chars other.now) }
    {
        match &self.repr {
            Repr::Inline(text) => equal_by_blocks(text.as_str(), other),
            _ => self.as_str() == other,
        }
    }

    /// Whether the texts are equal; replaces `==` with a `String` on either side.
    #[inline(always)]
    pub fn eq_string(&self, other: &String) -> bool
        ensures { IsTrue result ↔ (self.now.text ≡ chars (string_bytes other.now)) }
    {
        self.eq_str(other.as_str())
    }

    /// The order of the texts, by their characters, which is also that of their bytes.
    ///
    /// ```
    /// assert_eq!(rt; SmolStr::new_inline("if").cmp_str("of"), Ordering::Less);
    /// ```
    #[inline(always)]
    pub fn cmp_str(&self, other: &str) -> Ordering
        ensures texts { result ≡ slice_cmp nat_cmp self.now.text (chars other.now) }
        ensures bytes { result ≡ slice_cmp nat_cmp (encode_utf8_all self.now.text) other.now }
    {
        match &self.repr {
            Repr::Inline(text) if other.len() <= INLINE_CAP => {
                text.order(&InlineText::from_short(other))
            }
            _ => self.as_str().cmp(other),
        }
    }

    /// The order of the texts, as [`SmolStr::cmp_str`].
    pub fn cmp_string(&self, other: &String) -> Ordering
        ensures texts { result ≡ slice_cmp nat_cmp self.now.text (chars (string_bytes other.now)) }
        ensures bytes { result ≡ slice_cmp nat_cmp (encode_utf8_all self.now.text) (string_bytes other.now) }
    {
        self.cmp_str(other.as_str())
    }
}

/// Two values are equal where their texts are.
impl PartialEq for SmolStr {
    ghost eq = { λ x y. pointwise nat_eq x.text y.text };

    ghost laws = { on_per (λ x. x.text) (partial_equiv_from_equiv nat_list_eq_equiv) };

    #[inline(always)]
    fn eq(&self, other: &SmolStr) -> bool
        ensures texts { IsTrue result ↔ (self.now.text ≡ other.now.text) }
        ensures inline_buffers { self.now.place ≡ Place.Inline → other.now.place ≡ Place.Inline →
            IsTrue result ↔ HaveOneBuffer self.now.text other.now.text }
    {
        match (&self.repr, &other.repr) {
            (Repr::Inline(left), Repr::Inline(right)) => left.equal_by_words(right),
            _ => equal_by_blocks(self.as_str(), other.as_str()),
        }
    }
}

impl Eq for SmolStr {
    ghost laws = { on_equiv (λ x. x.text) nat_list_eq_equiv };
}

/// The lexicographic order of the texts' characters, as `str` has it.
impl PartialOrd for SmolStr {
    ghost partial_cmp = { λ x y. Some (slice_cmp nat_cmp x.text y.text) };

    ghost laws = { on_po (λ x. x.text) texts_po };

    fn partial_cmp(&self, other: &SmolStr) -> Option<Ordering> {
        Some(self.cmp(other))
    }
}

impl Ord for SmolStr {
    ghost cmp = { λ x y. slice_cmp nat_cmp x.text y.text };

    ghost total = { on_total (λ x. x.text) nat_list_cmp_total };

    ghost matches_partial_cmp = { λ x y. refl };

    ghost matches_eq = { λ x y. texts_ties x.text y.text };

    #[inline(always)]
    fn cmp(&self, other: &SmolStr) -> Ordering
        ensures texts { result ≡ slice_cmp nat_cmp self.now.text other.now.text }
        ensures bytes { result ≡
            slice_cmp nat_cmp (encode_utf8_all self.now.text) (encode_utf8_all other.now.text) }
    {
        match (&self.repr, &other.repr) {
            (Repr::Inline(left), Repr::Inline(right)) => left.order(right),
            _ => order_as_str(self, other),
        }
    }
}

/// The order where a text is not inline. It is out of line, so that a comparison is small enough to be inlined in a sort.
#[inline(never)]
fn order_as_str(left: &SmolStr, right: &SmolStr) -> Ordering
    ensures { result ≡ slice_cmp nat_cmp left.now.text right.now.text }
{
    left.as_str().cmp(right.as_str())
}

/// Hashing a value makes the writes that hashing its text as a `str` makes.
impl Hash for SmolStr {
    ghost hash_input = { λ s. fed.str (encode_utf8_all s.text) };

    ghost respects_eq = { Prim.search (hashing, rules) };

    fn hash<H: Hasher>(&self, state: &mut H) {
        self.as_str().hash(state);
    }
}

/// A `&str` looks up the values of its text in the maps and sets of `indexmap`, and no value is made of it.
impl Equivalent<SmolStr> for &str {
    ghost equivalent = { λ query key. stands_for query.now key };

    ghost respects_hash = { λ query key. stands_for-hash query.now key };

    ghost respects_eq = { λ query x y. stands_for-same query.now x y };

    fn equivalent(&self, key: &SmolStr) -> bool {
        key.eq_str(self)
    }
}
