//! New texts made from a `str`, as values: its matches replaced, or its case changed.
ghost use Rattle.std.specs.Prelude.{◌≡◌, ℕ, List, IfOk, OnErr};
ghost use Rattle.std.specs.Str.{chars};
ghost use Rattle.smol_str.specs.Text.{IsShort};
ghost use Rattle.smol_str.specs.Meaning.{IsValueOf};
ghost use Rattle.smol_str.specs.Case.{lower, upper, lowercased, uppercased};
ghost use Rattle.smol_str.specs.Cut.{IsOnlyCut, joined_by};
ghost use Rattle.smol_str.specs.Replace.{no_limit, replaced, replaced_all};

mod ascii_case;
mod case_ranges;
mod full_case;
mod mapped;
mod replace;
mod sigma;

use crate::kernel::AsciiCase;
use crate::value::SmolStr;
use ascii_case::to_ascii_case;
use full_case::to_full_case;
use replace::replace;
use std::alloc::{AllocError, Global};

/// Calls of a `str` that return a new text, as a [`SmolStr`].
///
/// Each returns the text that the method of Rust's `str` does whose name it begins with, in the
/// place of that text. A short result takes no memory, however long the text is that the call
/// reads. A call that is refused memory returns [`AllocError`] and makes nothing. Case follows the
/// toolchain's Unicode, 18.0.
///
/// ```
/// let line = "Let x = 1";
/// let keyword = line.replacen_smolstr(alloc, "Let", "let", 1)?;
/// assert_eq!(rt; keyword.as_str(), "let x = 1");
/// ```
pub trait StrExt {
    /// The text that the calls read.
    ghost content: { Self → List ℕ };

    /// The text with `to` in place of the first `count` matches of `from`, as `str::replacen`.
    ///
    /// Matches are taken from the left, and the search goes on behind each. The empty pattern
    /// matches before each character and at the end.
    fn replacen_smolstr(
        &self,
        alloc: Global,
        from: &str,
        to: &str,
        count: usize,
    ) -> Result<SmolStr, AllocError>
        ensures ok { IfOk result (λ v.
            IsValueOf (replaced (content self.now) (chars from.now) (chars to.now) count) v) }
        ensures cut { (pieces : List (List ℕ)) ×
            IsOnlyCut (content self.now) (chars from.now) count pieces ×
            IfOk result (λ v. v.text ≡ joined_by (chars to.now) pieces) }
        ensures refused { OnErr result
            (¬ (IsShort (replaced (content self.now) (chars from.now) (chars to.now) count))) };

    /// The text with `to` in place of each match of `from`, as `str::replace`.
    ///
    /// ```
    /// let path = "a\\b\\c".replace_smolstr(alloc, "\\", "/")?;
    /// assert_eq!(rt; path.as_str(), "a/b/c");
    /// ```
    fn replace_smolstr(&self, alloc: Global, from: &str, to: &str) -> Result<SmolStr, AllocError>
        ensures ok { IfOk result (λ v.
            IsValueOf (replaced_all (content self.now) (chars from.now) (chars to.now)) v) }
        ensures cut { (pieces : List (List ℕ)) ×
            IsOnlyCut (content self.now) (chars from.now) (no_limit (content self.now)) pieces ×
            IfOk result (λ v. v.text ≡ joined_by (chars to.now) pieces) }
        ensures refused { OnErr result
            (¬ (IsShort (replaced_all (content self.now) (chars from.now) (chars to.now)))) };

    /// The text with A to Z as a to z, as `str::to_ascii_lowercase`. No short text is refused.
    ///
    /// ```
    /// let header = "Content-Type".to_ascii_lowercase_smolstr(alloc)?;
    /// assert_eq!(rt; header.as_str(), "content-type");
    /// ```
    fn to_ascii_lowercase_smolstr(&self, alloc: Global) -> Result<SmolStr, AllocError>
        ensures ok { IfOk result (λ v. IsValueOf (lower (content self.now)) v) }
        ensures refused { OnErr result (¬ (IsShort (content self.now))) };

    /// The text with a to z as A to Z, as `str::to_ascii_uppercase`. No short text is refused.
    fn to_ascii_uppercase_smolstr(&self, alloc: Global) -> Result<SmolStr, AllocError>
        ensures ok { IfOk result (λ v. IsValueOf (upper (content self.now)) v) }
        ensures refused { OnErr result (¬ (IsShort (content self.now))) };

    /// The text in lower case as Unicode maps it, as `str::to_lowercase`: `Σ` at the end of a word
    /// becomes `ς`, in short texts too. The ASCII front of a text is in lower case of ASCII
    /// ([`laws::full_case`](crate::laws::full_case)).
    ///
    /// No short result is refused.
    ///
    /// ```
    /// let word = "ΟΔΟΣ".to_lowercase_smolstr(alloc)?;
    /// assert_eq!(rt; word.as_str(), "οδος");
    /// ```
    fn to_lowercase_smolstr(&self, alloc: Global) -> Result<SmolStr, AllocError>
        ensures ok { IfOk result (λ v. IsValueOf (lowercased (content self.now)) v) }
        ensures refused { OnErr result (¬ (IsShort (lowercased (content self.now)))) };

    /// The text in upper case as Unicode maps it, as `str::to_uppercase`: `ß` becomes `SS`.
    ///
    /// No short result is refused.
    fn to_uppercase_smolstr(&self, alloc: Global) -> Result<SmolStr, AllocError>
        ensures ok { IfOk result (λ v. IsValueOf (uppercased (content self.now)) v) }
        ensures refused { OnErr result (¬ (IsShort (uppercased (content self.now)))) };
}

impl StrExt for &str {
    ghost content = { λ s. chars s.now };

    #[inline(always)]
    #[tactic(auto, using(crate::proofs::CutLemmas::Replacing::replacements))]
    fn replacen_smolstr(
        &self,
        alloc: Global,
        from: &str,
        to: &str,
        count: usize,
    ) -> Result<SmolStr, AllocError> {
        replace(alloc, self, from, to, count)
    }

    #[inline(always)]
    #[tactic(auto, using(crate::proofs::CutLemmas::Replacing::replacements))]
    fn replace_smolstr(&self, alloc: Global, from: &str, to: &str) -> Result<SmolStr, AllocError> {
        // No text has so many matches that this limit leaves one out.
        replace(alloc, self, from, to, usize::MAX)
    }

    fn to_ascii_lowercase_smolstr(&self, alloc: Global) -> Result<SmolStr, AllocError> {
        to_ascii_case(alloc, self, AsciiCase::Lower)
    }

    fn to_ascii_uppercase_smolstr(&self, alloc: Global) -> Result<SmolStr, AllocError> {
        to_ascii_case(alloc, self, AsciiCase::Upper)
    }

    fn to_lowercase_smolstr(&self, alloc: Global) -> Result<SmolStr, AllocError> {
        to_full_case(alloc, self, AsciiCase::Lower)
    }

    fn to_uppercase_smolstr(&self, alloc: Global) -> Result<SmolStr, AllocError> {
        to_full_case(alloc, self, AsciiCase::Upper)
    }
}
