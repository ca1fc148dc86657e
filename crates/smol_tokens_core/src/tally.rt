//! How often each token was seen.
ghost use Rattle.std.specs.Prelude.{◌≡◌, ◌<◌, ◌≤◌, ◌+◌, ◌^◌, [], ◌∷◌, ◌++◌, Some, None, IfOk, IfErr, OnOk, OnErr, MatchBool, MatchOption, length, slice_get, option_map, bytes_eq};
ghost use Rattle.std.specs.Map.{lookup};
ghost use Rattle.std.specs.Str.{chars};
ghost use Rattle.smol_tokens_core.specs.Tally.{by_text, times_of, tally, HasEachOnce};
ghost use Rattle.smol_tokens_core.specs.TallyFaults.{AfterAddFault, given_back, add_fault_message};

use indexmap::IndexMap;
use indexmap::map::Iter;
use smol_str::SmolStr;
use smol_str::stream::ReadFault;
use std::alloc::{AllocError, Global};
use std::error::Error;
use std::fmt;
use std::fmt::{Display, Formatter, Write};
use std::hash::{BuildHasher, BuildHasherDefault, FoldHasher};
use std::marker::Model;

/// Why a token was not counted; it is given back, and the tally is as before.
#[derive(Debug, Drop)]
pub enum AddFault {
    /// The token was not in the tally, and memory was refused.
    OutOfMemory(SmolStr),
    /// The count would pass `u64::MAX`.
    Full(SmolStr),
}

/// The message; the token is not printed.
impl Display for AddFault {
    ghost output = { add_fault_message };

    fn fmt<W: Write>(&self, f: &mut Formatter<W>) -> fmt::Result {
        match self {
            AddFault::OutOfMemory(_token) => Display::fmt(&ReadFault::OutOfMemory, f),
            AddFault::Full(_token) => f.write_str("the count would exceed 18446744073709551615"),
        }
    }
}

impl Error for AddFault {}

/// A table of tokens and how often each was counted, in order of first sight.
///
/// It means the list of pairs of a token's text and its count, each text once. Tokens are compared
/// by their texts alone: values of one text in different places are one token. A token that is there
/// keeps its position and the value that came first.
///
/// ```
/// let mut seen = Tally::new(alloc);
/// seen.add(SmolStr::new_inline("if"), 1)?;
/// assert_eq!(rt; seen.count(&SmolStr::new_inline("if")), Some(1));
/// ```
#[derive(Drop)]
pub struct Tally<S: BuildHasher = BuildHasherDefault<FoldHasher>> {
    counts: IndexMap<SmolStr, u64, S>,
}

impl<S: BuildHasher> Model for Tally<S> {
    ghost use Rattle.std.specs.Prelude.{ℕ, List};
    ghost use Rattle.smol_tokens_core.specs.Tally.{by_text, HasEachOnce};

    ghost Value = { List (List ℕ × ℕ) };

    ghost view = { λ s. by_text s.counts.entries };

    ghost invariant = { λ s. HasEachOnce (by_text s.counts.entries) };
}

impl Tally<BuildHasherDefault<FoldHasher>> {
    /// An empty tally, which takes no memory.
    ///
    /// The seed of its hasher is fixed, so whoever picks the tokens can make counting them take quadratic time. For
    /// tokens of a stranger give [`Tally::with_hasher`] a `RandomState`.
    pub fn new(alloc: Global) -> Self
        ensures { result ≡ [] }
    {
        Tally::with_hasher(alloc, BuildHasherDefault::new())
    }
}

impl<S: BuildHasher> Tally<S> {
    /// An empty tally that hashes by `state`, and takes no memory. What it counts does not depend on the state.
    pub fn with_hasher(alloc: Global, state: S) -> Tally<S>
        ensures { result ≡ [] }
    {
        Tally {
            counts: IndexMap::with_hasher(alloc, state),
        }
    }

    /// Counts a token so many `times` more, and returns its count then.
    ///
    /// A new token goes last, also with 0 `times`. A token that is there takes no memory. Nothing
    /// changes after a refusal, and the token comes back in it. It is [`AddFault::Full`] where the
    /// count would pass `u64::MAX`, which is tested first, and [`AddFault::OutOfMemory`] where there
    /// is no room for a new token.
    pub fn add(&mut self, token: SmolStr, times: u64) -> Result<u64, AddFault>
        ensures ok { OnOk result (self.new ≡ tally (self.old ++ (token.text, times) ∷ [])) }
        ensures count { IfOk result (λ count. lookup (bytes_eq token.text) self.new ≡ Some count) }
        ensures fits { OnOk result (times_of token.text self.old + times < 2 ^ 64) }

        ensures fault { IfErr result (AfterAddFault self.old token.text times) }
        ensures back { IfErr result (λ fault. given_back fault ≡ token) }
        ensures unchanged { OnErr result (self.new ≡ self.old) }
    {
        match self.counts.get_mut(token.as_str()) {
            Some(count) => add_in_place(count, times).ok_or(AddFault::Full(token)),
            None => {
                if let Err(refused) = self.counts.insert(token, times) {
                    return Err(AddFault::OutOfMemory(refused.value.0));
                }
                Ok(times)
            }
        }
    }

    /// Counts a text so many `times` more; false where its count would pass `u64::MAX`. A value is made only of a text that
    /// is not in the tally.
    #[inline(always)]
    pub(crate) fn add_text(
        &mut self,
        alloc: Global,
        text: &str,
        times: u64,
    ) -> Result<bool, AllocError>
        ensures { IfOk result (λ fits. MatchBool fits
            ((self.new ≡ tally (self.old ++ (chars text.now, times) ∷ []))
            × (times_of (chars text.now) self.old + times < 2 ^ 64))
            (2 ^ 64 ≤ times_of (chars text.now) self.old + times)) }
    {
        match self.counts.get_mut(text) {
            Some(count) => Ok(add_in_place(count, times).is_some()),
            None => {
                self.counts.insert(SmolStr::new(alloc, text)?, times)?;
                Ok(true)
            }
        }
    }

    /// The count of a token, by its text; `None` where it was never added.
    pub fn count(&self, token: &SmolStr) -> Option<u64>
        ensures { result ≡ lookup (bytes_eq token.now.text) self.now }
    {
        self.counts.get(token).copied()
    }

    /// The number of different tokens.
    pub fn len(&self) -> usize
        ensures len { result ≡ length self.now }
        ensures once { HasEachOnce self.now }
    {
        self.counts.len()
    }

    /// The tokens in order of first sight, each with its count.
    ///
    /// ```
    /// let mut seen = Tally::new(alloc);
    /// seen.add(SmolStr::new_inline("if"), 2)?;
    /// for (token, count) in seen.iter() {
    ///     assert_eq!(rt; (token.as_str(), *count), ("if", 2));
    /// }
    /// ```
    pub fn iter(&self) -> Iter<'_, SmolStr, u64>
        ensures { by_text result ≡ self.now }
    {
        self.counts.iter()
    }

    /// The token at a position, from 0 in order of first sight, and its count.
    pub fn at(&self, index: usize) -> Option<(&SmolStr, u64)>
        ensures { option_map (λ entry. (entry.0.now.text, entry.1)) result ≡ slice_get self.now index }
    {
        let (token, count) = self.counts.get_index(index)?;
        Some((token, *count))
    }
}

/// Adds to a count and returns it; `None`, and the count as before, where it would pass `u64::MAX`.
#[inline(always)]
fn add_in_place(count: &mut u64, times: u64) -> Option<u64>
    ensures { MatchOption result ((count.new ≡ count.old) × (2 ^ 64 ≤ count.old + times))
        (λ more. (count.new ≡ more) × (more ≡ count.old + times) × (more < 2 ^ 64)) }
{
    let more = count.checked_add(times)?;
    *count = more;
    Some(more)
}
