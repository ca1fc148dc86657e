//! Searches for bytes. The needle's first byte is looked for first, since preparing a search for the
//! whole needle has a cost of its own.
ghost use Rattle.std.specs.Prelude.{◌≡◌, ◌↔◌, ◌<◌, ◌≤◌, ◌+◌, ℕ, None, length, drop};
ghost use Rattle.std.specs.Int.{bit_at};
ghost use Rattle.smol_str.specs.Needle.{needle_bytes, IsSoundNeedle};
ghost use Rattle.memchr.specs.Find.{FindsNeedle, OccursAt, IsFirst, IsFirstByte, Passes, is_byte};

use crate::bytes::words::load;
use memchr::memmem::Finder;
use memchr::{memchr, memmem};
use std::simd::prelude::*;

/// How many bytes are tested for the needle's first byte before `memchr` is called.
const NEAR: usize = 64;

/// How many of them are tested at once.
pub(crate) const SEARCH_LANES: usize = 32;

/// `text[from..]` as bytes, stated with `drop`.
#[inline(always)]
pub(crate) fn bytes_from(text: &str, from: usize) -> &[u8]
    requires { from ≤ length text.now }
    ensures { result.now ≡ drop from text.now }
{
    &text.as_bytes()[from..]
}

/// The index of the first match of the needle.
pub(crate) fn find(bytes: &[u8], needle: &[u8]) -> Option<usize>
    requires { 0 < length needle.now }
    ensures { FindsNeedle bytes.now needle.now 0 result }
{
    if needle.len() == 2 {
        return find_two(bytes, needle);
    }
    let first = first_byte(bytes, needle)?;
    if needle.len() == 1 {
        Some(first)
    } else {
        find_whole(bytes, needle)
    }
}

/// Searches for the whole needle. Slow path, kept out of line so that the fast path inlines.
#[inline(never)]
fn find_whole(bytes: &[u8], needle: &[u8]) -> Option<usize>
    ensures { FindsNeedle bytes.now needle.now 0 result }
{
    memmem::find(bytes, needle)
}

/// The index of the needle's first byte; `None` also where the needle is longer than the bytes.
#[inline(always)]
#[tactic(auto, using(crate::proofs::CutLemmas::Match::one_byte))]
pub(crate) fn first_byte(bytes: &[u8], needle: &[u8]) -> Option<usize>
    requires { 0 < length needle.now }
    ensures none { (result ≡ None) → FindsNeedle bytes.now needle.now 0 None }
    ensures one { length needle.now ≡ 1 → FindsNeedle bytes.now needle.now 0 result }
{
    if bytes.len() < needle.len() {
        return None;
    }
    first_index(needle[0], bytes)
}

/// The index of the first byte that is `byte`. In a text of short lines it is near, and found without a call.
#[inline(always)]
fn first_index(byte: u8, bytes: &[u8]) -> Option<usize>
    ensures { IsFirstByte (is_byte byte) bytes.now result }
{
    let mut at = 0;
    while at < NEAR && bytes.len() - at >= SEARCH_LANES {
        if let Some(index) = index_in_lanes(byte, bytes, at) {
            return Some(index);
        }
        at += SEARCH_LANES;
    }
    memchr(byte, bytes)
}

/// The index of the first byte that is `byte`, among those that are tested at once from an index on.
#[inline(always)]
fn index_in_lanes(byte: u8, bytes: &[u8], at: usize) -> Option<usize>
    requires { at + SEARCH_LANES ≤ length bytes.now }
    ensures { IsFirst (Passes (is_byte byte) bytes.now) at (at + SEARCH_LANES) result }
{
    let same = marks::<SEARCH_LANES>(byte, bytes, at);
    if same == 0 {
        return None;
    }
    Some(at + same.trailing_zeros() as usize)
}

/// A bit for each of the `N` bytes from an index on, set where the byte is `byte`.
#[inline(always)]
fn marks<const N: usize>(byte: u8, bytes: &[u8], at: usize) -> u64
    requires few { N ≤ 64 }
    requires within { at + N ≤ length bytes.now }
    ensures { (k : ℕ) →
        (bit_at result k ≡ 1) ↔ ((k < N) × Passes (is_byte byte) bytes.now (at + k)) }
{
    load::<N>(bytes, at).simd_eq(Simd::splat(byte)).to_bitmask()
}

/// How many bytes are `byte`. The last lanes may overlap those before them.
#[inline(never)]
pub(crate) fn count_byte(byte: u8, bytes: &[u8]) -> usize
    requires { SEARCH_LANES ≤ length bytes.now }
{
    let last = bytes.len() - SEARCH_LANES;
    let mut total: usize = 0;
    let mut at = 0;
    while at < last {
        total = total.saturating_add(marks::<SEARCH_LANES>(byte, bytes, at).count_ones() as usize);
        at += SEARCH_LANES;
    }
    let rest = marks::<SEARCH_LANES>(byte, bytes, last) >> (at - last);
    total.saturating_add(rest.count_ones() as usize)
}

/// A text that is searched for again and again, and is not empty. More than two bytes have a search that is prepared
/// once.
#[derive(Drop)]
pub(crate) enum Needle<'n> {
    One(u8),
    Two(&'n [u8]),
    Long(Finder<'n>),
}

impl<'n> Needle<'n> {
    /// The needle of a text.
    #[inline(always)]
    pub(crate) fn new(text: &'n str) -> Needle<'n>
        requires { 0 < length text.now }
        ensures bytes { needle_bytes result ≡ text.now }
        ensures sound { IsSoundNeedle result }
    {
        let bytes = text.as_bytes();
        match bytes.len() {
            1 => Needle::One(bytes[0]),
            2 => Needle::Two(bytes),
            _ => Needle::Long(Finder::new(bytes)),
        }
    }

    /// Its length in bytes.
    #[inline(always)]
    pub(crate) fn len(&self) -> usize
        requires { IsSoundNeedle self.now }
        ensures { result ≡ length (needle_bytes self.now) }
    {
        match self {
            Needle::One(_) => 1,
            Needle::Two(bytes) => bytes.len(),
            Needle::Long(search) => search.needle().len(),
        }
    }

    /// The index of its first match.
    #[inline(always)]
    #[tactic(auto, using(crate::proofs::CutLemmas::Match::one_byte))]
    pub(crate) fn find(&self, bytes: &[u8]) -> Option<usize>
        requires { IsSoundNeedle self.now }
        ensures { FindsNeedle bytes.now (needle_bytes self.now) 0 result }
    {
        match self {
            Needle::One(byte) => first_index(*byte, bytes),
            Needle::Two(needle) => find_two(bytes, needle),
            Needle::Long(search) => search.find(bytes),
        }
    }
}

/// The index of the first match of two bytes. The last lanes may overlap those before them.
fn find_two(bytes: &[u8], needle: &[u8]) -> Option<usize>
    requires { length needle.now ≡ 2 }
    ensures { FindsNeedle bytes.now needle.now 0 result }
{
    let len = bytes.len();
    if len <= 8 {
        return find_two_by_one(bytes, needle);
    }
    if len <= 16 {
        return two_in_ends::<8>(bytes, needle);
    }
    if len <= 32 {
        return two_in_ends::<16>(bytes, needle);
    }
    let last = len - 33;
    let mut at = 0;
    while at < last {
        if let Some(index) = two_in_lanes::<32>(bytes, needle, at) {
            return Some(index);
        }
        at += 32;
    }
    two_in_lanes::<32>(bytes, needle, last)
}

/// The index of the first match of two bytes, where one can begin only at the first `N` indexes or the last `N`.
#[inline(always)]
fn two_in_ends<const N: usize>(bytes: &[u8], needle: &[u8]) -> Option<usize>
    requires two { length needle.now ≡ 2 }
    requires few { N ≤ 64 }
    requires least { N + 1 ≤ length bytes.now }
    requires most { length bytes.now ≤ N + N + 1 }
    ensures { FindsNeedle bytes.now needle.now 0 result }
{
    if let Some(index) = two_in_lanes::<N>(bytes, needle, 0) {
        return Some(index);
    }
    two_in_lanes::<N>(bytes, needle, bytes.len() - N - 1)
}

/// The index of the first match of two bytes, among a few bytes.
fn find_two_by_one(bytes: &[u8], needle: &[u8]) -> Option<usize>
    requires { length needle.now ≡ 2 }
    ensures { FindsNeedle bytes.now needle.now 0 result }
{
    let mut at = 1;
    while at < bytes.len() {
        if bytes[at - 1] == needle[0] && bytes[at] == needle[1] {
            return Some(at - 1);
        }
        at += 1;
    }
    None
}

/// The index of the first match of two bytes among those that begin at one of `N` places from an
/// index on.
#[inline(always)]
fn two_in_lanes<const N: usize>(bytes: &[u8], needle: &[u8], at: usize) -> Option<usize>
    requires two { length needle.now ≡ 2 }
    requires few { N ≤ 64 }
    requires within { at + N + 1 ≤ length bytes.now }
    ensures { IsFirst (OccursAt bytes.now needle.now) at (at + N) result }
{
    let both = marks::<N>(needle[0], bytes, at) & marks::<N>(needle[1], bytes, at + 1);
    if both == 0 {
        return None;
    }
    Some(at + both.trailing_zeros() as usize)
}
