//! Words and lanes of any bytes: read, and compared.
ghost use Rattle.std.specs.Prelude.{◌≡◌, ◌↔◌, IsTrue, ◌+◌, ◌<◌, ◌≤◌, length, take, drop, nat_eq};
ghost use Rattle.std.specs.Cmp.Lexicographic.{pointwise};
ghost use Rattle.std.specs.Simd.Lanes.{Each1};
ghost use Rattle.smol_str.specs.Words.{word};

use std::simd::prelude::*;

/// The `N` bytes from an index on.
#[inline(always)]
pub(crate) fn load<const N: usize>(bytes: &[u8], at: usize) -> Simd<u8, N>
    requires { at + N ≤ length bytes.now }
    ensures lanes { result ≡ take N (drop at bytes.now) }
    ensures long { length result ≡ N }
    ensures fits { Each1 (λ x. x < 256) result }
{
    Simd::from_slice(&bytes[at..])
}

#[inline(always)]
pub(crate) fn read_u64(bytes: &[u8], at: usize) -> u64
    requires { at + 8 ≤ length bytes.now }
    ensures { result ≡ word 8 bytes.now at }
{
    u64::from_le_bytes(*bytes[at..].first_chunk::<8>().unwrap())
}

/// Whether the texts are equal. From 8 to 128 bytes they are compared by blocks that may overlap, which takes fewer
/// instructions than std's loop; that is as good for others.
#[inline(always)]
pub(crate) fn equal_by_blocks(left: &str, right: &str) -> bool
    ensures { result ≡ pointwise nat_eq left.now right.now }
{
    let len = left.len();
    if len != right.len() {
        return false;
    }
    match len {
        8..=32 => equal_by_overlapping_words(left.as_bytes(), right.as_bytes()),
        33..=64 => equal_by_overlapping_lanes::<32>(left.as_bytes(), right.as_bytes()),
        65..=128 => equal_by_overlapping_lanes::<64>(left.as_bytes(), right.as_bytes()),
        _ => left == right,
    }
}

/// Whether the bytes are equal: the first `N` and the last, which may overlap.
#[inline(always)]
fn equal_by_overlapping_lanes<const N: usize>(left: &[u8], right: &[u8]) -> bool
    requires few { (0 < N) × (N ≤ 64) }
    requires long { length left.now ≡ length right.now }
    requires least { N ≤ length left.now }
    requires most { length left.now ≤ N + N }
    ensures { result ≡ pointwise nat_eq left.now right.now }
{
    let last = left.len() - N;
    equal_lanes::<N>(left, right, 0) & equal_lanes::<N>(left, right, last)
}

/// Whether the `N` bytes from an index on are equal.
#[inline(always)]
fn equal_lanes<const N: usize>(left: &[u8], right: &[u8], at: usize) -> bool
    requires few { (0 < N) × (N ≤ 64) }
    requires in_left { at + N ≤ length left.now }
    requires in_right { at + N ≤ length right.now }
    ensures { IsTrue result ↔ (take N (drop at left.now) ≡ take N (drop at right.now)) }
{
    !load::<N>(left, at).simd_ne(load::<N>(right, at)).any()
}

/// Whether the bytes are equal: the first words and the last, which may overlap.
#[inline(always)]
fn equal_by_overlapping_words(left: &[u8], right: &[u8]) -> bool
    requires long { length left.now ≡ length right.now }
    requires least { 8 ≤ length left.now }
    requires most { length left.now ≤ 32 }
    ensures { result ≡ pointwise nat_eq left.now right.now }
{
    let len = left.len();
    if len <= 16 {
        return equal_word_pairs(left, right, 0, len - 8);
    }
    if !equal_word_pairs(left, right, 0, 8) {
        return false;
    }
    equal_word_pairs(left, right, len - 16, len - 8)
}

/// Whether two words are equal; neither decides alone, so that nothing branches between them.
#[inline(always)]
fn equal_word_pairs(left: &[u8], right: &[u8], first: usize, second: usize) -> bool
    requires first_left { first + 8 ≤ length left.now }
    requires first_right { first + 8 ≤ length right.now }
    requires second_left { second + 8 ≤ length left.now }
    requires second_right { second + 8 ≤ length right.now }
    ensures { IsTrue result ↔ (word 8 left.now first ≡ word 8 right.now first)
        × (word 8 left.now second ≡ word 8 right.now second) }
{
    (read_u64(left, first) == read_u64(right, first))
        & (read_u64(left, second) == read_u64(right, second))
}
