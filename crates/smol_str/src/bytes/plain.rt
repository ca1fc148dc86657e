//! The prefix of bytes that JSON writes without escapes, and that of its white space.
ghost use Rattle.std.specs.Prelude.{◌≡◌, ◌<◌, ◌≤◌, ◌+◌, ◌∷◌, ◌++◌, ℕ, List, None, true, false, IfSome, MatchOption, length, take, drop, slice_index};
ghost use Rattle.std.specs.List.{list_all, prefix_len};
ghost use Rattle.json.specs.Print.{escape};
ghost use Rattle.smol_str.specs.Plain.{is_plain, is_space};

use crate::bytes::words::load;
use std::simd::prelude::*;

/// The plain text before the first character that is not, and the rest.
#[inline(always)]
#[tactic(auto, using(crate::proofs::PlainLemmas::fronts))]
pub(crate) fn split_plain(text: &str) -> (&str, &str)
    ensures whole { text.now ≡ result.0.now ++ result.1.now }
    ensures plain { list_all is_plain result.0.now ≡ true }
    ensures escape { escape result.0.now ≡ result.0.now }
    ensures stops { 0 < length result.1.now → is_plain (slice_index result.1.now 0) ≡ false }
    ensures rest { result.1.now ≡ drop (prefix_len is_plain text.now) text.now }
{
    text.split_at(plain_len(text.as_bytes()))
}

/// Whether the text is plain as a whole.
#[inline(always)]
#[tactic(auto, using(crate::proofs::PlainLemmas::runs))]
pub(crate) fn is_all_plain(text: &str) -> bool
    ensures { result ≡ list_all is_plain text.now }
{
    plain_len(text.as_bytes()) == text.len()
}

/// The first byte of a text that begins with an ASCII character, and the rest.
#[inline(always)]
#[tactic(auto, using(crate::proofs::PlainLemmas::seconds))]
pub(crate) fn split_ascii(text: &str) -> Option<(u8, &str)>
    ensures ascii { IfSome result (λ cut. cut.0 < 128) }
    ensures some { IfSome result (λ cut. text.now ≡ cut.0 ∷ cut.1.now) }
    ensures none { result ≡ None → 0 < length text.now → 128 ≤ slice_index text.now 0 }
{
    match text.as_bytes().first() {
        Some(&byte) if byte < 128 => Some((byte, &text[1..])),
        _ => None,
    }
}

/// The text behind an ASCII character with which it begins.
#[inline(always)]
#[tactic(auto, using(std::proofs::lemmas::Str::Pattern::strip_prefix_char))]
pub(crate) fn strip_ascii(text: &str, byte: u8) -> Option<&str>
    requires { byte < 128 }
    ensures { MatchOption result ((rest : List ℕ) → ¬ (text.now ≡ byte ∷ rest))
        (λ rest. text.now ≡ byte ∷ rest.now) }
{
    text.strip_prefix(byte as char)
}

/// How many plain bytes come first. Where there are few, few are tested at a time.
#[inline(always)]
pub(crate) fn plain_len(bytes: &[u8]) -> usize
    ensures { result ≡ prefix_len is_plain bytes.now }
{
    match bytes.len() {
        0 => 0,
        1..=3 => plain_len_by::<1>(bytes),
        4..=7 => plain_len_by::<4>(bytes),
        8..=15 => plain_len_by::<8>(bytes),
        _ => plain_len_by::<16>(bytes),
    }
}

/// How many plain bytes come first, `N` bytes at a time. The last block may overlap the one before it.
#[inline(always)]
#[tactic(auto, using(crate::proofs::PlainLemmas::runs))]
fn plain_len_by<const N: usize>(bytes: &[u8]) -> usize
    requires few { (0 < N) × (N ≤ 64) }
    requires enough { N ≤ length bytes.now }
    ensures { result ≡ prefix_len is_plain bytes.now }
{
    let last = bytes.len() - N;
    let mut at = 0;
    while at < last {
        let run = plain_lanes::<N>(bytes, at);
        if run < N {
            return at + run;
        }
        at += N;
    }
    last + plain_lanes::<N>(bytes, last)
}

/// How many of `N` bytes from an index on come before the first that is not plain.
#[inline(always)]
#[tactic(auto, using(crate::proofs::PlainLemmas::first_stop))]
fn plain_lanes<const N: usize>(bytes: &[u8], at: usize) -> usize
    requires few { N ≤ 64 }
    requires within { at + N ≤ length bytes.now }
    ensures { result ≡ prefix_len is_plain (take N (drop at bytes.now)) }
{
    let lanes = load::<N>(bytes, at);
    let stops = lanes.simd_eq(Simd::splat(b'"'))
        | lanes.simd_eq(Simd::splat(b'\\'))
        | lanes.simd_lt(Simd::splat(b' '));
    let marks = stops.to_bitmask();
    if marks == 0 {
        return N;
    }
    marks.trailing_zeros() as usize
}

/// The text without the white space before it.
#[inline(always)]
#[tactic(auto, using(crate::proofs::PlainLemmas::fronts))]
pub(crate) fn without_spaces(text: &str) -> &str
    ensures { result.now ≡ drop (prefix_len is_space text.now) text.now }
{
    &text[spaces_len(text.as_bytes())..]
}

/// How many bytes of white space come first.
#[inline(always)]
#[tactic(auto, using(crate::proofs::PlainLemmas::runs))]
fn spaces_len(bytes: &[u8]) -> usize
    ensures { result ≡ prefix_len is_space bytes.now }
{
    let mut at = 0;
    while at < bytes.len() {
        let byte = bytes[at];
        if byte != b' ' && byte != b'\t' && byte != b'\n' && byte != b'\r' {
            return at;
        }
        at += 1;
    }
    at
}

/// Whether the text is white space as a whole.
#[inline(always)]
#[tactic(auto, using(crate::proofs::PlainLemmas::runs))]
pub(crate) fn is_all_spaces(text: &str) -> bool
    ensures { result ≡ list_all is_space text.now }
{
    spaces_len(text.as_bytes()) == text.len()
}
