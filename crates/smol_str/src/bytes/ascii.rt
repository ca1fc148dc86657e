//! ASCII bytes, sixteen at a time: how many there are at the front, and their letters in a case.
ghost use Rattle.std.specs.Prelude.{◌≡◌, ◌↔◌, ◌<◌, ◌≤◌, ◌+◌, false, IsTrue, length, take, drop, slice_index};
ghost use Rattle.std.specs.Str.{IsAscii, chars};
ghost use Rattle.std.specs.Simd.Lanes.{put_chunk};
ghost use Rattle.smol_str.specs.Case.{converted, IsAsciiFront};

use crate::bytes::words::load;
use std::simd::prelude::*;

/// How many bytes are mapped at a time.
pub(crate) const ASCII_LANES: usize = 16;

/// How far a small ASCII letter lies behind its capital.
const CASE_OFFSET: u8 = b'a' - b'A';

/// A case of ASCII letters.
#[derive(Clone, Copy, PartialEq, Eq, Debug)]
pub enum AsciiCase {
    /// A to Z become a to z.
    Lower,
    /// a to z become A to Z.
    Upper,
}

/// How many bytes come before the first one past ASCII.
#[tactic(auto, using(crate::proofs::CaseLemmas::Ascii::ascii_fronts))]
pub(crate) fn front_len(bytes: &[u8]) -> usize
    ensures all { IsAsciiFront bytes.now result }
    ensures stops { result < length bytes.now → 128 ≤ slice_index bytes.now result }
{
    let mut at = ascii_chunks(bytes);
    while at < bytes.len() && bytes[at] < 128 {
        at += 1;
    }
    at
}

/// How many bytes come before the first chunk of sixteen with a byte past ASCII.
#[inline(always)]
#[tactic(auto, using(crate::proofs::CaseLemmas::Ascii::ascii_fronts))]
fn ascii_chunks(bytes: &[u8]) -> usize
    ensures all { IsAsciiFront bytes.now result }
    ensures stops { result + ASCII_LANES ≤ length bytes.now →
        ¬ (IsAscii (take ASCII_LANES (drop result bytes.now))) }
{
    let mut at = 0;
    while bytes.len() - at >= ASCII_LANES {
        if has_high(load::<ASCII_LANES>(bytes, at)) {
            return at;
        }
        at += ASCII_LANES;
    }
    at
}

/// Whether there are `N` bytes, and the first `N` are ASCII.
#[inline(always)]
#[tactic(auto, using(crate::proofs::CaseLemmas::Ascii::ascii_fronts))]
pub(crate) fn begins_ascii<const N: usize>(bytes: &[u8]) -> bool
    requires { N ≤ 64 }
    ensures { IsTrue result → IsAsciiFront bytes.now N }
{
    bytes.len() >= N && !has_high(load::<N>(bytes, 0))
}

/// Whether no byte is past ASCII. The last block may overlap the one before it.
#[inline(always)]
pub(crate) fn is_all_ascii(bytes: &[u8]) -> bool
    ensures { IsTrue result ↔ IsAscii bytes.now }
{
    let len = bytes.len();
    if len < 8 {
        return bytes.is_ascii();
    }
    if len < ASCII_LANES {
        return !has_high(load::<8>(bytes, 0)) & !has_high(load::<8>(bytes, len - 8));
    }
    let at = ascii_chunks(bytes);
    (len - at < ASCII_LANES) & !has_high(load::<ASCII_LANES>(bytes, len - ASCII_LANES))
}

/// Maps all ASCII letters in place; no other byte changes.
#[inline(always)]
#[tactic(auto, using(crate::proofs::CaseLemmas::Ascii::mappings))]
pub(crate) fn convert_all(bytes: &mut [u8], case: AsciiCase)
    ensures { bytes.new ≡ converted case bytes.old }
{
    let mut at = 0;
    while bytes.len() - at >= ASCII_LANES {
        convert_part::<ASCII_LANES>(bytes, at, case);
        at += ASCII_LANES;
    }
    if bytes.len() - at >= 8 {
        convert_part::<8>(bytes, at, case);
        at += 8;
    }
    match case {
        AsciiCase::Lower => bytes[at..].make_ascii_lowercase(),
        AsciiCase::Upper => bytes[at..].make_ascii_uppercase(),
    }
}

/// Maps the `N` bytes from an index on.
#[inline(always)]
fn convert_part<const N: usize>(bytes: &mut [u8], at: usize, case: AsciiCase)
    requires { at + N ≤ length bytes.old }
    ensures { bytes.new ≡ put_chunk at bytes.old (converted case (take N (drop at bytes.old))) }
{
    let lanes = load::<N>(bytes, at);
    let mapped = match case {
        AsciiCase::Lower => {
            let is_capital = lanes.simd_ge(Simd::splat(b'A')) & lanes.simd_le(Simd::splat(b'Z'));
            is_capital.select(lanes + Simd::splat(CASE_OFFSET), lanes)
        }
        AsciiCase::Upper => {
            let is_small = lanes.simd_ge(Simd::splat(b'a')) & lanes.simd_le(Simd::splat(b'z'));
            is_small.select(lanes - Simd::splat(CASE_OFFSET), lanes)
        }
    };
    mapped.copy_to_slice(&mut bytes[at..]);
}

/// Whether a lane is past ASCII.
#[inline(always)]
fn has_high<const N: usize>(lanes: Simd<u8, N>) -> bool
    requires long { length lanes ≡ N }
    requires few { N ≤ 64 }
    ensures { (result ≡ false) ↔ IsAscii lanes.entry }
{
    lanes.simd_gt(Simd::splat(127)).any()
}

/// One ASCII byte as a text.
#[inline(always)]
pub(crate) fn ascii_text(byte: &[u8; 1]) -> &str
    requires { IsAscii byte.now }
    ensures { chars result.now ≡ byte.now }
{
    unsafe { str::from_utf8_unchecked(byte) }
}
