//! Short texts, packed into whole words.
//!
//! A text of `n` bytes is packed with the zeros behind it and its length into whole words:
//!
//! ```text
//!             0             n                INLINE_CAP
//!             +-------------+----------------+---+
//!     bytes   | the text    | zeros          | n |    PACKED_LEN bytes in all
//!             +-------------+----------------+---+
//!     words   | 0   | 1   | ..   | WORDS - 1     |
//!             +-----+-----+------+---------------+
//! ```
//!
//! So two texts are equal where their words are, and the first words that differ order them: if one
//! text is a prefix of the other, zeros follow it and then a smaller length, so it sorts first. A text
//! is written by words too, since loading a word just after byte stores stalls.
ghost use Rattle.std.specs.Prelude.{◌≡◌, ◌+◌, ◌<◌, ◌≤◌, ℕ, List, length, take, drop, nat_eq, OnSome, encode_utf8};
ghost use Rattle.std.specs.Iterator.{IsFinite, YieldsThen};
ghost use Rattle.std.specs.Str.{IsAscii};
ghost use Rattle.std.specs.Ordering.{nat_cmp};
ghost use Rattle.std.specs.Cmp.Lexicographic.{pointwise, slice_cmp};
ghost use Rattle.std.specs.Int.{w64, to_le_bytes, from_be_bytes};
ghost use Rattle.smol_str.specs.Buffer.{packed};
ghost use Rattle.smol_str.specs.Words.{word, put_at};

use super::{INLINE_CAP, PACKED_LEN, Packed};
use crate::bytes::words::{load, read_u64};
use std::cmp::Ordering;

/// How many words a packed text is.
const WORDS: usize = PACKED_LEN / 8;

// An INLINE_CAP of 15, 23, 31, 39 .. fills whole words; no other can be packed.
const _: () = prove!(PACKED_LEN % 8 == 0);

// A packed text has its length in one byte, which is never taken for a letter.
const _: () = prove!(INLINE_CAP < b'A' as usize);

/// The text's bytes, zeros, and the length.
#[inline(always)]
pub(super) fn pack(bytes: &[u8]) -> Packed
    requires { length bytes.now ≤ INLINE_CAP }
    ensures { result ≡ packed bytes.now }
{
    let mut buf = [0; PACKED_LEN];
    if bytes.len() < 8 {
        put_word(&mut buf, 0, front_word(bytes));
    } else {
        for i in 0..WORDS {
            put_word(&mut buf, 8 * i, word_at(bytes, 8 * i));
        }
    }
    buf[INLINE_CAP] = bytes.len() as u8;
    buf
}

/// Eight bytes from `at` on, with zeros past the end.
#[inline(always)]
fn word_at(bytes: &[u8], at: usize) -> u64
    requires { 8 ≤ length bytes.now }
    ensures { result ≡ word 8 bytes.now at }
{
    let len = bytes.len();
    // First, so that a whole word takes one test.
    if at <= len - 8 {
        return read_u64(bytes, at);
    }
    if at >= len {
        return 0;
    }
    read_u64(bytes, len - 8) >> (8 * (8 - (len - at)))
}

/// All of the bytes, which are fewer than eight.
#[inline(always)]
fn front_word(bytes: &[u8]) -> u64
    requires { length bytes.now < 8 }
    ensures { result ≡ word 8 bytes.now 0 }
{
    let len = bytes.len();
    if len >= 4 {
        return read_u32(bytes, 0) + ((read_u32(bytes, len - 4) >> (8 * (8 - len))) << 32);
    }
    match len {
        0 => 0,
        1 => bytes[0] as u64,
        2 => bytes[0] as u64 + bytes[1] as u64 * 0x100,
        _ => bytes[0] as u64 + bytes[1] as u64 * 0x100 + bytes[2] as u64 * 0x1_0000,
    }
}

#[inline(always)]
fn read_u32(bytes: &[u8], at: usize) -> u64
    requires { at + 4 ≤ length bytes.now }
    ensures { result ≡ word 4 bytes.now at }
{
    u32::from_le_bytes(*bytes[at..].first_chunk::<4>().unwrap()) as u64
}

/// Copies eight bytes and then blocks of sixteen, one load and one store each. `*packed` would stay in memory and be loaded
/// again; `copy_from_slice` adds a test for overlap. A loop would keep `buf` in memory.
#[inline(always)]
pub(super) fn copy_packed(packed: &Packed) -> Packed
    ensures { result ≡ packed.now }
{
    let mut buf = [0; PACKED_LEN];
    let first = PACKED_LEN % 16;
    copy_at::<8>(&mut buf, packed, 0);
    // Four blocks are enough: an INLINE_CAP below b'A' makes a PACKED_LEN of at most 64.
    copy_block(&mut buf, packed, first);
    copy_block(&mut buf, packed, first + 16);
    copy_block(&mut buf, packed, first + 32);
    copy_block(&mut buf, packed, first + 48);
    buf
}

/// [`pack`] for the text of one character.
#[inline(always)]
pub(super) fn pack_char(character: char) -> Packed
    ensures { result ≡ packed (encode_utf8 character) }
{
    let mut buf = [0; PACKED_LEN];
    put_word(&mut buf, 0, char_word(character));
    // The last word is written whole, or LLVM moves its zeros byte by byte.
    put_word(&mut buf, PACKED_LEN - 8, 0);
    buf[INLINE_CAP] = character.len_utf8() as u8;
    buf
}

/// Overwrites eight bytes.
#[inline(always)]
fn put_word(buf: &mut Packed, start: usize, word: u64)
    requires { start + 8 ≤ PACKED_LEN }
    ensures { buf.new ≡ put_at buf.old start (to_le_bytes w64 word) }
{
    buf[start..start + 8].copy_from_slice(&word.to_le_bytes());
}

/// Copies sixteen bytes, if the text has them: a test of constants.
#[inline(always)]
fn copy_block(buf: &mut Packed, packed: &Packed, at: usize)
    requires { at ≤ 64 }
    ensures within { at + 16 ≤ PACKED_LEN → buf.new ≡ put_at buf.old at (take 16 (drop at packed.now)) }
    ensures past { PACKED_LEN < at + 16 → buf.new ≡ buf.old }
{
    if at + 16 <= PACKED_LEN {
        copy_at::<16>(buf, packed, at);
    }
}

/// Copies `N` bytes by one load and one store.
#[inline(always)]
fn copy_at<const N: usize>(buf: &mut Packed, packed: &Packed, at: usize)
    requires { at + N ≤ PACKED_LEN }
    ensures { buf.new ≡ put_at buf.old at (take N (drop at packed.now)) }
{
    load::<N>(packed, at).copy_to_slice(&mut buf[at..]);
}

/// A character in UTF-8, as a word: the first byte is the lowest.
#[inline(always)]
fn char_word(character: char) -> u64
    ensures { result ≡ word 8 (encode_utf8 character) 0 }
{
    let code = character as u32 as u64;
    let last = (0x80 + (code & 0x3f)) << 8;
    if code < 0x80 {
        return code;
    }
    if code < 0x800 {
        return 0xc0 + (code >> 6) + last;
    }
    let middle = (0x80 + ((code >> 6) & 0x3f)) << 8;
    if code < 0x1_0000 {
        return 0xe0 + (code >> 12) + middle + (last << 8);
    }
    let second = (0x80 + ((code >> 12) & 0x3f)) << 8;
    0xf0 + (code >> 18) + second + (middle << 8) + (last << 16)
}

/// Whether the words are equal. `&=` without an early exit: no branch.
#[inline(always)]
pub(super) fn equal_words(left: &Packed, right: &Packed) -> bool
    ensures { result ≡ pointwise nat_eq left.now right.now }
{
    let mut same = true;
    for i in 0..WORDS {
        same &= read_u64(left, 8 * i) == read_u64(right, 8 * i);
    }
    same
}

/// The order of the bytes: the first words that differ decide. The last ones are compared without a test, since an arm
/// that returns a constant makes `sort` branch.
#[inline(always)]
pub(super) fn order_words(left: &Packed, right: &Packed) -> Ordering
    ensures { result ≡ slice_cmp nat_cmp left.now right.now }
{
    for i in 0..WORDS - 1 {
        let (a, b) = (read_ordered(left, 8 * i), read_ordered(right, 8 * i));
        if a != b {
            return a.cmp(&b);
        }
    }
    let last = PACKED_LEN - 8;
    read_ordered(left, last).cmp(&read_ordered(right, last))
}

/// Eight bytes as one number, the first the highest, so that it is ordered as they are.
#[inline(always)]
fn read_ordered(buf: &Packed, at: usize) -> u64
    requires { at + 8 ≤ PACKED_LEN }
    ensures { result ≡ from_be_bytes w64 (take 8 (drop at buf.now)) }
{
    u64::from_be_bytes(*buf[at..].first_chunk::<8>().unwrap())
}

/// Copies `bytes` to `buf[start..]`, up to 32 bytes as two overlapping fixed blocks.
#[inline(always)]
pub(super) fn write_at(buf: &mut Packed, start: usize, bytes: &[u8])
    requires { start + length bytes.now ≤ INLINE_CAP }
    ensures { buf.new ≡ put_at buf.old start bytes.now }
{
    let len = bytes.len();
    if INLINE_CAP > 32 && len > 32 {
        buf[start..start + len].copy_from_slice(bytes);
    } else if len >= 16 {
        put_ends::<16>(buf, start, bytes);
    } else if len >= 8 {
        put_ends::<8>(buf, start, bytes);
    } else if len >= 4 {
        put_ends::<4>(buf, start, bytes);
    } else if len >= 2 {
        put_ends::<2>(buf, start, bytes);
    } else if len == 1 {
        buf[start] = bytes[0];
    }
}

/// Overwrites the bytes from `start` on, by the first `K` and the last.
#[inline(always)]
fn put_ends<const K: usize>(buf: &mut Packed, start: usize, bytes: &[u8])
    requires room { start + length bytes.now ≤ INLINE_CAP }
    requires least { K ≤ length bytes.now }
    requires most { length bytes.now ≤ K + K }
    ensures { buf.new ≡ put_at buf.old start bytes.now }
{
    let rest = bytes.len() - K;
    let first = *bytes.first_chunk::<K>().unwrap();
    let last = *bytes[rest..].first_chunk::<K>().unwrap();
    buf[start..start + K].copy_from_slice(&first);
    buf[start + rest..start + bytes.len()].copy_from_slice(&last);
}

/// Writes the characters of an iterator to `buf[start..]` while they are ASCII and there is room. Returns the new end and
/// the first character that was not written; the caller stores the length.
#[inline(always)]
pub(super) fn write_ascii<I: Iterator<Item = char>>(
    buf: &mut Packed,
    start: usize,
    iter: &mut I,
) -> (usize, Option<char>)
    requires can { I.can_next iter.old }
    requires ends { IsFinite (I.remaining iter.old) }
    requires room { start ≤ INLINE_CAP }
    ensures drew { (items : List ℕ) × YieldsThen I.next_gives iter.old items result.1 iter.new × IsAscii items
        × (result.0 ≡ start + length items) × (buf.new ≡ put_at buf.old start items) }
    ensures room { result.0 ≤ INLINE_CAP }
    ensures more { OnSome result.1 (I.can_next iter.new × IsFinite (I.remaining iter.new)) }
{
    let mut len = start;
    while let Some(character) = iter.next() {
        let code = character as u32;
        if code >= 0x80 || len >= INLINE_CAP {
            return (len, Some(character));
        }
        buf[len] = code as u8;
        len += 1;
    }
    (len, None)
}
