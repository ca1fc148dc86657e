//! Bytes that hold no wire form, or state a size above the limit of `deserialize_limited`.
use super::{letters, of_units};
use smol_str::borsh::{
    BorshDeserialize, DecodeFault, LimitedFault, deserialize_limited, from_wire, split_wire,
};
use smol_str::stream::CHUNK;
use smol_str::{INLINE_CAP, SmolStr};
use std::str::Utf8Error;
use test_support::*;

pub fn reason_of(fault: &DecodeFault) -> Reason {
    match fault {
        DecodeFault::Ended => Reason::Ended,
        DecodeFault::NotUtf8(_) => Reason::NotUtf8,
        DecodeFault::OutOfMemory => Reason::OutOfMemory,
        DecodeFault::Io(error) => Reason::Io(cause_of(error)),
    }
}

pub fn reason_of_limited(fault: &LimitedFault) -> Reason {
    match fault {
        LimitedFault::TooLong => Reason::TooLong,
        LimitedFault::Decode(fault) => reason_of(fault),
    }
}

/// The size 3, and the front of a character of four bytes.
const CUT: &[u8] = b"\x03\0\0\0\xf0\x9f\x8f";

/// The size 30, and bytes that are not UTF-8.
const NOISE: &[u8] = b"\x1e\0\0\0\xc1\x8a\x5f\xe2\x3a\x9e\x3b\xaa\x01\x08\x6f\x2f\xc0\x32\xab\xe1\
\x9a\x2f\x4a\x3f\x25\x0d\x8a\x2a\x19\x11\xf0\x7f\x0e\x80";

/// Bytes, the fault, and how many of them a reader has left.
static REFUSED: [(&[u8], Reason, usize); 6] = table! {
    (b"", Reason::Ended, 0); (b"\0\0\0", Reason::Ended, 0); (b"\x05\0\0\0\xff", Reason::Ended, 0);
    (b"\xff\xff\xff\xffabc", Reason::Ended, 0); (b"\x18\0\0\0aaaaaaaaaaaaaaaaaaaaaaa", Reason::Ended, 0);
    (b"\x01\0\0\0\xc3\xa9", Reason::NotUtf8, 1);
};

#[test]
fn refused(rt: HostRuntime) -> Result<(), Fail> {
    let test = Test::begin(rt);
    for (bytes, reason, left) in &REFUSED {
        assert_refused(&test, bytes, *reason, *left);
    }
    test.end()
}

#[test]
fn borsh_non_utf8_stack(rt: HostRuntime) -> Result<(), Fail> {
    let test = Test::begin(rt);
    assert_refused(&test, CUT, Reason::NotUtf8, 0);
    test.end()
}

// A value has room for as many bytes here, so bodies of each other size follow: the last byte is missing, or the last or the
// first is not UTF-8.
#[test]
fn borsh_non_utf8_heap(rt: HostRuntime) -> Result<(), Fail> {
    let test = Test::begin(rt);
    assert_refused(&test, NOISE, Reason::NotUtf8, 0);
    for size in 1..=300u32 {
        check_bodies(&test, size);
        check_bodies(&test, size.saturating_mul(13));
    }
    for size in ABOVE_BUFFERS {
        check_bodies(&test, size as u32);
    }
    test.end()
}

fn check_bodies(test: &Test, size: u32) {
    let mut bytes = letters(test, size, size.saturating_sub(1));
    assert_refused_by(test, bytes.as_slice(), usize::MAX, (Reason::Ended, 0));
    test.push(&mut bytes, 0xc3);
    assert_refused_by(test, bytes.as_slice(), usize::MAX, (Reason::NotUtf8, 0));
    if let Some(first) = bytes.get_mut(4) {
        *first = 0xff;
    }
    assert_refused_by(test, bytes.as_slice(), usize::MAX, (Reason::NotUtf8, 0));
}

/// Each call returns this fault, whatever the reader's steps.
fn assert_refused(test: &Test, bytes: &[u8], reason: Reason, left: usize) {
    for step in steps_about(CHUNK) {
        assert_refused_by(test, bytes, step, (reason, left));
    }
}

/// Each call returns this fault, and a reader of this step has so many bytes left. No size is above the limit.
fn assert_refused_by(test: &Test, bytes: &[u8], step: usize, (reason, left): (Reason, usize)) {
    let row = (bytes.len(), step);
    start_counts(test.alloc);
    same_fault(test, from_wire(test.alloc, bytes).err(), reason, row);
    same_fault(test, split_wire(test.alloc, bytes).err(), reason, row);
    let mut reader = trickle_of(bytes, step, 0);
    let read = SmolStr::deserialize_reader(test.alloc, &mut reader);
    same_fault(test, read.err(), reason, row);
    same(test, &reader.rest.len(), &left, &row);
    let mut reader = trickle_of(bytes, step, 0);
    match deserialize_limited(test.alloc, &mut reader, usize::MAX) {
        Err(LimitedFault::Decode(fault)) => same_fault(test, Some(fault), reason, row),
        _ => test.fail(&row),
    }
    same(test, &reader.rest.len(), &left, &row);
    no_blocks(test, &row);
}

fn same_fault(test: &Test, found: Option<DecodeFault>, reason: Reason, row: (usize, usize)) {
    match found {
        Some(fault) => same(test, &reason_of(&fault), &reason, &row),
        None => test.fail(&row),
    }
}

/// A body, and the index at which 0xff is written into it, where it has one.
static INVALID: [(&[u8], usize); 8] = table! {
    (b"ab\xff", 2); (b"\xe9ab", 9); (b"abc\xf0\x9f", 9); (b"\xe9", 9); (b"a\xe2\x82a", 9); (&[b'a'; 41], 40); (&[b'a'; 301], 300); (&[b'a'; 9001], 9000);
};

// The fault has std's error, which says where the bytes are not UTF-8, and whether they end within a character.
#[test]
fn invalid_from(rt: HostRuntime) -> Result<(), Fail> {
    let test = Test::begin(rt);
    for &(front, valid) in &INVALID {
        let mut bytes = of_units(&test, &(front.len() as u32).to_le_bytes(), front, 1);
        if let Some(last) = bytes.get_mut(valid.saturating_add(4)) {
            *last = 0xff;
        }
        let wanted = str::from_utf8(bytes.get(4..).unwrap_or(b"")).err();
        check_error(
            &test,
            from_wire(test.alloc, bytes.as_slice()).err(),
            &wanted,
        );
        let mut reader = trickle_of(bytes.as_slice(), usize::MAX, 0);
        let read = SmolStr::deserialize_reader(test.alloc, &mut reader);
        check_error(&test, read.err(), &wanted);
    }
    test.end()
}

fn check_error(test: &Test, found: Option<DecodeFault>, wanted: &Option<Utf8Error>) {
    match found {
        Some(DecodeFault::NotUtf8(error)) => same(test, &Some(error), wanted, &"bytes"),
        _ => test.fail(wanted),
    }
}

/// The most bytes that may be asked for where ten million came.
const MOST_BYTES: u32 = 0x200_0000;

// Neither the stated size nor the buffer of a piece asks for memory.
#[test]
fn largest_size(rt: HostRuntime) -> Result<(), Fail> {
    let test = Test::begin(rt);
    check_largest(&test, 0, 0);
    check_largest(&test, 10_000_000, MOST_BYTES);
    test.end()
}

/// The bytes end before the body does, all of them are read, and no more is asked for.
fn check_largest(test: &Test, count: u32, most: u32) {
    let bytes = letters(test, u32::MAX, count);
    let mut reader = trickle_of(bytes.as_slice(), usize::MAX, 0);
    refuse(test.alloc, Refusals::One(0));
    let read = SmolStr::deserialize_reader(test.alloc, &mut reader);
    end_refusals(test.alloc);
    let is_little = is_at_most(test.alloc, Count::Bytes, most);
    holds(test, is_little || !can_refuse(test.alloc), &count);
    same_fault(test, read.err(), Reason::Ended, (bytes.len(), 0));
    holds(test, reader.rest.is_empty(), &count);
}

/// A size, a limit, and whether the size is above it.
static LIMITS: [(u32, usize, bool); 4] = table! {
    (5, 5, false);
    (6, 5, true);
    (u32::MAX, INLINE_CAP, true);
    (u32::MAX, u32::MAX as usize - 1, true);
};

// A size above the limit is refused before memory is asked for, and nothing behind it is read.
#[test]
fn sizes_about_the_limit(rt: HostRuntime) -> Result<(), Fail> {
    let test = Test::begin(rt);
    for &(size, limit, is_above) in &LIMITS {
        let bytes = of_units(&test, &size.to_le_bytes(), b"abcdef", 1);
        let mut reader = trickle_of(bytes.as_slice(), usize::MAX, 0);
        refuse_all(test.alloc);
        let read = deserialize_limited(test.alloc, &mut reader, limit);
        holds(&test, !end_refusals(test.alloc), &(size, limit));
        let is_too_long = matches!(read, Err(LimitedFault::TooLong));
        same(&test, &is_too_long, &is_above, &(size, limit));
        let left = if is_above { 6 } else { 1 };
        same(&test, &reader.rest.len(), &left, &(size, limit));
    }
    test.end()
}
