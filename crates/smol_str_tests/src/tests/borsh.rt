//! Wire forms, written and read again; in `fault`, bytes that are refused.
pub mod fault;

use Place::{Heap, Inline, Static};
use smol_str::borsh::{BorshDeserialize, BorshSerialize, DecodeFault, from_wire, length_prefix};
use smol_str::{Place, SmolStr};
use test_support::*;

/// A text and its wire form: a unit and how many times the text has it; the four bytes of the size, and those of the unit;
/// and the place where the text is read.
pub type Row = (&'static str, usize, &'static [u8; 4], &'static [u8], Place);

/// Letters of one and of two bytes.
pub const LETTERS: &[u8] = b"a\xc3\x9f\xce\x94Ca\xc3\x9f\xce\xb4c";

const OF_12: Row = ("aßΔCaßδc", 1, b"\x0c\0\0\0", LETTERS, Inline);

const OF_132: Row = ("aßΔCaßδc", 11, b"\x84\0\0\0", LETTERS, Heap);

pub static ROWS: [Row; 12] = table! {
    ("", 0, b"\0\0\0\0", b"", Inline); ("ab", 1, b"\x02\0\0\0", b"ab", Inline);
    ("🦀", 1, b"\x04\0\0\0", b"\xf0\x9f\xa6\x80", Inline); OF_12; OF_132; ("a", 23, b"\x17\0\0\0", b"a", Inline);
    ("a", 24, b"\x18\0\0\0", b"a", Inline); (" ", 24, b"\x18\0\0\0", b" ", Inline);
    ("a", 39, b"\x27\0\0\0", b"a", Inline); ("a", 40, b"\x28\0\0\0", b"a", Heap); (" ", 40, b"\x28\0\0\0", b" ", Static);
    ("a", 5000, b"\x88\x13\0\0", b"a", Heap);
};

pub fn form_of(test: &Test, row: Row) -> Vec<u8> {
    let (_, times, size, unit, _) = row;
    of_units(test, size, unit, times)
}

/// The size, and so many `a`.
pub fn letters(test: &Test, size: u32, count: u32) -> Vec<u8> {
    of_units(test, &size.to_le_bytes(), b"a", count as usize)
}

/// The size, and the unit so many times.
pub fn of_units(test: &Test, size: &[u8], unit: &[u8], times: usize) -> Vec<u8> {
    let mut form = ok(test, Vec::from_slice(test.alloc, size));
    for _ in 0..times {
        ok(test, form.extend_from_slice(unit));
    }
    form
}

/// The value of a wire form, and how many bytes the form has.
pub fn ok_found(test: &Test, outcome: Result<(SmolStr, usize), DecodeFault>) -> (SmolStr, usize) {
    match outcome {
        Ok(found) => found,
        Err(fault) => {
            test.fail(&fault);
            (SmolStr::default(), 0)
        }
    }
}

/// Bytes, the text that they begin with, and how many of them its form has.
static BEGINNINGS: [(&[u8], &str, usize); 2] = table! {
    (b"\x02\0\0\0abc", "ab", 6); (b"\0\0\0\0\xff", "", 4);
};

#[test]
fn rows(rt: HostRuntime) -> Result<(), Fail> {
    let test = Test::begin(rt);
    for row in &ROWS {
        check_row(&test, *row);
    }
    for &(bytes, text, size) in &BEGINNINGS {
        let (value, taken) = ok_found(&test, from_wire(test.alloc, bytes));
        same_value(&test, &value, text, Inline, &bytes);
        same(&test, &taken, &size, &bytes);
    }
    // what is read is not pinned
    let bytes = written(&test, &SmolStr::new_static("ab"));
    check_read(&test, bytes, "ab", Inline);
    test.end()
}

#[test]
fn borsh_serialize_stack(rt: HostRuntime) -> Result<(), Fail> {
    let test = Test::begin(rt);
    check_row(&test, OF_12);
    test.end()
}

#[test]
fn borsh_serialize_heap(rt: HostRuntime) -> Result<(), Fail> {
    let test = Test::begin(rt);
    check_row(&test, OF_132);
    test.end()
}

/// The value is written as the form, which is read again.
fn check_row(test: &Test, row: Row) {
    let (text, form) = (test.repeated(row.0, row.1), form_of(test, row));
    let bytes = written(test, &test.value(text.as_str()));
    same(test, &bytes.as_slice(), &form.as_slice(), &"is written");
    check_read(test, bytes, text.as_str(), row.4)
}

fn written(test: &Test, value: &SmolStr) -> Vec<u8> {
    let mut all = Vec::new(test.alloc);
    ok(test, value.serialize(&mut all));
    all
}

/// The form of the text is read where two bytes follow it, which are left; also by single bytes.
fn check_read(test: &Test, mut bytes: Vec<u8>, text: &str, place: Place) {
    ok(test, bytes.extend_from_slice(b"a\xff"));
    let (value, taken) = ok_found(test, from_wire(test.alloc, bytes.as_slice()));
    same_value(test, &value, text, place, &taken);
    same(test, &taken.saturating_add(2), &bytes.len(), &text);
    let mut reader = trickle_of(bytes.as_slice(), 1, 0);
    let value = ok(test, SmolStr::deserialize_reader(test.alloc, &mut reader));
    same_value(test, &value, text, place, &"read");
    same(test, &reader.rest, &b"a\xff".as_slice(), &text);
}

#[test]
fn two_forms(rt: HostRuntime) -> Result<(), Fail> {
    let test = Test::begin(rt);
    let mut reader = trickle_of(b"\x01\0\0\0a\0\0\0\0", usize::MAX, 0);
    for text in ["a", ""] {
        let value = ok(&test, SmolStr::deserialize_reader(test.alloc, &mut reader));
        same(&test, &value.as_str(), &text, &"read");
    }
    holds(&test, reader.rest.is_empty(), &"nine bytes");
    test.end()
}

static PREFIXES: [(usize, Option<[u8; 4]>); 2] = [
    (4294967295, Some([0xff, 0xff, 0xff, 0xff])),
    (4294967296, None),
];

#[test]
fn prefixes(rt: HostRuntime) -> Result<(), Fail> {
    let test = Test::begin(rt);
    for &(size, prefix) in &PREFIXES {
        same(&test, &length_prefix(size), &prefix, &size);
    }
    test.end()
}
