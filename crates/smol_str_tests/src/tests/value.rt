//! Where texts are kept.
mod compare;
mod convert;

use super::borsh::ok_found;
use Place::{Heap, Inline, Static};
use smol_str::borsh::from_wire;
use smol_str::{
    BLANK_NEWLINES, BLANK_SPACES, INLINE_CAP, InlineBuffer, Place, SmolStr, SmolStrBuilder, StrExt,
};
use test_support::*;

/// Texts so many times, one after the other, and the place of the value.
static PLACES: &[(&[(&str, usize)], Place)] = &table! {
    (&[], Inline); (&[("a", INLINE_CAP)], Inline); (&[("a", INLINE_CAP + 1)], Heap);
    (&[("a", INLINE_CAP - 2), ("é", 1)], Inline); (&[("a", INLINE_CAP - 1), ("é", 1)], Heap); (&[("a", 23)], Inline);
    (&[("a", 24)], Inline); (&[("\n", BLANK_NEWLINES), (" ", BLANK_SPACES)], Static); (&[(" ", BLANK_SPACES + 1)], Heap);
    (&[("\n", BLANK_NEWLINES + 1)], Heap); (&[(" ", INLINE_CAP), ("\n", 1)], Heap);
    (&[("\n", 1), (" ", INLINE_CAP - 1)], Inline); (&[("\n", BLANK_NEWLINES)], Static);
    (&[("\n", BLANK_NEWLINES), (" ", 1), ("\n", 1)], Heap); (&[(" ", INLINE_CAP + 1)], Static);
    (&[("\n", 32), (" ", 128)], Static); (&[(" ", 129)], Static); (&[("\n", 33)], Inline);
    (&[(" ", 23), ("\n", 1)], Inline); (&[("\n", 32)], Inline); (&[("\n", 32), (" ", 1), ("\n", 1)], Inline);
    (&[(" ", 24)], Inline);
};

#[test]
fn places(rt: HostRuntime) -> Result<(), Fail> {
    let test = Test::begin(rt);
    for &(parts, place) in PLACES {
        let string = test.text(parts);
        let text = string.as_str();
        same_value(&test, &test.value(text), text, place, &text);
        same(&test, &place_of(text), &place, &text);
    }
    same(&test, &test.value(""), &SmolStr::default(), &"default");
    test.end()
}

// The buffer, a byte for the length, and a word for the place.
#[test]
fn limits(rt: HostRuntime) -> Result<(), Fail> {
    let test = Test::begin(rt);
    let limits = [INLINE_CAP, BLANK_NEWLINES, BLANK_SPACES];
    same(&test, &limits, &[39, 64, 256], &"limits");
    let sizes = [
        size_of::<SmolStr>(),
        size_of::<Option<SmolStr>>(),
        size_of::<SmolStrBuilder>(),
    ];
    same(&test, &sizes, &[48, 56, 56], &"sizes");
    test.end()
}

trait Keywords {
    const IF: SmolStr = SmolStr::new_static("if");
}

struct Rust;

impl Keywords for Rust {}

#[test]
fn constants_of_a_trait(rt: HostRuntime) -> Result<(), Fail> {
    let test = Test::begin(rt);
    same_value(&test, &Rust::IF, "if", Static, &"new_static");
    same(&test, &Rust::IF, &test.value("if"), &"new");
    test.end()
}

static SHORT: [&str; 5] = table! {
    ""; "A"; "HELLO"; "ABCDEFGHIZKLMNOPQRSTUVW"; "                       ";
};

#[test]
fn const_fn_ctor(rt: HostRuntime) -> Result<(), Fail> {
    let test = Test::begin(rt);
    for text in &SHORT {
        assert_inline(&test, text);
    }
    test.end()
}

/// It is what `new` makes, and inline.
fn assert_inline(test: &Test, text: &str) {
    if text.len() > INLINE_CAP {
        return test.fail(&(text, "is too long"));
    }
    let value = SmolStr::new_inline(text);
    same(test, &value, &test.value(text), &text);
    same_place(test, &value, Inline, &text);
}

/// Texts of 0 to 400 characters, the given ones in turn, are kept as they are.
fn check_round_trips(test: &Test, characters: &[&str]) {
    let mut text = String::new(test.alloc);
    for count in 0..=400usize {
        let value = test.value(text.as_str());
        same_value(test, &value, text.as_str(), place_of(text.as_str()), &count);
        let next = characters.get(count % characters.len().max(1));
        ok(test, text.push_str(next.copied().unwrap_or("")));
    }
}

#[test]
fn roundtrip(rt: HostRuntime) -> Result<(), Fail> {
    let test = Test::begin(rt);
    check_round_trips(&test, &["a", "é", "€", "🦀"]);
    test.end()
}

#[test]
fn roundtrip_spaces(rt: HostRuntime) -> Result<(), Fail> {
    let test = Test::begin(rt);
    check_round_trips(&test, &[" "]);
    test.end()
}

#[test]
fn roundtrip_newlines(rt: HostRuntime) -> Result<(), Fail> {
    let test = Test::begin(rt);
    check_round_trips(&test, &["\n"]);
    test.end()
}

#[test]
fn roundtrip_ws(rt: HostRuntime) -> Result<(), Fail> {
    let test = Test::begin(rt);
    check_round_trips(&test, &["\n", " "]);
    test.end()
}

// The text's bytes, and zeros: of a value and of a builder that are inline, and of no other.
#[test]
fn inline_buffers(rt: HostRuntime) -> Result<(), Fail> {
    let test = Test::begin(rt);
    let mut ab = [0; INLINE_CAP];
    ab[0] = b'a';
    ab[1] = b'b';
    same_buffer(&test, test.value("ab").inline_buffer(), Some(&ab));
    same_buffer(&test, test.builder(0, "ab").inline_buffer(), Some(&ab));
    same_buffer(&test, SmolStr::new_static("ab").inline_buffer(), None);
    same_buffer(&test, test.value(long_text()).inline_buffer(), None);
    same_buffer(&test, test.builder(100, "ab").inline_buffer(), None);
    test.end()
}

fn same_buffer(test: &Test, found: Option<&InlineBuffer>, wanted: Option<&InlineBuffer>) {
    holds(test, found == wanted, &(found, wanted));
}

#[test]
fn one_text_in_every_way(rt: HostRuntime) -> Result<(), Fail> {
    let test = Test::begin(rt);
    let values = values_of_ab(&test);
    for left in &values {
        same_value(&test, left, "ab", Inline, &"one way");
        for right in &values {
            same(&test, left, right, &"two ways");
        }
    }
    test.end()
}

fn values_of_ab(test: &Test) -> Vec<SmolStr> {
    let (alloc, mut values) = (test.alloc, Vec::new(test.alloc));
    test.push(&mut values, test.value("ab"));
    test.push(&mut values, SmolStr::new_inline("ab"));
    let of_bytes = SmolStr::from_utf8(alloc, b"ab");
    test.push(&mut values, ok(test, of_bytes));
    let of_chars = SmolStr::from_chars(alloc, "ab".chars());
    test.push(&mut values, ok(test, of_chars));
    let (read, _) = ok_found(test, from_wire(alloc, b"\x02\0\0\0ab"));
    test.push(&mut values, read);
    let replaced = "xb".replace_smolstr(alloc, "x", "a");
    test.push(&mut values, ok(test, replaced));
    let finished = test.builder(100, "ab").finish();
    test.push(&mut values, finished.unwrap_or_default());
    values
}
