//! Values and builders from iterators, and hints that promise too much.
ghost use Rattle.std.specs.Prelude.{◌+◌, [], ◌∷◌, length};
ghost use Rattle.std.specs.Iterator.{at_most, YieldsFirst};
ghost use Rattle.std.specs.Vec.Iter.{into_iter_items};
ghost use Rattle.std.proofs.Common.{refl};
ghost use Rattle.smol_str.specs.Joined.{joined};

use Place::{Heap, Inline, Static};
use smol_str::{BLANK_NEWLINES, INLINE_CAP, Piece, Place, SmolStr, SmolStrBuilder};
use std::cell::Cell;
use std::vec::IntoIter;
use test_support::*;

/// An iterator whose lower hint may promise more items than come.
#[derive(Drop)]
struct Hinted<T: Drop> {
    items: IntoIter<T>,
    lower: usize,
}

impl<T: Drop> Iterator for Hinted<T> {
    type Item = T;

    ghost next_gives = { YieldsFirst (λ s. into_iter_items s.items) };

    ghost remaining = { λ s. at_most (length (into_iter_items s.items) + s.lower) };

    fn next(&mut self) -> Option<T> {
        self.items.next()
    }

    fn size_hint(&self) -> (usize, Option<usize>) {
        (self.lower, None)
    }
}

fn with_hint<T: Drop>(items: Vec<T>, lower: usize) -> Hinted<T> {
    Hinted {
        items: items.into_iter(),
        lower,
    }
}

/// Pieces, each a text so many times; the size of the text that they make, and its place.
static ROWS: &[(&[(&str, usize)], usize, Place)] = &table! {
    (&[("if", 1)], 2, Inline);
    (&[("for", 1)], 3, Inline);
    (&[("impl", 1)], 4, Inline);
    (&[("パーティーへ行_", 1)], 22, Inline);
    (&[("和製漢語", 1)], 12, Inline);
    (&[("部落格", 1)], 9, Inline);
    (&[("パーティーへ行かないか", 1)], 33, Inline);
    (&[("パーティーへ行か", 1)], 24, Inline);
    (&[("사회과학원 어학연구소", 1)], 31, Inline);
    (&[("表ポあA鷗ŒéＢ逍Üßªąñ丂㐀𠀀", 1)], 43, Heap);
    (&[("a", 93)], 93, Heap);
    (&[("ア", 13)], 39, Inline);
    (&[("ア", 13), ("é", 1)], 41, Heap);
    (&[(" ", 24)], 24, Inline);
    (&[(" ", INLINE_CAP + 1)], 40, Static);
    (&[("\n", BLANK_NEWLINES), (" ", 1)], 65, Static);
    (&[("\n", 32), (" ", 1)], 33, Inline);
    (&[("\n", 39), (" ", 1)], 40, Static);
    (&[("if", 1), ("", 1), ("x", 1)], 3, Inline);
    (&[], 0, Inline);
};

#[test]
fn test_from_char_iterator(rt: HostRuntime) -> Result<(), Fail> {
    let test = Test::begin(rt);
    for &(parts, len, place) in ROWS {
        let string = test.text(parts);
        let text = string.as_str();
        let value = ok(&test, SmolStr::from_chars(test.alloc, text.chars()));
        same_value(&test, &value, text, place, &text);
        same(&test, &value.len(), &len, &text);
        let strings = strings_of(&test, parts);
        let mut strs = Vec::new(test.alloc);
        for string in &strings {
            test.push(&mut strs, string.as_str());
        }
        let value = ok(&test, SmolStr::from_strs(test.alloc, strs.into_iter()));
        same_value(&test, &value, text, place, &text);
        let value = ok(
            &test,
            SmolStr::from_strings(test.alloc, strings.into_iter()),
        );
        same_value(&test, &value, text, place, &text);
    }
    test.end()
}

fn strings_of(test: &Test, parts: &[(&str, usize)]) -> Vec<String> {
    let mut strings = Vec::new(test.alloc);
    for &(text, times) in parts {
        test.push(&mut strings, test.repeated(text, times));
    }
    strings
}

// Upstream's have pieces at random: here piece i, counted from 1, is `é` i mod 5 times.
#[test]
fn from_string_iter(rt: HostRuntime) -> Result<(), Fail> {
    let test = Test::begin(rt);
    for count in 1..100 {
        let pieces = first_pieces(&test, count);
        let value = SmolStr::from_strings(test.alloc, pieces.into_iter());
        check_joined(&test, &ok(&test, value), count);
    }
    test.end()
}

#[test]
fn from_str_iter(rt: HostRuntime) -> Result<(), Fail> {
    let test = Test::begin(rt);
    for count in 1..100 {
        let pieces = first_pieces(&test, count);
        let value = SmolStr::from_string_refs(test.alloc, pieces.iter());
        check_joined(&test, &ok(&test, value), count);
    }
    test.end()
}

fn first_pieces(test: &Test, count: usize) -> Vec<String> {
    let mut pieces = Vec::new(test.alloc);
    for number in 1..=count {
        test.push(&mut pieces, test.repeated("é", number % 5));
    }
    pieces
}

/// Five pieces in a row have ten letters.
fn check_joined(test: &Test, value: &SmolStr, count: usize) {
    let letters = (count / 5).saturating_mul(10);
    let text = test.repeated("é", letters.saturating_add([0, 1, 3, 6, 10][count % 5]));
    same_value(test, value, text.as_str(), place_of(text.as_str()), &count);
}

#[test]
fn from_buf_and_chars_size_hinted_heap(rt: HostRuntime) -> Result<(), Fail> {
    let test = Test::begin(rt);
    let mut builder = test.builder(0, "abcdefghijklmnopqr");
    let chars = "_0x1x2x3x4x5x6x7x8x9x10x11x12x13".chars();
    ok(&test, builder.extend_chars(chars));
    let text = "abcdefghijklmnopqr_0x1x2x3x4x5x6x7x8x9x10x11x12x13";
    check_made(&test, builder.into_value(), text);
    test.end()
}

#[test]
fn test_bad_size_hint_char_iter(rt: HostRuntime) -> Result<(), Fail> {
    let test = Test::begin(rt);
    let chars = with_hint(chars_of(&test, "testing"), 1024);
    let collected = ok(&test, SmolStr::from_chars(test.alloc, chars));
    same_place(&test, &collected, Inline, &"collected");
    same(&test, &test.value("testing"), &collected, &"both");
    test.end()
}

// Hints reserve nothing: the largest would be refused.
#[test]
fn hints(rt: HostRuntime) -> Result<(), Fail> {
    let test = Test::begin(rt);
    for lower in [1024, usize::MAX, 0] {
        for text in ["testing", "aaaaaaaaaaaaaaaaaaaaaaaa", long_text()] {
            check_hint(&test, text, lower);
        }
    }
    test.end()
}

/// Each call makes the text, of items with this hint.
fn check_hint(test: &Test, text: &str, lower: usize) {
    let alloc = test.alloc;
    let chars = with_hint(chars_of(test, text), lower);
    refuse(alloc, Refusals::One(0));
    check_made(test, SmolStr::from_chars(alloc, chars), text);
    check_little(test, lower);
    let strs = with_hint(strs_of(test, text), lower);
    refuse(alloc, Refusals::One(0));
    check_made(test, SmolStr::from_strs(alloc, strs), text);
    check_little(test, lower);
    let strings = strings_of(test, &[("", 1), (text, 1)]);
    let refs = with_hint(refs_of(test, &strings), lower);
    check_made(test, SmolStr::from_string_refs(alloc, refs), text);
    let strings = with_hint(strings, lower);
    check_made(test, SmolStr::from_strings(alloc, strings), text);
    check_extending_hint(test, text, lower);
}

/// No more was asked for than texts of up to 40 bytes need.
fn check_little(test: &Test, lower: usize) {
    end_refusals(test.alloc);
    let is_little = is_at_most(test.alloc, Count::Bytes, 300);
    holds(test, is_little || !can_refuse(test.alloc), &lower);
}

fn check_extending_hint(test: &Test, text: &str, lower: usize) {
    let mut builder = test.builder(0, "");
    let chars = with_hint(chars_of(test, text), lower);
    ok(test, builder.extend_chars(chars));
    check_made(test, builder.into_value(), text);
    let mut builder = test.builder(0, "");
    let strs = with_hint(strs_of(test, text), lower);
    ok(test, builder.extend_strs(strs));
    check_made(test, builder.into_value(), text);
    let (strings, mut builder) = (strings_of(test, &[(text, 1)]), test.builder(0, ""));
    let refs = with_hint(refs_of(test, &strings), lower);
    ok(test, builder.extend_strings(refs));
    check_made(test, builder.into_value(), text);
}

/// There is a value of the text.
fn check_made(test: &Test, made: Result<SmolStr, AllocError>, text: &str) {
    same_value(test, &ok(test, made), text, place_of(text), &text);
}

fn chars_of(test: &Test, text: &str) -> Vec<char> {
    ok(test, text.chars().collect(test.alloc))
}

/// The text behind an empty one.
fn strs_of<'a>(test: &Test, text: &'a str) -> Vec<&'a str> {
    ok(test, ["", text].into_iter().collect(test.alloc))
}

fn refs_of<'a>(test: &Test, strings: &'a Vec<String>) -> Vec<&'a String> {
    ok(test, strings.iter().collect(test.alloc))
}

/// A piece with the text `b`, that counts what it is asked.
#[derive(Drop)]
struct Counting<'a> {
    lends: &'a Cell<usize>,
    appends: &'a Cell<usize>,
}

impl Piece for Counting<'_> {
    ghost text = { λ _. 98 ∷ [] };

    ghost texts = { joined (λ _. 98 ∷ []) };

    ghost joins = { λ _. refl };

    fn append_to(&self, builder: &mut SmolStrBuilder) -> Result<(), AllocError> {
        count(self.appends);
        builder.push('b')
    }

    fn lent(&self) -> Option<&str> {
        count(self.lends);
        None
    }
}

fn count(times: &Cell<usize>) {
    times.set(times.get().wrapping_add(1));
}

// Each piece is asked for its text once for the room, the first once more for the copy, and appended once.
#[test]
fn pieces_asked_once(rt: HostRuntime) -> Result<(), Fail> {
    let test = Test::begin(rt);
    let (lends, appends) = (Cell::new(0), Cell::new(0));
    let mut pieces = Vec::new(test.alloc);
    for _ in 0..5_000 {
        let (lends, appends) = (&lends, &appends);
        test.push(&mut pieces, Counting { lends, appends });
    }
    let joined = SmolStr::join(test.alloc, pieces.as_slice(), ",");
    holds(&test, joined.is_ok(), &"join");
    same(
        &test,
        &(lends.get(), appends.get()),
        &(5_001, 5_000),
        &"join",
    );
    test.end()
}
