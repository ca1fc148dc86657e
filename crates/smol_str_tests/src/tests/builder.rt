//! Builders: what is appended by calls and by lists of steps, and large capacities; in `refused`, what a refusal leaves.
mod refused;

use Place::{Heap, Inline, Static};
use smol_str::{INLINE_CAP, Place, SmolStrBuilder, Step, build};
use test_support::*;

/// Pieces, each a text so many times, and the place of the text that they make.
type Row = (&'static [(&'static str, usize)], Place);

static ROWS: &[Row] = &table! {
    (&[], Inline);
    (&[("a", 1), ("bc", 1)], Inline);
    (&[("ab", 1)], Inline);
    (&[("a", 1), ("b", 1)], Inline);
    (&[("", 1), ("a", 1), ("", 1), ("b", 1)], Inline);
    (&[("é", 1), ("€", 1), ("🦀", 1)], Inline);
    (&[("a", INLINE_CAP)], Inline);
    (&[("a", INLINE_CAP + 1)], Heap);
    (&[("a", INLINE_CAP - 2), ("é", 1)], Inline);
    (&[("a", INLINE_CAP - 1), ("é", 1)], Heap);
    (&[("a", 23), ("a", 23)], Heap);
    (&[("a", 23)], Inline);
    (&[("a", 24)], Inline);
    (&[("ohnonononononononono!", 1), ("🤯", 1)], Inline);
    (&[("a", INLINE_CAP + 1), ("b", 1), ("€", 1)], Heap);
    (&[(" ", INLINE_CAP + 1)], Static);
    (&[(" ", 24)], Inline);
    (&[("a", 1000)], Heap);
};

#[test]
fn test_builder_push_str(rt: HostRuntime) -> Result<(), Fail> {
    let test = Test::begin(rt);
    for row in ROWS {
        check_appended(&test, test.builder(0, ""), row);
        check_appended(&test, test.builder(100, ""), row);
    }
    test.end()
}

fn check_appended(test: &Test, mut builder: SmolStrBuilder, &(parts, place): &Row) {
    for &(text, times) in parts {
        ok(test, builder.push_str(test.repeated(text, times).as_str()));
    }
    check_finished(test, builder, test.text(parts).as_str(), place)
}

#[test]
fn test_builder_push(rt: HostRuntime) -> Result<(), Fail> {
    let test = Test::begin(rt);
    for &(parts, place) in ROWS {
        let (mut builder, text) = (test.builder(0, ""), test.text(parts));
        for character in text.as_str().chars() {
            ok(&test, builder.push(character));
        }
        check_finished(&test, builder, text.as_str(), place);
    }
    test.end()
}

/// The builder has the text, and finishes to its value.
fn check_finished(test: &Test, builder: SmolStrBuilder, text: &str, place: Place) {
    same(test, &builder.as_str(), &text, &"a builder");
    let found = (builder.len(), builder.is_empty());
    same(test, &found, &(text.len(), text.is_empty()), &text);
    match builder.finish() {
        Ok(value) => same_value(test, &value, text, place, &"a builder's value"),
        Err(_) => test.fail(&text),
    }
}

#[test]
fn steps(rt: HostRuntime) -> Result<(), Fail> {
    let test = Test::begin(rt);
    for &(parts, place) in ROWS {
        let (steps, text) = (steps_of(&test, parts), test.text(parts));
        for capacity in [0, 23, 100] {
            let value = ok(&test, build(test.alloc, capacity, &steps));
            same_value(&test, &value, text.as_str(), place, &capacity);
        }
    }
    test.end()
}

/// A single character is pushed as one.
fn steps_of(test: &Test, parts: &[(&str, usize)]) -> Vec<Step> {
    let mut steps = Vec::new(test.alloc);
    for &(text, times) in parts {
        let step = match text.chars().next() {
            Some(first) if first.len_utf8() == text.len() && times == 1 => Step::Push(first),
            _ => Step::PushStr(test.repeated(text, times)),
        };
        test.push(&mut steps, step);
    }
    steps
}

// No allocation can have such a capacity.
#[test]
fn capacity_too_large(rt: HostRuntime) -> Result<(), Fail> {
    let test = Test::begin(rt);
    let built = build(test.alloc, usize::MAX, &[]);
    holds(&test, built.is_err(), &"build");
    let made = SmolStrBuilder::with_capacity(test.alloc, usize::MAX / 2 + 1);
    holds(&test, made.is_err(), &"with_capacity");
    test.end()
}

// No more than the capacity is asked for, however large it is.
#[test]
fn capacities(rt: HostRuntime) -> Result<(), Fail> {
    let test = Test::begin(rt);
    for capacity in [40, 1000, 4096, 20_000_000] {
        refuse(test.alloc, Refusals::One(0));
        let builder = SmolStrBuilder::with_capacity(test.alloc, capacity as usize);
        end_refusals(test.alloc);
        holds(&test, builder.is_ok(), &capacity);
        let is_exact = is_at_most(test.alloc, Count::Bytes, capacity);
        holds(&test, is_exact || !can_refuse(test.alloc), &capacity);
    }
    test.end()
}

// All of a capacity is asked for at once.
#[test]
fn appends_within_the_capacity(rt: HostRuntime) -> Result<(), Fail> {
    let test = Test::begin(rt);
    let (mut builder, text) = (test.builder(100, ""), test.repeated("a", 100));
    refuse_all(test.alloc);
    ok(&test, builder.push_str(text.as_str()));
    holds(&test, !end_refusals(test.alloc), &"a request");
    same(&test, &builder.as_str(), &text.as_str(), &"push_str");
    test.end()
}

/// By an equality that holds of each thing and itself.
fn are_equal<T: Eq>(left: &T, right: &T) -> bool {
    left == right
}

// By text, whatever their kind.
#[test]
fn builders_compared(rt: HostRuntime) -> Result<(), Fail> {
    let test = Test::begin(rt);
    let heap = test.builder(100, "ab");
    holds(&test, are_equal(&heap, &test.builder(0, "ab")), &"equal");
    holds(&test, heap != test.builder(0, "b"), &"not equal");
    test.end()
}
