//! What a refused append leaves. Where memory can't be refused, each call appends all that it is given.
use super::check_finished;
use Call::*;
use smol_str::{Place, SmolStrBuilder};
use test_support::*;

// Where one byte is left, a text of two bytes is refused, and then a character of one byte fits.
#[test]
fn refused_at_the_boundary(rt: HostRuntime) -> Result<(), Fail> {
    let test = Test::begin(rt);
    let text = test.repeated("a", 38);
    let mut builder = test.builder(0, text.as_str());
    refuse_all(test.alloc);
    let is_refused = builder.push_str("bc").is_err();
    end_refusals(test.alloc);
    same(&test, &is_refused, &can_refuse(test.alloc), &"push_str");
    if is_refused {
        same(&test, &builder.as_str(), &text.as_str(), &"push_str");
    } else {
        builder = test.builder(0, text.as_str());
    }
    refuse_all(test.alloc);
    ok(&test, builder.push('d'));
    holds(&test, !end_refusals(test.alloc), &"push");
    let whole = test.joined(text.as_str(), "d");
    check_finished(&test, builder, whole.as_str(), Place::Inline);
    test.end()
}

// The pieces before the refused one stay.
#[test]
fn refused_piece(rt: HostRuntime) -> Result<(), Fail> {
    let test = Test::begin(rt);
    let mut builder = test.builder(0, test.repeated("a", 37).as_str());
    refuse_all(test.alloc);
    let extended = builder.extend_strs(["b", "c", "de", "f"].into_iter());
    end_refusals(test.alloc);
    let (is_refused, is_inline) = (extended.is_err(), builder.inline_buffer().is_some());
    let found = (is_refused, is_inline);
    same(
        &test,
        &found,
        &(can_refuse(test.alloc), is_refused),
        &"extend_strs",
    );
    let wanted = test.repeated_and("a", 37, if is_refused { "bc" } else { "bcdef" });
    same(&test, &builder.as_str(), &wanted.as_str(), &"extend_strs");
    test.end()
}

/// A call that appends items: characters, or pieces that end with `€`.
#[derive(Clone, Copy, Debug)]
enum Call {
    ExtendChars,
    ExtendStrs,
    ExtendStrings,
}

/// A call, and the size of the text after which the next item leaves the buffer.
static CALLS: [(Call, usize); 3] = [(ExtendChars, 38), (ExtendStrs, 36), (ExtendStrings, 36)];

// At each request: the items before the refused one stay, in the buffer where the first request is refused.
#[test]
fn refused_items(rt: HostRuntime) -> Result<(), Fail> {
    let test = Test::begin(rt);
    let (text, mut strings) = (test.repeated("bc€", 100), Vec::new(test.alloc));
    for _ in 0..100 {
        test.push(&mut strings, test.string("bc€"));
    }
    for &(call, most_inline) in &CALLS {
        for nth in 1..12 {
            let mut builder = test.builder(0, "a");
            refuse(test.alloc, Refusals::One(nth));
            let is_refused = extended(call, &mut builder, text.as_str(), &strings).is_err();
            same(&test, &end_refusals(test.alloc), &is_refused, &call);
            check_left(&test, (call, nth), &builder, is_refused, most_inline);
        }
    }
    test.end()
}

fn extended(
    call: Call,
    builder: &mut SmolStrBuilder,
    text: &str,
    strings: &Vec<String>,
) -> Result<(), AllocError> {
    match call {
        ExtendChars => builder.extend_chars(text.chars()),
        ExtendStrs => builder.extend_strs(text.split_inclusive('€')),
        ExtendStrings => builder.extend_strings(strings.iter()),
    }
}

/// The builder has `a` and whole items: all, or those before the refused one.
fn check_left(
    test: &Test,
    row: (Call, u32),
    builder: &SmolStrBuilder,
    is_refused: bool,
    most_inline: usize,
) {
    let (whole, len) = (
        test.repeated_and("a", 1, test.repeated("bc€", 100).as_str()),
        builder.len(),
    );
    let is_front = whole.as_str().starts_with(builder.as_str());
    holds(test, is_front, &(row, builder.as_str()));
    holds(
        test,
        matches!(row.0, ExtendChars) || len % 5 == 1,
        &(row, len),
    );
    holds(test, is_refused == (len < whole.len()), &(row, len));
    let is_first = row.1 == 1 && can_refuse(test.alloc);
    same(test, &builder.inline_buffer().is_some(), &is_first, &row);
    holds(test, !is_first || len == most_inline, &(row, len));
}
