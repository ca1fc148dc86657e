//! Formatting: the printed texts, and prints that give up.
use smol_str::{FormatError, INLINE_CAP, SmolStr, SmolStrBuilder, ToSmolStr, format_smolstr};
use std::cell::Cell;
use std::fmt::{self, Display, Formatter, Write};
use test_support::*;

/// Writes `ab` and gives up.
#[derive(Drop)]
struct GivesUp;

impl Display for GivesUp {
    fn fmt<W: Write>(&self, f: &mut Formatter<W>) -> fmt::Result {
        f.write_str("ab")?;
        Err(fmt::Error)
    }
}

/// Writes `ab`, then `c`.
#[derive(Drop)]
struct TwoPieces;

impl Display for TwoPieces {
    fn fmt<W: Write>(&self, f: &mut Formatter<W>) -> fmt::Result {
        f.write_str("ab")?;
        f.write_str("c")
    }
}

/// The print makes the value of the text.
fn check_value(test: &Test, made: Result<SmolStr, FormatError>, text: &str) {
    same_value(test, &ok(test, made), text, place_of(text), &text);
}

#[test]
fn test_to_smolstr(rt: HostRuntime) -> Result<(), Fail> {
    let test = Test::begin(rt);
    let letters = "abcdefghijklmnopqrstuvwxyz";
    for start in 0..26 {
        let end = letters.get(start..).unwrap_or("no such end");
        check_value(&test, end.to_smolstr(test.alloc), end);
        check_value(&test, format_smolstr!(test.alloc; "{}", end), end);
    }
    test.end()
}

/// What the arguments print: the row hands in its `format_args!`, so that each format is proved once.
fn check_row(test: &Test, wanted: &str, row: &impl Display) {
    check_value(test, format_smolstr!(test.alloc; "{row}"), wanted);
}

// Widths, fills and precision are those of `format!`.
#[test]
fn texts_as_a_string(rt: HostRuntime) -> Result<(), Fail> {
    let test = Test::begin(rt);
    check_short(&test, &test.value("ab"));
    check_wide(&test, &test.value("né"), &test.value("a\"b"));
    test.end()
}

fn check_short(test: &Test, value: &SmolStr) {
    check_row(test, "ab", &format_args!("{value}"));
    check_row(test, "\"ab\"", &format_args!("{value:?}"));
    check_row(test, "   ab", &format_args!("{value:>5}"));
    check_row(test, "ab**", &format_args!("{value:*<4}"));
    check_row(test, "   a|", &format_args!("{value:>4.1}|"))
}

fn check_wide(test: &Test, value: &SmolStr, quote: &SmolStr) {
    check_row(test, "né**", &format_args!("{value:*<4}"));
    check_row(test, "  né  ", &format_args!("{value:^6}"));
    check_row(test, "\"a\\\"b\"", &format_args!("{quote:?}"))
}

// Signs, bases and blank runs too.
#[test]
fn numbers_as_a_string(rt: HostRuntime) -> Result<(), Fail> {
    let test = Test::begin(rt);
    check_value(&test, 42u8.to_smolstr(test.alloc), "42");
    let row = format_smolstr!(test.alloc; "{}-{:02}", "a", 7);
    check_value(&test, row, "a-07");
    check_row(&test, "-0042", &format_args!("{:05}", -42));
    check_row(&test, "+7 0xff", &format_args!("{:+} {:#x}", 7u8, 255u8));
    check_row(&test, "{00000101}", &format_args!("{{{:08b}}}", 5u8));
    let row = format_smolstr!(test.alloc; "{:>24}", "");
    check_value(&test, row, "                        ");
    let row = format_smolstr!(test.alloc; "{:>width$}", "", width = INLINE_CAP + 1);
    check_value(&test, row, long_blank());
    test.end()
}

// With each request for memory refused in turn.
#[test]
fn two_pieces(rt: HostRuntime) -> Result<(), Fail> {
    let test = Test::begin(rt);
    for nth in 0..4 {
        refuse(test.alloc, Refusals::One(nth));
        let made = TwoPieces.to_smolstr(test.alloc);
        let was_refused = end_refusals(test.alloc);
        if !was_refused || made.is_ok() {
            check_value(&test, made, "abc");
        }
    }
    test.end()
}

static PAST_ASCII: [&str; 7] = [
    "é\n",
    "né\n\"\u{200b}",
    "🦀\"",
    "\u{301}",
    "a\u{301}'\\é",
    "a\u{7f}\u{200b}",
    "é\t\r\0\u{1b}",
];

// As their texts do; of text past ASCII no contract says what that is.
#[test]
fn debug_past_ascii(rt: HostRuntime) -> Result<(), Fail> {
    let test = Test::begin(rt);
    for text in &PAST_ASCII {
        check_forms(&test, text);
    }
    for times in [1000, 70_000] {
        check_forms(&test, test.repeated("é\n", times).as_str());
    }
    test.end()
}

/// The value of a text and builders of it are printed as std prints the text.
fn check_forms(test: &Test, text: &str) {
    check_value_forms(test, &test.value(text), text);
    for capacity in [0, 100] {
        let builder = test.builder(capacity, text);
        same_debug(test, &builder, &text, &("a builder", capacity));
    }
}

fn check_value_forms(test: &Test, value: &SmolStr, text: &str) {
    let row = (value.place(), text.get(..8));
    same_display(test, value, &text, &row);
    same_debug(test, value, &text, &row);
    same_debug(test, &Some(value), &Some(text), &row);
}

// In each place.
#[test]
fn each_form(rt: HostRuntime) -> Result<(), Fail> {
    let test = Test::begin(rt);
    for text in ["", "ab", "a\n\"é", long_blank(), long_text()] {
        check_forms(&test, text);
        check_value_forms(&test, &SmolStr::new_static(text), text);
    }
    test.end()
}

/// A text that counts how often it is printed.
#[derive(Drop)]
struct Counting<'a> {
    text: &'a str,
    times: &'a Cell<usize>,
}

impl Display for Counting<'_> {
    fn fmt<W: Write>(&self, f: &mut Formatter<W>) -> fmt::Result {
        self.times.set(self.times.get().wrapping_add(1));
        f.write_str(self.text)
    }
}

#[test]
fn printed_once(rt: HostRuntime) -> Result<(), Fail> {
    let test = Test::begin(rt);
    for text in ["ab", long_text()] {
        let times = Cell::new(0);
        let counting = Counting {
            text,
            times: &times,
        };
        check_value(&test, counting.to_smolstr(test.alloc), text);
        same(&test, &times.get(), &1, &text);
        check_value(&test, format_smolstr!(test.alloc; "{counting}"), text);
        same(&test, &times.get(), &2, &text);
        for capacity in [0, 100] {
            let mut builder = test.builder(capacity, "");
            let is_printed = write!(builder, "{counting}").is_ok();
            holds(&test, is_printed && builder.as_str() == text, &text);
        }
        same(&test, &times.get(), &4, &text);
    }
    test.end()
}

#[test]
fn gives_up(rt: HostRuntime) -> Result<(), Fail> {
    let test = Test::begin(rt);
    let made = GivesUp.to_smolstr(test.alloc);
    holds(&test, made.is_err(), &"to_smolstr");
    let made = format_smolstr!(test.alloc; "a{}b", GivesUp);
    holds(&test, made.is_err(), &"format_smolstr!");
    check_kept(&test, test.builder(0, "x"));
    check_kept(&test, test.builder(100, "x"));
    test.end()
}

/// The builder keeps what was printed before.
fn check_kept(test: &Test, mut builder: SmolStrBuilder) {
    let printed = write!(builder, "{}{GivesUp}", 1);
    holds(test, printed.is_err(), &"write!");
    same(test, &builder.as_str(), &"x1ab", &"write!");
}
