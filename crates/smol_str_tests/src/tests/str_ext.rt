//! Case and replacement, against outside rows.
use Call::*;
use smol_str::{INLINE_CAP, SmolStr, StrExt};
use test_support::*;

#[derive(Clone, Copy, Debug)]
enum Call {
    AsciiLower,
    AsciiUpper,
    Lower,
    Upper,
    /// A pattern by a new text.
    Replace(&'static str, &'static str),
    /// At most so often.
    Replacen(&'static str, &'static str, usize),
}

fn result_of(alloc: Global, call: Call, text: &str) -> Result<SmolStr, AllocError> {
    match call {
        AsciiLower => text.to_ascii_lowercase_smolstr(alloc),
        AsciiUpper => text.to_ascii_uppercase_smolstr(alloc),
        Lower => text.to_lowercase_smolstr(alloc),
        Upper => text.to_uppercase_smolstr(alloc),
        Replace(from, to) => text.replace_smolstr(alloc, from, to),
        Replacen(from, to, count) => text.replacen_smolstr(alloc, from, to, count),
    }
}

/// A call, a text and the result. Those of upstream's test_str_ext are the first eight.
static ROWS: &[(Call, &str, &str)] = &table! {
    (AsciiLower, "aßΔC", "aßΔc");
    (AsciiUpper, "aßΔC", "AßΔC");
    (Upper, "aßΔC", "ASSΔC");
    (Lower, "aßΔC", "aßδc");
    (Lower, "aaaaaaAAAAAaaaaaaaaaaaaaaaaaaaaaAAAAaaaaaaaaaaaaaa", "aaaaaaaaaaaaaaaaaaaaaaaaaaaaaaaaaaaaaaaaaaaaaaaaaa");
    (Replace("ba", "do"), "foo_bar_baz", "foo_dor_doz");
    (Replacen("ba", "do", 1), "foo_bar_baz", "foo_dor_baz");
    (Replacen("o", "u", 1), "foo_bar_baz", "fuo_bar_baz");
    (Lower, "ΑΣ", "ας");
    (Lower, "Σ", "σ");
    (Lower, "ὈΔΥΣΣΕΎΣ", "ὀδυσσεύς");
    (Lower, "İ", "i\u{307}");
    (Upper, "ﬃ", "FFI");
    // each character becomes three, as long as it was
    (Upper, "ﬃﬃﬃﬃﬃﬃﬃ", "FFIFFIFFIFFIFFIFFIFFI");
    (AsciiLower, "@AZ[`az{", "@az[`az{");
    (AsciiUpper, "@AZ[`az{", "@AZ[`AZ{");
    (AsciiLower, "AAAAAAAAAAAAAAAAAAAAAAAA", "aaaaaaaaaaaaaaaaaaaaaaaa");
    (AsciiUpper, "                        ", "                        ");
    (Replacen("o", "u", 0), "foo_bar_baz", "foo_bar_baz");
    (Replace("aa", "b"), "aaa", "ba");
    (Replace("éé", "b"), "ééé", "bé");
    (Replace("©", "x"), "é", "é");
    (Replace("an", ""), "banana", "ba");
    (Replacen("", "-", 2), "abc", "-a-bc");
    (Replace("", "-"), "abc", "-a-b-c-");
    (Replace("", "-"), "é", "-é-");
    (Replacen("", "-", 1), "é", "-é");
    (Replacen("", "-", 0), "é", "é");
    (Replace("", "x"), "", "x");
    (Replace("c", "cc"), "abcabc", "abccabcc");
    (Replace("ab", "b"), "abab", "bb");
    (Replacen("a", "b", 2), "aaaa", "bbaa");
    (Replacen("a", "b", usize::MAX), "aaaa", "bbbb");
    (Replace("a", "b"), "aaaa", "bbbb");
    (Replace("x", "a"), "xb", "ab");
};

/// A byte more than a value has room for.
const LONG: usize = INLINE_CAP + 1;

/// A call, a text so many times, and the result in parts.
static LONG_ROWS: &[(Call, &str, usize, &[(&str, usize)])] = &table! {
    (AsciiLower, "A", LONG, &[("a", LONG)]);
    (AsciiUpper, " ", LONG, &[(" ", LONG)]);
    (Lower, " ", LONG, &[(" ", LONG)]);
    (Replace("x", " "), "x", 24, &[(" ", 24)]);
    (Replace("x", " "), "x", LONG, &[(" ", LONG)]);
    (Replace("aa", "b"), "a", LONG, &[("b", 20)]);
    (Replacen("x", "y", 39), "x", LONG, &[("y", 39), ("x", 1)]);
    (Replace("a", "b"), "a", 39, &[("b", 39)]);
};

#[test]
fn test_str_ext(rt: HostRuntime) -> Result<(), Fail> {
    let test = Test::begin(rt);
    for &(call, text, wanted) in ROWS {
        check_answer(&test, call, text, wanted);
    }
    for &(call, unit, times, wanted) in LONG_ROWS {
        let (text, wanted) = (test.repeated(unit, times), test.text(wanted));
        check_answer(&test, call, text.as_str(), wanted.as_str());
    }
    test.end()
}

fn check_answer(test: &Test, call: Call, text: &str, wanted: &str) {
    let value = ok(test, result_of(test.alloc, call, text));
    same_value(test, &value, wanted, place_of(wanted), &text);
}
