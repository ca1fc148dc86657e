//! The loops over bytes, against outside rows.
use AsciiCase::{Lower, Upper};
use smol_str::kernel::{AsciiCase, convert_while_ascii, next_match};
use smol_str::{INLINE_CAP, InlineBuffer};
use test_support::*;

/// Short texts, a case, and the ASCII front in that case; the zeros behind it fill the buffer.
static FRONTS: &[(&str, AsciiCase, &str)] = &table! {
    ("ABCDEFGHIJéKLMNOPQ", Lower, "abcdefghij");
    ("@AZ[", Lower, "@az[");
    ("", Upper, "");
    ("aaaaaaaaaaaaaaaaaaaaaaa", Upper, "AAAAAAAAAAAAAAAAAAAAAAA");
    ("QQQQQQQQQQQQQQQQ", Lower, "qqqqqqqqqqqqqqqq");
    ("QQQQQQQQQQQQQQQQé", Lower, "qqqqqqqqqqqqqqqq");
    ("QQQQQQQQQQQQQQQé", Lower, "qqqqqqqqqqqqqqq");
    ("éQQQQQQQQQQQQQQQQQQQQ", Lower, "");
    ("QQQQQQQQQQQQQQQQQQQQQQQQQQQQQQQQé", Lower, "qqqqqqqqqqqqqqqqqqqqqqqqqqqqqqqq");
    ("QQQQQQQQQQQQQQQQQQQQQQQQQQQQQQQé", Lower, "qqqqqqqqqqqqqqqqqqqqqqqqqqqqqqq");
    ("aaaaaaaaaaaaaaaaaaaaaaaaaaaaaaaaaaaaaaa", Upper, "AAAAAAAAAAAAAAAAAAAAAAAAAAAAAAAAAAAAAAA");
    ("QQQQQQQQQQQQQQQQéQQQQQQQQQQQQQQQQQQQQQ", Lower, "qqqqqqqqqqqqqqqq");
};

#[test]
fn fronts(rt: HostRuntime) -> Result<(), Fail> {
    let test = Test::begin(rt);
    for &(text, case, front) in FRONTS {
        assert_front(&test, text, case, front);
    }
    test.end()
}

fn assert_front(test: &Test, text: &str, case: AsciiCase, front: &str) {
    if text.len() > INLINE_CAP {
        return test.fail(&(text, "is too long"));
    }
    let wanted = (padded(front.as_bytes()), front.len());
    same(test, &convert_while_ascii(text, case), &wanted, &text);
}

/// The bytes, and then zeros.
fn padded(bytes: &[u8]) -> InlineBuffer {
    let mut buffer = [0; INLINE_CAP];
    let len = bytes.len().min(INLINE_CAP);
    buffer[..len].copy_from_slice(&bytes[..len]);
    buffer
}

/// A text, a place in it, a pattern, and where that is found.
static MATCHES: [(&str, usize, &str, Option<usize>); 9] = table! {
    ("foo_bar_baz", 4, "ba", Some(4)); ("foo_bar_baz", 5, "ba", Some(8)); ("foo_bar_baz", 9, "ba", None);
    ("foo_bar_baz", 11, "ba", None); ("é©", 0, "©", Some(2)); ("é", 0, "©", None); ("ééé", 2, "éé", Some(2));
    ("abc", 3, "c", None); ("", 0, "c", None);
};

#[test]
fn matches(rt: HostRuntime) -> Result<(), Fail> {
    let test = Test::begin(rt);
    for &(text, from, pattern, wanted) in &MATCHES {
        if pattern.is_empty() || !text.is_char_boundary(from) {
            test.fail(&(text, "is not a row of these calls"));
        } else {
            let found = next_match(text, from, pattern);
            same(&test, &found, &wanted, &(text, from, pattern));
        }
    }
    test.end()
}
