//! JSON strings, and JSON that is not a string, which serde's traits refuse as for a `String`.
use Refusal::{Json, NotString};
use serde_json::{Error, Value};
use smol_str::SmolStr;
use smol_str::json_string::{JsonFault, from_json, to_json};
use test_support::*;

/// Texts, and what is written of them and read again.
static WRITTEN: [(&str, &str); 7] = table! {
    ("Hello, World", "\"Hello, World\"");
    ("", "\"\"");
    ("a\"b", "\"a\\\"b\"");
    ("a\\b", "\"a\\\\b\"");
    ("\u{8}\u{c}\n\r\t", "\"\\b\\f\\n\\r\\t\"");
    ("\u{0}\u{1f}", "\"\\u0000\\u001f\"");
    ("é🦀\u{2028}/", "\"é🦀\u{2028}/\"");
};

/// Texts, and what they are read of beside.
static READ: [(&str, &str); 8] = table! {
    ("ab", " \t\n\r\"ab\" ");
    ("a", "\"a\"\n");
    ("a b\u{7f}", "\"a b\u{7f}\"");
    ("a/\"b", "\"a\\/\\\"b\"");
    ("a\nA", "\"a\\n\\u0041\"");
    ("é", "\"\\u00e9\"");
    ("🦀", "\"\\ud83e\\udd80\"");
    ("\u{2028}", "\"\\u2028\"");
};

#[test]
fn test_serde(rt: HostRuntime) -> Result<(), Fail> {
    let test = Test::begin(rt);
    let written = ok(&test, to_json(test.alloc, &test.value("Hello, World")));
    same(&test, &written.as_str(), &"\"Hello, World\"", &"to_json");
    check_read(&test, written.as_str(), "Hello, World");
    test.end()
}

#[test]
fn rows(rt: HostRuntime) -> Result<(), Fail> {
    let test = Test::begin(rt);
    for &(text, json) in &WRITTEN {
        let written = ok(&test, to_json(test.alloc, &test.value(text)));
        same(&test, &written.as_str(), &json, &json);
        check_read(&test, json, text);
    }
    for &(text, json) in &READ {
        check_read(&test, json, text);
    }
    let spaces = test.repeated(" ", ABOVE_BUFFERS[0]);
    check_read(
        &test,
        test.joined(spaces.as_str(), "\"\\n\"").as_str(),
        "\n",
    );
    let large = test.repeated_and("a", ABOVE_BUFFERS[2], "\"");
    let written = ok(&test, to_json(test.alloc, &test.value(large.as_str())));
    check_read(&test, written.as_str(), large.as_str());
    test.end()
}

fn check_read(test: &Test, json: &str, text: &str) {
    match from_json(test.alloc, json) {
        Ok(value) => same_value(test, &value, text, place_of(text), &json),
        Err(_) => test.fail(&("no value of", json)),
    }
}

/// Why JSON makes no value.
#[derive(Clone, Copy)]
enum Refusal {
    /// It is a value of another kind.
    NotString,
    /// It is not JSON; serde_json's own reader says where.
    Json,
}

static NOT_READ: [(Refusal, &[&str]); 5] = table! {
    (NotString, &["12", "1.5", "-7", "-0", "1e2", "-1.5E-3", "18446744073709551616", "null", "true", "false"]);
    (NotString, &["[\"ab\"]", "[\"ab\", []]", "{\"ab\": \"ab\"}", "{\"a\": 1, \"b\": {}}"]);
    (Json, &["", "[1", "\"ab", "\"ab\" 1", "\"ab\"\"cd\"", "ab", "'ab'", "01", "1e999", "[1\n", "\"ab\n "]);
    (Json, &[
        "\"", "\"\"\"", "\"\\\"", "\"abcdefg\\\"", "\"abcdefghijk\u{1f}lmnop\"", "\"abcdefghijklmnopqrst\"uvwxyz\"",
        "\"abcdefghijklmnopqrstuvwxyz\tabcdefghijklmnopqrstuvwxyz\"", "\"\\x41\"", "\"a\\n\\x\"", "\"a\\n\\", "\"a\nb\"",
        "\"\\ud800\"", "\"\\udc00x\"", "\"\\ud800\\u0041\"",
    ]);
    (Json, &["  x", "\tx", "\rx", " \t x", "\t\n\t[1", "\n\n[1, 2", "\"ab\"\n x"]);
};

#[test]
fn not_read(rt: HostRuntime) -> Result<(), Fail> {
    let test = Test::begin(rt);
    for &(refusal, texts) in &NOT_READ {
        for &json in texts {
            check_not_read(&test, json, refusal);
        }
    }
    // lists in one another, and one more than are read
    for (depth, refusal) in [(127, NotString), (128, Json)] {
        let closed = test.repeated("]", depth);
        let json = test.repeated_and("[", depth, closed.as_str());
        check_not_read(&test, json.as_str(), refusal);
    }
    test.end()
}

/// Escapes by number, and what is nearly one, up to the end of a string. serde_json's own reader
/// says what they spell.
static BY_NUMBER: [&str; 38] = [
    // One to three bytes of UTF-8 at the ends of their ranges, digits in both cases.
    "\\u0000\\u007f\"",
    "\\u0080\\u07ff\"",
    "\\u0800\\uffff\"",
    "\\u00e9\\u00E9\\u20ac\\u20AC\"",
    "\\uabcd\\uABCD\\uFfFd\"",
    "\\u0022\\u005c\\u002f\\u000A\"",
    // Pairs, the least and the greatest, and the code units beside surrogates.
    "\\ud83e\\udd80\"",
    "\\uD83E\\uDD80\"",
    "\\ud83E\\uDd80\"",
    "\\ud800\\udc00\\udbff\\udfff\"",
    "\\ud7ff\\ue000\"",
    "é\\ud83e\\udd80é\\n\\u00e9\"",
    // Surrogates without their other half.
    "\\ud800\"",
    "\\udbff\"",
    "\\udc00\"",
    "\\udfff\"",
    "\\ud800a\"",
    "\\ud800\\n\"",
    "\\ud800\\u0041\"",
    "\\ud800\\ud800\\udc00\"",
    "\\udc00\\ud800\"",
    "\\ud800\\udbff\"",
    "\\ud800\\ue000\"",
    "\\ud83eudd80\"",
    "\\ud83e\\\\udd80\"",
    // Digits that are missing or are none.
    "\\u\"",
    "\\u00e\"",
    "\\u00eg\"",
    "\\u00éa\"",
    "\\u+0e9\"",
    "\\u 0e9\"",
    "\\U00e9\"",
    "\\ud83e\\udd8\"",
    // No end.
    "\\u00e9",
    "\\u00e",
    "\\ud83e\\udd80",
    "\\ud83e\\",
    "\\",
];

// At the front of a string, at both sides of a buffer's end, and behind much text.
#[test]
fn escapes_by_number(rt: HostRuntime) -> Result<(), Fail> {
    let test = Test::begin(rt);
    for &size in &[0, 37, 38, 39, 40, 300] {
        let letters = test.repeated("a", size);
        for &end in &BY_NUMBER {
            let string = test.joined(letters.as_str(), end);
            check_as_serde_json(&test, test.joined("\"", string.as_str()).as_str());
        }
    }
    test.end()
}

/// The text or the error is that of serde_json's own reader.
fn check_as_serde_json(test: &Test, json: &str) {
    match Value::from_str(test.alloc, json) {
        Ok(Value::String(text)) => check_read(test, json, text.as_str()),
        Ok(_) => test.fail(&("no string:", json)),
        Err(_) => check_not_read(test, json, Json),
    }
}

/// The text is refused so; where it is not JSON, with serde_json's own error.
fn check_not_read(test: &Test, json: &str, refusal: Refusal) {
    let (by_call, tree) = (
        from_json(test.alloc, json),
        Value::from_str(test.alloc, json),
    );
    match (refusal, by_call, tree) {
        (NotString, Err(JsonFault::NotString), Ok(_)) => {}
        (Json, Err(JsonFault::Json(error)), Err(own)) => same_error(test, error, own, json),
        _ => test.fail(&json),
    }
    let read: Result<SmolStr, Error> = serde_json::from_str(test.alloc, json);
    let by_string: Result<String, Error> = serde_json::from_str(test.alloc, json);
    match (read, by_string) {
        (Err(error), Err(own)) => same_error(test, error, own, json),
        _ => test.fail(&(json, "is read")),
    }
}

/// The errors say the same of the same line and column.
fn same_error(test: &Test, error: Error, own: Error, json: &str) {
    let printed = ok(test, error.to_string(test.alloc));
    let wanted = ok(test, own.to_string(test.alloc));
    same(test, &printed.as_str(), &wanted.as_str(), &json);
}

// Longer than each buffer: a list, a string without its end, and one with half a surrogate pair at its end; and a letter
// behind blanks, in one line and in many.
#[test]
fn long_not_read(rt: HostRuntime) -> Result<(), Fail> {
    let test = Test::begin(rt);
    for &size in &ABOVE_BUFFERS {
        check_parts(&test, NotString, "[\"", ("a", size), "\"]");
        check_parts(&test, Json, "\"", ("a", size), "");
        check_parts(&test, Json, "\"", ("a", size), "\\ud800\"");
    }
    check_parts(&test, Json, "\"\"", (" ", 5000), "x");
    check_parts(&test, Json, "\"\"", ("\n", 5000), "x");
    test.end()
}

fn check_parts(
    test: &Test,
    refusal: Refusal,
    front: &str,
    (unit, times): (&str, usize),
    end: &str,
) {
    let rest = test.repeated_and(unit, times, end);
    let json = test.joined(front, rest.as_str());
    check_not_read(test, json.as_str(), refusal)
}
