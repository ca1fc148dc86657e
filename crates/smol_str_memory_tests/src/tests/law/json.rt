//! JSON, by calls and by serde's traits.
use super::forms::faulty;
use super::values::{by_serde, escapes, is_plain, json_of};
use OnJson::*;
use serde_json::Value;
use smol_str::json_string::{from_json, from_value};
use smol_str::{INLINE_CAP, SmolStr};
use test_support::*;

pub enum OnJson {
    FromValue,
    FromPlain,
    /// Of which there is one.
    FromEscape,
    /// Others, also behind numbers.
    FromEscapes,
    /// Behind characters by their numbers, of which one needs two.
    BehindNumbers,
    /// As `BehindNumbers`, with other escapes behind a long plain front.
    NumbersAndMore,
    /// A list of it, a number, or text that is not JSON.
    NotString,
    /// An object with a key of it.
    Object,
    Deserialize,
    DeserializeEscaped,
    DeserializeOwned,
}

/// A tree or JSON.
#[derive(Drop)]
pub enum Input {
    Tree(Value),
    Json(String),
}

/// A quote, and characters by numbers, of one to four bytes, with digits in both cases, and an escaped slash.
const NUMBERS: &str = "\"\\u00e9\\u00E9\\u004A\\/\\uffff\\ud83e\\udd80\\ud840\\udc00\\udbff\\udfff";

/// Their text.
const BY_NUMBERS: &str = "ééJ/\u{ffff}🦀\u{20000}\u{10ffff}";

/// What comes before a text and after it.
static AROUND: [(&str, &str); 4] = [("", ""), (" \t", "\r\n"), ("", "\n"), (BLANKS, " ")];

static NO_STRINGS: [(&str, &str); 5] = table! {
    ("[\"", "\"]"); ("1", ""); ("null", " "); ("\"", ""); ("\"", "\\x");
};

const BLANKS: &str =
    "                                                                                ";

impl Call for OnJson {
    type Input = Input;

    fn ways(&self) -> usize {
        match self {
            FromPlain | FromEscape | FromEscapes | BehindNumbers | NumbersAndMore => 4,
            NotString => 5,
            _ => 1,
        }
    }

    fn takes(&self, text: &str) -> bool {
        match self {
            FromValue => true,
            FromEscape => escapes(text) == 1,
            FromEscapes => escapes(text) > 1,
            NumbersAndMore => !is_plain(text) && text.get(..INLINE_CAP).is_some_and(is_plain),
            DeserializeEscaped => !is_plain(text),
            _ => is_plain(text),
        }
    }

    fn input(&self, test: &Test, text: &'static str, way: usize) -> Input {
        match self {
            FromValue | DeserializeOwned => Input::Tree(Value::String(test.string(text))),
            _ => Input::Json(self.json(test, text, way)),
        }
    }

    fn run(&self, alloc: Global, _text: &str, input: Input) -> Outcome {
        match input {
            Input::Json(json) => self.of_json(alloc, json.as_str()),
            Input::Tree(tree) => match self {
                FromValue => made(from_value(alloc, &tree)),
                _ => by_serde::<SmolStr>(serde_json::from_value(alloc, tree)),
            },
        }
    }

    fn wanted(&self, test: &Test, text: &'static str, way: usize) -> String {
        let numbers = if self.has_numbers(way) {
            BY_NUMBERS
        } else {
            ""
        };
        test.joined(numbers, text)
    }
}

impl OnJson {
    fn json(&self, test: &Test, text: &str, way: usize) -> String {
        match self {
            NotString => around(test, NO_STRINGS[way % 5], text),
            Object => around(test, ("{\"", "\":[]}"), text),
            _ => around(test, AROUND[way % 4], self.quoted(test, text, way).as_str()),
        }
    }

    /// The text in quotes, behind the numbers where there are some.
    fn quoted(&self, test: &Test, text: &str, way: usize) -> String {
        let quote = if self.has_numbers(way) { NUMBERS } else { "\"" };
        test.joined(quote, json_of(test, text).as_str().get(1..).unwrap_or(""))
    }

    fn has_numbers(&self, way: usize) -> bool {
        matches!(self, BehindNumbers | NumbersAndMore) || matches!(self, FromEscapes) && way >= 2
    }

    fn of_json(&self, alloc: Global, json: &str) -> Outcome {
        match self {
            Deserialize | DeserializeEscaped => {
                by_serde::<SmolStr>(serde_json::from_str(alloc, json))
            }
            NotString | Object => faulty(made(from_json(alloc, json))),
            FromPlain | FromEscape | FromEscapes | BehindNumbers | NumbersAndMore => {
                made(from_json(alloc, json))
            }
            _ => Err(Thing::Fault),
        }
    }
}

fn around(test: &Test, (front, end): (&str, &str), text: &str) -> String {
    test.joined(front, test.joined(text, end).as_str())
}
