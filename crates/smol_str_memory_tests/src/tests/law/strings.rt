//! Calls that take a `String` of the text, or what is made of one.
use OnString::*;
use smol_str::{INLINE_CAP, SmolStr};
use std::borrow::CowStr;
use std::rc::RcStr;
use test_support::*;

pub enum OnString {
    FromStringRef,
    FromString,
    FromOwned,
    FromCow,
    FromBoxed,
    FromShared,
}

impl Call for OnString {
    /// A `String`, or a shared text.
    type Input = Result<String, RcStr>;

    /// With no more room than the text needs, with some more, with more, and with much.
    fn ways(&self) -> usize {
        match self {
            FromBoxed | FromShared => 1,
            _ => 4,
        }
    }

    fn input(&self, test: &Test, text: &'static str, way: usize) -> Result<String, RcStr> {
        if let FromShared = self {
            if let Ok(shared) = RcStr::from_str(test.alloc, text) {
                return Err(shared);
            }
        }
        let room = text
            .len()
            .saturating_add([0, 110, 10 * INLINE_CAP, 5_000][way % 4]);
        let mut string = ok(test, String::with_capacity(test.alloc, room));
        ok(test, string.push_str(text));
        Ok(string)
    }

    fn run(&self, alloc: Global, _text: &str, input: Result<String, RcStr>) -> Outcome {
        match input {
            Ok(string) => self.of_string(alloc, string),
            Err(shared) => Ok(Thing::Value(SmolStr::from_rc_str(shared))),
        }
    }
}

impl OnString {
    fn of_string(&self, alloc: Global, string: String) -> Outcome {
        match self {
            FromStringRef => made(SmolStr::from_string_ref(alloc, &string)),
            FromString => made(SmolStr::from_string(alloc, string)),
            FromOwned => made(SmolStr::from_owned(string)),
            FromCow => made(SmolStr::from_cow_str(alloc, CowStr::Owned(string))),
            FromBoxed | FromShared => {
                made(SmolStr::from_boxed_str(alloc, string.into_boxed_str()))
            }
        }
    }
}
