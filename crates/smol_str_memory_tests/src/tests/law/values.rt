//! Calls on a value. A clone shares the text, and a value on the heap hands out the shared text that it has.
use super::builders::{cloned, is_printed};
use OnValue::*;
use serde_json::Value;
use smol_str::borsh::BorshSerialize;
use smol_str::json_string::{to_json, to_value};
use smol_str::{Place, SmolStr};
use test_support::*;

pub enum OnValue {
    Cloned,
    ClonedByTrait,
    /// `{:?}` and `{}`, to a writer that asks for nothing.
    PrintValue,
    IntoString,
    IntoRcStr,
    IntoRcStrOnHeap,
    /// Where a clone has the text, too.
    IntoRcStrCloned,
    /// To a list that has room.
    Write,
    ToValue,
    /// As `json!` makes one.
    InTree,
    ToJson,
    /// Of a text whose every character takes two.
    ToJsonDoubled,
    ToJsonOneEscape,
    ToJsonPlain,
    Serialize,
}

impl Call for OnValue {
    /// A value, and a list with room for its wire form.
    type Input = (SmolStr, Vec<u8>);

    /// As it is made by `new`, and pinned.
    fn ways(&self) -> usize {
        match self {
            IntoRcStrOnHeap | IntoRcStrCloned | Serialize => 1,
            _ => 2,
        }
    }

    fn takes(&self, text: &str) -> bool {
        match self {
            IntoRcStr => place_of(text) != Place::Heap,
            IntoRcStrOnHeap | IntoRcStrCloned => place_of(text) == Place::Heap,
            ToJson => escapes(text) > 1,
            ToJsonDoubled => escapes(text) == text.len() && !text.contains('\u{1}'),
            ToJsonOneEscape => escapes(text) == 1,
            ToJsonPlain => is_plain(text),
            _ => true,
        }
    }

    fn input(&self, test: &Test, text: &'static str, way: usize) -> (SmolStr, Vec<u8>) {
        let room = match self {
            Write => text.len().saturating_add(4),
            _ => 0,
        };
        let value = if way == 1 {
            SmolStr::new_static(text)
        } else {
            test.value(text)
        };
        (value, ok(test, Vec::with_capacity(test.alloc, room)))
    }

    fn run(&self, alloc: Global, _text: &str, (value, mut out): (SmolStr, Vec<u8>)) -> Outcome {
        self.of_value(alloc, value, &mut out)
    }

    fn wanted(&self, test: &Test, text: &'static str, _way: usize) -> String {
        match self {
            ToJson | ToJsonDoubled | ToJsonOneEscape | ToJsonPlain => json_of(test, text),
            Serialize => json_of(test, text),
            _ => test.string(text),
        }
    }
}

impl OnValue {
    fn of_value(&self, alloc: Global, value: SmolStr, out: &mut Vec<u8>) -> Outcome {
        match self {
            Cloned => made(value.clone()),
            ClonedByTrait => made(cloned(&value)),
            PrintValue => changed(is_printed(&value), value),
            IntoString => made(value.into_string(alloc)),
            IntoRcStr | IntoRcStrOnHeap => made(value.into_rc_str(alloc)),
            IntoRcStrCloned => shared_out(alloc, value),
            Write => written(&value, out),
            Serialize => by_serde(serde_json::to_string(alloc, &value)),
            ToValue => tree(to_value(alloc, &value)),
            InTree => tree(serde_json::ToValue::to_value(&value, alloc)),
            ToJson | ToJsonDoubled | ToJsonOneEscape | ToJsonPlain => {
                made(to_json(alloc, &value))
            }
        }
    }
}

/// The text that the value and its clone share.
fn shared_out(alloc: Global, value: SmolStr) -> Outcome {
    match value.clone() {
        Ok(_clone) => made(value.into_rc_str(alloc)),
        Err(fault) => Err(fault.into_thing()),
    }
}

/// Whether JSON has the text as it is.
pub fn is_plain(text: &str) -> bool {
    escapes(text) == 0
}

/// How many bytes of a text JSON does not have as they are.
pub fn escapes(text: &str) -> usize {
    text.bytes()
        .filter(|&byte| byte < b' ' || byte == b'"' || byte == b'\\')
        .count()
}

/// The text in JSON, as serde_json writes it.
pub fn json_of(test: &Test, text: &str) -> String {
    ok(test, Value::String(test.string(text)).to_string(test.alloc))
}

fn written(value: &SmolStr, out: &mut Vec<u8>) -> Outcome {
    match value.serialize(out) {
        Ok(()) => Ok(Thing::Nothing),
        Err(_) => Err(Thing::Fault),
    }
}

fn tree(outcome: Result<Value, AllocError>) -> Outcome {
    match outcome {
        Ok(Value::String(text)) => Ok(text.into_thing()),
        Ok(_) => Err(Thing::Fault),
        Err(fault) => Err(fault.into_thing()),
    }
}

pub fn by_serde<M: IntoThing>(outcome: Result<M, serde_json::Error>) -> Outcome {
    match outcome {
        Ok(made) => Ok(made.into_thing()),
        Err(error) => Err(nothing(error.is_memory())),
    }
}
