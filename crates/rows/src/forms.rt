//! What a value is written as, and read from.
use crate::answer::Answer;
use crate::input::{Case, form_of};
use smol_str::SmolStr;
use smol_str::borsh::{BorshDeserialize, deserialize_limited, from_wire, split_wire};
use smol_str::json_string::{from_json, from_value, to_json, to_value};
use smol_str::stream::{read_up_to, write_fully};
use std::alloc::Global;

pub const CALLS: &str = "serialize|read_up_to|write_fully|deserialize_reader|from_wire|split_wire|\
    deserialize_limited|to_json|from_json|to_value|from_value";

pub fn number<const CALL: usize>(alloc: Global, it: &Case, at: usize) -> u64 {
    let bytes = it.text.as_bytes();
    match CALL {
        0 => form_of(alloc, &it.value).number(at),
        1 => read_up_to(alloc, &mut it.text.as_bytes(), bytes.len()).number(at),
        2 => written(alloc, bytes).number(at),
        3 => deserialized(alloc, &it.form).number(at),
        4 => from_wire(alloc, &it.form).number(at),
        5 => split_wire(alloc, &it.form).number(at),
        6 => deserialize_limited(alloc, &mut it.form.as_slice(), 1_000_000).number(at),
        7 => to_json(alloc, &it.value).number(at),
        8 => from_json(alloc, it.json.as_str()).number(at),
        9 => to_value(alloc, &it.value).is_ok().number(at),
        _ => from_value(alloc, &it.parsed).number(at),
    }
}

fn written(alloc: Global, bytes: &[u8]) -> Option<Vec<u8>> {
    let mut out = Vec::new(alloc);
    write_fully(&mut out, bytes).ok()?;
    Some(out)
}

fn deserialized(alloc: Global, form: &[u8]) -> Option<SmolStr> {
    let mut reader = form;
    SmolStr::deserialize_reader(alloc, &mut reader).ok()
}
