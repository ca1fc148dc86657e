//! A value there and back through JSON.
ghost use Rattle.std.specs.Prelude.{◌∷◌, ◌++◌, ◌≡◌, [], Some, codes, IfOk, IfErr, IfSome, OnErr, encode_utf8_all, chars, string_bytes};
ghost use Rattle.serde_json.specs.Find.{get};
ghost use Rattle.serde_json.specs.View.{view};
ghost use Rattle.smol_str.specs.Json.{json_value, IsJsonText, IsOther};
ghost use Rattle.smol_str.specs.Meaning.{IsValueOf};
ghost use Rattle.smol_str.specs.Plain.{IsPlain, IsPlainJson, in_quotes};
ghost use Rattle.smol_str.specs.Text.{IsShort, IsResident};

use serde_json::{Value, json};
use smol_str::json_string::{JsonFault, from_json, from_value, to_json, to_value};
use smol_str::{SmolStr, laws};
use std::alloc::{AllocError, Global};

/// What `to_json` writes, `from_json` reads as the same text.
pub fn there_and_back(alloc: Global, value: &SmolStr) -> Result<SmolStr, JsonFault>
    ensures value { IfOk result (λ back. IsValueOf value.now.text back) }
    ensures refused { IfErr result (λ fault. fault ≡ JsonFault.OutOfMemory) }
{
    let json = to_json(alloc, value)?;
    from_json(alloc, json.as_str())
}

/// The value of a JSON text that is known to be one of `name`.
pub fn known(alloc: Global, json: &str, name: &str) -> Result<SmolStr, JsonFault>
    requires { IsJsonText json.now (chars name.now) }
    ensures value { IfOk result (λ v. IsValueOf (chars name.now) v) }
    ensures refused { IfErr result (λ fault. fault ≡ JsonFault.OutOfMemory) }
{
    from_json(alloc, json)
}

/// The value of a text from its plain JSON: only memory can be refused, and that not for resident text.
pub fn of_plain(alloc: Global, json: &str, text: &str) -> Result<SmolStr, AllocError>
    requires json { IsPlainJson json.now (chars text.now) }
    ensures value { IfOk result (λ v. IsValueOf (chars text.now) v) }
    ensures refused { OnErr result (¬ (IsResident (chars text.now))) }
{
    laws::json_strings();
    match from_json(alloc, json) {
        Ok(value) => Ok(value),
        Err(JsonFault::OutOfMemory) => Err(AllocError),
        Err(JsonFault::NotString | JsonFault::Json(_)) => unreachable!(),
    }
}

/// The value of plain JSON of a short text, which never fails.
pub fn of_short_plain(alloc: Global, json: &str, text: &str) -> SmolStr
    requires json { IsPlainJson json.now (chars text.now) }
    requires short { IsShort (chars text.now) }
    ensures value { IsValueOf (chars text.now) result }
{
    match from_json(alloc, json) {
        Ok(value) => value,
        Err(_) => unreachable!(),
    }
}

/// The JSON of a plain text is it in quotes.
pub fn quoted(alloc: Global, value: &SmolStr) -> Result<String, AllocError>
    requires { IsPlain value.now.text }
    ensures { IfOk result (λ json.
        string_bytes json ≡ in_quotes (encode_utf8_all value.now.text)) }
{
    to_json(alloc, value)
}

/// The value of a JSON string that is known to be `text`: only memory can be refused, and that not for resident text.
pub fn of_string(alloc: Global, json: &Value, text: &str) -> Result<SmolStr, AllocError>
    requires { view json.now ≡ json_value (chars text.now) }
    ensures value { IfOk result (λ v. IsValueOf (chars text.now) v) }
    ensures refused { OnErr result (¬ (IsResident (chars text.now))) }
{
    match from_value(alloc, json) {
        Ok(value) => Ok(value),
        Err(JsonFault::OutOfMemory) => Err(AllocError),
        Err(JsonFault::NotString | JsonFault::Json(_)) => unreachable!(),
    }
}

/// A value there and back as a JSON value: it can only run out of memory.
pub fn as_json_value(alloc: Global, value: &SmolStr) -> Result<SmolStr, JsonFault>
    ensures value { IfOk result (λ back. IsValueOf value.now.text back) }
    ensures refused { IfErr result (λ fault. fault ≡ JsonFault.OutOfMemory) }
{
    let json = to_value(alloc, value)?;
    from_value(alloc, &json)
}

/// A JSON value that is known not to be a string: the call returns `NotString`, whatever the memory.
pub fn told_as_other(alloc: Global, json: &Value) -> JsonFault
    requires { IsOther (view json.now) }
    ensures { result ≡ JsonFault.NotString }
{
    match from_value(alloc, json) {
        Err(JsonFault::NotString) => JsonFault::NotString,
        Err(JsonFault::OutOfMemory | JsonFault::Json(_)) | Ok(_) => unreachable!(),
    }
}

/// Reads a text that is empty, which never fails for want of memory.
pub fn read_empty(alloc: Global, json: &str) -> Result<SmolStr, JsonFault>
    requires { json.now ≡ [] }
    ensures { IfErr result (λ fault. ¬ (fault ≡ JsonFault.OutOfMemory)) }
{
    from_json(alloc, json)
}

/// The value of a plain text from a line that has it in quotes, behind a space.
pub fn of_line(alloc: Global, line: &str, text: &str) -> Result<SmolStr, AllocError>
    requires plain { IsPlain (chars text.now) }
    requires line { line.now ≡ 32 ∷ 34 ∷ (text.now ++ 34 ∷ 10 ∷ []) }
    ensures { IfOk result (λ v. IsValueOf (chars text.now) v) }
{
    of_plain(alloc, line, text)
}

/// A package as a value of JSON.
pub fn named(alloc: Global, name: &SmolStr) -> Result<Value, AllocError>
    ensures { IfOk result (λ json. get (codes "name") (view json) ≡ Some (json_value name.now.text)) }
{
    json!(in alloc; {"name": name, "version": 1})
}

/// The name in such an object.
pub fn name_of(alloc: Global, json: &Value, name: &SmolStr) -> Option<SmolStr>
    requires { get (codes "name") (view json.now) ≡ Some (json_value name.now.text) }
    ensures { IfSome result (λ v. IsValueOf name.now.text v) }
{
    match json.get("name") {
        Some(it) => from_value(alloc, it).ok(),
        None => None,
    }
}

/// A name put in an object, and read from it. What is known of `json!` is lost where a `match` follows it, so each has a
/// function of its own.
pub fn through_object(alloc: Global, name: &SmolStr) -> Result<Option<SmolStr>, AllocError>
    ensures { IfOk result (λ back. IfSome back (λ v. IsValueOf name.now.text v)) }
{
    let json = named(alloc, name)?;
    Ok(name_of(alloc, &json, name))
}
