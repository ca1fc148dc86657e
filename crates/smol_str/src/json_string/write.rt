//! From a value to JSON.
ghost use Rattle.std.specs.Prelude.{◌≡◌, ◌<◌, ◌≤◌, ◌/◌, ◌%◌, [], ◌∷◌, ◌++◌, false, length, IfOk, OnOk, IfSome, None, Some, encode_utf8_all};
ghost use Rattle.std.specs.Char.{digit_char};
ghost use Rattle.std.specs.List.{list_all};
ghost use Rattle.std.specs.String.{string_bytes};
ghost use Rattle.json.specs.Print.{escape, escape_byte};
ghost use Rattle.serde_json.specs.Data.{string};
ghost use Rattle.serde_json.specs.View.{view};
ghost use Rattle.serde_json.specs.Written.{compact_text};
ghost use Rattle.smol_str.specs.Plain.{is_plain, IsPlain, in_quotes};
ghost use Rattle.smol_str.specs.Json.{json_value, IsJsonText};

use crate::bytes::plain::{is_all_plain, plain_len, split_ascii, split_plain};
use crate::value::SmolStr;
use serde_json::{ToValue, Value};
use std::alloc::{AllocError, Global};

/// Room for the two quotes of a JSON text, and for some escapes.
const SPARE: usize = 64;

/// The JSON value of a text: a string. It needs memory for a copy of the text, and is refused with
/// [`AllocError`] where there is none.
///
/// ```
/// let name = SmolStr::new_inline("if");
/// let value = json_string::to_value(alloc, &name)?;
/// assert_eq!(rt; value.as_str(), Some("if"));
/// ```
pub fn to_value(alloc: Global, value: &SmolStr) -> Result<Value, AllocError>
    ensures { IfOk result (λ json. view json ≡ json_value value.now.text) }
{
    Ok(Value::String(String::from_str(alloc, value.as_str())?))
}

/// The JSON string of a value's text, as `json!` takes it.
impl ToValue for &SmolStr {
    ghost gives = { λ value json. view json ≡ json_value value.now.text };

    fn to_value(self, alloc: Global) -> Result<Value, AllocError> {
        to_value(alloc, self)
    }
}

/// The JSON text of a value: its text in quotes, escaped as `serde_json` does in its compact form. No
/// escape is needed where the text has no control character, quote or backslash.
/// It is refused with [`AllocError`] where memory is.
///
/// ```
/// let quoted = json_string::to_json(alloc, &SmolStr::new_inline("a\"b"))?;
/// assert_eq!(rt; quoted.as_str(), "\"a\\\"b\"");
/// ```
#[tactic(auto, using(crate::proofs::JsonLemmas::texts_written))]
pub fn to_json(alloc: Global, value: &SmolStr) -> Result<String, AllocError>
    ensures compact { IfOk result (λ json.
        string_bytes json ≡ compact_text (json_value value.now.text)) }
    ensures reads_back { IfOk result (λ json. IsJsonText (string_bytes json) value.now.text) }
    ensures plain { IsPlain value.now.text →
        IfOk result (λ json. string_bytes json ≡ in_quotes (encode_utf8_all value.now.text)) }
{
    if is_plain_value(value) {
        write_plain(alloc, value.as_str())
    } else {
        write_escaped(alloc, value.as_str())
    }
}

/// Whether the text of a value is plain. The zeros behind a short one are not, so its whole buffer
/// is read in place of as many bytes as it has.
#[inline(always)]
#[tactic(auto, using(crate::proofs::PlainLemmas::runs))]
fn is_plain_value(value: &SmolStr) -> bool
    ensures { result ≡ list_all is_plain (encode_utf8_all value.now.text) }
{
    match value.inline_buffer() {
        Some(buffer) => plain_len(buffer) == value.len(),
        None => is_all_plain(value.as_str()),
    }
}

/// A text in quotes, as plain text is written.
#[inline(always)]
fn write_plain(alloc: Global, text: &str) -> Result<String, AllocError>
    requires { escape text.now ≡ text.now }
    ensures { IfOk result (λ json. string_bytes json ≡ compact_text (string text.now)) }
{
    let mut json = Vec::with_capacity(alloc, text.len() + 2)?;
    json.push_reserved(b'"');
    json.extend_from_slice(text.as_bytes())?;
    json.push_reserved(b'"');
    Ok(unsafe { String::from_utf8_unchecked(json) })
}

/// The compact JSON of a text that needs escapes.
#[inline(never)]
#[tactic(auto, using(crate::proofs::JsonLemmas::pieces))]
fn write_escaped(alloc: Global, text: &str) -> Result<String, AllocError>
    ensures { IfOk result (λ json. string_bytes json ≡ compact_text (string text.now)) }
{
    let mut json = Vec::with_capacity(alloc, text.len() + SPARE)?;
    json.push_reserved(b'"');
    let mut rest = text;
    loop {
        let (plain, behind) = split_plain(rest);
        json.extend_from_slice(plain.as_bytes())?;
        let Some((byte, after)) = split_ascii(behind) else {
            break;
        };
        write_escape(&mut json, byte)?;
        rest = write_escapes(&mut json, after)?;
    }
    json.reserve(1)?;
    json.push_reserved(b'"');
    Ok(unsafe { String::from_utf8_unchecked(json) })
}

/// Appends the escapes of the bytes that come first and are not plain, so that a run of them is not searched; returns what
/// comes after them.
#[inline(always)]
#[tactic(auto, using(crate::proofs::JsonLemmas::pieces))]
fn write_escapes<'a>(json: &mut Vec<u8>, text: &'a str) -> Result<&'a str, AllocError>
    ensures escapes { IfOk result (λ rest.
        json.new.items ++ escape rest.now ≡ json.old.items ++ escape text.now) }
    ensures shorter { IfOk result (λ rest. length rest.now ≤ length text.now) }
{
    let mut rest = text;
    while let Some((byte, after)) = split_special(rest) {
        write_escape(json, byte)?;
        rest = after;
    }
    Ok(rest)
}

/// The first byte of a text where it is not plain, and the rest.
#[inline(always)]
fn split_special(text: &str) -> Option<(u8, &str)>
    ensures byte { IfSome result (λ cut. is_plain cut.0 ≡ false) }
    ensures text { IfSome result (λ cut. text.now ≡ cut.0 ∷ cut.1.now) }
{
    let (byte, rest) = split_ascii(text)?;
    if byte == b'"' || byte == b'\\' || byte < b' ' {
        Some((byte, rest))
    } else {
        None
    }
}

/// Appends the escape of a byte that is not plain.
#[inline(always)]
fn write_escape(json: &mut Vec<u8>, byte: u8) -> Result<(), AllocError>
    requires { is_plain byte ≡ false }
    ensures { OnOk result (json.new.items ≡ json.old.items ++ escape_byte byte) }
{
    match letter_of_byte(byte) {
        Some(letter) => json.extend_from_slice(&[b'\\', letter]),
        None => {
            let (high, low) = (hex_digit(byte / 16), hex_digit(byte % 16));
            json.extend_from_slice(&[b'\\', b'u', b'0', b'0', high, low])
        }
    }
}

/// The letter after the backslash in the escape of a byte that is not plain, if there is one.
#[inline(always)]
#[tactic(auto, unfolding(json::specs::Print::escape_byte))]
fn letter_of_byte(byte: u8) -> Option<u8>
    requires { is_plain byte ≡ false }
    ensures ascii { IfSome result (λ letter. letter < 128) }
    ensures escape { IfSome result (λ letter. escape_byte byte ≡ 92 ∷ letter ∷ []) }
    ensures control { result ≡ None → byte < 32 }
    ensures number { result ≡ None → escape_byte byte ≡
        92 ∷ 117 ∷ 48 ∷ 48 ∷ digit_char (byte / 16) ∷ digit_char (byte % 16) ∷ [] }
{
    match byte {
        b'"' => Some(b'"'),
        b'\\' => Some(b'\\'),
        8 => Some(b'b'),
        b'\t' => Some(b't'),
        b'\n' => Some(b'n'),
        12 => Some(b'f'),
        b'\r' => Some(b'r'),
        _ => None,
    }
}

/// The hex digit of a number.
#[inline(always)]
fn hex_digit(number: u8) -> u8
    requires { number < 16 }
    ensures { result ≡ digit_char number }
{
    if number < 10 {
        b'0' + number
    } else {
        b'a' - 10 + number
    }
}
