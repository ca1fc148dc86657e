//! From JSON to a value.
ghost use Rattle.std.specs.Prelude.{◌≡◌, ◌↔◌, ◌<◌, ◌≤◌, ℕ, List, ◌∷◌, ◌++◌, false, MatchOption, drop, length, true, IsTrue, IfOk, IfErr, OnErr, IsOkAnd, IfSome, None, Some, encode_utf8, encode_utf8_all};
ghost use Rattle.std.specs.Char.{digit_value};
ghost use Rattle.std.specs.List.{list_all, prefix_len};
ghost use Rattle.std.specs.Str.{chars};
ghost use Rattle.json.specs.Text.{short_escape};
ghost use Rattle.serde_json.specs.View.{view};
ghost use Rattle.smol_str.specs.Text.{IsResident};
ghost use Rattle.smol_str.specs.Meaning.{IsValueOf};
ghost use Rattle.smol_str.specs.BuilderState.{InBuffer, empty_builder};
ghost use Rattle.smol_str.specs.Plain.{is_plain, is_space, IsPlainJson};
ghost use Rattle.smol_str.specs.Unescaped.{Unescapes, UnescapesAfterU, BeginsWithUnit, IsSurrogatePair};
ghost use Rattle.smol_str.specs.Json.{json_value, IsJsonText, IsJsonOf, AfterValueFault, AfterJsonFault};

use crate::builder::SmolStrBuilder;
use crate::bytes::plain::{is_all_spaces, split_ascii, split_plain, strip_ascii, without_spaces};
use crate::json_string::fault::JsonFault;
use crate::value::SmolStr;
use serde_json::Value;
use std::alloc::{AllocError, Global};

/// The value of a JSON string's text, copied.
///
/// It is [`JsonFault::NotString`] for any other JSON value; the value of a number is not looked at.
/// Memory may be refused only for a text that is not resident, and that is
/// [`JsonFault::OutOfMemory`]. [`JsonFault::Json`] never comes.
#[tactic(auto, using(crate::proofs::JsonLemmas::read_values))]
pub fn from_value(alloc: Global, value: &Value) -> Result<SmolStr, JsonFault>
    ensures ok { IfOk result (λ v. IsJsonOf (view value.now) v) }
    ensures of_text { (t : List ℕ) → view value.now ≡ json_value t →
        IfOk result (λ v. IsValueOf t v) }
    ensures fault { IfErr result (AfterValueFault (view value.now)) }
{
    match value {
        Value::String(text) => Ok(SmolStr::from_string_ref(alloc, text)?),
        _ => Err(JsonFault::NotString),
    }
}

/// The value of a JSON text that is one string, with nothing but white space around it.
///
/// The whole text is read first: one that is not JSON is [`JsonFault::Json`], one that is another
/// JSON value [`JsonFault::NotString`]. Lists and objects may nest 127 deep, as `serde_json` reads
/// them. A string is read in place, and needs memory only where its text is not short, which is only
/// tested. Any other text needs memory for a copy, so the call may be refused with
/// [`JsonFault::OutOfMemory`]. It never is where the text is resident and *plain*: no control character,
/// quote or backslash occurs between the quotes.
///
/// ```
/// let name = json_string::from_json(alloc, "\"if\"")?;
/// assert_eq!(rt; name.as_str(), "if");
/// ```
#[tactic(auto, using(crate::proofs::JsonLemmas::values_read))]
pub fn from_json(alloc: Global, text: &str) -> Result<SmolStr, JsonFault>
    // On success the value is of the text that the JSON text spells, in that text's place.
    ensures text { IfOk result (λ v. IsJsonText text.now v.text) }
    ensures of_text { (t : List ℕ) → IsJsonText text.now t → IfOk result (λ v. IsValueOf t v) }

    // A fault says why there is no value.
    ensures fault { IfErr result (AfterJsonFault text.now) }

    // A plain resident text always has its value.
    ensures plain { (t : List ℕ) → IsPlainJson text.now t → IsResident t →
        IsOkAnd result (IsValueOf t) }
{
    let Some(inner) = strip_ascii(without_spaces(text), b'"') else {
        return read_any(alloc, text);
    };
    let (plain, rest) = split_plain(inner);
    if is_closed(rest) {
        return Ok(SmolStr::new(alloc, plain)?);
    }
    read_escaped(alloc, text, plain, rest)
}

/// Whether a quote and white space are all.
#[inline(always)]
fn is_closed(rest: &str) -> bool
    ensures closed { result ≡ true → (behind : List ℕ) × (list_all is_space behind ≡ true)
        × (rest.now ≡ 34 ∷ behind) }
    ensures open { result ≡ false → (behind : List ℕ) → list_all is_space behind ≡ true →
        ¬ (rest.now ≡ 34 ∷ behind) }
{
    match strip_ascii(rest, b'"') {
        Some(behind) => is_all_spaces(behind),
        None => false,
    }
}

/// The value of any JSON text that begins with a quote. A string is read in place, on from its plain front.
#[inline(never)]
#[tactic(auto, using(crate::proofs::JsonLemmas::values_read))]
fn read_escaped(alloc: Global, text: &str, plain: &str, rest: &str) -> Result<SmolStr, JsonFault>
    requires opened { drop (prefix_len is_space text.now) text.now ≡ 34 ∷ (plain.now ++ rest.now) }
    requires plain { list_all is_plain plain.now ≡ true }
    ensures text { IfOk result (λ v. IsJsonText text.now v.text) }
    ensures of_text { (t : List ℕ) → IsJsonText text.now t → IfOk result (λ v. IsValueOf t v) }
    ensures fault { IfErr result (AfterJsonFault text.now) }
{
    let mut builder = SmolStrBuilder::new(alloc);
    let rest = read_content(&mut builder, plain, rest)?;
    if is_closed(rest) {
        return Ok(builder.into_value()?);
    }
    read_any(alloc, text)
}

/// Appends the characters that a JSON string's content spells, of which the plain front is known; returns what comes after them.
#[tactic(auto, using(crate::proofs::JsonLemmas::Unescaped::pieces_read))]
fn read_content<'a>(
    builder: &mut SmolStrBuilder,
    plain: &str,
    rest: &'a str,
) -> Result<&'a str, AllocError>
    requires new { builder.old ≡ empty_builder InBuffer }
    requires plain { list_all is_plain plain.now ≡ true }
    ensures { IfOk result (λ after.
        Unescapes (plain.now ++ rest.now) (encode_utf8_all builder.new.text) after.now) }
{
    builder.push_with_spare(plain, rest.len())?;
    let mut rest = rest;
    while let Some((character, after)) = split_escape(rest) {
        builder.push_heap_first(character)?;
        rest = read_plain(builder, after)?;
    }
    Ok(rest)
}

/// Appends the plain text that comes first; returns what comes after it. Where an escape or the end comes first, nothing is
/// searched.
#[inline(always)]
fn read_plain<'a>(builder: &mut SmolStrBuilder, text: &'a str) -> Result<&'a str, AllocError>
    ensures unescapes { IfOk result (λ rest. (whole : List ℕ) →
        Unescapes whole (encode_utf8_all builder.old.text) text.now →
        Unescapes whole (encode_utf8_all builder.new.text) rest.now) }
    ensures shorter { IfOk result (λ rest. length rest.now ≤ length text.now) }
{
    if let Some(b'\\' | b'"') = text.as_bytes().first() {
        return Ok(text);
    }
    let (plain, rest) = split_plain(text);
    builder.push_with_spare(plain, rest.len())?;
    Ok(rest)
}

/// The character that an escape spells, and what comes after it.
#[inline(always)]
#[tactic(auto, using(crate::proofs::JsonLemmas::Unescaped::escapes))]
fn split_escape(text: &str) -> Option<(char, &str)>
    ensures unescapes { IfSome result (λ cut. Unescapes text.now (encode_utf8 cut.0) cut.1.now) }
    ensures shorter { IfSome result (λ cut. length cut.1.now < length text.now) }
{
    let (letter, rest) = split_ascii(strip_ascii(text, b'\\')?)?;
    if letter == b'u' {
        let (character, rest) = split_code(rest)?;
        return Some((character, rest));
    }
    Some((character_of_letter(letter)?, rest))
}

/// The character that is written as a backslash and a letter.
#[inline(always)]
#[tactic(auto, unfolding(json::specs::Text::short_escape))]
fn character_of_letter(letter: u8) -> Option<char>
    ensures ascii { IfSome result (λ character. character < 128) }
    ensures letter { IfSome result (λ character. short_escape letter ≡ Some character) }
{
    match letter {
        b'"' => Some('"'),
        b'\\' => Some('\\'),
        b'/' => Some('/'),
        b'b' => Some('\u{8}'),
        b't' => Some('\t'),
        b'n' => Some('\n'),
        b'f' => Some('\u{c}'),
        b'r' => Some('\r'),
        _ => None,
    }
}

/// The character whose number follows `\u`, and what comes after it. A character above U+FFFF has two numbers, the
/// surrogates of its UTF-16, each in an escape of its own.
#[inline(never)]
#[tactic(auto, using(crate::proofs::JsonLemmas::Unescaped::units))]
fn split_code(text: &str) -> Option<(char, &str)>
    ensures unescapes { IfSome result (λ cut. UnescapesAfterU text.now (encode_utf8 cut.0) cut.1.now) }
    ensures shorter { IfSome result (λ cut. length cut.1.now < length text.now) }
{
    let (unit, rest) = split_unit(text)?;
    if let Some(character) = char::from_u32(unit) {
        return Some((character, rest));
    }
    let second = strip_ascii(strip_ascii(rest, b'\\')?, b'u')?;
    let (low, rest) = split_unit(second)?;
    Some((surrogate_pair(unit, low)?, rest))
}

/// The character of a pair of surrogates; `None` where the first is not a high one or the second not a low one.
#[inline(always)]
fn surrogate_pair(high: u32, low: u32) -> Option<char>
    ensures { IfSome result (IsSurrogatePair high low) }
{
    if high < 0xd800 || high >= 0xdc00 || low < 0xdc00 || low >= 0xe000 {
        return None;
    }
    char::from_u32(0x1_0000 + (high - 0xd800) * 0x400 + (low - 0xdc00))
}

/// The UTF-16 code unit that four hex digits spell, and what comes after them.
#[inline(always)]
#[tactic(auto, unfolding(json::specs::Text::code_unit))]
fn split_unit(text: &str) -> Option<(u32, &str)>
    ensures unit { IfSome result (λ cut. BeginsWithUnit text.now cut.0 cut.1.now) }
    ensures fits { IfSome result (λ cut. cut.0 < 0x1_0000) }
    ensures shorter { IfSome result (λ cut. length cut.1.now < length text.now) }
{
    let (a, rest) = split_digit(text)?;
    let (b, rest) = split_digit(rest)?;
    let (c, rest) = split_digit(rest)?;
    let (d, rest) = split_digit(rest)?;
    Some((a * 0x1000 + b * 0x100 + c * 0x10 + d, rest))
}

/// The value of a hex digit, and what comes after it.
#[inline(always)]
fn split_digit(text: &str) -> Option<(u32, &str)>
    ensures digit { IfSome result (λ cut.
        (x : ℕ) × (text.now ≡ x ∷ cut.1.now) × (digit_value x ≡ cut.0)) }
    ensures hex { IfSome result (λ cut. cut.0 < 16) }
{
    let (byte, rest) = split_ascii(text)?;
    Some(((byte as char).to_digit(16)?, rest))
}

/// The value of any JSON text, as `serde_json` reads it.
#[inline(never)]
#[tactic(auto, using(crate::proofs::JsonLemmas::values_read))]
fn read_any(alloc: Global, text: &str) -> Result<SmolStr, JsonFault>
    ensures text { IfOk result (λ v. IsJsonText text.now v.text) }
    ensures of_text { (t : List ℕ) → IsJsonText text.now t → IfOk result (λ v. IsValueOf t v) }
    ensures fault { IfErr result (AfterJsonFault text.now) }
{
    match Value::from_str(alloc, text) {
        Ok(value) => from_value(alloc, &value),
        Err(error) if error.is_memory() => Err(JsonFault::OutOfMemory),
        Err(error) => Err(JsonFault::Json(error)),
    }
}
