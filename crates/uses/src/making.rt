//! Values made piece by piece, by printing, and of what a program has at hand.
ghost use Rattle.std.specs.Prelude.{◌≡◌, ◌+◌, ◌*◌, ◌≤◌, ◌++◌, ◌∷◌, [], codes, length, IfOk, IsOk, OnErr, OnOk, Some, encode_utf8_all, ◌↔◌, String, IsTrue, filter, flat_map, chars, decimal, string_bytes};
ghost use Rattle.std.specs.Char.{is_ascii_digit as digit};
ghost use Rattle.smol_str.specs.BuilderState.{InBuffer, OnHeap, appended, empty_builder};
ghost use Rattle.smol_str.specs.Case.{IsAsciiText};
ghost use Rattle.smol_str.specs.declared.value.place.Place.TheVariants.{Heap};
ghost use Rattle.smol_str.specs.Text.{IsShort, blank_run, place_of, IsResident};
ghost use Rattle.smol_str.specs.Meaning.{IsValueOf};
ghost use Rattle.std.specs.Io.Cursor.{cursor_remaining};
ghost use Rattle.std.specs.Path.{path_buf_bytes, path_bytes, path_join};
ghost use Rattle.uses.specs.Layout.{dashed};

use smol_str::kernel::AsciiCase;
use smol_str::{
    FormatError, INLINE_CAP, Place, SmolStr, SmolStrBuilder, StrExt, ToSmolStr, format_smolstr,
    laws,
};
use std::alloc::{AllocError, Global};
use std::convert::AsStr;
use std::io::Cursor;
use std::path::{Path, PathBuf};

/// The texts of values, one after another, and a newline.
#[tactic(auto, using(smol_str::proofs::CallerLemmas::builders))]
pub fn joined(alloc: Global, parts: &[SmolStr]) -> Result<SmolStr, AllocError>
    ensures value { IfOk result (λ v. IsValueOf (flat_map (λ part. part.text) parts.now ++ (10 ∷ [])) v) }
    ensures refused { OnErr result (¬ (IsShort (flat_map (λ part. part.text) parts.now ++ (10 ∷ [])))) }
{
    let mut builder = SmolStrBuilder::new(alloc);
    for part in parts {
        builder.push_str(part.as_str())?;
    }
    builder.push('\n')?;
    builder.into_value()
}

/// Two texts that fit a builder together: neither append is refused.
#[tactic(auto, using(smol_str::proofs::CallerLemmas::builders))]
pub fn both(alloc: Global, first: &str, second: &str) -> Result<SmolStrBuilder, AllocError>
    requires { length first.now + length second.now ≤ INLINE_CAP }
    ensures ok { IsOk result }
    ensures text { IfOk result (λ b. b.text ≡ chars first.now ++ chars second.now) }
{
    let mut builder = SmolStrBuilder::new(alloc);
    builder.push_str(first)?;
    builder.push_str(second)?;
    Ok(builder)
}

/// A newline, a key, a comma and a value at a builder's end. Where an append is refused, the whole would not fit the buffer.
#[tactic(auto, using(smol_str::proofs::CallerLemmas::passed_builders))]
pub fn push_entry(out: &mut SmolStrBuilder, key: &str, value: &SmolStr) -> Result<(), AllocError>
    ensures ok { OnOk result (out.new ≡ appended out.old (10 ∷ (chars key.now ++ (chars (codes ",") ++ value.now.text)))) }
    ensures refused { OnErr result ((appended out.old (10 ∷ ((chars key.now ++ (44 ∷ [])) ++ value.now.text))).kind ≡ OnHeap) }
{
    out.push('\n')?;
    out.push_str(key)?;
    out.push(',')?;
    out.push_str(value)
}

/// The texts of values at a builder's end.
#[tactic(auto, using(smol_str::proofs::CallerLemmas::passed_builders))]
pub fn push_all(out: &mut SmolStrBuilder, parts: &[SmolStr]) -> Result<(), AllocError>
    ensures ok { OnOk result (out.new ≡ appended out.old (flat_map (λ part. part.text) parts.now)) }
    ensures refused { OnErr result ((appended out.old (flat_map (λ part. part.text) parts.now)).kind ≡ OnHeap) }
{
    let _text = out.as_str();
    for part in parts {
        out.push_str(part)?;
    }
    Ok(())
}

/// A line's end and the next line's indentation at a builder's end.
pub fn push_line_end(out: &mut SmolStrBuilder, level: u8) -> Result<(), AllocError>
    requires { level ≤ 8 }
    ensures ok { OnOk result (out.new ≡ appended out.old (blank_run 1 (4 * level))) }
    ensures unchanged { OnErr result (out.new ≡ out.old) }
{
    out.push_blank(1, 4 * usize::from(level))
}

/// A text.
pub fn copied(alloc: Global, text: &str) -> Result<SmolStr, FormatError>
    ensures value { IfOk result (λ v. IsValueOf (chars text.now) v) }
{
    text.to_smolstr(alloc)
}

/// What a builder has, and after it a number and a sign.
pub fn signed(mut builder: SmolStrBuilder, number: u64) -> Result<SmolStr, FormatError>
    ensures { IfOk result (λ v. encode_utf8_all v.text ≡
        encode_utf8_all builder.text ++ (decimal number ++ codes "-")) }
{
    write!(builder, "{number}-")?;
    Ok(builder.into_value()?)
}

/// A number.
pub fn number(alloc: Global, number: u8) -> Result<SmolStr, FormatError>
    ensures text { IfOk result (λ v. encode_utf8_all v.text ≡ decimal number) }
    ensures place { IfOk result (λ v. v.place ≡ place_of v.text) }
{
    number.to_smolstr(alloc)
}

/// A key and its number, as a text.
#[tactic(auto, using(smol_str::proofs::CallerLemmas::prints))]
pub fn entry(alloc: Global, key: &str, number: u64) -> Result<SmolStr, FormatError>
    ensures value { IfOk result (λ v. IsValueOf (chars key.now ++ (chars (codes " = ") ++ decimal number)) v) }
{
    print_entry(alloc, key, number)
}

/// A key and its number, as bytes. A ruleset does not reach into a function that prints, so the print has its own.
fn print_entry(alloc: Global, key: &str, number: u64) -> Result<SmolStr, FormatError>
    ensures text { IfOk result (λ v.
        encode_utf8_all v.text ≡ key.now ++ (codes " = " ++ decimal number)) }
    ensures place { IfOk result (λ v. v.place ≡ place_of v.text) }
{
    format_smolstr!(alloc; "{key} = {number}")
}

/// Whether a token is `if`.
#[tactic(auto, using(smol_str::proofs::CallerLemmas::compared))]
pub fn is_if(token: &SmolStr) -> bool
    ensures { IsTrue result ↔ (token.now.text ≡ chars (codes "if")) }
{
    token.as_str() == "if"
}

/// The value of whatever lends a text: a `&str`, a `String`, a value, a builder.
pub fn value_of<T: AsStr>(alloc: Global, text: &T) -> Result<SmolStr, AllocError>
    ensures value { IfOk result (λ v. IsValueOf (chars (T.text text.now)) v) }
    ensures refused { OnErr result (¬ (IsResident (chars (T.text text.now)))) }
{
    SmolStr::new(alloc, text.as_str())
}

/// A text in quotes, character by character.
#[tactic(auto, using(smol_str::proofs::CallerLemmas::by_char))]
pub fn in_quotes(alloc: Global, text: &str) -> Result<SmolStr, AllocError>
    ensures value { IfOk result (λ v. IsValueOf (34 ∷ (chars text.now ++ (34 ∷ []))) v) }
    ensures refused { OnErr result (¬ (IsShort (34 ∷ (chars text.now ++ (34 ∷ []))))) }
{
    let mut out = SmolStrBuilder::new(alloc);
    out.push('"')?;
    for character in text.chars() {
        out.push(character)?;
    }
    out.push('"')?;
    out.into_value()
}

/// The digits of a text.
#[tactic(auto, using(smol_str::proofs::CallerLemmas::by_char_some))]
pub fn digits(alloc: Global, text: &str) -> Result<SmolStr, AllocError>
    ensures { IfOk result (λ v. IsValueOf (filter digit (chars text.now)) v) }
{
    let mut out = SmolStrBuilder::new(alloc);
    for c in text.chars() {
        if c.is_ascii_digit() {
            out.push(c)?;
        }
    }
    out.into_value()
}

/// A text with two dashes for each underscore.
#[tactic(auto, using(smol_str::proofs::CallerLemmas::by_char_some))]
pub fn with_dashes(alloc: Global, text: &str) -> Result<SmolStr, AllocError>
    ensures { IfOk result (λ v. IsValueOf (flat_map dashed (chars text.now)) v) }
{
    let mut out = SmolStrBuilder::new(alloc);
    for c in text.chars() {
        if c == '_' {
            out.push_str("--")?;
        } else {
            out.push(c)?;
        }
    }
    out.into_value()
}

/// The path of a file of this name.
pub fn path_of(alloc: Global, folder: &Path<'_>, name: &SmolStr) -> Result<PathBuf, AllocError>
    ensures { IfOk result (λ path. path_buf_bytes path ≡ path_join (path_bytes folder.now) (encode_utf8_all name.now.text)) }
{
    folder.join(alloc, name)
}

/// A reader of a value's text.
pub fn reader_of(text: SmolStr) -> Cursor<SmolStr>
    ensures { cursor_remaining (λ v. Some (encode_utf8_all v.text)) result ≡ Some (encode_utf8_all text.text) }
{
    Cursor::new(text)
}

/// What is read of a word so far. It derives `Debug`, as a builder has it.
#[derive(Debug, Drop)]
pub struct Lexer {
    pub at: usize,
    pub word: SmolStrBuilder,
}

/// A value of a `String` has its bytes.
#[tactic(auto, using(smol_str::proofs::CallerLemmas::owned))]
pub fn of_bytes_of(alloc: Global, text: &String) -> Result<SmolStr, AllocError>
    ensures { IfOk result (λ v. encode_utf8_all v.text ≡ string_bytes text.now) }
{
    SmolStr::from_string_ref(alloc, text)
}

/// A constant: the condition of `new_inline` is computed.
pub fn keyword() -> SmolStr
    ensures { IsValueOf (chars (codes "if")) result }
{
    SmolStr::new_inline("if")
}

/// Keywords as constants of a trait, whose values may be calls. No contract sees what they are.
pub trait Keywords {
    const IF: SmolStr = SmolStr::new_static("if");
}

pub struct Rust;

impl Keywords for Rust {}

/// Whether a token is such a constant.
pub fn is_keyword(token: &SmolStr) -> bool {
    *token == Rust::IF
}

/// What a `const` function may call.
pub const fn begun(alloc: Global, value: &SmolStr) -> (SmolStrBuilder, Place, bool)
    ensures builder { result.0 ≡ empty_builder InBuffer }
    ensures place { result.1 ≡ value.now.place }
    ensures heap { IsTrue result.2 ↔ (value.now.place ≡ Heap) }
{
    (
        SmolStrBuilder::new(alloc),
        value.place(),
        value.is_heap_allocated(),
    )
}

/// A value of resident text is not on the heap; the law says it of the text's place.
pub fn off_the_heap(alloc: Global, text: &str) -> Result<SmolStr, AllocError>
    ensures { IfOk result (λ v. IsResident (chars text.now) → ¬ (v.place ≡ Heap)) }
{
    laws::places();
    SmolStr::new(alloc, text)
}

/// Full case of short ASCII text, which is never refused; by the laws it is as long as the text.
pub fn ascii_in_full_case(alloc: Global, text: &str, case: AsciiCase) -> Result<SmolStr, AllocError>
    ensures { OnErr result (¬ (IsAsciiText (chars text.now) × IsShort (chars text.now))) }
{
    laws::full_case();
    laws::ascii_case();
    match case {
        AsciiCase::Lower => text.to_lowercase_smolstr(alloc),
        AsciiCase::Upper => text.to_uppercase_smolstr(alloc),
    }
}

/// A clone of a value that is not on the heap.
pub fn second(value: &SmolStr) -> Result<SmolStr, AllocError>
    requires { ¬ (value.now.place ≡ Heap) }
    ensures ok { IsOk result }
    ensures same { IfOk result (λ copy. copy ≡ value.now) }
{
    value.clone()
}

/// A `String` of a value's text: never refused where that is the empty text.
pub fn owned(alloc: Global, value: SmolStr) -> Result<String, SmolStr>
    ensures text { IfOk result (λ text. string_bytes text ≡ encode_utf8_all value.text) }
    ensures refused { OnErr result (¬ (value.text ≡ [])) }
{
    value.into_string(alloc)
}
