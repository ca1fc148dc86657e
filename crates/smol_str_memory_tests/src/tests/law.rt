//! The law of memory, on one page: what each call may ask the heap for. Below its table is the test that tries its calls on
//! each text of `samples`, with ample memory and with each request refused.
//!
//! `SmolStr::new` makes at most two requests, of one text and 40 bytes more in all, unless the text is resident.
mod builders;
mod forms;
mod json;
mod pieces;
mod replace;
mod strings;
mod texts;
mod values;

use Asks::{ForAny, UnlessEmpty, UnlessResident, UnlessShort};
use Requests::{Doubling, Most};
use builders::OnBuilder::{self, *};
use builders::{Again, Each};
use forms::OnForm::{self, *};
use json::OnJson::{self, *};
use pieces::OnPieces::{self, *};
use replace::Replace::{self, *};
use strings::OnString::{self, *};
use test_support::*;
use texts::OnText::{self, *};
use values::OnValue::{self, *};

/// Of a text. A value on the heap is two blocks: its text, and 40 bytes with its count. A text that grows doubles its block.
static TEXTS: [Law<OnText>; 24] = laws! {
    New => "SmolStr::new", Most(2), 1 * text + 40, UnlessResident;
    FromStr => "SmolStr::from_str", Most(2), 1 * text + 40, UnlessResident;
    FromUtf8 => "SmolStr::from_utf8", Most(2), 1 * text + 40, UnlessResident;
    FromUtf8Unchecked => "SmolStr::from_utf8_unchecked", Most(2), 1 * text + 40, UnlessResident;
    FromBorrowed => "SmolStr::from_cow_str", Most(2), 1 * text + 40, UnlessResident;
    FromChars => "SmolStr::from_chars", Doubling(2), 4 * text + 40, UnlessShort;
    CollectChars => "SmolStr::from_iter", Doubling(2), 4 * text + 40, UnlessShort;
    Print => "ToSmolStr::to_smolstr", Most(2), 1 * text + 80, UnlessShort;
    PrintByParts => "ToSmolStr::to_smolstr", Doubling(2), 4 * text + 40, UnlessShort;
    PrintNumber => "ToSmolStr::to_smolstr", Most(2), 1 * text + 80, UnlessShort;
    Format => "format_smolstr!", Most(2), 1 * text + 80, UnlessShort;
    FormatParts => "format_smolstr!", Doubling(2), 4 * text + 40, UnlessShort;
    WithCapacity => "SmolStrBuilder::with_capacity", Most(1), 1 * text + 0, UnlessShort;
    ToBuild => "build", Most(3), 2 * text + 80, UnlessShort;
    ToBuildAtOnce => "build", Most(3), 2 * text + 40, UnlessShort;
    ToBuildByChars => "build", Doubling(3), 5 * text + 80, UnlessShort;
    AsciiLower => "StrExt::to_ascii_lowercase_smolstr", Most(2), 1 * text + 40, UnlessShort;
    AsciiUpper => "StrExt::to_ascii_uppercase_smolstr", Most(2), 1 * text + 40, UnlessShort;
    LowerOfAscii => "StrExt::to_lowercase_smolstr", Most(2), 1 * text + 40, UnlessShort;
    UpperOfAscii => "StrExt::to_uppercase_smolstr", Most(2), 1 * text + 40, UnlessShort;
    Lower => "StrExt::to_lowercase_smolstr", Most(3), 3 * text + 40, UnlessShort;
    Upper => "StrExt::to_uppercase_smolstr", Most(3), 3 * text + 40, UnlessShort;
    LexWord => "lexer::lex", Most(3), 1 * text + 240, ForAny;
    Lex => "lexer::lex", Doubling(10), 200 * text + 40, ForAny;
};

#[test]
fn of_texts(rt: HostRuntime) -> Result<(), Fail> {
    check_law(rt, &TEXTS)
}

/// Of a pattern and a new text.
static REPLACEMENTS: [Law<Replace>; 7] = laws! {
    ByteByByte => "StrExt::replace_smolstr", Most(2), 1 * text + 40, UnlessShort;
    ByteByMore => "StrExt::replacen_smolstr", Most(2), 1 * text + 40, UnlessShort;
    ByLess => "StrExt::replacen_smolstr", Most(2), 1 * text + 40, UnlessShort;
    ByMore => "StrExt::replacen_smolstr", Doubling(3), 4 * text + 40, UnlessShort;
    Between => "StrExt::replacen_smolstr", Most(2), 4 * text + 40, UnlessShort;
    ByText => "StrExt::replace_smolstr", Most(3), 2 * text + 140, UnlessShort;
    OfText => "StrExt::replace_smolstr", Most(2), 2 * text + 80, UnlessShort;
};

#[test]
fn of_replacements(rt: HostRuntime) -> Result<(), Fail> {
    check_law(rt, &REPLACEMENTS)
}

/// Of a `String`, with room and without, and of what is made of one.
static STRINGS: [Law<OnString>; 6] = laws! {
    FromStringRef => "SmolStr::from_string_ref", Most(2), 1 * text + 40, UnlessResident;
    FromString => "SmolStr::from_string", Most(2), 1 * text + 40, UnlessResident;
    FromOwned => "SmolStr::from_owned", Most(1), 0 * text + 40, UnlessResident;
    FromCow => "SmolStr::from_cow_str", Most(2), 1 * text + 40, UnlessResident;
    FromBoxed => "SmolStr::from_boxed_str", Most(2), 1 * text + 40, UnlessResident;
    FromShared => "SmolStr::from_rc_str", Most(0), 0 * text + 0, ForAny;
};

#[test]
fn of_strings(rt: HostRuntime) -> Result<(), Fail> {
    check_law(rt, &STRINGS)
}

/// Of pieces: texts, strings and values.
static PIECES: [Law<OnPieces>; 12] = laws! {
    FromStrs => "SmolStr::from_strs", Doubling(2), 4 * text + 40, UnlessShort;
    FromStrings => "SmolStr::from_strings", Doubling(2), 4 * text + 40, UnlessShort;
    FromStringRefs => "SmolStr::from_string_refs", Doubling(2), 4 * text + 40, UnlessShort;
    Collect => "SmolStr::from_iter", Doubling(2), 4 * text + 40, UnlessShort;
    Join => "SmolStr::join", Most(2), 1 * text + 40, UnlessShort;
    JoinByText => "SmolStr::join", Most(2), 1 * text + 40, UnlessShort;
    JoinOfRefs => "SmolStr::join", Most(2), 1 * text + 40, UnlessShort;
    ExtendStrs => "SmolStrBuilder::extend_strs", Doubling(2), 4 * text + 40, UnlessShort;
    ExtendStrings => "SmolStrBuilder::extend_strings", Doubling(2), 4 * text + 40, UnlessShort;
    ExtendByEach => "SmolStrBuilder::extend_strings", Doubling(2), 4 * text + 40, UnlessShort;
    Extend => "SmolStrBuilder::extend", Doubling(2), 4 * text + 40, UnlessShort;
    Append => "Piece::append_to", Doubling(2), 4 * text + 40, UnlessShort;
};

#[test]
fn of_pieces(rt: HostRuntime) -> Result<(), Fail> {
    check_law(rt, &PIECES)
}

/// Of a value, also of a pinned one where nothing else is said.
static VALUES: [Law<OnValue>; 15] = laws! {
    Cloned => "SmolStr::clone", Most(0), 0 * text + 0, ForAny;
    ClonedByTrait => "Clone::clone", Most(0), 0 * text + 0, ForAny;
    PrintValue => "SmolStr::fmt", Most(0), 0 * text + 0, ForAny;
    IntoString => "SmolStr::into_string", Most(1), 1 * text + 0, UnlessEmpty;
    IntoRcStr => "SmolStr::into_rc_str", Most(2), 1 * text + 40, ForAny;
    IntoRcStrOnHeap => "SmolStr::into_rc_str", Most(0), 0 * text + 0, ForAny;
    IntoRcStrCloned => "SmolStr::into_rc_str", Most(0), 0 * text + 0, ForAny;
    Write => "BorshSerialize::serialize", Most(0), 0 * text + 0, ForAny;
    ToValue => "json_string::to_value", Most(1), 1 * text + 0, UnlessEmpty;
    InTree => "ToValue::to_value", Most(1), 1 * text + 0, UnlessEmpty;
    ToJson => "json_string::to_json", Most(4), 3 * text + 576, ForAny;
    ToJsonDoubled => "json_string::to_json", Most(2), 2 * text + 128, ForAny;
    ToJsonOneEscape => "json_string::to_json", Most(1), 1 * text + 64, ForAny;
    ToJsonPlain => "json_string::to_json", Most(1), 1 * text + 2, ForAny;
    Serialize => "SmolStr::serialize", Doubling(1), 4 * text + 120, ForAny;
};

#[test]
fn of_values(rt: HostRuntime) -> Result<(), Fail> {
    check_law(rt, &VALUES)
}

/// Of a builder.
static BUILDERS: [Law<OnBuilder>; 19] = laws! {
    CloneSmall => "SmolStrBuilder::clone", Most(1), 1 * text + 0, UnlessShort;
    CloneLarge => "SmolStrBuilder::clone", Most(1), 1 * text + 0, ForAny;
    CloneByTrait => "Clone::clone", Most(1), 1 * text + 0, ForAny;
    Emptied => "SmolStrBuilder::emptied", Most(0), 0 * text + 0, ForAny;
    Finish => "SmolStrBuilder::finish", Most(2), 1 * text + 40, UnlessResident;
    FromBuilder => "SmolStr::from_builder", Most(2), 1 * text + 40, UnlessResident;
    IntoValue => "SmolStrBuilder::into_value", Most(1), 0 * text + 40, UnlessResident;
    ValueOf => "ValueAlloc::value_of", Most(1), 0 * text + 40, UnlessResident;
    Push => "SmolStrBuilder::push", Most(1), 2 * text + 0, UnlessShort;
    PushWide => "SmolStrBuilder::push", Most(1), 2 * text + 0, UnlessShort;
    PushStr => "SmolStrBuilder::push_str", Most(1), 2 * text + 0, UnlessShort;
    PushWithSpare => "SmolStrBuilder::push_with_spare", Most(1), 2 * text + 0, UnlessShort;
    PushBlank => "SmolStrBuilder::push_blank", Most(1), 2 * text + 0, UnlessShort;
    WriteStr => "SmolStrBuilder::write_str", Most(1), 2 * text + 0, UnlessShort;
    WriteFmt => "SmolStrBuilder::write_fmt", Most(1), 2 * text + 0, UnlessShort;
    ExtendChars => "SmolStrBuilder::extend_chars", Doubling(2), 4 * text + 40, UnlessShort;
    PrintBuilder => "SmolStrBuilder::fmt", Most(0), 0 * text + 0, ForAny;
    Read => "SmolStrBuilder::as_str and what reads it", Most(0), 0 * text + 0, ForAny;
    MadeEmpty => "SmolStrBuilder::made_with", Most(0), 0 * text + 0, ForAny;
};

#[test]
fn of_builders(rt: HostRuntime) -> Result<(), Fail> {
    check_law(rt, &BUILDERS)
}

/// Of a builder that has room for nine calls.
static AGAIN: [Law<Again>; 9] = laws! {
    Again(Push) => "SmolStrBuilder::push", Most(0), 0 * text + 0, ForAny;
    Again(PushStr) => "SmolStrBuilder::push_str", Most(0), 0 * text + 0, ForAny;
    Again(PushWithSpare) => "SmolStrBuilder::push_with_spare", Most(0), 0 * text + 0, ForAny;
    Again(PushBlank) => "SmolStrBuilder::push_blank", Most(0), 0 * text + 0, ForAny;
    Again(WriteStr) => "SmolStrBuilder::write_str", Most(0), 0 * text + 0, ForAny;
    Again(WriteFmt) => "SmolStrBuilder::write_fmt", Most(0), 0 * text + 0, ForAny;
    Again(ExtendChars) => "SmolStrBuilder::extend_chars", Most(0), 0 * text + 0, ForAny;
    Again(ExtendByStr) => "SmolStrBuilder::extend_strs", Most(0), 0 * text + 0, ForAny;
    Again(ExtendByItem) => "SmolStrBuilder::extend", Most(0), 0 * text + 0, ForAny;
};

#[test]
fn of_calls_again(rt: HostRuntime) -> Result<(), Fail> {
    check_law(rt, &AGAIN)
}

/// Of a builder that grows by a call for each character.
static EACH: [Law<Each>; 9] = laws! {
    Each(Push) => "SmolStrBuilder::push", Doubling(2), 4 * text + 40, UnlessShort;
    Each(PushStr) => "SmolStrBuilder::push_str", Doubling(2), 4 * text + 40, UnlessShort;
    Each(PushWithSpare) => "SmolStrBuilder::push_with_spare", Doubling(2), 4 * text + 40, UnlessShort;
    Each(PushBlank) => "SmolStrBuilder::push_blank", Doubling(2), 4 * text + 40, UnlessShort;
    Each(WriteStr) => "SmolStrBuilder::write_str", Doubling(2), 4 * text + 40, UnlessShort;
    Each(WriteFmt) => "SmolStrBuilder::write_fmt", Doubling(2), 4 * text + 40, UnlessShort;
    Each(ExtendChars) => "SmolStrBuilder::extend_chars", Doubling(2), 4 * text + 40, UnlessShort;
    Each(ExtendByStr) => "SmolStrBuilder::extend_strs", Doubling(2), 4 * text + 40, UnlessShort;
    Each(ExtendByItem) => "SmolStrBuilder::extend", Doubling(2), 4 * text + 40, UnlessShort;
};

#[test]
fn of_each_character(rt: HostRuntime) -> Result<(), Fail> {
    check_law(rt, &EACH)
}

/// Of bytes: a wire form of the text, or the text itself.
static FORMS: [Law<OnForm>; 13] = laws! {
    FromWire => "borsh::from_wire", Most(2), 1 * text + 40, UnlessResident;
    SplitWire => "borsh::split_wire", Most(2), 1 * text + 40, UnlessResident;
    ReadChunk => "BorshDeserialize::deserialize_reader", Most(2), 1 * text + 40, UnlessShort;
    ReadForm => "BorshDeserialize::deserialize_reader", Doubling(0), 4 * text + 40, UnlessShort;
    ReadLimitedChunk => "borsh::deserialize_limited", Most(2), 1 * text + 40, UnlessShort;
    ReadLimited => "borsh::deserialize_limited", Doubling(0), 4 * text + 40, UnlessShort;
    ReadUpTo => "stream::read_up_to", Doubling(1), 4 * text + 8, UnlessEmpty;
    ReadAll => "stream::read_all", Doubling(1), 4 * text + 8, UnlessEmpty;
    Fill => "stream::fill", Most(0), 0 * text + 0, ForAny;
    WriteFully => "stream::write_fully", Most(0), 0 * text + 0, ForAny;
    NotUtf8 => "SmolStr::from_utf8", Most(0), 0 * text + 0, ForAny;
    EndsEarly => "borsh::deserialize_limited", Doubling(1), 4 * text + 8, UnlessShort;
    SliceEndsEarly => "borsh::from_wire", Most(0), 0 * text + 0, ForAny;
};

#[test]
fn of_forms(rt: HostRuntime) -> Result<(), Fail> {
    check_law(rt, &FORMS)
}

/// Of JSON: the text in quotes, with white space around, or a tree. serde's reader copies the JSON, of up to six bytes for one.
static JSON: [Law<OnJson>; 11] = laws! {
    FromValue => "json_string::from_value", Most(2), 1 * text + 40, UnlessResident;
    FromPlain => "json_string::from_json", Most(2), 1 * text + 40, UnlessResident;
    FromEscape => "json_string::from_json", Most(3), 1 * text + 200, UnlessShort;
    FromEscapes => "json_string::from_json", Doubling(2), 4 * text + 40, UnlessShort;
    BehindNumbers => "json_string::from_json", Most(2), 1 * text + 140, UnlessShort;
    NumbersAndMore => "json_string::from_json", Most(2), 2 * text + 140, UnlessShort;
    NotString => "json_string::from_json", Most(3), 2 * text + 140, ForAny;
    Object => "json_string::from_json", Most(4), 2 * text + 880, ForAny;
    Deserialize => "SmolStr::deserialize", Most(3), 2 * text + 48, ForAny;
    DeserializeEscaped => "SmolStr::deserialize", Most(3), 7 * text + 48, ForAny;
    DeserializeOwned => "SmolStr::deserialize_owned", Doubling(4), 4 * text + 180, ForAny;
};

#[test]
fn of_json(rt: HostRuntime) -> Result<(), Fail> {
    check_law(rt, &JSON)
}
