//! Values from other texts, and back.
use smol_str::borsh::{DecodeFault, LimitedFault};
use smol_str::json_string::JsonFault;
use smol_str::stream::ReadFault;
use smol_str::{FormatError, FromUtf8Fault, Place, SmolStr};
use std::alloc::AllocFailed;
use std::convert::{AsSlice, AsStr};
use std::io::{self, Cursor, ErrorKind, Read};
use std::path::Path;
use std::rc::RcStr;
use test_support::*;

static CHARACTERS: [(char, &str); 4] = [('a', "a"), ('ñ', "ñ"), ('€', "€"), ('🦀', "🦀")];

#[test]
fn test_from_char(rt: HostRuntime) -> Result<(), Fail> {
    let test = Test::begin(rt);
    for &(character, text) in &CHARACTERS {
        same_value(&test, &SmolStr::from(character), text, Place::Inline, &text);
    }
    test.end()
}

/// Bytes that are not UTF-8.
static WRONG: [&[u8]; 3] = [b"\xc0\x80", b"\xed\xa0\x80", b"\xf4\x90\x80\x80"];

#[test]
fn bytes(rt: HostRuntime) -> Result<(), Fail> {
    let test = Test::begin(rt);
    for &bytes in &WRONG {
        let made = SmolStr::from_utf8(test.alloc, bytes);
        let is_refused = matches!(made, Err(FromUtf8Fault::NotUtf8(_)));
        holds(&test, is_refused, &bytes);
    }
    let made = SmolStr::from_utf8(test.alloc, b"\xc3\xa9");
    same_value(&test, &ok(&test, made), "é", Place::Inline, &"two bytes");
    test.end()
}

/// The value of a shared text. None is made without memory, so the empty value takes its place.
fn of_shared(test: &Test, text: &str) -> SmolStr {
    match RcStr::from_str(test.alloc, text) {
        Ok(shared) => shared.into(),
        Err(fault) => {
            test.fail(&fault);
            SmolStr::default()
        }
    }
}

/// A value that comes back is dropped by `?`.
fn string_of(alloc: Global, value: SmolStr) -> Result<String, AllocError> {
    Ok(value.into_string(alloc)?)
}

#[test]
fn conversions(rt: HostRuntime) -> Result<(), Fail> {
    let test = Test::begin(rt);
    let string = ok(&test, string_of(test.alloc, test.value("Hello, World!")));
    same(&test, &string.as_str(), &"Hello, World!", &"into_string");
    match of_shared(&test, "Hello, World!").into_rc_str(test.alloc) {
        Ok(shared) => same(&test, &shared.as_str(), &"Hello, World!", &"into_rc_str"),
        Err(_) => test.fail(&"into_rc_str"),
    }
    test.end()
}

// As a path, and as bytes to read.
#[test]
fn paths_and_readers(rt: HostRuntime) -> Result<(), Fail> {
    let test = Test::begin(rt);
    for text in ["né.rs", long_text()] {
        let path = ok(&test, Path::new("src").join(test.alloc, test.value(text)));
        let is_joined = path.as_str().strip_prefix("src/") == Some(text);
        holds(&test, is_joined, &text);
        let mut read = String::new(test.alloc);
        ok(
            &test,
            Cursor::new(test.value(text)).read_to_string(&mut read),
        );
        same(&test, &read.as_str(), &text, &"a reader");
    }
    test.end()
}

static SHARED: [(&str, usize, Place); 6] = table! {
    ("é", 1, Place::Inline);
    ("ab", 1, Place::Inline);
    ("a", 24, Place::Inline);
    (" ", 24, Place::Inline);
    (" ", 40, Place::Static);
    ("a", 40, Place::Heap);
};

#[test]
fn shared_texts(rt: HostRuntime) -> Result<(), Fail> {
    let test = Test::begin(rt);
    for &(unit, times, place) in &SHARED {
        let string = test.repeated(unit, times);
        let text = string.as_str();
        same_value(&test, &of_shared(&test, text), text, place, &unit);
    }
    test.end()
}

fn text_of<T: AsStr>(thing: &T) -> &str {
    thing.as_str()
}

fn bytes_of<T: AsSlice<u8>>(thing: &T) -> &[u8] {
    thing.as_slice()
}

// A value and a builder lend their text to code over anything that does.
#[test]
fn lent_by_traits(rt: HostRuntime) -> Result<(), Fail> {
    let test = Test::begin(rt);
    for text in ["né", long_text()] {
        let (value, builder) = (test.value(text), test.builder(0, text));
        same(
            &test,
            &[text_of(&value), text_of(&builder)],
            &[text; 2],
            &"as_str",
        );
        let found = [bytes_of(&value), bytes_of(&builder)];
        same(&test, &found, &[text.as_bytes(); 2], &"as_slice");
        same(&test, &&*value, &text, &"deref");
        same(&test, &Some(value).as_deref(), &Some(text), &"as_deref");
    }
    test.end()
}

// What `?` makes of them in a function that reads within a limit.
#[test]
fn faults_of_limited_reads(rt: HostRuntime) -> Result<(), Fail> {
    let test = Test::begin(rt);
    let of_reader = LimitedFault::from(io::Error::from(ErrorKind::UnexpectedEof));
    let is_kept = matches!(of_reader, LimitedFault::Decode(DecodeFault::Io(_)));
    holds(&test, is_kept, &"a reader's error");
    let of_memory = LimitedFault::from(AllocError);
    let is_kept = matches!(of_memory, LimitedFault::Decode(DecodeFault::OutOfMemory));
    holds(&test, is_kept, &"memory");
    test.end()
}

/// What `?` makes of a refused `push`.
fn push_fault<F: From<AllocFailed<u8>> + Drop>(alloc: Global) -> Option<F> {
    let mut list = Vec::new(alloc);
    match list.push(1u8) {
        Ok(()) => None,
        Err(refused) => Some(F::from(refused)),
    }
}

// In a function that returns one of the faults, it says that memory ran out.
#[test]
fn refused_pushes(rt: HostRuntime) -> Result<(), Fail> {
    let test = Test::begin(rt);
    let alloc = test.alloc;
    refuse_all(alloc);
    let found = [
        push_fault(alloc).is_none_or(|fault| matches!(fault, FromUtf8Fault::OutOfMemory)),
        push_fault(alloc).is_none_or(|fault| matches!(fault, ReadFault::OutOfMemory)),
        push_fault(alloc).is_none_or(|fault| matches!(fault, DecodeFault::OutOfMemory)),
        push_fault(alloc).is_none_or(|fault| matches!(fault, JsonFault::OutOfMemory)),
        push_fault(alloc).is_none_or(|fault| matches!(fault, FormatError)),
        push_fault(alloc).is_none_or(|fault| matches!(
            fault,
            LimitedFault::Decode(DecodeFault::OutOfMemory)
        )),
    ];
    let was_refused = end_refusals(alloc);
    same(&test, &was_refused, &can_refuse(alloc), &"push");
    same(&test, &found, &[true; 6], &"push");
    test.end()
}
