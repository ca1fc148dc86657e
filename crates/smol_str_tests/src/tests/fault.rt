//! What a fault prints, in each form: a sentence, or what the error prints that it holds, and by `{:?}` its variant and that
//! error. Of these errors no contract knows what they print. And what `{:?}` prints of other enums.
use serde_json::Value;
use smol_str::borsh::{DecodeFault, EncodeFault, LimitedFault};
use smol_str::json_string::JsonFault;
use smol_str::kernel::AsciiCase;
use smol_str::stream::ReadFault;
use smol_str::{FormatError, FromUtf8Fault, Place, Step};
use std::error::Error;
use std::fmt::{Debug, Display};
use std::io::{self, ErrorKind};
use test_support::*;

const MEMORY: &str = "memory allocation failed";

/// As many bytes as an error keeps.
const WORDS: &str =
    "the disk was pulled while the last of its blocks were read, and none came behind";

#[test]
fn faults_print(rt: HostRuntime) -> Result<(), Fail> {
    let test = Test::begin(rt);
    let sentence = "formatting failed or memory ran out";
    says(&test, &FormatError, sentence, "FormatError");
    says(&test, &FromUtf8Fault::OutOfMemory, MEMORY, "OutOfMemory");
    says(&test, &JsonFault::OutOfMemory, MEMORY, "OutOfMemory");
    let sentence = "the JSON value is not a string";
    says(&test, &JsonFault::NotString, sentence, "NotString");
    says(&test, &ReadFault::OutOfMemory, MEMORY, "OutOfMemory");
    says(&test, &DecodeFault::OutOfMemory, MEMORY, "OutOfMemory");
    let sentence = "the bytes end before the text does";
    says(&test, &DecodeFault::Ended, sentence, "Ended");
    let sentence = "the text has more than 4294967295 bytes";
    says(&test, &EncodeFault::TooLong, sentence, "TooLong");
    let sentence = "the stated length exceeds the limit";
    says(&test, &LimitedFault::TooLong, sentence, "TooLong");
    let held = [DecodeFault::OutOfMemory];
    let fault = LimitedFault::Decode(DecodeFault::OutOfMemory);
    prints(&test, &fault, &Sentence(MEMORY), &Variant("Decode", &held));
    print_errors(&test);
    test.end()
}

/// The fault prints the sentence, and by `{:?}` its name.
fn says<E: Error>(test: &Test, fault: &E, sentence: &'static str, name: &'static str) {
    prints(test, fault, &Sentence(sentence), &named(name));
}

/// A variant that holds nothing.
fn named(name: &'static str) -> Variant<'static, u8> {
    Variant(name, &[])
}

/// Each fault that holds an error, with errors of several kinds.
fn print_errors(test: &Test) {
    for code in [28, 104] {
        print_io(test, io::Error::from_raw_os_error(code));
    }
    print_io(test, io::Error::from(ErrorKind::UnexpectedEof));
    print_io(test, io::Error::other(WORDS));
    print_not_utf8(test, b"ab\xff");
    print_not_utf8(test, b"abcd\xe2\x82");
    for json in ["[1", "\n{\"a\" 1}"] {
        print_not_json(test, json);
    }
}

fn print_io(test: &Test, error: io::Error) {
    let errors = [error];
    let held = Variant("Io", &errors);
    prints(test, &ReadFault::Io(error), &error, &held);
    prints(test, &EncodeFault::Io(error), &error, &held);
    prints(test, &DecodeFault::Io(error), &error, &held);
    let fault = LimitedFault::Decode(DecodeFault::Io(error));
    prints(test, &fault, &error, &Variant("Decode", &[held]));
}

fn print_not_utf8(test: &Test, bytes: &[u8]) {
    let Err(error) = str::from_utf8(bytes) else {
        return test.fail(&bytes);
    };
    let errors = [error];
    let held = Variant("NotUtf8", &errors);
    prints(test, &FromUtf8Fault::NotUtf8(error), &error, &held);
    prints(test, &DecodeFault::NotUtf8(error), &error, &held);
    let fault = LimitedFault::Decode(DecodeFault::NotUtf8(error));
    prints(test, &fault, &error, &Variant("Decode", &[held]));
}

fn print_not_json(test: &Test, json: &str) {
    match (
        Value::from_str(test.alloc, json),
        Value::from_str(test.alloc, json),
        Value::from_str(test.alloc, json),
    ) {
        (Err(held), Err(shown), Err(error)) => {
            let fault = JsonFault::Json(held);
            prints(test, &fault, &shown, &Variant("Json", &[error]));
        }
        _ => test.fail(&json),
    }
}

/// The fault prints what the one does, and by `{:?}` what the other does.
fn prints<E: Error>(test: &Test, fault: &E, wanted: &impl Display, debug: &impl Debug) {
    same_display(test, fault, wanted, &debug);
    same_debug(test, fault, debug, &debug);
}

#[test]
fn variants_print(rt: HostRuntime) -> Result<(), Fail> {
    let test = Test::begin(rt);
    for (place, name) in [
        (Place::Inline, "Inline"),
        (Place::Static, "Static"),
        (Place::Heap, "Heap"),
    ] {
        same_debug(&test, &place, &named(name), &name);
    }
    for (case, name) in [(AsciiCase::Lower, "Lower"), (AsciiCase::Upper, "Upper")] {
        same_debug(&test, &case, &named(name), &name);
    }
    let step = Step::PushStr(test.string("a\n"));
    same_debug(
        &test,
        &Step::Push('é'),
        &Variant("Push", &['é']),
        &"a character",
    );
    same_debug(&test, &step, &Variant("PushStr", &["a\n"]), &"a text");
    let printed = ok(&test, format!(in test.alloc; "{step:?} {step:#?}"));
    same(
        &test,
        &printed.as_str(),
        &"PushStr(\"a\\n\") PushStr(\n    \"a\\n\",\n)",
        &"a text",
    );
    test.end()
}
