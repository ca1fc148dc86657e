//! The lines that report a fault, and what faults print.
use smol_str::SmolStr;
use smol_tokens_core::fault::{RunFault, fault_line};
use smol_tokens_core::tally::AddFault;
use std::error::Error;
use std::fmt::{Debug, Display};
use std::io::{self, ErrorKind};
use test_support::*;

#[test]
fn fault_lines(rt: HostRuntime) -> Result<(), Fail> {
    let test = Test::begin(rt);
    check_line(&test, &RunFault::NotUtf8, "not UTF-8", "NotUtf8");
    check_line(
        &test,
        &RunFault::OutOfMemory,
        "out of memory",
        "OutOfMemory",
    );
    check_line(&test, &RunFault::Full, "full", "Full");
    let error = [io::Error::from(ErrorKind::WriteZero)];
    let (line, io) = ("read or write failed", RunFault::Io(error[0]));
    same(&test, &fault_line(&io), &line, &line);
    prints(&test, &io, &Sentence(line), &Variant("Io", &error));
    let (line, malformed) = ("not a count line", RunFault::NotCounts(17));
    same(&test, &fault_line(&malformed), &line, &line);
    prints(
        &test,
        &malformed,
        &format_args!("not a count line: {}", 17),
        &Variant("NotCounts", &[17]),
    );
    test.end()
}

/// A fault that holds nothing prints its line.
fn check_line(test: &Test, fault: &RunFault, line: &'static str, name: &'static str) {
    same(test, &fault_line(fault), &line, &"fault_line");
    prints(test, fault, &Sentence(line), &Variant::<u8>(name, &[]));
}

#[test]
fn faults_of_tallies(rt: HostRuntime) -> Result<(), Fail> {
    let test = Test::begin(rt);
    let token = [test.joined("a", "")];
    let fault = AddFault::OutOfMemory(SmolStr::new_static("a"));
    prints(
        &test,
        &fault,
        &Sentence("memory allocation failed"),
        &Variant("OutOfMemory", &token),
    );
    let fault = AddFault::Full(SmolStr::new_static("a"));
    let sentence = "the count would exceed 18446744073709551615";
    prints(&test, &fault, &Sentence(sentence), &Variant("Full", &token));
    test.end()
}

/// The fault prints what the one does, and by `{:?}` what the other does.
fn prints<E: Error>(test: &Test, fault: &E, wanted: &impl Display, debug: &impl Debug) {
    same_display(test, fault, wanted, &debug);
    same_debug(test, fault, debug, &debug);
}
