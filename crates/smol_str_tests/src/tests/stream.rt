//! Each call that reads or writes, over readers and writers of every step, which end after each byte and fail at each call.
use super::borsh::fault::{reason_of, reason_of_limited};
use super::borsh::{LETTERS, ROWS, form_of, letters, of_units, ok_found};
use Call::*;
use smol_str::borsh::{
    BorshDeserialize, BorshSerialize, EncodeFault, deserialize_limited, from_wire,
};
use smol_str::stream::{CHUNK, ReadFault, fill, read_all, read_up_to, write_fully};
use smol_str::{INLINE_CAP, SmolStr};
use std::io;
use test_support::*;

/// A call that reads.
#[derive(Clone, Copy)]
enum Call {
    Fill,
    ReadUpTo,
    ReadAll,
    WireForm,
    LimitedForm,
}

static CALLS: [Call; 5] = [Fill, ReadUpTo, ReadAll, WireForm, LimitedForm];

/// A call that is asked for so many bytes.
#[derive(Drop)]
struct Reads {
    call: Call,
    size: usize,
}

impl Reading for Reads {
    fn name(&self) -> &str {
        match self.call {
            Fill => "stream::fill",
            ReadUpTo => "stream::read_up_to",
            ReadAll => "stream::read_all",
            WireForm => "BorshDeserialize::deserialize_reader",
            LimitedForm => "borsh::deserialize_limited",
        }
    }

    /// The buffer of `fill` is the caller's own.
    fn largest_buffer(&self) -> usize {
        match self.call {
            Fill => self.size,
            _ => CHUNK,
        }
    }

    fn reads_the_end(&self) -> bool {
        matches!(self.call, ReadAll)
    }

    /// Of a value, its wire form.
    fn read(&self, test: &Test, reader: &mut Trickle<'_>) -> Result<Vec<u8>, Reason> {
        let alloc = test.alloc;
        match self.call {
            Fill => filled(alloc, reader, self.size),
            ReadUpTo => all_read(read_up_to(alloc, reader, self.size)),
            ReadAll => all_read(read_all(alloc, reader)),
            WireForm => written_again(alloc, reader),
            LimitedForm => limited_again(alloc, reader, self.size),
        }
    }
}

fn all_read(read: Result<Vec<u8>, ReadFault>) -> Result<Vec<u8>, Reason> {
    match read {
        Ok(all) => Ok(all),
        Err(ReadFault::OutOfMemory) => Err(Reason::OutOfMemory),
        Err(ReadFault::Io(error)) => Err(Reason::Io(cause_of(&error))),
    }
}

fn filled(alloc: Global, reader: &mut Trickle<'_>, size: usize) -> Result<Vec<u8>, Reason> {
    let Ok(mut room) = vec![in alloc; 0u8; size] else {
        return Err(Reason::OutOfMemory);
    };
    match fill(reader, room.as_mut_slice()) {
        Ok(count) => {
            room.truncate(count);
            Ok(room)
        }
        Err(error) => Err(Reason::Io(cause_of(&error))),
    }
}

fn written_again(alloc: Global, reader: &mut Trickle<'_>) -> Result<Vec<u8>, Reason> {
    match SmolStr::deserialize_reader(alloc, reader) {
        Ok(value) => written(alloc, &value),
        Err(fault) => Err(reason_of(&fault)),
    }
}

fn limited_again(alloc: Global, reader: &mut Trickle<'_>, limit: usize) -> Result<Vec<u8>, Reason> {
    match deserialize_limited(alloc, reader, limit) {
        Ok(value) => written(alloc, &value),
        Err(fault) => Err(reason_of_limited(&fault)),
    }
}

/// Only memory could be refused.
fn written(alloc: Global, value: &SmolStr) -> Result<Vec<u8>, Reason> {
    let mut form = Vec::new(alloc);
    match value.serialize(&mut form) {
        Ok(()) => Ok(form),
        Err(_) => Err(Reason::OutOfMemory),
    }
}

/// The wire forms of the table, and one of two pieces and a part of a third.
fn forms(test: &Test) -> Vec<Vec<u8>> {
    let mut all = Vec::new(test.alloc);
    for row in &ROWS {
        test.push(&mut all, form_of(test, *row));
    }
    test.push(&mut all, of_units(test, &[0x28, 0x23, 0, 0], LETTERS, 750));
    all
}

#[test]
fn fails_at_each_read_call(rt: HostRuntime) -> Result<(), Fail> {
    let test = Test::begin(rt);
    for form in &forms(&test) {
        let form = form.as_slice();
        for &call in &CALLS {
            let size = form.len();
            fails_at_each_read(&test, CHUNK, &Reads { call, size }, form, form);
        }
    }
    test.end()
}

// No call goes on after an error of the system. Upstream's do after an interruption, code 4.
#[test]
fn interrupted(rt: HostRuntime) -> Result<(), Fail> {
    let test = Test::begin(rt);
    for code in 1..134 {
        for &call in &CALLS {
            check_read_code(&test, call, code);
        }
        check_write_code(&test, code);
    }
    test.end()
}

fn check_read_code(test: &Test, call: Call, code: i32) {
    let (reads, mut reader) = (Reads { call, size: 6 }, trickle_of(b"\x02\0\0\0ab", 1, 1));
    reader.failure = io::Error::from_raw_os_error(code);
    let found = reads.read(test, &mut reader).err();
    let wanted = Some(Reason::Io(cause_of(&reader.failure)));
    same(test, &found, &wanted, &(reads.name(), code));
}

fn check_write_code(test: &Test, code: i32) {
    let failure = io::Error::from_raw_os_error(code);
    let mut writer = empty_drip(test.alloc, 1, 2, Some(failure));
    let found = serialized(&test.value("ab"), &mut writer);
    let wanted = Some(Reason::Io(cause_of(&failure)));
    same(test, &found, &wanted, &("a writer", code));
    let taken = writer.taken.as_slice();
    same(test, &taken, &b"\x02".as_slice(), &("a writer", code));
}

#[test]
fn no_read_into_nothing(rt: HostRuntime) -> Result<(), Fail> {
    let test = Test::begin(rt);
    check_no_read(&test, Fill);
    check_no_read(&test, ReadUpTo);
    test.end()
}

fn check_no_read(test: &Test, call: Call) {
    let (reads, mut reader) = (Reads { call, size: 0 }, trickle_of(b"ab", 1, 1));
    let is_done = reads.read(test, &mut reader).is_ok();
    holds(test, is_done && reader.calls == 0, &reads.name());
}

/// A call that writes a wire form.
#[derive(Drop)]
enum Writes<'a> {
    Serialize(SmolStr),
    WriteFully(&'a [u8]),
}

impl Writing for Writes<'_> {
    fn name(&self) -> &str {
        match self {
            Writes::Serialize(_) => "BorshSerialize::serialize",
            Writes::WriteFully(_) => "stream::write_fully",
        }
    }

    fn write(&self, _test: &Test, writer: &mut Drip) -> Option<Reason> {
        match self {
            Writes::Serialize(value) => serialized(value, writer),
            Writes::WriteFully(form) => steps_written(form, writer),
        }
    }
}

fn steps_written(form: &[u8], writer: &mut Drip) -> Option<Reason> {
    match write_fully(writer, form) {
        Ok(()) => None,
        Err(error) => Some(Reason::Io(cause_of(&error))),
    }
}

fn serialized(value: &SmolStr, writer: &mut Drip) -> Option<Reason> {
    match value.serialize(writer) {
        Ok(()) => None,
        Err(EncodeFault::Io(error)) => Some(Reason::Io(cause_of(&error))),
        Err(EncodeFault::TooLong) => Some(Reason::TooLong),
    }
}

#[test]
fn fails_at_each_write_call(rt: HostRuntime) -> Result<(), Fail> {
    let test = Test::begin(rt);
    for form in &forms(&test) {
        let form = form.as_slice();
        let (value, _) = ok_found(&test, from_wire(test.alloc, form));
        fails_at_each_write(&test, CHUNK, &Writes::Serialize(value), form);
        fails_at_each_write(&test, CHUNK, &Writes::WriteFully(form), form);
    }
    test.end()
}

// The size goes out by one call, and then the text by another, if there is one.
#[test]
fn few_calls(rt: HostRuntime) -> Result<(), Fail> {
    let test = Test::begin(rt);
    for len in 0..=INLINE_CAP + 1 {
        check_write_calls(&test, len, 1 + len.min(1));
    }
    for len in [100, 5_000_000] {
        check_write_calls(&test, len, 2);
    }
    for text in [long_text(), long_blank(), PINNED] {
        check_writes(&test, &SmolStr::new_static(text), 2);
    }
    test.end()
}

const PINNED: &str =
    "a text of more than a hundred bytes that is pinned, so that it is written from where it lies, and at once";

fn check_write_calls(test: &Test, len: usize, wanted: usize) {
    check_writes(test, &test.value(test.repeated("a", len).as_str()), wanted)
}

fn check_writes(test: &Test, value: &SmolStr, wanted: usize) {
    let mut writer = empty_drip(test.alloc, usize::MAX, 0, None);
    same(test, &serialized(value, &mut writer), &None, value);
    same(test, &writer.calls, &wanted, value);
}

/// The size of a body, and by how many calls its form is read: one for the prefix, and one for each chunk.
static READ_CALLS: [(u32, usize); 12] = [
    (0, 1),
    (1, 2),
    (39, 2),
    (40, 2),
    (64, 2),
    (100, 2),
    (255, 2),
    (256, 2),
    (257, 2),
    (4096, 2),
    (4097, 3),
    (9000, 4),
];

#[test]
fn few_read_calls(rt: HostRuntime) -> Result<(), Fail> {
    let test = Test::begin(rt);
    for &(size, calls) in &READ_CALLS {
        let form = letters(&test, size, size);
        let mut reader = trickle_of(form.as_slice(), usize::MAX, 0);
        let read = SmolStr::deserialize_reader(test.alloc, &mut reader);
        holds(&test, read.is_ok(), &size);
        same(&test, &reader.calls, &calls, &size);
    }
    let mut reader = trickle_of(&[b'a'; 9000], usize::MAX, 0);
    holds(
        &test,
        read_all(test.alloc, &mut reader).is_ok(),
        &"read_all",
    );
    same(&test, &reader.calls, &4, &"read_all");
    let (mut reader, mut room) = (trickle_of(&[b'a'; 9000], usize::MAX, 0), [0; 9000]);
    holds(&test, fill(&mut reader, &mut room).is_ok(), &"fill");
    same(&test, &reader.calls, &1, &"fill");
    let mut writer = empty_drip(test.alloc, 1, 0, None);
    holds(&test, write_fully(&mut writer, b"").is_ok(), &"write_fully");
    same(&test, &writer.calls, &0, &"write_fully");
    test.end()
}
