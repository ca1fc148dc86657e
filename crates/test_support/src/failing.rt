//! A reader and a writer whose bytes are known, and which fail where they are set to; and calls over those that fail at each
//! call.
ghost use Rattle.std.specs.Prelude.{Some, ◌≡◌, []};

use crate::memory::start_counts;
use crate::test::{Test, holds, no_blocks, same};
use std::alloc::Global;
use std::fmt::{Debug, InlineText};
use std::hash::{DefaultHasher, Hash, Hasher};
use std::io;
use std::io::{ErrorKind, Read, Write};

/// How many bytes a call the readers and writers give and take at most, where the calls under test take a chunk at a time.
pub fn steps_about(chunk: usize) -> [usize; 7] {
    let (below, above) = (chunk.saturating_sub(1), chunk.saturating_add(1));
    [1, 2, 7, below, chunk, above, usize::MAX]
}

/// What a stream does where it fails, another thing at each place: it takes no byte, or returns an error with words of its own,
/// with a kind alone, or with a code of the system. Code 4 is EINTR: upstream's calls go on after it, ours do not.
fn failure_at(place: usize) -> Option<io::Error> {
    match place % 11 {
        0 => None,
        1 => Some(io::Error::from(ErrorKind::UnexpectedEof)),
        2 => Some(io::Error::other("words of its own")),
        3 => Some(io::Error::new(ErrorKind::InvalidData, "words")),
        4 => Some(io::Error::from(ErrorKind::Interrupted)),
        _ => Some(io::Error::from_raw_os_error((place % 133) as i32 + 1)),
    }
}

/// What tells an error from others: its kind, the system's code where it has one, and the hash of what it prints.
pub type Cause = (ErrorKind, Option<i32>, u64);

pub fn cause_of(error: &io::Error) -> Cause {
    let printed: InlineText<80> = InlineText::of(*error);
    let mut hasher = DefaultHasher::default();
    printed.as_str().hash(&mut hasher);
    (error.kind(), error.raw_os_error(), hasher.finish())
}

/// Whether a place in so many bytes is tried: each in a few, and in many those about the ends of chunks. Between two ends a
/// call does the same at each place, and to fail at each of 9,000 reads 40 million times for one row.
fn is_tried(place: usize, size: usize, chunk: usize) -> bool {
    let after = place.saturating_add(3);
    size < 200 || after % chunk.max(1) < 7 || after > size
}

/// A reader that gives its bytes, at most `step` a call, and returns the error `failure` at the call
/// `fails_at`, counted from 1. It keeps the least and the greatest length of the buffers that it was
/// given.
#[derive(Drop)]
pub struct Trickle<'a> {
    pub rest: &'a [u8],
    pub step: usize,
    pub calls: usize,
    pub fails_at: usize,
    pub failure: io::Error,
    pub least: usize,
    pub most: usize,
}

impl Read for Trickle<'_> {
    ghost remaining = { λ s. Some s.rest.now };

    fn read(&mut self, buf: &mut [u8]) -> io::Result<usize> {
        self.calls = self.calls.wrapping_add(1);
        self.least = self.least.min(buf.len());
        self.most = self.most.max(buf.len());
        if self.calls == self.fails_at {
            return Err(self.failure);
        }
        let n = self.step.max(1).min(buf.len()).min(self.rest.len());
        let (front, rest) = self.rest.split_at(n);
        buf[..n].copy_from_slice(front);
        self.rest = rest;
        Ok(n)
    }
}

/// A reader of these bytes; it never fails where `fails_at` is 0, and else returns EINTR.
pub fn trickle_of<'a>(rest: &'a [u8], step: usize, fails_at: usize) -> Trickle<'a>
    ensures { result.rest.now ≡ rest.now }
{
    Trickle {
        rest,
        step,
        calls: 0,
        fails_at,
        failure: io::Error::from_raw_os_error(4),
        least: usize::MAX,
        most: 0,
    }
}

/// A writer that takes at most `step` bytes a call, and returns the error `failure` at the call `fails_at`, counted from 1;
/// without an error it takes no byte there.
#[derive(Drop)]
pub struct Drip {
    pub taken: Vec<u8>,
    pub step: usize,
    pub calls: usize,
    pub fails_at: usize,
    pub failure: Option<io::Error>,
}

impl Write for Drip {
    ghost contents = { λ s. Some s.taken.items };

    fn write(&mut self, buf: &[u8]) -> io::Result<usize> {
        self.calls = self.calls.wrapping_add(1);
        if self.calls == self.fails_at {
            return match self.failure {
                Some(error) => Err(error),
                None => Ok(0),
            };
        }
        let n = self.step.min(buf.len());
        self.taken.extend_from_slice(&buf[..n])?;
        Ok(n)
    }

    /// It fails, and is one of the calls: no call of ours flushes what it was lent.
    fn flush(&mut self) -> io::Result<()> {
        self.calls = self.calls.wrapping_add(1);
        Err(io::Error::from(ErrorKind::BrokenPipe))
    }
}

/// A writer that holds nothing yet; it never fails where `fails_at` is 0.
pub fn empty_drip(alloc: Global, step: usize, fails_at: usize, failure: Option<io::Error>) -> Drip
    ensures { result.taken.items ≡ [] }
{
    Drip {
        taken: Vec::new(alloc),
        step,
        calls: 0,
        fails_at,
        failure,
    }
}

/// Why a call under test made nothing, without what an error says of itself.
#[derive(Clone, Copy, PartialEq, Eq, Debug)]
pub enum Reason {
    Ended,
    NotUtf8,
    OutOfMemory,
    TooLong,
    /// A merge: the number of the first malformed line.
    NotCounts(usize),
    Full,
    Io(Cause),
}

/// A call, the size of what it reads or writes, how many bytes the stream moves a call, and the call at which it ends or
/// fails.
type Row<'a> = (&'a str, usize, usize, usize);

/// How many bytes the stream moves a call, and the call at which it ends or fails.
type At = (usize, usize);

/// A call that reads all that a reader gives.
pub trait Reading {
    /// The call, in messages.
    fn name(&self) -> &str;

    /// The greatest buffer that it may hand to the reader.
    fn largest_buffer(&self) -> usize;

    /// Whether it reads on until the reader says that it has ended.
    fn reads_the_end(&self) -> bool;

    /// The bytes that it makes of the reader's.
    fn read(&self, test: &Test, reader: &mut Trickle<'_>) -> Result<Vec<u8>, Reason>;
}

/// The call makes `wanted` of the bytes by readers of every step, and gives up with the reader's own error at each call at
/// which that fails.
pub fn fails_at_each_read<C: Reading>(
    test: &Test,
    chunk: usize,
    call: &C,
    bytes: &[u8],
    wanted: &[u8],
) {
    for step in steps_about(chunk) {
        let calls = count_reads(test, call, trickle_of(bytes, step, 0), wanted);
        few_calls(test, calls, (bytes.len(), step, chunk), call.name());
        for fails_at in 1..calls.saturating_add(1) {
            if is_tried(fails_at.saturating_mul(step), bytes.len(), chunk) {
                fails_at_read(test, call, bytes, (step, fails_at));
            }
        }
    }
}

/// How often the call reads: by single bytes once a byte, and once more where only the reader says that it has ended.
fn count_reads<C: Reading>(test: &Test, call: &C, mut reader: Trickle<'_>, wanted: &[u8]) -> usize {
    let row = (call.name(), reader.rest.len(), reader.step, 0);
    start_counts(test.alloc);
    let read = call.read(test, &mut reader);
    has_made(test, read, wanted, &row);
    has_read(test, &reader, call.largest_buffer(), &row);
    by_single_bytes(test, reader.calls, usize::from(call.reads_the_end()), &row);
    reader.calls
}

/// The bytes that a call made, which are freed here.
fn has_made(test: &Test, read: Result<Vec<u8>, Reason>, wanted: &[u8], row: &Row<'_>) {
    match read {
        Ok(made) => holds(test, made.as_slice() == wanted, row),
        Err(reason) => test.fail(&(row, reason)),
    }
    no_blocks(test, row);
}

/// Each call moves as much as the stream does, but for the last of a chunk, of a prefix and of all, and one that meets the end.
fn few_calls(test: &Test, calls: usize, sizes: (usize, usize, usize), name: &str) {
    let (size, step, chunk) = sizes;
    let chunks = (size / chunk.max(1)).saturating_add(3);
    let most = (size / step.max(1)).saturating_add(chunks);
    holds(test, calls <= most, &(name, sizes, calls));
}

/// By single bytes, a call moves one.
fn by_single_bytes(test: &Test, calls: usize, at_end: usize, row: &Row<'_>) {
    if row.2 == 1 {
        same(test, &calls.saturating_sub(at_end), &row.1, row);
    }
}

/// No buffer was empty or too large.
fn has_read(test: &Test, reader: &Trickle<'_>, largest: usize, row: &Row<'_>) {
    let is_within = reader.least >= 1 && reader.most <= largest;
    holds(test, is_within, row);
}

fn fails_at_read<C: Reading>(test: &Test, call: &C, bytes: &[u8], (step, fails_at): At) {
    let row = (call.name(), bytes.len(), step, fails_at);
    let mut reader = trickle_of(bytes, step, fails_at);
    reader.failure = failure_at(number_of(row)).unwrap_or(reader.failure);
    start_counts(test.alloc);
    let reason = call.read(test, &mut reader).err();
    has_failed(test, &reason, &reader.failure, &row);
    same(test, &reader.calls, &fails_at, &row);
    has_read(test, &reader, call.largest_buffer(), &row);
    no_blocks(test, &row);
}

/// The call gave up with the stream's own error.
fn has_failed(test: &Test, reason: &Option<Reason>, failure: &io::Error, row: &Row<'_>) {
    same(test, reason, &Some(Reason::Io(cause_of(failure))), row);
}

/// Another number at the next place, and in the next row.
fn number_of((_, size, step, fails_at): Row<'_>) -> usize {
    size.wrapping_add(step).wrapping_add(fails_at)
}

/// A call that writes.
pub trait Writing {
    /// The call, in messages.
    fn name(&self) -> &str;

    /// Why not all was written, where that is so.
    fn write(&self, test: &Test, writer: &mut Drip) -> Option<Reason>;
}

/// The call writes the bytes to writers of every step, and gives up with the writer's own error at each call at which that
/// fails; what was taken is then a beginning.
pub fn fails_at_each_write<C: Writing>(test: &Test, chunk: usize, call: &C, bytes: &[u8]) {
    for step in steps_about(chunk) {
        let calls = count_writes(test, call, bytes, step);
        few_calls(test, calls, (bytes.len(), step, chunk), call.name());
        for fails_at in 1..calls.saturating_add(1) {
            if is_tried(fails_at.saturating_mul(step), bytes.len(), chunk) {
                fails_at_write(test, call, bytes, (step, fails_at));
            }
        }
    }
}

/// How often the call writes: by single bytes once a byte.
fn count_writes<C: Writing>(test: &Test, call: &C, bytes: &[u8], step: usize) -> usize {
    let row = (call.name(), bytes.len(), step, 0);
    start_counts(test.alloc);
    let mut writer = empty_drip(test.alloc, step, 0, None);
    same(test, &call.write(test, &mut writer), &None, &row);
    holds(test, writer.taken.as_slice() == bytes, &row);
    let calls = writer.calls;
    drop(writer);
    by_single_bytes(test, calls, 0, &row);
    no_blocks(test, &row);
    calls
}

fn fails_at_write<C: Writing>(test: &Test, call: &C, bytes: &[u8], (step, fails_at): At) {
    let row = (call.name(), bytes.len(), step, fails_at);
    start_counts(test.alloc);
    let mut writer = empty_drip(test.alloc, step, fails_at, failure_at(number_of(row)));
    let reason = call.write(test, &mut writer);
    let zero = io::Error::from(ErrorKind::WriteZero);
    has_failed(test, &reason, &writer.failure.unwrap_or(zero), &row);
    same(test, &writer.calls, &fails_at, &row);
    has_begun(test, writer, bytes, &row);
}

/// What a writer took before it failed: by single bytes one a call.
fn has_begun(test: &Test, writer: Drip, bytes: &[u8], row: &Row<'_>) {
    let taken = writer.taken.as_slice();
    let is_as_long = row.2 != 1 || taken.len() == row.3.saturating_sub(1);
    holds(test, bytes.starts_with(taken) && is_as_long, row);
    drop(writer);
    no_blocks(test, row);
}
