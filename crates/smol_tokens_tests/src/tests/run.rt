//! `run` in every mode, over readers and writers of every step, which fail at each call, and over malformed count lines.
use super::mode::mode_by;
use super::report::{Row, all_rows};
use Reason::{Full, NotCounts, NotUtf8};
use smol_str::stream::CHUNK;
use smol_tokens_core::fault::RunFault;
use smol_tokens_core::run::run;
use std::io::{Read, Write};
use test_support::*;

/// The words of a mode.
pub type Words = &'static [&'static str];

/// Runs in the mode of these words; `None` where the run ends well.
pub fn run_by<R: Read, W: Write>(
    test: &Test,
    words: &[&str],
    reader: &mut R,
    writer: &mut W,
) -> Option<Reason> {
    let mode = mode_by(test, words);
    match run(test.alloc, mode, reader, writer) {
        Ok(()) => None,
        Err(fault) => Some(reason_of(&fault)),
    }
}

pub fn reason_of(fault: &RunFault) -> Reason {
    match fault {
        RunFault::NotUtf8 => Reason::NotUtf8,
        RunFault::OutOfMemory => Reason::OutOfMemory,
        RunFault::NotCounts(line) => Reason::NotCounts(*line),
        RunFault::Full => Reason::Full,
        RunFault::Io(error) => Reason::Io(cause_of(error)),
    }
}

/// Runs in the mode of these words; those that write, on this input.
#[derive(Drop)]
struct Runs<'a> {
    words: Words,
    input: &'a [u8],
}

impl Reading for Runs<'_> {
    fn name(&self) -> &str {
        self.words.first().copied().unwrap_or("no words")
    }

    fn largest_buffer(&self) -> usize {
        CHUNK
    }

    fn reads_the_end(&self) -> bool {
        true
    }

    /// What was written; nothing is, where the run has a fault.
    fn read(&self, test: &Test, reader: &mut Trickle<'_>) -> Result<Vec<u8>, Reason> {
        let mut writer = empty_drip(test.alloc, usize::MAX, 0, None);
        match run_by(test, self.words, reader, &mut writer) {
            None => Ok(writer.taken),
            Some(reason) => {
                holds(test, writer.taken.is_empty(), &(self.words, reason));
                Err(reason)
            }
        }
    }
}

impl Writing for Runs<'_> {
    fn name(&self) -> &str {
        self.words.first().copied().unwrap_or("no words")
    }

    fn write(&self, test: &Test, writer: &mut Drip) -> Option<Reason> {
        let mut reader = self.input;
        run_by(test, self.words, &mut reader, writer)
    }
}

#[test]
fn fails_at_each_read_of_an_input(rt: HostRuntime) -> Result<(), Fail> {
    let test = Test::begin(rt);
    for row in &all_rows(&test) {
        let input = row.input.as_bytes();
        fails_at_each_read(&test, CHUNK, &runs_on(row), input, row.report.as_bytes());
    }
    test.end()
}

#[test]
fn fails_at_each_write_of_a_report(rt: HostRuntime) -> Result<(), Fail> {
    let test = Test::begin(rt);
    for row in &all_rows(&test) {
        fails_at_each_write(&test, CHUNK, &runs_on(row), row.report.as_bytes());
    }
    test.end()
}

fn runs_on(row: &Row) -> Runs<'_> {
    Runs {
        words: row.words,
        input: row.input.as_bytes(),
    }
}

/// An input, and how its merge ends.
static FAULTS: [(&[u8], Reason); 19] = table! {
    (b"\n", NotCounts(1)); (b"a\n", NotCounts(1)); (b"12\n", NotCounts(1)); (b"+1 a\n", NotCounts(1));
    (b"01 a\n", NotCounts(1)); (b"1\ta\n", NotCounts(1)); (b" 1 a\n", NotCounts(1)); (b"1a a\n", NotCounts(1));
    (b"\xd9\xa1 a\n", NotCounts(1)); (b"\xef\xbb\xbf1 a\n", NotCounts(1)); (b"18446744073709551616 a\n", NotCounts(1));
    (b"2 a\n1 b", NotCounts(2)); (b"1 a\n\n", NotCounts(2)); (b"1 a\n\n1 a\nx\n", NotCounts(2));
    (b"1 a\n1 b\n1 a\n1 c\nx y\n1 d\n", NotCounts(5)); (b"18446744073709551615 a\n1 a\n", Full);
    (b"18446744073709551615 a\n1 a\n1 b\n", Full);
    // a malformed line is reported before an overflow
    (b"18446744073709551615 a\n1 a\n+1 b\n", NotCounts(3)); (b"1 \xff\n", NotUtf8);
};

#[test]
fn faults_of_merges(rt: HostRuntime) -> Result<(), Fail> {
    let test = Test::begin(rt);
    for &(input, reason) in &FAULTS {
        check_fault(&test, MERGE, input, reason);
    }
    test.end()
}

const MERGE: Words = &["merge"];

static EACH_MODE: [Words; 7] = table! {
    &["show"]; &["join"]; &["lower"]; &["upper"]; &["replace", "a", "b"]; &["tokens"]; MERGE;
};

#[test]
fn not_utf8(rt: HostRuntime) -> Result<(), Fail> {
    let test = Test::begin(rt);
    for &words in &EACH_MODE {
        check_fault(&test, words, b"\xff", NotUtf8);
    }
    test.end()
}

/// The most bytes that may be asked for to count twelve tokens.
const MOST_BYTES: u32 = 3_000;

// Many tokens, and faults behind many lines.
static MANY: [(&str, &str); 5] = table! {
    ("tokens", "a\nb\nc\nd\ne\nf\ng\nh\ni\nj\nk\nl\n");
    ("merge", "1 a\n1 b\n1 c\n1 d\n1 e\n1 f\n1 g\n1 h\n1 i\n1 j\n1 k\n1 l\n");
    ("merge", "1 a\n1 b\n1 c\n1 d\n1 e\n1 f\n1 g\n1 h\n1 i\n1 j\n1 k\nl\n");
    ("merge", "1 a\n1 b\n1 c\n1 d\n1 e\n1 f\n1 g\n1 h\n1 i\n1 j\n18446744073709551615 a\n");
    // no token is kept behind an overflow
    ("merge", "18446744073709551615 a\n1 a\n1 b\n1 c\n1 d\n1 e\n1 f\n1 g\n1 h\n1 i\n1 j\n1 k\n1 l\n1 m\n1 n\n1 o\n1 p\n1 q\n1 r\n\
        1 s\n1 t\n1 u\n1 v\n1 w\n1 x\n1 y\n1 z\n1 A\n1 B\n1 C\n1 D\n1 E\n1 F\n1 G\n1 H\n1 I\n1 J\n");
};

#[test]
fn many_tokens(rt: HostRuntime) -> Result<(), Fail> {
    let test = Test::begin(rt);
    for &(mode, input) in &MANY {
        start_counts(test.alloc);
        refuse(test.alloc, Refusals::One(0));
        run_once(&test, mode, input.as_bytes());
        end_refusals(test.alloc);
        let is_little = is_at_most(test.alloc, Count::Bytes, MOST_BYTES) || !can_refuse(test.alloc);
        holds(&test, is_little, &(mode, input, "asks for more bytes"));
        no_blocks(&test, &(mode, input));
    }
    test.end()
}

fn run_once(test: &Test, mode: &str, input: &[u8]) {
    let (mut reader, mut out) = (input, Vec::new(test.alloc));
    let _ended = run_by(test, &[mode], &mut reader, &mut out);
}

// Behind many lines too, where memory is there.
#[test]
fn late_faults_of_merges(rt: HostRuntime) -> Result<(), Fail> {
    let test = Test::begin(rt);
    for lines in 0..300 {
        let front = test.repeated("1 b\n", lines);
        let input = test.joined(front.as_str(), "x\n");
        check_fault(&test, MERGE, input.as_bytes(), NotCounts(lines + 1));
        let input = test.joined("18446744073709551615 a\n1 a\n", front.as_str());
        check_fault(&test, MERGE, input.as_bytes(), Full);
    }
    test.end()
}

/// The run in the mode of these words ends so, and nothing is written.
fn check_fault(test: &Test, words: Words, input: &[u8], reason: Reason) {
    let (mut reader, mut out) = (input, Vec::new(test.alloc));
    let ended = run_by(test, words, &mut reader, &mut out);
    same(test, &ended, &Some(reason), &(words, input));
    holds(test, out.is_empty(), &(words, input));
}
