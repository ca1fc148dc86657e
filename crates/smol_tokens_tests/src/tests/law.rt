//! The law of memory for the program: each mode on each line, and on many lines; a token added to tallies of some.
mod lines;
mod tallies;

use super::mode::mode_by;
use super::run::reason_of;
use Asks::ForAny;
use OnLine::*;
use Requests::{Doubling, Doublings, Most};
use lines::OnLines;
use smol_str::Place;
use smol_tokens_core::fault::RunFault;
use smol_tokens_core::mode::Mode;
use smol_tokens_core::run::{run, run_with_hasher};
use std::hash::{BuildHasherDefault, FoldHasher};
use tallies::Add;
use test_support::*;

/// A mode. A row reads as those of the library: three lines make three times their call's requests, and the input and the
/// report grow.
#[derive(Clone, Copy)]
enum OnLine {
    Show,
    Join,
    Lower,
    Upper,
    Replace(&'static str, &'static str),
    Tokens,
    Merge,
    /// Merge, behind lines for which there is no sum.
    NoSum,
}

static MODES: [Law<OnLine>; 10] = laws! {
    Show => "run::run, show", Doubling(10), 8 * text + 0, ForAny;
    Join => "run::run, join", Doubling(6), 9 * text + 0, ForAny;
    Lower => "run::run, lower", Doubling(10), 8 * text + 0, ForAny;
    Upper => "run::run, upper", Doubling(10), 8 * text + 0, ForAny;
    Replace("a", "é") => "run::run, replace", Doubling(10), 8 * text + 0, ForAny;
    Replace("aa", "bbb") => "run::run, replace", Doubling(11), 8 * text + 0, ForAny;
    Replace("", "-") => "run::run, replace", Doublings(3, 4), 10 * text + 0, ForAny;
    Tokens => "run::run_with_hasher, tokens", Doubling(10), 14 * text + 640, ForAny;
    Merge => "run::run_with_hasher, merge", Doubling(11), 8 * text + 640, ForAny;
    NoSum => "run::run_with_hasher, merge", Doubling(11), 12 * text + 760, ForAny;
};

#[test]
fn of_modes(rt: HostRuntime) -> Result<(), Fail> {
    check_law(rt, &MODES)
}

/// Of as many lines as a text has bytes.
static LINES: [Law<OnLines>; 3] = laws! {
    OnLines::Show => "run::run, show", Doubling(10), 20 * text + 100, ForAny;
    OnLines::Tokens => "run::run_with_hasher, tokens", Doublings(5, 4), 300 * text + 1000, ForAny;
    OnLines::Merge => "run::run_with_hasher, merge", Doublings(5, 4), 300 * text + 1000, ForAny;
};

#[test]
fn of_lines(rt: HostRuntime) -> Result<(), Fail> {
    check_law(rt, &LINES)
}

impl OnLine {
    fn word(&self) -> &'static str {
        match *self {
            Show => "show",
            Join => "join",
            Lower => "lower",
            Upper => "upper",
            Replace(..) => "replace",
            Tokens => "tokens",
            Merge | NoSum => "merge",
        }
    }

    fn mode(&self, test: &Test) -> Mode {
        match *self {
            Replace(from, to) => mode_by(test, &["replace", from, to]),
            _ => mode_by(test, &[self.word()]),
        }
    }

    /// What becomes of a line, as std has it.
    fn mapped(&self, test: &Test, line: &str) -> String {
        match *self {
            Lower => ok(test, line.to_ascii_lowercase(test.alloc)),
            Upper => ok(test, line.to_ascii_uppercase(test.alloc)),
            Replace(from, to) => ok(test, line.replace(test.alloc, from, to)),
            _ => test.string(line),
        }
    }

    /// The report on a line that occurs so often.
    fn report(&self, test: &Test, line: &str, times: usize) -> String {
        let made = self.mapped(test, line);
        let (place, size) = (place_word(made.as_str()), made.len());
        if let Tokens = self {
            return ok(test, format!(in test.alloc; "{times} {made}\n"));
        }
        let once = ok(test, format!(in test.alloc; "{place} {size} {made}\n"));
        test.repeated(once.as_str(), times)
    }
}

/// Each line up to this length is tried, and some longer ones: all would take more time than a test has.
const LONGEST: usize = 100;

static LONGER: [usize; 11] = [
    111, 150, 200, 250, 290, 454, 512, 1_228, 3_052, 4_096, 5_000,
];

/// How often a line occurs.
static TIMES: [usize; 4] = [1, 1, 3, 3];

/// Counts of 1, 10, 19 and 20 digits.
static COUNTS: [u64; 4] = [0, 5_000_000_000, 1_000_000_000_000_000_000, u64::MAX];

/// A line that is no count line, and counts that are too large together.
static NO_SUMS: [&str; 2] = ["1 b\nx", "9 b\n18446744073709551615 b\n1 "];

fn place_word(text: &str) -> &'static str {
    match place_of(text) {
        Place::Inline => "inline",
        Place::Static => "static",
        Place::Heap => "heap",
    }
}

impl Call for OnLine {
    /// The mode, the input, how many bytes the reader gives a call, and a list with room for the report.
    type Input = (Mode, String, usize, Vec<u8>);

    /// Once, and three times behind another line; by single bytes and by all; counts of some digits.
    fn ways(&self) -> usize {
        4
    }

    fn takes(&self, text: &str) -> bool {
        !text.contains('\n') && (text.len() <= LONGEST || LONGER.contains(&text.len()))
    }

    fn input(&self, test: &Test, text: &'static str, way: usize) -> (Mode, String, usize, Vec<u8>) {
        let input = match self {
            Merge => self.wanted(test, text, way),
            NoSum => test.text(&[(NO_SUMS[way / 2 % 2], 1), (text, 1), ("\n", 1)]),
            _ => {
                let lines = test.repeated(test.joined(text, "\n").as_str(), TIMES[way % 4]);
                test.joined(if way < 2 { "" } else { "b\n" }, lines.as_str())
            }
        };
        let room = self.wanted(test, text, way).len();
        let out = ok(test, Vec::with_capacity(test.alloc, room));
        (self.mode(test), input, [1, usize::MAX][way % 2], out)
    }

    fn run(
        &self,
        alloc: Global,
        _text: &str,
        (mode, input, step, mut out): (Mode, String, usize, Vec<u8>),
    ) -> Outcome {
        let mut reader = trickle_of(input.as_bytes(), step, 0);
        let state = BuildHasherDefault::<FoldHasher>::new();
        let returned = match self {
            Tokens | Merge | NoSum => run_with_hasher(alloc, state, mode, &mut reader, &mut out),
            _ => run(alloc, mode, &mut reader, &mut out),
        };
        match returned {
            Ok(()) | Err(RunFault::NotCounts(_) | RunFault::Full) => Ok(Thing::Bytes(out)),
            Err(fault) => Err(nothing(reason_of(&fault) == Reason::OutOfMemory && out.is_empty())),
        }
    }

    fn wanted(&self, test: &Test, text: &'static str, way: usize) -> String {
        let (times, is_behind) = (TIMES[way % 4], way >= 2);
        match self {
            Join => {
                let all = test.text(&[("b", usize::from(is_behind)), (text, times)]);
                self.report(test, all.as_str(), 1)
            }
            Merge => {
                let front = if is_behind { "1 b\n2 c\n" } else { "" };
                ok(
                    test,
                    format!(in test.alloc; "{front}{} {text}\n", COUNTS[way % 4]),
                )
            }
            NoSum => test.string(""),
            _ if is_behind => {
                let back = self.report(test, text, times);
                test.joined(self.report(test, "b", 1).as_str(), back.as_str())
            }
            _ => self.report(test, text, times),
        }
    }
}

/// Of a token, added to a tally.
static ADDS: [Law<Add>; 2] = laws! {
    Add::New => "Tally::add", Most(4), 0 * text + 640, ForAny;
    Add::Again => "Tally::add", Most(0), 0 * text + 0, ForAny;
};

#[test]
fn of_tallies(rt: HostRuntime) -> Result<(), Fail> {
    check_law(rt, &ADDS)
}
