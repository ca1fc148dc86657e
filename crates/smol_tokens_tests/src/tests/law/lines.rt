//! Inputs of many lines.
use super::super::mode::mode_by;
use super::super::run::reason_of;
use OnLines::*;
use smol_tokens_core::mode::Mode;
use smol_tokens_core::run::run;
use test_support::*;

pub enum OnLines {
    Show,
    Tokens,
    Merge,
}

/// How many lines there are.
static COUNTS: [usize; 9] = [0, 1, 7, 8, 15, 100, 300, 2_048, 5_000];

/// A line on the heap.
const LONG: &str = "a line that is longer than what a value has room for";

impl OnLines {
    fn word(&self) -> &'static str {
        match self {
            Show => "show",
            Tokens => "tokens",
            Merge => "merge",
        }
    }

    /// A line, by its number: one for all, or each another.
    fn line(&self, test: &Test, number: usize, way: usize) -> String {
        match way {
            0 => test.string("b"),
            1 => ok(test, format!(in test.alloc; "{number}")),
            _ => test.string(LONG),
        }
    }

    /// What is reported of lines: of one for all with their number.
    fn report(&self, test: &Test, count: usize, way: usize) -> String {
        let mut report = String::new(test.alloc);
        let is_counted = !matches!(self, Show);
        let (lines, times) = match way {
            0 | 2 if is_counted => (count.min(1), count),
            _ => (count, 1),
        };
        for number in 0..lines {
            let line = self.line(test, number, way);
            let printed = if is_counted {
                ok(test, format!(in test.alloc; "{times} {line}\n"))
            } else {
                let size = line.len();
                ok(test, format!(in test.alloc; "inline {size} {line}\n"))
            };
            ok(test, report.push_str(printed.as_str()));
        }
        report
    }
}

impl Call for OnLines {
    /// The mode, the input, and a list with room for the report.
    type Input = (Mode, String, Vec<u8>);

    /// One short line for all; each another; one long line for all, of which mode show would make as many values.
    fn ways(&self) -> usize {
        match self {
            Show => 2,
            _ => 3,
        }
    }

    fn takes(&self, text: &str) -> bool {
        COUNTS.contains(&text.len()) && text.bytes().all(|byte| byte == b'a')
    }

    fn input(&self, test: &Test, text: &'static str, way: usize) -> (Mode, String, Vec<u8>) {
        let mut input = String::new(test.alloc);
        for number in 0..text.len() {
            if let Merge = self {
                ok(test, input.push_str("1 "));
            }
            ok(test, input.push_str(self.line(test, number, way).as_str()));
            ok(test, input.push('\n'));
        }
        let room = self.report(test, text.len(), way).len();
        let out = ok(test, Vec::with_capacity(test.alloc, room));
        (mode_by(test, &[self.word()]), input, out)
    }

    fn run(&self, alloc: Global, _text: &str, (mode, input, mut out): Self::Input) -> Outcome {
        let mut reader = input.as_bytes();
        match run(alloc, mode, &mut reader, &mut out) {
            Ok(()) => Ok(Thing::Bytes(out)),
            Err(fault) => Err(nothing(reason_of(&fault) == Reason::OutOfMemory && out.is_empty())),
        }
    }

    fn wanted(&self, test: &Test, text: &'static str, way: usize) -> String {
        self.report(test, text.len(), way)
    }
}
