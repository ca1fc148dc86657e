//! Replacement, by patterns and new texts of each size.
use Replace::*;
use smol_str::{INLINE_CAP, StrExt};
use test_support::*;

pub enum Replace {
    /// A byte by a byte.
    ByteByByte,
    /// A byte by more, in a text that is not short.
    ByteByMore,
    /// By as many bytes or fewer.
    ByLess,
    /// By more.
    ByMore,
    /// No bytes: a new text in front of each character and at the end.
    Between,
    /// A byte by the text.
    ByText,
    /// The text by a byte, and by one more than a value has room for.
    OfText,
}

/// However often the pattern occurs.
const ALL: usize = usize::MAX;

/// From none to eight times, by the length of the text.
const FEW: usize = usize::MAX - 1;

/// At most half as often as the text has bytes.
const HALF: usize = usize::MAX - 2;

/// The C library rounds the blocks of results that grow from such a text up to whole pages.
const MAPPED: usize = 1_000_000;

/// A text of 40 bytes.
const LONG: &str = "aaaaaaaaaaaaaaaaaaaaaaaaaaaaaaaaaaaaaaaa";

/// A pattern, the new text, and at most how often it is taken.
type Change = (&'static str, &'static str, usize);

static BYTE_BY_BYTE: [Change; 3] = table! {
    ("a", "b", ALL); ("a", " ", ALL); ("z", "y", ALL);
};

static BYTE_BY_MORE: [Change; 5] = table! {
    ("a", "bb", ALL); ("a", "éé", ALL); ("a", LONG, 1000); ("a", "bb", FEW); ("z", "yy", ALL);
};

static BY_LESS: [Change; 16] = table! {
    ("a", "", ALL); ("aa", "", ALL); ("aa", "b", ALL); ("aa", "bb", ALL); ("aaa", "b", ALL); ("aab", "bbb", ALL);
    ("ab", "c", ALL); (LONG, "bbb", ALL); ("aa", "b", FEW); ("aac", "b", ALL);
    ("a", "b", FEW); ("abab", "éé", ALL); ("a", "b", HALF); ("aaa", "b", HALF); ("é", "e", ALL);
    ("aa", "b", HALF);
};

static BY_MORE: [Change; 14] = table! {
    ("aa", "bbb", ALL); ("aaa", "bbbb", ALL); ("ab", "abc", ALL); ("aab", LONG, ALL); ("aa", LONG, ALL);
    (LONG, "bbbbbbbbbbbbbbbbbbbbbbbbbbbbbbbbbbbbbbbbbbb", ALL); ("aa", LONG, FEW); ("aac", LONG, ALL);
    ("a", LONG, FEW); ("a", "bb", ALL); ("a", "éé", ALL); ("a", LONG, 1000); ("é", "eee", ALL); ("a", "bb", HALF);
};

static BETWEEN: [Change; 5] = table! {
    ("", "", ALL); ("", "-", ALL); ("", "éé", ALL); ("", LONG, 1); ("", "-", HALF);
};

impl Replace {
    fn changes(&self) -> &'static [Change] {
        match self {
            ByteByByte => &BYTE_BY_BYTE,
            ByteByMore => &BYTE_BY_MORE,
            ByLess => &BY_LESS,
            ByMore => &BY_MORE,
            Between => &BETWEEN,
            ByText => &[("-", "", ALL)],
            OfText => &[("", "b", ALL), ("", LONG, ALL)],
        }
    }

    fn change(&self, text: &'static str, way: usize) -> Change {
        match self.changes().get(way) {
            Some(&(from, _, count)) if matches!(self, ByText) => (from, text, count),
            Some(&(_, to, count)) if matches!(self, OfText) => (text, to, count),
            Some(&(from, to, FEW)) => (from, to, text.len() % 9),
            Some(&(from, to, HALF)) => (from, to, text.len() / 2),
            Some(change) => *change,
            None => ("a", "b", ALL),
        }
    }
}

impl Replace {
    /// Where a byte becomes the text, it is there twice; and the text is there twice that becomes a byte.
    fn whole(&self, test: &Test, text: &str) -> String {
        match self {
            ByText => test.string("a-b-c"),
            OfText => test.joined(text, test.joined("-", text).as_str()),
            _ => test.string(text),
        }
    }
}

impl Call for Replace {
    /// The text in which it is replaced.
    type Input = (String, Change);

    fn ways(&self) -> usize {
        self.changes().len()
    }

    fn takes(&self, text: &str) -> bool {
        match self {
            ByteByMore => text.len() > INLINE_CAP && text.len() < MAPPED,
            ByMore | Between => text.len() < MAPPED,
            OfText => !text.is_empty(),
            _ => true,
        }
    }

    fn input(&self, test: &Test, text: &'static str, way: usize) -> (String, Change) {
        (self.whole(test, text), self.change(text, way))
    }

    fn run(&self, alloc: Global, _text: &str, (whole, change): (String, Change)) -> Outcome {
        let (text, (from, to, count)) = (whole.as_str(), change);
        match count {
            ALL => made(text.replace_smolstr(alloc, from, to)),
            _ => made(text.replacen_smolstr(alloc, from, to, count)),
        }
    }

    /// As std replaces.
    fn wanted(&self, test: &Test, text: &'static str, way: usize) -> String {
        let (from, to, count) = self.change(text, way);
        ok(
            test,
            self.whole(test, text).replacen(test.alloc, from, to, count),
        )
    }
}
