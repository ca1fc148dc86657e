//! Texts of each length and kind, on which calls are tried.
use crate::memory::can_refuse;
use crate::table;
use crate::test::Test;
use smol_str::{BLANK_NEWLINES, INLINE_CAP};

/// Texts that repeat: letters of one to four bytes, mixed ones, one whose case is shorter, blanks, digits, and what JSON escapes.
static UNITS: [&str; 13] = table! {
    "a"; "AΣé€🦀"; "aab"; "\u{2126}"; "ab "; " "; "\u{7ff}"; "\u{ffff}"; "\u{10ffff}"; "\""; "\n"; "\u{1}"; "0123456789";
};

/// What comes in front of letters, near their start, in the middle and at their end: characters about each length, those
/// whose case has another length or depends on its neighbours, and each kind of escape of JSON.
static MARKS: [&str; 24] = table! {
    "B"; "\u{7f}"; "\u{80}"; "\u{7ff}"; "\u{800}"; "\u{ffff}"; "\u{10000}";
    "ß"; "İ"; "ŉ"; "ǅ"; "ΐ"; "ﬃ"; "\u{2126}"; "Σ"; "\u{10400}";
    "\""; "\\"; "\u{8}"; "\t"; "\n"; "\u{c}"; "\r"; "\u{1}";
};

/// Spans of lengths, without their ends: up to 300, about the powers of two up to 70,000, and one of more than two megabytes.
static SPANS: [(usize, usize); 12] = table! {
    (0, 301); (511, 514); (1_023, 1_026); (2_047, 2_050); (4_095, 4_098); (5_000, 5_001); (8_191, 8_194); (16_383, 16_386);
    (32_767, 32_770); (65_535, 65_538); (70_000, 70_001); (2_200_003, 2_200_004);
};

/// The lengths where memory can't be refused.
static FEW: [(usize, usize); 3] = [(0, 2), (INLINE_CAP, INLINE_CAP + 2), (300, 301)];

/// Texts of each length of the spans, and of some between them.
pub fn samples(test: &Test) -> Vec<&'static str> {
    let mut texts: Vec<&'static str> = Vec::new(test.alloc);
    if !can_refuse(test.alloc) {
        push_spans(test, &mut texts, &FEW);
        return texts;
    }
    push_spans(test, &mut texts, &SPANS);
    push_between(test, &mut texts);
    texts
}

fn push_spans(test: &Test, texts: &mut Vec<&'static str>, spans: &[(usize, usize)]) {
    for &(from, to) in spans {
        for len in from..to {
            push_samples(test, texts, len);
        }
    }
}

/// The texts of a length: all that are short or about that, and of others each mark at one length; few that are long.
fn push_samples(test: &Test, texts: &mut Vec<&'static str>, len: usize) {
    let units = match len {
        0..=1_000 => 13,
        1_001..=100_000 => 4,
        _ => 2,
    };
    push_units(test, texts, &UNITS[..units], len);
    if units > 2 {
        push_text(test, texts, blank(test, len));
        push_text(
            test,
            texts,
            test.repeated_and(" ", len.saturating_sub(1), "a"),
        );
        push_marks(test, texts, len);
    }
}

/// Each unit as often as the length has room for it, and letters.
fn push_units(test: &Test, texts: &mut Vec<&'static str>, units: &[&str], len: usize) {
    for unit in units {
        let size = unit.len().max(1);
        let rest = test.repeated("a", len % size);
        push_text(
            test,
            texts,
            test.repeated_and(unit, len / size, rest.as_str()),
        );
    }
}

fn push_marks(test: &Test, texts: &mut Vec<&'static str>, len: usize) {
    for (index, mark) in MARKS.iter().enumerate() {
        if len <= 2 * INLINE_CAP + 2 || len.wrapping_add(index) % MARKS.len() == 0 {
            push_marked(test, texts, mark, len);
        }
    }
}

static ENDS: [&str; 4] = ["é", "bb", "\"", "\u{1}"];

/// Texts of lengths from 300 to 64,000, each about a thirtieth more than the one before it.
fn push_between(test: &Test, texts: &mut Vec<&'static str>) {
    let mut len = 300usize;
    for index in 0..165 {
        push_text(
            test,
            texts,
            test.repeated_and("ab", len / 2, ENDS[index % 4]),
        );
        len = len.saturating_add(len / 30);
    }
}

/// Newlines, and then spaces.
fn blank(test: &Test, len: usize) -> String {
    let newlines = len.min(BLANK_NEWLINES);
    let spaces = test.repeated(" ", len - newlines);
    test.repeated_and("\n", newlines, spaces.as_str())
}

/// A mark in front of letters, among them at two places and behind them.
fn push_marked(test: &Test, texts: &mut Vec<&'static str>, mark: &str, len: usize) {
    let Some(letters) = len.checked_sub(mark.len()) else {
        return;
    };
    for front in [0, letters.min(1 + len % 7), letters / 2, letters] {
        push_text(test, texts, marked(test, front, mark, letters - front));
    }
}

/// A mark between letters.
fn marked(test: &Test, front: usize, mark: &str, back: usize) -> String {
    let rest = test.joined(mark, test.repeated("a", back).as_str());
    test.repeated_and("a", front, rest.as_str())
}

/// The text stays for as long as the process lives.
fn push_text(test: &Test, texts: &mut Vec<&'static str>, text: String) {
    let bytes = text.into_bytes().leak();
    test.push(texts, str::from_utf8(bytes).unwrap_or(""));
}
