//! Reports of every mode, on short and on long inputs.
use super::run::{Words, run_by};
use test_support::*;

/// The words of a mode, an input, and the report on it.
static REPORTS: &[(Words, &str, &str)] = &table! {
    (&["show"], "if\n\naaaaaaaaaaaaaaaaaaaaaaaa", "inline 2 if\ninline 0 \ninline 24 aaaaaaaaaaaaaaaaaaaaaaaa\n");
    (&["show"], "", "");
    (&["show"], "                        \n", "inline 24                         \n");
    (&["show"], "é\nß", "inline 2 é\ninline 2 ß\n");
    (&["join"], "if\n\naaaaaaaaaaaaaaaaaaaaaaaa", "inline 26 ifaaaaaaaaaaaaaaaaaaaaaaaa\n");
    (&["join"], "", "inline 0 \n");
    (&["join"], "aaaaaaaaaaaaaaaaaaaaaaaaaaaaaaaaaaaaaaaa\n\n", "heap 40 aaaaaaaaaaaaaaaaaaaaaaaaaaaaaaaaaaaaaaaa\n");
    (&["join"], "aaaaaaaaaaaa\nbbbbbbbbbbb\n", "inline 23 aaaaaaaaaaaabbbbbbbbbbb\n");
    (&["join"], "            \n            ", "inline 24                         \n");
    (&["join"], "é\r\nß", "inline 5 é\rß\n");
    (&["replace", "ba", "do"], "foo_bar_baz", "inline 11 foo_dor_doz\n");
    (&["replace", "", "-"], "ab", "inline 5 -a-b-\n");
    (&["replace", "a", ""], "aaaa\nbab", "inline 0 \ninline 2 bb\n");
    (&["replace", "x", " "], "xxxxxxxxxxxxxxxxxxxxxxxx", "inline 24                         \n");
    (&["lower"], "Ab\r\n", "inline 3 ab\r\n");
    (&["upper"], "aß", "inline 3 Aß\n");
    (&["lower"], "AAAAAAAAAAAAAAAAAAAAAAAA", "inline 24 aaaaaaaaaaaaaaaaaaaaaaaa\n");
    (&["tokens"], "if\nx\nif", "2 if\n1 x\n");
    (&["tokens"], "x\naaaaaaaaaaaaaaaaaaaaaaaaaaaaaaaaaaaaaaaa\nx\naaaaaaaaaaaaaaaaaaaaaaaaaaaaaaaaaaaaaaaa\nx\n",
        "3 x\n2 aaaaaaaaaaaaaaaaaaaaaaaaaaaaaaaaaaaaaaaa\n");
    (&["tokens"], "\n\n", "2 \n");
    (&["tokens"], "", "");
    (&["merge"], "2 a\n1 b\n3 a\n", "5 a\n1 b\n");
    (&["merge"], "", "");
    (&["merge"], "1 \n2 \n", "3 \n");
    (&["merge"], "1 a b\n4 a\n1 a b\n", "2 a b\n4 a\n");
    (&["merge"], "0 a\n10 a\n0 0\n", "10 a\n0 0\n");
    (&["merge"], "1 é\r\n1 é\n", "1 é\r\n1 é\n");
    (&["merge"], "18446744073709551614 a\n1 a\n", "18446744073709551615 a\n");
};

/// The words of a mode, and the letter made of an `a`.
static LETTERS: &[(Words, &str)] = &table! {
    (&["show"], "a"); (&["join"], "a"); (&["lower"], "a"); (&["upper"], "A"); (&["replace", "a", "x"], "x");
    (&["replace", "aa", "xx"], "x"); (&["tokens"], "a");
};

/// The words of a mode, an input, and the report on it.
#[derive(Drop)]
pub struct Row {
    pub words: Words,
    pub input: String,
    pub report: String,
}

/// The reports of the table, and those on a line of 9,000 letters.
pub fn all_rows(test: &Test) -> Vec<Row> {
    let mut all = rows_of_letters(test, 9_000);
    for &(words, input, report) in REPORTS {
        push_row(test, &mut all, words, input, test.string(report));
    }
    all
}

/// The reports on a line of so many letters, of which each mode makes one on the heap.
fn rows_of_letters(test: &Test, size: usize) -> Vec<Row> {
    let mut all = Vec::new(test.alloc);
    for &(words, letter) in LETTERS {
        let input = test.repeated_and("a", size, "\n");
        let line = test.repeated_and(letter, size, "\n");
        let report = match words {
            ["tokens"] => test.joined("1 ", line.as_str()),
            _ => ok(test, format!(in test.alloc; "heap {size} {line}")),
        };
        push_row(test, &mut all, words, input.as_str(), report);
    }
    all
}

fn push_row(test: &Test, all: &mut Vec<Row>, words: Words, input: &str, report: String) {
    let input = test.string(input);
    test.push(
        all,
        Row {
            words,
            input,
            report,
        },
    );
}

// The whole report goes out by one call, and an empty one by none.
#[test]
fn few_calls(rt: HostRuntime) -> Result<(), Fail> {
    let test = Test::begin(rt);
    for row in &all_rows(&test) {
        check_calls(&test, row);
    }
    for size in ABOVE_BUFFERS {
        for row in &rows_of_letters(&test, size + size % 2) {
            check_calls(&test, row);
        }
    }
    for words in MANY {
        check_calls(&test, &row_of_numbers(&test, words, 100_000));
    }
    test.end()
}

/// The modes that are tried on many lines.
static MANY: [Words; 4] = [&["show"], &["join"], &["tokens"], &["merge"]];

/// The report on so many different lines.
fn row_of_numbers(test: &Test, words: Words, count: usize) -> Row {
    let (mut input, mut report) = (String::new(test.alloc), String::new(test.alloc));
    for number in 0..count {
        let line = ok(test, format!(in test.alloc; "{number}"));
        let (line, size) = (line.as_str(), line.len());
        let (front, counted) = match words {
            ["show"] => (
                "",
                ok(test, format!(in test.alloc; "inline {size} {line}\n")),
            ),
            ["join"] => ("", test.string(line)),
            ["tokens"] => ("", ok(test, format!(in test.alloc; "1 {line}\n"))),
            _ => ("1 ", ok(test, format!(in test.alloc; "1 {line}\n"))),
        };
        ok(
            test,
            input.push_str(
                test.joined(front, test.joined(line, "\n").as_str())
                    .as_str(),
            ),
        );
        ok(test, report.push_str(counted.as_str()));
    }
    if let ["join"] = words {
        let size = report.len();
        report = ok(test, format!(in test.alloc; "heap {size} {report}\n"));
    }
    Row {
        words,
        input,
        report,
    }
}

fn check_calls(test: &Test, row: &Row) {
    let (mut reader, report) = (row.input.as_bytes(), row.report.as_bytes());
    let mut writer = empty_drip(test.alloc, usize::MAX, 0, None);
    let ended = run_by(test, row.words, &mut reader, &mut writer);
    let told = (row.words, report.len());
    same(test, &ended, &None, &told);
    holds(test, writer.taken.as_slice() == report, &told);
    same(test, &writer.calls, &report.len().min(1), &told);
}
