//! The words of a command line.
use smol_tokens_core::mode::{Mode, mode_of};
use test_support::*;

fn strings(test: &Test, words: &[&str]) -> Vec<String> {
    let mut all = Vec::new(test.alloc);
    for word in words {
        test.push(&mut all, test.string(word));
    }
    all
}

/// The mode that these words ask for.
pub fn mode_by(test: &Test, words: &[&str]) -> Mode {
    match mode_of(strings(test, words)) {
        Some(mode) => mode,
        None => {
            test.fail(&("no mode", words));
            Mode::Show
        }
    }
}

/// Words, and the variant of the mode that they ask for with the texts that it holds.
static MODES: [(&[&str], &str, &[&str]); 9] = table! {
    (&[], "Show", &[]);
    (&["show"], "Show", &[]);
    (&["join"], "Join", &[]);
    (&["lower"], "Lower", &[]);
    (&["upper"], "Upper", &[]);
    (&["tokens"], "Tokens", &[]);
    (&["merge"], "Merge", &[]);
    (&["replace", "", "x"], "Replace", &["", "x"]);
    (&["replace", "ba", ""], "Replace", &["ba", ""]);
};

static WRONG: [&[&str]; 9] = table! {
    &["Show"]; &[""]; &["show", "x"]; &["x", "show"]; &["show "]; &["tokens", "x", "y"];
    &["replace"]; &["replace", "x"]; &["replace", "x", "y", "z"];
};

#[test]
fn modes(rt: HostRuntime) -> Result<(), Fail> {
    let test = Test::begin(rt);
    for &(words, name, texts) in &MODES {
        let mode = mode_by(&test, words);
        same_debug(&test, &mode, &Variant(name, texts), &words);
        let words = strings(&test, words);
        refuse_all(test.alloc);
        let is_read = mode_of(words).is_some();
        holds(&test, is_read && !end_refusals(test.alloc), &name);
    }
    for &words in &WRONG {
        holds(&test, mode_of(strings(&test, words)).is_none(), &words);
    }
    test.end()
}
