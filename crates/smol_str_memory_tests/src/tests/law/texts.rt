//! Calls on a text.
use OnText::*;
use lexer::lex;
use smol_str::{
    FormatError, SmolStr, SmolStrBuilder, Step, StrExt, ToSmolStr, build, format_smolstr,
};
use std::borrow::CowStr;
use std::fmt::{self, Display, Formatter};
use test_support::*;

pub enum OnText {
    New,
    FromStr,
    FromUtf8,
    FromUtf8Unchecked,
    FromBorrowed,
    FromChars,
    CollectChars,
    Print,
    PrintByParts,
    PrintNumber,
    Format,
    FormatParts,
    /// And the text appended, which the capacity has room for.
    WithCapacity,
    ToBuild,
    /// With a capacity of the size of both.
    ToBuildAtOnce,
    /// With a step for each character, and no capacity.
    ToBuildByChars,
    AsciiLower,
    AsciiUpper,
    LowerOfAscii,
    UpperOfAscii,
    Lower,
    Upper,
    /// Of letters alone, which are one token, and of any other text.
    LexWord,
    Lex,
}

impl Call for OnText {
    /// Steps of the text and a character, for `build`.
    type Input = Vec<Step>;

    fn takes(&self, text: &str) -> bool {
        match self {
            LowerOfAscii | UpperOfAscii => text.is_ascii(),
            Lower | Upper => !text.is_ascii(),
            LexWord => text.chars().all(char::is_alphanumeric),
            ToBuildByChars | Lex => text.len() <= 70_000,
            _ => true,
        }
    }

    fn input(&self, test: &Test, text: &'static str, _way: usize) -> Vec<Step> {
        let mut steps = Vec::new(test.alloc);
        if let ToBuild | ToBuildAtOnce = self {
            test.push(&mut steps, Step::PushStr(test.string(text)));
            test.push(&mut steps, Step::Push('é'));
        }
        if let ToBuildByChars = self {
            for character in text.chars() {
                test.push(&mut steps, Step::Push(character));
            }
        }
        steps
    }

    fn run(&self, alloc: Global, text: &str, steps: Vec<Step>) -> Outcome {
        match self {
            FromUtf8 => made(SmolStr::from_utf8(alloc, text.as_bytes())),
            FromBorrowed => made(SmolStr::from_cow_str(alloc, CowStr::Borrowed(text))),
            Print | PrintByParts | PrintNumber | Format | FormatParts => {
                made(self.printed(alloc, text))
            }
            WithCapacity => with_capacity(alloc, text),
            Lex | LexWord => lexed(alloc, text),
            _ => made(self.value(alloc, text, &steps)),
        }
    }

    /// As std has it.
    fn wanted(&self, test: &Test, text: &'static str, _way: usize) -> String {
        match self {
            AsciiLower => ok(test, text.to_ascii_lowercase(test.alloc)),
            AsciiUpper => ok(test, text.to_ascii_uppercase(test.alloc)),
            LowerOfAscii | Lower => ok(test, text.to_lowercase(test.alloc)),
            UpperOfAscii | Upper => ok(test, text.to_uppercase(test.alloc)),
            PrintNumber => ok(test, format!(in test.alloc; "{}", number_of(text))),
            ToBuild | ToBuildAtOnce => test.joined(text, "é"),
            _ => test.string(text),
        }
    }
}

impl OnText {
    fn printed(&self, alloc: Global, text: &str) -> Result<SmolStr, FormatError> {
        match self {
            Print => text.to_smolstr(alloc),
            PrintByParts => ByParts(text).to_smolstr(alloc),
            PrintNumber => number_of(text).to_smolstr(alloc),
            FormatParts => formatted(alloc, &ByParts(text)),
            _ => formatted(alloc, &text),
        }
    }

    fn value(&self, alloc: Global, text: &str, steps: &[Step]) -> Result<SmolStr, AllocError> {
        match self {
            New => SmolStr::new(alloc, text),
            FromStr => SmolStr::from_str(alloc, text),
            FromUtf8Unchecked => SmolStr::from_utf8_unchecked(alloc, text.as_bytes()),
            FromChars => SmolStr::from_chars(alloc, text.chars()),
            CollectChars => text.chars().collect(alloc),
            ToBuild | ToBuildByChars => build(alloc, 0, steps),
            ToBuildAtOnce => build(alloc, text.len().saturating_add(2), steps),
            AsciiLower => text.to_ascii_lowercase_smolstr(alloc),
            AsciiUpper => text.to_ascii_uppercase_smolstr(alloc),
            LowerOfAscii | Lower => text.to_lowercase_smolstr(alloc),
            UpperOfAscii | Upper => text.to_uppercase_smolstr(alloc),
            _ => Err(AllocError),
        }
    }
}

/// A number of one to 39 digits, by the text's length, and below zero where that is even.
fn number_of(text: &str) -> i128 {
    let number = i128::MIN >> (text.len() % 128);
    if text.len() % 2 == 0 { number } else { !number }
}

fn formatted(alloc: Global, value: &impl Display) -> Result<SmolStr, FormatError> {
    format_smolstr!(alloc; "{}", value)
}

fn with_capacity(alloc: Global, text: &str) -> Outcome {
    match SmolStrBuilder::with_capacity(alloc, text.len()) {
        Ok(mut builder) => changed(builder.push_str(text).is_ok(), builder),
        Err(fault) => Err(fault.into_thing()),
    }
}

/// The tokens, which are dropped: the contract has their text.
fn lexed(alloc: Global, text: &str) -> Outcome {
    match lex(alloc, text) {
        Ok(_tokens) => Ok(Thing::Nothing),
        Err(fault) => Err(fault.into_thing()),
    }
}

/// A text that is printed character by character.
#[derive(Drop)]
struct ByParts<'a>(&'a str);

impl Display for ByParts<'_> {
    fn fmt<W: fmt::Write>(&self, f: &mut Formatter<W>) -> fmt::Result {
        for character in self.0.chars() {
            f.write_char(character)?;
        }
        Ok(())
    }
}
