//! Calls on a builder.
use OnBuilder::*;
use smol_str::{BLANK_NEWLINES, BLANK_SPACES, INLINE_CAP, SmolStr, SmolStrBuilder, ValueAlloc};
use std::convert::{AsSlice, AsStr};
use std::default::{self, MadeWith};
use std::fmt::{self, Debug, Write};
use test_support::*;

pub enum OnBuilder {
    CloneSmall,
    /// On the heap, with room for more.
    CloneLarge,
    CloneByTrait,
    Emptied,
    Finish,
    FromBuilder,
    IntoValue,
    ValueOf,
    /// Of one byte and, wide, of three.
    Push,
    PushWide,
    PushStr,
    /// With room for twice as many bytes more.
    PushWithSpare,
    /// As many spaces as the text has bytes, up to the most, and as many newlines or none.
    PushBlank,
    WriteStr,
    WriteFmt,
    ExtendChars,
    ExtendByStr,
    ExtendByItem,
    /// `{:?}`, to a writer that asks for nothing.
    PrintBuilder,
    /// Its text, and what is asked of that.
    Read,
    /// An empty one, as a map makes it.
    MadeEmpty,
}

impl Call for OnBuilder {
    type Input = SmolStrBuilder;

    /// With no more room than it begins with or than the text needs; where nothing is appended also with more.
    fn ways(&self) -> usize {
        match self {
            CloneByTrait | Finish | FromBuilder | IntoValue | ValueOf | PrintBuilder | Read => 3,
            CloneLarge | Emptied | MadeEmpty => 1,
            _ => 2,
        }
    }

    fn input(&self, test: &Test, text: &'static str, way: usize) -> SmolStrBuilder {
        let twice = text.len().saturating_mul(2).saturating_add(100);
        let capacity = match self {
            CloneLarge | Emptied => twice,
            _ => [0, text.len(), twice][way.min(2)],
        };
        test.builder(capacity, text)
    }

    fn run(&self, alloc: Global, text: &str, mut builder: SmolStrBuilder) -> Outcome {
        match self {
            CloneSmall | CloneLarge => made(builder.clone()),
            CloneByTrait => made(cloned(&builder)),
            PrintBuilder => changed(is_printed(&builder), builder),
            Read => changed(is_read(&builder, text), builder),
            MadeEmpty => Ok(Thing::Builder(SmolStrBuilder::made_with(alloc))),
            Emptied => made(<SmolStrBuilder as default::Emptied>::emptied(&builder)),
            Finish => made(builder.finish()),
            FromBuilder => made(SmolStr::from_builder(builder)),
            IntoValue => made(builder.into_value()),
            ValueOf => made(Global::value_of(builder)),
            Push => changed(self.append("b", &mut builder), builder),
            PushWide => changed(self.append("€", &mut builder), builder),
            _ => changed(self.append(text, &mut builder), builder),
        }
    }

    fn wanted(&self, test: &Test, text: &'static str, _way: usize) -> String {
        match self {
            Emptied | MadeEmpty => test.string(""),
            Push => test.joined(text, "b"),
            PushWide => test.joined(text, "€"),
            CloneSmall | CloneLarge | CloneByTrait | PrintBuilder | Read => test.string(text),
            Finish | FromBuilder | IntoValue | ValueOf => test.string(text),
            _ => test.joined(text, self.appended(test, text).as_str()),
        }
    }
}

impl OnBuilder {
    /// What is appended for a text.
    fn appended(&self, test: &Test, text: &str) -> String {
        let PushBlank = self else {
            return test.string(text);
        };
        let newlines = text.len().min(text.len() % 2 * BLANK_NEWLINES);
        let spaces = test.repeated(" ", text.len().min(BLANK_SPACES));
        test.repeated_and("\n", newlines, spaces.as_str())
    }

    /// Whether it is appended; of a text that is pushed its first character.
    fn append(&self, text: &str, builder: &mut SmolStrBuilder) -> bool {
        match self {
            Push | PushWide => builder.push(text.chars().next().unwrap_or('a')).is_ok(),
            PushWithSpare => builder.push_with_spare(text, 2 * text.len()).is_ok(),
            PushBlank => {
                let newlines = text.len().min(text.len() % 2 * BLANK_NEWLINES);
                let spaces = text.len().min(BLANK_SPACES);
                builder.push_blank(newlines, spaces).is_ok()
            }
            ExtendByStr => builder.extend_strs([text].into_iter()).is_ok(),
            ExtendByItem => builder.extend([text]).is_ok(),
            WriteStr => builder.write_str(text).is_ok(),
            WriteFmt => builder.write_fmt(text).is_ok(),
            ExtendChars => builder.extend_chars(text.chars()).is_ok(),
            PushStr => builder.push_str(text).is_ok(),
            _ => false,
        }
    }
}

/// Whether all that reads a builder finds the text.
fn is_read(builder: &SmolStrBuilder, text: &str) -> bool {
    let (is_empty, has_buffer) = (builder.is_empty(), builder.inline_buffer().is_some());
    builder == builder
        && (builder.len(), is_empty) == (text.len(), text.is_empty())
        && (!has_buffer || text.len() <= INLINE_CAP)
        && lent(builder) == text
        && bytes_of(builder) == text.as_bytes()
}

fn lent<T: AsStr>(thing: &T) -> &str {
    thing.as_str()
}

fn bytes_of<T: AsSlice<u8>>(thing: &T) -> &[u8] {
    thing.as_slice()
}

/// By the trait, as a container clones what it has.
pub fn cloned<T: Clone>(thing: &T) -> Result<T, AllocError> {
    thing.clone()
}

/// The same call nine times, within the room that the builder has.
pub struct Again(pub OnBuilder);

const TIMES: usize = 9;

impl Call for Again {
    type Input = SmolStrBuilder;

    fn takes(&self, text: &str) -> bool {
        !text.is_empty() && text.len() <= 5_000
    }

    fn input(&self, test: &Test, text: &'static str, _way: usize) -> SmolStrBuilder {
        let room = text.len().max(BLANK_NEWLINES + BLANK_SPACES);
        test.builder(room.saturating_mul(TIMES + 1), text)
    }

    fn run(&self, _alloc: Global, text: &str, mut builder: SmolStrBuilder) -> Outcome {
        for _ in 0..TIMES {
            if !self.0.append(text, &mut builder) {
                return changed(false, builder);
            }
        }
        changed(true, builder)
    }

    fn wanted(&self, test: &Test, text: &'static str, _way: usize) -> String {
        let piece = match self.0 {
            Push => first_of(text),
            _ => text,
        };
        let appended = self.0.appended(test, piece);
        test.joined(text, test.repeated(appended.as_str(), TIMES).as_str())
    }
}

/// The first character, as a text.
fn first_of(text: &str) -> &str {
    match text.chars().next() {
        Some(first) => text.get(..first.len_utf8()).unwrap_or(""),
        None => "",
    }
}

/// A call for each character of a text, on a builder that begins with none.
pub struct Each(pub OnBuilder);

impl Call for Each {
    type Input = SmolStrBuilder;

    fn takes(&self, text: &str) -> bool {
        text.len() <= 5_000
    }

    fn input(&self, test: &Test, _text: &'static str, _way: usize) -> SmolStrBuilder {
        test.builder(0, "")
    }

    fn run(&self, _alloc: Global, text: &str, mut builder: SmolStrBuilder) -> Outcome {
        let mut buf = [0; 4];
        for character in text.chars() {
            if !self.0.append(character.encode_utf8(&mut buf), &mut builder) {
                return changed(false, builder);
            }
        }
        changed(true, builder)
    }

    fn wanted(&self, test: &Test, text: &'static str, _way: usize) -> String {
        let mut all = String::new(test.alloc);
        let mut buf = [0; 4];
        for character in text.chars() {
            let appended = self.0.appended(test, character.encode_utf8(&mut buf));
            ok(test, all.push_str(appended.as_str()));
        }
        all
    }
}

/// Whether a print comes to an end, to a writer that keeps nothing.
pub fn is_printed(thing: &impl Debug) -> bool {
    let mut nowhere = Nowhere;
    write!(nowhere, "{thing:?}{thing:#?}{thing:>60?}").is_ok()
}

#[derive(Drop)]
pub struct Nowhere;

impl Write for Nowhere {
    fn write_str(&mut self, _text: &str) -> fmt::Result {
        Ok(())
    }
}
