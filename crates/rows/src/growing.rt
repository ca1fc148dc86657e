//! Texts that grow, from items or by a builder.
use crate::answer::Answer;
use crate::input::Case;
use smol_str::{BLANK_NEWLINES, BLANK_SPACES, SmolStr, SmolStrBuilder};
use std::alloc::{AllocError, Global};
use std::fmt::Write;

pub const CALLS: &str = "from_chars|FromIterator|from_strs|join, three|builder.clone|\
    builder.PartialEq|builder.with_capacity|builder.push|builder.push_str|builder.push_with_spare|\
    builder.push_blank|builder.extend_chars|builder.extend_strs|builder.Extend|builder.Write";

type Made = Result<SmolStr, AllocError>;

pub fn number<const CALL: usize>(alloc: Global, it: &Case, at: usize) -> u64 {
    let (text, other) = (it.text.as_str(), it.other.as_str());
    match CALL {
        0 => SmolStr::from_chars(alloc, text.chars()).number(at),
        1 => collected(alloc, text).number(at),
        2 => SmolStr::from_strs(alloc, text.split(' ')).number(at),
        3 => SmolStr::join(alloc, &[text, other, text], ",").number(at),
        4 => cloned(alloc, text).number(at),
        5 => equal(alloc, text).number(at),
        6 => with_capacity(alloc, text).number(at),
        _ => grown::<CALL>(alloc, it).number(at),
    }
}

fn collected(alloc: Global, text: &str) -> Made {
    text.chars().collect(alloc)
}

fn cloned(alloc: Global, text: &str) -> Made {
    let mut builder = SmolStrBuilder::new(alloc);
    builder.push_str(text)?;
    builder.clone()?.into_value()
}

fn equal(alloc: Global, text: &str) -> Option<usize> {
    let mut builder = SmolStrBuilder::new(alloc);
    builder.push_str(text).ok()?;
    let copy = builder.clone().ok()?;
    Some(usize::from(builder == copy))
}

fn with_capacity(alloc: Global, text: &str) -> Made {
    let mut builder = SmolStrBuilder::with_capacity(alloc, 100)?;
    builder.push_str(text)?;
    builder.into_value()
}

/// By one call on a new builder, or some of one kind.
fn grown<const CALL: usize>(alloc: Global, it: &Case) -> Option<SmolStr> {
    let mut builder = SmolStrBuilder::new(alloc);
    let text = it.text.as_str();
    let is_done = match CALL {
        7 => push_each(&mut builder, text).is_ok(),
        8 => push_three(&mut builder, it).is_ok(),
        9 => builder.push_with_spare(text, 100).is_ok(),
        10 => builder
            .push_blank(text.len().min(BLANK_NEWLINES), text.len().min(BLANK_SPACES))
            .is_ok(),
        11 => builder.extend_chars(text.chars()).is_ok(),
        12 => builder.extend_strs(text.split(' ')).is_ok(),
        13 => builder.extend(text.chars()).is_ok(),
        _ => builder.write_str(text).is_ok(),
    };
    if is_done {
        builder.into_value().ok()
    } else {
        None
    }
}

fn push_each(builder: &mut SmolStrBuilder, text: &str) -> Result<(), AllocError> {
    for character in text.chars() {
        builder.push(character)?;
    }
    Ok(())
}

fn push_three(builder: &mut SmolStrBuilder, it: &Case) -> Result<(), AllocError> {
    builder.push_str(&it.text)?;
    builder.push_str(&it.other)?;
    builder.push_str(&it.text)
}
