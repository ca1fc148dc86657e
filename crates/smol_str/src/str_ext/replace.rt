//! Replacement: byte for byte, or by pieces pushed into one builder. Memory is asked for where the result is long: for a
//! copy in `replace_byte`, else by the builder's appends and `into_value`.
ghost use Rattle.std.specs.Prelude.{◌≡◌, ◌<◌, ◌≤◌, [], length, IfOk, OnErr};
ghost use Rattle.std.specs.Str.{chars};
ghost use Rattle.smol_str.specs.Text.{IsShort};
ghost use Rattle.smol_str.specs.Meaning.{IsValueOf};
ghost use Rattle.smol_str.specs.BuilderState.{InBuffer, empty_builder};
ghost use Rattle.smol_str.specs.Needle.{needle_bytes, IsSoundNeedle};
ghost use Rattle.smol_str.specs.Replace.{each_replaced, replaced};
ghost use Rattle.smol_str.specs.Replacing.{IsReplacing};

use crate::buffer::INLINE_CAP;
use crate::builder::SmolStrBuilder;
use crate::bytes::search::{Needle, SEARCH_LANES, bytes_from, count_byte, first_byte};
use crate::value::SmolStr;
use std::alloc::{AllocError, Global};

/// The text with the first `count` matches of a pattern replaced. Where the limit leaves none out,
/// one ASCII character is replaced by another byte for byte. A text that is shorter than the pattern
/// is copied.
#[inline(always)]
pub(super) fn replace(
    alloc: Global,
    text: &str,
    from: &str,
    to: &str,
    count: usize,
) -> Result<SmolStr, AllocError>
    ensures ok { IfOk result (λ v.
        IsValueOf (replaced (chars text.now) (chars from.now) (chars to.now) count) v) }
    ensures refused { OnErr result
        (¬ (IsShort (replaced (chars text.now) (chars from.now) (chars to.now) count))) }
{
    if from.len() == 1 && to.len() == 1 && count >= text.len() {
        return replace_byte(alloc, text, from.as_bytes()[0], to.as_bytes()[0]);
    }
    if text.len() < from.len() {
        return SmolStr::new(alloc, text);
    }
    replace_matches(alloc, text, from, to, count)
}

/// The text with `to` in place of each character `from`, both ASCII.
#[inline(always)]
#[tactic(auto, using(crate::proofs::CutLemmas::Bytes::each_byte))]
fn replace_byte(alloc: Global, text: &str, from: u8, to: u8) -> Result<SmolStr, AllocError>
    requires ascii_from { from < 128 }
    requires ascii_to { to < 128 }
    ensures ok { IfOk result (λ v. IsValueOf (each_replaced from to (chars text.now)) v) }
    ensures refused { OnErr result (¬ (IsShort (each_replaced from to (chars text.now)))) }
{
    if text.len() <= INLINE_CAP {
        let mut buffer = [0; INLINE_CAP];
        let bytes = &mut buffer[..text.len()];
        bytes.copy_from_slice(text.as_bytes());
        replace_each(bytes, from, to);
        return Ok(SmolStr::new_inline(unsafe { str::from_utf8_unchecked(bytes) }));
    }
    // In a copy, which the value keeps.
    let mut bytes = Vec::from_slice(alloc, text.as_bytes())?;
    replace_each(&mut bytes, from, to);
    SmolStr::from_owned(unsafe { String::from_utf8_unchecked(bytes) })
}

/// Writes `to` over each byte `from`. Nothing is counted, so that the compiler takes many bytes at
/// a time.
fn replace_each(bytes: &mut [u8], from: u8, to: u8)
    ensures { bytes.new ≡ each_replaced from to bytes.old }
{
    for at in 0..bytes.len() {
        let byte = bytes[at];
        bytes[at] = if byte == from { to } else { byte };
    }
}

/// Replaces by pieces pushed into one builder. A text that lacks the pattern's first byte is copied.
/// Slow path, kept out of line so that the fast path inlines.
#[inline(never)]
#[tactic(auto, using(crate::proofs::CutLemmas::Replacing::last_steps))]
fn replace_matches(
    alloc: Global,
    text: &str,
    from: &str,
    to: &str,
    count: usize,
) -> Result<SmolStr, AllocError>
    ensures ok { IfOk result (λ v.
        IsValueOf (replaced (chars text.now) (chars from.now) (chars to.now) count) v) }
    ensures refused { OnErr result
        (¬ (IsShort (replaced (chars text.now) (chars from.now) (chars to.now) count))) }
{
    if !from.is_empty() && first_byte(text.as_bytes(), from.as_bytes()).is_none() {
        return SmolStr::new(alloc, text);
    }
    let mut builder = SmolStrBuilder::expecting(
        alloc,
        text.len().saturating_add(growth(text, from, to, count)),
    );
    let index = push_replaced(&mut builder, text, from, to, count)?;
    builder.push_str(&text[index..])?;
    builder.into_value()
}

/// Appends the text up to the last match that is replaced; returns the index where the rest begins.
#[tactic(auto, using(crate::proofs::CutLemmas::Replacing::first_steps))]
fn push_replaced(
    builder: &mut SmolStrBuilder,
    text: &str,
    from: &str,
    to: &str,
    count: usize,
) -> Result<usize, AllocError>
    requires { builder.old ≡ empty_builder InBuffer }
    ensures ok { IfOk result (λ index.
        IsReplacing (chars text.now) (chars from.now) (chars to.now) count 0 builder.new index) }
    ensures refused { OnErr result
        (¬ (IsShort (replaced (chars text.now) (chars from.now) (chars to.now) count))) }
{
    if from.is_empty() {
        return push_between(builder, text, to, count);
    }
    push_matches(builder, text, &Needle::new(from), to, count)
}

/// Appends the new text before each of the first `count` characters, and at the end where the limit
/// goes past them; returns the index where the rest begins.
fn push_between(
    builder: &mut SmolStrBuilder,
    text: &str,
    to: &str,
    count: usize,
) -> Result<usize, AllocError>
    requires { builder.old ≡ empty_builder InBuffer }
    ensures ok { IfOk result (λ index.
        IsReplacing (chars text.now) [] (chars to.now) count 0 builder.new index) }
    ensures refused { OnErr result
        (¬ (IsShort (replaced (chars text.now) [] (chars to.now) count))) }
{
    let mut index = 0;
    for passed in 0..count {
        builder.push_str(to)?;
        let Some(character) = text[index..].chars().next() else {
            return Ok(index);
        };
        // Before the push, where the compiler knows of most characters that they have one byte.
        index += character.len_utf8();
        builder.push(character)?;
    }
    Ok(index)
}

/// Appends the text before each of the first `count` matches, and the new text; returns the
/// index where the rest begins.
fn push_matches(
    builder: &mut SmolStrBuilder,
    text: &str,
    needle: &Needle<'_>,
    to: &str,
    count: usize,
) -> Result<usize, AllocError>
    requires sound { IsSoundNeedle needle.now }
    requires empty { builder.old ≡ empty_builder InBuffer }
    ensures ok { IfOk result (λ index.
        IsReplacing (chars text.now) (chars (needle_bytes needle.now)) (chars to.now) count 0 builder.new index) }
    ensures refused { OnErr result
        (¬ (IsShort (replaced (chars text.now) (chars (needle_bytes needle.now)) (chars to.now) count))) }
{
    let mut index = 0;
    for taken in 0..count {
        let Some(skipped) = needle.find(bytes_from(text, index)) else {
            return Ok(index);
        };
        let found = index + skipped;
        builder.push_str_heap_first(&text[index..found])?;
        builder.push_str_heap_first(to)?;
        index = found + needle.len();
    }
    Ok(index)
}

/// By how much the text grows. It is counted for a pattern of one byte, and for the empty one, which is taken to match once
/// more than the text has bytes; else a guess: by one match and a short text more.
fn growth(text: &str, from: &str, to: &str, count: usize) -> usize {
    if to.len() <= from.len() {
        return 0;
    }
    let matches = if from.is_empty() {
        text.len().saturating_add(1)
    } else if from.len() == 1 && text.len() >= SEARCH_LANES {
        count_byte(from.as_bytes()[0], text.as_bytes())
    } else {
        return (to.len() - from.len()).saturating_add(INLINE_CAP);
    };
    matches.min(count).saturating_mul(to.len() - from.len())
}
