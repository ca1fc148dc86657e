//! Texts with a separator between each two.
ghost use Rattle.std.specs.Prelude.{◌≡◌, ◌≤◌, [], ◌++◌, map, IfSome, IfOk, OnOk, OnErr};
ghost use Rattle.std.specs.List.{flat_map};
ghost use Rattle.std.specs.Str.{chars, IsUtf8};
ghost use Rattle.std.specs.String.{string_bytes};
ghost use Rattle.smol_str.specs.Text.{size, IsShort};
ghost use Rattle.smol_str.specs.Cut.{joined_by};
ghost use Rattle.smol_str.specs.BuilderState.{OnHeap, appended};
ghost use Rattle.smol_str.specs.Meaning.{IsValueOf};

use super::Piece;
use crate::buffer::INLINE_CAP;
use crate::builder::SmolStrBuilder;
use crate::value::SmolStr;
use std::alloc::{AllocError, Global};

impl SmolStr {
    /// A value of the texts, with the separator between each two, as std's `join` of a slice.
    ///
    /// ```
    /// let line = SmolStr::join(alloc, &["id", "name", "city"], ",")?;
    /// assert_eq!(rt; line.as_str(), "id,name,city");
    /// ```
    #[inline(always)]
    pub fn join<P: Piece>(
        alloc: Global,
        pieces: &[P],
        separator: &str,
    ) -> Result<SmolStr, AllocError>
        ensures ok { IfOk result (λ v. IsValueOf (joined_by (chars separator.now) (map P.text pieces.now)) v) }
        ensures refused { OnErr result (¬ (IsShort (joined_by (chars separator.now) (map P.text pieces.now)))) }
    {
        let Some((first, others)) = pieces.split_first() else {
            return SmolStrBuilder::new(alloc).into_value();
        };
        // Memory for the whole text, in one request. There is none where the text may fit in the buffer.
        let room = min_len(first, separator, others);
        // The length of a builder's text lies in memory: each append would wait for the one before.
        if room > INLINE_CAP {
            if let Some(text) = join_lent(alloc, first, separator, others, room)? {
                return SmolStr::from_owned(text);
            }
        }
        join_appended(alloc, first, separator, others, room)
    }
}

/// A number of bytes that a text and others, each behind the separator, have at least.
#[inline(always)]
fn min_len<P: Piece>(first: &P, separator: &str, others: &[P]) -> usize
    ensures { result ≤ size (P.text first.now
        ++ flat_map (λ piece. chars separator.now ++ P.text piece) others.now) }
{
    let mut len = first.lent().unwrap_or("").len();
    for piece in others {
        let next = piece.lent().unwrap_or("");
        // A sum that wraps is still no more than the length.
        len = len.wrapping_add(separator.len()).wrapping_add(next.len());
    }
    len
}

/// The value of a text and others, each behind the separator, by a builder with room for so many bytes.
fn join_appended<P: Piece>(
    alloc: Global,
    first: &P,
    separator: &str,
    others: &[P],
    room: usize,
) -> Result<SmolStr, AllocError>
    requires { room ≤ size (P.text first.now
        ++ flat_map (λ piece. chars separator.now ++ P.text piece) others.now) }
    ensures ok { IfOk result (λ v. IsValueOf (P.text first.now
        ++ flat_map (λ piece. chars separator.now ++ P.text piece) others.now) v) }
    ensures refused { OnErr result (¬ (IsShort (P.text first.now
        ++ flat_map (λ piece. chars separator.now ++ P.text piece) others.now))) }
{
    let mut builder = SmolStrBuilder::with_capacity(alloc, room)?;
    first.append_to(&mut builder)?;
    append_others(&mut builder, separator, others)?;
    builder.into_value()
}

/// Appends the texts, each behind the separator.
#[tactic(auto, using(crate::proofs::BuilderLemmas::Join::appends))]
fn append_others<P: Piece>(
    builder: &mut SmolStrBuilder,
    separator: &str,
    others: &[P],
) -> Result<(), AllocError>
    ensures ok { OnOk result (builder.new ≡ appended builder.old
        (flat_map (λ piece. chars separator.now ++ P.text piece) others.now)) }
    ensures refused { OnErr result ((appended builder.old
        (flat_map (λ piece. chars separator.now ++ P.text piece) others.now)).kind ≡ OnHeap) }
{
    builder.short_in_buffer();
    for piece in others {
        builder.push_str_heap_first(separator)?;
        piece.append_to(builder)?;
    }
    Ok(())
}

/// The texts in memory of `len` bytes, if each piece lends its own and all of them have room. Out of line, so that a short
/// join is small.
#[inline(never)]
fn join_lent<P: Piece>(
    alloc: Global,
    first: &P,
    separator: &str,
    others: &[P],
    len: usize,
) -> Result<Option<String>, AllocError>
    ensures { IfOk result (λ joined. IfSome joined (λ text. chars (string_bytes text)
        ≡ P.text first.now ++ flat_map (λ piece. chars separator.now ++ P.text piece) others.now)) }
{
    let Some(begin) = first.lent() else {
        return Ok(None);
    };
    let mut bytes = Vec::with_capacity(alloc, len)?;
    match push_lent(&mut bytes, begin, separator, others) {
        Some(()) => Ok(Some(unsafe { String::from_utf8_unchecked(bytes) })),
        None => Ok(None),
    }
}

/// Appends a text and others, each behind the separator; `None` if one is not lent or has no room.
#[inline(always)]
fn push_lent<P: Piece>(
    bytes: &mut Vec<u8>,
    first: &str,
    separator: &str,
    others: &[P],
) -> Option<()>
    requires { bytes.old.items ≡ [] }
    ensures utf8 { IfSome result (λ _. IsUtf8 bytes.new.items) }
    ensures text { IfSome result (λ _. chars bytes.new.items
        ≡ chars first.now ++ flat_map (λ piece. chars separator.now ++ P.text piece) others.now) }
{
    push_in_room(bytes, first)?;
    for piece in others {
        push_separator(bytes, separator)?;
        push_in_room(bytes, piece.lent()?)?;
    }
    Some(())
}

/// Appends a separator; `None` if it has no room. Of one byte it is a store, where `extend_from_slice` would call `memmove`.
#[inline(always)]
fn push_separator(bytes: &mut Vec<u8>, separator: &str) -> Option<()>
    ensures { IfSome result (λ _. bytes.new.items ≡ bytes.old.items ++ separator.now) }
{
    match separator.as_bytes() {
        [] => Some(()),
        [byte] if bytes.len() < bytes.capacity() => {
            bytes.push_reserved(*byte);
            Some(())
        }
        _ => push_in_room(bytes, separator),
    }
}

/// Appends a text; `None` if it has no room. Nothing here needs more memory, so the length stays in a register.
#[inline(always)]
fn push_in_room(bytes: &mut Vec<u8>, text: &str) -> Option<()>
    ensures { IfSome result (λ _. bytes.new.items ≡ bytes.old.items ++ text.now) }
{
    if text.len() > bytes.capacity() - bytes.len() {
        return None;
    }
    bytes.extend_from_slice(text.as_bytes()).ok()
}
