//! Full case. The ASCII front of a text takes ASCII case. Behind it, `mapped` does upper case, and `sigma` lower case, where a
//! capital sigma is mapped by its context.
ghost use Rattle.std.specs.Prelude.{◌≡◌, ◌<◌, [], ◌∷◌, length, take, IfOk, OnOk, OnErr};
ghost use Rattle.std.specs.Str.{chars};
ghost use Rattle.smol_str.specs.Text.{IsShort};
ghost use Rattle.smol_str.specs.Meaning.{IsValueOf};
ghost use Rattle.smol_str.specs.BuilderState.{InBuffer, OnHeap, empty_builder, appended};
ghost use Rattle.smol_str.specs.Case.{full_case, mapped, IsAsciiFront};

use super::ascii_case::to_ascii_case;
use super::mapped::push_mapped;
use super::sigma::{push_lowercase_by_character, push_lowercase_by_segment};
use crate::buffer::{INLINE_CAP, InlineText};
use crate::builder::SmolStrBuilder;
use crate::bytes::ascii::{convert_all, front_len};
use crate::kernel::AsciiCase;
use crate::value::SmolStr;
use std::alloc::{AllocError, Global};

/// The text in a case, as Unicode maps it.
#[inline(always)]
#[tactic(auto, using(crate::proofs::CaseLemmas::Full::short_texts))]
pub(super) fn to_full_case(
    alloc: Global,
    text: &str,
    case: AsciiCase,
) -> Result<SmolStr, AllocError>
    ensures ok { IfOk result (λ v. IsValueOf (full_case case (chars text.now)) v) }
    ensures refused { OnErr result (¬ (IsShort (full_case case (chars text.now)))) }
{
    if text.len() <= INLINE_CAP {
        let short = InlineText::from_short(text);
        if short.is_ascii() {
            return Ok(SmolStr::from_inline(short.in_case(case)));
        }
    }
    any_full_case(alloc, text, case)
}

/// Any text in a case. Slow path, kept out of line so that the fast path inlines.
#[inline(never)]
#[tactic(auto, using(crate::proofs::CaseLemmas::Full::any_texts))]
fn any_full_case(alloc: Global, text: &str, case: AsciiCase) -> Result<SmolStr, AllocError>
    ensures ok { IfOk result (λ v. IsValueOf (full_case case (chars text.now)) v) }
    ensures refused { OnErr result (¬ (IsShort (full_case case (chars text.now)))) }
{
    let len = front_len(text.as_bytes());
    if len == text.len() {
        return to_ascii_case(alloc, text, case);
    }
    let mut builder = front_in_case(alloc, text, len, case)?;
    push_rest(&mut builder, text, len, case)?;
    builder.into_value()
}

/// A builder of the first `len` bytes of a text, which are ASCII, in a case. It expects the rest to be as long.
#[inline(always)]
fn front_in_case(
    alloc: Global,
    text: &str,
    len: usize,
    case: AsciiCase,
) -> Result<SmolStrBuilder, AllocError>
    requires { IsAsciiFront text.now len }
    ensures ok { IfOk result (λ builder.
        builder ≡ appended (empty_builder InBuffer) (mapped case (take len text.now))) }
    ensures refused { OnErr result
        ((appended (empty_builder InBuffer) (mapped case (take len text.now))).kind ≡ OnHeap) }
{
    if len == 0 {
        return Ok(SmolStrBuilder::expecting(alloc, text.len()));
    }
    let front = &text[..len];
    if len <= INLINE_CAP {
        let short = InlineText::from_short(front).in_case(case);
        return Ok(SmolStrBuilder::from_short(alloc, short, text.len()));
    }
    let mut bytes = Vec::with_capacity(alloc, text.len())?;
    bytes.extend_from_slice(front.as_bytes())?;
    convert_all(&mut bytes, case);
    Ok(SmolStrBuilder::from_long(alloc, unsafe { String::from_utf8_unchecked(bytes) }))
}

/// Appends the text behind its ASCII front, which the builder has already, in a case.
#[inline(always)]
fn push_rest(
    builder: &mut SmolStrBuilder,
    text: &str,
    from: usize,
    case: AsciiCase,
) -> Result<(), AllocError>
    requires ascii { IsAsciiFront text.now from }
    requires front { builder.old ≡ appended (empty_builder InBuffer) (mapped case (take from text.now)) }
    ensures ok { OnOk result (builder.new ≡ appended (empty_builder InBuffer) (full_case case (chars text.now))) }
    ensures refused { OnErr result
        ((appended (empty_builder InBuffer) (full_case case (chars text.now))).kind ≡ OnHeap) }
{
    match case {
        AsciiCase::Lower if text.len() <= INLINE_CAP => {
            push_lowercase_by_character(builder, text, from)
        }
        AsciiCase::Lower => push_lowercase_by_segment(builder, text, from),
        AsciiCase::Upper => push_mapped(builder, &text[from..], case),
    }
}
