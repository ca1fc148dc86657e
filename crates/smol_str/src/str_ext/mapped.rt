//! A text in a case, each character by itself: runs of ASCII by lanes, and any other character by its range, or by std.
ghost use Rattle.std.specs.Prelude.{◌≡◌, ◌<◌, [], ◌∷◌, length, IfOk, OnOk, OnErr};
ghost use Rattle.std.specs.Str.{chars};
ghost use Rattle.smol_str.specs.BuilderState.{InBuffer, OnHeap, empty_builder, appended};
ghost use Rattle.smol_str.specs.Case.{mapped, IsAsciiFront};
ghost use Rattle.smol_str.specs.CaseParts.{IsPartOf};

use super::case_ranges::letter_of;
use crate::builder::SmolStrBuilder;
use crate::bytes::ascii::{begins_ascii, convert_all};
use crate::kernel::AsciiCase;
use std::alloc::AllocError;

/// Appends what each character of a text is mapped to.
pub(super) fn push_mapped(
    builder: &mut SmolStrBuilder,
    text: &str,
    case: AsciiCase,
) -> Result<(), AllocError>
    requires { builder.old ≡ appended (empty_builder InBuffer) builder.old.text }
    ensures ok { OnOk result (builder.new ≡ appended builder.old (mapped case (chars text.now))) }
    ensures refused { OnErr result
        ((appended builder.old (mapped case (chars text.now))).kind ≡ OnHeap) }
{
    let mut rest = text;
    while !rest.is_empty() {
        rest = push_part(builder, rest, case)?;
    }
    Ok(())
}

/// Appends what the first part of a text is mapped to: 64 or 16 bytes of ASCII, or one character. Returns the rest.
#[inline(always)]
fn push_part<'a>(
    builder: &mut SmolStrBuilder,
    text: &'a str,
    case: AsciiCase,
) -> Result<&'a str, AllocError>
    requires some { 0 < length text.now }
    requires new { builder.old ≡ appended (empty_builder InBuffer) builder.old.text }
    ensures ok { IfOk result (λ rest. IsPartOf case builder.old builder.new (chars text.now) (chars rest.now)) }
    ensures shorter { IfOk result (λ rest. length rest.now < length text.now) }
    ensures refused { OnErr result
        ((appended builder.old (mapped case (chars text.now))).kind ≡ OnHeap) }
{
    if begins_ascii::<16>(text.as_bytes()) {
        if begins_ascii::<64>(text.as_bytes()) {
            return push_ascii::<64>(builder, text, case);
        }
        return push_ascii::<16>(builder, text, case);
    }
    let mut characters = text.chars();
    let Some(character) = characters.next() else {
        return Ok(text);
    };
    push_mapped_character(builder, character, case)?;
    Ok(characters.as_str())
}

/// Appends the first `N` bytes of a text, which are ASCII, in a case. Returns the rest.
#[inline(always)]
fn push_ascii<'a, const N: usize>(
    builder: &mut SmolStrBuilder,
    text: &'a str,
    case: AsciiCase,
) -> Result<&'a str, AllocError>
    requires some { 0 < N }
    requires ascii { IsAsciiFront text.now N }
    ensures ok { IfOk result (λ rest. IsPartOf case builder.old builder.new (chars text.now) (chars rest.now)) }
    ensures shorter { IfOk result (λ rest. length rest.now < length text.now) }
    ensures refused { OnErr result
        ((appended builder.old (mapped case (chars text.now))).kind ≡ OnHeap) }
{
    let (first, rest) = text.split_at(N);
    let mut part = [0; N];
    part.copy_from_slice(first.as_bytes());
    convert_all(&mut part, case);
    builder.push_str_heap_first(unsafe { str::from_utf8_unchecked(&part) })?;
    Ok(rest)
}

/// Appends what one character is mapped to: at most three letters.
#[inline(always)]
#[tactic(auto, using(crate::proofs::CaseLemmas::Full::letters_appended))]
pub(super) fn push_mapped_character(
    builder: &mut SmolStrBuilder,
    character: char,
    case: AsciiCase,
) -> Result<(), AllocError>
    requires { builder.old ≡ appended (empty_builder InBuffer) builder.old.text }
    ensures ok { OnOk result (builder.new ≡ appended builder.old (mapped case (character ∷ []))) }
    ensures refused { OnErr result
        ((appended builder.old (mapped case (character ∷ []))).kind ≡ OnHeap) }
{
    if let Some(letter) = letter_of(character, case) {
        return builder.push_heap_first(letter);
    }
    let letters = match case {
        AsciiCase::Lower => character.to_lowercase(),
        AsciiCase::Upper if character == 'ß' => return builder.push_str_heap_first("SS"),
        AsciiCase::Upper => character.to_uppercase(),
    };
    for letter in letters {
        builder.push_heap_first(letter)?;
    }
    Ok(())
}
