//! Lower case by the context of a capital sigma: `Σ` at the end of a word becomes `ς`.
ghost use Rattle.std.specs.Prelude.{◌≡◌, ◌+◌, ℕ, List, [], ◌∷◌, ◌++◌, None, true, false, IfSome, OnOk, OnErr};
ghost use Rattle.std.specs.Char.Unicode.Cased.{is_cased};
ghost use Rattle.std.specs.Char.Unicode.CaseIgnorable.{is_case_ignorable};
ghost use Rattle.std.specs.Str.{chars};
ghost use Rattle.std.specs.StrCase.Lower.{starts_with_cased, lowercase_before};
ghost use Rattle.smol_str.specs.Text.{size};
ghost use Rattle.smol_str.specs.BuilderState.{InBuffer, OnHeap, empty_builder, appended};
ghost use Rattle.smol_str.specs.Case.{lowercased};
ghost use Rattle.smol_str.specs.CaseParts.{word_after, IsLowered, IsLowering};
ghost use Rattle.smol_str.specs.Cut.{IsNextMatch};

use super::case_ranges::{is_cased_letter, letter_of};
use super::mapped::{push_mapped, push_mapped_character};
use crate::builder::SmolStrBuilder;
use crate::kernel::{AsciiCase, next_match};
use std::alloc::AllocError;

/// Appends a long text from an index on in lower case, where the builder has what comes before it. Only a capital sigma needs its
/// context, so each segment between two is appended by parts.
pub(super) fn push_lowercase_by_segment(
    builder: &mut SmolStrBuilder,
    text: &str,
    from: usize,
) -> Result<(), AllocError>
    requires { IsLowering (chars text.now) builder.old from }
    ensures ok { OnOk result (builder.new ≡ appended (empty_builder InBuffer) (lowercased (chars text.now))) }
    ensures refused { OnErr result
        ((appended (empty_builder InBuffer) (lowercased (chars text.now))).kind ≡ OnHeap) }
{
    let mut from = from;
    while let Some(sigma) = next_match(text, from, "Σ") {
        push_segment(builder, text, from, sigma)?;
        from = sigma + 2;
    }
    push_mapped(builder, &text[from..], AsciiCase::Lower)
}

/// Appends the text between two indexes in lower case, and the capital sigma that is the first at the second.
fn push_segment(
    builder: &mut SmolStrBuilder,
    text: &str,
    from: usize,
    sigma: usize,
) -> Result<(), AllocError>
    requires so_far { IsLowering (chars text.now) builder.old from }
    requires next { (a b : List ℕ) → chars text.now ≡ a ++ b → size a ≡ from → IsNextMatch a b (0x3A3 ∷ []) sigma }
    ensures ok { OnOk result (IsLowering (chars text.now) builder.new (sigma + 2)) }
    ensures refused { OnErr result
        ((appended (empty_builder InBuffer) (lowercased (chars text.now))).kind ≡ OnHeap) }
{
    push_mapped(builder, &text[from..sigma], AsciiCase::Lower)?;
    push_sigma(builder, &text[..sigma], &text[sigma + 2..])
}

/// Appends a short text from an index on in lower case, where the builder has what comes before it, character by character: a
/// search for capital sigmas would cost more.
///
/// Out of line, so that the loops of long texts in its caller keep their registers.
#[inline(never)]
pub(super) fn push_lowercase_by_character(
    builder: &mut SmolStrBuilder,
    text: &str,
    from: usize,
) -> Result<(), AllocError>
    requires { IsLowering (chars text.now) builder.old from }
    ensures ok { OnOk result (builder.new ≡ appended (empty_builder InBuffer) (lowercased (chars text.now))) }
    ensures refused { OnErr result
        ((appended (empty_builder InBuffer) (lowercased (chars text.now))).kind ≡ OnHeap) }
{
    let mut rest = text[from..].chars();
    while let Some(character) = rest.next() {
        push_in_context(builder, text, character, rest.as_str())?;
    }
    Ok(())
}

/// Appends a character of a text in lower case, where `after` is what follows it.
#[inline(always)]
fn push_in_context(
    builder: &mut SmolStrBuilder,
    text: &str,
    character: char,
    after: &str,
) -> Result<(), AllocError>
    requires { IsLowered (chars text.now) builder.old (character ∷ chars after.now) }
    ensures ok { OnOk result (IsLowered (chars text.now) builder.new (chars after.now)) }
    ensures refused { OnErr result
        ((appended (empty_builder InBuffer) (lowercased (chars text.now))).kind ≡ OnHeap) }
{
    if character == 'Σ' {
        let sigma = text.len() - after.len() - 2;
        return push_sigma(builder, &text[..sigma], after);
    }
    // A short text stays in the buffer, which `push` looks for first.
    if let Some(letter) = letter_of(character, AsciiCase::Lower) {
        return builder.push(letter);
    }
    push_mapped_character(builder, character, AsciiCase::Lower)
}

/// Appends a capital sigma between two texts in lower case.
#[tactic(auto, using(crate::proofs::CaseLemmas::Letters::lowercase_moves))]
fn push_sigma(builder: &mut SmolStrBuilder, before: &str, after: &str) -> Result<(), AllocError>
    ensures ok { OnOk result (builder.new ≡ appended builder.old
        (lowercase_before (word_after false (chars before.now)) 0x3A3 (chars after.now))) }
    ensures refused { OnErr result ((appended builder.old
        (lowercase_before (word_after false (chars before.now)) 0x3A3 (chars after.now))).kind ≡ OnHeap) }
{
    if is_in_word_after(before) && !starts_with_cased(after) {
        builder.push_heap_first('ς')
    } else {
        builder.push_heap_first('σ')
    }
}

/// Whether the first character that case does not ignore is cased.
fn starts_with_cased(text: &str) -> bool
    ensures { result ≡ starts_with_cased (chars text.now) }
{
    for character in text.chars() {
        if let Some(cased) = cased_unless_ignored(character) {
            return cased;
        }
    }
    false
}

/// Whether a word goes on after a text: the last character that case does not ignore decides.
fn is_in_word_after(text: &str) -> bool
    ensures { result ≡ word_after false (chars text.now) }
{
    let mut rest = text.chars();
    while let Some(character) = rest.next_back() {
        if let Some(cased) = cased_unless_ignored(character) {
            return cased;
        }
    }
    false
}

/// Whether a character is cased; `None` where case ignores it.
#[inline(always)]
fn cased_unless_ignored(character: char) -> Option<bool>
    ensures counts { IfSome result (λ cased. is_case_ignorable character ≡ false) }
    ensures cased { IfSome result (λ cased. cased ≡ is_cased character) }
    ensures ignored { result ≡ None → is_case_ignorable character ≡ true }
{
    if is_cased_letter(character) {
        return Some(true);
    }
    if character.is_case_ignorable() {
        return None;
    }
    Some(character.is_cased_not_ignorable())
}
