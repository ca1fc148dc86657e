//! Callers that collect texts from iterators whose items they know, through adapters of std too.
#![tactic(auto)]

ghost use Rattle.std.specs.Prelude.{◌≡◌, ◌<◌, ◌==◌, ◌++◌, ◌∷◌, [], ℕ, String, drop, length, map, not, reverse, take, IfOk, OnOk, OnErr, List, None, Some, if◌then◌else◌, chars};
ghost use Rattle.std.specs.List.{filter, filter_map, prefix_len, slice_split};
ghost use Rattle.std.specs.Str.Lines.{lines};
ghost use Rattle.smol_str.specs.Text.{IsShort};
ghost use Rattle.smol_str.specs.Meaning.{AreValuesOf, IsValueOf, texts};
ghost use Rattle.smol_str.specs.BuilderState.{OnHeap, appended};
ghost use Rattle.smol_str.specs.Joined.{joined, str_text, string_text};
ghost use Rattle.smol_str.specs.Case.{upper};
ghost use Rattle.smol_str.specs.Replace.{replaced_all};
ghost use Rattle.std.specs.Iterator.{Drains, IsFinite};
ghost use Rattle.smol_str.specs.Collect.{Outgrown, StoppedAt};

use smol_str::{SmolStr, SmolStrBuilder, ValueAlloc};
use std::alloc::{AllocError, Global};

/// The characters of two texts.
#[tactic(auto, using(smol_str::proofs::CallerLemmas::collecting_chars))]
pub fn of_both(alloc: Global, first: &str, second: &str) -> Result<SmolStr, AllocError>
    ensures value { IfOk result (λ v. IsValueOf (chars first.now ++ chars second.now) v) }
    ensures refused { OnErr result (¬ (IsShort (chars first.now ++ chars second.now))) }
{
    SmolStr::from_chars(alloc, first.chars().chain(second.chars()))
}

/// A text without one character.
#[tactic(auto, using(smol_str::proofs::CallerLemmas::collecting_chars))]
pub fn without(alloc: Global, text: &str, left_out: char) -> Result<SmolStr, AllocError>
    ensures value { IfOk result (λ v. IsValueOf (filter (λ c. not (c == left_out)) (chars text.now)) v) }
    ensures refused { OnErr result (¬ (IsShort (filter (λ c. not (c == left_out)) (chars text.now)))) }
{
    SmolStr::from_chars(alloc, text.chars().filter(|c| *c != left_out))
}

/// A text without its underscores.
#[tactic(auto, using(smol_str::proofs::CallerLemmas::collecting_chars))]
pub fn squeezed(alloc: Global, text: &str) -> Result<SmolStr, AllocError>
    ensures { IfOk result (λ v. IsValueOf (filter_map (λ c. if c == 95 then None else Some c) (chars text.now)) v) }
{
    SmolStr::from_chars(alloc, text.chars().filter_map(|c| (c != '_').then_some(c)))
}

/// A text in upper case of ASCII.
#[tactic(auto, using(smol_str::proofs::CallerLemmas::collecting_chars))]
pub fn in_capitals(alloc: Global, text: &str) -> Result<SmolStr, AllocError>
    ensures value { IfOk result (λ v. IsValueOf (upper (chars text.now)) v) }
    ensures refused { OnErr result (¬ (IsShort (upper (chars text.now)))) }
{
    SmolStr::from_chars(alloc, text.chars().map(|c| c.to_ascii_uppercase()))
}

/// The first three characters of a text.
#[tactic(auto, using(smol_str::proofs::CallerLemmas::collecting_chars))]
pub fn first_three(alloc: Global, text: &str) -> Result<SmolStr, AllocError>
    ensures value { IfOk result (λ v. IsValueOf (take 3 (chars text.now)) v) }
    ensures refused { OnErr result (¬ (IsShort (take 3 (chars text.now)))) }
{
    SmolStr::from_chars(alloc, text.chars().take(3))
}

/// A text without its first character.
#[tactic(auto, using(smol_str::proofs::CallerLemmas::collecting_chars))]
pub fn past_sign(alloc: Global, text: &str) -> Result<SmolStr, AllocError>
    ensures value { IfOk result (λ v. IsValueOf (drop 1 (chars text.now)) v) }
    ensures refused { OnErr result (¬ (IsShort (drop 1 (chars text.now)))) }
{
    SmolStr::from_chars(alloc, text.chars().skip(1))
}

/// A text up to its first comma.
#[tactic(auto, using(smol_str::proofs::CallerLemmas::collecting_chars))]
pub fn up_to_comma(alloc: Global, text: &str) -> Result<SmolStr, AllocError>
    ensures value { IfOk result (λ v. IsValueOf (take (prefix_len (λ c. not (c == 44)) (chars text.now)) (chars text.now)) v) }
    ensures refused { OnErr result (¬ (IsShort (take (prefix_len (λ c. not (c == 44)) (chars text.now)) (chars text.now)))) }
{
    SmolStr::from_chars(alloc, text.chars().take_while(|c| *c != ','))
}

/// A text without the spaces in front.
#[tactic(auto, using(smol_str::proofs::CallerLemmas::collecting_chars))]
pub fn past_spaces(alloc: Global, text: &str) -> Result<SmolStr, AllocError>
    ensures value { IfOk result (λ v. IsValueOf (drop (prefix_len (λ c. c == 32) (chars text.now)) (chars text.now)) v) }
    ensures refused { OnErr result (¬ (IsShort (drop (prefix_len (λ c. c == 32) (chars text.now)) (chars text.now)))) }
{
    SmolStr::from_chars(alloc, text.chars().skip_while(|c| *c == ' '))
}

/// The characters of all words.
#[tactic(auto, using(smol_str::proofs::CallerLemmas::collecting_chars))]
pub fn letters_of(alloc: Global, words: &[&str]) -> Result<SmolStr, AllocError>
    ensures value { IfOk result (λ v. IsValueOf (joined str_text words.now) v) }
    ensures refused { OnErr result (¬ (IsShort (joined str_text words.now))) }
{
    SmolStr::from_chars(alloc, words.iter().flat_map(|word| word.chars()))
}

/// Two characters.
#[tactic(auto, using(smol_str::proofs::CallerLemmas::collecting_chars))]
pub fn of_two_chars(alloc: Global, first: char, second: char) -> Result<SmolStr, AllocError>
    ensures value { IfOk result (λ v. IsValueOf (first ∷ second ∷ []) v) }
    ensures refused { OnErr result (¬ (IsShort (first ∷ second ∷ []))) }
{
    SmolStr::from_chars(alloc, [first, second].into_iter())
}

/// The texts of values.
#[tactic(auto, using(smol_str::proofs::CallerLemmas::collecting_strs))]
pub fn of_values(alloc: Global, values: &[SmolStr]) -> Result<SmolStr, AllocError>
    ensures value { IfOk result (λ v. IsValueOf (joined (λ value. value.text) values.now) v) }
    ensures refused { OnErr result (¬ (IsShort (joined (λ value. value.text) values.now))) }
{
    SmolStr::from_strs(alloc, values.iter().map(|value| value.as_str()))
}

/// A value of each word.
#[tactic(auto, using(smol_str::proofs::CallerLemmas::by_item))]
pub fn of_words(alloc: Global, words: &[&str]) -> Result<Vec<SmolStr>, AllocError>
    ensures { IfOk result (λ values. AreValuesOf (map str_text words.now) values.items) }
{
    words
        .iter()
        .map(|word| SmolStr::new(alloc, word))
        .try_collect(alloc)
}

/// The texts of a list from the last to the first.
#[tactic(auto, using(smol_str::proofs::CallerLemmas::collecting_strs))]
pub fn of_parts_reversed(alloc: Global, parts: &[&str]) -> Result<SmolStr, AllocError>
    ensures value { IfOk result (λ v. IsValueOf (joined str_text (reverse parts.now)) v) }
    ensures refused { OnErr result (¬ (IsShort (joined str_text (reverse parts.now)))) }
{
    SmolStr::from_strs(alloc, parts.iter().copied().rev())
}

/// Two texts.
#[tactic(auto, using(smol_str::proofs::CallerLemmas::collecting_strs), unfolding(smol_str::specs::Collect::Collected))]
pub fn of_pair(alloc: Global, first: &str, second: &str) -> Result<SmolStr, AllocError>
    ensures value { IfOk result (λ v. IsValueOf (chars first.now ++ chars second.now) v) }
    ensures refused { OnErr result (¬ (IsShort (chars first.now ++ chars second.now))) }
{
    SmolStr::from_strs(alloc, [first, second].into_iter())
}

/// A text without its line ends.
#[tactic(auto, using(smol_str::proofs::CallerLemmas::collecting_strs))]
pub fn in_one_line(alloc: Global, text: &str) -> Result<SmolStr, AllocError>
    ensures value { IfOk result (λ v. IsValueOf (joined chars (lines text.now)) v) }
    ensures refused { OnErr result (¬ (IsShort (joined chars (lines text.now)))) }
{
    SmolStr::from_strs(alloc, text.lines())
}

/// A text without each match of another, which is not empty.
#[tactic(auto, using(smol_str::proofs::CallerLemmas::collecting_pieces))]
pub fn without_text(alloc: Global, text: &str, left_out: &str) -> Result<SmolStr, AllocError>
    requires some { 0 < length left_out.now }
    ensures value { IfOk result (λ v. IsValueOf (replaced_all (chars text.now) (chars left_out.now) []) v) }
    ensures refused { OnErr result (¬ (IsShort (replaced_all (chars text.now) (chars left_out.now) []))) }
{
    SmolStr::from_strs(alloc, text.split(left_out))
}

/// The texts of `String`s that are handed over.
#[tactic(auto, using(smol_str::proofs::CallerLemmas::collecting_strings))]
pub fn all_of(alloc: Global, texts: Vec<String>) -> Result<SmolStr, AllocError>
    ensures value { IfOk result (λ v. IsValueOf (joined string_text texts.items) v) }
    ensures refused { OnErr result (¬ (IsShort (joined string_text texts.items))) }
{
    SmolStr::from_strings(alloc, texts.into_iter())
}

/// A builder, and the characters of a text after it; after a refusal those before the refused one.
#[tactic(auto, using(smol_str::proofs::CallerLemmas::collecting_chars))]
pub fn push_chars(builder: &mut SmolStrBuilder, text: &str) -> Result<(), AllocError>
    ensures ok { OnOk result (builder.new ≡ appended builder.old (chars text.now)) }
    ensures refused { OnErr result ((appended builder.old (chars text.now)).kind ≡ OnHeap) }
    ensures front { OnErr result ((n : ℕ) × (n < length (chars text.now))
        × (builder.new ≡ appended builder.old (take n (chars text.now)))) }
{
    builder.extend_chars(text.chars())
}

/// A builder, and the texts of `String`s after it.
#[tactic(auto, using(smol_str::proofs::CallerLemmas::collecting_strings))]
pub fn push_strings(builder: &mut SmolStrBuilder, texts: &[String]) -> Result<(), AllocError>
    ensures ok { OnOk result (builder.new ≡ appended builder.old (joined string_text texts.now)) }
    ensures refused { OnErr result ((appended builder.old (joined string_text texts.now)).kind ≡ OnHeap) }
{
    builder.extend_strings(texts.iter())
}

/// A builder, and the texts of values after it.
#[tactic(auto, using(smol_str::proofs::CallerLemmas::collecting_strs))]
pub fn push_values(builder: &mut SmolStrBuilder, values: &[SmolStr]) -> Result<(), AllocError>
    ensures ok { OnOk result (builder.new ≡ appended builder.old (joined (λ value. value.text) values.now)) }
    ensures refused { OnErr result ((appended builder.old (joined (λ value. value.text) values.now)).kind ≡ OnHeap) }
{
    builder.extend_strs(values.iter().map(|value| value.as_str()))
}

/// A builder, and a text without its commas after it.
#[tactic(auto, using(smol_str::proofs::CallerLemmas::collecting_strs))]
pub fn push_without_commas(builder: &mut SmolStrBuilder, text: &str) -> Result<(), AllocError>
    ensures ok { OnOk result
        (builder.new ≡ appended builder.old (joined chars (slice_split (λ b. b == 44) text.now))) }
    ensures refused { OnErr result
        ((appended builder.old (joined chars (slice_split (λ b. b == 44) text.now))).kind ≡ OnHeap) }
{
    builder.extend_strs(text.split(','))
}

/// Two texts, by a builder: a generic caller.
pub fn of_two<A: ValueAlloc>(alloc: A, first: &str, second: &str) -> Result<A::Value, AllocError>
    ensures value { IfOk result (λ v. IsValueOf (chars first.now ++ chars second.now) (A.meaning v)) }
{
    let mut builder = alloc.builder();
    builder.push_str(first)?;
    builder.push_str(second)?;
    A::value_of(builder)
}

/// A text from its last character to its first.
#[tactic(auto, using(smol_str::proofs::CallerLemmas::chars_by_std))]
pub fn collect_reversed(alloc: Global, text: &str) -> Result<SmolStr, AllocError>
    ensures { IfOk result (λ v. IsValueOf (reverse (chars text.now)) v) }
{
    text.chars().rev().collect(alloc)
}

/// The texts of `String`s, which are handed over.
#[tactic(auto, using(smol_str::proofs::CallerLemmas::collecting_strings))]
pub fn collect_owned(alloc: Global, texts: Vec<String>) -> Result<SmolStr, AllocError>
    ensures { IfOk result (λ v. IsValueOf (joined string_text texts.items) v) }
{
    texts.into_iter().collect(alloc)
}

/// The texts of `String`s, which are lent.
#[tactic(auto, using(smol_str::proofs::CallerLemmas::collecting_strings))]
pub fn collect_lent(alloc: Global, texts: &[String]) -> Result<SmolStr, AllocError>
    ensures { IfOk result (λ v. IsValueOf (joined string_text texts.now) v) }
{
    texts.iter().collect(alloc)
}

/// A builder, and the characters of a text after it.
#[tactic(auto, using(smol_str::proofs::CallerLemmas::chars_by_std))]
pub fn extend_by_chars(builder: &mut SmolStrBuilder, text: &str) -> Result<(), AllocError>
    ensures { OnOk result (builder.new ≡ appended builder.old (chars text.now)) }
{
    builder.extend(text.chars())
}

/// A builder, and the texts of `String`s after it.
#[tactic(auto, using(smol_str::proofs::CallerLemmas::strings_by_std))]
pub fn extend_by_strings(builder: &mut SmolStrBuilder, texts: &[String]) -> Result<(), AllocError>
    ensures { OnOk result (builder.new ≡ appended builder.old (joined string_text texts.now)) }
{
    builder.extend(texts.iter())
}

/// The characters of whatever is iterated over, by the trait's own call, which also says when memory may be refused.
pub fn collect_characters<U: IntoIterator<Item = char>>(
    alloc: Global,
    characters: U,
) -> Result<SmolStr, AllocError>
    requires can { (it : U.IntoIter) → U.into_iter_gives characters it → U.IntoIter.can_next it }
    requires ends { (it : U.IntoIter) → U.into_iter_gives characters it → IsFinite (U.IntoIter.remaining it) }
    ensures value { IfOk result (λ v. (it : U.IntoIter) × (all : List ℕ) × U.into_iter_gives characters it
        × Drains U.IntoIter.next_gives it all × IsValueOf all v) }
    ensures refused { OnErr result ((it : U.IntoIter) × U.into_iter_gives characters it
        × Outgrown (λ items. items) U.IntoIter.next_gives it) }
{
    SmolStr::from_iter(alloc, characters)
}

/// A builder, and such characters after it; a refusal keeps those before the refused one.
pub fn extend_by_characters<U: IntoIterator<Item = char>>(
    builder: &mut SmolStrBuilder,
    characters: U,
) -> Result<(), AllocError>
    requires can { (it : U.IntoIter) → U.into_iter_gives characters it → U.IntoIter.can_next it }
    requires ends { (it : U.IntoIter) → U.into_iter_gives characters it → IsFinite (U.IntoIter.remaining it) }
    ensures stopped { OnErr result ((it : U.IntoIter) × U.into_iter_gives characters it
        × StoppedAt (λ items. items) U.IntoIter.next_gives it builder.old builder.new) }
{
    builder.extend(characters)
}

/// The texts of all `String`s but the first, as of a program's arguments.
#[tactic(auto, using(smol_str::proofs::CallerLemmas::collecting_strings))]
pub fn past_first(alloc: Global, texts: &[String]) -> Result<SmolStr, AllocError>
    ensures { IfOk result (λ v. IsValueOf (joined string_text (drop 1 texts.now)) v) }
{
    SmolStr::from_string_refs(alloc, texts.iter().skip(1))
}
