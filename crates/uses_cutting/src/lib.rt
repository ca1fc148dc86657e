//! Callers that cut lines at a separator and join them again; what a caller does with an index or a buffer that a call returns.
#![tactic(auto)]

ghost use Rattle.std.specs.List.{enumerate_from, filter_map, list_any, prefix_len};
ghost use Rattle.std.specs.Prelude.{get_or, ◌≡◌, ◌≢◌, ◌<◌, ◌≤◌, ◌↔◌, ◌+◌, ◌++◌, ◌∷◌, ◌-◌, [], ℕ, List, codes, drop, length, map, set, take, true, bytes_eq, IfErr, IfNone, IfOk, IfSome, IsTrue, MatchBool, OnErr, encode_utf8_all, String, All, None, Some, ◌==◌, if◌then◌else◌, string_bytes};
ghost use Rattle.std.specs.Str.{IsCharBoundary, chars, skip_leading_whitespace, drop_trailing_whitespace};
ghost use Rattle.std.specs.Str.Lines.{lines};
ghost use Rattle.smol_str.specs.Cut.{IsFirstAfter, Occurs, joined_by};
ghost use Rattle.smol_str.specs.Joined.{str_text};
ghost use Rattle.smol_str.specs.Meaning.{AreValuesOf, IsValueOf, texts, ArePairsOf};
ghost use Rattle.smol_str.specs.Replace.{cut, each_replaced, no_limit};
ghost use Rattle.smol_str.specs.Text.{IsShort, place_of};

pub mod among;

use smol_str::kernel::{AsciiCase, convert_while_ascii, next_match};
use smol_str::{INLINE_CAP, Place, SmolStr, SmolStrBuilder, StrExt};
use std::alloc::{AllocError, Global};

/// The fields of a line, which commas separate.
#[tactic(auto, using(smol_str::proofs::CallerLemmas::cutting))]
pub fn fields(alloc: Global, line: &str) -> Result<Vec<SmolStr>, AllocError>
    ensures { IfOk result (λ fields.
        AreValuesOf (cut (chars line.now) (44 ∷ []) (no_limit (chars line.now))) fields.items) }
{
    line.split(',')
        .map(|field| SmolStr::new(alloc, field))
        .try_collect(alloc)
}

/// The fields of a line, at any separator.
#[tactic(auto, using(smol_str::proofs::CallerLemmas::cutting))]
pub fn values_at(alloc: Global, line: &str, separator: &str) -> Result<Vec<SmolStr>, AllocError>
    requires some { 0 < length separator.now }
    ensures { IfOk result (λ values.
        AreValuesOf (cut (chars line.now) (chars separator.now) (no_limit (chars line.now))) values.items) }
{
    line.split(separator)
        .map(|value| SmolStr::new(alloc, value))
        .try_collect(alloc)
}

/// The segments of a path, in a loop.
#[tactic(auto, using(smol_str::proofs::CallerLemmas::cutting))]
pub fn segments(alloc: Global, path: &str) -> Result<Vec<SmolStr>, AllocError>
    ensures { IfOk result (λ segments.
        AreValuesOf (cut (chars path.now) (chars (codes "::")) (no_limit (chars path.now))) segments.items) }
{
    let mut segments = Vec::new(alloc);
    for segment in path.split("::") {
        segments.push(SmolStr::new(alloc, segment)?)?;
    }
    Ok(segments)
}

/// The line of some fields.
pub fn line_of(alloc: Global, fields: &[SmolStr], separator: &str) -> Result<SmolStr, AllocError>
    ensures value { IfOk result (λ v. IsValueOf (joined_by (chars separator.now) (texts fields.now)) v) }
    ensures refused { OnErr result (¬ (IsShort (joined_by (chars separator.now) (texts fields.now)))) }
{
    SmolStr::join(alloc, fields, separator)
}

/// The line of some `&str`s, with a comma between each two.
#[tactic(auto, using(smol_str::proofs::CallerLemmas::texts))]
pub fn line_of_strs(alloc: Global, fields: &[&str]) -> Result<SmolStr, AllocError>
    ensures value { IfOk result (λ v. IsValueOf (joined_by (44 ∷ []) (map str_text fields.now)) v) }
    ensures refused { OnErr result (¬ (IsShort (joined_by (44 ∷ []) (map str_text fields.now)))) }
{
    SmolStr::join(alloc, fields, ",")
}

/// The line of all fields but the last.
#[tactic(auto, using(smol_str::proofs::CallerLemmas::joining))]
pub fn without_last(alloc: Global, fields: &[SmolStr], between: &str) -> Result<SmolStr, AllocError>
    requires some { 0 < length fields.now }
    ensures { IfOk result (λ v.
        IsValueOf (joined_by (chars between.now) (take (length fields.now - 1) (texts fields.now))) v) }
{
    let last = fields.len() - 1;
    line_of(alloc, &fields[..last], between)
}

/// A line cut into values and joined again: the line.
#[tactic(auto, using(smol_str::proofs::CallerLemmas::joining))]
pub fn again(alloc: Global, line: &str, separator: &str) -> Result<SmolStr, AllocError>
    requires some { 0 < length separator.now }
    ensures { IfOk result (λ v. IsValueOf (chars line.now) v) }
{
    let values = values_at(alloc, line, separator)?;
    line_of(alloc, &values, separator)
}

/// The parts of a line before and after its first equals sign.
#[tactic(auto, using(smol_str::proofs::CallerLemmas::cut_once))]
pub fn key_and_value(line: &str) -> Option<(&str, &str)>
    ensures whole { IfSome result (λ it. chars line.now ≡ chars it.0.now ++ (61 ∷ chars it.1.now)) }
    ensures first { IfSome result (λ it. IsFirstAfter (61 ∷ []) (chars it.0.now)) }
    ensures none { IfNone result (¬ Occurs (61 ∷ []) (chars line.now)) }
{
    line.split_once('=')
}

/// Whether a line begins with a text, whether it is a comment, and whether it names an interpreter.
#[tactic(auto, using(smol_str::proofs::CallerLemmas::cut_once))]
pub fn begins(line: &str, prefix: &str) -> (bool, bool, bool)
    ensures prefix { MatchBool result.0 ((rest : List ℕ) × (chars line.now ≡ chars prefix.now ++ rest))
        ((rest : List ℕ) → chars line.now ≢ chars prefix.now ++ rest) }
    ensures comment { MatchBool result.1 ((rest : List ℕ) × (chars line.now ≡ 35 ∷ rest))
        ((rest : List ℕ) → chars line.now ≢ 35 ∷ rest) }
    ensures script { MatchBool result.2 ((rest : List ℕ) × (chars line.now ≡ chars (codes "#!/usr/bin/env ") ++ rest))
        ((rest : List ℕ) → chars line.now ≢ chars (codes "#!/usr/bin/env ") ++ rest) }
{
    (
        line.starts_with(prefix),
        line.starts_with('#'),
        line.starts_with("#!/usr/bin/env "),
    )
}

/// Whether a line ends with a text, whether with a semicolon, and whether it names a generated file.
#[tactic(auto, using(smol_str::proofs::CallerLemmas::cut_once))]
pub fn ends(line: &str, suffix: &str) -> (bool, bool, bool)
    ensures suffix { MatchBool result.0 ((front : List ℕ) × (chars line.now ≡ front ++ chars suffix.now))
        ((front : List ℕ) → chars line.now ≢ front ++ chars suffix.now) }
    ensures semicolon { MatchBool result.1 ((front : List ℕ) × (chars line.now ≡ front ++ (59 ∷ [])))
        ((front : List ℕ) → chars line.now ≢ front ++ (59 ∷ [])) }
    ensures source { MatchBool result.2 ((front : List ℕ) × (chars line.now ≡ front ++ chars (codes ".generated.rs")))
        ((front : List ℕ) → chars line.now ≢ front ++ chars (codes ".generated.rs")) }
{
    (
        line.ends_with(suffix),
        line.ends_with(';'),
        line.ends_with(".generated.rs"),
    )
}

/// Whether a text has another within it, whether a colon, and whether an arrow.
#[tactic(auto, using(smol_str::proofs::CallerLemmas::cut_once))]
pub fn has(text: &str, part: &str) -> (bool, bool, bool)
    requires some { 0 < length part.now }
    ensures part { MatchBool result.0 (Occurs (chars part.now) (chars text.now)) (¬ Occurs (chars part.now) (chars text.now)) }
    ensures colon { MatchBool result.1 (Occurs (58 ∷ []) (chars text.now)) (¬ Occurs (58 ∷ []) (chars text.now)) }
    ensures arrow { IsTrue result.2 ↔ Occurs (chars (codes "->")) (chars text.now) }
{
    (text.contains(part), text.contains(':'), text.contains("->"))
}

/// What a comment says, if the line is one.
#[tactic(auto, using(smol_str::proofs::CallerLemmas::cut_once))]
pub fn comment(line: &str) -> Option<&str>
    ensures said { IfSome result (λ said. chars line.now ≡ chars (codes "//") ++ chars said.now) }
    ensures none { IfNone result ((rest : List ℕ) → chars line.now ≢ chars (codes "//") ++ rest) }
{
    line.strip_prefix("//")
}

/// A statement without the semicolon that ends it.
#[tactic(auto, using(smol_str::proofs::CallerLemmas::cut_once))]
pub fn statement(line: &str) -> Option<&str>
    ensures front { IfSome result (λ front. chars line.now ≡ chars front.now ++ (59 ∷ [])) }
    ensures none { IfNone result ((front : List ℕ) → chars line.now ≢ front ++ (59 ∷ [])) }
{
    line.strip_suffix(';')
}

/// The parts of a text before and after the first match of a pattern.
#[tactic(auto, using(smol_str::proofs::CallerLemmas::cut_once))]
pub fn around<'a>(text: &'a str, pattern: &str) -> Option<(&'a str, &'a str)>
    requires some { 0 < length pattern.now }
    ensures whole { IfSome result (λ it. chars text.now ≡ chars it.0.now ++ (chars pattern.now ++ chars it.1.now)) }
    ensures first { IfSome result (λ it. IsFirstAfter (chars pattern.now) (chars it.0.now)) }
    ensures none { IfNone result (¬ Occurs (chars pattern.now) (chars text.now)) }
{
    text.split_once(pattern)
}

/// The two sides of a rule.
#[tactic(auto, using(smol_str::proofs::CallerLemmas::cut_once))]
pub fn sides(rule: &str) -> Option<(&str, &str)>
    ensures whole { IfSome result (λ it. chars rule.now ≡ chars it.0.now ++ (chars (codes " is written ") ++ chars it.1.now)) }
    ensures none { IfNone result (¬ Occurs (chars (codes " is written ")) (chars rule.now)) }
{
    rule.split_once(" is written ")
}

/// The name of a field, its type and its value.
#[tactic(auto, using(smol_str::proofs::CallerLemmas::cut_once))]
pub fn field(line: &str) -> Option<(&str, &str, &str)>
    ensures { IfSome result (λ it.
        chars line.now ≡ chars it.0.now ++ (58 ∷ (chars it.1.now ++ (61 ∷ chars it.2.now)))) }
{
    let (name, rest) = line.split_once(':')?;
    let (kind, value) = rest.split_once('=')?;
    Some((name, kind, value))
}

/// The text between quotes.
#[tactic(auto, using(smol_str::proofs::CallerLemmas::cut_once))]
pub fn unquoted(token: &str) -> Option<&str>
    ensures { IfSome result (λ it. chars token.now ≡ 34 ∷ (chars it.now ++ (34 ∷ []))) }
{
    token.strip_prefix('"')?.strip_suffix('"')
}

/// The text between two marks.
#[tactic(auto, using(smol_str::proofs::CallerLemmas::cut_once))]
pub fn between<'a>(token: &'a str, front: &str, back: &str) -> Option<&'a str>
    ensures { IfSome result (λ it. chars token.now ≡ chars front.now ++ (chars it.now ++ chars back.now)) }
{
    token.strip_prefix(front)?.strip_suffix(back)
}

/// The same; `None` says that the token does not begin and end with these marks.
#[tactic(auto, using(smol_str::proofs::CallerLemmas::cut_once, smol_str::proofs::CallerLemmas::stripped_both))]
pub fn marked<'a>(token: &'a str, front: &str, back: &str) -> Option<&'a str>
    ensures { IfNone result ((m : List ℕ) → chars token.now ≢ chars front.now ++ (m ++ chars back.now)) }
{
    token.strip_prefix(front)?.strip_suffix(back)
}

/// What follows a value's prefix, as a value, if it has it.
#[tactic(auto, using(smol_str::proofs::CallerLemmas::cut_once))]
pub fn tail(alloc: Global, name: &SmolStr, prefix: &str) -> Result<Option<SmolStr>, AllocError>
    ensures rest { IfOk result (λ tail. IfSome tail (λ v. name.now.text ≡ chars prefix.now ++ v.text)) }
    ensures none { IfOk result (λ tail. IfNone tail ((rest : List ℕ) → name.now.text ≢ chars prefix.now ++ rest)) }
{
    match name.strip_prefix(prefix) {
        Some(rest) => Ok(Some(SmolStr::new(alloc, rest)?)),
        None => Ok(None),
    }
}

/// A value's text without its suffix, as a value, if it has it.
#[tactic(auto, using(smol_str::proofs::CallerLemmas::cut_once))]
pub fn stem(alloc: Global, name: &SmolStr) -> Result<Option<SmolStr>, AllocError>
    ensures front { IfOk result (λ stem. IfSome stem (λ v. name.now.text ≡ v.text ++ chars (codes ".rs"))) }
    ensures none { IfOk result (λ stem. IfNone stem ((front : List ℕ) → name.now.text ≢ front ++ chars (codes ".rs"))) }
{
    match name.strip_suffix(".rs") {
        Some(front) => Ok(Some(SmolStr::new(alloc, front)?)),
        None => Ok(None),
    }
}

/// A text without the white space around it.
#[tactic(auto, using(smol_str::proofs::CallerLemmas::trimmed))]
pub fn stripped(text: &str) -> &str
    ensures { chars result.now ≡ drop_trailing_whitespace (skip_leading_whitespace (chars text.now)) }
{
    text.trim()
}

/// A name without the white space around it.
#[tactic(auto, using(smol_str::proofs::CallerLemmas::trimmed))]
pub fn trimmed(alloc: Global, name: &SmolStr) -> Result<SmolStr, AllocError>
    ensures { IfOk result (λ v.
        IsValueOf (drop_trailing_whitespace (skip_leading_whitespace name.now.text)) v) }
{
    SmolStr::new(alloc, name.trim())
}

/// A line with another text in place of one of its fields.
#[tactic(auto, using(smol_str::proofs::CallerLemmas::texts, smol_str::proofs::CallerLemmas::joining))]
pub fn with_field(alloc: Global, line: &str, at: usize, new: SmolStr) -> Result<SmolStr, AllocError>
    ensures { IfOk result (λ v. IsValueOf
        (joined_by (44 ∷ []) (set (cut (chars line.now) (44 ∷ []) (no_limit (chars line.now))) at new.text)) v) }
{
    let mut fields = fields(alloc, line)?;
    if at < fields.len() {
        fields[at] = new;
    }
    line_of(alloc, &fields, ",")
}

/// A name with a hyphen (U+002D) in place of each underscore (U+005F), character by character.
#[tactic(auto, using(smol_str::proofs::CallerLemmas::replacing))]
pub fn hyphenated(alloc: Global, name: &str) -> Result<SmolStr, AllocError>
    ensures value { IfOk result (λ v. IsValueOf (each_replaced 95 45 (chars name.now)) v) }
    ensures refused { OnErr result (¬ (IsShort (chars name.now))) }
{
    name.replace_smolstr(alloc, "_", "-")
}

/// A text cut at the first match of a pattern; `None` if the pattern does not occur in it.
pub fn cut_at<'a>(text: &'a str, pattern: &str) -> Option<(&'a str, &'a str)>
    requires some { 0 < length pattern.now }
    ensures whole { IfSome result (λ parts.
        chars text.now ≡ chars parts.0.now ++ (chars pattern.now ++ chars parts.1.now)) }
    ensures first { IfSome result (λ parts. IsFirstAfter (chars pattern.now) (chars parts.0.now)) }
    ensures none { IfNone result (¬ Occurs (chars pattern.now) (chars text.now)) }
{
    let found = next_match(text, 0, pattern)?;
    Some((&text[..found], &text[found + pattern.len()..]))
}

/// The text between a byte index and the next match of a pattern, and the text after the match.
pub fn at_next<'a>(text: &'a str, from: usize, pattern: &str) -> Option<(&'a str, &'a str)>
    requires boundary { IsCharBoundary text.now from }
    requires some { 0 < length pattern.now }
    ensures first { IfSome result (λ parts. IsFirstAfter (chars pattern.now) (chars parts.0.now)) }
    ensures none { IfNone result (¬ Occurs (chars pattern.now) (chars (drop from text.now))) }
{
    let found = next_match(text, from, pattern)?;
    Some((&text[from..found], &text[found + pattern.len()..]))
}

/// How many bytes the ASCII front of a short text has, which are read off the buffer.
pub fn front_len(text: &str) -> Option<usize>
    ensures { IfSome result (λ len. len ≤ length text.now) }
{
    if text.len() > INLINE_CAP {
        return None;
    }
    let (buffer, len) = convert_while_ascii(text, AsciiCase::Lower);
    Some(buffer[..len].len())
}

/// The bytes of a value's text, read off its buffer.
pub fn bytes_inside(value: &SmolStr) -> Option<&[u8]> {
    let buffer = value.inline_buffer()?;
    Some(&buffer[..value.len()])
}

/// Whether a value and a builder have no text.
pub fn have_nothing(value: &SmolStr, builder: &SmolStrBuilder) -> (bool, bool)
    ensures value { IsTrue result.0 ↔ (value.now.text ≡ []) }
    ensures builder { IsTrue result.1 ↔ (builder.now.text ≡ []) }
{
    (value.is_empty(), builder.is_empty())
}

/// Tokens on one line, by std's `join` of a slice.
#[tactic(auto, using(smol_str::proofs::CallerLemmas::joining))]
pub fn row(alloc: Global, tokens: &[SmolStr]) -> Result<String, AllocError>
    ensures { IfOk result (λ line. string_bytes line ≡
        encode_utf8_all (joined_by (chars (codes " ")) (texts tokens.now))) }
{
    tokens.join(alloc, " ")
}

/// Tokens on one line, as a value, by std's `join` and the memory that it asked for.
#[tactic(auto, using(smol_str::proofs::CallerLemmas::owned))]
pub fn row_value(alloc: Global, tokens: &[SmolStr]) -> Result<SmolStr, AllocError>
    ensures { IfOk result (λ v. IsValueOf (joined_by (chars (codes " ")) (texts tokens.now)) v) }
{
    SmolStr::from_owned(row(alloc, tokens)?)
}

/// The fields of a line, none of which has a comma, and each of which lies in the place of its text.
#[tactic(auto, using(smol_str::proofs::CallerLemmas::pieces_lack))]
pub fn plain_fields(alloc: Global, line: &str) -> Result<Vec<SmolStr>, AllocError>
    ensures plain { IfOk result (λ fields. All (λ v. ¬ Occurs (44 ∷ []) v.text) fields.items) }
    ensures placed { IfOk result (λ fields. All (λ v. v.place ≡ place_of v.text) fields.items) }
{
    fields(alloc, line)
}

/// The three parts of a rule, at patterns of two characters.
#[tactic(auto, using(smol_str::proofs::CallerLemmas::cut_at_texts))]
pub fn three_sides(rule: &str) -> Option<(&str, &str, &str)>
    ensures { IfSome result (λ it. chars rule.now ≡ chars it.0.now ++ (chars (codes "->")
        ++ (chars it.1.now ++ (chars (codes "=>") ++ chars it.2.now)))) }
{
    let (first, rest) = rule.split_once("->")?;
    let (second, third) = rest.split_once("=>")?;
    Some((first, second, third))
}

/// Lines `key=value` that read the same have the same key and the same value, where no key has an equals sign.
#[tactic(auto, using(smol_str::proofs::CallerLemmas::cut_alike))]
pub fn one_setting(key: &SmolStr, value: &SmolStr, other_key: &SmolStr, other_value: &SmolStr)
    requires first { IsFirstAfter (61 ∷ []) key.now.text }
    requires other_first { IsFirstAfter (61 ∷ []) other_key.now.text }
    requires one_line { key.now.text ++ (61 ∷ value.now.text) ≡ other_key.now.text ++ (61 ∷ other_value.now.text) }
    ensures key { key.now.text ≡ other_key.now.text }
    ensures value { value.now.text ≡ other_value.now.text }
{}

/// Chords `modifiers+key` that read the same have the same key and the same modifiers, where no key has a plus sign.
#[tactic(auto, using(smol_str::proofs::CallerLemmas::cut_alike))]
pub fn one_chord(held: &SmolStr, key: &SmolStr, other_held: &SmolStr, other_key: &SmolStr)
    requires plain { ¬ Occurs (43 ∷ []) key.now.text }
    requires other_plain { ¬ Occurs (43 ∷ []) other_key.now.text }
    requires one_text { held.now.text ++ (43 ∷ key.now.text) ≡ other_held.now.text ++ (43 ∷ other_key.now.text) }
    ensures held { held.now.text ≡ other_held.now.text }
    ensures key { key.now.text ≡ other_key.now.text }
{}

/// A text without the spaces in front.
#[tactic(auto, using(smol_str::proofs::CallerLemmas::trimmed))]
pub fn unindented(text: &str) -> &str
    ensures { chars result.now ≡ drop (prefix_len (λ c. c == 32) (chars text.now)) (chars text.now) }
{
    text.trim_start_matches(' ')
}

/// What a command is.
#[tactic(auto, using(smol_str::proofs::CallerLemmas::compared))]
pub fn command(text: &str) -> Option<u8>
    ensures list { result ≡ Some 1 ↔ (chars text.now ≡ chars (codes "list all names")) }
    ensures nothing { result ≡ Some 2 ↔ (chars text.now ≡ []) }
{
    match text {
        "list all names" => Some(1),
        "" => Some(2),
        _ => None,
    }
}

/// Whether two texts are equal.
#[tactic(auto, using(smol_str::proofs::CallerLemmas::compared))]
pub fn is_same(text: &str, other: &str) -> bool
    ensures { IsTrue result ↔ (chars text.now ≡ chars other.now) }
{
    text == other
}

/// Values of pairs of texts, as of names and their values.
#[tactic(auto, using(smol_str::proofs::CallerLemmas::items))]
pub fn pairs_of(
    alloc: Global,
    pairs: &[(&str, &str)],
) -> Result<Vec<(SmolStr, SmolStr)>, AllocError>
    ensures { IfOk result (λ values. ArePairsOf (map (λ p. (chars p.0.now, chars p.1.now)) pairs.now) values.items) }
{
    let mut values = Vec::new(alloc);
    for pair in pairs {
        values.push(pair_of(alloc, pair)?)?;
    }
    Ok(values)
}

/// Where a name lies that is kept with its value: it follows from its text.
pub fn name_place(alloc: Global, name: &str, value: &str) -> Option<Place>
    ensures { IfSome result (λ place. place ≡ place_of (chars name.now)) }
{
    match pairs_of(alloc, &[(name, value)]).ok()?.as_slice() {
        [pair] => Some(pair.0.place()),
        _ => None,
    }
}

fn pair_of(alloc: Global, pair: &(&str, &str)) -> Result<(SmolStr, SmolStr), AllocError>
    ensures first { IfOk result (λ p. IsValueOf (chars pair.now.0.now) p.0) }
    ensures second { IfOk result (λ p. IsValueOf (chars pair.now.1.now) p.1) }
{
    Ok((SmolStr::new(alloc, pair.0)?, SmolStr::new(alloc, pair.1)?))
}

/// A text cut at a byte index, where that is a char boundary.
#[tactic(auto, using(smol_str::proofs::CallerLemmas::chars_cut))]
pub fn halves(text: &str, at: usize) -> Option<(&str, &str)>
    ensures { IfSome result (λ it. chars text.now ≡ chars it.0.now ++ chars it.1.now) }
{
    text.split_at_checked(at)
}

/// What comes after a comment's opening; `None` says that the line does not begin with it.
#[tactic(auto, using(smol_str::proofs::CallerLemmas::stripped))]
pub fn after_todo(line: &str) -> Option<&str>
    ensures said { IfSome result (λ it. chars line.now ≡ chars (codes "// TODO(someone): ") ++ chars it.now) }
    ensures none { IfNone result ((rest : List ℕ) → chars line.now ≢ chars (codes "// TODO(someone): ") ++ rest) }
{
    line.strip_prefix("// TODO(someone): ")
}

/// The name of a file that was generated, without its long ending.
#[tactic(auto, using(smol_str::proofs::CallerLemmas::stripped))]
pub fn generated(name: &str) -> Option<&str>
    ensures stem { IfSome result (λ it. chars name.now ≡ chars it.now ++ chars (codes ".generated_by_us.rs")) }
    ensures none { IfNone result ((front : List ℕ) → chars name.now ≢ front ++ chars (codes ".generated_by_us.rs")) }
{
    name.strip_suffix(".generated_by_us.rs")
}

/// The lines of a text that are not empty, with their numbers, from 1.
#[tactic(auto, using(smol_str::proofs::CallerLemmas::by_line))]
pub fn numbered_lines(alloc: Global, text: &str) -> Result<Vec<(usize, SmolStr)>, AllocError>
    ensures { IfOk result (λ rows. map {B = ℕ × List ℕ} (λ row. (row.0, row.1.text)) rows.items
        ≡ filter_map {Y = ℕ × List ℕ} (λ line. if length line.1 == 0 then None else Some (line.0 + 1, chars line.1))
        (enumerate_from 0 (lines text.now))) }
{
    let mut rows = Vec::new(alloc);
    for (number, line) in text.lines().enumerate() {
        if !line.is_empty() {
            rows.push((number + 1, SmolStr::new(alloc, line)?))?;
        }
    }
    Ok(rows)
}

/// Whether a line is opened by a bracket, and whether one closes it, by its bytes.
#[tactic(auto, using(smol_str::proofs::CallerLemmas::not_taken))]
pub fn brackets(line: &str) -> (bool, bool)
    ensures opened { result.0 ≡ (get_or line.now 0 0 == 91) }
    ensures closed { result.1 ≡ (get_or line.now (length line.now - 1) 0 == 93) }
{
    let opened = line.strip_prefix('[').is_some();
    (opened, line.strip_suffix(']').is_some())
}

/// The fields of a line, without the white space around each.
#[tactic(auto, using(smol_str::proofs::CallerLemmas::by_piece))]
pub fn trimmed_fields(alloc: Global, line: &str) -> Result<Vec<SmolStr>, AllocError>
    ensures { IfOk result (λ fields. texts fields.items
        ≡ map (λ t. drop_trailing_whitespace (skip_leading_whitespace t)) (cut (chars line.now) (44 ∷ []) (no_limit (chars line.now)))) }
{
    line.split(',')
        .map(|field| SmolStr::new(alloc, field.trim()))
        .try_collect(alloc)
}

/// How many modifiers a chord names. A word that is none comes back: it is one of the chord's.
#[tactic(auto, using(smol_str::proofs::CallerLemmas::among_pieces))]
pub fn modifiers(chord: &str) -> Result<usize, &str>
    ensures { IfErr result (λ word.
        list_any (bytes_eq (chars word.now)) (cut (chars chord.now) (43 ∷ []) (no_limit (chars chord.now))) ≡ true) }
{
    let mut count = 0_usize;
    for word in chord.split('+') {
        if !is_modifier(word) {
            return Err(word);
        }
        count = count.saturating_add(1);
    }
    Ok(count)
}

fn is_modifier(word: &str) -> bool {
    matches!(word, "ctrl" | "shift" | "alt")
}

/// Whether each segment of a path is short. One that is not comes back: it is one of the path's.
#[tactic(auto, using(smol_str::proofs::CallerLemmas::among_pieces))]
pub fn check_segments(path: &str) -> Result<(), &str>
    ensures { IfErr result (λ it.
        list_any (bytes_eq (chars it.now)) (cut (chars path.now) (chars (codes "::")) (no_limit (chars path.now))) ≡ true) }
{
    for segment in path.split("::") {
        if segment.len() > INLINE_CAP {
            return Err(segment);
        }
    }
    Ok(())
}

/// The lines of a text, which are all short; else nothing.
#[tactic(auto, using(smol_str::proofs::CallerLemmas::by_line))]
pub fn short_lines(alloc: Global, text: &str) -> Result<Option<Vec<SmolStr>>, AllocError>
    ensures { IfOk result (λ found. IfSome found (λ values. All (λ line. length line ≤ INLINE_CAP) (lines text.now))) }
{
    let mut values = Vec::new(alloc);
    for line in text.lines() {
        if line.len() > INLINE_CAP {
            return Ok(None);
        }
        values.push(SmolStr::new_inline(line))?;
    }
    Ok(Some(values))
}
