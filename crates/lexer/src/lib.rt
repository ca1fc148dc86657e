//! A lexer: it cuts a source into words, runs of blanks and single other characters, and loses no character. A token that is
//! short, or a blank run, is not on the heap.
//!
//! It stands on `smol_str` alone. Copy its folder beside yours, and add `lexer: smol_str` to your `crates.txt`.
#![tactic(auto)]

ghost use Rattle.std.specs.Prelude.{◌≡◌, ◌≢◌, ◌<◌, ◌≤◌, ℕ, List, [], ◌∷◌, length, All, IfOk, OnErr, IfSome, MatchOption};
ghost use Rattle.std.specs.List.{concat, flat_map};
ghost use Rattle.std.specs.Str.{chars};
ghost use Rattle.smol_str.specs.Text.{IsResident};
ghost use Rattle.smol_str.specs.Meaning.{texts};
ghost use Rattle.lexer.specs.Tokens.{IsToken, AreLongest, IsFirstToken, IsLeftAfter};
ghost use Rattle.lexer.specs.Tokens.{is_word_character, is_blank, goes_on};

#[cfg(test)]
mod tests;

use smol_str::{Place, SmolStr, laws};
use std::alloc::{AllocError, Global};

/// Cuts a source into tokens, each as long as it can be.
///
/// A token is a word (letters and digits of any script, and underscores), a run of newlines and spaces, or one other
/// character.
pub fn lex(alloc: Global, source: &str) -> Result<Vec<SmolStr>, AllocError>
    ensures lossless { IfOk result (λ tokens. flat_map (λ token. token.text) tokens.items ≡ chars source.now) }
    ensures kinds { IfOk result (λ tokens. All (λ token. IsToken token.text) tokens.items) }
    ensures longest { IfOk result (λ tokens. AreLongest (texts tokens.items) []) }
    ensures off_the_heap { IfOk result (λ tokens.
        All (λ token. IsResident token.text → token.place ≢ Place.Heap) tokens.items) }
    ensures refused { OnErr result (chars source.now ≢ []) }
{
    laws::places();
    let mut tokens = Vec::new(alloc);
    let mut rest = source;
    while let Some((token, after)) = split_token(rest) {
        tokens.push(SmolStr::new(alloc, token)?)?;
        rest = after;
    }
    Ok(tokens)
}

/// Two cuts of a text into tokens which are as long as they can be are one.
pub fn one_lexing()
    ensures { (tokens others : List (List ℕ)) → concat tokens ≡ concat others →
        All IsToken tokens → All IsToken others → AreLongest tokens [] → AreLongest others [] → tokens ≡ others }
{}

/// The first token of a text, and what follows it.
fn split_token(text: &str) -> Option<(&str, &str)>
    ensures first { MatchOption result (chars text.now ≡ [])
        (λ cut. IsFirstToken (chars text.now) (chars cut.0.now) (chars cut.1.now)) }
    ensures shorter { IfSome result (λ cut. length cut.1.now < length text.now) }
{
    let (first, rest) = split_character(text)?;
    let after = skip_run(first, rest);
    Some(text.split_at(text.len() - after.len()))
}

/// What is left of a text after the characters that go on a token which begins with `first`.
fn skip_run(first: char, text: &str) -> &str
    ensures left { IsLeftAfter first (chars text.now) (chars result.now) }
    ensures shorter { length result.now ≤ length text.now }
{
    let mut rest = text;
    while let Some((next, after)) = split_character(rest) {
        if !continues(first, next) {
            break;
        }
        rest = after;
    }
    rest
}

/// The first character of a text, and what follows it.
#[tactic(auto, using(std::proofs::lemmas::Str::chars_past_char))]
fn split_character(text: &str) -> Option<(char, &str)>
    ensures whole { MatchOption result (chars text.now ≡ []) (λ cut. chars text.now ≡ cut.0 ∷ chars cut.1.now) }
    ensures shorter { IfSome result (λ cut. length cut.1.now < length text.now) }
{
    let mut characters = text.chars();
    let first = characters.next()?;
    Some((first, characters.as_str()))
}

/// Whether a character goes on a token that begins with `first`.
fn continues(first: char, next: char) -> bool
    ensures { result ≡ goes_on first next }
{
    if in_word(first) {
        in_word(next)
    } else {
        in_blanks(first) && in_blanks(next)
    }
}

fn in_word(character: char) -> bool
    ensures { result ≡ is_word_character character }
{
    character.is_alphanumeric() || character == '_'
}

fn in_blanks(character: char) -> bool
    ensures { result ≡ is_blank character }
{
    character == '\n' || character == ' '
}
