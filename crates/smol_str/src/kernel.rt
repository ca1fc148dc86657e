//! Building blocks for loops of your own over a text: its ASCII front in a case, and its next
//! match.
ghost use Rattle.std.specs.Prelude.{◌≡◌, ◌↔◌, ◌<◌, ◌≤◌, ◌+◌, ◌-◌, ℕ, List, ◌++◌, Some, None, IfSome, MatchOption, length, take, drop, encode_utf8_all};
ghost use Rattle.std.specs.Str.{IsCharBoundary, chars};
ghost use Rattle.smol_str.specs.Text.{size};
ghost use Rattle.smol_str.specs.Buffer.{padded};
ghost use Rattle.smol_str.specs.Case.{front, converted};
ghost use Rattle.smol_str.specs.Cut.{Occurs, StandsAt, IsFirstAfter, IsNextMatch};

use crate::buffer::{INLINE_CAP, InlineBuffer, InlineText};
pub use crate::bytes::ascii::AsciiCase;
use crate::bytes::ascii::front_len;
use crate::bytes::search::{bytes_from, find};

/// The ASCII front of a short text in a case: its bytes and then zeros, and how many bytes it has.
///
/// The front is what comes before the first character past ASCII.
///
/// ```
/// let (buffer, len) = convert_while_ascii("ABCé", AsciiCase::Lower);
/// assert_eq!(rt; &buffer[..len], b"abc".as_slice());
/// ```
#[tactic(auto, using(crate::proofs::CaseLemmas::Ascii::front_of_bytes))]
pub fn convert_while_ascii(text: &str, case: AsciiCase) -> (InlineBuffer, usize)
    requires { length text.now ≤ INLINE_CAP }
    ensures bytes { result.0 ≡ padded (encode_utf8_all (converted case (front (chars text.now)))) }
    ensures len { result.1 ≡ length (front (chars text.now)) }
    ensures within { result.1 ≤ length text.now }
{
    let len = front_len(text.as_bytes());
    let front = InlineText::from_short(&text[..len]).in_case(case);
    (*front.buffer(), len)
}

/// The byte index of the first match of a pattern at or after `from`, `None` where there is none.
///
/// `from` must be a char boundary, as 0 always is, and `pattern` not empty. Both the index that is
/// returned and the one behind the match are char boundaries, so you may cut the text at either. The
/// clause `parts` says what you get, and `first` that the pattern does not occur before.
///
/// ```
/// assert_eq!(rt; next_match("foo_bar_baz", 5, "ba"), Some(8));
/// ```
pub fn next_match(text: &str, from: usize, pattern: &str) -> Option<usize>
    requires boundary { 0 < from → IsCharBoundary text.now from }
    requires not_empty { 0 < length pattern.now }

    // Which match is found: the pattern does not occur before it.
    ensures first { MatchOption result (¬ Occurs (chars pattern.now) (chars (drop from text.now)))
        (λ i. IsFirstAfter (chars pattern.now) (chars (take (i - from) (drop from text.now)))) }

    // What a cut at the match leaves.
    ensures parts { IfSome result (λ i. chars text.now ≡ chars (take i text.now)
        ++ (chars pattern.now ++ chars (drop (i + length pattern.now) text.now))) }
    ensures boundaries { IfSome result (λ i.
        IsCharBoundary text.now i × IsCharBoundary text.now (i + length pattern.now)) }
    ensures within { IfSome result (λ i. (from ≤ i) × (i + length pattern.now ≤ length text.now)) }

    // For proofs over every split: of the characters at `from`, or of the bytes round a match.
    ensures found { (a b : List ℕ) → chars text.now ≡ a ++ b → size a ≡ from →
        (i : ℕ) → (result ≡ Some i) ↔ IsNextMatch a b (chars pattern.now) i }
    ensures none { (a b : List ℕ) → chars text.now ≡ a ++ b → size a ≡ from →
        (result ≡ None) ↔ (¬ Occurs (chars pattern.now) b) }
    ensures synchronised { (x y : List ℕ) → text.now ≡ x ++ (pattern.now ++ y) →
        StandsAt (chars pattern.now) (chars text.now) (length x) }
{
    let found = find(bytes_from(text, from), pattern.as_bytes())?;
    Some(from + found)
}
