//! What the definitions in `specs/` mean: laws over every text, each the contract of a function
//! that does nothing.
//!
//! A contract elsewhere says that a call meets a definition. The laws here say that the
//! definitions are the right ones. They range over every list of numbers, so a law has a premise only
//! where it would be false without it.

ghost use Rattle.std.specs.Prelude.{◌≡◌, ◌↔◌, ◌+◌, ◌^◌, ◌<◌, ◌≤◌, ℕ, List, [], ◌∷◌, ◌++◌, length, min, All, IsTrue, encode_utf8_all};
ghost use Rattle.std.specs.Str.{chars, all_scalars};
ghost use Rattle.std.specs.Ordering.{nat_cmp};
ghost use Rattle.std.specs.Cmp.Lexicographic.{slice_cmp};
ghost use Rattle.std.specs.Char.{IsAsciiUppercase, IsAsciiLowercase};
ghost use Rattle.smol_str.specs.Text.{size, IsShort, IsBlankRun, IsResident, place_of};
ghost use Rattle.smol_str.specs.Buffer.{padded};
ghost use Rattle.smol_str.specs.Case.{lower, upper, front, lowercased, uppercased, IsAsciiText, BeginsPastAscii};
ghost use Rattle.smol_str.specs.Cut.{Occurs, StandsAt, IsFirstAfter, IsNextMatch, IsCut, joined_by};
ghost use Rattle.smol_str.specs.Replace.{cut, no_limit, match_count, replaced, replaced_all, each_replaced};
ghost use Rattle.smol_str.specs.Wire.{HasWire, wire, Holds, HasEndedEarly, body};
ghost use Rattle.smol_str.specs.Plain.{IsPlain, IsPlainJson, in_quotes};
ghost use Rattle.smol_str.specs.Json.{json_value, IsJsonText, compact_text};

use crate::value::place::Place;

/// A text and its bytes determine each other, and a text of a known size is determined by its buffer.
///
/// The last law needs the sizes: `a`, and `a` with a character U+0000 behind it, fill a buffer alike.
pub fn texts()
    ensures one_text { (s t : List ℕ) → encode_utf8_all s ≡ encode_utf8_all t → s ≡ t }
    ensures back { (t : List ℕ) → IsTrue (all_scalars t) → chars (encode_utf8_all t) ≡ t }
    ensures buffers { (s t : List ℕ) → size s ≡ size t →
        padded (encode_utf8_all s) ≡ padded (encode_utf8_all t) → s ≡ t }
{}

/// The tests behind `place_of` decide the facts that a text is short and that it is a blank run.
pub fn places()
    ensures short { (t : List ℕ) → IsShort t → place_of t ≡ Place.Inline }
    ensures blank { (t : List ℕ) → ¬ (IsShort t) → IsBlankRun t → place_of t ≡ Place.Static }
    ensures other { (t : List ℕ) → ¬ (IsResident t) → place_of t ≡ Place.Heap }

    ensures inline_alone { (t : List ℕ) → place_of t ≡ Place.Inline → IsShort t }
    ensures static_alone { (t : List ℕ) → place_of t ≡ Place.Static → (¬ (IsShort t)) × IsBlankRun t }
    ensures heap_alone { (t : List ℕ) → place_of t ≡ Place.Heap → ¬ (IsResident t) }
{}

/// ASCII case puts 32 between a capital letter and its small one, and leaves every other character.
/// So it keeps the size, is stable, and leaves no letter of the other case.
pub fn ascii_case()
    ensures lower_of_capital { (c : ℕ) (t : List ℕ) → IsAsciiUppercase c →
        lower (c ∷ t) ≡ (c + 32) ∷ lower t }
    ensures upper_of_small { (c : ℕ) (t : List ℕ) → IsAsciiUppercase c →
        upper ((c + 32) ∷ t) ≡ c ∷ upper t }

    ensures lower_size { (t : List ℕ) → size (lower t) ≡ size t }
    ensures upper_size { (t : List ℕ) → size (upper t) ≡ size t }

    ensures lower_twice { (t : List ℕ) → lower (lower t) ≡ lower t }
    ensures upper_twice { (t : List ℕ) → upper (upper t) ≡ upper t }
    ensures lower_of_upper { (t : List ℕ) → lower (upper t) ≡ lower t }
    ensures upper_of_lower { (t : List ℕ) → upper (lower t) ≡ upper t }

    ensures lower_has_no_capital { (t : List ℕ) → All (λ c. ¬ IsAsciiUppercase c) (lower t) }
    ensures upper_has_no_small { (t : List ℕ) → All (λ c. ¬ IsAsciiLowercase c) (upper t) }
    ensures lower_unchanged { (t : List ℕ) → All (λ c. ¬ IsAsciiUppercase c) t → lower t ≡ t }
    ensures upper_unchanged { (t : List ℕ) → All (λ c. ¬ IsAsciiLowercase c) t → upper t ≡ t }
{}

/// The ASCII front of a text ends before its first character past ASCII.
///
/// Both premises are needed: `é` is not ASCII, and the front of `ab` is longer than `a`.
pub fn ascii_front()
    ensures longest { (a r : List ℕ) → IsAsciiText a → BeginsPastAscii r → front (a ++ r) ≡ a }
    ensures parts { (t : List ℕ) →
        (r : List ℕ) × (t ≡ front t ++ r) × IsAsciiText (front t) × BeginsPastAscii r }
{}

/// Full case of a text begins with its ASCII front in that case of ASCII. So of ASCII text, full case
/// is the case of ASCII.
pub fn full_case()
    ensures lower_front { (t : List ℕ) → (r : List ℕ) × (lowercased t ≡ lower (front t) ++ r) }
    ensures upper_front { (t : List ℕ) → (r : List ℕ) × (uppercased t ≡ upper (front t) ++ r) }
    ensures lower_ascii { (t : List ℕ) → IsAsciiText t → lowercased t ≡ lower t }
    ensures upper_ascii { (t : List ℕ) → IsAsciiText t → uppercased t ≡ upper t }
{}

/// A pattern first matches after `q` iff it matches after no shorter prefix.
///
/// The empty pattern is left out: it matches after the empty prefix, but `IsFirstAfter` holds of none.
pub fn first_match()
    ensures { (p q r : List ℕ) → 0 < length p → IsFirstAfter p q ↔
        ((a s : List ℕ) → q ++ (p ++ r) ≡ a ++ (p ++ s) → length q ≤ length a) }
{}

/// Each text has exactly one cut at a pattern, whatever the limit, and `cut` computes it; joined again, its pieces are the text.
pub fn one_cut()
    ensures exists { (t p : List ℕ) (n : ℕ) → (pieces : List (List ℕ)) × IsCut t p n pieces }
    ensures unique { (t p : List ℕ) (n : ℕ) (xs ys : List (List ℕ)) →
        IsCut t p n xs → IsCut t p n ys → xs ≡ ys }
    ensures computed { (t p : List ℕ) (n : ℕ) → IsCut t p n (cut t p n) }
    ensures joined { (t p : List ℕ) (n : ℕ) → joined_by p (cut t p n) ≡ t }
{}

/// Replacement, and how its limit counts.
pub fn replacement()
    ensures of_each_cut { (t p w : List ℕ) (n : ℕ) (pieces : List (List ℕ)) →
        IsCut t p n pieces → replaced t p w n ≡ joined_by w pieces }

    ensures limit_zero { (t p w : List ℕ) → replaced t p w 0 ≡ t }
    ensures limit_beyond_matches { (t p w : List ℕ) (n : ℕ) →
        match_count t p ≤ n → replaced t p w n ≡ replaced_all t p w }
    ensures by_itself { (t p : List ℕ) (n : ℕ) → replaced t p p n ≡ t }

    ensures pieces { (t p : List ℕ) (n : ℕ) (pieces : List (List ℕ)) →
        IsCut t p n pieces → length pieces ≡ min n (match_count t p) + 1 }
    ensures unlimited { (t p : List ℕ) → match_count t p ≤ no_limit t }

    ensures characters { (t : List ℕ) (x y : ℕ) →
        replaced_all t (x ∷ []) (y ∷ []) ≡ each_replaced x y t }
{}

/// Replacement from the left: one match at a time, until none is left or the limit is reached, and a
/// character at which no match begins stays.
///
/// The first three laws hold of the empty pattern too, but say nothing there: it begins every text,
/// and so is first after none. It matches before each character, and at the end.
pub fn replacement_by_steps()
    ensures matched { (t p w q r : List ℕ) (n : ℕ) → t ≡ q ++ (p ++ r) → IsFirstAfter p q →
        replaced t p w (n + 1) ≡ q ++ (w ++ replaced r p w n) }
    ensures unmatched { (t p w : List ℕ) (n : ℕ) → ¬ Occurs p t → replaced t p w n ≡ t }
    ensures passed { (c : ℕ) (t p w : List ℕ) (n : ℕ) → ((r : List ℕ) → ¬ (c ∷ t ≡ p ++ r)) →
        replaced (c ∷ t) p w n ≡ c ∷ replaced t p w n }

    ensures between { (c : ℕ) (t w : List ℕ) (n : ℕ) →
        replaced (c ∷ t) [] w (n + 1) ≡ w ++ (c ∷ replaced t [] w n) }
    ensures end { (w : List ℕ) (n : ℕ) → replaced [] [] w (n + 1) ≡ w }
{}

/// There is at most one index of the next match, and if there is one the pattern occurs.
///
/// The empty pattern is left out of the first: nothing comes before its first match.
pub fn next_match()
    ensures one { (a b p : List ℕ) (i j : ℕ) → 0 < length p →
        IsNextMatch a b p i → IsNextMatch a b p j → i ≡ j }
    ensures stands { (a b p : List ℕ) (i : ℕ) → IsNextMatch a b p i → Occurs p b }
{}

/// The encoding is prefix-free, and decoding inverts it.
///
/// The first law needs its limit: the empty text and a text of 2^32 bytes would state one size. The
/// last needs bytes: a number above 255 is lost in the size that is read.
pub fn wire_forms()
    ensures apart { (s t x y : List ℕ) → HasWire s → HasWire t →
        wire s ++ x ≡ wire t ++ y → (s ≡ t) × (x ≡ y) }
    ensures length { (t : List ℕ) → length (wire t) ≡ size t + 4 }

    ensures one_text { (b s t : List ℕ) (m n : ℕ) → Holds b s m → Holds b t n → (s ≡ t) × (m ≡ n) }
    ensures not_ended_early { (b t : List ℕ) (n : ℕ) → Holds b t n → ¬ HasEndedEarly b }
    ensures body { (b t : List ℕ) (n : ℕ) → Holds b t n → body b ≡ encode_utf8_all t }
    ensures scalars { (b t : List ℕ) (n : ℕ) → Holds b t n → IsTrue (all_scalars t) }

    ensures written { (t x : List ℕ) → HasWire t → IsTrue (all_scalars t) →
        Holds (wire t ++ x) t (size t + 4) }
    ensures stated { (b t : List ℕ) → All (λ c. c < 2 ^ 8) b → ¬ HasEndedEarly b →
        body b ≡ encode_utf8_all t → IsTrue (all_scalars t) → Holds b t (size t + 4) }
{}

/// The JSON that is written for a text is read as that text. A plain text is written in quotes without
/// escapes, and is read so, with white space around it or without.
#[tactic(auto, using(crate::proofs::JsonLemmas::laws))]
pub fn json_strings()
    ensures back { (t : List ℕ) → IsJsonText (compact_text (json_value t)) t }
    ensures plain { (t : List ℕ) → IsPlain t →
        compact_text (json_value t) ≡ in_quotes (encode_utf8_all t) }
    ensures quoted { (b t : List ℕ) → IsPlain t →
        b ≡ in_quotes (encode_utf8_all t) → IsPlainJson b t }
    ensures read { (b t : List ℕ) → IsPlainJson b t → IsJsonText b t }
{}

/// Texts are ordered by their bytes as they are by their characters.
pub fn byte_order()
    ensures { (s t : List ℕ) →
        slice_cmp nat_cmp (encode_utf8_all s) (encode_utf8_all t) ≡ slice_cmp nat_cmp s t }
{}

/// If the bytes of a pattern occur in the bytes of a text, the pattern occurs in the text, and the
/// other way round.
///
/// The empty pattern is left out of the first: it occurs between the two bytes of `é`.
pub fn self_synchronisation()
    ensures from_bytes { (t p x y : List ℕ) → 0 < length p →
        encode_utf8_all t ≡ x ++ (encode_utf8_all p ++ y) → StandsAt p t (length x) }
    ensures to_bytes { (t p : List ℕ) (i : ℕ) → StandsAt p t i →
        (x y : List ℕ) × (encode_utf8_all t ≡ x ++ (encode_utf8_all p ++ y)) × (length x ≡ i) }
{}
