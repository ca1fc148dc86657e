//! A fast path for letters whose range maps by a constant offset, which are Latin, Greek, Cyrillic and
//! Armenian, and for the widest ranges without case. std searches through all ranges of Unicode.
ghost use Rattle.std.specs.Prelude.{◌≡◌, [], ◌∷◌, true, false, IfSome, IsTrue};
ghost use Rattle.std.specs.Char.Unicode.Cased.{is_cased};
ghost use Rattle.std.specs.Char.Unicode.CaseIgnorable.{is_case_ignorable};
ghost use Rattle.std.specs.Char.Unicode.ToLowercase.{to_lowercase};
ghost use Rattle.std.specs.Char.Unicode.ToUppercase.{to_uppercase};
ghost use Rattle.smol_str.specs.Case.{mapped};

use crate::kernel::AsciiCase;

/// The one letter that a character becomes in a case; `None` where std has to be asked.
#[inline(always)]
pub(super) fn letter_of(character: char, case: AsciiCase) -> Option<char>
    ensures { IfSome result (λ letter. mapped case (character ∷ []) ≡ letter ∷ []) }
{
    let code = character as u32;
    let letter = match case {
        AsciiCase::Lower => lowercase_by_range(code)?,
        AsciiCase::Upper => uppercase_by_range(code)?,
    };
    char::from_u32(letter)
}

/// The code point in lower case; `None` where its range is not listed.
#[inline(always)]
#[tactic(auto, using(crate::proofs::CaseLemmas::Letters::lowercase_moves))]
fn lowercase_by_range(code: u32) -> Option<u32>
    ensures { IfSome result (λ letter. to_lowercase code ≡ letter ∷ []) }
{
    match code {
        0..=0x40 => Some(code), // up to @
        0x41..=0x5a => Some(code + 32), // A to Z
        0x5b..=0xbf => Some(code), // [ to ¿
        0xc0..=0xd6 => Some(code + 32), // À to Ö
        0xd8..=0xde => Some(code + 32), // Ø to Þ
        0xdf..=0xff => Some(code), // ß to ÿ
        0x391..=0x3a1 => Some(code + 32), // Α to Ρ, Greek
        0x3a3..=0x3ab => Some(code + 32), // Σ to Ϋ
        0x3ac..=0x3ce => Some(code), // ά to ώ
        0x400..=0x40f => Some(code + 80), // Ѐ to Џ, Cyrillic
        0x410..=0x42f => Some(code + 32), // А to Я
        0x430..=0x45f => Some(code), // а to џ
        0x531..=0x556 => Some(code + 48), // Ա to Ֆ, Armenian
        0x561..=0x586 => Some(code), // ա to ֆ
        _ if is_caseless(code) => Some(code),
        _ => None,
    }
}

/// The code point in upper case; `None` where its range is not listed.
#[inline(always)]
#[tactic(auto, using(crate::proofs::CaseLemmas::Letters::uppercase_moves))]
fn uppercase_by_range(code: u32) -> Option<u32>
    ensures { IfSome result (λ letter. to_uppercase code ≡ letter ∷ []) }
{
    match code {
        0..=0x60 => Some(code), // up to `
        0x61..=0x7a => Some(code - 32), // a to z
        0x7b..=0xb4 => Some(code), // { to ´
        0xc0..=0xde => Some(code), // À to Þ
        0xe0..=0xf6 => Some(code - 32), // à to ö
        0xf8..=0xfe => Some(code - 32), // ø to þ
        0x391..=0x3ab => Some(code), // Α to Ϋ, Greek
        0x3b1..=0x3c1 => Some(code - 32), // α to ρ
        0x3c3..=0x3cb => Some(code - 32), // σ to ϋ
        0x400..=0x42f => Some(code), // Ѐ to Я, Cyrillic
        0x430..=0x44f => Some(code - 32), // а to я
        0x450..=0x45f => Some(code - 80), // ѐ to џ
        0x531..=0x556 => Some(code), // Ա to Ֆ, Armenian
        0x561..=0x586 => Some(code - 48), // ա to ֆ
        _ if is_caseless(code) => Some(code),
        _ => None,
    }
}

/// Whether a code point is in one of the widest ranges without case.
#[inline(always)]
#[tactic(auto, using(crate::proofs::CaseLemmas::Letters::caseless_stays))]
fn is_caseless(code: u32) -> bool
    ensures lower { IsTrue result → to_lowercase code ≡ code ∷ [] }
    ensures upper { IsTrue result → to_uppercase code ≡ code ∷ [] }
{
    match code {
        0x588..=0x109f => true, // from Hebrew to Burmese
        0x2000..=0x2125 => true, // punctuation
        0x2d2e..=0xa63f => true, // CJK with kana and Yi
        0xabc0..=0xfaff => true, // Hangul
        0x1e944..=0x10ffff => true, // emoji
        _ => false,
    }
}

/// Whether a character is one of the letters with case of ASCII, Greek without accents, or Russian; `false` where std has
/// to be asked.
#[inline(always)]
#[tactic(auto, using(crate::proofs::CaseLemmas::Letters::cased_ones))]
pub(super) fn is_cased_letter(character: char) -> bool
    ensures cased { IsTrue result → is_cased character ≡ true }
    ensures counts { IsTrue result → is_case_ignorable character ≡ false }
{
    match character as u32 {
        0x41..=0x5a => true, // A to Z
        0x61..=0x7a => true, // a to z
        0x391..=0x3a1 => true, // Α to Ρ, Greek
        0x3a3..=0x3a9 => true, // Σ to Ω
        0x3b1..=0x3c9 => true, // α to ω
        0x410..=0x44f => true, // А to я, Russian
        _ => false,
    }
}
