//! Text that is laid out: lines of tokens, numbers in columns, the token at an offset; and the names of key chords.
ghost use Rattle.std.specs.List.{concat};
ghost use Rattle.std.specs.Prelude.{◌≡◌, ◌+◌, ◌*◌, ◌<◌, ◌≤◌, ◌++◌, [], chars, codes, take, slice_get, IfNone, IfOk, IfSome, OnOk, OnErr, encode_utf8_all, if◌then◌else◌};
ghost use Rattle.smol_str.specs.BuilderState.{OnHeap, appended};
ghost use Rattle.smol_str.specs.Text.{IsShort, place_of, size};
ghost use Rattle.smol_str.specs.Meaning.{IsValueOf, texts};
ghost use Rattle.uses.specs.Layout.{chord_text, untabbed, margin, line_text, right_aligned};

use smol_str::{FormatError, SmolStr, SmolStrBuilder, StrExt, format_smolstr};
use std::alloc::{AllocError, Global};
use std::iter;

/// Tokens at a level of indentation.
#[derive(Drop)]
pub struct Line {
    pub level: u8,
    pub tokens: Vec<SmolStr>,
}

/// A text with four spaces in place of each tab.
#[tactic(auto, using(smol_str::proofs::CallerLemmas::texts, smol_str::proofs::CallerLemmas::replacing))]
pub fn without_tabs(alloc: Global, text: &SmolStr) -> Result<SmolStr, AllocError>
    ensures { IfOk result (λ v. IsValueOf (untabbed text.now.text) v) }
{
    text.as_str().replace_smolstr(alloc, "\t", "    ")
}

/// Four spaces for each level.
#[tactic(auto, using(smol_str::proofs::CallerLemmas::collecting_chars))]
pub fn indentation(alloc: Global, level: u8) -> Result<SmolStr, AllocError>
    ensures { IfOk result (λ v. IsValueOf (margin level) v) }
{
    SmolStr::from_chars(alloc, iter::repeat_n(' ', 4 * usize::from(level)))
}

/// The text of a line: its tokens with a space between each two, and a newline.
#[tactic(auto, using(smol_str::proofs::CallerLemmas::prints, smol_str::proofs::CallerLemmas::texts))]
pub fn lay_out_line(alloc: Global, line: &Line) -> Result<SmolStr, FormatError>
    ensures { IfOk result (λ v. IsValueOf (line_text line.now) v) }
{
    let margin = indentation(alloc, line.level)?;
    let row = SmolStr::join(alloc, &line.tokens, " ")?;
    print_line(alloc, &margin, &without_tabs(alloc, &row)?)
}

fn print_line(alloc: Global, margin: &SmolStr, row: &SmolStr) -> Result<SmolStr, FormatError>
    ensures text { IfOk result (λ v. encode_utf8_all v.text ≡
        encode_utf8_all margin.now.text ++ (encode_utf8_all row.now.text ++ codes "\n")) }
    ensures place { IfOk result (λ v. v.place ≡ place_of v.text) }
{
    format_smolstr!(alloc; "{margin}{row}\n")
}

/// A number, with spaces in front of it up to six characters.
pub fn wide_number(alloc: Global, number: u64) -> Result<SmolStr, FormatError>
    ensures text { IfOk result (λ v. encode_utf8_all v.text ≡ right_aligned 6 number) }
    ensures place { IfOk result (λ v. v.place ≡ place_of v.text) }
{
    format_smolstr!(alloc; "{number:>6}")
}

/// The index of the token that has the byte at an offset of their text, and the offset in it.
#[tactic(auto, using(smol_str::proofs::CallerLemmas::sized))]
pub fn token_at(tokens: &[SmolStr], offset: usize) -> Option<(usize, usize)>
    ensures found { IfSome result (λ it. size (concat (take it.0 (texts tokens.now))) + it.1 ≡ offset) }
    ensures within { IfSome result (λ it. IfSome (slice_get (texts tokens.now) it.0) (λ t. it.1 < size t)) }
    ensures none { IfNone result (size (concat (texts tokens.now)) ≤ offset) }
{
    let mut left = offset;
    for (index, token) in tokens.iter().enumerate() {
        if left < token.len() {
            return Some((index, left));
        }
        left -= token.len();
    }
    None
}

/// A word where a modifier is held, and else nothing: with it, an append under an `if` is an append.
#[tactic(auto, using(smol_str::proofs::CallerLemmas::tested))]
fn when(held: bool, word: &str) -> &str
    ensures { chars result.now ≡ if held then chars word.now else [] }
{
    if held { word } else { "" }
}

/// The name of a key chord at a builder's end: the modifiers that are held, and the key.
#[tactic(auto, using(smol_str::proofs::CallerLemmas::passed_builders))]
pub fn push_chord(
    out: &mut SmolStrBuilder,
    ctrl: bool,
    shift: bool,
    key: &str,
) -> Result<(), AllocError>
    ensures ok { OnOk result (out.new ≡ appended out.old (chord_text ctrl shift (chars key.now))) }
    ensures refused { OnErr result ((appended out.old (chord_text ctrl shift (chars key.now))).kind ≡ OnHeap) }
{
    out.push_str(when(ctrl, "ctrl+"))?;
    out.push_str(when(shift, "shift+"))?;
    out.push_str(key)
}

/// The name of a key chord.
#[tactic(auto, using(smol_str::proofs::CallerLemmas::builders))]
pub fn chord(alloc: Global, ctrl: bool, shift: bool, key: &str) -> Result<SmolStr, AllocError>
    ensures value { IfOk result (λ v. IsValueOf (chord_text ctrl shift (chars key.now)) v) }
    ensures refused { OnErr result (¬ (IsShort (chord_text ctrl shift (chars key.now)))) }
{
    let mut out = SmolStrBuilder::new(alloc);
    push_chord(&mut out, ctrl, shift, key)?;
    out.into_value()
}
