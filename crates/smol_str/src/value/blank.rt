//! Blank runs: newlines and then spaces, as source code has them between its tokens.
//!
//! A run that fits is a slice of one constant, so it needs no memory.
ghost use Rattle.std.specs.Prelude.{◌≡◌, ◌≤◌, length, IfSome, MatchOption};
ghost use Rattle.std.specs.Str.{chars};
ghost use Rattle.smol_str.specs.Text.{IsBlankRun, blank_run, leading_newlines};
ghost use Rattle.smol_str.specs.Meaning.{IsValueOf};

use super::{Repr, SmolStr};
use crate::buffer::INLINE_CAP;

/// The most newlines of a blank run that needs no memory.
pub const BLANK_NEWLINES: usize = 64;

/// The most spaces of a blank run that needs no memory.
pub const BLANK_SPACES: usize = 256;

const BLANK: &str =
    "\n\n\n\n\n\n\n\n\n\n\n\n\n\n\n\n\n\n\n\n\n\n\n\n\n\n\n\n\n\n\n\n\n\n\n\n\n\n\n\n\n\n\n\n\n\n\n\n\n\n\n\n\n\n\n\n\n\n\n\n\n\n\n\n                                                                                                                                                                                                                                                                ";

impl SmolStr {
    /// A value of `newlines` newlines and then `spaces` spaces, which needs no memory.
    ///
    /// ```
    /// let indent = SmolStr::blank(1, 8);
    /// assert_eq!(rt; indent.as_str(), "\n        ");
    /// ```
    #[inline(always)]
    pub fn blank(newlines: usize, spaces: usize) -> SmolStr
        requires few_newlines { newlines ≤ BLANK_NEWLINES }
        requires few_spaces { spaces ≤ BLANK_SPACES }
        ensures { IsValueOf (blank_run newlines spaces) result }
    {
        let run = blank_text(newlines, spaces);
        if run.len() <= INLINE_CAP {
            return SmolStr::new_inline(run);
        }
        SmolStr {
            repr: Repr::Static(run),
        }
    }
}

/// The slice of the blank constant that equals the text; `None` exactly where the text is not a
/// blank run.
#[inline(always)]
pub(crate) fn blank_slice(text: &str) -> Option<&'static str>
    ensures run { MatchOption result (¬ (IsBlankRun text.now)) (λ _. IsBlankRun text.now) }
    ensures reads { IfSome result (λ run. run.now ≡ text.now) }
{
    // Most texts fail at the first byte.
    if let Some(byte) = text.as_bytes().first() {
        if *byte != b'\n' && *byte != b' ' {
            return None;
        }
    }
    find_blank(text)
}

/// The whole test.
#[inline(never)]
fn find_blank(text: &str) -> Option<&'static str>
    ensures run { MatchOption result (¬ (IsBlankRun text.now)) (λ _. IsBlankRun text.now) }
    ensures reads { IfSome result (λ run. run.now ≡ text.now) }
{
    let newlines = count_leading_newlines(text.as_bytes());
    let spaces = text.len() - newlines;
    if newlines > BLANK_NEWLINES || spaces > BLANK_SPACES {
        return None;
    }
    let run = blank_text(newlines, spaces);
    // std compares many bytes at a time.
    if text != run {
        return None;
    }
    Some(run)
}

/// The slice of the constant that is `newlines` newlines and then `spaces` spaces.
#[inline(always)]
pub(crate) fn blank_text(newlines: usize, spaces: usize) -> &'static str
    requires few_newlines { newlines ≤ BLANK_NEWLINES }
    requires few_spaces { spaces ≤ BLANK_SPACES }
    ensures bytes { result.now ≡ blank_run newlines spaces }
    ensures text { chars result.now ≡ blank_run newlines spaces }
{
    &blank_constant()[BLANK_NEWLINES - newlines..BLANK_NEWLINES + spaces]
}

/// The whole constant, behind a call so that no goal shows its bytes.
fn blank_constant() -> &'static str
    ensures { result.now ≡ blank_run BLANK_NEWLINES BLANK_SPACES }
{
    BLANK
}

/// How many newlines the bytes begin with.
fn count_leading_newlines(bytes: &[u8]) -> usize
    ensures value { result ≡ leading_newlines bytes.now }
    ensures within { result ≤ length bytes.now }
{
    bytes.iter().take_while(|byte| **byte == b'\n').count()
}
