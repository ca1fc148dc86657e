//! ASCII case, in a copy of the text.
ghost use Rattle.std.specs.Prelude.{IfOk, OnErr};
ghost use Rattle.std.specs.Str.{chars};
ghost use Rattle.smol_str.specs.Text.{IsShort};
ghost use Rattle.smol_str.specs.Meaning.{IsValueOf};
ghost use Rattle.smol_str.specs.Case.{converted};

use crate::buffer::INLINE_CAP;
use crate::kernel::AsciiCase;
use crate::value::SmolStr;
use std::alloc::{AllocError, Global};

/// The text with its ASCII letters in a case.
#[inline(always)]
#[tactic(auto, using(crate::proofs::CaseLemmas::Full::sizes_of_bytes))]
pub(super) fn to_ascii_case(
    alloc: Global,
    text: &str,
    case: AsciiCase,
) -> Result<SmolStr, AllocError>
    ensures ok { IfOk result (λ v. IsValueOf (converted case (chars text.now)) v) }
    ensures refused { OnErr result (¬ (IsShort (chars text.now))) }
{
    if text.len() <= INLINE_CAP {
        return Ok(SmolStr::new_inline_in_case(text, case));
    }
    to_ascii_case_on_heap(alloc, text, case)
}

/// Any text with its ASCII letters in a case, in a copy. Slow path, kept out of line so that the fast path
/// inlines.
#[inline(never)]
pub(super) fn to_ascii_case_on_heap(
    alloc: Global,
    text: &str,
    case: AsciiCase,
) -> Result<SmolStr, AllocError>
    ensures { IfOk result (λ v. IsValueOf (converted case (chars text.now)) v) }
{
    let mut copy = String::from_str(alloc, text)?;
    match case {
        AsciiCase::Lower => copy.make_ascii_lowercase(),
        AsciiCase::Upper => copy.make_ascii_uppercase(),
    }
    SmolStr::from_owned(copy)
}
