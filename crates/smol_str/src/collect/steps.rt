//! Building by a list of steps.
ghost use Rattle.std.specs.Prelude.{◌<◌, ◌⊎◌, IfOk, OnErr};
ghost use Rattle.std.proofs.Common.{refl};
ghost use Rattle.smol_str.specs.Text.{IsShort};
ghost use Rattle.smol_str.specs.Meaning.{IsValueOf};
ghost use Rattle.smol_str.specs.Joined.{joined};
ghost use Rattle.smol_str.specs.Steps.{step_text, step_ref_text};

use super::{Piece, append_all};
use crate::buffer::INLINE_CAP;
use crate::builder::SmolStrBuilder;
use crate::value::SmolStr;
use std::alloc::{AllocError, Global};

/// One call of a builder that appends.
#[derive(Debug, Drop)]
pub enum Step {
    /// [`SmolStrBuilder::push`] of the character.
    Push(char),
    /// [`SmolStrBuilder::push_str`] of the text.
    PushStr(String),
}

/// A builder of `capacity` bytes, each of `steps` in order, and the finished value.
///
/// The promise holds for every list of steps: however a text was built, the value has exactly the
/// steps' texts, one after another, in the place of that text. Neither the capacity nor the way the
/// text was cut into steps can be seen in the value. While the joined text is short and the capacity
/// at most [`INLINE_CAP`], no memory is needed; a refusal is [`AllocError`], and nothing is made.
///
/// ```
/// let steps = vec![in alloc; Step::Push('a'), Step::Push('b')]?;
/// let ab = build(alloc, 0, &steps)?;
/// assert_eq!(rt; ab.as_str(), "ab");
/// ```
pub fn build(alloc: Global, capacity: usize, steps: &[Step]) -> Result<SmolStr, AllocError>
    ensures ok { IfOk result (λ v. IsValueOf (joined step_text steps.now) v) }
    ensures refused { OnErr result ((INLINE_CAP < capacity) ⊎ (¬ (IsShort (joined step_text steps.now)))) }
{
    let mut builder = SmolStrBuilder::with_capacity(alloc, capacity)?;
    append_all(&mut builder, steps.iter())?;
    Ok(builder.finish()?)
}

/// So that steps are appended as other items are.
impl<'a> Piece for &'a Step {
    ghost text = { step_ref_text };

    ghost texts = { joined step_ref_text };

    ghost joins = { λ _. refl };

    fn append_to(&self, builder: &mut SmolStrBuilder) -> Result<(), AllocError> {
        match *self {
            Step::Push(character) => builder.push(*character),
            Step::PushStr(text) => builder.push_str(text.as_str()),
        }
    }
}
