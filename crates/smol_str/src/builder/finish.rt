//! The value of a builder's text.
ghost use Rattle.std.specs.Prelude.{◌≡◌, IfOk, IfErr, OnErr};
ghost use Rattle.std.specs.Str.{chars};
ghost use Rattle.std.specs.String.{string_bytes};
ghost use Rattle.smol_str.specs.Text.{IsResident};
ghost use Rattle.smol_str.specs.Meaning.{IsValueOf};

use super::{BuilderRepr, SmolStrBuilder};
use crate::value::SmolStr;
use std::alloc::AllocError;

impl SmolStrBuilder {
    /// The value of the text, in the place of the text wherever the builder kept it.
    ///
    /// Builders with one text therefore finish to equal values in the same place, however each was
    /// filled. A resident text needs no memory. Any other is refused where the heap has no room for
    /// the value, and the builder is given back.
    ///
    /// ```
    /// let mut builder = SmolStrBuilder::new(alloc);
    /// builder.push_str("fn")?;
    /// let value = builder.finish().map_err(|_builder| AllocError)?;
    /// assert_eq!(rt; value.as_str(), "fn");
    /// ```
    #[inline(always)]
    pub fn finish(self) -> Result<SmolStr, SmolStrBuilder>
        ensures ok { IfOk result (λ v. IsValueOf self.text v) }
        ensures back { IfErr result (λ back. back ≡ self) }
        ensures refused { OnErr result (¬ (IsResident self.text)) }
    {
        let SmolStrBuilder {
            alloc,
            expected,
            repr,
        } = self;
        match repr {
            BuilderRepr::Inline(text) => Ok(SmolStr::from_inline(text.duplicate())),
            BuilderRepr::Heap(text) => match SmolStr::new(alloc, text.as_str()) {
                Ok(value) => Ok(value),
                Err(AllocError) => Err(SmolStrBuilder {
                    alloc,
                    expected,
                    repr: BuilderRepr::Heap(text),
                }),
            },
        }
    }

    /// Like `finish`, but drops the builder on failure, and reuses the allocation that the text is in. Spare room of more
    /// than [`INLINE_CAP`](crate::INLINE_CAP) bytes is given back where the heap does that. That no copy is made is only tested.
    ///
    /// It is refused with [`AllocError`] where the heap has no room for the value's own count.
    ///
    /// ```
    /// let mut builder = SmolStrBuilder::new(alloc);
    /// builder.push_str("fn")?;
    /// assert_eq!(rt; builder.into_value()?.as_str(), "fn");
    /// ```
    #[inline(always)]
    pub fn into_value(self) -> Result<SmolStr, AllocError>
        ensures ok { IfOk result (λ v. IsValueOf self.text v) }
        ensures refused { OnErr result (¬ (IsResident self.text)) }
    {
        let SmolStrBuilder {
            alloc: _,
            expected: _,
            repr,
        } = self;
        match repr {
            BuilderRepr::Inline(text) => Ok(SmolStr::from_inline(text.duplicate())),
            // `Ok(x?)`: returning x as it comes would build the value in memory in both arms.
            BuilderRepr::Heap(text) => Ok(value_from(text)?),
        }
    }
}

impl SmolStr {
    /// Calls `builder.finish()`; replaces upstream's `From<SmolStrBuilder>`.
    pub fn from_builder(builder: SmolStrBuilder) -> Result<SmolStr, SmolStrBuilder>
        ensures ok { IfOk result (λ v. IsValueOf builder.text v) }
        ensures back { IfErr result (λ back. back ≡ builder) }
        ensures refused { OnErr result (¬ (IsResident builder.text)) }
    {
        builder.finish()
    }
}

/// For `?` in a function that returns [`AllocError`]; the builder is dropped.
impl From<SmolStrBuilder> for AllocError {
    fn from(_builder: SmolStrBuilder) -> AllocError {
        AllocError
    }
}

/// Slow path of `into_value`, kept out of line so that the fast path inlines.
#[inline(never)]
fn value_from(text: String) -> Result<SmolStr, AllocError>
    ensures ok { IfOk result (λ v. IsValueOf (chars (string_bytes text)) v) }
    ensures refused { OnErr result (¬ (IsResident (chars (string_bytes text)))) }
{
    Ok(SmolStr::from_owned(text)?)
}
