//! Values and fields that are among others, and those that are not.
ghost use Rattle.std.specs.Prelude.{◌≡◌, IfOk, OnOk, ◌++◌, ◌∷◌, [], if◌then◌else◌, chars};
ghost use Rattle.smol_str.specs.Keys.{within, without, values_within, values_without};
ghost use Rattle.smol_str.specs.Meaning.{AreValuesOf};
ghost use Rattle.smol_str.specs.Replace.{cut, no_limit};

use smol_str::SmolStr;
use std::alloc::{AllocError, Global};

/// The names that were not seen, in their order.
#[tactic(auto, using(smol_str::proofs::CallerLemmas::by_item), unfolding(smol_str::specs::Keys::values_without))]
pub fn unseen(alloc: Global, all: &[SmolStr], seen: &[SmolStr]) -> Result<Vec<SmolStr>, AllocError>
    ensures { IfOk result (λ v. v.items ≡ values_without all.now seen.now) }
{
    let mut names = Vec::new(alloc);
    for name in all {
        push_if(!seen.contains(name), &mut names, name)?;
    }
    Ok(names)
}

/// The names that were seen, in their order.
#[tactic(auto, using(smol_str::proofs::CallerLemmas::by_item), unfolding(smol_str::specs::Keys::values_within))]
pub fn seen_again(
    alloc: Global,
    all: &[SmolStr],
    seen: &[SmolStr],
) -> Result<Vec<SmolStr>, AllocError>
    ensures { IfOk result (λ v. v.items ≡ values_within all.now seen.now) }
{
    let mut names = Vec::new(alloc);
    for name in all {
        push_if(seen.contains(name), &mut names, name)?;
    }
    Ok(names)
}

/// The fields of a line that an old one has, too.
#[tactic(auto, using(smol_str::proofs::CallerLemmas::among))]
pub fn kept_fields(alloc: Global, line: &str, old: &str) -> Result<Vec<SmolStr>, AllocError>
    ensures { IfOk result (λ v. AreValuesOf (within (cut (chars line.now) (44 ∷ []) (no_limit (chars line.now)))
        (cut (chars old.now) (44 ∷ []) (no_limit (chars old.now)))) v.items) }
{
    let old = crate::fields(alloc, old)?;
    let new = crate::fields(alloc, line)?;
    seen_again(alloc, &new, &old)
}

/// The fields of a line that an old one lacks.
#[tactic(auto, using(smol_str::proofs::CallerLemmas::among))]
pub fn new_fields(alloc: Global, line: &str, old: &str) -> Result<Vec<SmolStr>, AllocError>
    ensures { IfOk result (λ v. AreValuesOf (without (cut (chars line.now) (44 ∷ []) (no_limit (chars line.now)))
        (cut (chars old.now) (44 ∷ []) (no_limit (chars old.now)))) v.items) }
{
    let old = crate::fields(alloc, old)?;
    let new = crate::fields(alloc, line)?;
    unseen(alloc, &new, &old)
}

fn push_if(wanted: bool, names: &mut Vec<SmolStr>, name: &SmolStr) -> Result<(), AllocError>
    ensures { OnOk result (names.new.items ≡ names.old.items ++ (if wanted then name.now ∷ [] else [])) }
{
    if wanted {
        names.push(name.clone()?)?;
    }
    Ok(())
}
