//! Paths as lists of segments, from the one at hand upwards.
ghost use Rattle.std.specs.Prelude.{◌≡◌, ◌-◌, ◌<◌, ◌≤◌, ◌↔◌, IsTrue, OnOk, bytes_eq, length, slice_get, take, chars};
ghost use Rattle.smol_str.specs.Meaning.{texts};
ghost use Rattle.uses_maps.specs.Names.{above, dots, segment_kind};

use smol_str::SmolStr;
use std::alloc::AllocError;

/// Whether a segment leads one up.
#[tactic(auto, using(smol_str::proofs::CallerLemmas::tested))]
pub fn leads_up(segment: &SmolStr) -> bool
    ensures { result ≡ bytes_eq segment.now.text dots }
{
    segment.eq_str("..")
}

/// Which segment it is.
#[tactic(auto, using(smol_str::proofs::CallerLemmas::tested))]
pub fn kind(segment: &str) -> u8
    ensures { result ≡ segment_kind (chars segment.now) }
{
    match segment {
        "" | "." => 0,
        ".." => 1,
        _ => 2,
    }
}

/// One up.
#[tactic(auto, using(smol_str::proofs::CallerLemmas::stacked))]
pub fn go_up(path: &mut Vec<SmolStr>) -> Result<(), AllocError>
    ensures { OnOk result (texts path.new.items
        ≡ above (texts path.old.items) (slice_get (texts path.old.items) (length (texts path.old.items) - 1))) }
{
    match path.last() {
        Some(last) if !leads_up(last) => {
            path.pop();
        }
        _ => path.push(SmolStr::new_inline(".."))?,
    }
    Ok(())
}

/// How many segments two paths have in common at the front.
#[tactic(auto, using(smol_str::proofs::CallerLemmas::side_by_side))]
pub fn common_front(left: &[SmolStr], right: &[SmolStr]) -> usize
    ensures within { (result ≤ length left.now) × (result ≤ length right.now) }
    ensures same { take result (texts left.now) ≡ take result (texts right.now) }
    ensures ends { result < length left.now → result < length right.now →
        ¬ (slice_get (texts left.now) result ≡ slice_get (texts right.now) result) }
{
    let shorter = left.len().min(right.len());
    for at in 0..shorter {
        if left[at] != right[at] {
            return at;
        }
    }
    shorter
}

/// Whether a path leads to a folder or into it.
pub fn is_within(path: &[SmolStr], folder: &[SmolStr]) -> bool
    ensures { IsTrue result ↔ (take (length folder.now) (texts path.now) ≡ texts folder.now) }
{
    common_front(path, folder) == folder.len()
}
