//! Entries of maps that are changed in place: names in groups, and words counted.
ghost use Rattle.std.specs.Prelude.{◌≡◌, ◌++◌, ◌∷◌, [], OnOk, IfOk, fold};
ghost use Rattle.smol_str.specs.Keys.{entry_texts, with_change};
ghost use Rattle.smol_str.specs.Meaning.{texts};
ghost use Rattle.uses_maps.specs.Names.{with_word};

use indexmap::IndexMap;
use smol_str::SmolStr;
use std::alloc::{AllocError, Global};

/// Adds a name to a group, which comes last where it is new.
#[tactic(auto, using(smol_str::proofs::CallerLemmas::grouped))]
pub fn add(
    groups: &mut IndexMap<SmolStr, Vec<SmolStr>>,
    group: SmolStr,
    name: &SmolStr,
) -> Result<(), AllocError>
    ensures { OnOk result (entry_texts (λ names. texts names.items) groups.new.entries
        ≡ with_change (entry_texts (λ names. texts names.items) groups.old.entries) group.text [] (λ ts. ts ++ name.now.text ∷ [])) }
{
    groups.entry(group)?.or_default().push(name.clone()?)?;
    Ok(())
}

/// Counts a word, in the order of the first ones.
#[tactic(auto, using(smol_str::proofs::CallerLemmas::counted))]
pub fn count_in_order(counts: &mut IndexMap<SmolStr, u32>, word: SmolStr) -> Result<(), AllocError>
    ensures { OnOk result (entry_texts (λ n. n) counts.new.entries ≡ with_word (entry_texts (λ n. n) counts.old.entries) word.text) }
{
    let count = counts.entry(word)?.or_default();
    *count = count.saturating_add(1);
    Ok(())
}

/// Counts each of some words.
#[tactic(auto, using(smol_str::proofs::CallerLemmas::by_text))]
pub fn count_all(alloc: Global, words: &[SmolStr]) -> Result<IndexMap<SmolStr, u32>, AllocError>
    ensures { IfOk result (λ counts. entry_texts (λ n. n) counts.entries ≡ fold with_word [] (texts words.now)) }
{
    let mut counts = IndexMap::new(alloc);
    for word in words {
        count_in_order(&mut counts, word.clone()?)?;
    }
    Ok(counts)
}
