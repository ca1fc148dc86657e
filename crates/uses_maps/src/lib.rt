//! Callers with values in lists and maps: sorted, looked up, in maps one inside another; and callers of the program's core.
#![tactic(auto)]

ghost use Rattle.std.specs.Map.{lookup};
ghost use Rattle.std.specs.Prelude.{◌≡◌, ◌<◌, IfNone, IfSome, IsSomeAnd, ◌↔◌, OnOk, OnErr, IfOk, IsTrue, Some, false, option_copied, slice_get, ◌≢◌, ℕ, List, true, bytes_eq, option_map, chars};
ghost use Rattle.std.specs.Ordering.{nat_cmp};
ghost use Rattle.std.specs.Cmp.Lexicographic.{slice_cmp};
ghost use Rattle.std.specs.List.Sorted.{IsPermutation, IsSorted, IsStrictlySortedBy};
ghost use Rattle.smol_str.specs.Keys.{ordered_value_at, value_at, has_text, is_before, innermost, entry_lists, entry_texts};
ghost use Rattle.smol_str.specs.Meaning.{texts};

pub mod fields;
pub mod groups;
pub mod headers;
pub mod paths;
pub mod reports;
pub mod settings;
pub mod symbols;

use indexmap::IndexMap;
use smol_str::SmolStr;
use std::alloc::{AllocError, Global};
use std::collections::{BTreeMap, HashMap};

/// Puts values in the order of their texts.
#[tactic(auto, using(smol_str::proofs::CallerLemmas::sorting))]
pub fn sort_names(names: &mut Vec<SmolStr>) -> Result<(), AllocError>
    ensures same { IsPermutation names.old.items names.new.items }
    ensures sorted { OnOk result (IsSorted (slice_cmp nat_cmp) (texts names.new.items)) }
    ensures refused { OnErr result (names.new.items ≡ names.old.items) }
{
    names.sort()?;
    Ok(())
}

/// The values in the order of their texts, each text once.
#[tactic(auto, using(smol_str::proofs::CallerLemmas::sorting))]
pub fn sorted_once(mut names: Vec<SmolStr>) -> Result<Vec<SmolStr>, AllocError>
    ensures { IfOk result (λ once. IsStrictlySortedBy (slice_cmp nat_cmp) (texts once.items)) }
{
    sort_names(&mut names)?;
    names.dedup();
    Ok(names)
}

/// The index of a name in names that are sorted by their texts.
#[tactic(auto, using(smol_str::proofs::CallerLemmas::sorting))]
pub fn index_of(names: &[SmolStr], name: &SmolStr) -> Result<usize, usize>
    requires sorted { IsSorted (slice_cmp nat_cmp) (texts names.now) }
    ensures found { IfOk result (λ i. slice_get (texts names.now) i ≡ Some name.now.text) }
    ensures none { OnErr result (has_text name.now.text names.now ≡ false) }
{
    names.binary_search(name)
}

/// What an ordered map has at a value's text.
pub fn ordered_id<'a>(ids: &'a BTreeMap<SmolStr, usize>, name: &SmolStr) -> Option<&'a usize>
    ensures { option_copied result ≡ ordered_value_at name.now.text ids.now }
{
    ids.get(name)
}

/// Sets what an ordered map has at a name.
#[tactic(auto, using(smol_str::proofs::CallerLemmas::updates))]
pub fn set_ordered(
    ids: &mut BTreeMap<SmolStr, usize>,
    name: SmolStr,
    id: usize,
) -> Result<(), AllocError>
    ensures this { OnOk result (ordered_value_at name.text ids.new ≡ Some id) }
    ensures others { OnOk result ((t : List ℕ) → t ≢ name.text → ordered_value_at t ids.new ≡ ordered_value_at t ids.old) }
{
    ids.insert(name, id)?;
    Ok(())
}

/// What a map of `indexmap` has at a name.
#[tactic(auto, using(smol_str::proofs::CallerLemmas::lookups))]
pub fn id_by_text<'a>(ids: &'a IndexMap<SmolStr, u64>, name: &str) -> Option<&'a u64>
    ensures { option_copied result ≡ value_at (chars name.now) ids.now }
{
    ids.get(name)
}

/// Whether a value of a list has a name's text.
pub fn is_among(names: &[SmolStr], name: &str) -> bool
    ensures { result ≡ has_text (chars name.now) names.now }
{
    names.iter().any(|it| it.eq_str(name))
}

/// The index of the first value that has a name's text.
pub fn first_of_name(names: &[SmolStr], name: &str) -> Option<usize>
    ensures found { IfSome result (λ i. IsSomeAnd (slice_get names.now i) (λ v. v.text ≡ chars name.now)) }
    ensures first { IfSome result (λ i. (k : ℕ) → k < i →
        IfSome (slice_get names.now k) (λ v. ¬ (v.text ≡ chars name.now))) }
    ensures none { IfNone result ((k : ℕ) → IfSome (slice_get names.now k) (λ v. ¬ (v.text ≡ chars name.now))) }
{
    names.iter().position(|it| it.eq_str(name))
}

/// Whether two lists have the same texts, in the same order.
#[tactic(auto, using(smol_str::proofs::CallerLemmas::sorting))]
pub fn same_names(left: &[SmolStr], right: &[SmolStr]) -> bool
    ensures { IsTrue result ↔ (texts left.now ≡ texts right.now) }
{
    left == right
}

/// Whether a name comes before another.
pub fn comes_before(left: &SmolStr, right: &SmolStr) -> bool
    ensures { result ≡ is_before left.now.text right.now.text }
{
    left < right
}

/// Binds a name in the innermost scope; `false` if there is none.
#[tactic(auto, using(smol_str::proofs::CallerLemmas::scopes, smol_str::proofs::CallerLemmas::updates))]
pub fn bind(
    scopes: &mut Vec<HashMap<SmolStr, u32>>,
    name: SmolStr,
    value: u32,
) -> Result<bool, AllocError>
    ensures this { IfOk result (λ bound. bound ≡ true → innermost name.text (entry_lists scopes.new.items) ≡ Some value) }
    ensures others { OnOk result ((t : List ℕ) → t ≢ name.text →
        innermost t (entry_lists scopes.new.items) ≡ innermost t (entry_lists scopes.old.items)) }
{
    let Some(scope) = scopes.last_mut() else {
        return Ok(false);
    };
    scope.insert(name, value)?;
    Ok(true)
}

/// The value in the innermost scope that binds a name.
#[tactic(auto, using(smol_str::proofs::CallerLemmas::scopes))]
pub fn find(scopes: &[HashMap<SmolStr, u32>], name: &SmolStr) -> Option<u32>
    ensures { result ≡ innermost name.now.text (entry_lists scopes.now) }
{
    for scope in scopes.iter().rev() {
        if let Some(value) = scope.get(name) {
            return Some(*value);
        }
    }
    None
}

/// What a map has at a text, through a key that is made of it.
#[tactic(auto, using(smol_str::proofs::CallerLemmas::lookups))]
pub fn value_of<'a>(
    alloc: Global,
    map: &'a IndexMap<SmolStr, SmolStr>,
    text: &str,
) -> Result<Option<&'a SmolStr>, AllocError>
    ensures { IfOk result (λ found. option_map (λ v. v.now.text) found
        ≡ lookup (bytes_eq (chars text.now)) (entry_texts (λ v. v.text) map.now.entries)) }
{
    let key = SmolStr::new(alloc, text)?;
    Ok(map.get(&key))
}
