//! Values with other crates of the kit, a few lines each.
ghost use Rattle.std.specs.Prelude.{◌≡◌, ◌≢◌, ◌||◌, ℕ, List, Some, None, true, bytes_eq, ◌∷◌, ◌++◌, [], IfOk, OnOk, decimal, encode_utf8_all, chars};
ghost use Rattle.std.specs.List.{list_all, list_any};
ghost use Rattle.regex.specs.Patterns.{find_all_str};
ghost use Rattle.regex.specs.Strings.{matcher_pattern, with_replaced};
ghost use Rattle.indexmap.specs.IndexSet.{insert_key};
ghost use Rattle.smol_str.specs.Keys.{value_at, entry_texts, with_entry};
ghost use Rattle.serde.specs.Event.{Event, Logs, text};
ghost use Rattle.serde.specs.Steps.{format_of, input_of};
ghost use Rattle.smol_str.specs.Meaning.{IsValueOf, texts};
ghost use Rattle.smol_str.specs.Serde.{HasReadText};
ghost use Rattle.smol_str.specs.Text.{place_of};
ghost use Rattle.unicode_ident.specs.Ident.{is_xid_continue};

use csv::WriterBuilder;
use indexmap::{IndexMap, IndexSet};
use itertools::Itertools;
use itoa::Buffer;
use regex::{Matcher, Template};
use serde::{Deserialize, DeserializeOwned, Deserializer, Format, Serialize, Serializer};
use smallvec::SmallVec;
use smol_str::SmolStr;
use std::alloc::{AllocError, AllocFailed, Global};

/// A value written to any format: one text.
pub fn send<S: Serializer>(token: &SmolStr, out: &mut S) -> Result<(), S::Error>
    ensures { OnOk result (Logs (S.written out.old) (S.written out.new) (text (encode_utf8_all token.now.text))) }
{
    token.serialize(out)
}

/// A value read from any format: the text that came, in its place.
pub fn receive<'de, F: Format>(
    alloc: Global,
    from: &mut Deserializer<'de, '_, F>,
) -> Result<SmolStr, F::Error>
    ensures read { IfOk result (λ v. HasReadText F.gives from.old v.text from.new) }
    ensures place { IfOk result (λ v. v.place ≡ place_of v.text) }
{
    SmolStr::deserialize(alloc, from)
}

/// A value read from any format, which borrows nothing from the input.
pub fn receive_owned<F: Format>(
    alloc: Global,
    from: &mut Deserializer<'_, '_, F>,
) -> Result<SmolStr, F::Error>
    ensures read { IfOk result (λ v. HasReadText F.gives from.old v.text from.new) }
    ensures place { IfOk result (λ v. v.place ≡ place_of v.text) }
{
    SmolStr::deserialize_owned(alloc, from)
}

/// A value of a format that is known to have a name next: its text.
#[tactic(auto, using(smol_str::proofs::CallerLemmas::texts))]
pub fn receive_known<F: Format>(
    alloc: Global,
    from: &mut Deserializer<'_, '_, F>,
    name: &str,
) -> Result<SmolStr, F::Error>
    requires known { (event : Event) (after : F) →
        F.gives (format_of from.old) (input_of from.old) event after → event ≡ text name.now }
    ensures { IfOk result (λ v. v.text ≡ chars name.now) }
{
    SmolStr::deserialize_owned(alloc, from)
}

/// A package of a manifest, in any format of serde.
#[derive(Debug, Drop, PartialEq, Serialize, Deserialize)]
pub struct Package {
    pub name: SmolStr,
    #[serde(default)]
    pub tags: Vec<SmolStr>,
}

/// A package from JSON.
pub fn read_package(alloc: Global, json: &str) -> Result<Package, serde_json::Error> {
    serde_json::from_str(alloc, json)
}

/// Whether a set has a name; no value is made to look it up.
#[tactic(auto, using(smol_str::proofs::CallerLemmas::inserts))]
pub fn has_name(names: &IndexSet<SmolStr>, name: &str) -> bool
    ensures { result ≡ list_any (bytes_eq (chars name.now)) (texts names.now.keys) }
{
    names.contains(name)
}

/// Adds a name to a set, last where it is new.
#[tactic(auto, using(smol_str::proofs::CallerLemmas::inserts))]
pub fn add_name(names: &mut IndexSet<SmolStr>, name: SmolStr) -> Result<(), AllocError>
    ensures names { OnOk result (texts names.new.keys ≡ insert_key bytes_eq (texts names.old.keys) name.text) }
    ensures has { OnOk result ((t : List ℕ) → list_any (bytes_eq t) (texts names.new.keys)
        ≡ (list_any (bytes_eq t) (texts names.old.keys) || bytes_eq t name.text)) }
{
    names.insert(name)?;
    Ok(())
}

/// Counts a name in a map.
#[tactic(auto, using(smol_str::proofs::CallerLemmas::inserts))]
pub fn set_count(
    counts: &mut IndexMap<SmolStr, u32>,
    name: SmolStr,
    count: u32,
) -> Result<(), AllocError>
    ensures { OnOk result (entry_texts (λ n. n) counts.new.entries
        ≡ with_entry (entry_texts (λ n. n) counts.old.entries) name.text count) }
{
    counts.insert(name, count)?;
    Ok(())
}

/// Counts a name in a map, and looks it up by its text.
#[tactic(auto, using(smol_str::proofs::CallerLemmas::put_and_asked))]
pub fn count_once(
    map: &mut IndexMap<SmolStr, u32>,
    name: SmolStr,
    text: &str,
) -> Result<Option<u32>, AllocError>
    requires { name.text ≡ chars text.now }
    ensures { IfOk result (λ n. n ≡ Some 1) }
{
    map.insert(name, 1)?;
    Ok(map.get(text).copied())
}

/// Adds a name to a set, which then has its text.
#[tactic(auto, using(smol_str::proofs::CallerLemmas::put_and_asked))]
pub fn add_and_ask(
    names: &mut IndexSet<SmolStr>,
    name: SmolStr,
    text: &str,
) -> Result<bool, AllocError>
    requires { name.text ≡ chars text.now }
    ensures { IfOk result (λ has. has ≡ true) }
{
    names.insert(name)?;
    Ok(names.contains(text))
}

/// Takes a name out of a map, and leaves the others in their order.
#[tactic(auto, using(smol_str::proofs::CallerLemmas::lookups, smol_str::proofs::CallerLemmas::updates))]
pub fn forget(ids: &mut IndexMap<SmolStr, u32>, name: &str) -> Option<u32>
    ensures was { result ≡ value_at (chars name.now) ids.old }
    ensures gone { value_at (chars name.now) ids.new ≡ None }
    ensures others { (t : List ℕ) → t ≢ chars name.now → value_at t ids.new ≡ value_at t ids.old }
{
    ids.shift_remove(name)
}

/// The CSV row of some values.
pub fn csv_row(alloc: Global, fields: &[SmolStr]) -> Result<Vec<u8>, csv::Error> {
    let mut writer = WriterBuilder::new().from_writer(Vec::new(alloc));
    writer.write_record(fields)?;
    writer.into_inner().map_err(|refused| refused.into_error())
}

/// A text with each match of a pattern replaced.
pub fn cleaned(
    alloc: Global,
    matcher: &mut Matcher,
    text: &str,
    with: &Template,
) -> Result<SmolStr, AllocError>
    ensures { IfOk result (λ v. IsValueOf (chars (with_replaced matcher.old text.now with.now
        (find_all_str (matcher_pattern matcher.old) text.now))) v) }
{
    SmolStr::from_owned(matcher.replace_all(alloc, text, with)?)
}

/// A number in decimal digits.
#[tactic(auto, using(smol_str::proofs::CallerLemmas::owned))]
pub fn numbered(alloc: Global, number: u64) -> Result<SmolStr, AllocError>
    ensures { IfOk result (λ v. IsValueOf (decimal number) v) }
{
    SmolStr::new(alloc, Buffer::new().format(number))
}

/// Whether each character of a name may continue an identifier.
pub fn goes_on(name: &SmolStr) -> bool
    ensures { result ≡ list_all is_xid_continue (chars (encode_utf8_all name.now.text)) }
{
    name.chars().all(|c| unicode_ident::is_xid_continue(c))
}

/// The first and the last of some names, in their order.
pub fn ends_of(names: &[SmolStr]) -> Option<(&SmolStr, &SmolStr)> {
    names.iter().minmax().into_option()
}

/// A path of up to four names needs no list on the heap.
pub fn extended(path: &mut SmallVec<SmolStr, 4>, name: SmolStr) -> Result<(), AllocFailed<SmolStr>>
    ensures { OnOk result (path.new.items ≡ path.old.items ++ name ∷ []) }
{
    path.push(name)
}
