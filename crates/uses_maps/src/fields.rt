//! The fields of a message, in the order of the names' first fields. The letters of ASCII of a name may be in either case.
ghost use Rattle.std.specs.Map.{lookup};
ghost use Rattle.std.specs.Prelude.{◌≡◌, [], None, IfOk, OnOk, OnErr, bytes_eq, chars, flat_map, option_map};
ghost use Rattle.smol_str.specs.BuilderState.{appended};
ghost use Rattle.smol_str.specs.Case.{lower};
ghost use Rattle.smol_str.specs.Keys.{with_entry};
ghost use Rattle.smol_str.specs.Meaning.{IsValueOf};
ghost use Rattle.smol_str.specs.Text.{IsShort};
ghost use Rattle.uses_maps.specs.Fields.{field_text, merged};

use indexmap::IndexMap;
use smol_str::{SmolStr, SmolStrBuilder, StrExt};
use std::alloc::{AllocError, Global};
use std::marker::Model;

/// Names in lower case, and the value of each. Fields mean the list of these pairs, as texts.
#[derive(Drop)]
pub struct Fields {
    entries: IndexMap<SmolStr, SmolStr>,
}

impl Model for Fields {
    ghost use Rattle.std.specs.Prelude.{ℕ, List};

    ghost Value = { List (List ℕ × List ℕ) };

    ghost use Rattle.smol_str.specs.Keys.{entry_texts};

    ghost view = { λ s. entry_texts (λ value. value.text) s.entries.entries };
}

impl Fields {
    /// No fields.
    pub fn new(alloc: Global) -> Fields
        ensures { result ≡ [] }
    {
        Fields {
            entries: IndexMap::new(alloc),
        }
    }

    /// The value of a name. A short name needs no memory.
    pub fn get(&self, alloc: Global, name: &str) -> Result<Option<&SmolStr>, AllocError>
        ensures ok { IfOk result (λ found. option_map (λ v. v.now.text) found ≡ lookup (bytes_eq (lower (chars name.now))) self.now) }
        ensures refused { OnErr result (¬ (IsShort (chars name.now))) }
    {
        let key = name.to_ascii_lowercase_smolstr(alloc)?;
        Ok(self.find(&key))
    }

    /// Sets the value of a name.
    pub fn set(&mut self, alloc: Global, name: &str, value: SmolStr) -> Result<(), AllocError>
        ensures ok { OnOk result (self.new ≡ with_entry self.old (lower (chars name.now)) value.text) }
        ensures unchanged { OnErr result (self.new ≡ self.old) }
    {
        let key = name.to_ascii_lowercase_smolstr(alloc)?;
        self.put(key, value)
    }

    /// Adds a value to what a name has.
    pub fn add(&mut self, alloc: Global, name: &str, value: &SmolStr) -> Result<(), AllocError>
        ensures ok { OnOk result (self.new ≡ with_entry self.old (lower (chars name.now))
            (merged (lookup (bytes_eq (lower (chars name.now))) self.old) value.now.text)) }
        ensures unchanged { OnErr result (self.new ≡ self.old) }
    {
        let key = name.to_ascii_lowercase_smolstr(alloc)?;
        let both = merge(alloc, self.find(&key), value)?;
        self.put(key, both)
    }

    /// Takes out a name and its value.
    pub fn remove(&mut self, alloc: Global, name: &str) -> Result<Option<SmolStr>, AllocError>
        ensures was { IfOk result (λ value. option_map (λ v. v.text) value ≡ lookup (bytes_eq (lower (chars name.now))) self.old) }
        ensures gone { OnOk result (lookup (bytes_eq (lower (chars name.now))) self.new ≡ None) }
    {
        let key = name.to_ascii_lowercase_smolstr(alloc)?;
        Ok(self.take(&key))
    }

    /// The same of a name that is in lower case: no value is made of it, so no memory is asked for.
    #[tactic(auto, using(smol_str::proofs::CallerLemmas::lookups))]
    pub fn remove_lower(&mut self, name: &str) -> Option<SmolStr>
        ensures was { option_map (λ v. v.text) result ≡ lookup (bytes_eq (chars name.now)) self.old }
        ensures gone { lookup (bytes_eq (chars name.now)) self.new ≡ None }
    {
        self.entries.shift_remove(name)
    }

    /// The fields as a text, each on a line.
    #[tactic(auto, using(smol_str::proofs::CallerLemmas::by_entry))]
    pub fn to_text(&self, alloc: Global) -> Result<SmolStr, AllocError>
        ensures { IfOk result (λ v. IsValueOf (flat_map field_text self.now) v) }
    {
        let mut out = SmolStrBuilder::new(alloc);
        for (name, value) in &self.entries {
            push_field(&mut out, name, value)?;
        }
        out.into_value()
    }

    #[tactic(auto, using(smol_str::proofs::CallerLemmas::lookups))]
    fn find(&self, key: &SmolStr) -> Option<&SmolStr>
        ensures { option_map (λ v. v.now.text) result ≡ lookup (bytes_eq key.now.text) self.now }
    {
        self.entries.get(key)
    }

    #[tactic(auto, using(smol_str::proofs::CallerLemmas::inserts))]
    fn put(&mut self, key: SmolStr, value: SmolStr) -> Result<(), AllocError>
        ensures ok { OnOk result (self.new ≡ with_entry self.old key.text value.text) }
        ensures unchanged { OnErr result (self.new ≡ self.old) }
    {
        self.entries.insert(key, value)?;
        Ok(())
    }

    #[tactic(auto, using(smol_str::proofs::CallerLemmas::lookups))]
    fn take(&mut self, key: &SmolStr) -> Option<SmolStr>
        ensures was { option_map (λ v. v.text) result ≡ lookup (bytes_eq key.now.text) self.old }
        ensures gone { lookup (bytes_eq key.now.text) self.new ≡ None }
    {
        self.entries.shift_remove(key)
    }
}

/// A value, behind an old one if there is one.
#[tactic(auto, using(smol_str::proofs::CallerLemmas::builders))]
fn merge(alloc: Global, old: Option<&SmolStr>, value: &SmolStr) -> Result<SmolStr, AllocError>
    ensures { IfOk result (λ v. v.text ≡ merged (option_map (λ v. v.now.text) old.entry) value.now.text) }
{
    let Some(old) = old else {
        return value.clone();
    };
    let mut both = SmolStrBuilder::new(alloc);
    both.push_str(old)?;
    both.push_str(", ")?;
    both.push_str(value)?;
    both.into_value()
}

/// A field's line at a builder's end.
#[tactic(auto, using(smol_str::proofs::CallerLemmas::passed_builders))]
fn push_field(out: &mut SmolStrBuilder, name: &SmolStr, value: &SmolStr) -> Result<(), AllocError>
    ensures { OnOk result (out.new ≡ appended out.old (field_text (name.now.text, value.now.text))) }
{
    out.push_str(name)?;
    out.push_str(": ")?;
    out.push_str(value)?;
    out.push_str("\r\n")
}
