//! Settings of a file of lines `key = value`, by their keys, in the order of the keys' first lines.
ghost use Rattle.std.specs.Prelude.{◌≡◌, ℕ, List, [], Some, bytes_eq, option_map, IfOk, OnOk, OnErr, chars};
ghost use Rattle.std.specs.Str.Lines.{lines};
ghost use Rattle.std.specs.Map.{lookup};
ghost use Rattle.uses_maps.specs.Settings.{with_setting, setting, settings, last_value};

use indexmap::IndexMap;
use smol_str::{SmolStr, StrExt};
use std::alloc::{AllocError, Global};
use std::marker::Model;

/// Keys in lower case, and the value of each. Settings mean the list of these pairs, as texts.
#[derive(Drop)]
pub struct Settings {
    entries: IndexMap<SmolStr, SmolStr>,
}

impl Model for Settings {
    ghost use Rattle.std.specs.Prelude.{ℕ, List};

    ghost Value = { List (List ℕ × List ℕ) };

    ghost use Rattle.smol_str.specs.Keys.{entry_texts};

    ghost view = { λ s. entry_texts (λ value. value.text) s.entries.entries };
}

impl Settings {
    /// No settings.
    pub fn new(alloc: Global) -> Settings
        ensures { result ≡ [] }
    {
        Settings {
            entries: IndexMap::new(alloc),
        }
    }

    /// The settings of a text's lines. A line without an equals sign sets nothing.
    #[tactic(auto, using(smol_str::proofs::CallerLemmas::by_line, crate::proofs::SettingLemmas::lookups))]
    pub fn read(alloc: Global, text: &str) -> Result<Settings, AllocError>
        ensures exact { IfOk result (λ s. s ≡ settings (lines text.now)) }
        ensures last { IfOk result (λ s.
            (key : List ℕ) → lookup (bytes_eq key) s ≡ last_value key (lines text.now)) }
    {
        let mut found = Settings::new(alloc);
        for line in text.lines() {
            found.read_line(alloc, line)?;
        }
        Ok(found)
    }

    /// Sets what a line does.
    fn read_line(&mut self, alloc: Global, line: &str) -> Result<(), AllocError>
        ensures { OnOk result (self.new ≡ with_setting self.old (setting line.now)) }
    {
        if let Some((key, value)) = line.split_once('=') {
            let key = key.trim().to_ascii_lowercase_smolstr(alloc)?;
            let value = SmolStr::new(alloc, value.trim())?;
            self.set(key, value)?;
        }
        Ok(())
    }

    /// Sets a key, which is not made lower.
    #[tactic(auto, using(smol_str::proofs::CallerLemmas::inserts))]
    pub fn set(&mut self, key: SmolStr, value: SmolStr) -> Result<(), AllocError>
        ensures ok { OnOk result (self.new ≡ with_setting self.old (Some (key.text, value.text))) }
        ensures unchanged { OnErr result (self.new ≡ self.old) }
    {
        self.entries.insert(key, value)?;
        Ok(())
    }

    /// The value of a key. No value is made of it, so no memory is asked for.
    #[tactic(auto, using(smol_str::proofs::CallerLemmas::lookups))]
    pub fn get(&self, key: &str) -> Option<&SmolStr>
        ensures { option_map (λ v. v.now.text) result ≡ lookup (bytes_eq (chars key.now)) self.now }
    {
        self.entries.get(key)
    }
}
