//! A header store: the last value that was set for a name, whose letters of ASCII may be in either case.
ghost use Rattle.std.specs.Prelude.{◌≡◌, ◌≢◌, ℕ, List, None, Some, IfOk, OnOk, OnErr, option_copied, chars};
ghost use Rattle.smol_str.specs.Text.{IsShort};
ghost use Rattle.smol_str.specs.Case.{lower};
ghost use Rattle.uses_maps.specs.Headers.{header_of};

use smol_str::{SmolStr, StrExt};
use std::alloc::{AllocError, Global};
use std::collections::HashMap;
use std::hash::{BuildHasher, RandomState};
use std::io;
use std::marker::Model;
use std::random::RandomSource;

/// The values of some names; each name is kept in lower case. A store means the list of names and their values.
#[derive(Drop)]
pub struct Headers<S: BuildHasher> {
    fields: HashMap<SmolStr, SmolStr, S>,
}

impl<S: BuildHasher> Model for Headers<S> {
    ghost use Rattle.std.specs.Prelude.{List};
    ghost use Rattle.smol_str.specs.Meaning.{Meaning};

    ghost Value = { List (Meaning × Meaning) };

    ghost view = { λ s. s.fields.entries };
}

impl<S: BuildHasher> Headers<S> {
    /// A store in which no name has a value. It hashes names by `state`, and what it holds does not depend on that.
    pub fn with_hasher(alloc: Global, state: S) -> Headers<S>
        ensures { (name : List ℕ) → header_of name result ≡ None }
    {
        Headers {
            fields: HashMap::with_hasher(alloc, state),
        }
    }

    /// Sets the value of a name, and leaves those of all others. A refusal leaves every one.
    #[tactic(auto, using(smol_str::proofs::CallerLemmas::updates))]
    pub fn set(&mut self, alloc: Global, name: &str, value: SmolStr) -> Result<(), AllocError>
        ensures this { OnOk result (header_of (lower (chars name.now)) self.new ≡ Some value) }
        ensures others { OnOk result ((other : List ℕ) → other ≢ lower (chars name.now) →
            header_of other self.new ≡ header_of other self.old) }
        ensures unchanged { OnErr result ((other : List ℕ) → header_of other self.new ≡ header_of other self.old) }
    {
        let key = name.to_ascii_lowercase_smolstr(alloc)?;
        self.fields.insert(key, value)?;
        Ok(())
    }

    /// The value of a name. A short name needs no memory.
    pub fn get(&self, alloc: Global, name: &str) -> Result<Option<&SmolStr>, AllocError>
        ensures ok { IfOk result (λ found. option_copied found ≡ header_of (lower (chars name.now)) self.now) }
        ensures refused { OnErr result (¬ (IsShort (chars name.now))) }
    {
        let key = name.to_ascii_lowercase_smolstr(alloc)?;
        Ok(self.fields.get(&key))
    }
}

/// A store for names that a peer chooses, who cannot know their hashes. It fails where the system gives no random bytes.
pub fn headers_of_peer(alloc: Global, rt: &impl RandomSource) -> io::Result<Headers<RandomState>>
    ensures { IfOk result (λ headers. (name : List ℕ) → header_of name headers ≡ None) }
{
    Ok(Headers::with_hasher(alloc, RandomState::new(rt)?))
}
