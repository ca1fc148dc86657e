//! A symbol table of std's types: a list has the name of each id, and a map the id of each name.
#![tactic(auto, using(smol_str::proofs::CallerLemmas::interning))]

ghost use Rattle.std.specs.Prelude.{◌≡◌, ◌<◌, ◌++◌, ◌∷◌, [], length, IfOk, OnOk, OnErr, slice_get, None, Some, chars};
ghost use Rattle.smol_str.specs.Keys.{id_of, interned};

use smol_str::SmolStr;
use std::alloc::{AllocError, Global};
use std::collections::HashMap;
use std::hash::BuildHasher;
use std::marker::Model;

/// Names in the order in which they were first seen. A table means the list of their texts; its map agrees with that.
#[derive(Drop)]
pub struct Symbols<S: BuildHasher> {
    alloc: Global,
    names: Vec<SmolStr>,
    ids: HashMap<SmolStr, usize, S>,
}

impl<S: BuildHasher> Model for Symbols<S> {
    ghost use Rattle.std.specs.Prelude.{◌≡◌, ℕ, List};
    ghost use Rattle.smol_str.specs.Keys.{ids_in, ids_of};
    ghost use Rattle.smol_str.specs.Meaning.{texts};

    ghost Value = { List (List ℕ) };

    ghost view = { λ s. texts s.names.items };

    ghost invariant = { λ s. ids_in s.ids.entries ≡ ids_of (texts s.names.items) };
}

impl<S: BuildHasher> Symbols<S> {
    /// A table of no names, that hashes names by `state`. No id depends on the state.
    pub fn with_hasher(alloc: Global, state: S) -> Symbols<S>
        ensures { result ≡ [] }
    {
        Symbols {
            alloc,
            names: Vec::new(alloc),
            ids: HashMap::with_hasher(alloc, state),
        }
    }

    /// The id of a text: the one that it has, else a new one. A refusal changes nothing.
    pub fn intern(&mut self, text: &str) -> Result<usize, AllocError>
        ensures id { IfOk result (λ id. id_of (chars text.now) self.new ≡ Some id) }
        ensures names { OnOk result (self.new ≡ interned (chars text.now) self.old) }
        ensures unchanged { OnErr result (self.new ≡ self.old) }
    {
        let name = SmolStr::new(self.alloc, text)?;
        match self.find(&name) {
            Some(id) => Ok(id),
            None => self.add(name),
        }
    }

    /// The id of a name, if it has one.
    pub fn find(&self, name: &SmolStr) -> Option<usize>
        ensures { result ≡ id_of name.now.text self.now }
    {
        self.ids.get(name).copied()
    }

    /// A new id for a name that has none.
    fn add(&mut self, name: SmolStr) -> Result<usize, AllocError>
        requires { id_of name.text self.old ≡ None }
        ensures id { IfOk result (λ id. id_of name.text self.new ≡ Some id) }
        ensures names { OnOk result (self.new ≡ self.old ++ name.text ∷ []) }
        ensures unchanged { OnErr result (self.new ≡ self.old) }
    {
        // Room in the list first: once the map has the name, nothing can be refused.
        self.names.reserve(1)?;
        let id = self.names.len();
        self.ids.insert(name.clone()?, id)?;
        self.names.push_reserved(name);
        Ok(id)
    }

    /// The text of an id.
    #[tactic(auto, using(smol_str::proofs::CallerLemmas::listed))]
    pub fn name(&self, id: usize) -> &str
        requires { id < length self.now }
        ensures { slice_get self.now id ≡ Some (chars result.now) }
    {
        self.names[id].as_str()
    }
}

/// A text is interned, then another, and then the first again: it has the id that it had, which gives the text back.
pub fn same_id<S: BuildHasher>(
    symbols: &mut Symbols<S>,
    text: &str,
    other: &str,
) -> Result<(usize, usize), AllocError>
    ensures same { IfOk result (λ ids. ids.0 ≡ ids.1) }
    ensures back { IfOk result (λ ids. slice_get symbols.new ids.0 ≡ Some (chars text.now)) }
{
    let first = symbols.intern(text)?;
    symbols.intern(other)?;
    let again = symbols.intern(text)?;
    Ok((first, again))
}
