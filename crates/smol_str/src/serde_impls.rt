//! serde's traits: a value is written and read as its text, in each format and in derived types.
//!
//! A module cannot be named `serde` beside the library of that name.
ghost use Rattle.std.specs.Prelude.{◌≡◌, IfOk, encode_utf8_all};
ghost use Rattle.serde.specs.Event.{Logs, text};
ghost use Rattle.smol_str.specs.Text.{place_of};
ghost use Rattle.smol_str.specs.Serde.{HasReadText};

use crate::value::SmolStr;
use serde::{
    Described, Deserialize, DeserializeOwned, Deserializer, Format, Serialize, Serializer,
};
use std::alloc::{AllocError, Global};

/// A value sends what its text sends.
impl Described for SmolStr {
    ghost writes = { λ v old new. Logs old new (text (encode_utf8_all v.text)) };
}

impl Serialize for SmolStr {
    fn serialize<S: Serializer>(&self, out: &mut S) -> Result<(), S::Error> {
        out.str(self.as_str())
    }
}

/// The value of a text that the format reads, in the place of that text.
///
/// The text is read as a `String`, whose memory a value that is not resident keeps. So memory may be
/// refused for any text, and that is the format's own error of memory. Anything but a text is the
/// format's own error too.
impl DeserializeOwned for SmolStr {
    fn deserialize_owned<F: Format>(
        alloc: Global,
        from: &mut Deserializer<'_, '_, F>,
    ) -> Result<SmolStr, F::Error>
        ensures read { IfOk result (λ v. HasReadText F.gives from.old v.text from.new) }
        ensures place { IfOk result (λ v. v.place ≡ place_of v.text) }
    {
        let owned = from.string(alloc)?;
        match SmolStr::from_owned(owned) {
            Ok(value) => Ok(value),
            Err(AllocError) => Err(from.no_memory()),
        }
    }
}

/// As `DeserializeOwned`, also when memory is refused: a value borrows nothing from the input.
impl<'de> Deserialize<'de> for SmolStr {
    fn deserialize<F: Format>(
        alloc: Global,
        from: &mut Deserializer<'de, '_, F>,
    ) -> Result<SmolStr, F::Error>
        ensures read { IfOk result (λ v. HasReadText F.gives from.old v.text from.new) }
        ensures place { IfOk result (λ v. v.place ≡ place_of v.text) }
    {
        DeserializeOwned::deserialize_owned(alloc, from)
    }
}
