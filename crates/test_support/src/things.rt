//! What calls make and leave.
use smol_str::borsh::{DecodeFault, LimitedFault};
use smol_str::json_string::JsonFault;
use smol_str::stream::ReadFault;
use smol_str::{FormatError, FromUtf8Fault, INLINE_CAP, Place, SmolStr, SmolStrBuilder};
use std::alloc::AllocError;
use std::borrow::CowStr;
use std::boxed::BoxedStr;
use std::rc::RcStr;

/// What calls make and leave.
#[derive(Drop)]
pub enum Thing {
    /// Nothing, or what no row asks about.
    Nothing,
    /// A fault that does not say that memory was refused.
    Fault,
    Value(SmolStr),
    Builder(SmolStrBuilder),
    /// Also those of a `String`.
    Bytes(Vec<u8>),
    Shared(RcStr),
}

/// What a call made, or left where it was refused.
pub type Outcome = Result<Thing, Thing>;

/// What a shared text has beside its bytes: its counts, what the C library leaves at the end of a block, and spare room of
/// the `String` that it was made of.
const BESIDE: usize = 104 + INLINE_CAP;

impl Thing {
    /// The bytes of its text, where it has one.
    pub fn bytes(&self) -> Option<&[u8]> {
        match self {
            Thing::Nothing | Thing::Fault => None,
            Thing::Value(value) => Some(value.as_str().as_bytes()),
            Thing::Builder(builder) => Some(builder.as_str().as_bytes()),
            Thing::Bytes(bytes) => Some(bytes.as_slice()),
            Thing::Shared(shared) => Some(shared.as_str().as_bytes()),
        }
    }

    /// Whether it is what was to be made.
    pub fn reads(&self, wanted: &[u8]) -> bool {
        match self.bytes() {
            Some(bytes) => bytes == wanted,
            None => matches!(self, Thing::Nothing),
        }
    }

    /// How many bytes of memory it may hold: where it is a value or shared its text and no more.
    pub fn most_held(&self) -> usize {
        match self {
            Thing::Value(value) if value.place() != Place::Heap => 0,
            Thing::Value(value) => value.len().saturating_add(BESIDE),
            Thing::Shared(shared) => shared.as_str().len().saturating_add(BESIDE),
            _ => usize::MAX,
        }
    }

    /// Whether nothing came back.
    pub fn is_none(&self) -> bool {
        matches!(self, Thing::Nothing | Thing::Fault)
    }

    /// Whether a refused call on the text may leave it: nothing, the text, or a builder that has a front of what was to be
    /// made.
    pub fn may_be_left_by(&self, text: &str, wanted: &[u8]) -> bool {
        match self {
            Thing::Nothing => true,
            Thing::Fault => false,
            Thing::Builder(builder) => wanted.starts_with(builder.as_str().as_bytes()),
            _ => self.bytes() == Some(text.as_bytes()),
        }
    }
}

/// What a call returned, as things.
pub fn made<M: IntoThing, F: IntoThing>(outcome: Result<M, F>) -> Outcome {
    match outcome {
        Ok(made) => Ok(made.into_thing()),
        Err(fault) => Err(fault.into_thing()),
    }
}

/// What a call leaves that changes a builder or a list, where it did.
pub fn changed<T: IntoThing>(is_changed: bool, thing: T) -> Outcome {
    if is_changed {
        Ok(thing.into_thing())
    } else {
        Err(thing.into_thing())
    }
}

/// What a fault says of memory.
pub fn nothing(is_out_of_memory: bool) -> Thing {
    if is_out_of_memory {
        Thing::Nothing
    } else {
        Thing::Fault
    }
}

pub trait IntoThing {
    fn into_thing(self) -> Thing;
}

impl IntoThing for SmolStr {
    fn into_thing(self) -> Thing {
        Thing::Value(self)
    }
}

impl IntoThing for SmolStrBuilder {
    fn into_thing(self) -> Thing {
        Thing::Builder(self)
    }
}

impl IntoThing for String {
    fn into_thing(self) -> Thing {
        Thing::Bytes(self.into_bytes())
    }
}

impl IntoThing for Vec<u8> {
    fn into_thing(self) -> Thing {
        Thing::Bytes(self)
    }
}

impl IntoThing for BoxedStr {
    fn into_thing(self) -> Thing {
        self.into_string().into_thing()
    }
}

impl IntoThing for RcStr {
    fn into_thing(self) -> Thing {
        Thing::Shared(self)
    }
}

/// A borrowed text that was handed in is nothing that a call made.
impl IntoThing for CowStr<'_> {
    fn into_thing(self) -> Thing {
        match self {
            CowStr::Borrowed(_) => Thing::Nothing,
            CowStr::Owned(string) => string.into_thing(),
        }
    }
}

impl IntoThing for AllocError {
    fn into_thing(self) -> Thing {
        Thing::Nothing
    }
}

impl IntoThing for FormatError {
    fn into_thing(self) -> Thing {
        Thing::Nothing
    }
}

impl IntoThing for FromUtf8Fault {
    fn into_thing(self) -> Thing {
        nothing(matches!(self, FromUtf8Fault::OutOfMemory))
    }
}

impl IntoThing for DecodeFault {
    fn into_thing(self) -> Thing {
        nothing(matches!(self, DecodeFault::OutOfMemory))
    }
}

impl IntoThing for LimitedFault {
    fn into_thing(self) -> Thing {
        nothing(matches!(self, LimitedFault::Decode(DecodeFault::OutOfMemory)))
    }
}

impl IntoThing for ReadFault {
    fn into_thing(self) -> Thing {
        nothing(matches!(self, ReadFault::OutOfMemory))
    }
}

impl IntoThing for JsonFault {
    fn into_thing(self) -> Thing {
        nothing(matches!(self, JsonFault::OutOfMemory))
    }
}
