//! The fault of the JSON calls.
ghost use Rattle.std.specs.Prelude.{◌≡◌};
ghost use Rattle.smol_str.specs.Messages.{json_fault_message};
ghost use Rattle.smol_str.specs.declared.json_string.fault.JsonFault.TheVariants.{OutOfMemory};

use crate::messages::OUT_OF_MEMORY;
use std::alloc::{AllocError, AllocFailed};
use std::error::Error;
use std::fmt;
use std::fmt::{Display, Formatter, Write};

/// Why JSON made no value.
#[derive(Debug, Drop)]
pub enum JsonFault {
    /// It is a JSON value, but not a string.
    NotString,
    /// The text is not JSON; serde_json's error says why and where.
    Json(serde_json::Error),
    /// Memory was refused.
    OutOfMemory,
}

impl From<AllocError> for JsonFault {
    ghost from_gives = { λ error fault. fault ≡ OutOfMemory };

    fn from(_error: AllocError) -> JsonFault {
        JsonFault::OutOfMemory
    }
}

impl<T: Drop> From<AllocFailed<T>> for JsonFault {
    ghost from_gives = { λ error fault. fault ≡ OutOfMemory };

    fn from(_error: AllocFailed<T>) -> JsonFault {
        JsonFault::OutOfMemory
    }
}

impl Display for JsonFault {
    ghost output = { json_fault_message ⟦<serde_json::Error as Display>⟧.output };

    fn fmt<W: Write>(&self, f: &mut Formatter<W>) -> fmt::Result {
        match self {
            JsonFault::NotString => f.write_str("the JSON value is not a string"),
            JsonFault::Json(error) => Display::fmt(error, f),
            JsonFault::OutOfMemory => f.write_str(OUT_OF_MEMORY),
        }
    }
}

impl Error for JsonFault {}
