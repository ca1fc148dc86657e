//! Why a value was not written, or not read.
ghost use Rattle.std.specs.Prelude.{◌≡◌};
ghost use Rattle.smol_str.specs.WireFaults.{of_read_fault, of_utf8_fault};
ghost use Rattle.smol_str.specs.Messages.{encode_fault_message, decode_fault_message, limited_fault_message};
ghost use Rattle.smol_str.specs.declared.borsh.fault.EncodeFault.TheVariants.{Io as WriteFailed};
ghost use Rattle.smol_str.specs.declared.borsh.fault.DecodeFault.TheVariants.{OutOfMemory as NoMemory, Io as ReadFailed};
ghost use Rattle.smol_str.specs.declared.borsh.fault.LimitedFault.TheVariants.{Decode};

use crate::messages::OUT_OF_MEMORY;
use crate::stream::ReadFault;
use crate::value::convert::FromUtf8Fault;
use std::alloc::{AllocError, AllocFailed};
use std::error::Error;
use std::fmt::{Display, Formatter, Write};
use std::str::Utf8Error;
use std::{fmt, io};

/// Why a value was not written.
#[derive(Debug, Drop)]
pub enum EncodeFault {
    /// The text has more than 4294967295 bytes, and so no wire form.
    TooLong,
    /// The writer failed, or took no byte.
    Io(io::Error),
}

/// Why no value was read.
#[derive(Debug, Drop)]
pub enum DecodeFault {
    /// The bytes end within the length prefix or within the body.
    Ended,
    /// The body is not UTF-8; std's fault says where the valid bytes end.
    NotUtf8(Utf8Error),
    /// Memory was refused.
    OutOfMemory,
    /// The reader failed.
    Io(io::Error),
}

/// Why no value within a limit was read.
#[derive(Debug, Drop)]
pub enum LimitedFault {
    /// The length prefix states more bytes than the limit.
    TooLong,
    /// Any other fault.
    Decode(DecodeFault),
}

impl From<io::Error> for EncodeFault {
    ghost from_gives = { λ error fault. fault ≡ WriteFailed error };

    fn from(error: io::Error) -> EncodeFault {
        EncodeFault::Io(error)
    }
}

impl From<io::Error> for DecodeFault {
    ghost from_gives = { λ error fault. fault ≡ ReadFailed error };

    fn from(error: io::Error) -> DecodeFault {
        DecodeFault::Io(error)
    }
}

impl From<ReadFault> for DecodeFault {
    ghost from_gives = { λ error fault. fault ≡ of_read_fault error };

    fn from(fault: ReadFault) -> DecodeFault {
        match fault {
            ReadFault::OutOfMemory => DecodeFault::OutOfMemory,
            ReadFault::Io(error) => DecodeFault::Io(error),
        }
    }
}

impl From<FromUtf8Fault> for DecodeFault {
    ghost from_gives = { λ error fault. fault ≡ of_utf8_fault error };

    fn from(fault: FromUtf8Fault) -> DecodeFault {
        match fault {
            FromUtf8Fault::NotUtf8(error) => DecodeFault::NotUtf8(error),
            FromUtf8Fault::OutOfMemory => DecodeFault::OutOfMemory,
        }
    }
}

impl From<AllocError> for DecodeFault {
    ghost from_gives = { λ error fault. fault ≡ NoMemory };

    fn from(_error: AllocError) -> DecodeFault {
        DecodeFault::OutOfMemory
    }
}

impl<T: Drop> From<AllocFailed<T>> for DecodeFault {
    ghost from_gives = { λ error fault. fault ≡ NoMemory };

    fn from(_error: AllocFailed<T>) -> DecodeFault {
        DecodeFault::OutOfMemory
    }
}

impl From<DecodeFault> for LimitedFault {
    ghost from_gives = { λ error fault. fault ≡ Decode error };

    fn from(fault: DecodeFault) -> LimitedFault {
        LimitedFault::Decode(fault)
    }
}

impl From<io::Error> for LimitedFault {
    ghost from_gives = { λ error fault. fault ≡ Decode (ReadFailed error) };

    fn from(error: io::Error) -> LimitedFault {
        LimitedFault::Decode(DecodeFault::Io(error))
    }
}

impl From<AllocError> for LimitedFault {
    ghost from_gives = { λ error fault. fault ≡ Decode NoMemory };

    fn from(_error: AllocError) -> LimitedFault {
        LimitedFault::Decode(DecodeFault::OutOfMemory)
    }
}

impl<T: Drop> From<AllocFailed<T>> for LimitedFault {
    ghost from_gives = { λ error fault. fault ≡ Decode NoMemory };

    fn from(_error: AllocFailed<T>) -> LimitedFault {
        LimitedFault::Decode(DecodeFault::OutOfMemory)
    }
}

impl Display for EncodeFault {
    ghost output = { encode_fault_message ⟦<io::Error as Display>⟧.output };

    fn fmt<W: Write>(&self, f: &mut Formatter<W>) -> fmt::Result {
        match self {
            EncodeFault::TooLong => f.write_str("the text has more than 4294967295 bytes"),
            EncodeFault::Io(error) => Display::fmt(error, f),
        }
    }
}

impl Error for EncodeFault {}

impl Display for DecodeFault {
    ghost output = { decode_fault_message ⟦<Utf8Error as Display>⟧.output ⟦<io::Error as Display>⟧.output };

    fn fmt<W: Write>(&self, f: &mut Formatter<W>) -> fmt::Result {
        match self {
            DecodeFault::Ended => f.write_str("the bytes end before the text does"),
            DecodeFault::NotUtf8(error) => Display::fmt(error, f),
            DecodeFault::OutOfMemory => f.write_str(OUT_OF_MEMORY),
            DecodeFault::Io(error) => Display::fmt(error, f),
        }
    }
}

impl Error for DecodeFault {}

impl Display for LimitedFault {
    ghost output = { limited_fault_message ⟦<DecodeFault as Display>⟧.output };

    fn fmt<W: Write>(&self, f: &mut Formatter<W>) -> fmt::Result {
        match self {
            LimitedFault::TooLong => f.write_str("the stated length exceeds the limit"),
            LimitedFault::Decode(fault) => Display::fmt(fault, f),
        }
    }
}

impl Error for LimitedFault {}
