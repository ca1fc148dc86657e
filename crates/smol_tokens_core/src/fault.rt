//! Why a run failed, and how that is reported.
ghost use Rattle.std.specs.Prelude.{◌≡◌, Some};
ghost use Rattle.smol_tokens_core.specs.FaultLine.{fault_line, numbered_line};
ghost use Rattle.smol_tokens_core.specs.ReadFaults.{of_read_fault};
ghost use Rattle.smol_tokens_core.specs.TallyFaults.{of_add_fault};
ghost use Rattle.smol_tokens_core.specs.declared.fault.RunFault.TheVariants.{OutOfMemory, Io};

use crate::tally::AddFault;
use smol_str::stream::ReadFault;
use std::alloc::AllocError;
use std::error::Error;
use std::fmt::{Display, Formatter, Write};
use std::{fmt, io};

/// Why a run failed; the contract of [`crate::run::run`] says what holds after each.
#[derive(Debug, Drop)]
pub enum RunFault {
    /// The input is not UTF-8.
    NotUtf8,
    /// Memory was refused.
    OutOfMemory,
    /// The line of this number, from 1, is the first that is not a count line.
    NotCounts(usize),
    /// A count would pass `u64::MAX`.
    Full,
    /// The reader or the writer failed, or the writer took no byte.
    Io(io::Error),
}

impl From<AllocError> for RunFault {
    ghost from_gives = { λ _ fault. fault ≡ OutOfMemory };

    fn from(_refused: AllocError) -> RunFault {
        RunFault::OutOfMemory
    }
}

impl From<io::Error> for RunFault {
    ghost from_gives = { λ e fault. fault ≡ Io e };

    fn from(e: io::Error) -> RunFault {
        RunFault::Io(e)
    }
}

impl From<ReadFault> for RunFault {
    ghost from_gives = { λ reading fault. fault ≡ of_read_fault reading };

    fn from(reading: ReadFault) -> RunFault {
        match reading {
            ReadFault::OutOfMemory => RunFault::OutOfMemory,
            ReadFault::Io(e) => RunFault::Io(e),
        }
    }
}

impl From<AddFault> for RunFault {
    ghost from_gives = { λ adding fault. fault ≡ of_add_fault adding };

    fn from(adding: AddFault) -> RunFault {
        match adding {
            AddFault::OutOfMemory(_token) => RunFault::OutOfMemory,
            AddFault::Full(_token) => RunFault::Full,
        }
    }
}

/// The line of [`fault_line`], with the number of a line that is not a count line.
impl Display for RunFault {
    ghost output = { λ fault. Some (numbered_line fault) };

    fn fmt<W: Write>(&self, f: &mut Formatter<W>) -> fmt::Result {
        match self {
            RunFault::NotCounts(line) => write!(f, "not a count line: {line}"),
            _ => f.write_str(fault_line(self)),
        }
    }
}

impl Error for RunFault {}

/// The line that reports a fault on standard error, without its newline and without a line's number.
pub fn fault_line(fault: &RunFault) -> &'static str
    ensures { result.now ≡ fault_line fault.now }
{
    match fault {
        RunFault::NotUtf8 => "not UTF-8",
        RunFault::OutOfMemory => "out of memory",
        RunFault::NotCounts(_) => "not a count line",
        RunFault::Full => "full",
        RunFault::Io(_) => "read or write failed",
    }
}
