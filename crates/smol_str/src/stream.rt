//! Reading and writing by single calls, for the wire form and for programs.
//!
//! std's `read_exact`, `read_to_end` and `write_all` try again after `Interrupted`, which a reader
//! or writer may return for ever. These functions return every error at once. Nothing is claimed of
//! a reader or writer whose bytes are not known.
ghost use Rattle.std.specs.Prelude.{◌≡◌, ◌<◌, ◌≤◌, ◌-◌, ◌^◌, length, take, IfOk, OnOk, IfErr, OnErr};
ghost use Rattle.std.specs.Io.KnownBytes.{Appends, IsAtEnd};
ghost use Rattle.smol_str.specs.Stream.{Gave, GaveBelow, AppendsBeginning, AfterReadFault};
ghost use Rattle.smol_str.specs.Messages.{read_fault_message};
ghost use Rattle.smol_str.specs.declared.stream.ReadFault.TheVariants.{OutOfMemory, Io};

use crate::bytes::zeros;
use crate::messages::OUT_OF_MEMORY;
use std::alloc::{AllocError, AllocFailed, Global};
use std::error::Error;
use std::fmt::{Display, Formatter};
use std::io::{ErrorKind, Read, Write};
use std::{fmt, io};

/// The most bytes that one `read` is asked for by [`read_up_to`] and [`read_all`].
pub const CHUNK: usize = 4096;

/// Why bytes were not read.
#[derive(Debug, Drop)]
pub enum ReadFault {
    /// Memory was refused for bytes that came.
    OutOfMemory,
    /// The reader failed before all bytes had come.
    Io(io::Error),
}

impl From<io::Error> for ReadFault {
    ghost from_gives = { λ error fault. fault ≡ Io error };

    fn from(error: io::Error) -> ReadFault {
        ReadFault::Io(error)
    }
}

impl From<AllocError> for ReadFault {
    ghost from_gives = { λ error fault. fault ≡ OutOfMemory };

    fn from(_error: AllocError) -> ReadFault {
        ReadFault::OutOfMemory
    }
}

impl<T: Drop> From<AllocFailed<T>> for ReadFault {
    ghost from_gives = { λ error fault. fault ≡ OutOfMemory };

    fn from(_error: AllocFailed<T>) -> ReadFault {
        ReadFault::OutOfMemory
    }
}

impl Display for ReadFault {
    ghost output = { read_fault_message ⟦<io::Error as Display>⟧.output };

    fn fmt<W: fmt::Write>(&self, f: &mut Formatter<W>) -> fmt::Result {
        match self {
            ReadFault::OutOfMemory => f.write_str(OUT_OF_MEMORY),
            ReadFault::Io(error) => Display::fmt(error, f),
        }
    }
}

impl Error for ReadFault {}

/// Fills `buf` from its front by single `read`s, and returns how many bytes came: fewer than `buf`
/// holds only where the reader is at its end.
///
/// An empty `buf` is not read into. After an error fewer bytes have come than `buf` holds.
///
/// ```
/// let mut reader = b"abc".as_slice();
/// let mut buffer = [0; 2];
/// assert_eq!(rt; fill(&mut reader, &mut buffer)?, 2);
/// assert_eq!(rt; reader, b"c".as_slice());
/// ```
pub fn fill<R: Read>(reader: &mut R, buf: &mut [u8]) -> Result<usize, io::Error>
    ensures within { IfOk result (λ n. n ≤ length buf.old) }
    ensures bytes { IfOk result (λ n.
        Gave R.remaining reader.old reader.new (take n buf.new)) }
    ensures end { IfOk result (λ n. n < length buf.old → IsAtEnd (R.remaining reader.new)) }
    ensures failed { OnErr result
        (GaveBelow (R.remaining reader.old) (R.remaining reader.new) (length buf.old)) }
{
    let mut filled = 0;
    while filled < buf.len() {
        let n = reader.read(&mut buf[filled..])?;
        if n == 0 {
            return Ok(filled);
        }
        filled += n;
    }
    Ok(filled)
}

/// Reads `limit` bytes, or up to the reader's end, in chunks of at most [`CHUNK`] bytes. Memory is
/// asked for as bytes come, however large `limit` is.
///
/// ```
/// let mut reader = b"abc".as_slice();
/// let bytes = read_up_to(alloc, &mut reader, 2)?;
/// assert!(rt; bytes.as_slice() == b"ab".as_slice() && reader == b"c".as_slice());
/// ```
pub fn read_up_to<R: Read>(
    alloc: Global,
    reader: &mut R,
    limit: usize,
) -> Result<Vec<u8>, ReadFault>
    ensures within { IfOk result (λ all. length all.items ≤ limit) }
    ensures bytes { IfOk result (λ all.
        Gave R.remaining reader.old reader.new all.items) }
    ensures end { IfOk result (λ all. length all.items < limit → IsAtEnd (R.remaining reader.new)) }
    ensures fault { IfErr result
        (AfterReadFault limit (R.remaining reader.old) (R.remaining reader.new)) }
{
    let mut all = Vec::new(alloc);
    let mut chunk = zeros::<CHUNK>();
    while all.len() < limit {
        let room = CHUNK.min(limit - all.len());
        let n = fill(reader, &mut chunk[..room])?;
        all.extend_from_slice(&chunk[..n])?;
        if n < room {
            return Ok(all);
        }
    }
    Ok(all)
}

/// Reads to the end, in chunks of at most [`CHUNK`] bytes.
pub fn read_all<R: Read>(alloc: Global, reader: &mut R) -> Result<Vec<u8>, ReadFault>
    ensures bytes { IfOk result (λ all.
        Gave R.remaining reader.old reader.new all.items) }
    ensures end { OnOk result (IsAtEnd (R.remaining reader.new)) }
    ensures fault { IfErr result
        (AfterReadFault (2 ^ 64 - 1) (R.remaining reader.old) (R.remaining reader.new)) }
{
    read_up_to(alloc, reader, usize::MAX)
}

/// Writes all of `bytes` by single `write`s; one that takes no byte is the error `WriteZero`. After
/// an error a beginning of `bytes` has been written, but not all of them.
///
/// ```
/// let mut written = Vec::new(alloc);
/// write_fully(&mut written, b"ab")?;
/// assert_eq!(rt; written.as_slice(), b"ab".as_slice());
/// ```
pub fn write_fully<W: Write>(writer: &mut W, bytes: &[u8]) -> Result<(), io::Error>
    ensures ok { OnOk result (Appends (W.contents writer.old) (W.contents writer.new) bytes.now) }
    ensures beginning { OnErr result
        (AppendsBeginning (W.contents writer.old) (W.contents writer.new) bytes.now) }
{
    let mut rest = bytes;
    while !rest.is_empty() {
        let n = writer.write(rest)?;
        if n == 0 {
            return Err(io::Error::from(ErrorKind::WriteZero));
        }
        rest = &rest[n..];
    }
    Ok(())
}
