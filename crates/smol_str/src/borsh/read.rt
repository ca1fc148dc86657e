//! Reading a size, and then a body.
ghost use Rattle.std.specs.Prelude.{◌≡◌, ◌≤◌, ℕ, length, IfOk, OnOk, IfErr};
ghost use Rattle.smol_str.specs.Stream.{Gave};
ghost use Rattle.smol_str.specs.declared.borsh.fault.LimitedFault.TheVariants.{Decode};
ghost use Rattle.smol_str.specs.WireFaults.{AfterDecodeFault, AfterLimitedFault, HasReadSize, HasReadBody, AfterFillFault, AfterBodyFault};

use super::{DecodeFault, STACK_BODY, size_in};
use crate::buffer::INLINE_CAP;
use crate::bytes::zeros;
use crate::stream::{fill, read_up_to};
use crate::value::SmolStr;
use crate::value::convert::utf8_text;
use std::alloc::Global;
use std::io::Read;

/// Reads the length prefix; an early end if fewer than its four bytes are left.
pub(super) fn read_size<R: Read>(reader: &mut R) -> Result<usize, DecodeFault>
    ensures ok { IfOk result (HasReadSize (R.remaining reader.old) (R.remaining reader.new)) }
    ensures fault { IfErr result
        (AfterDecodeFault (R.remaining reader.old) (R.remaining reader.new)) }
    ensures limited { IfErr result (λ fault. (limit : ℕ) →
        AfterLimitedFault limit (R.remaining reader.old) (R.remaining reader.new) (Decode fault)) }
{
    let mut prefix = [0; 4];
    fill_all(reader, &mut prefix)?;
    Ok(size_in(&prefix))
}

/// Fills a buffer; an early end if fewer bytes are left.
#[inline(always)]
fn fill_all<R: Read>(reader: &mut R, buffer: &mut [u8]) -> Result<(), DecodeFault>
    ensures ok { OnOk result (Gave R.remaining reader.old reader.new buffer.new) }
    ensures fault { IfErr result
        (AfterFillFault (R.remaining reader.old) (R.remaining reader.new) (length buffer.old)) }
{
    if fill(reader, buffer)? < buffer.len() {
        return Err(DecodeFault::Ended);
    }
    Ok(())
}

/// Reads a body that fills a buffer, so that memory is asked for the value alone.
#[inline(always)]
#[tactic(auto, using(crate::proofs::WireLemmas::Borsh::read_bodies))]
fn read_into<R: Read>(
    alloc: Global,
    reader: &mut R,
    buffer: &mut [u8],
) -> Result<SmolStr, DecodeFault>
    ensures ok { IfOk result
        (HasReadBody (R.remaining reader.old) (R.remaining reader.new) (length buffer.old)) }
    ensures fault { IfErr result
        (AfterBodyFault (R.remaining reader.old) (R.remaining reader.new) (length buffer.old)) }
{
    fill_all(reader, buffer)?;
    Ok(SmolStr::from_utf8(alloc, buffer)?)
}

/// Reads a body of `size` bytes. Inlined, so that a loop of reads clears the buffers once.
#[inline(always)]
pub(super) fn read_body<R: Read>(
    alloc: Global,
    reader: &mut R,
    size: usize,
) -> Result<SmolStr, DecodeFault>
    ensures ok { IfOk result (HasReadBody (R.remaining reader.old) (R.remaining reader.new) size) }
    ensures fault { IfErr result
        (AfterBodyFault (R.remaining reader.old) (R.remaining reader.new) size) }
{
    if size <= INLINE_CAP {
        let mut buffer = zeros::<INLINE_CAP>();
        return read_into(alloc, reader, &mut buffer[..size]);
    }
    if size <= STACK_BODY {
        let mut buffer = zeros::<STACK_BODY>();
        return read_into(alloc, reader, &mut buffer[..size]);
    }
    // By chunks. UTF-8 is tested when all of it is there, and the value keeps the memory that they were gathered in.
    let body = read_up_to(alloc, reader, size)?;
    if body.len() < size {
        return Err(DecodeFault::Ended);
    }
    if let Err(fault) = utf8_text(body.as_slice()) {
        return Err(DecodeFault::NotUtf8(fault));
    }
    Ok(SmolStr::from_owned(unsafe { String::from_utf8_unchecked(body) })?)
}
