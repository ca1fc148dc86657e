//! Lists of values on the wire, as borsh has a `Vec` of strings.
ghost use Rattle.std.specs.Prelude.{◌≡◌, ◌+◌, ◌<◌, ◌∷◌, [], ◌++◌, length, IfOk, IfErr, IfSome, OnOk, MatchOption};
ghost use Rattle.std.specs.Int.{w32, to_le_bytes};
ghost use Rattle.uses_wire.specs.Lists.{CanBeListed, list_form, AfterListFault, AfterUnlisted};
ghost use Rattle.smol_str.specs.Meaning.{texts};
ghost use Rattle.smol_str.specs.Wire.{HasWire};

use smol_str::SmolStr;
use smol_str::borsh::{BorshSerialize, DecodeFault, EncodeFault, length_prefix, split_wire};
use std::alloc::{AllocError, AllocFailed, Global};
use std::io::{self, Write};

/// The form of a list.
#[tactic(auto, using(smol_str::proofs::CallerLemmas::items))]
pub fn write_list(alloc: Global, values: &[SmolStr]) -> Result<Vec<u8>, EncodeFault>
    ensures listed { IfOk result (λ bytes. CanBeListed (texts values.now)) }
    ensures form { IfOk result (λ bytes. bytes.items ≡ list_form (texts values.now)) }
    ensures fault { IfErr result (AfterUnlisted (texts values.now)) }
{
    let Some(count) = length_prefix(values.len()) else {
        return Err(EncodeFault::TooLong);
    };
    let mut bytes = Vec::new(alloc);
    bytes.write_all(&count)?;
    for value in values {
        value.serialize(&mut bytes)?;
    }
    Ok(bytes)
}

/// Adds a value. `?` turns a refused `push` into each fault that has a case for it.
pub fn add<F: From<AllocFailed<SmolStr>>>(list: &mut Vec<SmolStr>, name: SmolStr) -> Result<(), F>
    ensures { OnOk result (texts list.new.items ≡ texts list.old.items ++ name.text ∷ []) }
{
    Ok(list.push(name)?)
}

/// The list whose form the bytes begin with, and the bytes behind that form.
pub fn read_list(alloc: Global, bytes: &[u8]) -> Result<(Vec<SmolStr>, &[u8]), DecodeFault>
    ensures listed { IfOk result (λ read. CanBeListed (texts read.0.items)) }
    ensures form { IfOk result (λ read. bytes.now ≡ list_form (texts read.0.items) ++ read.1.now) }
    ensures fault { IfErr result (AfterListFault bytes.now) }
{
    let Some((count, mut rest)) = split_count(bytes) else {
        return Err(DecodeFault::Ended);
    };
    let mut values = Vec::new(alloc);
    for i in 0..count {
        let (value, after) = split_wire(alloc, rest)?;
        values.push(value)?;
        rest = after;
    }
    Ok((values, rest))
}

/// The number that four bytes state, the lowest first, and the bytes behind them.
fn split_count(bytes: &[u8]) -> Option<(u32, &[u8])>
    ensures { MatchOption result (length bytes.now < 4)
        (λ found. bytes.now ≡ to_le_bytes w32 found.0 ++ found.1.now) }
{
    let (prefix, rest) = bytes.split_first_chunk::<4>()?;
    Some((count_in(prefix), rest))
}

#[tactic(auto, using(std::proofs::lemmas::Nat::le_bytes_4))]
fn count_in(prefix: &[u8; 4]) -> u32
    ensures { to_le_bytes w32 result ≡ prefix.now }
{
    u32::from_le_bytes(*prefix)
}

/// A list that was written, with `rest` behind it, is read back: the same texts, and `rest` is left.
pub fn read_back<'a>(
    alloc: Global,
    bytes: &'a [u8],
    values: &[SmolStr],
    rest: &[u8],
) -> Option<(Vec<SmolStr>, &'a [u8])>
    requires listed { CanBeListed (texts values.now) }
    requires written { bytes.now ≡ list_form (texts values.now) ++ rest.now }
    ensures same { IfSome result (λ read. texts read.0.items ≡ texts values.now) }
    ensures left { IfSome result (λ read. read.1.now ≡ rest.now) }
{
    match read_list(alloc, bytes) {
        Ok(read) => Some(read),
        Err(_fault) => None,
    }
}

/// Bytes of a list whose end is missing: no list is read of them, wherever they were cut.
pub fn read_cut(alloc: Global, bytes: &[u8], missing: &[u8], values: &[SmolStr]) -> DecodeFault
    requires listed { CanBeListed (texts values.now) }
    requires cut { bytes.now ++ missing.now ≡ list_form (texts values.now) }
    requires some { 0 < length missing.now }
    ensures { AfterListFault bytes.now result }
{
    match read_list(alloc, bytes) {
        Ok(_read) => unreachable!(),
        Err(fault) => fault,
    }
}

/// The form of a list that has one: only memory can be refused.
pub fn write_known(alloc: Global, values: &[SmolStr]) -> Result<Vec<u8>, io::Error>
    requires listed { CanBeListed (texts values.now) }
    ensures form { IfOk result (λ bytes. bytes.items ≡ list_form (texts values.now)) }
{
    match write_list(alloc, values) {
        Ok(bytes) => Ok(bytes),
        Err(EncodeFault::Io(error)) => Err(error),
        Err(EncodeFault::TooLong) => unreachable!(),
    }
}

/// The list of one value, whose form the bytes begin with: only memory can be refused.
pub fn read_known<'a>(
    alloc: Global,
    bytes: &'a [u8],
    value: &SmolStr,
    rest: &[u8],
) -> Result<(Vec<SmolStr>, &'a [u8]), AllocError>
    requires sized { HasWire value.now.text }
    requires written { bytes.now ≡ list_form (value.now.text ∷ []) ++ rest.now }
{
    let _text = value.as_str();
    match read_list(alloc, bytes) {
        Ok(read) => Ok(read),
        Err(DecodeFault::OutOfMemory) => Err(AllocError),
        Err(DecodeFault::Ended) => unreachable!(),
        Err(DecodeFault::NotUtf8(_)) => unreachable!(),
        Err(DecodeFault::Io(_)) => unreachable!(),
    }
}
