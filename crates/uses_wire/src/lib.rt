//! Callers with wire forms, written and read back by both calls; readers that are read to their end; bytes that are not UTF-8.
#![tactic(auto)]

ghost use Rattle.std.specs.Prelude.{◌≡◌, ◌<◌, ◌+◌, ◌≤◌, ◌++◌, [], drop, length, take, Some, IfOk, IfErr, IfSome, OnOk, OnErr, IsTrue, IsUtf8, chars};
ghost use Rattle.std.specs.Io.KnownBytes.{Keeps};
ghost use Rattle.smol_str.specs.Stream.{Gave};
ghost use Rattle.std.specs.Str.Lossy.{utf8_invalid_len};
ghost use Rattle.smol_str.specs.Text.{size, IsResident, place_of};
ghost use Rattle.smol_str.specs.Meaning.{IsValueOf};
ghost use Rattle.smol_str.specs.Wire.{HasWire, body, prefix_size, wire, HasEndedEarly};

pub mod json;
pub mod lists;
pub mod log_records;

use smol_str::borsh::{
    BorshDeserialize, BorshSerialize, DecodeFault, EncodeFault, LimitedFault, STACK_BODY,
    deserialize_limited, from_wire, split_wire,
};
use smol_str::stream::{ReadFault, read_all};
use smol_str::{FromUtf8Fault, INLINE_CAP, SmolStr};
use std::alloc::{AllocError, Global};
use std::io::{Read, Write};

/// The wire form of a value, with `rest` after it.
pub fn written(alloc: Global, value: &SmolStr, rest: &[u8]) -> Result<Vec<u8>, EncodeFault>
    ensures sized { IfOk result (λ bytes. HasWire value.now.text) }
    ensures form { IfOk result (λ bytes. bytes.items ≡ wire value.now.text ++ rest.now) }
{
    let mut bytes = Vec::new(alloc);
    value.serialize(&mut bytes)?;
    bytes.write_all(rest)?;
    Ok(bytes)
}

/// A text that is too long for a wire form: the call returns `TooLong`, whatever the writer does, and writes nothing.
pub fn told_as_too_long<W: Write>(writer: &mut W, value: &SmolStr) -> EncodeFault
    requires long { ¬ (HasWire value.now.text) }
    ensures fault { result ≡ EncodeFault.TooLong }
    ensures nothing { Keeps (W.contents writer.old) (W.contents writer.new) }
{
    match value.serialize(writer) {
        Err(EncodeFault::TooLong) => EncodeFault::TooLong,
        Err(EncodeFault::Io(_)) | Ok(()) => unreachable!(),
    }
}

/// The value of bytes that are the wire form of `text`, with `rest` after it: it can only run out of memory.
#[tactic(auto, using(smol_str::proofs::CallerLemmas::forms))]
pub fn read_from_bytes(
    alloc: Global,
    bytes: &[u8],
    text: &str,
    rest: &[u8],
) -> Result<(SmolStr, usize), AllocError>
    requires sized { HasWire (chars text.now) }
    requires form { bytes.now ≡ wire (chars text.now) ++ rest.now }
    ensures value { IfOk result (λ r. IsValueOf (chars text.now) r.0) }
    ensures taken { IfOk result (λ r. r.1 ≡ size (chars text.now) + 4) }
    ensures refused { OnErr result (¬ (IsResident (chars text.now))) }
{
    match from_wire(alloc, bytes) {
        Ok(read) => Ok(read),
        Err(DecodeFault::OutOfMemory) => Err(AllocError),
        Err(DecodeFault::Ended | DecodeFault::NotUtf8(_) | DecodeFault::Io(_)) => unreachable!(),
    }
}

/// The value of such bytes by a reader, which might fail too; it has `rest` left.
#[tactic(auto, using(smol_str::proofs::CallerLemmas::forms))]
pub fn read_from_reader<'a>(
    alloc: Global,
    bytes: &'a [u8],
    text: &str,
    rest: &[u8],
) -> Option<(SmolStr, &'a [u8])>
    requires sized { HasWire (chars text.now) }
    requires form { bytes.now ≡ wire (chars text.now) ++ rest.now }
    ensures value { IfSome result (λ r. IsValueOf (chars text.now) r.0) }
    ensures left { IfSome result (λ r. r.1.now ≡ rest.now) }
{
    let mut reader = bytes;
    match SmolStr::deserialize_reader(alloc, &mut reader) {
        Ok(value) => Some((value, reader)),
        Err(DecodeFault::OutOfMemory | DecodeFault::Io(_)) => None,
        Err(DecodeFault::Ended | DecodeFault::NotUtf8(_)) => unreachable!(),
    }
}

/// A round trip: a value of `text` is written with `rest` after it, and read by both calls.
pub fn round_trip(alloc: Global, text: &str, rest: &[u8]) -> Option<(SmolStr, SmolStr)>
    ensures bytes { IfSome result (λ values. IsValueOf (chars text.now) values.0) }
    ensures reader { IfSome result (λ values. IsValueOf (chars text.now) values.1) }
{
    let value = SmolStr::new(alloc, text).ok()?;
    let bytes = written(alloc, &value, rest).ok()?;
    let (from_bytes, _) = read_from_bytes(alloc, &bytes, text, rest).ok()?;
    let (from_reader, _) = read_from_reader(alloc, &bytes, text, rest)?;
    Some((from_bytes, from_reader))
}

/// A value of a reader whose bytes state a short text: only the reader or the bytes can fail, and never memory.
pub fn read_short<R: Read>(
    alloc: Global,
    reader: &mut R,
    bytes: &[u8],
) -> Result<SmolStr, DecodeFault>
    requires known { R.remaining reader.old ≡ Some bytes.now }
    requires short { prefix_size bytes.now ≤ INLINE_CAP }
    ensures value { IfOk result (λ v. Gave R.remaining reader.old reader.new (wire v.text)) }
    ensures place { IfOk result (λ v. v.place ≡ place_of v.text) }
    ensures refused { IfErr result (λ fault. ¬ (fault ≡ DecodeFault.OutOfMemory)) }
{
    match SmolStr::deserialize_reader(alloc, reader) {
        Err(DecodeFault::OutOfMemory) => unreachable!(),
        read => read,
    }
}

/// A value from a peer that may state any size: above `limit` no memory is asked for, nor for a short text.
pub fn read_from_peer<R: Read>(
    alloc: Global,
    reader: &mut R,
    limit: usize,
) -> Result<SmolStr, LimitedFault>
    ensures value { IfOk result (λ v. Gave R.remaining reader.old reader.new (wire v.text)) }
    ensures place { IfOk result (λ v. v.place ≡ place_of v.text) }
    ensures limited { IfOk result (λ v. size v.text ≤ limit) }
    ensures refused { IfErr result (λ fault.
        fault ≡ LimitedFault.Decode DecodeFault.OutOfMemory → IfSome (R.remaining reader.old) (λ bytes.
        (4 ≤ length bytes) × (INLINE_CAP < prefix_size bytes))) }
{
    deserialize_limited(alloc, reader, limit)
}

/// The value of a known form, with `rest` after it: neither an early end nor bad UTF-8 is reported.
#[tactic(auto, using(smol_str::proofs::CallerLemmas::forms))]
pub fn read_known_from_peer(
    alloc: Global,
    bytes: &[u8],
    text: &str,
    rest: &[u8],
    limit: usize,
) -> Result<SmolStr, LimitedFault>
    requires sized { HasWire (chars text.now) }
    requires form { bytes.now ≡ wire (chars text.now) ++ rest.now }
{
    let mut reader = bytes;
    match deserialize_limited(alloc, &mut reader, limit) {
        Err(LimitedFault::Decode(DecodeFault::Ended | DecodeFault::NotUtf8(_))) => unreachable!(),
        read => read,
    }
}

/// All bytes of a reader. It is at its end then, so that more reading gives nothing.
pub fn read_out<R: Read>(
    alloc: Global,
    reader: &mut R,
    bytes: &[u8],
) -> Result<(Vec<u8>, Vec<u8>), ReadFault>
    requires known { R.remaining reader.old ≡ Some bytes.now }
    ensures whole { IfOk result (λ read. read.0.items ≡ bytes.now) }
    ensures nothing { IfOk result (λ read. read.1.items ≡ []) }
    ensures left { OnOk result (R.remaining reader.new ≡ Some []) }
{
    let whole = read_all(alloc, reader)?;
    let more = read_all(alloc, reader)?;
    Ok((whole, more))
}

/// What a reader has behind bytes that ended within a value: nothing.
pub fn read_past_early_end<R: Read>(alloc: Global, reader: &mut R, bytes: &[u8]) -> Option<Vec<u8>>
    requires known { R.remaining reader.old ≡ Some bytes.now }
    ensures { IfSome result (λ more. more.items ≡ []) }
{
    match SmolStr::deserialize_reader(alloc, reader) {
        Err(DecodeFault::Ended) => read_all(alloc, reader).ok(),
        _ => None,
    }
}

/// The bytes before and after the first that are not UTF-8; `None` if all of them are UTF-8.
pub fn around_invalid(alloc: Global, bytes: &[u8]) -> Option<(&[u8], &[u8])>
    ensures front { IfSome result (λ parts. IsUtf8 parts.0.now) }
    ensures behind { IfSome result (λ parts. parts.1.now
        ≡ drop (length parts.0.now + utf8_invalid_len (drop (length parts.0.now) bytes.now)) bytes.now) }
{
    match SmolStr::from_utf8(alloc, bytes) {
        Err(FromUtf8Fault::NotUtf8(fault)) => {
            let (front, rest) = bytes.split_at(fault.valid_up_to());
            let invalid = fault.error_len().unwrap_or(rest.len());
            Some((front, &rest[invalid..]))
        }
        Ok(_) | Err(FromUtf8Fault::OutOfMemory) => None,
    }
}

/// How many bytes of a body on the wire are text, where not all of them are.
pub fn valid_in_body(alloc: Global, bytes: &[u8]) -> Option<usize>
    ensures front { IfSome result (λ n. IsUtf8 (take n (body bytes.now))) }
    ensures within { IfSome result (λ n. n < length (body bytes.now)) }
{
    match from_wire(alloc, bytes) {
        Err(DecodeFault::NotUtf8(fault)) => Some(fault.valid_up_to()),
        Ok(_) | Err(_) => None,
    }
}

/// The next message of at most `limit` bytes. Of a longer one its size alone is read.
pub fn next_limited(alloc: Global, input: &mut &[u8], limit: usize) -> Result<SmolStr, LimitedFault>
    ensures allowed { prefix_size input.old.now ≤ limit →
        IfErr result (λ fault. ¬ (fault ≡ LimitedFault.TooLong)) }
    ensures longer { 4 ≤ length input.old.now → limit < prefix_size input.old.now →
        OnErr result (length input.old.now ≤ length input.new.now + 4) }
    ensures skipped { IfErr result (λ fault. fault ≡ LimitedFault.TooLong →
        input.new.now ≡ drop 4 input.old.now) }
{
    deserialize_limited(alloc, input, limit)
}

/// Whether the first message was not UTF-8. Its size and its body were read then, and the next message comes behind.
pub fn skip_invalid(alloc: Global, messages: &mut &[u8]) -> bool
    ensures { IsTrue result → messages.new.now ≡ drop (4 + prefix_size messages.old.now) messages.old.now }
{
    match SmolStr::deserialize_reader(alloc, messages) {
        Err(DecodeFault::NotUtf8(_)) => true,
        Ok(_) | Err(_) => false,
    }
}

/// The next message; `None` for one that is not UTF-8. The message behind it is then the next, as it is where memory is refused
/// for a message of at most [`STACK_BODY`] bytes.
pub fn next_message(alloc: Global, messages: &mut &[u8]) -> Result<Option<SmolStr>, DecodeFault>
    ensures behind { OnOk result
        (messages.new.now ≡ drop (4 + prefix_size messages.old.now) messages.old.now) }
    ensures within { OnErr result
        (length messages.old.now ≤ length messages.new.now + (4 + prefix_size messages.old.now)) }
    ensures ended { IfErr result (λ fault. fault ≡ DecodeFault.Ended → messages.new.now ≡ []) }
    ensures begun { IfErr result (λ fault. fault ≡ DecodeFault.OutOfMemory →
        length messages.new.now + 4 < length messages.old.now) }
    ensures skipped { IfErr result (λ fault. fault ≡ DecodeFault.OutOfMemory →
        prefix_size messages.old.now ≤ STACK_BODY → IsUtf8 (body messages.old.now)
        × (messages.new.now ≡ drop (4 + prefix_size messages.old.now) messages.old.now)) }
{
    match SmolStr::deserialize_reader(alloc, messages) {
        Ok(value) => Ok(Some(value)),
        Err(DecodeFault::NotUtf8(_)) => Ok(None),
        Err(fault) => Err(fault),
    }
}

/// The first message, and the others. One that is cut short or not UTF-8 is reported as such, whatever the memory.
pub fn split_message(alloc: Global, messages: &[u8]) -> Result<(SmolStr, &[u8]), DecodeFault>
    ensures form { IfOk result (λ first. messages.now ≡ wire first.0.text ++ first.1.now) }
    ensures place { IfOk result (λ first. first.0.place ≡ place_of first.0.text) }
    ensures tested { IfErr result (λ fault. fault ≡ DecodeFault.OutOfMemory →
        (¬ HasEndedEarly messages.now) × IsUtf8 (body messages.now)) }
{
    split_wire(alloc, messages)
}
