//! The wire form of a text, as borsh writes a string: its size as four little-endian bytes, and
//! then its UTF-8 bytes.
//!
//! Readers and writers are called by single `read`s and `write`s, as in [`crate::stream`]. Nothing
//! is claimed of a reader or writer whose bytes are not known.
ghost use Rattle.std.specs.Prelude.{◌≡◌, ◌<◌, ◌≤◌, ◌^◌, ◌++◌, ℕ, List, length, Option, MatchOption, IfOk, OnOk, IfErr};
ghost use Rattle.std.specs.Int.{w32, to_le_bytes, from_le_bytes};
ghost use Rattle.std.specs.Io.KnownBytes.{Appends};
ghost use Rattle.smol_str.specs.Text.{size, place_of};
ghost use Rattle.smol_str.specs.Stream.{Gave};
ghost use Rattle.smol_str.specs.Wire.{HasWire, wire, Holds};
ghost use Rattle.smol_str.specs.WireFaults.{AfterEncodeFault, AfterDecodeFault, AfterFromWireFault, AfterLimitedFault};

mod fault;
mod read;

use crate::stream::write_fully;
use crate::value::SmolStr;
pub use fault::{DecodeFault, EncodeFault, LimitedFault};
use read::{read_body, read_size};
use std::alloc::Global;
use std::io::{Read, Write};

/// The most bytes of a body that is read into a buffer on the stack, so that memory is asked for the value alone.
pub const STACK_BODY: usize = 256;

/// A value that can be written in its wire form.
///
/// `form` is the wire form of a value, and `has_form` whether it has one.
pub trait BorshSerialize {
    ghost form: { Self → List ℕ };

    ghost has_form: { Self → Type 0 };

    /// Writes the wire form, and nothing else.
    ///
    /// A value without one is refused with [`EncodeFault::TooLong`] before anything is written. If
    /// the writer fails, a beginning of the form has been written, but not all of it.
    ///
    /// ```
    /// let mut form = Vec::new(alloc);
    /// SmolStr::new_inline("ab").serialize(&mut form)?;
    /// assert_eq!(rt; form.as_slice(), b"\x02\0\0\0ab".as_slice());
    /// ```
    fn serialize<W: Write>(&self, writer: &mut W) -> Result<(), EncodeFault>
        ensures sized { OnOk result (has_form self.now) }
        ensures ok { OnOk result
            (Appends (W.contents writer.old) (W.contents writer.new) (form self.now)) }
        ensures fault { IfErr result (AfterEncodeFault (form self.now) (has_form self.now)
            (W.contents writer.old) (W.contents writer.new)) };
}

/// A value that can be read from its wire form.
///
/// `form_read` is the wire form that a value was read from, and `is_read` what else is known of it.
/// `after_fault` says for each fault how the bytes that the reader had are related to those that it
/// has left.
pub trait BorshDeserialize: Sized {
    ghost use Rattle.smol_str.specs.declared.borsh.fault.DecodeFault.{DecodeFault};

    ghost form_read: { Self → List ℕ };

    ghost is_read: { Self → Type 0 };

    ghost after_fault: { Option (List ℕ) → Option (List ℕ) → DecodeFault → Type 0 };

    /// Reads one value, and no byte past its wire form.
    ///
    /// ```
    /// let mut reader = b"\x02\0\0\0abc".as_slice();
    /// let value = SmolStr::deserialize_reader(alloc, &mut reader)?;
    /// assert!(rt; value.as_str() == "ab" && reader == b"c".as_slice());
    /// ```
    fn deserialize_reader<R: Read>(alloc: Global, reader: &mut R) -> Result<Self, DecodeFault>
        ensures ok { IfOk result (λ v.
            Gave R.remaining reader.old reader.new (form_read v)) }
        ensures value { IfOk result (λ v. is_read v) }
        ensures fault { IfErr result
            (after_fault (R.remaining reader.old) (R.remaining reader.new)) };
}

/// The four bytes that state a size in bytes, the lowest first; `None` exactly for more than
/// 4294967295.
///
/// ```
/// assert_eq!(rt; length_prefix(2), Some([2, 0, 0, 0]));
/// ```
pub fn length_prefix(len: usize) -> Option<[u8; 4]>
    ensures { MatchOption result (2 ^ 32 ≤ len)
        (λ prefix. (len < 2 ^ 32) × (prefix ≡ to_le_bytes w32 len)) }
{
    Some(u32::try_from(len).ok()?.to_le_bytes())
}

/// The value whose wire form `bytes` begin with, and how many bytes that form has.
///
/// An early end is found first, then bytes that are not UTF-8. Memory is asked for last, and
/// resident text needs none. It never returns [`DecodeFault::Io`].
///
/// ```
/// let (value, taken) = from_wire(alloc, b"\x02\0\0\0abc")?;
/// assert!(rt; value.as_str() == "ab" && taken == 6);
/// ```
#[tactic(auto, using(crate::proofs::WireLemmas::Borsh::prefix_size_of_bytes))]
pub fn from_wire(alloc: Global, bytes: &[u8]) -> Result<(SmolStr, usize), DecodeFault>
    ensures ok { IfOk result (λ r. Holds bytes.now r.0.text r.1) }
    ensures place { IfOk result (λ r. r.0.place ≡ place_of r.0.text) }
    ensures fault { IfErr result (AfterFromWireFault bytes.now) }
{
    let Some((prefix, rest)) = bytes.split_first_chunk() else {
        return Err(DecodeFault::Ended);
    };
    let Some(body) = rest.get(..size_in(prefix)) else {
        return Err(DecodeFault::Ended);
    };
    let value = SmolStr::from_utf8(alloc, body)?;
    Ok((value, 4 + body.len()))
}

/// The value whose wire form `bytes` begin with, and the bytes behind that form: [`from_wire`] for
/// a loop that reads one value after another.
///
/// ```
/// let (value, rest) = split_wire(alloc, b"\x02\0\0\0abc")?;
/// assert!(rt; value.as_str() == "ab" && rest == b"c".as_slice());
/// ```
pub fn split_wire(alloc: Global, bytes: &[u8]) -> Result<(SmolStr, &[u8]), DecodeFault>
    ensures form { IfOk result (λ r. bytes.now ≡ wire r.0.text ++ r.1.now) }
    ensures sized { IfOk result (λ r. HasWire r.0.text) }
    ensures place { IfOk result (λ r. r.0.place ≡ place_of r.0.text) }
    ensures fault { IfErr result (AfterFromWireFault bytes.now) }
{
    let (value, taken) = from_wire(alloc, bytes)?;
    Ok((value, &bytes[taken..]))
}

/// Reads a value of at most `limit` bytes, as [`BorshDeserialize::deserialize_reader`] does: for a
/// peer that may state any size.
///
/// | fault | the bytes | consumed |
/// |---|---|---|
/// | `TooLong` | state a size above the limit | the size |
/// | `Decode(Ended)` | end early | all of them |
/// | `Decode(NotUtf8)` | are a whole form, whose body is not UTF-8 | the form |
/// | `Decode(OutOfMemory)` | are a whole form of a text that is not resident, with at most [`STACK_BODY`] bytes | the form |
/// | `Decode(OutOfMemory)` | state a size above `STACK_BODY` | the size and some of the body |
/// | `Decode(Io)` | are those of a reader that failed | less than the form |
///
/// In the rows of `Decode` no size above the limit is stated. No memory is asked for before a size is
/// known to be within it.
///
/// ```
/// let mut reader = b"\x02\0\0\0ab".as_slice();
/// let fault = deserialize_limited(alloc, &mut reader, 1).err();
/// assert!(rt; matches!(fault, Some(LimitedFault::TooLong)));
/// ```
#[tactic(auto, using(crate::proofs::WireLemmas::Borsh::limited_reads))]
pub fn deserialize_limited<R: Read>(
    alloc: Global,
    reader: &mut R,
    limit: usize,
) -> Result<SmolStr, LimitedFault>
    // On success the wire form of the value was read and no more, and its text is within the limit.
    ensures ok { IfOk result (λ v.
        Gave R.remaining reader.old reader.new (wire v.text)) }
    ensures value { IfOk result (λ v. HasWire v.text × (v.place ≡ place_of v.text)) }
    ensures limited { IfOk result (λ v. size v.text ≤ limit) }

    // On failure the fault says which bytes were read.
    ensures fault { IfErr result
        (AfterLimitedFault limit (R.remaining reader.old) (R.remaining reader.new)) }
{
    let size = read_size(reader)?;
    if size > limit {
        return Err(LimitedFault::TooLong);
    }
    Ok(read_body(alloc, reader, size)?)
}

/// The size that four bytes state.
fn size_in(prefix: &[u8; 4]) -> usize
    ensures fits { result < 2 ^ 32 }
    ensures written { to_le_bytes w32 result ≡ prefix.now }
    ensures read { result ≡ from_le_bytes w32 prefix.now }
{
    u32::from_le_bytes(*prefix) as usize
}

/// The wire form of the text; every text of at most 4294967295 bytes has one.
impl BorshSerialize for SmolStr {
    ghost form = { λ s. wire s.text };

    ghost has_form = { λ s. HasWire s.text };

    #[inline(always)]
    #[tactic(auto, using(crate::proofs::WireLemmas::Borsh::written_forms))]
    fn serialize<W: Write>(&self, writer: &mut W) -> Result<(), EncodeFault> {
        let bytes = self.as_str().as_bytes();
        let Some(prefix) = length_prefix(bytes.len()) else {
            return Err(EncodeFault::TooLong);
        };
        write_fully(writer, &prefix)?;
        write_fully(writer, bytes)?;
        Ok(())
    }
}

/// The value of the body's text, in the text's place.
///
/// Each `read` has room for at least one byte and at most 4096, and there is none for a body of
/// size 0. A body of at most [`INLINE_CAP`] bytes takes no memory. A longer one takes memory by
/// what came, and not by the stated size. UTF-8 is tested when the whole body is there.
///
/// What holds after each fault is in the table of [`deserialize_limited`], in the rows of `Decode`. Of
/// a body above [`STACK_BODY`] [`DecodeFault::OutOfMemory`] may come before an early end is seen, and
/// [`DecodeFault::Io`], perhaps of `Interrupted`, before every other fault.
///
/// Tests alone show that `Io` comes only where a `read` failed, how much memory is taken, and how
/// large the buffers are.
impl BorshDeserialize for SmolStr {
    ghost form_read = { λ s. wire s.text };

    ghost is_read = { λ s. HasWire s.text × (s.place ≡ place_of s.text) };

    ghost after_fault = { λ input left fault. AfterDecodeFault input left fault };

    fn deserialize_reader<R: Read>(alloc: Global, reader: &mut R) -> Result<SmolStr, DecodeFault> {
        let stated = read_size(reader)?;
        read_body(alloc, reader, stated)
    }
}
