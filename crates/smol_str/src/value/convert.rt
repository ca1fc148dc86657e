//! Values from other texts, and back.
ghost use Rattle.std.specs.Prelude.{◌≡◌, [], ◌∷◌, IfOk, IfErr, OnErr, encode_utf8_all};
ghost use Rattle.std.specs.Str.{chars, IsUtf8};
ghost use Rattle.std.specs.String.{string_bytes};
ghost use Rattle.std.specs.Box.{boxed_str_bytes};
ghost use Rattle.std.specs.Cow.{cow_str_bytes};
ghost use Rattle.smol_str.specs.Shared.{shared_bytes};
ghost use Rattle.smol_str.specs.Text.{IsResident};
ghost use Rattle.smol_str.specs.Meaning.{IsValueOf};
ghost use Rattle.smol_str.specs.Faults.{AfterFromUtf8Fault, IsUtf8FaultOf};
ghost use Rattle.smol_str.specs.Messages.{utf8_fault_message};
ghost use Rattle.smol_str.specs.declared.value.convert.FromUtf8Fault.TheVariants.{OutOfMemory};

use super::place::Place;
use super::{Repr, SmolStr};
use crate::buffer::{INLINE_CAP, InlineText};
use crate::bytes::ascii::is_all_ascii;
use crate::messages::OUT_OF_MEMORY;
use crate::shared::SharedText;
use simdutf8::basic;
use std::alloc::{AllocError, AllocFailed, Global};
use std::borrow::CowStr;
use std::boxed::BoxedStr;
use std::error::Error;
use std::fmt;
use std::fmt::{Display, Formatter, Write};
use std::str::Utf8Error;

/// Why bytes made no value.
#[derive(Debug, Drop)]
pub enum FromUtf8Fault {
    /// The bytes are not UTF-8; std's error says where the valid bytes end.
    NotUtf8(Utf8Error),
    /// The bytes are UTF-8, and memory was refused.
    OutOfMemory,
}

impl From<AllocError> for FromUtf8Fault {
    ghost from_gives = { λ error fault. fault ≡ OutOfMemory };

    fn from(_error: AllocError) -> FromUtf8Fault {
        FromUtf8Fault::OutOfMemory
    }
}

impl<T: Drop> From<AllocFailed<T>> for FromUtf8Fault {
    ghost from_gives = { λ error fault. fault ≡ OutOfMemory };

    fn from(_error: AllocFailed<T>) -> FromUtf8Fault {
        FromUtf8Fault::OutOfMemory
    }
}

/// The message, so that `?` may turn the fault into an `anyhow::Error`.
impl Display for FromUtf8Fault {
    ghost output = { utf8_fault_message ⟦<Utf8Error as Display>⟧.output };

    fn fmt<W: Write>(&self, f: &mut Formatter<W>) -> fmt::Result {
        match self {
            FromUtf8Fault::NotUtf8(error) => Display::fmt(error, f),
            FromUtf8Fault::OutOfMemory => f.write_str(OUT_OF_MEMORY),
        }
    }
}

impl Error for FromUtf8Fault {}

impl SmolStr {
    /// Calls [`SmolStr::new`]; replaces upstream's `FromStr`, which is passed no allocator.
    pub fn from_str(alloc: Global, text: &str) -> Result<SmolStr, AllocError>
        ensures ok { IfOk result (λ v. IsValueOf (chars text.now) v) }
        ensures refused { OnErr result (¬ (IsResident (chars text.now))) }
    {
        SmolStr::new(alloc, text)
    }

    /// A value of the text of a `String`, copied.
    pub fn from_string_ref(alloc: Global, text: &String) -> Result<SmolStr, AllocError>
        ensures ok { IfOk result (λ v. IsValueOf (chars (string_bytes text.now)) v) }
        ensures refused { OnErr result (¬ (IsResident (chars (string_bytes text.now)))) }
    {
        SmolStr::new(alloc, text.as_str())
    }

    /// A value of the text of these bytes; UTF-8 is tested before memory is asked for.
    ///
    /// ```
    /// let fault = SmolStr::from_utf8(alloc, b"ab\xff").err();
    /// assert!(rt; matches!(fault, Some(FromUtf8Fault::NotUtf8(_))));
    /// ```
    #[inline(always)]
    pub fn from_utf8(alloc: Global, bytes: &[u8]) -> Result<SmolStr, FromUtf8Fault>
        ensures ok { IfOk result (λ v. IsUtf8 bytes.now × IsValueOf (chars bytes.now) v) }
        ensures fault { IfErr result (AfterFromUtf8Fault bytes.now) }
    {
        match utf8_text(bytes) {
            Ok(text) => Ok(SmolStr::new(alloc, text)?),
            Err(fault) => Err(FromUtf8Fault::NotUtf8(fault)),
        }
    }

    /// A value of the text of bytes that are known to be UTF-8.
    pub fn from_utf8_unchecked(alloc: Global, bytes: &[u8]) -> Result<SmolStr, AllocError>
        requires { IsUtf8 bytes.now }
        ensures ok { IfOk result (λ v. IsValueOf (chars bytes.now) v) }
        ensures refused { OnErr result (¬ (IsResident (chars bytes.now))) }
    {
        SmolStr::new(alloc, unsafe { str::from_utf8_unchecked(bytes) })
    }

    /// A value of the text of a `String`; a refusal gives the argument back.
    ///
    /// ```
    /// let owned = String::from_str(alloc, "if")?;
    /// let token = SmolStr::from_string(alloc, owned).map_err(|_owned| AllocError)?;
    /// assert_eq!(rt; token.as_str(), "if");
    /// ```
    pub fn from_string(alloc: Global, text: String) -> Result<SmolStr, String>
        ensures ok { IfOk result (λ v. IsValueOf (chars (string_bytes text)) v) }
        ensures back { IfErr result (λ back. back ≡ text) }
        ensures refused { OnErr result (¬ (IsResident (chars (string_bytes text)))) }
    {
        SmolStr::new(alloc, text.as_str()).or(Err(text))
    }

    /// A value of the text of a `String`, whose allocation it reuses. Spare room of more than [`INLINE_CAP`]
    /// bytes is given back where the heap does that. On failure the `String` is dropped;
    /// [`SmolStr::from_string`] gives it back. That no copy is made and no more room is kept is only tested.
    ///
    /// ```
    /// let token = SmolStr::from_owned(String::from_str(alloc, "if")?)?;
    /// assert_eq!(rt; token.place(), Place::Inline);
    /// ```
    #[inline(always)]
    pub fn from_owned(text: String) -> Result<SmolStr, AllocError>
        ensures ok { IfOk result (λ v. IsValueOf (chars (string_bytes text)) v) }
        ensures refused { OnErr result (¬ (IsResident (chars (string_bytes text)))) }
    {
        if let Some(value) = SmolStr::resident(text.as_str()) {
            return Ok(value);
        }
        let mut text = text;
        // Less costs more than it saves: `realloc` frees the part behind, and the next large `free` merges it again.
        if text.capacity() - text.len() > INLINE_CAP {
            text.shrink_to_fit();
        }
        Ok(SmolStr::from_heap(SharedText::from_string(text)?))
    }

    /// A value of the text of a boxed `str`; a refusal gives the argument back.
    pub fn from_boxed_str(alloc: Global, boxed: BoxedStr) -> Result<SmolStr, BoxedStr>
        ensures ok { IfOk result (λ v. IsValueOf (chars (boxed_str_bytes boxed)) v) }
        ensures back { IfErr result (λ back. back ≡ boxed) }
        ensures refused { OnErr result (¬ (IsResident (chars (boxed_str_bytes boxed)))) }
    {
        SmolStr::new(alloc, boxed.as_str()).or(Err(boxed))
    }

    /// A value of a text that is borrowed or owned; a refusal gives the argument back.
    ///
    /// ```
    /// let token = SmolStr::from_cow_str(alloc, CowStr::Borrowed("if"));
    /// assert_eq!(rt; token.ok().map(|token| token.len()), Some(2));
    /// ```
    pub fn from_cow_str<'a>(alloc: Global, cow: CowStr<'a>) -> Result<SmolStr, CowStr<'a>>
        ensures ok { IfOk result (λ v. IsValueOf (chars (cow_str_bytes cow.entry)) v) }
        ensures back { IfErr result (λ back. back ≡ cow.entry) }
        ensures refused { OnErr result (¬ (IsResident (chars (cow_str_bytes cow.entry)))) }
    {
        SmolStr::new(alloc, cow.as_str()).or(Err(cow))
    }

    /// A value of a shared text (`RcStr`, or `ArcStr` in a copy for several threads), which takes no memory: the
    /// argument itself is kept where the text is not resident, and let go where it is. That no copy is made is only tested.
    ///
    /// ```
    /// let shared = RcStr::from_str(alloc, "a text that is longer than any buffer")?;
    /// let value = SmolStr::from_rc_str(shared);
    /// assert_eq!(rt; value.len(), 37);
    /// ```
    pub fn from_rc_str(shared: SharedText) -> SmolStr
        ensures { IsValueOf (chars (shared_bytes shared)) result }
    {
        match SmolStr::resident(shared.as_str()) {
            Some(value) => value,
            None => SmolStr::from_heap(shared),
        }
    }

    /// The text as a `String`; a refusal gives the value back. The empty text needs no memory.
    pub fn into_string(self, alloc: Global) -> Result<String, SmolStr>
        ensures ok { IfOk result (λ text. string_bytes text ≡ encode_utf8_all self.text) }
        ensures back { IfErr result (λ back. back ≡ self) }
        ensures refused { OnErr result (¬ (self.text ≡ [])) }
    {
        if self.is_empty() {
            return Ok(String::new(alloc));
        }
        String::from_str(alloc, self.as_str()).or(Err(self))
    }

    /// The text as a shared text: the one that a heap value has, which is never refused, else a new
    /// one. A refusal gives the value back. That a heap value hands out its own is only tested.
    pub fn into_rc_str(self, alloc: Global) -> Result<SharedText, SmolStr>
        ensures ok { IfOk result (λ text. shared_bytes text ≡ encode_utf8_all self.text) }
        ensures back { IfErr result (λ back. back ≡ self) }
        ensures refused { OnErr result (¬ (self.place ≡ Place.Heap)) }
    {
        let SmolStr { repr } = self;
        match repr {
            Repr::Heap(text) => Ok(text),
            repr => {
                let value = SmolStr { repr };
                SharedText::from_str(alloc, value.as_str()).or(Err(value))
            }
        }
    }
}

/// The text of one character, inline.
impl From<char> for SmolStr {
    ghost from_gives = { λ character value. IsValueOf (character ∷ []) value };

    #[inline(always)]
    fn from(character: char) -> SmolStr {
        SmolStr::from_inline(InlineText::from_char(character))
    }
}

/// The value of a shared text, which takes no memory; calls [`SmolStr::from_rc_str`].
impl From<SharedText> for SmolStr {
    ghost from_gives = { λ shared value. IsValueOf (chars (shared_bytes shared)) value };

    fn from(shared: SharedText) -> SmolStr {
        SmolStr::from_rc_str(shared)
    }
}

/// For `?` in a function that returns [`AllocError`]; the value that a refused conversion gives back is dropped.
impl From<SmolStr> for AllocError {
    fn from(_value: SmolStr) -> AllocError {
        AllocError
    }
}

/// The empty text, inline.
impl Default for SmolStr {
    ghost is_default = { λ value. IsValueOf [] value };

    fn default() -> SmolStr {
        SmolStr::new_inline("")
    }
}

/// From this length on UTF-8 is tested by blocks. std tests characters past ASCII one by one.
const BLOCK: usize = 64;

/// `str::from_utf8` with a fast path for short ASCII, which is inlined, and one for long text.
#[inline(always)]
pub(crate) fn utf8_text(bytes: &[u8]) -> Result<&str, Utf8Error>
    ensures ok { IfOk result (λ text. IsUtf8 bytes.now × (text.now ≡ bytes.now)) }
    ensures fault { IfErr result (λ fault. (¬ (IsUtf8 bytes.now)) × IsUtf8FaultOf bytes.now fault) }
{
    if bytes.len() <= INLINE_CAP && is_all_ascii(bytes) {
        return Ok(unsafe { str::from_utf8_unchecked(bytes) });
    }
    if bytes.len() >= BLOCK {
        if let Ok(text) = basic::from_utf8(bytes) {
            return Ok(text);
        }
    }
    str::from_utf8(bytes)
}
