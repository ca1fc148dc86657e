//! Formatting: `ToSmolStr`, `format_smolstr!`, `fmt::Write`.
ghost use Rattle.std.specs.Prelude.{◌≡◌, Some, IfOk, OnOk, OnErr};
ghost use Rattle.std.specs.Str.{chars, IsUtf8};
ghost use Rattle.smol_str.specs.Meaning.{IsPrintOf};
ghost use Rattle.smol_str.specs.BuilderState.{OnHeap, appended, AppendsPrintOf};
ghost use Rattle.smol_str.specs.Messages.{format_message};

use crate::builder::SmolStrBuilder;
use crate::value::SmolStr;
use std::alloc::{AllocError, AllocFailed, Global};
use std::error::Error;
use std::fmt;

/// Nothing was made: the print gave up, or memory was refused.
#[derive(Debug, Drop)]
pub struct FormatError;

impl fmt::Display for FormatError {
    ghost output = { λ _. Some format_message };

    fn fmt<W: fmt::Write>(&self, f: &mut fmt::Formatter<W>) -> fmt::Result {
        f.write_str("formatting failed or memory ran out")
    }
}

impl Error for FormatError {}

impl From<fmt::Error> for FormatError {
    fn from(_error: fmt::Error) -> FormatError {
        FormatError
    }
}

impl From<AllocError> for FormatError {
    fn from(_error: AllocError) -> FormatError {
        FormatError
    }
}

impl<T: Drop> From<AllocFailed<T>> for FormatError {
    fn from(_error: AllocFailed<T>) -> FormatError {
        FormatError
    }
}

/// A piece of a print is appended whole, or refused and then the builder is as before.
impl fmt::Write for SmolStrBuilder {
    ghost write_str_gives = { λ s bytes t. IsUtf8 bytes × (t ≡ appended s (chars bytes)) };

    fn write_str(&mut self, text: &str) -> fmt::Result
        ensures ok { OnOk result (IsUtf8 text.now × (self.new ≡ appended self.old (chars text.now))) }
        ensures unchanged { OnErr result (self.new ≡ self.old) }
        ensures refused { OnErr result ((appended self.old (chars text.now)).kind ≡ OnHeap) }
    {
        self.push_str(text).or(Err(fmt::Error))
    }
}

impl SmolStrBuilder {
    /// Appends what a value prints: what `write!` calls.
    ///
    /// Where the type does not state what it prints, it appends some text. It is an error where the
    /// value gives up, or where memory is refused to a builder that is on the heap with the next
    /// piece. The pieces before that one stay appended.
    ///
    /// ```
    /// let mut builder = SmolStrBuilder::new(alloc);
    /// write!(builder, "{}-{:02}", "a", 7).map_err(|_error| FormatError)?;
    /// assert_eq!(rt; builder.as_str(), "a-07");
    /// ```
    pub fn write_fmt<D: fmt::Display + Drop>(&mut self, value: D) -> fmt::Result
        ensures { OnOk result (AppendsPrintOf (D.output value) self.old self.new) }
    {
        self.short_in_buffer();
        fmt::Write::write_fmt(self, value)
    }
}

/// Converts a value to a [`SmolStr`] by its `Display`; implemented for every sized type that has one.
pub trait ToSmolStr: fmt::Display {
    /// The value of what `{}` prints, in the place of that text.
    ///
    /// It is [`FormatError`] where the print gives up or memory is refused, and then nothing is made.
    /// A print of at most [`INLINE_CAP`] bytes needs no memory, which is only tested.
    ///
    /// ```
    /// let number = 42u8.to_smolstr(alloc)?;
    /// assert_eq!(rt; number.as_str(), "42");
    /// ```
    fn to_smolstr(&self, alloc: Global) -> Result<SmolStr, FormatError>
        ensures { IfOk result (IsPrintOf (Self.output self.now)) };
}

impl<T: fmt::Display> ToSmolStr for T {
    fn to_smolstr(&self, alloc: Global) -> Result<SmolStr, FormatError> {
        let mut builder = SmolStrBuilder::new(alloc);
        builder.write_fmt(self)?;
        Ok(builder.into_value()?)
    }
}

/// The value of the printed arguments, as `Result<SmolStr, FormatError>`: `format!` with the allocator
/// first, parted by a semicolon.
///
/// It expands to a builder, a print to it and [`SmolStrBuilder::into_value`] in the caller's own body,
/// and needs no import.
///
/// ```
/// let name = format_smolstr!(alloc; "{}-{:02}", "a", 7)?;
/// assert_eq!(rt; name.as_str(), "a-07");
/// ```
#[macro_export]
macro_rules! format_smolstr {
    ($alloc:expr; $($arg:tt)+) => {{
        let mut builder = $crate::SmolStrBuilder::new($alloc);
        match builder.write_fmt(format_args!($($arg)+)) {
            Ok(()) => match builder.into_value() {
                Ok(value) => Ok(value),
                Err(_) => Err($crate::FormatError),
            },
            Err(_) => Err($crate::FormatError),
        }
    }};
}
