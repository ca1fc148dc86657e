//! Printing: a value prints as its text does.
ghost use Rattle.std.specs.Prelude.{Some, encode_utf8_all};
ghost use Rattle.std.specs.Fmt.{debug_str, styled_text};

use super::SmolStr;
use std::fmt::{Debug, Display, Formatter, Result, Write};

/// The text, with the widths and fills that a `str` has.
impl Display for SmolStr {
    ghost output = { λ s. Some (encode_utf8_all s.text) };

    ghost styled_output = { λ s style. Some (styled_text style (encode_utf8_all s.text)) };

    fn fmt<W: Write>(&self, f: &mut Formatter<W>) -> Result {
        Display::fmt(self.as_str(), f)
    }
}

/// The text in quotes, escaped as a `str` is; callers know it where the text is ASCII.
impl Debug for SmolStr {
    ghost debug_output = { λ s. debug_str (encode_utf8_all s.text) };

    fn fmt<W: Write>(&self, f: &mut Formatter<W>) -> Result {
        Debug::fmt(self.as_str(), f)
    }
}
