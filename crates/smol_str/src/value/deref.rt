//! A value lends its text: `&*value`, every method of `str`, and what takes anything that lends a text.
ghost use Rattle.std.specs.Prelude.{◌≡◌, ℕ, List, IsTrue, Some, encode_utf8_all};
ghost use Rattle.std.specs.Str.{all_scalars};

use super::SmolStr;
use std::convert::{AsSlice, AsStr};
use std::io::AsBytes;
use std::ops::{AsDeref, DerefStr};
use std::path::AsPath;

/// Lends the text as [`SmolStr::as_str`] does, so that a value has every method of `str`.
///
/// ```
/// let token = SmolStr::new_inline(" let ");
/// assert!(rt; token.trim().starts_with("let") && &*token == " let ");
/// ```
impl DerefStr for SmolStr {
    ghost deref_gives = { λ v bytes. bytes ≡ encode_utf8_all v.text };

    #[inline(always)]
    fn deref(&self) -> &str
        ensures bytes { result.now ≡ encode_utf8_all self.now.text }
        ensures scalars { IsTrue (all_scalars self.now.text) }
    {
        self.as_str()
    }
}

/// For code over anything that lends a text, such as `join` of a slice; replaces upstream's `AsRef<str>`.
impl AsStr for SmolStr {
    ghost text = { λ v. encode_utf8_all v.text };

    #[inline(always)]
    fn as_str(&self) -> &str
        ensures bytes { result.now ≡ encode_utf8_all self.now.text }
        ensures scalars { IsTrue (all_scalars self.now.text) }
    {
        self.as_str()
    }
}

/// For what takes anything that lends bytes, such as a field of a CSV row or a digest: upstream's `AsRef<[u8]>`.
impl AsSlice<u8> for SmolStr {
    ghost items = { λ v. encode_utf8_all v.text };

    #[inline(always)]
    fn as_slice(&self) -> &[u8] {
        self.as_str().as_bytes()
    }
}

/// For what takes a path or a system string, such as `dir.join`, `fs::read_to_string` and `Command::new`: upstream's
/// `AsRef<Path>` and `AsRef<OsStr>`.
impl AsPath for SmolStr {
    ghost path_text = { λ v. Some (encode_utf8_all v.text) };

    #[inline(always)]
    fn path_text(&self) -> &str {
        self.as_str()
    }
}

/// For what takes the bytes to read or write, such as `fs::write`, `Cursor` and `CString::new`.
impl AsBytes for SmolStr {
    ghost bytes = { λ v. Some (encode_utf8_all v.text) };

    #[inline(always)]
    fn as_byte_slice(&self) -> &[u8] {
        self.as_str().as_bytes()
    }
}

/// So that `as_deref` of an `Option` or a `Result` of a value lends its text.
impl<'a> AsDeref<'a> for SmolStr {
    type Shown = &'a str;

    ghost as_deref_gives = { λ v shown. shown.now ≡ encode_utf8_all v.text };

    ghost View = { List ℕ };

    ghost view = { λ v. encode_utf8_all v.text };

    ghost output_view = { λ shown. shown.now };

    #[inline(always)]
    fn shown(&'a self) -> &'a str {
        self.as_str()
    }
}
