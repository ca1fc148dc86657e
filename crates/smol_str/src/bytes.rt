//! Bytes, below texts and buffers: zeroed arrays, words, searches and ASCII. It uses no other
//! module.
ghost use Rattle.std.specs.Prelude.{◌≡◌, length};

pub(crate) mod ascii;
pub(crate) mod plain;
pub(crate) mod search;
pub(crate) mod words;

/// An array of zeros. It is a function so that a caller's proof has no list of zeros in it.
#[inline(always)]
pub(crate) fn zeros<const N: usize>() -> [u8; N]
    ensures { length result ≡ N }
{
    [0; N]
}
