//! Texts that are made of another, and printed.
use crate::answer::Answer;
use crate::input::Case;
use smol_str::{SmolStrBuilder, StrExt, ToSmolStr, format_smolstr};
use std::alloc::Global;
use std::fmt::Write;

pub const CALLS: &str = "to_ascii_lowercase_smolstr|to_ascii_uppercase_smolstr|\
    to_lowercase_smolstr|to_uppercase_smolstr|replace_smolstr, by x|replace_smolstr, by xyz|\
    replacen_smolstr|to_smolstr|builder.write_fmt|Display|Debug";

pub fn number<const CALL: usize>(alloc: Global, it: &Case, out: &mut String, at: usize) -> u64 {
    let text = it.text.as_str();
    match CALL {
        0 => text.to_ascii_lowercase_smolstr(alloc).number(at),
        1 => text.to_ascii_uppercase_smolstr(alloc).number(at),
        2 => text.to_lowercase_smolstr(alloc).number(at),
        3 => text.to_uppercase_smolstr(alloc).number(at),
        4 => text.replace_smolstr(alloc, &it.other, "x").number(at),
        5 => text.replace_smolstr(alloc, &it.other, "xyz").number(at),
        6 => text.replacen_smolstr(alloc, &it.other, "xyz", 5).number(at),
        7 => text.to_smolstr(alloc).number(at),
        8 => format_smolstr!(alloc; "{}-{}", it.text, it.other.len()).number(at),
        9 => printed::<false>(out, it).number(at),
        _ => printed::<true>(out, it).number(at),
    }
}

/// Into a `String` that is kept.
fn printed<const IS_DEBUG: bool>(out: &mut String, it: &Case) -> Option<usize> {
    out.clear();
    if IS_DEBUG {
        write!(out, "{:?}", it.value)
    } else {
        write!(out, "{}", it.value)
    }
    .ok()?;
    Some(out.len())
}
