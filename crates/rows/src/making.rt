//! Values of a whole text.
use crate::answer::Answer;
use crate::input::Case;
use smol_str::kernel::AsciiCase;
use smol_str::{BLANK_NEWLINES, BLANK_SPACES, INLINE_CAP, SmolStr};
use std::alloc::Global;

pub const CALLS: &str = "nothing|new|new_inline|new_inline_in_case|new_static|clone|From<char>|\
    blank|from_utf8|from_utf8_unchecked|from_string|from_owned|from_boxed_str|into_string|\
    into_rc_str";

pub fn number<const CALL: usize>(alloc: Global, it: &Case, at: usize) -> u64 {
    let text = it.text.as_str();
    match CALL {
        0 => at as u64,
        1 => SmolStr::new(alloc, text).number(at),
        2 if text.len() <= INLINE_CAP => SmolStr::new_inline(text).number(at),
        3 if text.len() <= INLINE_CAP => SmolStr::new_inline_in_case(text, AsciiCase::Lower).number(
            at,
        ),
        4 => new_static(text).number(at),
        5 => it.value.clone().ok().number(at),
        6 => SmolStr::from(text.chars().next().unwrap_or('x')).number(at),
        7 => SmolStr::blank(text.len().min(BLANK_NEWLINES), text.len().min(BLANK_SPACES)).number(
            at,
        ),
        8 => SmolStr::from_utf8(alloc, text.as_bytes()).number(at),
        9 => SmolStr::from_utf8_unchecked(alloc, text.as_bytes()).number(at),
        13 => into_string(alloc, it).number(at),
        14 => shared(alloc, it).number(at),
        _ => given::<CALL>(alloc, it).number(at),
    }
}

/// The compiler does not know which literal it is.
fn new_static(text: &str) -> SmolStr {
    SmolStr::new_static(if text.len() > 9 {
        "a literal of some length"
    } else {
        "another"
    })
}

/// Of a `String` that is given up.
fn given<const CALL: usize>(alloc: Global, it: &Case) -> Option<SmolStr> {
    let string = String::from_str(alloc, &it.text).ok()?;
    match CALL {
        10 => SmolStr::from_string(alloc, string).ok(),
        11 => SmolStr::from_owned(string).ok(),
        12 => SmolStr::from_boxed_str(alloc, string.into_boxed_str()).ok(),
        _ => None,
    }
}

fn into_string(alloc: Global, it: &Case) -> Option<String> {
    it.value.clone().ok()?.into_string(alloc).ok()
}

/// There and back.
fn shared(alloc: Global, it: &Case) -> Option<SmolStr> {
    Some(SmolStr::from_rc_str(it.value.clone().ok()?.into_rc_str(alloc).ok()?))
}
