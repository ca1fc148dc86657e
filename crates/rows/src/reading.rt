//! What is asked of values and texts.
use crate::answer::Answer;
use crate::input::Case;
use lexer::lex;
use smol_str::kernel::{AsciiCase, convert_while_ascii, next_match};
use smol_str::{INLINE_CAP, SmolStr};
use std::alloc::Global;
use std::hash::{DefaultHasher, Hash, Hasher};

pub const CALLS: &str = "len|is_ascii|PartialEq|eq_str|Ord|cmp_str|Hash|next_match|\
    convert_while_ascii|lex";

pub fn number<const CALL: usize>(alloc: Global, it: &Case, at: usize) -> u64 {
    match CALL {
        0 => it.value.len().number(at),
        1 => it.value.is_ascii().number(at),
        2 => (it.value == it.other_value).number(at),
        3 => it.value.eq_str(&it.other).number(at),
        4 => it.value.cmp(&it.other_value).is_lt().number(at),
        5 => it.value.cmp_str(&it.other).is_lt().number(at),
        6 => hash(&it.value).number(at),
        7 => next_match(&it.text, 0, "z").number(at),
        8 if it.text.len() <= INLINE_CAP => convert_while_ascii(&it.text, AsciiCase::Lower)
            .1
            .number(at),
        9 => lex(alloc, &it.text).number(at),
        _ => 0,
    }
}

fn hash(value: &SmolStr) -> usize {
    let mut hasher = DefaultHasher::new();
    value.hash(&mut hasher);
    hasher.finish() as usize
}
