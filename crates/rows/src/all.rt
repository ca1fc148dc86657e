//! Calls that take all texts of a row at once.
use crate::answer::Answer;
use crate::input::{Input, tally_of, values_of};
use smol_str::borsh::BorshSerialize;
use smol_str::{SmolStr, SmolStrBuilder, build};
use smol_tokens_core::tally::Tally;
use std::alloc::AllocError;
use std::collections::HashMap;

pub const CALLS: &str = "join|join, of &str|build|from_string_refs|from_strings|\
    builder.extend_chars, many|builder.extend_strings|serialize, many|Serialize";

pub fn number<const CALL: usize>(input: &Input, texts: &[&str], at: usize) -> u64 {
    let alloc = input.alloc;
    match CALL {
        0 => SmolStr::join(alloc, input.values.as_slice(), ",").number(at),
        1 => SmolStr::join(alloc, texts, ",").number(at),
        2 => build(alloc, 0, input.steps.as_slice()).number(at),
        3 => SmolStr::from_string_refs(alloc, input.strings.iter()).number(at),
        4 => from_strings(input).number(at),
        5 => extended(input).number(at),
        6 => extended_by_strings(input).number(at),
        7 => forms_of(input).number(at),
        _ => serde_json::to_string(alloc, &input.values).number(at),
    }
}

pub const OF_MAPS: &str = "new, into a Vec|clone, into a Vec|Ord, sorted|DeserializeOwned|\
    Hash, counted|Hash, get|tally.add|tally.count|tally.at|tally.len";

pub fn number_of_maps<const CALL: usize>(input: &Input, at: usize) -> u64 {
    match CALL {
        0 => values_of(input.alloc, input.cases.as_slice()).number(at),
        1 => input.values.clone().ok().number(at),
        2 => sorted(input).number(at),
        3 => parsed(input).number(at),
        4 => count(input).number(at),
        5 => places(input).number(at),
        6 => tally(input).number(at),
        7 => counts(input).number(at),
        8 => lengths(input).number(at),
        _ => grown(input).number(at),
    }
}

fn from_strings(input: &Input) -> Option<SmolStr> {
    let strings = input.strings.clone().ok()?;
    SmolStr::from_strings(input.alloc, strings.into_iter()).ok()
}

fn extended(input: &Input) -> Result<SmolStr, AllocError> {
    let mut builder = SmolStrBuilder::new(input.alloc);
    for case in input.cases.as_slice() {
        builder.extend_chars(case.text.chars())?;
    }
    builder.into_value()
}

fn extended_by_strings(input: &Input) -> Result<SmolStr, AllocError> {
    let mut builder = SmolStrBuilder::new(input.alloc);
    builder.extend_strings(input.strings.iter())?;
    builder.into_value()
}

fn forms_of(input: &Input) -> Option<Vec<u8>> {
    let mut forms = Vec::new(input.alloc);
    for value in input.values.as_slice() {
        value.serialize(&mut forms).ok()?;
    }
    Some(forms)
}

/// The length of the last.
fn sorted(input: &Input) -> Option<usize> {
    let mut values = input.values.clone().ok()?;
    values.sort().ok()?;
    Some(values.last()?.len())
}

fn parsed(input: &Input) -> Option<Vec<SmolStr>> {
    serde_json::from_str(input.alloc, &input.document).ok()
}

/// How many different values there are.
fn count(input: &Input) -> Option<usize> {
    let mut counts: HashMap<SmolStr, u64> = HashMap::new(input.alloc);
    for value in input.values.as_slice() {
        match counts.get_mut(value) {
            Some(count) => *count = count.wrapping_add(1),
            None => {
                counts.insert(value.clone().ok()?, 1).ok()?;
            }
        }
    }
    Some(counts.len())
}

fn places(input: &Input) -> usize {
    let mut sum = 0usize;
    for value in input.values.as_slice() {
        sum = sum.wrapping_add(input.places.get(value).copied().unwrap_or(0));
    }
    sum
}

fn tally(input: &Input) -> Option<usize> {
    Some(tally_of(input.alloc, input.values.as_slice())?.len())
}

/// The length after each token: of a tally that stays the same it would be taken once.
fn grown(input: &Input) -> Option<usize> {
    let mut tally = Tally::new(input.alloc);
    let mut sum = 0usize;
    for value in input.values.as_slice() {
        if tally.add(value.clone().ok()?, 1).is_err() {
            return None;
        }
        sum = sum.wrapping_add(tally.len());
    }
    Some(sum)
}

fn counts(input: &Input) -> usize {
    let mut sum = 0usize;
    for value in input.values.as_slice() {
        sum = sum.wrapping_add(input.tally.count(value).unwrap_or(0) as usize);
    }
    sum
}

fn lengths(input: &Input) -> usize {
    let mut sum = 0usize;
    for at in 0..input.tally.len() {
        sum = sum.wrapping_add(input.tally.at(at).map_or(0, |(token, _)| token.len()));
    }
    sum
}
