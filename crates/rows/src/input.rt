//! The texts of a row, and what calls take that is made of them.
use serde_json::Value;
use smol_str::borsh::BorshSerialize;
use smol_str::json_string::{to_json, to_value};
use smol_str::{SmolStr, Step};
use smol_tokens_core::tally::Tally;
use std::alloc::Global;
use std::collections::HashMap;

/// Two texts of the input, the value of each, and the wire form and JSON of the first.
#[derive(Drop)]
pub struct Case {
    pub text: String,
    pub other: String,
    pub value: SmolStr,
    pub other_value: SmolStr,
    pub form: Vec<u8>,
    pub json: String,
    pub parsed: Value,
}

/// The cases, and what is made of all their texts.
#[derive(Drop)]
pub struct Input {
    pub alloc: Global,
    /// How many calls are made.
    pub times: usize,
    pub cases: Vec<Case>,
    pub values: Vec<SmolStr>,
    pub strings: Vec<String>,
    pub steps: Vec<Step>,
    pub document: String,
    pub places: HashMap<SmolStr, usize>,
    pub tally: Tally,
}

impl Input {
    /// Of texts and then as many others, with a bar between two.
    pub fn of(alloc: Global, text: &str, times: usize) -> Option<Input> {
        let texts: Vec<&str> = text.split('|').collect(alloc).ok()?;
        let (texts, others) = texts.as_slice().split_at(texts.len() / 2);
        let mut cases = Vec::new(alloc);
        for (text, other) in texts.iter().zip(others) {
            cases.push(Case::of(alloc, text, other)?).ok()?;
        }
        Input::of_cases(alloc, times, cases, texts)
    }

    fn of_cases(alloc: Global, times: usize, cases: Vec<Case>, texts: &[&str]) -> Option<Input> {
        let values = values_of(alloc, cases.as_slice())?;
        Some(Input {
            alloc,
            times,
            cases,
            strings: strings_of(alloc, texts)?,
            steps: steps_of(alloc, texts)?,
            document: serde_json::to_string(alloc, &values).ok()?,
            places: places_of(alloc, values.as_slice())?,
            tally: tally_of(alloc, values.as_slice())?,
            values,
        })
    }

    /// The texts of the values.
    pub fn texts(&self) -> Option<Vec<&str>> {
        let mut texts = Vec::new(self.alloc);
        for case in self.cases.as_slice() {
            texts.push(case.text.as_str()).ok()?;
        }
        Some(texts)
    }

    /// The case of a call: they take turns, and there are 2, 4, 8 .. of them.
    pub fn case(&self, time: usize) -> Option<&Case> {
        self.cases.get(time & self.cases.len().wrapping_sub(1))
    }
}

impl Case {
    fn of(alloc: Global, text: &str, other: &str) -> Option<Case> {
        let value = SmolStr::new(alloc, text).ok()?;
        Some(Case {
            text: String::from_str(alloc, text).ok()?,
            other: String::from_str(alloc, other).ok()?,
            other_value: SmolStr::new(alloc, other).ok()?,
            form: form_of(alloc, &value)?,
            json: to_json(alloc, &value).ok()?,
            parsed: to_value(alloc, &value).ok()?,
            value,
        })
    }
}

/// The wire form, in a `Vec` that begins empty.
pub fn form_of(alloc: Global, value: &SmolStr) -> Option<Vec<u8>> {
    let mut form = Vec::new(alloc);
    value.serialize(&mut form).ok()?;
    Some(form)
}

/// Values in a `Vec` that outlives what made them.
pub fn values_of(alloc: Global, cases: &[Case]) -> Option<Vec<SmolStr>> {
    let mut values = Vec::with_capacity(alloc, cases.len()).ok()?;
    for case in cases {
        values.push(SmolStr::new(alloc, &case.text).ok()?).ok()?;
    }
    Some(values)
}

fn strings_of(alloc: Global, texts: &[&str]) -> Option<Vec<String>> {
    let mut strings = Vec::new(alloc);
    for text in texts {
        strings.push(String::from_str(alloc, text).ok()?).ok()?;
    }
    Some(strings)
}

fn steps_of(alloc: Global, texts: &[&str]) -> Option<Vec<Step>> {
    let mut steps = Vec::new(alloc);
    for text in texts {
        steps
            .push(Step::PushStr(String::from_str(alloc, text).ok()?))
            .ok()?;
    }
    Some(steps)
}

/// Where each value is among the values, in the map that a user has without a word.
fn places_of(alloc: Global, values: &[SmolStr]) -> Option<HashMap<SmolStr, usize>> {
    let mut places: HashMap<SmolStr, usize> = HashMap::new(alloc);
    for (place, value) in values.iter().enumerate() {
        places.insert(value.clone().ok()?, place).ok()?;
    }
    Some(places)
}

pub fn tally_of(alloc: Global, values: &[SmolStr]) -> Option<Tally> {
    let mut tally = Tally::new(alloc);
    for value in values {
        if tally.add(value.clone().ok()?, 1).is_err() {
            return None;
        }
    }
    Some(tally)
}
