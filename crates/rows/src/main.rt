//! Calls of the library, to be counted and timed: `rows CALL TIMES` makes one so many times, of the texts of standard input in
//! turn, and prints the sum of what it returned. `bench/rows.py` has the rows; `bench/rust/rows.rs` makes the same calls of
//! other types.
//!
//! The calls are in groups: `CALLS` has their names in the order of the numbers in `number`. The number of a group and of a call
//! in it are types' here, so that each call has a loop of its own, with nothing else in it.
#![tactic(auto)]

/// The sum of the call with a number, which is a type from here on.
macro_rules! with_type {
    ($call:expr, $input:expr, $($number:literal)*) => {
        match $call {
            $($number => repeated::<GROUP, $number>($input),)*
            _ => None,
        }
    };
}

mod all;
mod answer;
mod changing;
mod forms;
mod growing;
mod input;
mod making;
mod reading;

use input::Input;
use smol_str::stream::read_all;
use std::env;
use std::process::ExitCode;

/// The names of the calls of each group, in the order of their numbers.
const GROUPS: [&str; 7] = [
    making::CALLS,
    reading::CALLS,
    growing::CALLS,
    changing::CALLS,
    forms::CALLS,
    all::CALLS,
    all::OF_MAPS,
];

fn main(rt: HostRuntime) -> ExitCode {
    let Some(sum) = run(&rt) else {
        return ExitCode::from(1);
    };
    let _ = println!(rt; "{sum}");
    ExitCode::SUCCESS
}

fn run(rt: &HostRuntime) -> Option<u64> {
    let alloc = rt.alloc();
    let words: Vec<String> = env::args(rt).ok()?.skip(1).collect(alloc).ok()?;
    let [name, times] = words.as_slice() else {
        return None;
    };
    let bytes = read_all(alloc, &mut rt.stdin()).ok()?;
    let times = usize::from_str_radix(times, 10).ok()?;
    let input = Input::of(alloc, str::from_utf8(bytes.as_slice()).ok()?, times)?;
    sum(name.as_str(), &input)
}

fn sum(name: &str, input: &Input) -> Option<u64> {
    for (group, calls) in GROUPS.iter().enumerate() {
        if let Some(call) = calls.split('|').position(|it| it == name) {
            return match group {
                0 => sum_of::<0>(call, input),
                1 => sum_of::<1>(call, input),
                2 => sum_of::<2>(call, input),
                3 => sum_of::<3>(call, input),
                4 => sum_of::<4>(call, input),
                5 => sum_of::<5>(call, input),
                _ => sum_of::<6>(call, input),
            };
        }
    }
    None
}

fn sum_of<const GROUP: usize>(call: usize, input: &Input) -> Option<u64> {
    with_type!(call, input, 0 1 2 3 4 5 6 7 8 9 10 11 12 13 14)
}

/// The sum of a call's answers.
fn repeated<const GROUP: usize, const CALL: usize>(input: &Input) -> Option<u64> {
    let texts = input.texts()?;
    let mut out = String::new(input.alloc);
    let mut sum = 0u64;
    for time in 0..input.times {
        let it = input.case(time)?;
        let at = time & 1;
        sum = sum.wrapping_add(match GROUP {
            0 => making::number::<CALL>(input.alloc, it, at),
            1 => reading::number::<CALL>(input.alloc, it, at),
            2 => growing::number::<CALL>(input.alloc, it, at),
            3 => changing::number::<CALL>(input.alloc, it, &mut out, at),
            4 => forms::number::<CALL>(input.alloc, it, at),
            5 => all::number::<CALL>(input, texts.as_slice(), at),
            _ => all::number_of_maps::<CALL>(input, at),
        });
    }
    Some(sum)
}
