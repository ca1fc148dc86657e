//! Tokens added to tallies.
use smol_str::SmolStr;
use smol_tokens_core::tally::{AddFault, Tally};
use test_support::*;

/// A token, added to a tally of so many others, four of which grow: a new one, and one that is there, nine times.
pub enum Add {
    New,
    Again,
}

static OTHERS: [u64; 8] = [0, 1, 3, 4, 7, 8, 14, 28];

/// A tally of so many others, and the token.
#[derive(Drop)]
pub struct Filled {
    tally: Tally,
    token: SmolStr,
    others: u64,
}

impl Call for Add {
    type Input = Filled;

    fn ways(&self) -> usize {
        8
    }

    /// None of the others.
    fn takes(&self, text: &str) -> bool {
        text.len() > 2
    }

    fn input(&self, test: &Test, text: &'static str, way: usize) -> Filled {
        let mut tally = Tally::new(test.alloc);
        let others = OTHERS[way % 8];
        for number in 0..others {
            let token = ok(test, format!(in test.alloc; "{number}"));
            let is_added = tally.add(test.value(token.as_str()), 1).is_ok();
            holds(test, is_added, &number);
        }
        if let Add::Again = self {
            holds(test, tally.add(test.value(text), 1).is_ok(), &text);
        }
        Filled {
            tally,
            token: test.value(text),
            others,
        }
    }

    /// A token that comes back is not counted.
    fn run(&self, _alloc: Global, _text: &str, filled: Filled) -> Outcome {
        let Filled {
            mut tally,
            token,
            others,
        } = filled;
        if let Add::Again = self {
            return added_again(&mut tally, &token);
        }
        match tally.add(token, 7) {
            Ok(count) => Ok(nothing(count == 7)),
            Err(AddFault::OutOfMemory(back)) if has_numbers(&tally, others) => {
                Err(Thing::Value(back))
            }
            Err(_) => Err(Thing::Fault),
        }
    }

    fn wanted(&self, test: &Test, text: &'static str, _way: usize) -> String {
        test.string(text)
    }
}

/// A token that was counted once is counted nine times more.
fn added_again(tally: &mut Tally, token: &SmolStr) -> Outcome {
    for times in 2..11 {
        let Ok(token) = token.clone() else {
            return Err(Thing::Fault);
        };
        match tally.add(token, 1) {
            Ok(count) if count == times => {}
            _ => return Err(Thing::Fault),
        }
    }
    Ok(Thing::Nothing)
}

/// The tally has so many numbers, each counted once.
fn has_numbers(tally: &Tally, others: u64) -> bool {
    let mut number = 0u64;
    for (token, &count) in tally.iter() {
        if count != 1 || token.as_str().parse::<u64>() != Ok(number) {
            return false;
        }
        number = number.wrapping_add(1);
    }
    number == others
}
