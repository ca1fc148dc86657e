//! Tallies, by rows.
use Place::{Inline, Static};
use smol_str::{Place, SmolStr};
use smol_tokens_core::mode::Mode;
use smol_tokens_core::run::run_with_hasher;
use smol_tokens_core::tally::{AddFault, Tally};
use std::cell::Cell;
use std::hash::{BuildHasher, Hasher};
use test_support::*;

#[test]
fn counted(rt: HostRuntime) -> Result<(), Fail> {
    let test = Test::begin(rt);
    refuse_all(test.alloc);
    let mut tally = Tally::new(test.alloc);
    holds(&test, !end_refusals(test.alloc), &"an empty tally");
    check_add(&test, &mut tally, SmolStr::new_inline("a"), 0, Some(0));
    check_at(&test, &tally, 0, ("a", 0, Inline));
    holds(&test, tally.at(1).is_none(), &"one token");
    same(&test, &tally.count(&SmolStr::new_static("b")), &None, &"b");
    check_add(&test, &mut tally, SmolStr::new_static("a"), 2, Some(2));
    same(&test, &tally.len(), &1, &"len");
    check_add(
        &test,
        &mut tally,
        SmolStr::new_static("b"),
        u64::MAX,
        Some(u64::MAX),
    );
    check_add(&test, &mut tally, SmolStr::new_static("a"), 1, Some(3));
    check_at(&test, &tally, 0, ("a", 3, Inline));
    check_at(&test, &tally, 1, ("b", u64::MAX, Static));
    test.end()
}

// The token comes back, and nothing changes.
#[test]
fn full(rt: HostRuntime) -> Result<(), Fail> {
    let test = Test::begin(rt);
    let mut tally = Tally::new(test.alloc);
    check_add(
        &test,
        &mut tally,
        SmolStr::new_inline("a"),
        u64::MAX,
        Some(u64::MAX),
    );
    check_add(&test, &mut tally, SmolStr::new_static("a"), 1, None);
    same(&test, &tally.len(), &1, &"len");
    check_at(&test, &tally, 0, ("a", u64::MAX, Inline));
    check_add(
        &test,
        &mut tally,
        SmolStr::new_static("a"),
        0,
        Some(u64::MAX),
    );
    test.end()
}

/// Adds a token; where its count is too large it comes back, in its place.
fn check_add(test: &Test, tally: &mut Tally, token: SmolStr, times: u64, wanted: Option<u64>) {
    match tally.add(token, times) {
        Err(AddFault::Full(back)) => {
            same_value(test, &back, "a", Static, &times);
            holds(test, wanted.is_none(), &(times, "full"));
        }
        added => same(test, &added.ok(), &wanted, &times),
    }
}

/// The token of this text is at the position, counted so many times, and is the value that came first.
fn check_at(test: &Test, tally: &Tally, index: usize, wanted: (&str, u64, Place)) {
    let found = tally
        .at(index)
        .map(|(token, count)| (token.as_str(), count, token.place()));
    same(test, &found, &Some(wanted), &index);
    let found = tally
        .iter()
        .nth(index)
        .map(|(token, count)| (token.as_str(), *count, token.place()));
    same(test, &found, &Some(wanted), &index);
}

// Many tokens, each of which is there once.
#[test]
fn many(rt: HostRuntime) -> Result<(), Fail> {
    let test = Test::begin(rt);
    let mut tally = Tally::new(test.alloc);
    for number in 0..20_000u64 {
        let token = ok(&test, format!(in test.alloc; "{number}"));
        let added = tally.add(test.value(token.as_str()), number);
        holds(&test, added.is_ok_and(|count| count == number), &number);
    }
    same(&test, &tally.len(), &20_000, &"len");
    test.end()
}

/// Gives each token the same hash.
#[derive(Clone, Copy)]
struct Collides;

impl Hasher for Collides {
    ghost write = { λ h _. h };

    ghost finish = { λ _. 7 };

    fn finish(&self) -> u64 {
        7
    }

    fn write(&mut self, _bytes: &[u8]) {}
}

/// Counts the hashers that it makes, and holds memory.
#[derive(Drop)]
struct Counting<'a> {
    hasher: Collides,
    made: &'a Cell<usize>,
    _held: String,
}

impl BuildHasher for Counting<'_> {
    type Hasher = Collides;

    ghost build_hasher = { λ s. s.hasher };

    fn build_hasher(&self) -> Collides {
        self.made.set(self.made.get().wrapping_add(1));
        self.hasher
    }
}

// The state that is handed in hashes the tokens, at most twice a line, and is dropped.
#[test]
fn hashed_by_the_state(rt: HostRuntime) -> Result<(), Fail> {
    let test = Test::begin(rt);
    check_state(&test, Mode::Tokens, b"if\nx\nif\n", b"2 if\n1 x\n", 3);
    check_state(&test, Mode::Merge, b"1 if\n1 x\n1 if\n", b"2 if\n1 x\n", 3);
    check_state(
        &test,
        Mode::Lower,
        b"IF\nx\nIF\n",
        b"inline 2 if\ninline 1 x\ninline 2 if\n",
        0,
    );
    check_state(&test, Mode::Join, b"if\nx\n", b"inline 3 ifx\n", 0);
    test.end()
}

fn check_state(test: &Test, mode: Mode, mut input: &[u8], wanted: &[u8], lines: usize) {
    start_counts(test.alloc);
    let (made, mut out) = (Cell::new(0), Vec::new(test.alloc));
    let (hasher, count) = (Collides, &made);
    let state = Counting {
        hasher,
        made: count,
        _held: test.string("a state"),
    };
    let ended = run_with_hasher(test.alloc, state, mode, &mut input, &mut out);
    holds(test, ended.is_ok() && out.as_slice() == wanted, &wanted);
    drop(out);
    no_blocks(test, &wanted);
    let is_hashed = (lines..=lines.saturating_mul(2)).contains(&made.get());
    holds(test, is_hashed, &made.get());
}
