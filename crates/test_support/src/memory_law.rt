//! The law of memory: what a call may ask the heap for, and what a refusal leaves.
use crate::memory::{
    Count, Refusals, can_refuse, counted, end_refusals, is_at_most, refuse, start_counts,
};
use crate::sampling::samples;
use crate::test::{Test, holds, no_blocks};
use crate::things::{Outcome, Thing};
use crate::values::place_of;
use smol_str::{INLINE_CAP, Place};
use std::alloc::Global;
use std::test::Fail;

/// How many requests for memory a call may make.
#[derive(Clone, Copy)]
pub enum Requests {
    /// So many.
    Most(u32),
    /// So many, and one more each time that its text is twice as long, from a full buffer on.
    Doubling(u32),
    /// Those of so many calls, each as `Doubling` has it.
    Doublings(u32, u32),
}

/// Of which texts a call may make a request.
#[derive(Clone, Copy)]
pub enum Asks {
    /// Of any but those whose result is short, or a blank run.
    UnlessResident,
    /// Of any but those whose result is short.
    UnlessShort,
    /// Of any but those whose result is empty.
    UnlessEmpty,
    ForAny,
}

/// A call, and what it may ask for.
pub struct Law<C> {
    pub call: C,
    pub limits: Limits,
}

/// A call's name as the library's documentation has it, and what it may ask for: so many requests, and in all for so many
/// times the longer of its text and its result, and so many bytes more.
pub struct Limits {
    pub name: &'static str,
    pub requests: Requests,
    pub texts: usize,
    pub plus: usize,
    pub asks: Asks,
}

/// A table of calls, a line each: a call and its name, how many requests, for how many bytes, and of which texts.
#[macro_export]
macro_rules! laws {
    ($($call:expr => $name:literal, $requests:expr, $texts:literal * text + $plus:literal, $asks:ident;)+) => {
        [$(Law { call: $call, limits: Limits { name: $name, requests: $requests, texts: $texts, plus: $plus, asks: $asks } }),+]
    };
}

/// How a call is made.
pub trait Call {
    /// What it takes beside a text.
    type Input;

    /// In how many ways it is made on each text.
    fn ways(&self) -> usize {
        1
    }

    /// Whether it is made on the text.
    fn takes(&self, _text: &str) -> bool {
        true
    }

    /// What it takes, made of the text with ample memory.
    fn input(&self, test: &Test, text: &'static str, way: usize) -> Self::Input;

    /// The call, and what it makes or leaves.
    fn run(&self, alloc: Global, text: &str, input: Self::Input) -> Outcome;

    /// The text that it makes, which is its own where nothing else is said.
    fn wanted(&self, test: &Test, text: &'static str, _way: usize) -> String {
        test.string(text)
    }
}

/// Holds each call of a table to its row, on each text, in each way. Each call that may ask for memory is refused it.
pub fn check_law<C: Call>(rt: HostRuntime, table: &[Law<C>]) -> Result<(), Fail> {
    let test = Test::begin(rt);
    check_rows(&test, &samples(&test), table);
    test.end()
}

fn check_rows<C: Call>(test: &Test, texts: &[&'static str], table: &[Law<C>]) {
    for law in table {
        let was_refused = check_texts(test, law, texts);
        check_asking(test, &law.limits, was_refused);
    }
}

fn check_asking(test: &Test, limits: &Limits, was_refused: bool) {
    let is_asking = !matches!(limits.requests, Requests::Most(0)) && can_refuse(test.alloc);
    holds(test, was_refused == is_asking, &(limits.name, "is refused"));
}

/// Whether a request of the call was refused.
fn check_texts<C: Call>(test: &Test, law: &Law<C>, texts: &[&'static str]) -> bool {
    let mut was_refused = false;
    for &text in texts {
        was_refused |= law.call.takes(text) && check_ways(test, law, text);
    }
    was_refused
}

/// The same on one text.
fn check_ways<C: Call>(test: &Test, law: &Law<C>, text: &'static str) -> bool {
    let mut was_refused = false;
    for way in 0..law.call.ways() {
        was_refused |= check_way(test, law, text, way);
    }
    was_refused
}

fn check_way<C: Call>(test: &Test, law: &Law<C>, text: &'static str, way: usize) -> bool {
    let wanted = law.call.wanted(test, text, way);
    let on = On {
        test,
        limits: &law.limits,
        text,
        way,
        wanted: wanted.as_str(),
    };
    check_requests(&law.call, &on)
}

/// What a call is held to on a text, in a way, and the text that it makes.
#[derive(Drop)]
struct On<'a> {
    test: &'a Test,
    limits: &'a Limits,
    text: &'static str,
    way: usize,
    wanted: &'a str,
}

/// The call with ample memory; with no block made smaller, which is no reason to give up; and with each of its requests
/// refused in turn. Returns whether one was refused.
fn check_requests<C: Call>(call: &C, on: &On<'_>) -> bool {
    run(call, on, Refusals::One(0));
    let alloc = on.test.alloc;
    if is_at_most(alloc, Count::Requests, 0) || !can_refuse(alloc) {
        return false;
    }
    run(call, on, Refusals::Smaller);
    for nth in 1..1000 {
        if !is_refused(call, on, nth) {
            return nth > 1;
        }
    }
    on.check(false, "makes too many requests");
    true
}

/// Whether the nth request was refused, by itself and with all after it.
fn is_refused<C: Call>(call: &C, on: &On<'_>, nth: u32) -> bool {
    let was_refused = run(call, on, Refusals::One(nth));
    run(call, on, Refusals::From(nth)) && was_refused
}

/// One run with these requests refused. Returns whether one was.
fn run<C: Call>(call: &C, on: &On<'_>, refusals: Refusals) -> bool {
    let alloc = on.test.alloc;
    start_counts(alloc);
    let input = call.input(on.test, on.text, on.way);
    let before = held_before(alloc, refusals);
    refuse(alloc, refusals);
    let returned = call.run(alloc, on.text, input);
    let was_refused = end_refusals(alloc);
    on.check_returned(returned, before, (refusals, was_refused));
    no_blocks(on.test, &on.told());
    was_refused
}

/// How much memory is held before a run that may leave something, with all of its room.
fn held_before(alloc: Global, refusals: Refusals) -> u32 {
    match refusals {
        Refusals::From(_) => counted(alloc, Count::Held),
        _ => 0,
    }
}

impl On<'_> {
    /// What a run made or left. `before` is how much memory was held before it.
    fn check_returned(&self, returned: Outcome, before: u32, refused: (Refusals, bool)) {
        match &returned {
            Ok(thing) => self.check_made(thing, refused),
            Err(left) => self.check_left(left, before, refused.1),
        }
    }

    /// A refused call leaves what it may, with no less room.
    fn check_left(&self, left: &Thing, before: u32, was_refused: bool) {
        self.check(was_refused, "gives up unrefused");
        let is_left = left.may_be_left_by(self.text, self.wanted.as_bytes());
        self.check(is_left, "leaves something else");
        let has_room = left.is_none() || counted(self.test.alloc, Count::Held) >= before;
        self.check(has_room, "leaves less room");
    }

    /// The call made what is wanted, and asked for no more than its row says. A value keeps its text and no more, but where
    /// no block is made smaller.
    fn check_made(&self, thing: &Thing, (refusals, was_refused): (Refusals, bool)) {
        self.check(!was_refused, "hides a refusal");
        self.check(thing.reads(self.wanted.as_bytes()), "makes something else");
        if can_refuse(self.test.alloc) {
            self.check_asked(self.most_requests());
            if !matches!(refusals, Refusals::Smaller) {
                self.check_count(Count::Held, thing.most_held());
            }
        }
    }

    fn check_asked(&self, requests: u32) {
        self.check_count(Count::Requests, requests as usize);
        let bytes = if requests == 0 { 0 } else { self.most_bytes() };
        self.check_count(Count::Bytes, bytes);
    }

    fn check_count(&self, count: Count, most: usize) {
        let alloc = self.test.alloc;
        if !is_at_most(alloc, count, u32::try_from(most).unwrap_or(u32::MAX)) {
            let found = counted(alloc, count);
            self.test.fail(&(self.told(), count, found, most));
        }
    }

    fn check(&self, is_so: bool, what: &str) {
        holds(self.test, is_so, &(self.told(), what));
    }

    /// What a message says of it: also the first bytes of the text.
    fn told(&self) -> (&'static str, usize, usize, &'static str) {
        let start = self.text.get(..8).unwrap_or("");
        (self.limits.name, self.way, self.text.len(), start)
    }

    /// Whether the call may ask for nothing.
    fn is_free(&self) -> bool {
        match self.limits.asks {
            Asks::UnlessResident => place_of(self.wanted) != Place::Heap,
            Asks::UnlessShort => self.wanted.len() <= INLINE_CAP,
            Asks::UnlessEmpty => self.wanted.is_empty(),
            Asks::ForAny => false,
        }
    }

    fn most_requests(&self) -> u32 {
        match self.limits.requests {
            _ if self.is_free() => 0,
            Requests::Most(most) => most,
            Requests::Doubling(most) => self.most_doubling(most),
            Requests::Doublings(calls, most) => self.most_doubling(most).saturating_mul(calls),
        }
    }

    fn most_doubling(&self, most: u32) -> u32 {
        let buffers = self.size() / INLINE_CAP;
        most.saturating_add(buffers.checked_ilog2().unwrap_or(0))
    }

    fn most_bytes(&self) -> usize {
        self.size()
            .saturating_mul(self.limits.texts)
            .saturating_add(self.limits.plus)
    }

    /// The longer of the text and the result.
    fn size(&self) -> usize {
        self.text.len().max(self.wanted.len())
    }
}
