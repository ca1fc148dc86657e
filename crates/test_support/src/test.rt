//! A running test: what its rows compare, and what they expect to be `Ok`.
//!
//! The first row that is wrong is kept, and the test ends with it; the rows behind it are gone through all the same. So no
//! helper gives up, and all that a row holds is dropped at one place, which costs the proof of a test far less than an
//! assertion or a `?` does. A test that compares nothing fails.
use crate::memory::{Count, can_refuse, is_at_most};
use std::alloc::Global;
use std::cell::Cell;
use std::default::MadeWith;
use std::fmt::{Debug, InlineText};
use std::test::Fail;

/// A message shows so many bytes of a wrong row.
const TOLD: usize = 480;

/// A running test. It cannot be dropped: what it ends with is the test's result. It has the memory that its rows ask for, so
/// a helper takes it alone: the proof of each call pays for each argument.
pub struct Test {
    pub alloc: Global,
    wrong: Cell<Option<InlineText<TOLD>>>,
    has_compared: Cell<bool>,
}

impl Test {
    /// A test of this process, with no wrong row.
    pub fn begin(rt: HostRuntime) -> Test {
        Test {
            alloc: rt.alloc(),
            wrong: Cell::new(None),
            has_compared: Cell::new(false),
        }
    }

    /// The row is wrong.
    pub fn fail(&self, row: &impl Debug) {
        if self.wrong.get().is_none() {
            self.wrong
                .set(Some(InlineText::of(format_args!("{row:?}"))));
        }
    }

    /// A string of the text.
    pub fn string(&self, text: &str) -> String {
        ok(self, String::from_str(self.alloc, text))
    }

    /// A text so many times.
    pub fn repeated(&self, text: &str, times: usize) -> String {
        ok(self, text.repeat(self.alloc, times))
    }

    /// A text so many times, and then an end.
    pub fn repeated_and(&self, text: &str, times: usize, end: &str) -> String {
        let mut all = self.repeated(text, times);
        ok(self, all.push_str(end));
        all
    }

    /// Texts so many times, one after the other.
    pub fn text(&self, parts: &[(&str, usize)]) -> String {
        let mut all = String::new(self.alloc);
        for &(text, times) in parts {
            ok(self, all.push_str(self.repeated(text, times).as_str()));
        }
        all
    }

    /// Two texts in a row.
    pub fn joined(&self, front: &str, back: &str) -> String {
        self.repeated_and(front, 1, back)
    }

    /// Appends an item.
    pub fn push<T: Drop>(&self, list: &mut Vec<T>, item: T) {
        ok(self, list.push(item));
    }

    /// The test's result: its first wrong row, where there is one, or that nothing was compared.
    pub fn end(self) -> Result<(), Fail> {
        if !self.has_compared.get() {
            self.fail(&"nothing was compared");
        }
        let Test {
            alloc: _,
            wrong,
            has_compared: _,
        } = self;
        match wrong.into_inner() {
            Some(row) => Err(Fail::new(row.as_str())),
            None => Ok(()),
        }
    }
}

/// A table, with a row on each line.
#[macro_export]
macro_rules! table {
    ($($row:expr;)+) => {
        [$($row),+]
    };
}

/// It is so.
pub fn holds(test: &Test, is_so: bool, row: &impl Debug) {
    test.has_compared.set(true);
    if !is_so {
        test.fail(row);
    }
}

/// The two are equal.
pub fn same<T: PartialEq + Debug>(test: &Test, found: &T, wanted: &T, row: &impl Debug) {
    holds(test, found == wanted, &(row, found, wanted));
}

/// All memory is freed that was asked for since the counts began.
pub fn no_blocks(test: &Test, row: &impl Debug) {
    let is_freed = is_at_most(test.alloc, Count::Blocks, 0);
    holds(test, is_freed || !can_refuse(test.alloc), &(row, "leaks"));
}

/// What a call returns; a fault fails the test, and an empty thing takes its place.
pub fn ok<T: MadeWith<Global>, E: Debug + Drop>(test: &Test, outcome: Result<T, E>) -> T {
    match outcome {
        Ok(value) => value,
        Err(fault) => {
            test.fail(&fault);
            T::made_with(test.alloc)
        }
    }
}
