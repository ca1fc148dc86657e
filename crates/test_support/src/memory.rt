//! Memory refused and counted, where a test wants that.
//!
//! `./check` preloads a library, `.ci/refuse.c`, that takes requests of certain sizes as messages. No
//! allocation can have such a size, so without the library each is refused and nothing else happens:
//! the same tests then run with ample memory, and nothing is counted.
ghost use Rattle.std.specs.Prelude.{◌<◌};

use std::alloc::Global;

/// Requests from here up are messages to `.ci/refuse.c`: message k is `BASE + k * WORD`, plus its
/// argument.
const BASE: usize = 0x4000_0000_0000_0000;

const WORD: usize = 0x1_0000_0000;

/// Which requests for memory are refused, counted from 1; the 0th is no request.
#[derive(Clone, Copy)]
pub enum Refusals {
    /// The nth, and no other.
    One(u32),
    /// The nth, and each later one.
    From(u32),
    /// None, but no block is made smaller.
    Smaller,
}

/// What is counted.
#[derive(Clone, Copy, Debug)]
pub enum Count {
    /// The requests while some were refused, or might have been.
    Requests,
    /// The bytes that these asked for.
    Bytes,
    /// The blocks that were handed out and not freed since the counts began.
    Blocks,
    /// The bytes of these blocks.
    Held,
}

/// From here on these requests are refused; requests are counted anew.
pub fn refuse(alloc: Global, refusals: Refusals) {
    let message = match refusals {
        Refusals::One(nth) => nth as usize,
        Refusals::From(nth) => WORD + nth as usize,
        Refusals::Smaller => 2 * WORD,
    };
    let _ = is_granted(alloc, BASE + message);
}

/// From here on each request for memory is refused.
pub fn refuse_all(alloc: Global) {
    refuse(alloc, Refusals::From(1));
}

/// Nothing is refused from here on. Returns whether something was.
pub fn end_refusals(alloc: Global) -> bool {
    is_granted(alloc, BASE + 3 * WORD)
}

/// Blocks and their bytes are counted from here on.
pub fn start_counts(alloc: Global) {
    let _ = is_granted(alloc, BASE + 4 * WORD);
}

/// Whether memory can be refused in this run.
pub fn can_refuse(alloc: Global) -> bool {
    is_at_most(alloc, Count::Requests, u32::MAX)
}

/// Whether no more was counted; without the library never.
pub fn is_at_most(alloc: Global, count: Count, most: u32) -> bool {
    let message = match count {
        Count::Requests => 5,
        Count::Bytes => 6,
        Count::Blocks => 7,
        Count::Held => 8,
    };
    is_granted(alloc, BASE + message * WORD + most as usize)
}

/// What was counted, for messages; found bit by bit.
pub fn counted(alloc: Global, count: Count) -> u32 {
    let mut below = 0;
    for bit in 0..32u32 {
        let more = below | (0x8000_0000u32 >> bit);
        if !is_at_most(alloc, count, more.saturating_sub(1)) {
            below = more;
        }
    }
    below
}

fn is_granted(alloc: Global, size: usize) -> bool {
    let asked: Result<Vec<u8>, _> = Vec::with_capacity(alloc, size);
    asked.is_ok()
}
