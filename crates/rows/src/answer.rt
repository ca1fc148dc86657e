//! What is added up of what a call returns.
use smol_str::SmolStr;

pub trait Answer {
    /// A number of it: of a text the length and one byte, so that the text must lie in memory.
    fn number(self, at: usize) -> u64;
}

fn seen(bytes: &[u8], at: usize) -> u64 {
    u64::from(bytes.get(at).copied().unwrap_or(0)).wrapping_add(bytes.len() as u64)
}

impl Answer for SmolStr {
    fn number(self, at: usize) -> u64 {
        seen(self.as_bytes(), at)
    }
}

impl Answer for String {
    fn number(self, at: usize) -> u64 {
        seen(self.as_bytes(), at)
    }
}

/// What is read from the front of bytes, and what is behind it.
impl<T: Drop> Answer for (SmolStr, T) {
    fn number(self, at: usize) -> u64 {
        let (value, _rest) = self;
        value.number(at)
    }
}

impl Answer for usize {
    fn number(self, at: usize) -> u64 {
        self.wrapping_add(at) as u64
    }
}

impl Answer for bool {
    fn number(self, at: usize) -> u64 {
        usize::from(self).number(at)
    }
}

/// How many.
impl<T: Drop> Answer for Vec<T> {
    fn number(self, at: usize) -> u64 {
        self.len().number(at)
    }
}

impl<A: Answer, E: Drop> Answer for Result<A, E> {
    fn number(self, at: usize) -> u64 {
        match self {
            Ok(answer) => answer.number(at),
            Err(_error) => 0,
        }
    }
}

impl<A: Answer> Answer for Option<A> {
    fn number(self, at: usize) -> u64 {
        match self {
            Some(answer) => answer.number(at),
            None => 0,
        }
    }
}
