//! Calls on pieces of each kind.
use OnPieces::*;
use smol_str::{Piece, SmolStr, SmolStrBuilder};
use test_support::*;

pub enum OnPieces {
    FromStrs,
    FromStrings,
    FromStringRefs,
    /// Texts, strings, values or, where nothing is joined, characters, as those below but for the calls that name theirs.
    Collect,
    Join,
    /// Three pieces by the text; and the same and an empty one, as `&String`s.
    JoinByText,
    JoinOfRefs,
    ExtendStrs,
    ExtendStrings,
    /// `extend_strings` by each string.
    ExtendByEach,
    Extend,
    Append,
}

/// Pieces of one kind.
#[derive(Drop)]
pub enum Pieces {
    Strs(Vec<&'static str>),
    Strings(Vec<String>),
    Values(Vec<SmolStr>),
    Chars(Vec<char>),
}

/// How many pieces a text is cut in: one, or none of no text; two, or from three to twenty-two, and of some texts 150 or
/// 1,500. An empty one follows two.
fn count_of(text: &str, way: usize) -> usize {
    let many = match text.len() {
        200 | 512 => 150,
        4096 => 1500,
        len => 3 + len % 20,
    };
    [text.len().min(1), 2, many][way % 3]
}

static SEPARATORS: [&str; 5] = table! {
    ""; ","; ", "; "€, "; "----------------------------------------------------------------------------------------------------";
};

impl Call for OnPieces {
    /// The builder is for calls that extend one.
    type Input = (Pieces, SmolStrBuilder, &'static str);

    fn ways(&self) -> usize {
        match self {
            Collect | Extend | Append => 10,
            Join => 15,
            JoinByText => 9,
            _ => 3,
        }
    }

    fn input(&self, test: &Test, text: &'static str, way: usize) -> Self::Input {
        let builder = test.builder(0, self.front(text));
        (
            self.pieces(test, text, way),
            builder,
            self.separator(text, way),
        )
    }

    fn run(
        &self,
        alloc: Global,
        _text: &str,
        (pieces, mut builder, separator): Self::Input,
    ) -> Outcome {
        match pieces {
            Pieces::Strs(strs) => match self {
                FromStrs => made(SmolStr::from_strs(alloc, strs.into_iter())),
                ExtendStrs => gathered(builder.extend_strs(strs.into_iter()), builder),
                _ => self.of_each(alloc, strs, builder, separator),
            },
            Pieces::Strings(strings) => match self {
                FromStrings => made(SmolStr::from_strings(alloc, strings.into_iter())),
                FromStringRefs => made(SmolStr::from_string_refs(alloc, strings.iter())),
                ExtendStrings => gathered(builder.extend_strings(strings.iter()), builder),
                ExtendByEach => gathered(extend_by_each(&mut builder, &strings), builder),
                JoinOfRefs => made(join_refs(alloc, strings.as_slice(), separator)),
                _ => self.of_each(alloc, strings, builder, separator),
            },
            Pieces::Values(values) => self.of_each(alloc, values, builder, separator),
            Pieces::Chars(chars) => self.of_each(alloc, chars, builder, separator),
        }
    }

    /// As std joins.
    fn wanted(&self, test: &Test, text: &'static str, way: usize) -> String {
        match self {
            Join => {
                let strs = cut(test, text, count_of(text, way));
                ok(
                    test,
                    strs.as_slice().join(test.alloc, self.separator(text, way)),
                )
            }
            JoinByText | JoinOfRefs => {
                ok(test, cut(test, "abc", 3).as_slice().join(test.alloc, text))
            }
            _ => test.joined(self.front(text), text),
        }
    }
}

impl OnPieces {
    /// What a builder has that is extended: nothing, or a text on the heap.
    fn front(&self, text: &str) -> &'static str {
        match self {
            ExtendStrs | ExtendStrings | ExtendByEach | Extend | Append if text.len() % 2 == 0 => {
                SEPARATORS[4]
            }
            _ => "",
        }
    }

    fn separator(&self, text: &'static str, way: usize) -> &'static str {
        match self {
            JoinByText | JoinOfRefs => text,
            _ => SEPARATORS[way % 5],
        }
    }

    /// Texts are joined by each separator in each number of pieces.
    fn kind(&self, way: usize) -> usize {
        match self {
            FromStrings | FromStringRefs | ExtendStrings | ExtendByEach | JoinOfRefs => 1,
            Join => way / 5,
            _ => way / 3,
        }
    }

    fn pieces(&self, test: &Test, text: &'static str, way: usize) -> Pieces {
        let strs = match self {
            JoinByText | JoinOfRefs => cut(test, "abc", 3),
            _ => cut(test, text, count_of(text, way)),
        };
        match self.kind(way) {
            0 => Pieces::Strs(strs),
            1 => Pieces::Strings(strings(test, &strs)),
            2 => Pieces::Values(values(test, &strs)),
            _ => Pieces::Chars(ok(test, text.chars().collect(test.alloc))),
        }
    }

    fn of_each<P: Piece>(
        &self,
        alloc: Global,
        pieces: Vec<P>,
        mut builder: SmolStrBuilder,
        separator: &str,
    ) -> Outcome {
        match self {
            Join | JoinByText => made(SmolStr::join(alloc, pieces.as_slice(), separator)),
            Extend => gathered(builder.extend(pieces), builder),
            Append => gathered(append_all(&mut builder, pieces), builder),
            Collect => made(SmolStr::from_iter(alloc, pieces)),
            _ => Err(Thing::Fault),
        }
    }
}

/// A builder that has all pieces; what is left of others, the contracts say.
fn gathered(outcome: Result<(), AllocError>, builder: SmolStrBuilder) -> Outcome {
    match outcome {
        Ok(()) => Ok(Thing::Builder(builder)),
        Err(fault) => Err(fault.into_thing()),
    }
}

fn extend_by_each(builder: &mut SmolStrBuilder, strings: &Vec<String>) -> Result<(), AllocError> {
    for string in strings {
        builder.extend_strings([string].into_iter())?;
    }
    Ok(())
}

/// Three strings and the empty one behind them, joined by references to them.
fn join_refs(alloc: Global, strings: &[String], separator: &str) -> Result<SmolStr, AllocError> {
    match strings {
        [a, b, c, empty] => SmolStr::join(alloc, &[a, b, c, empty], separator),
        _ => Err(AllocError),
    }
}

fn append_all<P: Piece>(builder: &mut SmolStrBuilder, pieces: Vec<P>) -> Result<(), AllocError> {
    for piece in &pieces {
        piece.append_to(builder)?;
    }
    Ok(())
}

/// A text in so many pieces, about as long, and behind two an empty one.
fn cut(test: &Test, text: &'static str, count: usize) -> Vec<&'static str> {
    let mut pieces = Vec::new(test.alloc);
    for number in 0..count {
        let to = end_of(text, number.saturating_add(1), count);
        let piece = text.get(end_of(text, number, count)..to).unwrap_or("");
        test.push(&mut pieces, piece);
    }
    if count > 1 {
        test.push(&mut pieces, "");
    }
    pieces
}

/// Where so many of the pieces end.
fn end_of(text: &str, number: usize, count: usize) -> usize {
    if number == count {
        return text.len();
    }
    text.ceil_char_boundary((text.len() / count.max(1)).saturating_mul(number))
}

fn strings(test: &Test, strs: &Vec<&'static str>) -> Vec<String> {
    let mut strings = Vec::new(test.alloc);
    for piece in strs {
        test.push(&mut strings, test.string(piece));
    }
    strings
}

fn values(test: &Test, strs: &Vec<&'static str>) -> Vec<SmolStr> {
    let mut values = Vec::new(test.alloc);
    for piece in strs {
        test.push(&mut values, test.value(piece));
    }
    values
}
