//! What things print, in each form that a format may ask for.
use crate::test::{Test, ok, same};
use std::fmt::{self, Debug, Display, Formatter, Write};

/// The two are printed alike: with widths, fills, a precision, a sign, and in the alternate form; plainly also in as many
/// pieces, of which each is a write where nothing gathers them.
pub fn same_display(test: &Test, found: &impl Display, wanted: &impl Display, row: &impl Debug) {
    same(test, &pieces_of(found), &pieces_of(wanted), row);
    let (found, wanted) = (displayed(test, found), displayed(test, wanted));
    same(test, &found.as_str(), &wanted.as_str(), row);
}

fn displayed(test: &Test, it: &impl Display) -> String {
    let printed = format!(in test.alloc;
        "{it}|{it:#}|{it:+}|{it:9}|{it:>60}|{it:*^50.41}|{it:é<4.1}|{it:.3}|{it:060}"
    );
    ok(test, printed)
}

/// A writer that counts what it is handed.
#[derive(Drop)]
struct Pieces(usize);

impl Write for Pieces {
    fn write_str(&mut self, _text: &str) -> fmt::Result {
        self.0 = self.0.wrapping_add(1);
        Ok(())
    }
}

fn pieces_of(it: &impl Display) -> usize {
    let mut pieces = Pieces(0);
    let _ = write!(pieces, "{it}");
    pieces.0
}

/// The same of `{:?}`.
pub fn same_debug(test: &Test, found: &impl Debug, wanted: &impl Debug, row: &impl Debug) {
    let (found, wanted) = (debugged(test, found), debugged(test, wanted));
    same(test, &found.as_str(), &wanted.as_str(), row);
}

fn debugged(test: &Test, it: &impl Debug) -> String {
    let printed = format!(in test.alloc;
        "{it:?}|{it:#?}|{it:+?}|{it:9?}|{it:>60?}|{it:*^50.41?}|{it:é<4.1?}|{it:.3?}|{it:>#60?}"
    );
    ok(test, printed)
}

/// A sentence, which is written as it is in each form.
#[derive(Drop)]
pub struct Sentence(pub &'static str);

impl Display for Sentence {
    fn fmt<W: Write>(&self, f: &mut Formatter<W>) -> fmt::Result {
        f.write_str(self.0)
    }
}

/// A variant and what it holds, as `{:?}` has it.
#[derive(Drop)]
pub struct Variant<'a, T>(pub &'static str, pub &'a [T]);

impl<T: Debug> Debug for Variant<'_, T> {
    fn fmt<W: Write>(&self, f: &mut Formatter<W>) -> fmt::Result {
        let mut tuple = f.debug_tuple(self.0);
        for field in self.1 {
            tuple.field(field);
        }
        tuple.finish()
    }
}
