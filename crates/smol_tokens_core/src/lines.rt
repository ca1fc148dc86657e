//! The lines of a text, one after another.
ghost use Rattle.std.specs.Prelude.{◌≡◌, ◌<◌, [], ◌∷◌, length, MatchOption, IfSome};
ghost use Rattle.std.specs.Iterator.{YieldsFirstBy, item_count};
ghost use Rattle.std.specs.Str.{chars};
ghost use Rattle.smol_tokens_core.specs.Lines.{lines};

use smol_str::kernel::next_match;
use std::marker::Model;

/// The first line of a text, without its newline, and what follows it; `None` where there is no
/// line.
///
/// Unlike `str::lines`, a carriage return stays in its line.
pub fn first_line(text: &str) -> Option<(&str, &str)>
    ensures cut { MatchOption result (lines (chars text.now) ≡ [])
        (λ cut. lines (chars text.now) ≡ chars cut.0.now ∷ lines (chars cut.1.now)) }
    ensures shorter { IfSome result (λ cut. length cut.1.now < length text.now) }
{
    if text.is_empty() {
        return None;
    }
    match next_match(text, 0, "\n") {
        Some(end) => Some((&text[..end], &text[end + 1..])),
        None => Some((text, "")),
    }
}

/// The lines of a text in order, without their newlines. It means the text whose lines are still to come.
#[derive(Drop)]
pub struct Lines<'a> {
    rest: &'a str,
}

impl<'a> Model for Lines<'a> {
    ghost use Rattle.std.specs.Prelude.{ℕ, List};

    ghost Value = { List ℕ };

    ghost view = { λ s. s.rest.now };
}

impl<'a> Lines<'a> {
    /// All lines of a text.
    pub fn of(text: &'a str) -> Lines<'a>
        ensures { result ≡ text.now }
    {
        Lines { rest: text }
    }
}

impl<'a> Iterator for Lines<'a> {
    type Item = &'a str;

    ghost next_gives = { YieldsFirstBy (λ line. chars line.now) (λ s. lines (chars s)) };

    ghost remaining = { item_count (λ s. lines (chars s)) };

    fn next(&mut self) -> Option<&'a str> {
        let (line, after) = first_line(self.rest)?;
        self.rest = after;
        Some(line)
    }
}
