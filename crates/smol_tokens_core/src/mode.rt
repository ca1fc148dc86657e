//! What the program is asked to do.
ghost use Rattle.std.specs.Prelude.{◌≡◌};
ghost use Rattle.smol_tokens_core.specs.ModeWords.{asked_mode, mode_of_word};

/// What the program writes of its input.
#[derive(Debug)]
pub enum Mode {
    /// For each line, the place of its text, its length in bytes and the text.
    Show,
    /// As `Show`, once: of all lines joined without their newlines, even if there are none.
    Join,
    /// As `Show`, of each line with A to Z as a to z.
    Lower,
    /// As `Show`, of each line with a to z as A to Z.
    Upper,
    /// As `Show`, of each line with the second text in place of each match of the first.
    Replace(String, String),
    /// For each different line how often it occurs, and the line, in order of first sight.
    Tokens,
    /// For each different token of count lines, as mode tokens writes them, the sum of its counts, and the token.
    Merge,
}

// By hand it is one call in each proof; a derived one would be a case for each mode there.
impl Drop for Mode {
    fn drop(self) {
        match self {
            Mode::Replace(_from, _to) => {}
            Mode::Show | Mode::Join | Mode::Lower | Mode::Upper | Mode::Tokens | Mode::Merge => {}
        }
    }
}

/// Reads the words after the program's name: none, or the word of a mode, or `replace` and its two
/// texts, either of which may be empty. It takes no memory, and returns `None` for every other list
/// of words.
pub fn mode_of(mut words: Vec<String>) -> Option<Mode>
    ensures { result ≡ asked_mode words.items }
{
    match words.as_slice() {
        [] => Some(Mode::Show),
        [word] => mode_of_word(word.as_str()),
        [word, _, _] if word.as_str() == "replace" => {
            let to = words.pop()?;
            let from = words.pop()?;
            Some(Mode::Replace(from, to))
        }
        _ => None,
    }
}

/// The mode that one word alone asks for.
fn mode_of_word(word: &str) -> Option<Mode>
    ensures { result ≡ mode_of_word word.now }
{
    match word {
        "show" => Some(Mode::Show),
        "join" => Some(Mode::Join),
        "lower" => Some(Mode::Lower),
        "upper" => Some(Mode::Upper),
        "tokens" => Some(Mode::Tokens),
        "merge" => Some(Mode::Merge),
        _ => None,
    }
}
