//! A source is cut into tokens, and the tokens are the source once more.
use super::lex;
use Place::{Heap, Inline, Static};
use smol_str::Place;
use std::test::Fail;

/// The tokens of a source.
static TOKENS: [(&str, Place); 12] = [
    ("let", Inline),
    (" ", Inline),
    ("é_1", Inline),
    (" ", Inline),
    ("+", Inline),
    ("=", Inline),
    (" ", Inline),
    ("a_name_that_is_longer_than_an_inline_text", Heap),
    (";", Inline),
    ("\n\n    ", Inline),
    ("}", Inline),
    ("\n                                        ", Static),
];

#[test]
fn tokens_and_their_places(rt: HostRuntime) -> Result<(), Fail> {
    let mut source = String::new(rt.alloc());
    for (token, _) in &TOKENS {
        source.push_str(token)?;
    }
    let tokens = lex(rt.alloc(), source.as_str())?;
    assert_eq!(rt; tokens.len(), TOKENS.len());
    let mut joined = String::new(rt.alloc());
    for (token, (text, place)) in tokens.iter().zip(&TOKENS) {
        assert_eq!(rt; token.as_str(), *text);
        assert_eq!(rt; token.place(), *place, "at {text}");
        joined.push_str(token.as_str())?;
    }
    assert_eq!(rt; joined, source);
    Ok(())
}
