//! What a syntax tree asks for and keeps, and that it gives up at each refused request.
use syntax_tree::parser::{ParseFault, parse};
use syntax_tree::{Element, TreeFault};
use test_support::*;

/// How many requests, for how many bytes, and how many bytes are kept.
type Most = (u32, u32, u32);

/// How many short words a source has, and the most for its tree, its tokens and its text.
///
/// Three lists have an item for each token: the lexer's tokens, the builder's elements and the root's children. A list that
/// doubles makes 9 requests up to 1,024 items. The others are for the open node, the root and the room of the last step.
static ROWS: [(usize, Most, Most, Most); 2] = table! {
    (1, (6, 1_500, 500), (1, 100, 100), (0, 0, 0));
    (500, (30, 700_000, 64_000), (9, 32_000, 17_000), (7, 4_000, 1_300));
};

#[test]
fn short_tokens_ask_for_their_lists_alone(rt: HostRuntime) -> Result<(), Fail> {
    let test = Test::begin(rt);
    for &(words, of_tree, of_tokens, of_text) in &ROWS {
        let source = test.repeated("a ", words);
        begin(&test);
        let tree = parse(test.alloc, source.as_str());
        check_asked(&test, of_tree);
        match tree {
            Ok(tree) => check_asked_of(&test, &tree, of_tokens, of_text),
            Err(fault) => test.fail(&fault),
        }
    }
    test.end()
}

fn check_asked_of(test: &Test, tree: &Element, of_tokens: Most, of_text: Most) {
    begin(test);
    let tokens = tree.tokens(test.alloc);
    check_asked(test, of_tokens);
    holds(test, tokens.is_ok(), &"tokens");
    drop(tokens);
    begin(test);
    let text = tree.text(test.alloc);
    check_asked(test, of_text);
    holds(test, text.is_ok(), &"text");
}

/// From here on it is counted what is asked for and kept.
fn begin(test: &Test) {
    start_counts(test.alloc);
    refuse(test.alloc, Refusals::One(0));
}

fn check_asked(test: &Test, (requests, bytes, held): Most) {
    end_refusals(test.alloc);
    let found = (
        counted(test.alloc, Count::Requests),
        counted(test.alloc, Count::Bytes),
        counted(test.alloc, Count::Held),
    );
    let is_within = found.0 <= requests && found.1 <= bytes && found.2 <= held;
    holds(test, is_within || !can_refuse(test.alloc), &found);
}

/// A tree of nested lists with a token that is not short, its text, and its tokens.
fn asked(alloc: Global) -> Result<(), ParseFault> {
    let source = "(add (mul a_name_that_is_longer_than_an_inline_text 1) 2)";
    let tree = parse(alloc, source)?;
    tree.text(alloc)?;
    tree.tokens(alloc)?;
    Ok(())
}

#[test]
fn gives_up_at_each_request(rt: HostRuntime) -> Result<(), Fail> {
    let test = Test::begin(rt);
    let mut refusals = 0usize;
    for nth in 1..100u32 {
        start_counts(test.alloc);
        refuse(test.alloc, Refusals::One(nth));
        let fault = asked(test.alloc).err();
        let was_refused = end_refusals(test.alloc);
        let wanted = ParseFault::Tree(TreeFault::OutOfMemory);
        same(&test, &fault, &was_refused.then_some(wanted), &nth);
        no_blocks(&test, &nth);
        refusals = refusals.saturating_add(usize::from(was_refused));
    }
    let has_refused = refusals > 5 && refusals < 99;
    holds(&test, has_refused || !can_refuse(test.alloc), &refusals);
    test.end()
}
