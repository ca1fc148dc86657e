//! Sources and their trees.
use crate::parser::{BLANK, BRACKET, LIST, ParseFault, ROOT, WORD, parse};
use crate::{Element, MAX_DEPTH, SyntaxKind, TreeBuilder, TreeFault};
use ParseFault::{Tree, Unclosed, Unopened};
use smol_str::SmolStr;
use std::test::Fail;

const SOURCE: &str = "(add 1 (mul ä\n  y)) ";

static SOURCES: [&str; 6] = [SOURCE, "", "a", "()", "((()) ())", "  a(b)+"];

#[test]
fn text_is_the_source(rt: HostRuntime) -> Result<(), Fail> {
    let alloc = rt.alloc();
    for source in SOURCES {
        let tree = parse(alloc, source)?;
        assert_eq!(&rt; tree.text(alloc)?.as_str(), source);
        assert_eq!(&rt; tree.len(), source.len());
    }
    Ok(())
}

#[test]
fn kinds(rt: HostRuntime) -> Result<(), Fail> {
    let tree = parse(rt.alloc(), SOURCE)?;
    assert_eq!(&rt; tree.kind(), ROOT);
    let list = tree.children().first().expect(&rt, "a list");
    assert_eq!(&rt; list.kind(), LIST);
    assert_eq!(&rt; list.tokens(rt.alloc())?.len(), 13);
    let empty = Element::Token(WORD, SmolStr::new_inline(""));
    assert_eq!(&rt; empty.tokens(rt.alloc())?.len(), 1);
    let kinds: Vec<SyntaxKind> = list
        .children()
        .iter()
        .map(Element::kind)
        .collect(rt.alloc())?;
    assert!(&rt; kinds.as_slice() == [BRACKET, WORD, BLANK, WORD, BLANK, LIST, BRACKET].as_slice());
    let inner = list.children().get(5).expect(&rt, "a list");
    let blank = inner.children().get(4).expect(&rt, "a blank");
    assert_eq!(&rt; blank.kind(), BLANK);
    Ok(())
}

/// An offset in the source, its token, and the offset in that.
static OFFSETS: [(usize, &str, usize); 11] = [
    (0, "(", 0),
    (1, "add", 0),
    (3, "add", 2),
    (4, " ", 0),
    (12, "ä", 0),
    (13, "ä", 1),
    (14, "\n  ", 0),
    (16, "\n  ", 2),
    (17, "y", 0),
    (18, ")", 0),
    (20, " ", 0),
];

#[test]
fn token_at_each_border(rt: HostRuntime) -> Result<(), Fail> {
    let tree = parse(rt.alloc(), SOURCE)?;
    for (offset, text, within) in OFFSETS {
        let (token, at) = tree.token_at(offset).expect(&rt, "a token");
        assert_eq!(&rt; token.as_str(), text);
        assert_eq!(&rt; at, within);
    }
    assert!(&rt; tree.token_at(SOURCE.len()).is_none());
    assert!(&rt; tree.token_at(usize::MAX).is_none());
    Ok(())
}

static FAULTS: [(&str, ParseFault); 6] = [
    (")(", Unopened(0)),
    ("a)", Unopened(1)),
    ("(ä) b))", Unopened(6)),
    ("(a", Unclosed(0)),
    ("(ä) (b (c)", Unclosed(5)),
    ("a (b (ä", Unclosed(5)),
];

#[test]
fn brackets_that_do_not_match(rt: HostRuntime) -> Result<(), Fail> {
    for (source, fault) in FAULTS {
        assert_eq!(&rt; parse(rt.alloc(), source).err(), Some(fault));
    }
    Ok(())
}

#[test]
fn builder_faults(rt: HostRuntime) -> Result<(), Fail> {
    let mut builder = TreeBuilder::new(rt.alloc());
    assert_eq!(&rt; builder.finish_node(), Err(TreeFault::NoneOpen));
    builder.start_node(ROOT)?;
    assert_eq!(&rt; builder.finish().err(), Some(TreeFault::StillOpen));
    let mut builder = TreeBuilder::new(rt.alloc());
    builder.token(WORD, SmolStr::new_inline("a"))?;
    builder.token(WORD, SmolStr::new_inline(""))?;
    assert_eq!(&rt; builder.finish().err(), Some(TreeFault::NotOneRoot));
    Ok(())
}

// By their variants, kinds and texts.
#[test]
fn trees_and_faults_in_debug(rt: HostRuntime) -> Result<(), Fail> {
    let tree = parse(rt.alloc(), "(a) ")?;
    let printed = format!(in rt.alloc(); "{tree:?} {:?}", [Unclosed(7), Tree(TreeFault::TooDeep)])?;
    let wanted =
        "Node(SyntaxKind(0), [Node(SyntaxKind(1), [Token(SyntaxKind(2), \"(\"), Token(SyntaxKind(4), \"a\"), \
        Token(SyntaxKind(2), \")\")]), Token(SyntaxKind(3), \" \")]) [Unclosed(7), Tree(TooDeep)]";
    assert_eq!(&rt; printed.as_str(), wanted);
    Ok(())
}

static MESSAGES: [(ParseFault, &str); 7] = [
    (Tree(TreeFault::OutOfMemory), "memory allocation failed"),
    (Tree(TreeFault::TooDeep), "nodes nest too deep"),
    (Tree(TreeFault::NoneOpen), "no node is open"),
    (Tree(TreeFault::StillOpen), "a node is still open"),
    (Tree(TreeFault::NotOneRoot), "there is not one root"),
    (Unopened(7), "the bracket at byte 7 closes no list"),
    (Unclosed(7), "the list from byte 7 on is not closed"),
];

#[test]
fn messages(rt: HostRuntime) -> Result<(), Fail> {
    for (fault, message) in MESSAGES {
        assert_eq!(&rt; format!(in rt.alloc(); "{fault}")?.as_str(), message);
    }
    Ok(())
}

// With the root, as many nodes as may be open.
#[test]
fn nested_to_the_limit(rt: HostRuntime) -> Result<(), Fail> {
    let lists = MAX_DEPTH - 1;
    let mut source = "(".repeat(rt.alloc(), lists)?;
    source.push_str(")".repeat(rt.alloc(), lists)?.as_str())?;
    let tree = parse(rt.alloc(), source.as_str())?;
    assert_eq!(&rt; tree.len(), source.len());
    assert!(&rt; tree.text(rt.alloc())?.as_str() == source.as_str());
    let (token, _) = tree.token_at(lists).expect(&rt, "a token");
    assert_eq!(&rt; token.as_str(), ")");
    let deeper = "(".repeat(rt.alloc(), MAX_DEPTH)?;
    let fault = parse(rt.alloc(), deeper.as_str()).err();
    assert_eq!(&rt; fault, Some(Tree(TreeFault::TooDeep)));
    Ok(())
}

#[test]
fn a_megabyte(rt: HostRuntime) -> Result<(), Fail> {
    let source = "(add 1 (mul y z)) ".repeat(rt.alloc(), 60_000)?;
    let tree = parse(rt.alloc(), source.as_str())?;
    assert_eq!(&rt; tree.len(), source.len());
    assert_eq!(&rt; tree.children().len(), 120_000);
    let (token, at) = tree.token_at(source.len() - 5).expect(&rt, "a token");
    assert_eq!(&rt; token.as_str(), " ");
    assert_eq!(&rt; at, 0);
    Ok(())
}
