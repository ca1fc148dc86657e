//! A syntax tree, and what it is asked.
ghost use Rattle.std.specs.Prelude.{◌≡◌, ◌+◌, ◌-◌, ◌^◌, ◌≤◌, ◌++◌, min, map, flat_map, IfOk, IfErr, OnOk, OnErr, IfSome, IfNone};
ghost use Rattle.smol_str.specs.Meaning.{IsValueOf};
ghost use Rattle.smol_str.specs.Text.{size, IsShort};
ghost use Rattle.smol_str.specs.BuilderState.{appended, OnHeap};
ghost use Rattle.syntax_tree.specs.declared.tree.Element.TheViews.{out-Element};
ghost use Rattle.syntax_tree.specs.Trees.{text_of, tokens_of, kind_of, children_of, IsTokenAt};

use smol_str::{SmolStr, SmolStrBuilder};
use std::alloc::{AllocError, Global};

/// What an element is. The numbers are your own.
#[derive(Clone, Copy, Debug, PartialEq, Eq, PartialOrd, Ord, Hash)]
pub struct SyntaxKind(pub u16);

/// A node or a token.
#[derive(Debug, PartialEq, Eq, Drop)]
pub enum Element {
    Node(SyntaxKind, Vec<Element>),
    Token(SyntaxKind, SmolStr),
}

impl Element {
    pub fn kind(&self) -> SyntaxKind
        ensures { result ≡ kind_of (out-Element self.now) }
    {
        match self {
            Element::Node(kind, _) => *kind,
            Element::Token(kind, _) => *kind,
        }
    }

    /// What a node has; nothing of a token.
    pub fn children(&self) -> &[Element]
        ensures { result.now ≡ children_of (out-Element self.now) }
    {
        match self {
            Element::Node(_, children) => children,
            Element::Token(_, _) => &[],
        }
    }

    /// The element's text.
    pub fn text(&self, alloc: Global) -> Result<SmolStr, AllocError>
        ensures ok { IfOk result (λ v. IsValueOf (text_of self.now) v) }
        ensures refused { OnErr result (¬ (IsShort (text_of self.now))) }
    {
        let mut out = SmolStrBuilder::new(alloc);
        self.write_text(&mut out)?;
        out.into_value()
    }

    /// Appends the element's text.
    #[cycle(write)]
    #[tactic(auto, using(smol_str::proofs::CallerLemmas::texts, crate::proofs::TreeLemmas::nodes))]
    pub fn write_text(&self, out: &mut SmolStrBuilder) -> Result<(), AllocError>
        ensures ok { OnOk result (out.new ≡ appended out.old (text_of self.now)) }
        ensures refused { OnErr result ((appended out.old (text_of self.now)).kind ≡ OnHeap) }
    {
        match self {
            Element::Node(_, children) => write_all(children, out),
            Element::Token(_, text) => out.push_str(text),
        }
    }

    /// The tokens, in their order.
    pub fn tokens<'a>(&'a self, alloc: Global) -> Result<Vec<&'a SmolStr>, AllocError>
        ensures { IfOk result (λ tokens. map (λ token. token.now) tokens.items ≡ tokens_of self.now) }
    {
        let mut tokens: Vec<&'a SmolStr> = Vec::new(alloc);
        self.push_tokens(&mut tokens)?;
        Ok(tokens)
    }

    #[cycle(tokens)]
    #[tactic(auto, using(smol_str::proofs::CallerLemmas::texts, crate::proofs::TreeLemmas::nodes))]
    fn push_tokens<'a>(&'a self, out: &mut Vec<&'a SmolStr>) -> Result<(), AllocError>
        ensures { OnOk result (map (λ token. token.now) out.new.items ≡ map (λ token. token.now) out.old.items ++ tokens_of self.now) }
    {
        match self {
            Element::Node(_, children) => push_all_tokens(children, out)?,
            Element::Token(_, text) => out.push(text)?,
        }
        Ok(())
    }

    /// How many bytes the text has; the largest number where it has more.
    #[cycle(len)]
    #[tactic(auto, using(smol_str::proofs::CallerLemmas::texts, crate::proofs::TreeLemmas::nodes))]
    pub fn len(&self) -> usize
        ensures { result ≡ min (size (text_of self.now)) (2 ^ 64 - 1) }
    {
        match self {
            Element::Node(_, children) => len_of_all(children),
            Element::Token(_, text) => text.len(),
        }
    }

    /// The token that has the byte at an offset of the text, and the offset in that token.
    pub fn token_at(&self, offset: usize) -> Option<(&SmolStr, usize)>
        ensures found { IfSome result (λ it. IsTokenAt (text_of self.now) offset it.0.now.text it.1) }
        ensures past { IfNone result (size (text_of self.now) ≤ offset) }
    {
        self.find(offset).ok()
    }

    /// The same, or how far behind the text the offset lies.
    #[cycle(find)]
    #[tactic(auto, using(smol_str::proofs::CallerLemmas::texts, crate::proofs::TreeLemmas::nodes))]
    fn find(&self, offset: usize) -> Result<(&SmolStr, usize), usize>
        ensures found { IfOk result (λ it. IsTokenAt (text_of self.now) offset it.0.now.text it.1) }
        ensures past { IfErr result (λ left. size (text_of self.now) + left ≡ offset) }
    {
        match self {
            Element::Node(_, children) => find_among(children, offset),
            Element::Token(_, text) if offset < text.len() => Ok((text, offset)),
            Element::Token(_, text) => Err(offset - text.len()),
        }
    }
}

#[cycle(write)]
#[tactic(auto, using(smol_str::proofs::CallerLemmas::passed_builders))]
fn write_all(children: &[Element], out: &mut SmolStrBuilder) -> Result<(), AllocError>
    ensures ok { OnOk result (out.new ≡ appended out.old (flat_map text_of children.now)) }
    ensures refused { OnErr result ((appended out.old (flat_map text_of children.now)).kind ≡ OnHeap) }
{
    let _text = out.as_str();
    for child in children {
        child.write_text(out)?;
    }
    Ok(())
}

#[cycle(tokens)]
#[tactic(auto, using(crate::proofs::TreeLemmas::nodes))]
fn push_all_tokens<'a>(
    children: &'a [Element],
    out: &mut Vec<&'a SmolStr>,
) -> Result<(), AllocError>
    ensures { OnOk result (map (λ token. token.now) out.new.items ≡ map (λ token. token.now) out.old.items ++ flat_map tokens_of children.now) }
{
    for child in children {
        child.push_tokens(out)?;
    }
    Ok(())
}

#[cycle(len)]
#[tactic(auto, using(crate::proofs::TreeLemmas::nodes))]
pub fn len_of_all(children: &[Element]) -> usize
    ensures { result ≡ min (size (flat_map text_of children.now)) (2 ^ 64 - 1) }
{
    let mut len = 0usize;
    for child in children {
        len = len.saturating_add(child.len());
    }
    len
}

#[cycle(find)]
#[tactic(auto, using(crate::proofs::TreeLemmas::nodes))]
fn find_among(children: &[Element], offset: usize) -> Result<(&SmolStr, usize), usize>
    ensures found { IfOk result (λ it. IsTokenAt (flat_map text_of children.now) offset it.0.now.text it.1) }
    ensures past { IfErr result (λ left. size (flat_map text_of children.now) + left ≡ offset) }
{
    let mut left = offset;
    for child in children {
        match child.find(left) {
            Ok(found) => return Ok(found),
            Err(behind) => left = behind,
        }
    }
    Err(left)
}
