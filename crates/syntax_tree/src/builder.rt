//! Builds a tree as a parser reads its source.
ghost use Rattle.std.specs.Prelude.{◌≡◌, ◌-◌, ◌^◌, ◌+◌, ◌++◌, ◌∷◌, [], min, take, slice_get, flat_map, IfOk, IfErr, IfSome, OnOk, OnErr};
ghost use Rattle.smol_str.specs.Text.{size};
ghost use Rattle.syntax_tree.specs.Trees.{text_of};
ghost use Rattle.syntax_tree.specs.Building.{Building, text_so_far, depth, with_element, with_start, IsFinished};
ghost use Rattle.syntax_tree.specs.Faults.{AfterStart, AfterFinishNode, AfterFinish};

use crate::tree::{Element, SyntaxKind, len_of_all};
use smol_str::SmolStr;
use std::alloc::{AllocError, Global};
use std::marker::Model;
use thiserror::Error;

/// How many nodes may be open at once.
///
/// A tree is read, compared, printed and dropped by recursion, one level of calls for each level of nodes. At this depth each
/// level may take 4 KiB of a stack of 8 MiB; dropping takes some 110 bytes. `TreeBuilder` makes no deeper tree. If you put
/// nodes together by hand, keep to this limit.
pub const MAX_DEPTH: usize = 2_000;

/// Why a tree is not built.
#[derive(Debug, Clone, Copy, PartialEq, Eq, Error)]
pub enum TreeFault {
    #[error("memory allocation failed")]
    OutOfMemory,
    #[error("nodes nest too deep")]
    TooDeep,
    #[error("no node is open")]
    NoneOpen,
    #[error("a node is still open")]
    StillOpen,
    #[error("there is not one root")]
    NotOneRoot,
}

/// The elements so far, and where the children of each open node begin.
#[derive(Drop)]
pub struct TreeBuilder {
    alloc: Global,
    starts: Vec<(SyntaxKind, usize)>,
    elements: Vec<Element>,
}

impl Model for TreeBuilder {
    ghost use Rattle.std.specs.Coded.{codes};
    ghost use Rattle.syntax_tree.specs.Building.{Building};
    ghost use Rattle.syntax_tree.specs.contracts.tree.Element as e;

    ghost Value = { Building };

    ghost coded = { Prim.hlevel (codes, e.the_row.coded) };

    ghost view = { λ s. record { elements = s.elements.items; starts = s.starts.items } };
}

impl TreeBuilder {
    pub fn new(alloc: Global) -> TreeBuilder
        ensures { result ≡ record { elements = []; starts = [] } }
    {
        TreeBuilder {
            alloc,
            starts: Vec::new(alloc),
            elements: Vec::new(alloc),
        }
    }

    /// Adds a token.
    #[tactic(auto, using(crate::proofs::TreeLemmas::nodes))]
    pub fn token(&mut self, kind: SyntaxKind, text: SmolStr) -> Result<(), AllocError>
        ensures text { OnOk result (text_so_far self.new ≡ text_so_far self.old ++ text.text) }
        ensures element { OnOk result (self.new ≡ with_element self.old (Element.Token kind text)) }
        ensures unchanged { OnErr result (self.new ≡ self.old) }
    {
        self.elements.push(Element::Token(kind, text))?;
        Ok(())
    }

    /// Opens a node: what follows, up to its `finish_node`, are its children.
    pub fn start_node(&mut self, kind: SyntaxKind) -> Result<(), TreeFault>
        ensures node { OnOk result (self.new ≡ with_start self.old kind) }
        ensures depth { OnOk result (depth self.new ≡ depth self.old + 1) }
        ensures unchanged { OnErr result (self.new ≡ self.old) }
        ensures fault { IfErr result (AfterStart self.old) }
    {
        if self.starts.len() >= MAX_DEPTH {
            return Err(TreeFault::TooDeep);
        }
        self.starts
            .push((kind, self.elements.len()))
            .or(Err(TreeFault::OutOfMemory))
    }

    /// Closes the node that was opened last.
    #[tactic(auto, using(crate::proofs::TreeLemmas::nodes))]
    pub fn finish_node(&mut self) -> Result<(), TreeFault>
        ensures text { OnOk result (text_so_far self.new ≡ text_so_far self.old) }
        ensures node { OnOk result (IsFinished self.old self.new) }
        ensures depth { OnOk result (depth self.new + 1 ≡ depth self.old) }
        ensures unchanged { OnErr result (self.new ≡ self.old) }
        ensures fault { IfErr result (AfterFinishNode self.old) }
    {
        let Some(&(kind, first)) = self.starts.last() else {
            return Err(TreeFault::NoneOpen);
        };
        // Memory first, so that a refusal leaves the builder as it was.
        self.elements.reserve(1).or(Err(TreeFault::OutOfMemory))?;
        let children = self
            .elements
            .split_off(first.min(self.elements.len()))
            .or(Err(TreeFault::OutOfMemory))?;
        self.elements
            .push(Element::Node(kind, children))
            .or(Err(TreeFault::OutOfMemory))?;
        self.starts.pop();
        Ok(())
    }

    /// How many nodes are open.
    pub fn depth(&self) -> usize
        ensures { result ≡ depth self.now }
    {
        self.starts.len()
    }

    /// How many bytes the text so far has; the largest number where it has more. It counts all elements.
    pub fn len(&self) -> usize
        ensures { result ≡ min (size (text_so_far self.now)) (2 ^ 64 - 1) }
    {
        len_of_all(&self.elements)
    }

    /// The offset at which the node begins that was opened last; 0 if none is open. It counts all elements before that.
    pub fn last_start(&self) -> usize
        ensures open { IfSome (slice_get self.now.starts (depth self.now - 1)) (λ start.
            result ≡ min (size (flat_map text_of (take start.1 self.now.elements))) (2 ^ 64 - 1)) }
        ensures none { depth self.now ≡ 0 → result ≡ 0 }
    {
        match self.starts.last() {
            Some(&(_, first)) => len_of_all(&self.elements[..first.min(self.elements.len())]),
            None => 0,
        }
    }

    /// The tree, if its root is all there is.
    #[tactic(auto, using(crate::proofs::TreeLemmas::nodes))]
    pub fn finish(self) -> Result<Element, TreeFault>
        ensures text { IfOk result (λ root. text_of root ≡ text_so_far self) }
        ensures root { IfOk result (λ root. self ≡ record { elements = root ∷ []; starts = [] }) }
        ensures fault { IfErr result (AfterFinish self) }
    {
        if !self.starts.is_empty() {
            return Err(TreeFault::StillOpen);
        }
        let mut elements = self.elements;
        match elements.pop() {
            Some(root) if elements.is_empty() => Ok(root),
            _ => Err(TreeFault::NotOneRoot),
        }
    }
}
