//! A small language as an example: words, and lists of them in round brackets, as `(add 1 (mul x y))`.
ghost use Rattle.std.specs.Prelude.{◌≡◌, ◌-◌, ◌<◌, ◌^◌, ◌++◌, List, ℕ, Some, chars, IfOk, IfErr, OnOk};
ghost use Rattle.smol_str.specs.Text.{size};
ghost use Rattle.lexer.specs.Tokens.{IsToken};
ghost use Rattle.syntax_tree.specs.Brackets.{open_lists, IsBalanced};
ghost use Rattle.syntax_tree.specs.Building.{text_so_far, depth, HasRoot};
ghost use Rattle.syntax_tree.specs.Faults.{AfterParseFault};
ghost use Rattle.syntax_tree.specs.Trees.{text_of};

use crate::builder::{TreeBuilder, TreeFault};
use crate::tree::{Element, SyntaxKind};
use lexer::lex;
use smol_str::SmolStr;
use std::alloc::{AllocError, Global};
use thiserror::Error;

pub const ROOT: SyntaxKind = SyntaxKind(0);

pub const LIST: SyntaxKind = SyntaxKind(1);

pub const BRACKET: SyntaxKind = SyntaxKind(2);

pub const BLANK: SyntaxKind = SyntaxKind(3);

pub const WORD: SyntaxKind = SyntaxKind(4);

/// Why a source has no tree. A number is an offset in bytes.
#[derive(Debug, Clone, Copy, PartialEq, Eq, Error)]
pub enum ParseFault {
    #[error(transparent)]
    Tree(TreeFault),
    #[error("the bracket at byte {0} closes no list")]
    Unopened(usize),
    #[error("the list from byte {0} on is not closed")]
    Unclosed(usize),
}

impl From<TreeFault> for ParseFault {
    ghost use Rattle.syntax_tree.specs.declared.parser.ParseFault.{ParseFault};

    ghost from_gives = { λ error fault. fault ≡ ParseFault.Tree error };

    fn from(error: TreeFault) -> ParseFault {
        ParseFault::Tree(error)
    }
}

impl From<AllocError> for ParseFault {
    ghost use Rattle.syntax_tree.specs.declared.builder.TreeFault.{TreeFault};
    ghost use Rattle.syntax_tree.specs.declared.parser.ParseFault.{ParseFault};

    ghost from_gives = { λ error fault. fault ≡ ParseFault.Tree TreeFault.OutOfMemory };

    fn from(_error: AllocError) -> ParseFault {
        ParseFault::Tree(TreeFault::OutOfMemory)
    }
}

/// The tree of a source. It has each character of the source.
#[tactic(auto, using(crate::proofs::BracketLemmas::brackets))]
pub fn parse(alloc: Global, source: &str) -> Result<Element, ParseFault>
    ensures lossless { IfOk result (λ root. text_of root ≡ chars source.now) }
    ensures balanced { OnOk result (IsBalanced (chars source.now)) }
    ensures fault { IfErr result (AfterParseFault (chars source.now)) }
{
    let mut builder = TreeBuilder::new(alloc);
    builder.start_node(ROOT)?;
    for token in lex(alloc, source)? {
        add(&mut builder, token)?;
    }
    if builder.depth() > 1 {
        return Err(ParseFault::Unclosed(builder.last_start()));
    }
    builder.finish_node()?;
    Ok(builder.finish()?)
}

/// Adds a token, and opens or closes the list that it begins or ends.
#[tactic(auto, using(crate::proofs::BracketLemmas::brackets))]
fn add(builder: &mut TreeBuilder, token: SmolStr) -> Result<(), ParseFault>
    requires token { IsToken token.text }
    requires rooted { 0 < depth builder.old }
    requires root { HasRoot builder.old }
    requires lists { open_lists (text_so_far builder.old) ≡ Some (depth builder.old - 1) }
    requires fits { size (text_so_far builder.old) < 2 ^ 64 }
    ensures text { OnOk result (text_so_far builder.new ≡ text_so_far builder.old ++ token.text) }
    ensures rooted { OnOk result (0 < depth builder.new) }
    ensures root { OnOk result (HasRoot builder.new) }
    ensures lists { OnOk result (open_lists (text_so_far builder.new) ≡ Some (depth builder.new - 1)) }
    // whatever follows
    ensures fault { IfErr result (λ fault. (rest : List ℕ) →
        AfterParseFault (text_so_far builder.old ++ (token.text ++ rest)) fault) }
{
    if token.eq_str("(") {
        builder.start_node(LIST)?;
        builder.token(BRACKET, token)?;
    } else if token.eq_str(")") {
        if builder.depth() < 2 {
            return Err(ParseFault::Unopened(builder.len()));
        }
        builder.token(BRACKET, token)?;
        builder.finish_node()?;
    } else if token.starts_with(' ') || token.starts_with('\n') {
        builder.token(BLANK, token)?;
    } else {
        builder.token(WORD, token)?;
    }
    Ok(())
}
