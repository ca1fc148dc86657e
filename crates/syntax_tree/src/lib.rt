//! A lossless syntax tree: nodes have a kind and children, tokens have a kind and a text, and the tokens' texts are the source
//! once more. A short token needs no memory of its own.
//!
//! It stands on `smol_str` and `lexer`. Copy its folder and theirs beside yours, and add `syntax_tree: smol_str lexer thiserror`
//! to your `crates.txt`. `parser` is an example: write your own over `TreeBuilder`.
#![tactic(auto)]

pub mod builder;
pub mod parser;
#[cfg(test)]
mod tests;
pub mod tree;

pub use builder::{MAX_DEPTH, TreeBuilder, TreeFault};
pub use tree::{Element, SyntaxKind};
