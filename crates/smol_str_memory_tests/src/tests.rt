//! The law of memory, over every call that may be refused it, and over a tree of tokens.
mod law;
mod tree;
