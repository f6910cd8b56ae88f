// The tree office: each role has at most one direct senior.
#![tactic(auto)]

pub mod tree;
pub mod trees;

use drafting::{Draft, Sealed};
pub use tree::Tree;

pub type TreeDraft = Draft<Tree>;

pub type TreeOffice = Sealed<Tree>;
