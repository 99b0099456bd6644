//! Trees with alternatives.
use c_text::Token;
use c_tree::Kind;
use cond_formula::Formula;

/// The alternatives for a part of a node. Their conditions exclude each other; where none holds, the part is left out.
#[derive(Drop)]
pub struct Choice<T> {
    /// Each alternative under its condition.
    pub branches: Vec<(Formula, T)>,
}

/// A part of the tree of a unit in all configurations: a token, or a node with its parts in the order of the text.
#[derive(Drop)]
pub enum Item {
    /// A token, with its number among the tokens of the unit's stream.
    Leaf(u32, Token),
    Node(Kind, Vec<Choice<Item>>),
}

/// The tree of a unit in all configurations.
#[derive(Drop)]
pub struct Forest {
    /// What stands at file scope, in the order of the text.
    pub items: Vec<Choice<Item>>,
}
