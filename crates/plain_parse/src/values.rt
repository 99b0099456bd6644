//! What a reader keeps of trees: trees that are low enough.

ghost use Rattle.std.specs.Prelude.{◌≡◌, ◌≤◌};
ghost use Rattle.c_tree.specs.Trees.{plain_tree, plain_trees};
ghost use Rattle.c_tree.specs.Heights.{height_of, highest_of};

use c_tree::Tree;

/// The most that a unit's tree may have.
pub const MOST_HIGH: u32 = 512;

/// A tree that is at most 512 high, and its height.
#[derive(Drop)]
pub struct LowTree {
    pub height: u32,
    pub tree: Tree,
    pub ghost counted: { height ≡ height_of (plain_tree tree) },
    pub ghost low: { height ≤ 512 },
}

/// What stands for a tree: the tree, unless it is too high. So no value needs a deep stack when it is dropped.
pub type Built = Option<LowTree>;

/// The parts of a node, and how high the highest of them is.
#[derive(Drop)]
pub struct Parts {
    pub trees: Vec<Tree>,
    pub highest: u32,
    pub ghost counted: { highest ≡ highest_of (plain_trees trees.items) },
}
