//! Trees that are equal.

ghost use Rattle.std.specs.Prelude.{◌≡◌, IsTrue};
ghost use Rattle.c_text.specs.Token.{plain_token};
ghost use Rattle.c_tree.specs.Trees.{plain_tree, plain_trees};

use c_text::Token;
use c_tree::{Kind, Tree};

fn is_same_token(a: &Token, b: &Token) -> bool
    ensures { IsTrue result → plain_token a.now ≡ plain_token b.now }
{
    a.same_spelling(b) && a.joined == b.joined && a.origin == b.origin
}

fn is_same_kind(k: Kind, l: Kind) -> bool
    ensures { IsTrue result → k ≡ l }
{
    k == l
}

/// Whether two trees are equal, origins of their tokens included.
#[cycle(trees)]
#[tactic(auto, using(c_tree::specs::TreeLaws::tree_kinds))]
pub fn is_same_tree(a: &Tree, b: &Tree) -> bool
    ensures { IsTrue result → plain_tree a.now ≡ plain_tree b.now }
{
    match (a, b) {
        (Tree::Leaf(a), Tree::Leaf(b)) => is_same_token(a, b),
        (Tree::Node(k, a), Tree::Node(l, b)) => is_same_kind(*k, *l) && are_same(a, b),
        _ => false,
    }
}

#[cycle(trees)]
fn are_same(a: &[Tree], b: &[Tree]) -> bool
    ensures { IsTrue result → plain_trees a.now ≡ plain_trees b.now }
{
    if a.len() != b.len() {
        return false;
    }
    for (i, part) in a.iter().enumerate() {
        if !is_same_tree(part, &b[i]) {
            return false;
        }
    }
    true
}
