//! How a reader makes what it keeps of trees.

ghost use Rattle.std.specs.Prelude.{◌≡◌, ◌++◌, [], ◌∷◌, map, IfOk};
ghost use Rattle.c_text.specs.Token.{plain_token};
ghost use Rattle.c_tree.specs.Trees as trees;
ghost use Rattle.c_tree.specs.Machine as machine;
ghost use Rattle.plain_parse.specs.Kept.{kept, with_kept, all_kept, of_kept};
ghost use Rattle.plain_parse.specs.Frames.{plain_built, plain_parts};

use crate::values::{Built, LowTree, MOST_HIGH, Parts};
use c_text::Token;
use c_tree::{Kind, Tree, node_height, token_height};
use cond_formula::NoMemory;
use std::alloc::Global;

/// A token as a tree.
#[tactic(auto, using(c_tree::specs::TreeLaws::tree_kinds, crate::proofs::KeptLemmas::kept_laws))]
pub fn of_token(alloc: Global, token: &Token) -> Result<Built, NoMemory>
    ensures { IfOk result (λ value. plain_built value ≡ of_kept.of_token (plain_token token.now)) }
{
    Ok(Some(LowTree {
        height: token_height(token),
        tree: Tree::Leaf(token.try_clone(alloc)?),
    }))
}

/// What stands for a part that is left out.
#[tactic(auto, using(c_tree::specs::TreeLaws::tree_kinds, crate::proofs::KeptLemmas::kept_laws))]
pub fn of_nothing(alloc: Global) -> Built
    ensures { plain_built result ≡ of_kept.of_nothing }
{
    Some(LowTree {
        height: 0,
        tree: Tree::Node(Kind::Absent, Vec::new(alloc)),
    })
}

#[tactic(auto, using(c_tree::specs::TreeLaws::tree_kinds, crate::proofs::KeptLemmas::kept_laws))]
fn no_parts(alloc: Global) -> Parts
    ensures { result.trees.items ≡ [] }
{
    Parts {
        trees: Vec::new(alloc),
        highest: 0,
    }
}

#[tactic(auto, using(c_tree::specs::TreeLaws::tree_kinds, crate::proofs::KeptLemmas::kept_laws))]
fn with_low(parts: Parts, low: LowTree) -> Result<Parts, NoMemory>
    ensures { IfOk result (λ more. map trees.plain_tree more.trees.items
        ≡ map trees.plain_tree parts.trees.items ++ trees.plain_tree low.tree ∷ []) }
{
    let highest = parts.highest.max(low.height);
    let mut trees = parts.trees;
    trees.push(low.tree)?;
    Ok(Parts { trees, highest })
}

/// The parts and one more, if none of them is too high.
fn with_value(parts: Option<Parts>, value: Built) -> Result<Option<Parts>, NoMemory>
    ensures { IfOk result (λ more. plain_parts more ≡ with_kept (plain_parts parts) (plain_built value)) }
{
    let Some(parts) = parts else {
        return Ok(None);
    };
    let Some(low) = value else {
        return Ok(None);
    };
    Ok(Some(with_low(parts, low)?))
}

/// The parts, if none of them is too high.
fn low_parts(alloc: Global, values: Vec<Built>) -> Result<Option<Parts>, NoMemory>
    ensures { IfOk result (λ parts. plain_parts parts ≡ all_kept (map plain_built values.items)) }
{
    let mut parts = Some(no_parts(alloc));
    for value in values {
        parts = with_value(parts, value)?;
    }
    Ok(parts)
}

/// A node of parts that are low enough.
#[tactic(auto, using(c_tree::specs::TreeLaws::tree_kinds, crate::proofs::KeptLemmas::kept_laws))]
fn node(kind: Kind, parts: Parts) -> Built
    ensures { plain_built result ≡ kept (trees.node kind (trees.plain_trees parts.trees.items)) }
{
    let height = node_height(kind, &parts.trees, parts.highest);
    if height <= MOST_HIGH {
        Some(LowTree {
            height,
            tree: Tree::Node(kind, parts.trees),
        })
    } else {
        None
    }
}

/// A node of these parts.
pub fn of_parts(alloc: Global, kind: Kind, values: Vec<Built>) -> Result<Built, NoMemory>
    ensures { IfOk result (λ value. plain_built value ≡ of_kept.of_parts kind (map plain_built values.items)) }
{
    match low_parts(alloc, values)? {
        Some(parts) => Ok(node(kind, parts)),
        None => Ok(None),
    }
}

/// The first of some values, and nothing if there is none.
pub fn alone(alloc: Global, values: Vec<Built>) -> Built
    ensures { plain_built result ≡ machine.alone of_kept (map plain_built values.items) }
{
    match values.into_iter().next() {
        Some(value) => value,
        None => of_nothing(alloc),
    }
}
