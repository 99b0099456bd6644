//! Nodes of so many parts.
ghost use Rattle.std.specs.Prelude.{◌≡◌, Some, MatchResult};
ghost use Rattle.c_tree.specs.Trees.{none, more, plain_tree, plain_trees};
ghost use Rattle.plain_scope.specs.Parts.{parts_in};
ghost use Rattle.plain_declarators.specs.Shapes.{braced};

use c_tree::Tree;
use plain_scope::ElabError;

fn only_part(parts: &[Tree]) -> Result<&Tree, ElabError>
    ensures { MatchResult result (λ a. plain_trees parts.now ≡ more (plain_tree a.now) none) (λ error. error ≡ ElabError.Memory) }
{
    let Some((a, rest)) = parts.split_first() else {
        return Err(ElabError::Memory);
    };
    match rest.split_first() {
        Some(_) => Err(ElabError::Memory),
        None => Ok(a),
    }
}

/// The parts of a node that has two.
pub fn two_parts(parts: &[Tree]) -> Result<(&Tree, &Tree), ElabError>
    ensures { MatchResult result (λ r. plain_trees parts.now ≡ more (plain_tree r.0.now) (more (plain_tree r.1.now) none)) (λ error. error ≡ ElabError.Memory) }
{
    let Some((a, rest)) = parts.split_first() else {
        return Err(ElabError::Memory);
    };
    let b = only_part(rest)?;
    Ok((a, b))
}

/// The parts of a node that has three.
pub fn three_parts(parts: &[Tree]) -> Result<(&Tree, &Tree, &Tree), ElabError>
    ensures { MatchResult result (λ r. plain_trees parts.now ≡ more (plain_tree r.0.now) (more (plain_tree r.1.now) (more (plain_tree r.2.now) none))) (λ error. error ≡ ElabError.Memory) }
{
    let Some((a, rest)) = parts.split_first() else {
        return Err(ElabError::Memory);
    };
    let (b, c) = two_parts(rest)?;
    Ok((a, b, c))
}

/// The initialisers between braces, with commas between them.
#[tactic(auto, using(c_tree::specs::TreeLaws::tree_kinds))]
pub fn entries_in(parts: &[Tree]) -> Result<&[Tree], ElabError>
    ensures { MatchResult result (λ entries. braced (plain_trees parts.now) ≡ Some (plain_trees entries.now)) (λ error. error ≡ ElabError.Memory) }
{
    let (_, list, _) = three_parts(parts)?;
    match list {
        Tree::Leaf(_) => Err(ElabError::Memory),
        Tree::Node(_, entries) => Ok(entries),
    }
}

/// The parts of a node.
#[tactic(auto, using(c_tree::specs::TreeLaws::tree_kinds))]
pub fn node_parts(tree: &Tree) -> Result<&[Tree], ElabError>
    ensures { MatchResult result (λ parts. parts_in (plain_tree tree.now) ≡ Some (plain_trees parts.now)) (λ error. error ≡ ElabError.Memory) }
{
    match tree {
        Tree::Leaf(_) => Err(ElabError::Memory),
        Tree::Node(_, parts) => Ok(parts),
    }
}
