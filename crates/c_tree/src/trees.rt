//! Trees of tokens.

ghost use Rattle.std.specs.Prelude.{◌≡◌, map, IfOk, OnOk};
ghost use Rattle.c_text.specs.Token.{plain_token};
ghost use Rattle.c_tree.specs.Trees.{plain_tree, plain_trees, written, all_written, spelled, Adds};

use crate::kinds::Kind;
use c_text::Token;
use std::alloc::{AllocError, Global};

/// The tree of a unit, or a part of one: a token, or a node with its parts in the order of the text.
#[derive(Drop)]
pub enum Tree {
    Leaf(Token),
    Node(Kind, Vec<Tree>),
}

impl Tree {
    /// The same tree once more, with the same origins.
    #[cycle(copy)]
    #[tactic(auto, using(crate::specs::TreeLaws::tree_kinds))]
    pub fn try_clone(&self, alloc: Global) -> Result<Tree, AllocError>
        ensures { IfOk result (λ t. plain_tree t ≡ plain_tree self.now) }
    {
        match self {
            Tree::Leaf(token) => Ok(Tree::Leaf(token.try_clone(alloc)?)),
            Tree::Node(kind, parts) => Ok(Tree::Node(*kind, copied(parts, alloc)?)),
        }
    }

    #[cycle(spell)]
    #[tactic(auto, using(crate::specs::TreeLaws::tree_kinds))]
    fn spell_onto(&self, alloc: Global, tokens: &mut Vec<Token>) -> Result<(), AllocError>
        ensures { OnOk result (Adds (written (plain_tree self.now)) (map plain_token tokens.old.items) (map plain_token tokens.new.items)) }
    {
        match self {
            Tree::Leaf(token) => {
                tokens.push(token.try_clone(alloc)?)?;
            }
            Tree::Node(_, parts) => spell_all_onto(parts, alloc, tokens)?,
        }
        Ok(())
    }
}

#[cycle(copy)]
fn copied(parts: &[Tree], alloc: Global) -> Result<Vec<Tree>, AllocError>
    ensures { IfOk result (λ copies. map plain_tree copies.items ≡ map plain_tree parts.now) }
{
    let mut copies = Vec::with_capacity(alloc, parts.len())?;
    for part in parts {
        copies.push(part.try_clone(alloc)?)?;
    }
    Ok(copies)
}

#[cycle(spell)]
fn spell_all_onto(parts: &[Tree], alloc: Global, tokens: &mut Vec<Token>) -> Result<(), AllocError>
    ensures { OnOk result (Adds (all_written (plain_trees parts.now)) (map plain_token tokens.old.items) (map plain_token tokens.new.items)) }
{
    for part in parts {
        part.spell_onto(alloc, tokens)?;
    }
    Ok(())
}

/// The tokens of a tree in the order of the text.
pub fn spell(alloc: Global, t: &Tree) -> Result<Vec<Token>, AllocError>
    ensures { IfOk result (λ tokens. map plain_token tokens.items ≡ spelled (plain_tree t.now)) }
{
    let mut tokens = Vec::new(alloc);
    t.spell_onto(alloc, &mut tokens)?;
    Ok(tokens)
}
