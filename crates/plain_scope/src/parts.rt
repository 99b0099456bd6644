//! What trees are made of.
ghost use Rattle.std.specs.Prelude.{◌≡◌, option_map, Some, None, MatchResult};
ghost use Rattle.c_text.specs.Token.{PlainToken, plain_token};
ghost use Rattle.c_tree.specs.Trees as trees;
ghost use Rattle.c_tree.specs.Trees.{plain_tree, plain_trees};
ghost use Rattle.c_types.specs.Types.{plain_type};
ghost use Rattle.core_meaning.specs.Expressions as expressions;
ghost use Rattle.plain_scope.specs.Parts.{is_word, leaf_of, parts_in, token_or};

use crate::errors::ElabError;
use c_text::Token;
use c_tree::{Kind, Terminal, Tree, terminal};
use c_types::CType;

#[cycle(first)]
#[tactic(auto, using(c_tree::specs::TreeLaws::tree_kinds))]
fn first_of(tree: &Tree) -> Option<&Token>
    ensures { (behind : PlainToken) → token_or behind (option_map (λ t. plain_token t.now) result) ≡ expressions.first_token (plain_tree tree.now) behind }
{
    match tree {
        Tree::Leaf(token) => Some(token),
        Tree::Node(_, parts) => first_in(parts),
    }
}

#[cycle(first)]
fn first_in(parts: &[Tree]) -> Option<&Token>
    ensures { (behind : PlainToken) → token_or behind (option_map (λ t. plain_token t.now) result) ≡ expressions.first_token_in (plain_trees parts.now) behind }
{
    for part in parts {
        if let Some(token) = first_of(part) {
            return Some(token);
        }
    }
    None
}

/// The first token of a tree, or the one behind it if it has none.
pub fn first_token<'a>(tree: &'a Tree, behind: &'a Token) -> &'a Token
    ensures { plain_token result.now ≡ expressions.first_token (plain_tree tree.now) (plain_token behind.now) }
{
    match first_of(tree) {
        Some(token) => token,
        None => behind,
    }
}

/// The token of a leaf.
#[tactic(auto, using(c_tree::specs::TreeLaws::tree_kinds))]
pub fn token_of(tree: &Tree) -> Option<&Token>
    ensures { option_map (λ t. plain_token t.now) result ≡ leaf_of (plain_tree tree.now) }
{
    match tree {
        Tree::Leaf(token) => Some(token),
        Tree::Node(..) => None,
    }
}

/// The parts of a node.
#[tactic(auto, using(c_tree::specs::TreeLaws::tree_kinds))]
pub fn parts_of(tree: &Tree) -> Option<&[Tree]>
    ensures { option_map (λ parts. plain_trees parts.now) result ≡ parts_in (plain_tree tree.now) }
{
    match tree {
        Tree::Leaf(_) => None,
        Tree::Node(_, parts) => Some(parts),
    }
}

#[tactic(auto, using(c_tree::specs::TreeLaws::tree_kinds))]
pub fn is_word(tree: &Tree, wanted: Terminal) -> bool
    ensures { result ≡ is_word wanted (plain_tree tree.now) }
{
    match tree {
        Tree::Leaf(token) => wanted.is(terminal(token)),
        Tree::Node(..) => false,
    }
}

/// Whether one of the parts is a word of this terminal.
pub fn has_terminal(parts: &[Tree], wanted: Terminal) -> bool
    ensures { result ≡ expressions.has_terminal wanted (plain_trees parts.now) }
{
    for part in parts {
        if is_word(part, wanted) {
            return true;
        }
    }
    false
}

/// The token of a leaf; a tree of the grammar has one where this is asked.
#[tactic(auto, using(c_tree::specs::TreeLaws::tree_kinds))]
pub fn leaf(tree: &Tree) -> Result<&Token, ElabError>
    ensures { MatchResult result (λ token. plain_tree tree.now ≡ trees.leaf (plain_token token.now)) (λ error. error ≡ ElabError.Memory) }
{
    match tree {
        Tree::Leaf(token) => Ok(token),
        Tree::Node(..) => Err(ElabError::Memory),
    }
}

/// The type that words without a tag name (6.7.2).
#[tactic(auto, using(c_types::specs::TypeLaws::type_kinds))]
pub fn arithmetic_words(words: &[Tree]) -> CType
    ensures { plain_type result ≡ expressions.arithmetic_words (plain_trees words.now) }
{
    let unsigned = has_terminal(words, Terminal::Unsigned);
    if has_terminal(words, Terminal::Void) {
        CType::Void
    } else if has_terminal(words, Terminal::Char) {
        if unsigned { CType::UChar } else { CType::Char }
    } else if has_terminal(words, Terminal::Long) {
        if unsigned { CType::ULong } else { CType::Long }
    } else if unsigned {
        CType::UInt
    } else {
        CType::Int
    }
}
