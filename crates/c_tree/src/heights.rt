//! How high trees are.

ghost use Rattle.std.specs.Prelude.{◌≡◌, min, [], ◌∷◌};
ghost use Rattle.c_text.specs.Token.{plain_token};
ghost use Rattle.c_tree.specs.declared.terminals.Terminal.TheVariants.{Star};
ghost use Rattle.c_tree.specs.Trees.{leaf, plain_tree, plain_trees};
ghost use Rattle.c_tree.specs.Grammar.{is_word};
ghost use Rattle.c_tree.specs.Heights.{count_stars, several, height_over, height_of, highest_of};

use crate::kinds::Kind;
use crate::spellings::terminal;
use crate::terminals::Terminal;
use crate::trees::Tree;
use c_text::Token;

#[tactic(auto, using(crate::specs::TreeLaws::tree_kinds))]
fn is_star(part: &Tree) -> bool
    ensures { result ≡ is_word (Star ∷ []) (plain_tree part.now) }
{
    match part {
        Tree::Leaf(token) => terminal(token).is(Terminal::Star),
        Tree::Node(..) => false,
    }
}

fn star_count(parts: &[Tree]) -> u32
    ensures { result ≡ min (count_stars (plain_trees parts.now)) 4294967295 }
{
    let mut count = 0u32;
    for part in parts {
        if is_star(part) {
            count = count.saturating_add(1);
        }
    }
    count
}

// A type of several words is a node.
fn words_height(words: &[Tree]) -> u32
    ensures { result ≡ several (plain_trees words.now) }
{
    if words.len() < 2 { 0 } else { 1 }
}

/// How high a node is that has these parts, the highest of which is so high. Where that is more, 4,294,967,295.
pub fn node_height(kind: Kind, parts: &[Tree], highest: u32) -> u32
    ensures { result ≡ min (height_over kind (plain_trees parts.now) highest) 4294967295 }
{
    match kind {
        Kind::Specifiers => words_height(parts).saturating_add(highest),
        Kind::Declarator => star_count(parts).saturating_add(highest),
        Kind::ArrayDeclarator | Kind::FunctionDeclarator => {
            star_count(parts).saturating_add(1).saturating_add(highest)
        }
        Kind::Absent
        | Kind::Members
        | Kind::Declarators
        | Kind::Parameters
        | Kind::Initialisers
        | Kind::Items
        | Kind::Else
        | Kind::ForStart
        | Kind::Arguments
        | Kind::Texts => highest,
        _ => highest.saturating_add(1),
    }
}

/// How high a token is: names, numbers, characters and texts are nodes, other tokens are none.
pub fn token_height(token: &Token) -> u32
    ensures { result ≡ height_of (leaf (plain_token token.now)) }
{
    match terminal(token) {
        Terminal::Name | Terminal::Number | Terminal::Character | Terminal::Text => 1,
        _ => 0,
    }
}

/// How high a tree is, or 4,294,967,295 where that is more.
#[cycle(height)]
#[tactic(auto, using(crate::specs::TreeLaws::tree_kinds))]
pub fn height(t: &Tree) -> u32
    ensures { result ≡ min (height_of (plain_tree t.now)) 4294967295 }
{
    match t {
        Tree::Leaf(token) => token_height(token),
        Tree::Node(kind, parts) => node_height(*kind, parts, highest(parts)),
    }
}

#[cycle(height)]
fn highest(parts: &[Tree]) -> u32
    ensures { result ≡ min (highest_of (plain_trees parts.now)) 4294967295 }
{
    let mut highest = 0u32;
    for part in parts {
        highest = highest.max(height(part));
    }
    highest
}
