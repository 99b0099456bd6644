//! What stands where among the words of a declarator (6.7.6).
ghost use Rattle.std.specs.Prelude.{◌≡◌, ◌+◌, ◌/◌, ◌%◌, length, option_map};
ghost use Rattle.c_text.specs.Token.{plain_token};
ghost use Rattle.c_tree.specs.Heights as heights;
ghost use Rattle.c_tree.specs.Trees.{plain_tree, plain_trees};
ghost use Rattle.c_tree.specs.Grammar as grammar;
ghost use Rattle.core_meaning.specs.Declarations as spec;
ghost use Rattle.core_meaning.specs.Expressions as expressions;
ghost use Rattle.plain_declarators.specs.Words.{is_absence, is_gone, is_nothing};

use c_text::Token;
use c_tree::{Kind, Terminal, Tree, terminal};
use plain_scope::is_word;

/// The first name among words; what stands in `[ ]` is none of them.
#[tactic(auto, using(c_tree::specs::TreeLaws::tree_kinds))]
pub fn name_in(parts: &[Tree]) -> Option<&Token>
    ensures { option_map (λ t. plain_token t.now) result ≡ spec.name_in (plain_trees parts.now) }
{
    let (first, rest) = parts.split_first()?;
    match first {
        Tree::Leaf(token) => {
            if Terminal::Name.is(terminal(token)) {
                Some(token)
            } else if Terminal::OpenBracket.is(terminal(token)) {
                None
            } else {
                name_in(rest)
            }
        }
        Tree::Node(..) => None,
    }
}

/// What stands behind the first word of a terminal.
#[tactic(auto, using(c_tree::specs::TreeLaws::tree_kinds))]
pub fn behind_word(parts: &[Tree], wanted: Terminal) -> Option<&Tree>
    ensures { option_map (λ tree. plain_tree tree.now) result ≡ spec.behind_word wanted (plain_trees parts.now) }
{
    let (first, rest) = parts.split_first()?;
    let Tree::Leaf(token) = first else {
        return None;
    };
    let (next, _) = rest.split_first()?;
    if wanted.is(terminal(token)) {
        Some(next)
    } else {
        behind_word(rest, wanted)
    }
}

/// How many stars are among the parts.
pub fn count_of_stars(parts: &[Tree]) -> usize
    ensures { result ≡ heights.count_stars (plain_trees parts.now) }
{
    let mut count = 0;
    for part in parts {
        if is_word(part, Terminal::Star) {
            count += 1;
        }
    }
    count
}

/// Whether there is no part.
pub fn is_nothing(parts: &[Tree]) -> bool
    ensures { result ≡ is_nothing (plain_trees parts.now) }
{
    match parts.split_first() {
        Some(_) => false,
        None => true,
    }
}

/// Whether a kind is that of a part that is left out.
#[tactic(auto, using(crate::specs::Words::is_there))]
pub fn is_absence(kind: Kind) -> bool
    ensures { result ≡ is_absence kind }
{
    match kind {
        Kind::Absent => true,
        _ => false,
    }
}

/// Whether a part that may be left out is.
#[tactic(auto, using(c_tree::specs::TreeLaws::tree_kinds, crate::specs::Words::absent_by_kind))]
pub fn is_left_out(tree: &Tree) -> bool
    ensures { result ≡ grammar.is_absent (plain_tree tree.now) }
{
    match tree {
        Tree::Leaf(_) => false,
        Tree::Node(kind, parts) => is_absence(*kind) && is_nothing(parts),
    }
}

/// Whether a node stands for a part that is left out.
#[tactic(auto, using(c_tree::specs::TreeLaws::tree_kinds))]
pub fn is_gone(tree: &Tree) -> bool
    ensures { result ≡ is_gone (plain_tree tree.now) }
{
    match tree {
        Tree::Leaf(_) => false,
        Tree::Node(kind, _) => is_absence(*kind),
    }
}

/// How many entries a list with commas has.
#[tactic(auto, using(crate::specs::Words::entries_by_length))]
pub fn entry_count(parts: &[Tree]) -> usize
    ensures exact { result ≡ expressions.count_entries (plain_trees parts.now) }
    ensures half { result ≡ length parts.now / 2 + length parts.now % 2 }
{
    parts.len() / 2 + parts.len() % 2
}
