//! The tree that a configuration sees.
ghost use Rattle.std.specs.Prelude.{◌≡◌, IfOk};
ghost use Rattle.std.specs.Option.{option_map};
ghost use Rattle.cond_formula.specs.Features.{has};
ghost use Rattle.c_text.specs.Token.{plain_origin};
ghost use Rattle.c_tree.specs.Trees.{plain_tree, plain_trees};
ghost use Rattle.choice_trees.specs.ChoiceTrees as spec;

use crate::trees::{Choice, Forest, Item};
use c_text::{Origin, Place, Token, TokenKind};
use c_tree::{Kind, Tree};
use cond_formula::{Config, NoMemory};
use std::alloc::Global;
use text_edits::Span;

/// Whether the part of a node with this place, from 0, is a statement that the grammar doesn't leave out (ISO/IEC 9899:2011, 6.8.4, 6.8.5).
pub fn needs_statement(kind: Kind, place: usize) -> bool
    ensures { result ≡ spec.needs_statement kind place }
{
    match kind {
        Kind::If | Kind::While => place == 4,
        Kind::Else | Kind::Do => place == 1,
        Kind::For => place == 7,
        _ => false,
    }
}

/// Where tokens stand that come from no text: at the end of the built-in file.
pub fn nowhere() -> Origin
    ensures { plain_origin result ≡ spec.nowhere }
{
    let end = Span {
        start: 118,
        end: 118,
    };
    Origin {
        file: 4_294_967_295,
        span: end,
        place: Place::MacroBody,
        site: end,
        site_file: 4_294_967_295,
    }
}

/// The statement `;`, which comes from no text.
#[tactic(auto, using(crate::specs::ItemLaws::item_kinds))]
pub fn no_statement(alloc: Global) -> Result<Tree, NoMemory>
    ensures { IfOk result (λ t. plain_tree t ≡ spec.no_statement) }
{
    let semicolon = Token {
        kind: TokenKind::Punctuator,
        text: Vec::from_slice(alloc, b";")?,
        joined: false,
        origin: nowhere(),
    };
    let mut parts = Vec::with_capacity(alloc, 2)?;
    parts.push(Tree::Node(Kind::Absent, Vec::new(alloc)))?;
    parts.push(Tree::Leaf(semicolon))?;
    Ok(Tree::Node(Kind::ExpressionStatement, parts))
}

impl Item {
    /// The tree of an item in a configuration.
    #[cycle(project)]
    #[tactic(auto, using(crate::specs::ItemLaws::item_kinds))]
    fn tree_at(&self, alloc: Global, c: Config) -> Result<Tree, NoMemory>
        ensures { IfOk result (λ t. plain_tree t ≡ spec.item_at (has c) (spec.plain_item self.now)) }
    {
        match self {
            Item::Leaf(_, token) => Ok(Tree::Leaf(token.try_clone(alloc)?)),
            Item::Node(kind, parts) => Ok(Tree::Node(*kind, trees_at(*kind, parts, alloc, c)?)),
        }
    }
}

impl Choice<Item> {
    /// The alternative that holds, if there is one.
    #[cycle(project)]
    fn tree_at(&self, alloc: Global, c: Config) -> Result<Option<Tree>, NoMemory>
        ensures { IfOk result (λ t. option_map plain_tree t ≡ spec.branch_at (has c) (spec.plain_branches self.now.branches.items)) }
    {
        for (when, item) in &self.branches {
            if when.value(c) {
                let tree = item.tree_at(alloc, c)?;
                return Ok(Some(tree));
            }
        }
        Ok(None)
    }
}

/// The parts of a node of this kind.
#[cycle(project)]
fn trees_at(
    kind: Kind,
    parts: &[Choice<Item>],
    alloc: Global,
    c: Config,
) -> Result<Vec<Tree>, NoMemory>
    ensures { IfOk result (λ trees. plain_trees trees.items ≡ spec.parts_at (has c) kind 0 (spec.plain_choices parts.now)) }
{
    let mut trees = Vec::new(alloc);
    for (place, part) in parts.iter().enumerate() {
        match part.tree_at(alloc, c)? {
            Some(tree) => trees.push(tree)?,
            None => {
                if needs_statement(kind, place) {
                    trees.push(no_statement(alloc)?)?;
                }
            }
        }
    }
    Ok(trees)
}

/// The tree of a unit in a configuration. Of alternatives the one that holds is taken; where none holds, a part is left out, but
/// for a statement that the grammar wants, for which `;` stands.
pub fn project(alloc: Global, f: &Forest, c: Config) -> Result<Tree, NoMemory>
    ensures { IfOk result (λ t. plain_tree t ≡ spec.forest_at (has c) f.now) }
{
    Ok(Tree::Node(Kind::Unit, trees_at(Kind::Unit, &f.items, alloc, c)?))
}
