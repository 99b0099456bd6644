//! What nodes are to an initialiser.
ghost use Rattle.std.specs.Prelude.{◌≡◌, ℕ, Bool};
ghost use Rattle.choice_trees.specs.ChoiceTrees.{plain_item, item_at};
ghost use Rattle.c_text.specs.Token.{plain_token};
ghost use Rattle.expression_types.specs.Reading.{is_operand};
ghost use Rattle.cond_initialisers.specs.Refusals as refusals;
ghost use Rattle.cond_initialisers.specs.Shapes as spec;

use c_text::Token;
use c_tree::{Kind, Terminal, terminal};
use choice_trees::Item;

/// What a node is to an initialiser.
#[derive(Clone, Copy, Debug)]
pub enum Shape {
    /// A list with the braces around it.
    Braces,
    /// The list alone.
    List,
    Texts,
    Expression,
}

pub(crate) fn shape_of(kind: Kind) -> Shape
    ensures { result ≡ spec.shape_of kind }
{
    match kind {
        Kind::Braces => Shape::Braces,
        Kind::Initialisers => Shape::List,
        Kind::Texts => Shape::Texts,
        _ => Shape::Expression,
    }
}

fn is_operand(token: &Token) -> bool
    ensures { result ≡ is_operand (plain_token token.now) }
{
    let terminal = terminal(token);
    Terminal::Name.is(terminal) || Terminal::Number.is(terminal) || Terminal::Character.is(terminal)
}

/// Whether a part of a list is an entry, and no comma or brace.
#[tactic(auto, using(choice_trees::specs::ItemLaws::item_kinds))]
pub(crate) fn is_entry(item: &Item) -> bool
    ensures { (on : ℕ → Bool) → result ≡ refusals.is_entry (item_at on (plain_item item.now)) }
{
    match item {
        Item::Leaf(_, token) => is_operand(token),
        Item::Node(..) => true,
    }
}
