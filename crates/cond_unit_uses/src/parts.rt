//! What stands at a place among the parts of a definition where one alternative is taken.
ghost use Rattle.std.specs.Prelude.{◌≡◌, ℕ, Bool, Some, MatchOption, option_map};
ghost use Rattle.c_tree.specs.declared.terminals.Terminal.TheVariants as t;
ghost use Rattle.c_tree.specs.Trees.{none};
ghost use Rattle.choice_trees.specs.ChoiceTrees.{plain_item, item_at};
ghost use Rattle.choice_variants.specs.Variants.{part_at, before};
ghost use Rattle.core_meaning.specs.Declarations as meaning;
ghost use Rattle.cond_types.specs.Places.{tree_at, IsEmpty};

use c_tree::{Terminal, terminal};
use choice_trees::Item;
use choice_variants::Part;

/// The item that is a part.
fn item_of<'a>(part: &Part<'a>) -> Option<&'a Item>
    ensures { (on : ℕ → Bool) → MatchOption result (IsEmpty (Some (part_at on part.now))) (λ item. part_at on part.now ≡ item_at on (plain_item item.now)) }
{
    match *part {
        Part::Item(item) => Some(item),
        Part::NoStatement => None,
    }
}

/// The item with this place among the parts, from 0 on.
pub(crate) fn item_in<'a>(parts: &[Part<'a>], place: usize) -> Option<&'a Item>
    ensures { (on : ℕ → Bool) → MatchOption result (IsEmpty (tree_at place (before on parts.now none))) (λ item. tree_at place (before on parts.now none) ≡ Some (item_at on (plain_item item.now))) }
{
    if place >= parts.len() {
        return None;
    }
    let part = &parts[place];
    item_of(part)
}

/// What stands behind the parenthesis in the declarator of a function.
#[tactic(auto, using(choice_trees::specs::ItemLaws::item_kinds))]
fn behind_parenthesis<'a>(parts: &[Part<'a>]) -> Option<Part<'a>>
    ensures { (on : ℕ → Bool) → option_map (part_at on) result ≡ meaning.behind_word t.OpenParenthesis (before on parts.now none) }
{
    let (first, rest) = parts.split_first()?;
    let Part::Item(item) = *first else {
        return None;
    };
    let Item::Leaf(_, token) = item else {
        return None;
    };
    let (next, _) = rest.split_first()?;
    if Terminal::OpenParenthesis.is(terminal(token)) {
        Some(*next)
    } else {
        behind_parenthesis(rest)
    }
}

/// The parameters of a function's declarator with these parts, or what stands for them where there are none.
pub(crate) fn list_in<'a>(parts: &[Part<'a>]) -> Option<&'a Item>
    ensures { (on : ℕ → Bool) → MatchOption result (IsEmpty (meaning.behind_word t.OpenParenthesis (before on parts.now none))) (λ item. meaning.behind_word t.OpenParenthesis (before on parts.now none) ≡ Some (item_at on (plain_item item.now))) }
{
    let Some(part) = behind_parenthesis(parts) else {
        return None;
    };
    item_of(&part)
}
