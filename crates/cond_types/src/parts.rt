//! What stands at a place among the parts of a node where one alternative is taken.
ghost use Rattle.std.specs.Prelude.{◌≡◌, ℕ, Bool, Some, MatchOption};
ghost use Rattle.c_tree.specs.declared.kinds.Kind.TheVariants as k;
ghost use Rattle.c_tree.specs.Trees.{none, node};
ghost use Rattle.choice_trees.specs.ChoiceTrees.{plain_item, plain_choices, item_at, parts_at};
ghost use Rattle.choice_variants.specs.Variants.{part_at, before};
ghost use Rattle.cond_types.specs.Places as spec;
ghost use Rattle.cond_types.specs.Places.{tree_at, IsEmpty, IsNone};

use c_tree::Kind;
use choice_trees::{Choice, Item};
use choice_variants::Part;

/// The item that is a part.
fn item_of<'a>(part: &Part<'a>) -> Option<&'a Item>
    ensures { (on : ℕ → Bool) → MatchOption result (IsEmpty (Some (part_at on part.now))) (λ item. part_at on part.now ≡ item_at on (plain_item item.now)) }
{
    match *part {
        Part::Item(item) => Some(item),
        Part::NoStatement => None,
    }
}

/// The item with this place among the parts, from 0 on.
pub(crate) fn item_in<'a>(parts: &[Part<'a>], place: usize) -> Option<&'a Item>
    ensures { (on : ℕ → Bool) → MatchOption result (IsEmpty (tree_at place (before on parts.now none))) (λ item. tree_at place (before on parts.now none) ≡ Some (item_at on (plain_item item.now))) }
{
    if place >= parts.len() {
        return None;
    }
    let part = &parts[place];
    item_of(part)
}

/// Whether a node is a list of members.
fn is_members(kind: Kind) -> bool
    ensures { result ≡ spec.is_members kind }
{
    matches!(kind, Kind::Members)
}

/// Whether a node is a list of declarators.
fn is_declarators(kind: Kind) -> bool
    ensures { result ≡ spec.is_declarators kind }
{
    matches!(kind, Kind::Declarators)
}

/// The members of an item that is a list of them.
#[tactic(auto, using(choice_trees::specs::ItemLaws::item_kinds))]
fn members_of<'a>(item: &'a Item) -> Option<&'a [Choice<Item>]>
    ensures { (on : ℕ → Bool) → MatchOption result (IsNone k.Members (Some (item_at on (plain_item item.now)))) (λ parts. item_at on (plain_item item.now) ≡ node k.Members (parts_at on k.Members 0 (plain_choices parts.now))) }
{
    match item {
        Item::Leaf(..) => None,
        Item::Node(kind, parts) => { if is_members(*kind) { Some(parts) } else { None } }
    }
}

/// The declarators of an item that is a list of them.
#[tactic(auto, using(choice_trees::specs::ItemLaws::item_kinds))]
fn declarators_of<'a>(item: &'a Item) -> Option<&'a [Choice<Item>]>
    ensures { (on : ℕ → Bool) → MatchOption result (IsNone k.Declarators (Some (item_at on (plain_item item.now)))) (λ parts. item_at on (plain_item item.now) ≡ node k.Declarators (parts_at on k.Declarators 0 (plain_choices parts.now))) }
{
    match item {
        Item::Leaf(..) => None,
        Item::Node(kind, parts) => {
            if is_declarators(*kind) {
                Some(parts)
            } else {
                None
            }
        }
    }
}

/// The members in the list with this place among the parts, if such a list stands there.
pub(crate) fn members_in<'a>(parts: &[Part<'a>], place: usize) -> Option<&'a [Choice<Item>]>
    ensures { (on : ℕ → Bool) → MatchOption result (IsNone k.Members (tree_at place (before on parts.now none)))
        (λ list. tree_at place (before on parts.now none) ≡ Some (node k.Members (parts_at on k.Members 0 (plain_choices list.now)))) }
{
    let Some(item) = item_in(parts, place) else {
        return None;
    };
    members_of(item)
}

/// The declarators in the list with this place among the parts, if such a list stands there.
pub(crate) fn declarators_in<'a>(parts: &[Part<'a>], place: usize) -> Option<&'a [Choice<Item>]>
    ensures { (on : ℕ → Bool) → MatchOption result (IsNone k.Declarators (tree_at place (before on parts.now none)))
        (λ list. tree_at place (before on parts.now none) ≡ Some (node k.Declarators (parts_at on k.Declarators 0 (plain_choices list.now)))) }
{
    let Some(item) = item_in(parts, place) else {
        return None;
    };
    declarators_of(item)
}
