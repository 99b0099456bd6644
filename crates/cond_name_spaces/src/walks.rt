//! The names of a unit that stand in name spaces, in the order of the text.
ghost use Rattle.std.specs.Prelude.{◌≡◌, ℕ, Bool, false, List, [], ◌∷◌, ◌||◌, ◌&&◌, IsTrue, IfOk, OnOk};
ghost use Rattle.cond_formula.specs.Features.{has};
ghost use Rattle.cond_formula.specs.Conditions.{condition_of, value};
ghost use Rattle.choice_trees.specs.ChoiceTrees.{plain_item, plain_branches, plain_choices, item_at, branch_at, parts_at};
ghost use Rattle.choice_trees.specs.Leaves.{item_leaves, branch_leaves, parts_leaves};
ghost use Rattle.conditional.specs.Entries.{seen, listed};
ghost use Rattle.name_spaces.specs.Spaces.{spaces_in_parts, spaces_in_node};
ghost use Rattle.cond_name_spaces.specs.Spaced.{plain_name};
ghost use Rattle.cond_name_spaces.specs.Progress.{plain_tag, Logs, turns_at, turns_if_any, spaces_of_part, spaces_if_any, followed_by};

use crate::entries::{SpacedName, Tag};
use crate::names::{Around, push_token};
use crate::roles::{declaration_in, defines_struct, is_name, turns};
use crate::tags::tags_of;
use c_tree::Kind;
use choice_trees::{Choice, Item};
use cond_formula::{Formula, NoMemory, Oracle};
use conditional::CondList;
use conditional_steps::both_of;
use reduced_conditions::{either, without};
use std::alloc::Global;

/// Whether the names behind an item in a node of a kind are other things than those before it.
#[tactic(auto, using(choice_trees::specs::ItemLaws::item_kinds))]
fn item_turns(kind: Kind, item: &Item) -> bool
    ensures { (on : ℕ → Bool) → result ≡ turns_at kind (item_at on (plain_item item.now)) }
{
    match item {
        Item::Leaf(_, token) => !is_name(token) && turns(kind, token),
        Item::Node(..) => false,
    }
}

/// Where names are other things, with one item more that is there where the second condition is true.
fn turned_by(
    alloc: Global,
    turned: Formula,
    here: Formula,
    kind: Kind,
    item: &Item,
) -> Result<Formula, NoMemory>
    ensures { IfOk result (λ z. (on : ℕ → Bool) → value on (condition_of z)
        ≡ (value on (condition_of turned) || (value on (condition_of here) && turns_at kind (item_at on (plain_item item.now))))) }
{
    if !item_turns(kind, item) {
        return Ok(turned);
    }
    let both = either(alloc, turned, here)?;
    Ok(both)
}

/// Those of a part of a node.
#[cycle(walk)]
#[tactic(auto, using(choice_trees::specs::ItemLaws::item_kinds))]
fn push_part<O: Oracle>(
    alloc: Global,
    oracle: &mut O,
    when: &Formula,
    around: Around,
    tags: &CondList<Tag>,
    turned: &Formula,
    item: &Item,
    log: &mut CondList<SpacedName>,
) -> Result<(), NoMemory>
    ensures kept { O.admits oracle.new ≡ O.admits oracle.old }
    ensures logs { OnOk result ((c : List Bool) (tag : List ℕ) → IsTrue (value (has c) (O.admits oracle.old)) → seen (has c) (listed plain_tag tags.now) ≡ tag ∷ []
        → Logs (value (has c) (condition_of when.now)) (item_leaves (has c) (plain_item item.now))
        (spaces_of_part around.declaration tag around.kind (value (has c) (condition_of turned.now)) (item_at (has c) (plain_item item.now)))
        (seen (has c) (listed plain_name log.old)) (seen (has c) (listed plain_name log.new))) }
{
    match item {
        Item::Leaf(number, token) => {
            push_token(alloc, when, around, tags, turned, *number, token, log)?;
        }
        Item::Node(kind, parts) => {
            push_node(
                alloc,
                oracle,
                when,
                around.declaration,
                tags,
                *kind,
                parts,
                log,
            )?;
        }
    }
    Ok(())
}

/// Those of the alternatives for a part, and where names are other things behind it.
#[cycle(walk)]
fn push_choice<O: Oracle>(
    alloc: Global,
    oracle: &mut O,
    when: &Formula,
    around: Around,
    tags: &CondList<Tag>,
    turned: &Formula,
    choice: &Choice<Item>,
    log: &mut CondList<SpacedName>,
) -> Result<Formula, NoMemory>
    ensures kept { O.admits oracle.new ≡ O.admits oracle.old }
    ensures turned { IfOk result (λ z. (on : ℕ → Bool) → value on (condition_of z)
        ≡ (value on (condition_of turned.now) || turns_if_any around.kind (branch_at on (plain_branches choice.now.branches.items)))) }
    ensures logs { OnOk result ((c : List Bool) (tag : List ℕ) (needed : Bool) → IsTrue (value (has c) (O.admits oracle.old)) → seen (has c) (listed plain_tag tags.now) ≡ tag ∷ []
        → Logs (value (has c) (condition_of when.now)) (branch_leaves (has c) needed (plain_branches choice.now.branches.items))
        (spaces_if_any around.declaration tag around.kind (value (has c) (condition_of turned.now)) (branch_at (has c) (plain_branches choice.now.branches.items)))
        (seen (has c) (listed plain_name log.old)) (seen (has c) (listed plain_name log.new))) }
{
    let mut left = Formula::True;
    let mut behind = turned.try_clone(alloc)?;
    for (alternative, item) in &choice.branches {
        let here = both_of(alloc, &left, alternative)?;
        let path = both_of(alloc, when, &here)?;
        push_part(alloc, oracle, &path, around, tags, turned, item, log)?;
        behind = turned_by(alloc, behind, here, around.kind, item)?;
        left = without(alloc, left, alternative)?;
    }
    Ok(behind)
}

/// Those of the parts of a node.
#[cycle(walk)]
fn push_parts<O: Oracle>(
    alloc: Global,
    oracle: &mut O,
    when: &Formula,
    around: Around,
    tags: &CondList<Tag>,
    parts: &[Choice<Item>],
    log: &mut CondList<SpacedName>,
) -> Result<(), NoMemory>
    ensures kept { O.admits oracle.new ≡ O.admits oracle.old }
    ensures logs { OnOk result ((c : List Bool) (tag : List ℕ) → IsTrue (value (has c) (O.admits oracle.old)) → seen (has c) (listed plain_tag tags.now) ≡ tag ∷ []
        → Logs (value (has c) (condition_of when.now)) (parts_leaves (has c) around.kind 0 (plain_choices parts.now))
        (followed_by (spaces_in_parts around.declaration tag around.kind false (parts_at (has c) around.kind 0 (plain_choices parts.now))))
        (seen (has c) (listed plain_name log.old)) (seen (has c) (listed plain_name log.new))) }
{
    let mut turned = Formula::False;
    for part in parts {
        turned = push_choice(alloc, oracle, when, around, tags, &turned, part, log)?;
    }
    Ok(())
}

/// Those of a node in a declaration, where a struct that is defined around it has this tag.
#[cycle(walk)]
pub(crate) fn push_node<O: Oracle>(
    alloc: Global,
    oracle: &mut O,
    when: &Formula,
    declaration: Kind,
    tags: &CondList<Tag>,
    kind: Kind,
    parts: &[Choice<Item>],
    log: &mut CondList<SpacedName>,
) -> Result<(), NoMemory>
    ensures kept { O.admits oracle.new ≡ O.admits oracle.old }
    ensures logs { OnOk result ((c : List Bool) (tag : List ℕ) → IsTrue (value (has c) (O.admits oracle.old)) → seen (has c) (listed plain_tag tags.now) ≡ tag ∷ []
        → Logs (value (has c) (condition_of when.now)) (parts_leaves (has c) kind 0 (plain_choices parts.now))
        (followed_by (spaces_in_node declaration tag kind (parts_at (has c) kind 0 (plain_choices parts.now))))
        (seen (has c) (listed plain_name log.old)) (seen (has c) (listed plain_name log.new))) }
{
    let around = Around {
        declaration: declaration_in(declaration, kind),
        kind,
    };
    if defines_struct(kind) {
        let own = tags_of(alloc, oracle, parts)?;
        push_parts(alloc, oracle, when, around, &own, parts, log)?;
    } else {
        push_parts(alloc, oracle, when, around, tags, parts, log)?;
    }
    Ok(())
}
