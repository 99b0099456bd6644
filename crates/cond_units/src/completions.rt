//! Where an item of a unit completes a struct (6.7.2.1).
ghost use Rattle.std.specs.Prelude.{◌≡◌, ℕ, Bool, false, if◌then◌else◌, IfOk};
ghost use Rattle.cond_formula.specs.Conditions.{condition_of, value};
ghost use Rattle.c_tree.specs.Trees.{PlainTrees, node};
ghost use Rattle.c_tree.specs.declared.kinds.Kind.{Kind};
ghost use Rattle.c_tree.specs.declared.kinds.Kind.TheVariants as k;
ghost use Rattle.choice_trees.specs.ChoiceTrees.{plain_item, plain_branches, plain_choices, with_part, item_at, branch_at, parts_at};
ghost use Rattle.core_meaning.specs.UnitNames as meaning;
ghost use Rattle.cond_units.specs.Tags as spec;

use crate::tags::{Search, begun, where_found, where_part_has_tag};
use c_tree::Kind;
use choice_trees::{Choice, Item};
use cond_formula::{Formula, NoMemory};
use conditional_steps::{both_of, never};
use reduced_conditions::{both, either, without};
use std::alloc::Global;

/// The search behind an alternative for the first part.
fn after_first(
    alloc: Global,
    search: Search,
    when: &Formula,
    part: &Item,
    tag: &[u8],
) -> Result<Search, NoMemory>
    ensures { IfOk result (λ s. (on : ℕ → Bool) (behind : Bool) → spec.ends on s behind
        ≡ spec.ends on search (if value on (condition_of when.now) then spec.part_has_tag tag.now (item_at on (plain_item part.now)) else behind)) }
{
    let Search { found, left } = search;
    let tagged = where_part_has_tag(alloc, part, tag)?;
    let possible = both_of(alloc, &left, when)?;
    let here = both(alloc, possible, tagged)?;
    let found = either(alloc, found, here)?;
    let left = without(alloc, left, when)?;
    Ok(Search { found, left })
}

/// The search behind the alternatives for a part, of which the first that is there counts.
fn after_part(
    alloc: Global,
    search: Search,
    choice: &Choice<Item>,
    tag: &[u8],
) -> Result<Search, NoMemory>
    ensures { IfOk result (λ s. (on : ℕ → Bool) (rest : PlainTrees) → spec.ends on s (spec.first_has_tag tag.now rest)
        ≡ spec.ends on search (spec.first_has_tag tag.now (with_part false (branch_at on (plain_branches choice.now.branches.items)) rest))) }
{
    let mut searched = search;
    for (when, item) in &choice.branches {
        searched = after_first(alloc, searched, when, item, tag)?;
    }
    Ok(searched)
}

/// Where the first part of the definition of a struct has the tag.
fn where_first_has_tag(
    alloc: Global,
    parts: &[Choice<Item>],
    tag: &[u8],
) -> Result<Formula, NoMemory>
    ensures { IfOk result (λ f. (on : ℕ → Bool) → value on (condition_of f) ≡ spec.first_has_tag tag.now (parts_at on k.StructDefinition 0 (plain_choices parts.now))) }
{
    let mut search = begun();
    for choice in parts {
        search = after_part(alloc, search, choice, tag)?;
    }
    Ok(where_found(search))
}

/// Whether a node is the definition of a struct.
fn is_struct_definition(kind: Kind) -> bool
    ensures { result ≡ spec.is_struct_definition kind }
{
    matches!(kind, Kind::StructDefinition)
}

/// Where a node completes the struct of this tag.
fn where_node_completes(
    alloc: Global,
    kind: Kind,
    parts: &[Choice<Item>],
    tag: &[u8],
) -> Result<Formula, NoMemory>
    ensures { IfOk result (λ f. (on : ℕ → Bool) → value on (condition_of f) ≡ meaning.completes tag.now (node kind (parts_at on kind 0 (plain_choices parts.now)))) }
{
    if !is_struct_definition(kind) {
        return never();
    }
    let tagged = where_first_has_tag(alloc, parts, tag)?;
    Ok(tagged)
}

/// Where an item completes the struct of this tag.
#[tactic(auto, using(choice_trees::specs::ItemLaws::item_kinds))]
pub(crate) fn where_completes(alloc: Global, item: &Item, tag: &[u8]) -> Result<Formula, NoMemory>
    ensures { IfOk result (λ f. (on : ℕ → Bool) → value on (condition_of f) ≡ meaning.completes tag.now (item_at on (plain_item item.now))) }
{
    match item {
        Item::Leaf(..) => never(),
        Item::Node(kind, parts) => where_node_completes(alloc, *kind, parts, tag),
    }
}
