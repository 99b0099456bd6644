//! The declarations of a struct's members, each where it is there.
ghost use Rattle.std.specs.Prelude.{◌≡◌, ℕ, Bool, false, List, [], ◌∷◌, ◌++◌, ◌&&◌, IsTrue, IfOk, OnOk};
ghost use Rattle.cond_formula.specs.Features.{has};
ghost use Rattle.cond_formula.specs.Conditions.{condition_of, value};
ghost use Rattle.conditional.specs.Entries.{seen, under};
ghost use Rattle.c_tree.specs.declared.kinds.Kind.{Kind};
ghost use Rattle.c_tree.specs.Trees.{none};
ghost use Rattle.choice_trees.specs.ChoiceTrees.{plain_item, plain_choices, needs_statement, item_at, parts_at};
ghost use Rattle.choice_variants.specs.Variants.{part_at, before, shown};
ghost use Rattle.declarator_lists.specs.Lists.{trees_of};
ghost use Rattle.cond_structs.specs.Walks.{declaration_in, parts_in, declarations_in};
ghost use Rattle.cond_structs.specs.Listing.{all_in, declarations_at};

use choice_trees::{Choice, Item};
use choice_variants::{Part, Variant, variants};
use cond_formula::{Formula, NoMemory, Oracle};
use declarator_lists::entries;
use reduced_conditions::both_of;
use std::alloc::{AllocError, Global};

/// The words and the declarators of a declaration where a condition is true.
#[derive(Drop)]
pub(crate) struct MemberDeclaration<'a> {
    pub(crate) when: Formula,
    pub(crate) words: &'a Item,
    pub(crate) list: &'a Item,
}

/// The declaration with these parts. None of them is a statement that has to be there, since only statements have such parts.
fn push_parts<'a>(
    all: &mut Vec<MemberDeclaration<'a>>,
    when: Formula,
    words: Part<'a>,
    list: Part<'a>,
) -> Result<(), NoMemory>
    ensures { OnOk result ((on : ℕ → Bool) → seen on (declarations_at on all.new.items) ≡ seen on (declarations_at on all.old.items) ++ under (value on (condition_of when)) (record { words = part_at on words.entry; list = part_at on list.entry } ∷ [])) }
{
    match (words, list) {
        (Part::Item(words), Part::Item(list)) => {
            all.push(MemberDeclaration { when, words, list })?;
            Ok(())
        }
        _ => Err(AllocError),
    }
}

/// The declaration with the parts of a variant, where the condition is true too.
fn push_variant<'a>(
    all: &mut Vec<MemberDeclaration<'a>>,
    alloc: Global,
    here: &Formula,
    variant: &Variant<'a>,
) -> Result<(), NoMemory>
    ensures { OnOk result ((on : ℕ → Bool) → seen on (declarations_at on all.new.items) ≡ seen on (declarations_at on all.old.items) ++ under (value on (condition_of here.now) && value on (condition_of variant.now.when)) (declaration_in (before on variant.now.parts.items none))) }
{
    if variant.parts.len() != 3 {
        return Ok(());
    }
    let when = both_of(alloc, here, &variant.when)?;
    push_parts(all, when, variant.parts[0], variant.parts[1])?;
    Ok(())
}

/// The declarations with the parts of variants, where the condition is true.
fn push_variants<'a>(
    all: &mut Vec<MemberDeclaration<'a>>,
    alloc: Global,
    here: &Formula,
    variants: &[Variant<'a>],
) -> Result<(), NoMemory>
    ensures { OnOk result ((on : ℕ → Bool) → seen on (declarations_at on all.new.items) ≡ seen on (declarations_at on all.old.items) ++ under (value on (condition_of here.now)) (all_in (seen on (shown on variants.now)))) }
{
    for variant in variants {
        push_variant(all, alloc, here, variant)?;
    }
    Ok(())
}

/// The declaration that is a node, where the condition is true.
#[tactic(auto, using(choice_trees::specs::ItemLaws::item_kinds))]
fn push_item<'a, O: Oracle>(
    all: &mut Vec<MemberDeclaration<'a>>,
    alloc: Global,
    oracle: &mut O,
    here: &Formula,
    item: &'a Item,
) -> Result<(), NoMemory>
    ensures kept { O.admits oracle.new ≡ O.admits oracle.old }
    ensures adds { OnOk result ((c : List Bool) → IsTrue (value (has c) (O.admits oracle.old))
        → seen (has c) (declarations_at (has c) all.new.items) ≡ seen (has c) (declarations_at (has c) all.old.items) ++ under (value (has c) (condition_of here.now)) (parts_in (item_at (has c) (plain_item item.now)))) }
{
    match item {
        Item::Leaf(..) => Ok(()),
        Item::Node(kind, parts) => {
            let found = variants(alloc, *kind, parts, oracle)?;
            push_variants(all, alloc, here, &found)?;
            Ok(())
        }
    }
}

/// The declarations of the members in a list.
pub(crate) fn declarations<'a, O: Oracle>(
    alloc: Global,
    oracle: &mut O,
    members: &'a [Choice<Item>],
) -> Result<Vec<MemberDeclaration<'a>>, NoMemory>
    ensures kept { O.admits oracle.new ≡ O.admits oracle.old }
    ensures seen { IfOk result (λ all. (c : List Bool) (kind : Kind) → IsTrue (value (has c) (O.admits oracle.old)) → ((place : ℕ) → needs_statement kind place ≡ false)
        → seen (has c) (declarations_at (has c) all.items) ≡ declarations_in (trees_of (parts_at (has c) kind 0 (plain_choices members.now)))) }
{
    let list = entries(alloc, oracle, members)?;
    let mut all = Vec::with_capacity(alloc, list.len())?;
    for entry in &list {
        push_item(&mut all, alloc, oracle, &entry.when, entry.item)?;
    }
    Ok(all)
}
