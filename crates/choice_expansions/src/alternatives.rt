//! What stands for a part that has alternatives.
ghost use Rattle.std.specs.Prelude.{◌≡◌, Bool, ◌&&◌, List, [], ◌∷◌, ◌++◌, map, None, Some, IsTrue, IfOk};
ghost use Rattle.cond_formula.specs.Features.{has};
ghost use Rattle.cond_formula.specs.Conditions.{condition_of, value};
ghost use Rattle.conditional.specs.Entries.{seen, under, Stands};
ghost use Rattle.c_tree.specs.Trees.{plain_tree};
ghost use Rattle.choice_trees.specs.ChoiceTrees.{plain_item, plain_branches, item_at, branch_at};
ghost use Rattle.choice_expansions.specs.Expansions.{expanded, parts_expanded};

use crate::expanding::expansions;
use crate::rows::Expansion;
use c_tree::Tree;
use choice_trees::{Choice, Item};
use choice_variants::may_hold;
use cond_formula::{Formula, NoMemory, Oracle};
use reduced_conditions::{both_of, without};
use std::alloc::Global;

/// What stands for a part where a condition is true: a tree, or nothing.
#[derive(Drop)]
pub struct PartExpansion {
    pub when: Formula,
    pub tree: Option<Tree>,
}

/// A tree of an alternative, if there may be configurations in which both conditions are true.
fn push_tree<O: Oracle>(
    alloc: Global,
    oracle: &mut O,
    all: &mut Vec<PartExpansion>,
    here: &Formula,
    expansion: &Expansion,
) -> Result<(), NoMemory>
    ensures kept { O.admits oracle.new ≡ O.admits oracle.old }
    ensures adds { IfOk result (λ _. (c : List Bool) → IsTrue (value (has c) (O.admits oracle.old))
        → seen (has c) (parts_expanded all.new.items)
        ≡ seen (has c) (parts_expanded all.old.items) ++ under (value (has c) (condition_of here.now) && value (has c) (condition_of expansion.now.when)) (Some (plain_tree expansion.now.tree) ∷ [])) }
{
    let when = both_of(alloc, here, &expansion.when)?;
    if !may_hold(&when, oracle) {
        return Ok(());
    }
    let tree = Some(expansion.tree.try_clone(alloc)?);
    all.push(PartExpansion { when, tree })?;
    Ok(())
}

/// The trees of an alternative, where the condition is true.
fn push_trees<O: Oracle>(
    alloc: Global,
    oracle: &mut O,
    all: &mut Vec<PartExpansion>,
    here: &Formula,
    expansions: &[Expansion],
) -> Result<(), NoMemory>
    ensures kept { O.admits oracle.new ≡ O.admits oracle.old }
    ensures adds { IfOk result (λ _. (c : List Bool) → IsTrue (value (has c) (O.admits oracle.old))
        → seen (has c) (parts_expanded all.new.items)
        ≡ seen (has c) (parts_expanded all.old.items) ++ under (value (has c) (condition_of here.now)) (map Some (seen (has c) (expanded expansions.now)))) }
{
    for expansion in expansions {
        push_tree(alloc, oracle, all, here, expansion)?;
    }
    Ok(())
}

/// An alternative, where the condition is true.
fn push_item<O: Oracle>(
    alloc: Global,
    oracle: &mut O,
    all: &mut Vec<PartExpansion>,
    here: &Formula,
    item: &Item,
) -> Result<(), NoMemory>
    ensures kept { O.admits oracle.new ≡ O.admits oracle.old }
    ensures adds { IfOk result (λ _. (c : List Bool) → IsTrue (value (has c) (O.admits oracle.old))
        → seen (has c) (parts_expanded all.new.items)
        ≡ seen (has c) (parts_expanded all.old.items) ++ under (value (has c) (condition_of here.now)) (Some (item_at (has c) (plain_item item.now)) ∷ [])) }
{
    let expansions = expansions(alloc, oracle, item)?;
    push_trees(alloc, oracle, all, here, &expansions)?;
    Ok(())
}

/// Nothing, if there may be configurations in which the condition is true.
fn push_nothing<O: Oracle>(
    oracle: &mut O,
    all: &mut Vec<PartExpansion>,
    when: Formula,
) -> Result<(), NoMemory>
    ensures kept { O.admits oracle.new ≡ O.admits oracle.old }
    ensures adds { IfOk result (λ _. (c : List Bool) → IsTrue (value (has c) (O.admits oracle.old))
        → seen (has c) (parts_expanded all.new.items)
        ≡ seen (has c) (parts_expanded all.old.items) ++ under (value (has c) (condition_of when)) (None ∷ [])) }
{
    if !may_hold(&when, oracle) {
        return Ok(());
    }
    all.push(PartExpansion { when, tree: None })?;
    Ok(())
}

/// The trees that the alternatives for a part stand for, each under a condition, and nothing where no alternative holds. In a configuration
/// one of them holds, and it is what is seen there. What the oracle knows to hold nowhere is left out.
pub fn part_expansions<O: Oracle>(
    alloc: Global,
    oracle: &mut O,
    part: &Choice<Item>,
) -> Result<Vec<PartExpansion>, NoMemory>
    ensures kept { O.admits oracle.new ≡ O.admits oracle.old }
    ensures stands { IfOk result (λ all. (c : List Bool) → IsTrue (value (has c) (O.admits oracle.old))
        → Stands (has c) (branch_at (has c) (plain_branches part.now.branches.items)) (parts_expanded all.items)) }
    ensures alone { IfOk result (λ all. (c : List Bool) → IsTrue (value (has c) (O.admits oracle.old))
        → seen (has c) (parts_expanded all.items) ≡ branch_at (has c) (plain_branches part.now.branches.items) ∷ []) }
{
    let mut all = Vec::new(alloc);
    let mut left = Formula::True;
    for (when, item) in &part.branches {
        let here = both_of(alloc, &left, when)?;
        push_item(alloc, oracle, &mut all, &here, item)?;
        left = without(alloc, left, when)?;
    }
    push_nothing(oracle, &mut all, left)?;
    Ok(all)
}
