//! The trees of an item with alternatives.
ghost use Rattle.std.specs.Prelude.{◌≡◌, ℕ, Bool, List, [], ◌∷◌, IsTrue, IfOk};
ghost use Rattle.cond_formula.specs.Features.{has};
ghost use Rattle.cond_formula.specs.Conditions.{condition_of, value};
ghost use Rattle.conditional.specs.Entries.{seen, under, Stands};
ghost use Rattle.c_text.specs.Token.{plain_token};
ghost use Rattle.c_tree.specs.Trees.{none, leaf, node};
ghost use Rattle.choice_trees.specs.ChoiceTrees as spec;
ghost use Rattle.choice_trees.specs.ChoiceTrees.{plain_item, plain_choices, item_at, parts_at};
ghost use Rattle.choice_variants.specs.Variants.{part_at, before, shown};
ghost use Rattle.choice_expansions.specs.Expansions.{expanded, rows_before};

use crate::rows::{Expansion, Row, crossed, no_trees, nodes_of, one_tree};
use c_text::Token;
use c_tree::{Kind, Tree};
use choice_trees::{Choice, Item, no_statement};
use choice_variants::{Part, Variant, variants};
use cond_formula::{NoMemory, Oracle};
use std::alloc::Global;

#[tactic(auto, using(c_tree::specs::TreeLaws::tree_kinds))]
fn token_expanded(alloc: Global, token: &Token) -> Result<Vec<Expansion>, NoMemory>
    ensures { IfOk result (λ all. (on : ℕ → Bool) → seen on (expanded all.items) ≡ leaf (plain_token token.now) ∷ []) }
{
    let tree = Tree::Leaf(token.try_clone(alloc)?);
    one_tree(alloc, tree)
}

fn statement_expanded(alloc: Global) -> Result<Vec<Expansion>, NoMemory>
    ensures { IfOk result (λ all. (on : ℕ → Bool) → seen on (expanded all.items) ≡ spec.no_statement ∷ []) }
{
    let tree = no_statement(alloc)?;
    one_tree(alloc, tree)
}

/// The trees of an item.
#[cycle(expand)]
#[tactic(auto, using(choice_trees::specs::ItemLaws::item_kinds))]
fn item_expanded<O: Oracle>(
    alloc: Global,
    oracle: &mut O,
    item: &Item,
) -> Result<Vec<Expansion>, NoMemory>
    ensures kept { O.admits oracle.new ≡ O.admits oracle.old }
    ensures alone { IfOk result (λ all. (c : List Bool) → IsTrue (value (has c) (O.admits oracle.old))
        → seen (has c) (expanded all.items) ≡ item_at (has c) (plain_item item.now) ∷ []) }
{
    match item {
        Item::Leaf(_, token) => token_expanded(alloc, token),
        Item::Node(kind, parts) => node_expanded(alloc, oracle, *kind, parts),
    }
}

/// The trees of a node with these parts.
#[cycle(expand)]
fn node_expanded<O: Oracle>(
    alloc: Global,
    oracle: &mut O,
    kind: Kind,
    parts: &[Choice<Item>],
) -> Result<Vec<Expansion>, NoMemory>
    ensures kept { O.admits oracle.new ≡ O.admits oracle.old }
    ensures alone { IfOk result (λ all. (c : List Bool) → IsTrue (value (has c) (O.admits oracle.old))
        → seen (has c) (expanded all.items) ≡ node kind (parts_at (has c) kind 0 (plain_choices parts.now)) ∷ []) }
{
    let all = variants(alloc, kind, parts, oracle)?;
    let rows = rows_of(alloc, oracle, &all)?;
    nodes_of(alloc, kind, rows)
}

/// The trees of the parts of each variant.
#[cycle(expand)]
fn rows_of<O: Oracle>(
    alloc: Global,
    oracle: &mut O,
    variants: &[Variant<'_>],
) -> Result<Vec<Row>, NoMemory>
    ensures kept { O.admits oracle.new ≡ O.admits oracle.old }
    ensures same { IfOk result (λ rows. (c : List Bool) → IsTrue (value (has c) (O.admits oracle.old))
        → seen (has c) (rows_before none rows.items) ≡ seen (has c) (shown (has c) variants.now)) }
{
    let mut all = Vec::new(alloc);
    for variant in variants {
        let mut rows = rows_of_variant(alloc, oracle, variant)?;
        all.append(&mut rows)?;
    }
    Ok(all)
}

/// The trees of the parts of a variant.
#[cycle(expand)]
fn rows_of_variant<O: Oracle>(
    alloc: Global,
    oracle: &mut O,
    variant: &Variant<'_>,
) -> Result<Vec<Row>, NoMemory>
    ensures kept { O.admits oracle.new ≡ O.admits oracle.old }
    ensures same { IfOk result (λ rows. (c : List Bool) → IsTrue (value (has c) (O.admits oracle.old))
        → seen (has c) (rows_before none rows.items) ≡ under (value (has c) (condition_of variant.now.when)) (before (has c) variant.now.parts.items none ∷ [])) }
{
    let mut rows = no_trees(alloc, variant.when.try_clone(alloc)?)?;
    for part in &variant.parts {
        let expansions = part_expanded(alloc, oracle, part)?;
        rows = crossed(alloc, oracle, &rows, &expansions)?;
    }
    Ok(rows)
}

/// The trees of a part of a variant.
#[cycle(expand)]
fn part_expanded<O: Oracle>(
    alloc: Global,
    oracle: &mut O,
    part: &Part<'_>,
) -> Result<Vec<Expansion>, NoMemory>
    ensures kept { O.admits oracle.new ≡ O.admits oracle.old }
    ensures alone { IfOk result (λ all. (c : List Bool) → IsTrue (value (has c) (O.admits oracle.old)) → seen (has c) (expanded all.items) ≡ part_at (has c) part.now ∷ []) }
{
    match part {
        Part::Item(item) => item_expanded(alloc, oracle, item),
        Part::NoStatement => statement_expanded(alloc),
    }
}

/// The trees that an item stands for, each under a condition. In a configuration one of them holds, and it is the tree that is seen
/// there. What the oracle knows to hold nowhere is left out.
pub fn expansions<O: Oracle>(
    alloc: Global,
    oracle: &mut O,
    item: &Item,
) -> Result<Vec<Expansion>, NoMemory>
    ensures kept { O.admits oracle.new ≡ O.admits oracle.old }
    ensures stands { IfOk result (λ all. (c : List Bool) → IsTrue (value (has c) (O.admits oracle.old))
        → Stands (has c) (item_at (has c) (plain_item item.now)) (expanded all.items)) }
    ensures alone { IfOk result (λ all. (c : List Bool) → IsTrue (value (has c) (O.admits oracle.old))
        → seen (has c) (expanded all.items) ≡ item_at (has c) (plain_item item.now) ∷ []) }
{
    let all = item_expanded(alloc, oracle, item)?;
    Ok(all)
}
