//! Rows of trees, which go on by the expansions of one part after the other.
ghost use Rattle.std.specs.Prelude.{◌≡◌, ℕ, Bool, ◌&&◌, List, [], ◌∷◌, ◌++◌, map, IsTrue, IfOk};
ghost use Rattle.cond_formula.specs.Features.{has};
ghost use Rattle.cond_formula.specs.Conditions.{condition_of, value};
ghost use Rattle.conditional.specs.Entries.{seen, under};
ghost use Rattle.c_tree.specs.Trees.{PlainTree, PlainTrees, node, none, more, plain_tree};
ghost use Rattle.choice_expansions.specs.Expansions.{expanded, trees_before, rows_before};

use c_tree::{Kind, Tree};
use choice_variants::may_hold;
use cond_formula::{Formula, NoMemory, Oracle};
use reduced_conditions::both_of;
use std::alloc::Global;

/// The tree of an item where a condition is true.
#[derive(Drop)]
pub struct Expansion {
    pub when: Formula,
    pub tree: Tree,
}

/// Trees of the first parts of a node where a condition is true.
#[derive(Drop)]
pub(crate) struct Row {
    when: Formula,
    trees: Vec<Tree>,
}

/// One tree in each configuration.
pub(crate) fn one_tree(alloc: Global, tree: Tree) -> Result<Vec<Expansion>, NoMemory>
    ensures { IfOk result (λ all. (on : ℕ → Bool) → seen on (expanded all.items) ≡ plain_tree tree ∷ []) }
{
    let mut all = Vec::new(alloc);
    all.push(Expansion {
        when: Formula::True,
        tree,
    })?;
    Ok(all)
}

/// The row without trees, where the condition is true.
pub(crate) fn no_trees(alloc: Global, when: Formula) -> Result<Vec<Row>, NoMemory>
    ensures { IfOk result (λ rows. (on : ℕ → Bool) (rest : PlainTrees) → seen on (rows_before rest rows.items) ≡ under (value on (condition_of when)) (rest ∷ [])) }
{
    let mut rows = Vec::new(alloc);
    rows.push(Row {
        when,
        trees: Vec::new(alloc),
    })?;
    Ok(rows)
}

/// The trees, and one more behind them.
fn longer(alloc: Global, trees: &[Tree], tree: &Tree) -> Result<Vec<Tree>, NoMemory>
    ensures { IfOk result (λ all. (rest : PlainTrees) → trees_before all.items rest ≡ trees_before trees.now (more (plain_tree tree.now) rest)) }
{
    let mut all = Vec::new(alloc);
    for part in trees {
        all.push(part.try_clone(alloc)?)?;
    }
    all.push(tree.try_clone(alloc)?)?;
    Ok(all)
}

/// One row more, if there may be configurations in which it holds: a row, and a tree behind it.
fn push_row<O: Oracle>(
    alloc: Global,
    oracle: &mut O,
    rows: &mut Vec<Row>,
    row: &Row,
    expansion: &Expansion,
) -> Result<(), NoMemory>
    ensures kept { O.admits oracle.new ≡ O.admits oracle.old }
    ensures adds { IfOk result (λ _. (c : List Bool) (rest : PlainTrees) → IsTrue (value (has c) (O.admits oracle.old))
        → seen (has c) (rows_before rest rows.new.items)
        ≡ seen (has c) (rows_before rest rows.old.items) ++ under (value (has c) (condition_of row.now.when) && value (has c) (condition_of expansion.now.when))
        (trees_before row.now.trees.items (more (plain_tree expansion.now.tree) rest) ∷ [])) }
{
    let when = both_of(alloc, &row.when, &expansion.when)?;
    if !may_hold(&when, oracle) {
        return Ok(());
    }
    let trees = longer(alloc, &row.trees, &expansion.tree)?;
    rows.push(Row { when, trees })?;
    Ok(())
}

/// A row goes on by each of the expansions of a part.
fn push_rows<O: Oracle>(
    alloc: Global,
    oracle: &mut O,
    rows: &mut Vec<Row>,
    row: &Row,
    expansions: &[Expansion],
) -> Result<(), NoMemory>
    ensures kept { O.admits oracle.new ≡ O.admits oracle.old }
    ensures adds { IfOk result (λ _. (c : List Bool) (rest : PlainTrees) → IsTrue (value (has c) (O.admits oracle.old))
        → seen (has c) (rows_before rest rows.new.items)
        ≡ seen (has c) (rows_before rest rows.old.items) ++ under (value (has c) (condition_of row.now.when))
        (map (λ tree. trees_before row.now.trees.items (more tree rest)) (seen (has c) (expanded expansions.now)))) }
{
    for expansion in expansions {
        push_row(alloc, oracle, rows, row, expansion)?;
    }
    Ok(())
}

/// The rows with one part more.
pub(crate) fn crossed<O: Oracle>(
    alloc: Global,
    oracle: &mut O,
    rows: &[Row],
    expansions: &[Expansion],
) -> Result<Vec<Row>, NoMemory>
    ensures kept { O.admits oracle.new ≡ O.admits oracle.old }
    ensures same { IfOk result (λ all. (c : List Bool) (tree : PlainTree) (rest : PlainTrees) → IsTrue (value (has c) (O.admits oracle.old))
        → seen (has c) (expanded expansions.now) ≡ tree ∷ []
        → seen (has c) (rows_before rest all.items) ≡ seen (has c) (rows_before (more tree rest) rows.now)) }
{
    let mut all = Vec::new(alloc);
    for row in rows {
        push_rows(alloc, oracle, &mut all, row, expansions)?;
    }
    Ok(all)
}

/// A node with the trees of a row as its parts.
fn node_of(kind: Kind, row: Row) -> Expansion
    ensures when { result.when ≡ row.when }
    ensures tree { plain_tree result.tree ≡ node kind (trees_before row.trees.items none) }
{
    let Row { when, trees } = row;
    Expansion {
        when,
        tree: Tree::Node(kind, trees),
    }
}

/// Nodes with the trees of rows as their parts.
pub(crate) fn nodes_of(
    alloc: Global,
    kind: Kind,
    rows: Vec<Row>,
) -> Result<Vec<Expansion>, NoMemory>
    ensures { IfOk result (λ all. (on : ℕ → Bool) → seen on (expanded all.items) ≡ map (node kind) (seen on (rows_before none rows.items))) }
{
    let mut all = Vec::new(alloc);
    for row in rows {
        all.push(node_of(kind, row))?;
    }
    Ok(all)
}
