//! Parts of nodes, and lists of them that go on.
ghost use Rattle.std.specs.Prelude.{◌≡◌, ℕ, Bool, None, IfOk};
ghost use Rattle.c_tree.specs.Trees.{PlainTrees};
ghost use Rattle.choice_trees.specs.ChoiceTrees.{with_part};
ghost use Rattle.choice_variants.specs.Variants.{before, perhaps_before, AreLow, IsLowIfAny};

use choice_trees::Item;
use cond_formula::{Formula, NoMemory};
use std::alloc::Global;

/// A part of a node where one alternative is taken.
#[derive(Clone, Copy)]
pub enum Part<'a> {
    Item(&'a Item),
    /// The `;` that stands for a statement where there is none.
    NoStatement,
}

/// A node's parts where a condition is true.
#[derive(Drop)]
pub struct Variant<'a> {
    pub when: Formula,
    pub parts: Vec<Part<'a>>,
}

/// What stands for a part of which no alternative holds.
pub(crate) fn part_left_out<'a>(needed: bool) -> Option<Part<'a>>
    ensures shows { (on : ℕ → Bool) (rest : PlainTrees) → perhaps_before on result rest ≡ with_part needed None rest }
    ensures low { (n : ℕ) → IsLowIfAny n result }
{
    if needed {
        Some(Part::NoStatement)
    } else {
        None
    }
}

/// The parts, and one more behind them if there is one.
pub(crate) fn longer<'a>(
    alloc: Global,
    parts: &[Part<'a>],
    part: Option<Part<'a>>,
) -> Result<Vec<Part<'a>>, NoMemory>
    ensures shows { IfOk result (λ all. (on : ℕ → Bool) (rest : PlainTrees) → before on all.items rest ≡ before on parts.now (perhaps_before on part.entry rest)) }
    ensures low { IfOk result (λ all. (n : ℕ) → AreLow n parts.now → IsLowIfAny n part.entry → AreLow n all.items) }
{
    let mut all = Vec::from_slice(alloc, parts)?;
    if let Some(part) = part {
        all.push(part)?;
    }
    Ok(all)
}
