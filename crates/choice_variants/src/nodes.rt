//! The variants of a node's parts.
ghost use Rattle.std.specs.Prelude.{◌≡◌, Bool, List, [], ◌∷◌, IsTrue, IfOk};
ghost use Rattle.cond_formula.specs.Features.{has};
ghost use Rattle.cond_formula.specs.Conditions.{value};
ghost use Rattle.conditional.specs.Entries.{seen, Stands};
ghost use Rattle.choice_trees.specs.ChoiceTrees.{plain_choices, parts_at};
ghost use Rattle.choice_trees.specs.Depths.{choices_depth};
ghost use Rattle.choice_variants.specs.Variants.{shown, AreAllLow};

use crate::alternatives::extended;
use crate::parts::Variant;
use c_tree::Kind;
use choice_trees::{Choice, Item, needs_statement};
use cond_formula::{Formula, NoMemory, Oracle};
use std::alloc::Global;

/// The parts that a node has, each list under a condition. In a configuration one variant holds, and it shows the parts that are seen
/// there. A part with one alternative that is always there adds no condition, and what the oracle knows to hold nowhere is left out.
pub fn variants<'a, O: Oracle>(
    alloc: Global,
    kind: Kind,
    parts: &'a [Choice<Item>],
    oracle: &mut O,
) -> Result<Vec<Variant<'a>>, NoMemory>
    ensures kept { O.admits oracle.new ≡ O.admits oracle.old }
    ensures stands { IfOk result (λ all. (c : List Bool) → IsTrue (value (has c) (O.admits oracle.old))
        → Stands (has c) (parts_at (has c) kind 0 (plain_choices parts.now)) (shown (has c) all.items)) }
    ensures alone { IfOk result (λ all. (c : List Bool) → IsTrue (value (has c) (O.admits oracle.old))
        → seen (has c) (shown (has c) all.items) ≡ parts_at (has c) kind 0 (plain_choices parts.now) ∷ []) }
    ensures low { IfOk result (λ all. AreAllLow (choices_depth (plain_choices parts.now)) all.items) }
{
    let mut all = Vec::with_capacity(alloc, 1)?;
    all.push(Variant {
        when: Formula::True,
        parts: Vec::new(alloc),
    })?;
    for (place, part) in parts.iter().enumerate() {
        all = extended(alloc, needs_statement(kind, place), part, &all, oracle)?;
    }
    Ok(all)
}
