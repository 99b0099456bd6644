//! What stands behind a declaration in its unit.
ghost use Rattle.std.specs.Prelude.{◌≡◌, Bool, List, IfOk};
ghost use Rattle.cond_formula.specs.Features.{has};
ghost use Rattle.cond_formula.specs.Conditions.{condition_of, value};
ghost use Rattle.c_tree.specs.Trees.{PlainTrees};
ghost use Rattle.core_meaning.specs.UnitNames.{is_completed_in};

use cond_formula::{Formula, NoMemory};
use std::alloc::Global;

/// The items of a unit behind a declaration, which may complete structs (6.9.2).
pub trait Behind {
    /// The items as a configuration sees them.
    ghost rest: { Self → List Bool → PlainTrees };

    /// Where one of them completes the struct of this tag.
    fn where_completed(&self, alloc: Global, tag: &[u8]) -> Result<Formula, NoMemory>
        ensures { IfOk result (λ f. (c : List Bool) → value (has c) (condition_of f) ≡ is_completed_in tag.now (rest self.now c)) };
}
