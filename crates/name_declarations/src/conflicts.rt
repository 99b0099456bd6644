//! What a name stands for already: what it was declared as first counts.
ghost use Rattle.std.specs.Prelude.{◌≡◌, Bool, ◌&&◌, List, IsTrue, IfOk};
ghost use Rattle.cond_formula.specs.Features.{has};
ghost use Rattle.cond_formula.specs.Conditions.{condition_of, value};
ghost use Rattle.conditional.specs.Entries.{seen, entries_of, first};
ghost use Rattle.type_tables.specs.Forms.{file_name_form};
ghost use Rattle.type_tables.specs.Tables as plain;
ghost use Rattle.name_declarations.specs.Conflicts.{conflicting};

use choice_variants::may_hold;
use cond_formula::{Formula, NoMemory, Oracle};
use conditional::Guarded;
use reduced_conditions::{both, both_of, either, without};
use std::alloc::Global;
use type_tables::FileName;

/// What a declaration conflicts with.
pub(crate) trait Conflict {
    ghost conflicts: { Self → List Bool → plain.FileName → Bool };

    /// Where what a name stands for conflicts with the declaration.
    fn where_conflicting<O: Oracle>(
        &self,
        alloc: Global,
        oracle: &mut O,
        visible: &FileName,
    ) -> Result<Formula, NoMemory>
        ensures kept { O.admits oracle.new ≡ O.admits oracle.old }
        ensures exact { IfOk result (λ f. (c : List Bool) → IsTrue (value (has c) (O.admits oracle.old))
            → value (has c) (condition_of f) ≡ conflicts self.now c (file_name_form visible.now)) };
}

/// Where one of the things that a name may stand for conflicts, if that is what it stands for where the condition is true.
fn where_one_conflicts<C: Conflict, O: Oracle>(
    alloc: Global,
    oracle: &mut O,
    conflict: &C,
    left: &Formula,
    meaning: &Guarded<FileName>,
) -> Result<Formula, NoMemory>
    ensures kept { O.admits oracle.new ≡ O.admits oracle.old }
    ensures exact { IfOk result (λ f. (c : List Bool) → IsTrue (value (has c) (O.admits oracle.old))
        → value (has c) (condition_of f) ≡ ((value (has c) (condition_of left.now) && value (has c) (condition_of meaning.now.when)) && C.conflicts conflict.now c (file_name_form meaning.now.what))) }
{
    let here = both_of(alloc, left, &meaning.when)?;
    if !may_hold(&here, oracle) {
        return Ok(Formula::False);
    }
    let conflicting = conflict.where_conflicting(alloc, oracle, &meaning.what)?;
    both(alloc, here, conflicting)
}

/// Where the condition is true and what a name stands for conflicts.
#[tactic(auto, using(cond_formula::specs::ConditionLaws::formula_kinds))]
pub(crate) fn where_conflicting<C: Conflict, O: Oracle>(
    alloc: Global,
    oracle: &mut O,
    conflict: &C,
    when: &Formula,
    meanings: &[Guarded<FileName>],
) -> Result<Formula, NoMemory>
    ensures kept { O.admits oracle.new ≡ O.admits oracle.old }
    ensures exact { IfOk result (λ f. (c : List Bool) → IsTrue (value (has c) (O.admits oracle.old))
        → value (has c) (condition_of f) ≡ (value (has c) (condition_of when.now) && conflicting (C.conflicts conflict.now c) (first (seen (has c) (entries_of file_name_form meanings.now))))) }
{
    let mut refused = Formula::False;
    let mut left = when.try_clone(alloc)?;
    for meaning in meanings {
        let here = where_one_conflicts(alloc, oracle, conflict, &left, meaning)?;
        refused = either(alloc, refused, here)?;
        left = without(alloc, left, &meaning.when)?;
    }
    Ok(refused)
}
