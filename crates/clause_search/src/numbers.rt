//! The numbers of clauses and steps.

ghost use Rattle.std.specs.Prelude.{◌≡◌};
ghost use Rattle.std.specs.Option.{option_copied};
ghost use Rattle.refute_check.specs.Steps.{clause_at};
ghost use Rattle.clause_search.specs.Answers.{literals_of, steps_of};
ghost use Rattle.clause_search.specs.Following.{numbered};

use crate::answers::Step;

/// The clause with this number: the given clauses and then the steps are counted from 1.
pub fn clause_with<'a>(given: &'a [Vec<i32>], steps: &'a [Step], number: u32) -> Option<&'a [i32]>
    ensures { option_copied result
        ≡ clause_at (numbered (literals_of given.now) (steps_of steps.now)) number }
{
    let index = (number as usize).checked_sub(1)?;
    if index < given.len() {
        return Some(given[index].as_slice());
    }
    let step = steps.get(index - given.len())?;
    Some(step.clause.as_slice())
}
