//! Where a name that is used isn't declared.

ghost use Rattle.std.specs.Prelude.{◌≡◌, ℕ, Bool, false, not, ◌&&◌, ◌||◌, List, IsTrue, IfOk};
ghost use Rattle.cond_formula.specs.Features.{has};
ghost use Rattle.cond_formula.specs.Conditions.{condition_of, conditions_of, value, all_true};
ghost use Rattle.cond_bindings.specs.Bindings.{visible};
ghost use Rattle.cond_bindings.specs.Unseen.{none_there, left_on};

use crate::unit_bindings::Declaration;
use cond_formula::{Formula, May, NoMemory, Oracle};
use path_conditions::{exclude, follows};
use reduced_conditions::{either, either_of, is_never};
use std::alloc::Global;

/// The path where the formula isn't true.
fn left_behind(alloc: Global, path: Vec<Formula>, seen: &Formula) -> Result<Vec<Formula>, NoMemory>
    ensures { IfOk result (λ left. (on : ℕ → Bool) → all_true on (conditions_of left.items) ≡ (all_true on (conditions_of path.items) && not (value on (condition_of seen.now)))) }
{
    let mut left = path;
    exclude(&mut left, alloc, seen)?;
    Ok(left)
}

/// The path without the configurations that see a declaration from the place on, or nothing if each of the path's does. Where they are seen is
/// put together first: declarations of all branches of a group are seen everywhere, and no oracle has to be asked.
pub fn without_visible(
    alloc: Global,
    declarations: &[Declaration],
    latest: Option<u32>,
    path: Vec<Formula>,
) -> Result<Option<Vec<Formula>>, NoMemory>
    ensures { IfOk result (λ left. (on : ℕ → Bool) → left_on on left
        ≡ (all_true on (conditions_of path.items) && none_there on (visible declarations.now latest))) }
{
    let mut seen = Formula::False;
    let mut behind = declarations.len();
    let mut next = latest;
    while let Some(place) = next {
        if place as usize >= behind {
            return Ok(Some(left_behind(alloc, path, &seen)?));
        }
        let declaration = &declarations[place as usize];
        seen = either_of(alloc, seen, &declaration.when)?;
        if follows(&seen, &path) {
            return Ok(None);
        }
        behind = place as usize;
        next = declaration.hides;
    }
    Ok(Some(left_behind(alloc, path, &seen)?))
}

/// Whether the oracle doesn't say that the formula is nowhere true.
fn may_be<O: Oracle>(f: &Formula, oracle: &mut O) -> bool
    ensures kept { O.admits oracle.new ≡ O.admits oracle.old }
    ensures no { result ≡ false → (c : List Bool) → IsTrue (value (has c) (O.admits oracle.old)) → value (has c) (condition_of f.now) ≡ false }
{
    if is_never(f) {
        return false;
    }
    match oracle.may(f) {
        May::No => false,
        May::Maybe => true,
    }
}

/// Where a name was undeclared before, and where one is now, in the configurations that the oracle admits.
pub fn with_undeclared<O: Oracle>(
    alloc: Global,
    refused: Formula,
    undeclared: Formula,
    oracle: &mut O,
) -> Result<Formula, NoMemory>
    ensures kept { O.admits oracle.new ≡ O.admits oracle.old }
    ensures refused { IfOk result (λ f. (c : List Bool) → IsTrue (value (has c) (O.admits oracle.old)) →
        value (has c) (condition_of f) ≡ (value (has c) (condition_of refused) || value (has c) (condition_of undeclared))) }
{
    if !may_be(&undeclared, oracle) {
        return Ok(refused);
    }
    let all = either(alloc, refused, undeclared)?;
    Ok(all)
}
