//! Definitions of a name with external linkage (6.9).
ghost use Rattle.std.specs.Prelude.{◌≡◌, ℕ, ◌+◌, Bool, ◌&&◌, ◌||◌, [], ◌∷◌, is_some, IfOk};
ghost use Rattle.cond_formula.specs.Conditions.{condition_of, value};
ghost use Rattle.core_meaning.specs.Linking as spec;
ghost use Rattle.core_meaning.specs.Linking.{count_external};
ghost use Rattle.type_tables.specs.declared.tables.Tables.{Tables};
ghost use Rattle.link_faults.specs.Several.{Count};
ghost use Rattle.link_faults.specs.SeenUnits.{units_seen};

use crate::definitions::definitions;
use crate::left::LeftUnit;
use crate::names::where_internal;
use crate::several::{Several, none, only, together};
use cond_formula::{Formula, NoMemory};
use plain_link::built_in_named;
use reduced_conditions::without;
use std::alloc::Global;

/// The definitions of one unit more.
fn with_external(
    alloc: Global,
    so_far: Several,
    left: &LeftUnit,
    name: &[u8],
) -> Result<Several, NoMemory>
    ensures { IfOk result (λ s. (on : ℕ → Bool) (tables : Tables) (n : ℕ) → Count on so_far n
        → Count on s (n + count_external (units_seen on tables (left.now ∷ [])) name.now)) }
{
    let internal = where_internal(alloc, left, name)?;
    let external = without(alloc, left.when.try_clone(alloc)?, &internal)?;
    let all = definitions(alloc, left, name)?;
    let here = only(alloc, external, all)?;
    let s = together(alloc, so_far, here)?;
    Ok(s)
}

/// The definitions of a name with external linkage.
pub(crate) fn external_definitions(
    alloc: Global,
    units: &[LeftUnit],
    name: &[u8],
) -> Result<Several, NoMemory>
    ensures { IfOk result (λ s. (on : ℕ → Bool) (tables : Tables) → Count on s (count_external (units_seen on tables units.now) name.now)) }
{
    let mut so_far = none();
    for left in units {
        so_far = with_external(alloc, so_far, left, name)?;
    }
    Ok(so_far)
}

/// The condition, or anywhere if a header declares the name.
#[tactic(auto, using(cond_formula::specs::ConditionLaws::formula_kinds))]
pub(crate) fn or_built_in(f: Formula, name: &[u8]) -> Formula
    ensures { (on : ℕ → Bool) → value on (condition_of result) ≡ (value on (condition_of f) || is_some (spec.built_in_named name.now)) }
{
    if built_in_named(name).is_some() {
        return Formula::True;
    }
    f
}

/// The condition if a header declares the name, and nowhere else.
#[tactic(auto, using(cond_formula::specs::ConditionLaws::formula_kinds))]
pub(crate) fn if_built_in(f: Formula, name: &[u8]) -> Formula
    ensures { (on : ℕ → Bool) → value on (condition_of result) ≡ (is_some (spec.built_in_named name.now) && value on (condition_of f)) }
{
    if built_in_named(name).is_some() {
        return f;
    }
    Formula::False
}
