//! Where identifiers are declared otherwise.
ghost use Rattle.std.specs.Prelude.{◌≡◌, ℕ, Bool, length, IfOk};
ghost use Rattle.cond_formula.specs.Conditions.{condition_of, value};
ghost use Rattle.cond_pairings.specs.Pairs.{pairs_seen};
ghost use Rattle.bound_otherwise.specs.Otherwise.{TellsPairs, TellsOtherwise};

use cond_formula::{Formula, NoMemory};
use cond_pairings::CondPairing;
use conditional_steps::never;
use declared_tokens::DeclaredTokens;
use reduced_conditions::either;
use std::alloc::Global;
use told_occurrences::ToldUnit;

/// Where some identifier of a unit is declared by another than before.
fn where_pairs_differ(
    alloc: Global,
    before: &[CondPairing],
    after: &[CondPairing],
) -> Result<Formula, NoMemory>
    ensures { IfOk result (λ f. (on : ℕ → Bool) → TellsPairs (value on (condition_of f)) (pairs_seen on before.now) (pairs_seen on after.now)) }
{
    let declared = DeclaredTokens::from_pairs(alloc, before)?;
    let others = DeclaredTokens::from_pairs(alloc, after)?;
    let f = declared.where_otherwise(alloc, &others)?;
    Ok(f)
}

/// Where some identifier of a unit is declared by another than the one with its number in the other units.
pub fn where_bound_otherwise(
    alloc: Global,
    before: &[ToldUnit],
    after: &[ToldUnit],
) -> Result<Formula, NoMemory>
    requires { length before.now ≡ length after.now }
    ensures { IfOk result (λ f. (on : ℕ → Bool) → TellsOtherwise (value on (condition_of f)) on before.now after.now) }
{
    let mut otherwise = never()?;
    for place in 0..before.len() {
        let found = where_pairs_differ(alloc, &before[place].pairs, &after[place].pairs)?;
        otherwise = either(alloc, otherwise, found)?;
    }
    Ok(otherwise)
}
