//! Assignments: whether all variables have values, and whether these satisfy clauses.

ghost use Rattle.std.specs.Prelude.{◌≡◌, true, false, length, map, drop, slice_get, unwrap_or, IfOk, IsSomeAnd, MatchOption};
ghost use Rattle.std.specs.List.{list_any};
ghost use Rattle.refute_check.specs.Steps.{all_false};
ghost use Rattle.clause_search.specs.Answers.{literals_of};
ghost use Rattle.clause_search.specs.Searches.{AreValued, IsFirstOpen};

use crate::literals::are_false;
use cond_formula::NoMemory;
use std::alloc::Global;

/// The first variable without value.
pub fn first_open(values: &[Option<bool>]) -> Option<usize>
    ensures { MatchOption result (AreValued values.now (length values.now)) (IsFirstOpen values.now) }
{
    for variable in 1..values.len() {
        if values[variable].is_none() {
            return Some(variable);
        }
    }
    None
}

/// The place of the first clause whose literals are all false.
pub fn first_false(values: &[Option<bool>], clauses: &[Vec<i32>]) -> Option<usize>
    ensures { MatchOption result (list_any (all_false values.now) (literals_of clauses.now) ≡ false)
        (λ index. IsSomeAnd (slice_get (literals_of clauses.now) index) (λ clause. all_false values.now clause ≡ true)) }
{
    for (index, clause) in clauses.iter().enumerate() {
        if are_false(values, clause) {
            return Some(index);
        }
    }
    None
}

/// The values of the variables in the order of their numbers, without that at the place of number 0.
pub fn values_of(alloc: Global, values: &[Option<bool>]) -> Result<Vec<bool>, NoMemory>
    ensures { IfOk result (λ all. all.items ≡ map (λ value. unwrap_or value false) (drop 1 values.now)) }
{
    values
        .iter()
        .skip(1)
        .map(|value| value.unwrap_or(false))
        .collect(alloc)
}
