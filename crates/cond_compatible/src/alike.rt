//! Which structs are alike, in all configurations.
ghost use Rattle.std.specs.Prelude.{◌≡◌, ℕ, ◌<◌, nat_lt, Bool, get_or, map, IfOk};
ghost use Rattle.cond_formula.specs.Conditions.{condition_of, value};
ghost use Rattle.cond_formula.specs.declared.formulas.Formula.{Formula, False};
ghost use Rattle.cond_compatible.specs.Depths.{alike_to};
ghost use Rattle.cond_compatible.specs.SeenTags.{tag_seen, said_at, said_alike};

use cond_formula::{Formula, NoMemory};
use std::alloc::Global;
use type_tables::CondStruct;

/// For a struct, where each struct is alike.
#[derive(Drop)]
pub(crate) struct Row {
    pub(crate) conditions: Vec<Formula>,
}

/// Where each two structs are alike, by their numbers.
#[derive(Drop)]
pub struct AlikeStructs {
    pub(crate) rows: Vec<Row>,
}

/// The condition at a place of a row; behind its end it is never true.
pub(crate) fn condition_at(
    alloc: Global,
    row: &[Formula],
    place: usize,
) -> Result<Formula, NoMemory>
    ensures { IfOk result (λ f. condition_of f ≡ condition_of (get_or row.now place False)) }
{
    match row.get(place) {
        Some(f) => f.try_clone(alloc),
        None => Ok(Formula::False),
    }
}

/// Where two structs are alike.
pub(crate) fn where_alike(
    alloc: Global,
    alike: &AlikeStructs,
    first: usize,
    second: usize,
) -> Result<Formula, NoMemory>
    ensures { IfOk result (λ f. (on : ℕ → Bool) → value on (condition_of f) ≡ said_alike on alike.now first second) }
{
    match alike.rows.get(first) {
        Some(row) => condition_at(alloc, &row.conditions, second),
        None => Ok(Formula::False),
    }
}

/// A row that is always true.
fn full_row(alloc: Global, count: usize) -> Result<Row, NoMemory>
    ensures { IfOk result (λ row. (on : ℕ → Bool) (j : ℕ) → said_at on row.conditions.items j ≡ nat_lt j count) }
{
    let mut conditions = Vec::new(alloc);
    for _ in 0..count {
        conditions.push(Formula::True)?;
    }
    Ok(Row { conditions })
}

/// Before anything is compared: each two structs are alike.
pub(crate) fn all_alike(alloc: Global, structs: &[CondStruct]) -> Result<AlikeStructs, NoMemory>
    ensures { IfOk result (λ alike. (on : ℕ → Bool) (i j : ℕ) → said_alike on alike i j ≡ alike_to (map (tag_seen on) structs.now) 0 i j) }
{
    let mut rows = Vec::new(alloc);
    for _ in 0..structs.len() {
        rows.push(full_row(alloc, structs.len())?)?;
    }
    Ok(AlikeStructs { rows })
}
