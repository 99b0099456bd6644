//! Entries with the conditions under which they are refused.
ghost use Rattle.std.specs.Prelude.{◌≡◌, ℕ, Bool, get_or, IfOk};
ghost use Rattle.cond_formula.specs.declared.formulas.Formula.{False};
ghost use Rattle.cond_formula.specs.Conditions.{condition_of, value};
ghost use Rattle.cond_initialisers.specs.Rows.{rows, some_row};

use cond_formula::{Formula, NoMemory};
use conditional::Guarded;
use reduced_conditions::{both, either};
use std::alloc::Global;

/// Where an entry is refused for each of some types.
#[derive(Drop)]
pub struct Row {
    pub refused: Vec<Formula>,
}

/// Where the entry is refused for the type with this number.
pub(crate) fn refused_at(alloc: Global, row: &Row, number: u32) -> Result<Formula, NoMemory>
    ensures { IfOk result (λ f. condition_of f ≡ condition_of (get_or row.now.refused.items number False)) }
{
    match row.refused.get(number as usize) {
        Some(f) => f.try_clone(alloc),
        None => Ok(Formula::False),
    }
}

/// Where some entry is refused for the first type.
pub(crate) fn where_some_row(alloc: Global, entries: &[Guarded<Row>]) -> Result<Formula, NoMemory>
    ensures { IfOk result (λ f. (on : ℕ → Bool) → value on (condition_of f) ≡ some_row (rows on entries.now)) }
{
    let mut some = Formula::False;
    for entry in entries {
        let refused = refused_at(alloc, &entry.what, 0)?;
        let here = both(alloc, entry.when.try_clone(alloc)?, refused)?;
        some = either(alloc, some, here)?;
    }
    Ok(some)
}
