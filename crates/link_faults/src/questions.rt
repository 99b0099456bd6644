//! Where some unit is so.
ghost use Rattle.std.specs.Prelude.{◌≡◌, ℕ, Bool, ◌&&◌, ◌||◌, IfOk};
ghost use Rattle.std.specs.List.{list_any};
ghost use Rattle.cond_formula.specs.Conditions.{condition_of, value};
ghost use Rattle.core_meaning.specs.Linking.{Unit};
ghost use Rattle.link_faults.specs.SeenUnits.{unit_seen, units_seen};

use crate::left::LeftUnit;
use cond_formula::{Formula, NoMemory};
use reduced_conditions::{both, either};
use std::alloc::Global;
use type_tables::Tables;

/// What is asked of a unit.
pub(crate) trait Question {
    ghost asks: { Self → (ℕ → Bool) → Unit → Bool };

    fn where_so(&self, alloc: Global, tables: &Tables, left: &LeftUnit) -> Result<Formula, NoMemory>
        ensures { IfOk result (λ f. (on : ℕ → Bool) → value on (condition_of f) ≡ asks self.now on (unit_seen on tables.now left.now)) };
}

fn or_present<Q: Question>(
    alloc: Global,
    question: &Q,
    tables: &Tables,
    so_far: Formula,
    left: &LeftUnit,
) -> Result<Formula, NoMemory>
    ensures { IfOk result (λ f. (on : ℕ → Bool) → value on (condition_of f) ≡ (value on (condition_of so_far)
        || (value on (condition_of left.now.when) && Q.asks question.now on (unit_seen on tables.now left.now)))) }
{
    let so = question.where_so(alloc, tables, left)?;
    let here = both(alloc, left.when.try_clone(alloc)?, so)?;
    let f = either(alloc, so_far, here)?;
    Ok(f)
}

/// Where some unit that is present is so.
pub(crate) fn where_some<Q: Question>(
    alloc: Global,
    question: &Q,
    tables: &Tables,
    units: &[LeftUnit],
) -> Result<Formula, NoMemory>
    ensures { IfOk result (λ f. (on : ℕ → Bool) → value on (condition_of f) ≡ list_any (Q.asks question.now on) (units_seen on tables.now units.now)) }
{
    let mut so_far = Formula::False;
    for left in units {
        so_far = or_present(alloc, question, tables, so_far, left)?;
    }
    Ok(so_far)
}
