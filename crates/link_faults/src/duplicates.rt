//! Names that are defined twice (6.9).
ghost use Rattle.std.specs.Prelude.{◌≡◌, ℕ, nat_le, Bool, IfOk};
ghost use Rattle.cond_formula.specs.Conditions.{condition_of, value};
ghost use Rattle.core_meaning.specs.Linking.{count_in_unit, is_duplicate};
ghost use Rattle.link_faults.specs.SeenUnits.{units_seen};

use crate::definitions::definitions;
use crate::external::{external_definitions, if_built_in};
use crate::left::LeftUnit;
use crate::names::where_internal;
use crate::questions::{Question, where_some};
use cond_formula::{Formula, NoMemory};
use reduced_conditions::{both, either};
use std::alloc::Global;
use type_tables::Tables;

/// A unit defines a name twice that is internal in it.
#[derive(Clone, Copy)]
struct Twice<'a> {
    name: &'a [u8],
}

impl<'a> Question for Twice<'a> {
    ghost asks = { λ self on unit. nat_le 2 (count_in_unit unit self.name.now) };

    fn where_so(
        &self,
        alloc: Global,
        _tables: &Tables,
        left: &LeftUnit,
    ) -> Result<Formula, NoMemory> {
        let internal = where_internal(alloc, left, self.name)?;
        let all = definitions(alloc, left, self.name)?;
        let f = both(alloc, internal, all.two)?;
        Ok(f)
    }
}

/// Where a name is defined twice.
pub fn where_duplicate(
    alloc: Global,
    tables: &Tables,
    units: &[LeftUnit],
    name: &[u8],
) -> Result<Formula, NoMemory>
    ensures { IfOk result (λ f. (on : ℕ → Bool) → value on (condition_of f) ≡ is_duplicate (units_seen on tables.now units.now) name.now) }
{
    let external = external_definitions(alloc, units, name)?;
    let within = where_some(alloc, &Twice { name }, tables, units)?;
    let beside = if_built_in(external.one, name);
    let rest = either(alloc, within, beside)?;
    let f = either(alloc, external.two, rest)?;
    Ok(f)
}
