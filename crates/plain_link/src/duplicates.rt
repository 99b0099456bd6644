//! Names that are defined twice (6.9).
ghost use Rattle.std.specs.Prelude.{◌≡◌, ◌++◌, [], nat_le, IfOk, map};
ghost use Rattle.std.specs.List.{list_any};
ghost use Rattle.core_meaning.specs.declared.refusals.LinkKind.TheVariants as link_kind;
ghost use Rattle.core_meaning.specs.Linking as spec;
ghost use Rattle.plain_link.specs.PlainUnits.{plain_unit, plain_units};
ghost use Rattle.plain_link.specs.Faults.{Finds, duplicate_in};

use crate::availability::external_count;
use crate::built_in::built_in_named;
use crate::left::Left;
use cond_formula::NoMemory;
use std::alloc::Global;

fn is_twice_in_a_unit(units: &[Left], name: &[u8]) -> bool
    ensures { result ≡ list_any (λ unit. nat_le 2 (spec.count_in_unit unit name.now)) (map (plain_unit 0) units.now) }
{
    for unit in units {
        if unit.is_internal(name) && unit.count(name) >= 2 {
            return true;
        }
    }
    false
}

fn is_duplicate(units: &[Left], name: &[u8]) -> bool
    ensures { result ≡ spec.is_duplicate (map (plain_unit 0) units.now) name.now }
{
    let count = external_count(units, name);
    count >= 2 || is_twice_in_a_unit(units, name) || (count >= 1 && built_in_named(name).is_some())
}

/// Adds the names that a unit defines and that are defined twice.
fn add_duplicate<'a>(
    units: &[Left],
    unit: &'a Left,
    found: &mut Vec<&'a [u8]>,
) -> Result<(), NoMemory>
    ensures { IfOk result (λ done. map (λ name. name.now) found.new.items ≡ map (λ name. name.now) found.old.items
        ++ duplicate_in units.now unit.now) }
{
    for d in unit.defined.list.iter() {
        if is_duplicate(units, d.name.as_slice()) {
            found.push(d.name.as_slice())?;
        }
    }
    Ok(())
}

/// The names that are defined twice.
pub fn duplicate<'a>(alloc: Global, units: &'a [Left]) -> Result<Vec<&'a [u8]>, NoMemory>
    ensures { IfOk result (λ names.
        Finds (map (λ name. name.now) names.items) (spec.IsFault (plain_units 0 units.now []) link_kind.Duplicate)) }
{
    let mut found = Vec::new(alloc);
    for unit in units {
        add_duplicate(units, unit, &mut found)?;
    }
    Ok(found)
}
