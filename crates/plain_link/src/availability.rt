//! Names that are used and not defined (6.9).
ghost use Rattle.std.specs.Prelude.{◌≡◌, ◌^◌, ◌-◌, ◌++◌, [], min, IfOk, map};
ghost use Rattle.core_meaning.specs.declared.refusals.LinkKind.TheVariants as link_kind;
ghost use Rattle.core_meaning.specs.Linking as spec;
ghost use Rattle.plain_link.specs.PlainUnits.{plain_unit, plain_units};
ghost use Rattle.plain_link.specs.Faults.{Finds, undefined_in};

use crate::built_in::built_in_named;
use crate::left::Left;
use cond_formula::NoMemory;
use std::alloc::Global;

/// How many definitions with external linkage a name has in all units, up to the largest number.
pub fn external_count(units: &[Left], name: &[u8]) -> usize
    ensures { result ≡ min (spec.count_external (map (plain_unit 0) units.now) name.now) (2 ^ 64 - 1) }
{
    let mut count: usize = 0;
    for unit in units {
        if !unit.is_internal(name) {
            count = count.saturating_add(unit.count(name));
        }
    }
    count
}

/// Whether a name of a unit is defined in it, or somewhere, or built in.
pub fn is_available(units: &[Left], unit: &Left, name: &[u8]) -> bool
    ensures { result ≡ spec.is_available (map (plain_unit 0) units.now) (plain_unit 0 unit.now) name.now }
{
    if unit.is_internal(name) {
        unit.defines(name)
    } else {
        external_count(units, name) >= 1 || built_in_named(name).is_some()
    }
}

/// Adds the names that a unit uses and that aren't available.
fn add_undefined<'a>(
    units: &[Left],
    unit: &'a Left,
    found: &mut Vec<&'a [u8]>,
) -> Result<(), NoMemory>
    ensures { IfOk result (λ done. map (λ name. name.now) found.new.items ≡ map (λ name. name.now) found.old.items
        ++ undefined_in units.now unit.now) }
{
    for name in unit.used.names.keys() {
        if !is_available(units, unit, name.as_slice()) {
            found.push(name.as_slice())?;
        }
    }
    Ok(())
}

/// The names that an expression uses and that aren't available.
pub fn undefined<'a>(alloc: Global, units: &'a [Left]) -> Result<Vec<&'a [u8]>, NoMemory>
    ensures { IfOk result (λ names.
        Finds (map (λ name. name.now) names.items) (spec.IsFault (plain_units 0 units.now []) link_kind.Undefined)) }
{
    let mut found = Vec::new(alloc);
    for unit in units {
        add_undefined(units, unit, &mut found)?;
    }
    Ok(found)
}
