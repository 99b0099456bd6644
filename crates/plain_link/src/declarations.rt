//! Names with declarations that aren't compatible (6.2.7).
ghost use Rattle.std.specs.Prelude.{◌≡◌, ◌↔◌, IsTrue, IfOk, Some, option_map, map};
ghost use Rattle.c_types.specs.Tags.{plain_tags};
ghost use Rattle.core_meaning.specs.declared.refusals.LinkKind.TheVariants as link_kind;
ghost use Rattle.core_meaning.specs.Linking as spec;
ghost use Rattle.plain_scope.specs.PlainScope.{plain_sort};
ghost use Rattle.plain_link.specs.PlainUnits.{plain_unit, plain_units, key_texts};
ghost use Rattle.plain_link.specs.Faults.{AllOf, Tells, Finds, Adds, FitsSort, IsApartFrom, IsFitting, FitsHere, IsApartHere, IsApartOf, AreApartNamed};

use crate::agreement::{sorts_agree, table};
use crate::built_in::built_in_sort;
use crate::left::Left;
use c_types::TagTable;
use cond_formula::NoMemory;
use plain_scope::{Sort, Struct};
use std::alloc::Global;

/// What a unit declares a name with external linkage as.
fn external_sort<'a>(unit: &'a Left, name: &[u8]) -> Option<&'a Sort>
    ensures { option_map (λ sort. plain_sort sort.now) result ≡ spec.external_sort name.now (plain_unit 0 unit.now) }
{
    match unit.names.get(name) {
        None => None,
        Some(found) => {
            if found.internal {
                None
            } else {
                Some(&found.sort)
            }
        }
    }
}

fn fits(alloc: Global, sort: &Sort, other: Option<&Sort>, tags: &TagTable) -> Result<bool, NoMemory>
    ensures { IfOk result (λ fits.
        IsTrue fits ↔ FitsSort (plain_tags tags.now) (plain_sort sort.now) (option_map (λ sort. plain_sort sort.now) other.entry)) }
{
    match other {
        None => Ok(true),
        Some(other) => {
            let agree = sorts_agree(alloc, sort, other, tags)?;
            Ok(agree)
        }
    }
}

/// Whether a sort fits those that units declare a name with external linkage as.
fn fits_units(
    alloc: Global,
    sort: &Sort,
    name: &[u8],
    units: &[Left],
    tags: &TagTable,
) -> Result<bool, NoMemory>
    ensures { IfOk result (λ fits. Tells fits
        (AllOf (FitsSort (plain_tags tags.now) (plain_sort sort.now)) (map (spec.external_sort name.now) (map (plain_unit 0) units.now)))
        (IsApartFrom (plain_tags tags.now) (plain_sort sort.now) (map (spec.external_sort name.now) (map (plain_unit 0) units.now)))) }
{
    for unit in units {
        if !fits(alloc, sort, external_sort(unit, name), tags)? {
            return Ok(false);
        }
    }
    Ok(true)
}

/// Whether a sort fits those of all declarations of a name with external linkage, those of the built-in headers counted.
fn fits_all(
    alloc: Global,
    sort: &Sort,
    name: &[u8],
    units: &[Left],
    tags: &TagTable,
) -> Result<bool, NoMemory>
    ensures { IfOk result (λ fits. Tells fits
        (AllOf (FitsSort (plain_tags tags.now) (plain_sort sort.now)) (spec.external_sorts (map (plain_unit 0) units.now) name.now))
        (IsApartFrom (plain_tags tags.now) (plain_sort sort.now) (spec.external_sorts (map (plain_unit 0) units.now) name.now))) }
{
    let built_in = built_in_sort(alloc, name)?;
    if !fits(alloc, sort, built_in.as_ref(), tags)? {
        return Ok(false);
    }
    let others = fits_units(alloc, sort, name, units, tags)?;
    Ok(others)
}

/// Whether what a built-in header declares a name as fits a sort.
fn built_in_fits(alloc: Global, name: &[u8], sort: &Sort, tags: &TagTable) -> Result<bool, NoMemory>
    ensures { IfOk result (λ fits. IsTrue fits ↔ IsFitting (plain_tags tags.now) (spec.built_in_sort name.now) (plain_sort sort.now)) }
{
    match built_in_sort(alloc, name)? {
        None => Ok(true),
        Some(built_in) => {
            let agree = sorts_agree(alloc, &built_in, sort, tags)?;
            Ok(agree)
        }
    }
}

/// Whether a sort and all declarations of a name with external linkage fit one another.
fn sort_fits(
    alloc: Global,
    sort: &Sort,
    name: &[u8],
    units: &[Left],
    tags: &TagTable,
) -> Result<bool, NoMemory>
    ensures { IfOk result (λ fits. Tells fits
        (FitsHere (plain_tags tags.now) (map (plain_unit 0) units.now) name.now (Some (plain_sort sort.now)))
        (IsApartHere (plain_tags tags.now) (map (plain_unit 0) units.now) name.now (Some (plain_sort sort.now)))) }
{
    if !built_in_fits(alloc, name, sort, tags)? {
        return Ok(false);
    }
    let others = fits_all(alloc, sort, name, units, tags)?;
    Ok(others)
}

/// Whether what a unit declares a name as fits all its declarations with external linkage.
fn declaration_fits(
    alloc: Global,
    unit: &Left,
    name: &[u8],
    units: &[Left],
    tags: &TagTable,
) -> Result<bool, NoMemory>
    ensures { IfOk result (λ fits. Tells fits
        (FitsHere (plain_tags tags.now) (map (plain_unit 0) units.now) name.now (spec.external_sort name.now (plain_unit 0 unit.now)))
        (IsApartOf (plain_tags tags.now) (map (plain_unit 0) units.now) (plain_unit 0 unit.now) name.now)) }
{
    match external_sort(unit, name) {
        None => Ok(true),
        Some(sort) => {
            let fits = sort_fits(alloc, sort, name, units, tags)?;
            Ok(fits)
        }
    }
}

/// Adds the names whose declaration in a unit doesn't fit the others.
fn add_incompatible<'a>(
    alloc: Global,
    units: &[Left],
    unit: &'a Left,
    tags: &TagTable,
    found: &mut Vec<&'a [u8]>,
) -> Result<(), NoMemory>
    ensures { IfOk result (λ done. Adds (IsApartOf (plain_tags tags.now) (map (plain_unit 0) units.now) (plain_unit 0 unit.now))
        (key_texts unit.now.names) (map (λ name. name.now) found.old.items) (map (λ name. name.now) found.new.items)) }
{
    for name in unit.names.keys() {
        if !declaration_fits(alloc, unit, name.as_slice(), units, tags)? {
            found.push(name.as_slice())?;
        }
    }
    Ok(())
}

/// The names with declarations that aren't compatible.
fn incompatible<'a>(
    alloc: Global,
    units: &'a [Left],
    tags: &TagTable,
) -> Result<Vec<&'a [u8]>, NoMemory>
    ensures { IfOk result (λ names.
        Finds (map (λ name. name.now) names.items) (AreApartNamed (plain_tags tags.now) (map (plain_unit 0) units.now))) }
{
    let mut found = Vec::new(alloc);
    for unit in units {
        add_incompatible(alloc, units, unit, tags, &mut found)?;
    }
    Ok(found)
}

/// The names with declarations that aren't compatible, with these structs.
pub fn incompatible_names<'a>(
    alloc: Global,
    units: &'a [Left],
    structs: &[Struct],
) -> Result<Vec<&'a [u8]>, NoMemory>
    ensures { IfOk result (λ names.
        Finds (map (λ name. name.now) names.items) (spec.IsFault (plain_units 0 units.now structs.now) link_kind.Incompatible)) }
{
    let tags = table(alloc, structs)?;
    let names = incompatible(alloc, units, &tags)?;
    Ok(names)
}
