//! The names of objects or of functions in the order of their first declarations.
ghost use Rattle.std.specs.Prelude.{◌≡◌, if◌then◌else◌, Some, None, IfOk, IfErr, OnOk, map};
ghost use Rattle.core_meaning.specs.Linking as spec;
ghost use Rattle.plain_link.specs.PlainUnits.{plain_unit};
ghost use Rattle.plain_numbers.specs.PlainLinked.{plain_linked, plain_list, IsPlaced};
ghost use Rattle.plain_numbers.specs.Numbering.{IsListed, wanted_in};

use crate::places::{Linked, Listing};
use cond_formula::NoMemory;
use plain_link::{Left, is_available};
use plain_scope::{ElabError, Sort};
use std::alloc::Global;

fn is_of_sort(functions: bool, unit: &Left, name: &[u8]) -> bool
    ensures { result ≡ spec.is_of_sort functions ((plain_unit 0 unit.now).names name.now) }
{
    match unit.names.get(name) {
        None => false,
        Some(found) => match &found.sort {
            Sort::Variable(_) => !functions,
            Sort::Function(_) => functions,
        },
    }
}

/// Whether a unit's name has a number among those of objects or of functions: one that is defined, or a function that is built in.
pub fn is_wanted(units: &[Left], functions: bool, unit: &Left, name: &[u8]) -> bool
    ensures { result ≡ spec.is_wanted (map (plain_unit 0) units.now) functions (plain_unit 0 unit.now) name.now }
{
    is_of_sort(functions, unit, name) && is_available(units, unit, name)
}

fn unit_number(index: usize, internal: bool) -> Option<usize>
    ensures { result ≡ (if internal then Some index else None) }
{
    if internal { Some(index) } else { None }
}

/// A unit's name with its linkage.
pub fn linked_in(alloc: Global, index: usize, unit: &Left, name: &[u8]) -> Result<Linked, NoMemory>
    ensures { IfOk result (λ linked. plain_linked linked ≡ spec.linked_in index (plain_unit 0 unit.now) name.now) }
{
    Ok(Linked {
        name: Vec::from_slice(alloc, name)?,
        unit: unit_number(index, unit.is_internal(name)),
    })
}

/// Adds a unit's names.
fn add_unit(
    alloc: Global,
    units: &[Left],
    functions: bool,
    index: usize,
    unit: &Left,
    listing: &mut Listing,
) -> Result<(), ElabError>
    requires { IsPlaced listing.old }
    ensures placed { OnOk result (IsPlaced listing.new) }
    ensures list { OnOk result (plain_list listing.new
        ≡ spec.each_once (plain_list listing.old) (wanted_in (map (plain_unit 0) units.now) functions index (plain_unit 0 unit.now) (plain_unit 0 unit.now).order)) }
    ensures memory { IfErr result (λ error. error ≡ ElabError.Memory) }
{
    for name in unit.order.iter() {
        if is_wanted(units, functions, unit, name.as_slice()) {
            listing.add(alloc, linked_in(alloc, index, unit, name.as_slice())?)?;
        }
    }
    Ok(())
}

/// The names of all objects or of all functions.
pub fn listed(alloc: Global, units: &[Left], functions: bool) -> Result<Listing, ElabError>
    ensures list { IfOk result (λ listing. IsListed listing (map (plain_unit 0) units.now) functions) }
    ensures memory { IfErr result (λ error. error ≡ ElabError.Memory) }
{
    let mut listing = Listing::new(alloc);
    for (index, unit) in units.iter().enumerate() {
        add_unit(alloc, units, functions, index, unit, &mut listing)?;
    }
    Ok(listing)
}
