//! The numbers of the names of each unit.
ghost use Rattle.std.specs.Prelude.{◌≡◌, ℕ, List, ◌++◌, ◌∷◌, [], true, false, IfOk, OnOk, map, codes, None};
ghost use Rattle.core_meaning.specs.Linking as spec;
ghost use Rattle.core_meaning.specs.Linking.{place_where, same_linked, or_zero};
ghost use Rattle.plain_scope.specs.PlainScope.{entry_of};
ghost use Rattle.plain_link.specs.PlainUnits.{plain_unit};
ghost use Rattle.plain_numbers.specs.PlainLinked.{plain_list, IsPlaced};
ghost use Rattle.plain_numbers.specs.Numbering.{IsListed, number_for, with_number, AreNumbered, UnitNumbered};

use crate::listing::{is_wanted, linked_in};
use crate::places::{Linked, Listing};
use cond_formula::NoMemory;
use plain_link::Left;
use plain_scope::Numbers;
use std::alloc::Global;
use std::collections::HashMap;

/// Puts the number of a unit's name beside others.
fn put_number(
    alloc: Global,
    listing: &Listing,
    index: usize,
    unit: &Left,
    name: &[u8],
    numbers: &mut HashMap<Vec<u8>, u32>,
) -> Result<(), NoMemory>
    requires { IsPlaced listing.now }
    ensures { OnOk result ((other : List ℕ) → entry_of numbers.new other
        ≡ with_number (place_where (same_linked (spec.linked_in index (plain_unit 0 unit.now) name.now)) (plain_list listing.now)) (entry_of numbers.old) name.now other) }
{
    let key = linked_in(alloc, index, unit, name)?;
    match listing.place(&key) {
        None => Ok(()),
        Some(number) => {
            numbers.insert(Vec::from_slice(alloc, name)?, number)?;
            Ok(())
        }
    }
}

/// Puts the number of a unit's name beside others if it is wanted.
fn add_number(
    alloc: Global,
    units: &[Left],
    functions: bool,
    index: usize,
    unit: &Left,
    listing: &Listing,
    name: &[u8],
    numbers: &mut HashMap<Vec<u8>, u32>,
) -> Result<(), NoMemory>
    requires { IsPlaced listing.now }
    ensures { OnOk result ((names : List (List ℕ)) →
        ((q : List ℕ) → entry_of numbers.old q ≡ number_for (plain_list listing.now) (map (plain_unit 0) units.now) functions index (plain_unit 0 unit.now) names q) →
        (q : List ℕ) → entry_of numbers.new q ≡ number_for (plain_list listing.now) (map (plain_unit 0) units.now) functions index (plain_unit 0 unit.now) (names ++ name.now ∷ []) q) }
{
    if !is_wanted(units, functions, unit, name) {
        return Ok(());
    }
    put_number(alloc, listing, index, unit, name, numbers)?;
    Ok(())
}

/// The numbers that a unit's names have among objects or among functions.
fn numbers_of(
    alloc: Global,
    units: &[Left],
    functions: bool,
    index: usize,
    unit: &Left,
    listing: &Listing,
) -> Result<HashMap<Vec<u8>, u32>, NoMemory>
    requires { IsPlaced listing.now }
    ensures { IfOk result (λ numbers. (name : List ℕ) → entry_of numbers name
        ≡ number_for (plain_list listing.now) (map (plain_unit 0) units.now) functions index (plain_unit 0 unit.now) (plain_unit 0 unit.now).order name) }
{
    let mut numbers = HashMap::new(alloc);
    for name in unit.order.iter() {
        add_number(
            alloc,
            units,
            functions,
            index,
            unit,
            listing,
            name.as_slice(),
            &mut numbers,
        )?;
    }
    Ok(numbers)
}

/// The numbers of a unit's names.
fn numbers_in(
    alloc: Global,
    units: &[Left],
    index: usize,
    unit: &Left,
    objects: &Listing,
    functions: &Listing,
) -> Result<Numbers, NoMemory>
    requires objects { IsListed objects.now (map (plain_unit 0) units.now) false }
    requires functions { IsListed functions.now (map (plain_unit 0) units.now) true }
    ensures { IfOk result (λ numbers. UnitNumbered (map (plain_unit 0) units.now) index numbers (plain_unit 0 unit.now)) }
{
    Ok(Numbers {
        globals: numbers_of(alloc, units, false, index, unit, objects)?,
        functions: numbers_of(alloc, units, true, index, unit, functions)?,
    })
}

/// The numbers of the names of each unit.
pub fn numbered(
    alloc: Global,
    units: &[Left],
    objects: &Listing,
    functions: &Listing,
) -> Result<Vec<Numbers>, NoMemory>
    requires objects { IsListed objects.now (map (plain_unit 0) units.now) false }
    requires functions { IsListed functions.now (map (plain_unit 0) units.now) true }
    ensures { IfOk result (λ numbers. AreNumbered (map (plain_unit 0) units.now) 0 numbers.items (map (plain_unit 0) units.now)) }
{
    let mut all = Vec::with_capacity(alloc, units.len())?;
    for (index, unit) in units.iter().enumerate() {
        all.push(numbers_in(alloc, units, index, unit, objects, functions)?)?;
    }
    Ok(all)
}

/// The number of the function that is called first (5.1.2.2.1).
pub fn main_number(alloc: Global, functions: &Listing) -> Result<u32, NoMemory>
    requires { IsPlaced functions.now }
    ensures { IfOk result (λ number. number ≡ or_zero (place_where (same_linked (record { name = codes "main"; unit = None })) (plain_list functions.now))) }
{
    let main = Linked {
        name: Vec::from_slice(alloc, b"main")?,
        unit: None,
    };
    match functions.place(&main) {
        None => Ok(0),
        Some(number) => Ok(number),
    }
}
