//! The units that define names.
ghost use Rattle.std.specs.Prelude.{◌≡◌, if◌then◌else◌, Some, None, IfOk, option_map, map};
ghost use Rattle.c_types.specs.Types.{plain_type};
ghost use Rattle.core_meaning.specs.Linking as spec;
ghost use Rattle.plain_link.specs.PlainUnits.{plain_unit};
ghost use Rattle.plain_numbers.specs.PlainLinked.{plain_linked};
ghost use Rattle.plain_program.specs.Owners.{owner_from, key_in, unit_in, type_at};

use c_types::CType;
use cond_formula::NoMemory;
use plain_link::Left;
use plain_numbers::Linked;
use plain_scope::{Sort, copied};
use std::alloc::Global;

fn is_unit(number: Option<usize>, index: usize, internal: bool) -> bool
    ensures { result ≡ spec.same_unit number (if internal then Some index else None) }
{
    match number {
        None => !internal,
        Some(number) => internal && number == index,
    }
}

/// Whether a unit defines a name with this linkage.
fn defines_linked(name: &Linked, index: usize, unit: &Left) -> bool
    ensures { result ≡ spec.defines_linked (plain_linked name.now) index (plain_unit 0 unit.now) }
{
    is_unit(name.unit, index, unit.is_internal(name.name.as_slice()))
        && unit.defines(name.name.as_slice())
}

/// The first unit that defines a name.
fn owner(units: &[Left], name: &Linked) -> Option<usize>
    ensures { result ≡ owner_from (plain_linked name.now) 0 (map (plain_unit 0) units.now) }
{
    for (index, unit) in units.iter().enumerate() {
        if defines_linked(name, index, unit) {
            return Some(index);
        }
    }
    None
}

/// A name under the number of the unit that defines it.
fn key_of(alloc: Global, units: &[Left], name: &Linked) -> Result<Linked, NoMemory>
    ensures { IfOk result (λ key. plain_linked key ≡ key_in (map (plain_unit 0) units.now) (plain_linked name.now)) }
{
    Ok(Linked {
        name: Vec::from_slice(alloc, name.name.as_slice())?,
        unit: owner(units, name),
    })
}

/// Names under the numbers of the units that define them.
pub fn keys_of(alloc: Global, units: &[Left], names: &[Linked]) -> Result<Vec<Linked>, NoMemory>
    ensures { IfOk result (λ keys. map plain_linked keys.items ≡ map (key_in (map (plain_unit 0) units.now)) (map plain_linked names.now)) }
{
    let mut keys = Vec::with_capacity(alloc, names.len())?;
    for name in names {
        keys.push(key_of(alloc, units, name)?)?;
    }
    Ok(keys)
}

/// The type that a unit declares a name with, if that is an object.
#[tactic(auto, using(c_types::specs::TypeLaws::type_kinds))]
fn type_in(alloc: Global, unit: &Left, name: &[u8]) -> Result<CType, NoMemory>
    ensures { IfOk result (λ ty. plain_type ty ≡ spec.type_of_sort (spec.sort_in (plain_unit 0 unit.now) name.now)) }
{
    match unit.names.get(name) {
        None => Ok(CType::Void),
        Some(found) => match &found.sort {
            Sort::Variable(ty) => {
                let copy = copied(alloc, ty)?;
                Ok(copy)
            }
            Sort::Function(_) => Ok(CType::Void),
        },
    }
}

fn unit_at(units: &[Left], number: Option<usize>) -> Option<&Left>
    ensures { option_map (λ unit. plain_unit 0 unit.now) result ≡ unit_in (map (plain_unit 0) units.now) number }
{
    match number {
        None => None,
        Some(index) => units.get(index),
    }
}

/// The type of a name in the unit that defines it.
#[tactic(auto, using(c_types::specs::TypeLaws::type_kinds))]
fn type_of(alloc: Global, units: &[Left], key: &Linked) -> Result<CType, NoMemory>
    ensures { IfOk result (λ ty. plain_type ty ≡ type_at (map (plain_unit 0) units.now) (plain_linked key.now)) }
{
    match unit_at(units, key.unit) {
        None => Ok(CType::Void),
        Some(unit) => {
            let ty = type_in(alloc, unit, key.name.as_slice())?;
            Ok(ty)
        }
    }
}

/// The types of names in the units that define them.
pub fn types_of(alloc: Global, units: &[Left], keys: &[Linked]) -> Result<Vec<CType>, NoMemory>
    ensures { IfOk result (λ types. map plain_type types.items ≡ map (λ key. type_at (map (plain_unit 0) units.now) (plain_linked key)) keys.now) }
{
    let mut types = Vec::with_capacity(alloc, keys.len())?;
    for key in keys {
        types.push(type_of(alloc, units, key)?)?;
    }
    Ok(types)
}
