//! The names of file scope that the expressions of units use.
ghost use Rattle.std.specs.Prelude.{◌≡◌, map, IfOk};
ghost use Rattle.cond_bindings.specs.Bindings.{plain_use};
ghost use Rattle.cond_types.specs.Uses.{uses_of_place};

use cond_bindings::{FileUse, UnitBindings};
use cond_formula::NoMemory;
use std::alloc::Global;

/// The same uses.
fn copied(alloc: Global, uses: &[FileUse]) -> Result<Vec<FileUse>, NoMemory>
    ensures { IfOk result (λ copies. map plain_use copies.items ≡ map plain_use uses.now) }
{
    let mut copies = Vec::with_capacity(alloc, uses.len())?;
    for found in uses {
        copies.push(FileUse {
            name: Vec::from_slice(alloc, &found.name)?,
            when: found.when.try_clone(alloc)?,
        })?;
    }
    Ok(copies)
}

/// The uses of the unit at a place; none where there is no unit.
pub(crate) fn uses_at(
    alloc: Global,
    bound: &[UnitBindings],
    place: usize,
) -> Result<Vec<FileUse>, NoMemory>
    ensures { IfOk result (λ uses. map plain_use uses.items ≡ uses_of_place bound.now place) }
{
    match bound.get(place) {
        Some(unit) => copied(alloc, &unit.uses),
        None => Ok(Vec::new(alloc)),
    }
}
