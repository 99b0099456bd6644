//! The parts that a list in braces is for, by the numbers of their types.
ghost use Rattle.std.specs.Prelude.{◌≡◌, ℕ, Bool, replicate, Some, slice_get, IfOk, IfSome, OnOk};
ghost use Rattle.c_types.specs.Types.{plain_type};
ghost use Rattle.type_tables.specs.Seen.{seen_tables};
ghost use Rattle.cond_initialisers.specs.Refusals.{members_in};
ghost use Rattle.cond_initialisers.specs.Rows.{plain_types, numbers};
ghost use Rattle.cond_initialisers.specs.Places.{Extends, AreNumbered};

use c_types::CType;
use cond_formula::{Formula, NoMemory};
use conditional::Guarded;
use plain_scope::{copied, same_type};
use reduced_conditions::both;
use std::alloc::Global;
use type_tables::{CondStruct, Tables};

/// So many parts of the first type.
pub(crate) fn repeated(alloc: Global, count: u32) -> Result<Vec<Guarded<u32>>, NoMemory>
    ensures { IfOk result (λ parts. (on : ℕ → Bool) → numbers on parts.items ≡ replicate count 0) }
{
    let mut parts = Vec::new(alloc);
    for _ in 0..count {
        parts.push(Guarded {
            when: Formula::True,
            what: 0,
        })?;
    }
    Ok(parts)
}

/// The place of a type among these.
fn place_of(types: &[CType], ty: &CType) -> Option<usize>
    ensures { IfSome result (λ n. slice_get (plain_types types.now) n ≡ Some (plain_type ty.now)) }
{
    for (n, other) in types.iter().enumerate() {
        if same_type(other, ty) {
            return Some(n);
        }
    }
    None
}

/// The number of a type among these, to which it is added where it isn't one of them.
fn number_of(alloc: Global, types: &mut Vec<CType>, ty: &CType) -> Result<u32, NoMemory>
    ensures number { IfOk result (λ n. slice_get (plain_types types.new.items) n ≡ Some (plain_type ty.now)) }
    ensures extends { OnOk result (Extends (plain_types types.old.items) (plain_types types.new.items)) }
{
    if let Some(n) = place_of(types, ty) {
        return number(n);
    }
    let n = number(types.len())?;
    types.push(copied(alloc, ty)?)?;
    Ok(n)
}

fn number(n: usize) -> Result<u32, NoMemory>
    ensures { IfOk result (λ number. number ≡ n) }
{
    let number = u32::try_from(n).map_err(|_| std::alloc::AllocError)?;
    Ok(number)
}

/// The members of a struct where it is complete.
fn members(
    alloc: Global,
    s: &CondStruct,
    types: &mut Vec<CType>,
) -> Result<Vec<Guarded<u32>>, NoMemory>
    ensures { IfOk result (λ parts. (on : ℕ → Bool) → AreNumbered (plain_types types.new.items) (numbers on parts.items) (Rattle.cond_initialisers.specs.Places.members_of on s.now)) }
{
    let mut parts = Vec::new(alloc);
    for member in &s.members.entries {
        let what = number_of(alloc, types, &member.what.ty)?;
        let complete = s.complete.try_clone(alloc)?;
        let when = both(alloc, member.when.try_clone(alloc)?, complete)?;
        parts.push(Guarded { when, what })?;
    }
    Ok(parts)
}

/// The members of the struct with this number where it is complete, and their types.
pub(crate) fn members_of(
    alloc: Global,
    tables: &Tables,
    structure: u32,
    types: &mut Vec<CType>,
) -> Result<Vec<Guarded<u32>>, NoMemory>
    ensures { IfOk result (λ parts. (on : ℕ → Bool) → AreNumbered (plain_types types.new.items) (numbers on parts.items) (members_in (seen_tables on tables.now) structure)) }
{
    match tables.structs.get(structure as usize) {
        Some(s) => members(alloc, s, types),
        None => Ok(Vec::new(alloc)),
    }
}
