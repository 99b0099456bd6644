//! Where an object of file scope may be of a type (6.7, 6.9.2).
ghost use Rattle.std.specs.Prelude.{◌≡◌, ℕ, Bool, true, not, List, IfOk};
ghost use Rattle.cond_formula.specs.Features.{has};
ghost use Rattle.cond_formula.specs.Conditions.{condition_of, value};
ghost use Rattle.c_types.specs.Types.{plain_type, structure};
ghost use Rattle.core_meaning.specs.Expressions as expressions;
ghost use Rattle.plain_objects.specs.PlainStates.{plain_storage};
ghost use Rattle.type_tables.specs.Seen.{seen_tables};
ghost use Rattle.cond_units.specs.Definitions as spec;

use crate::following::Behind;
use c_types::CType;
use cond_formula::{Formula, NoMemory};
use conditional_steps::never;
use plain_objects::Storage;
use plain_scope::is_void;
use reduced_conditions::{either, without};
use std::alloc::Global;
use type_tables::Tables;

/// Where the struct with this number, which is declared, is completed behind a declaration.
fn where_struct_completed<B: Behind>(
    alloc: Global,
    tables: &Tables,
    behind: &B,
    number: u32,
) -> Result<Formula, NoMemory>
    ensures { IfOk result (λ f. (c : List Bool) → (seen_tables (has c) tables.now).declared number ≡ true
        → value (has c) (condition_of f) ≡ spec.is_completed_later (seen_tables (has c) tables.now) (structure number) (B.rest behind.now c)) }
{
    match tables.structs.get(number as usize) {
        Some(found) => behind.where_completed(alloc, &found.tag),
        None => never(),
    }
}

/// Where a type is a struct that is completed behind a declaration.
#[tactic(auto, using(c_types::specs::TypeLaws::type_kinds))]
fn where_completed_later<B: Behind>(
    alloc: Global,
    tables: &Tables,
    behind: &B,
    ty: &CType,
) -> Result<Formula, NoMemory>
    ensures { IfOk result (λ f. (c : List Bool) → ((number : ℕ) → plain_type ty.now ≡ structure number → (seen_tables (has c) tables.now).declared number ≡ true)
        → value (has c) (condition_of f) ≡ spec.is_completed_later (seen_tables (has c) tables.now) (plain_type ty.now) (B.rest behind.now c)) }
{
    match ty {
        CType::Struct(number) => where_struct_completed(alloc, tables, behind, *number),
        CType::Void
        | CType::Char
        | CType::UChar
        | CType::Int
        | CType::UInt
        | CType::Long
        | CType::ULong
        | CType::Pointer(_)
        | CType::Array(..) => never(),
    }
}

/// Everywhere, unless the type is `void`.
#[tactic(auto, using(cond_formula::specs::ConditionLaws::formula_kinds))]
fn unless_void(ty: &CType) -> Result<Formula, NoMemory>
    ensures { IfOk result (λ f. (on : ℕ → Bool) → value on (condition_of f) ≡ not (expressions.is_void (plain_type ty.now))) }
{
    if is_void(ty) {
        Ok(Formula::False)
    } else {
        Ok(Formula::True)
    }
}

/// Where an object that is declared so may be of a type that isn't complete.
fn where_may_be_incomplete<B: Behind>(
    alloc: Global,
    tables: &Tables,
    behind: &B,
    storage: Storage,
    initialised: bool,
    ty: &CType,
) -> Result<Formula, NoMemory>
    ensures { IfOk result (λ f. (c : List Bool) → ((number : ℕ) → plain_type ty.now ≡ structure number → (seen_tables (has c) tables.now).declared number ≡ true)
        → value (has c) (condition_of f) ≡ spec.may_be_incomplete (seen_tables (has c) tables.now) (plain_storage storage) initialised (plain_type ty.now) (B.rest behind.now c)) }
{
    if initialised {
        return never();
    }
    match storage {
        Storage::Static => never(),
        Storage::Extern => unless_void(ty),
        Storage::Absent => where_completed_later(alloc, tables, behind, ty),
    }
}

/// Where the type of an object that is declared so isn't complete though it must be, or is too big.
pub(crate) fn where_unfit<B: Behind>(
    alloc: Global,
    tables: &Tables,
    behind: &B,
    storage: Storage,
    initialised: bool,
    ty: &CType,
) -> Result<Formula, NoMemory>
    ensures { IfOk result (λ f. (c : List Bool) → ((number : ℕ) → plain_type ty.now ≡ structure number → (seen_tables (has c) tables.now).declared number ≡ true)
        → value (has c) (condition_of f) ≡ spec.is_unfit (seen_tables (has c) tables.now) (plain_storage storage) initialised (plain_type ty.now) (B.rest behind.now c)) }
{
    let complete = tables.where_complete(alloc, ty)?;
    let small = tables.where_small(alloc, ty)?;
    let too_big = without(alloc, complete.try_clone(alloc)?, &small)?;
    let allowed = where_may_be_incomplete(alloc, tables, behind, storage, initialised, ty)?;
    let lawful = either(alloc, complete, allowed)?;
    let missing = Formula::not(alloc, lawful)?;
    either(alloc, too_big, missing)
}
