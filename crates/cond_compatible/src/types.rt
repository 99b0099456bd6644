//! Where two types agree but for structs that are alike.
ghost use Rattle.std.specs.Prelude.{◌≡◌, ℕ, Bool, IfOk};
ghost use Rattle.cond_formula.specs.Conditions.{condition_of, value};
ghost use Rattle.c_types.specs.Types.{plain_type, pointer_to, array_of, structure};
ghost use Rattle.cond_compatible.specs.Depths.{types_agree};
ghost use Rattle.cond_compatible.specs.SeenTags.{said_alike};

use crate::alike::{AlikeStructs, where_alike};
use c_types::CType;
use cond_formula::{Formula, NoMemory};
use plain_scope::same_type;
use std::alloc::Global;

#[tactic(auto, using(cond_formula::specs::ConditionLaws::formula_kinds))]
fn always_if(always: bool) -> Formula
    ensures { (on : ℕ → Bool) → value on (condition_of result) ≡ always }
{
    if always {
        Formula::True
    } else {
        Formula::False
    }
}

#[cycle(agree)]
#[tactic(auto, using(c_types::specs::TypeLaws::type_kinds, cond_formula::specs::ConditionLaws::formula_kinds))]
fn where_pointer_agrees(
    alloc: Global,
    alike: &AlikeStructs,
    target: &CType,
    b: &CType,
) -> Result<Formula, NoMemory>
    ensures { IfOk result (λ f. (on : ℕ → Bool) → value on (condition_of f) ≡ types_agree (said_alike on alike.now) (pointer_to (plain_type target.now)) (plain_type b.now)) }
{
    match b {
        CType::Pointer(other) => where_types_agree(alloc, alike, target, other),
        CType::Void
        | CType::Char
        | CType::UChar
        | CType::Int
        | CType::UInt
        | CType::Long
        | CType::ULong
        | CType::Array(..)
        | CType::Struct(_) => Ok(Formula::False),
    }
}

#[cycle(agree)]
#[tactic(auto, using(c_types::specs::TypeLaws::type_kinds, cond_formula::specs::ConditionLaws::formula_kinds))]
fn where_array_agrees(
    alloc: Global,
    alike: &AlikeStructs,
    element: &CType,
    count: u32,
    b: &CType,
) -> Result<Formula, NoMemory>
    ensures { IfOk result (λ f. (on : ℕ → Bool) → value on (condition_of f) ≡ types_agree (said_alike on alike.now) (array_of (plain_type element.now) count) (plain_type b.now)) }
{
    match b {
        CType::Array(other, other_count) => {
            if count == *other_count {
                where_types_agree(alloc, alike, element, other)
            } else {
                Ok(Formula::False)
            }
        }
        CType::Void
        | CType::Char
        | CType::UChar
        | CType::Int
        | CType::UInt
        | CType::Long
        | CType::ULong
        | CType::Pointer(_)
        | CType::Struct(_) => Ok(Formula::False),
    }
}

#[tactic(auto, using(c_types::specs::TypeLaws::type_kinds, cond_formula::specs::ConditionLaws::formula_kinds))]
fn where_struct_agrees(
    alloc: Global,
    alike: &AlikeStructs,
    number: u32,
    b: &CType,
) -> Result<Formula, NoMemory>
    ensures { IfOk result (λ f. (on : ℕ → Bool) → value on (condition_of f) ≡ types_agree (said_alike on alike.now) (structure number) (plain_type b.now)) }
{
    match b {
        CType::Struct(other) => where_alike(alloc, alike, number as usize, *other as usize),
        CType::Void
        | CType::Char
        | CType::UChar
        | CType::Int
        | CType::UInt
        | CType::Long
        | CType::ULong
        | CType::Pointer(_)
        | CType::Array(..) => Ok(Formula::False),
    }
}

/// Where two types are the same but for the structs in them, and these are alike.
#[cycle(agree)]
#[tactic(auto, using(c_types::specs::TypeLaws::type_kinds, cond_formula::specs::ConditionLaws::formula_kinds))]
pub fn where_types_agree(
    alloc: Global,
    alike: &AlikeStructs,
    a: &CType,
    b: &CType,
) -> Result<Formula, NoMemory>
    ensures { IfOk result (λ f. (on : ℕ → Bool) → value on (condition_of f) ≡ types_agree (said_alike on alike.now) (plain_type a.now) (plain_type b.now)) }
{
    match a {
        CType::Pointer(target) => where_pointer_agrees(alloc, alike, target, b),
        CType::Array(element, count) => where_array_agrees(alloc, alike, element, *count, b),
        CType::Struct(number) => where_struct_agrees(alloc, alike, *number, b),
        CType::Void
        | CType::Char
        | CType::UChar
        | CType::Int
        | CType::UInt
        | CType::Long
        | CType::ULong => Ok(always_if(same_type(a, b))),
    }
}
