//! Types of operands (6.3).
ghost use Rattle.std.specs.Prelude.{◌≡◌, true, IfOk};
ghost use Rattle.c_types.specs.Types.{plain_type, pointer_to, array_of, structure};
ghost use Rattle.c_types.specs.Integers as integer;
ghost use Rattle.core_meaning.specs.Program as program;
ghost use Rattle.core_meaning.specs.Typing as spec;
ghost use Rattle.core_meaning.specs.Expressions as expressions;
ghost use Rattle.plain_scope.specs.PlainScope.{plain_scope};
ghost use Rattle.plain_scope.specs.PlainTypes.{kind_number, is_basic};

use crate::entities::{Scope, copied};
use c_types::CType;
use cond_formula::NoMemory;
use core_meaning::IntegerType;
use std::alloc::Global;

#[tactic(auto, using(c_types::specs::TypeLaws::type_kinds))]
pub fn is_integer(ty: &CType) -> bool
    ensures { result ≡ integer.is_integer (plain_type ty.now) }
{
    match ty {
        CType::Char | CType::UChar | CType::Int | CType::UInt | CType::Long | CType::ULong => true,
        CType::Void | CType::Pointer(_) | CType::Array(..) | CType::Struct(_) => false,
    }
}

/// An integer type as the core program has it; another type as `int`.
#[tactic(auto, using(c_types::specs::TypeLaws::type_kinds))]
pub fn integer_type(ty: &CType) -> IntegerType
    ensures { result ≡ spec.integer_type (plain_type ty.now) }
{
    match ty {
        CType::Char => IntegerType::Char,
        CType::UChar => IntegerType::UnsignedChar,
        CType::UInt => IntegerType::UnsignedInt,
        CType::Long => IntegerType::Long,
        CType::ULong => IntegerType::UnsignedLong,
        CType::Void | CType::Int | CType::Pointer(_) | CType::Array(..) | CType::Struct(_) =>
            IntegerType::Int,
    }
}

#[tactic(auto, using(c_types::specs::TypeLaws::type_kinds))]
pub fn type_of(ty: IntegerType) -> CType
    ensures { plain_type result ≡ program.type_of ty }
{
    match ty {
        IntegerType::Char => CType::Char,
        IntegerType::UnsignedChar => CType::UChar,
        IntegerType::Int => CType::Int,
        IntegerType::UnsignedInt => CType::UInt,
        IntegerType::Long => CType::Long,
        IntegerType::UnsignedLong => CType::ULong,
    }
}

/// The integer promotions (6.3.1.1).
#[tactic(auto, using(c_types::specs::TypeLaws::type_kinds))]
pub fn promoted(ty: &CType) -> IntegerType
    ensures { result ≡ spec.integer_type (spec.promoted (plain_type ty.now)) }
{
    match ty {
        CType::UInt => IntegerType::UnsignedInt,
        CType::Long => IntegerType::Long,
        CType::ULong => IntegerType::UnsignedLong,
        CType::Void
        | CType::Char
        | CType::UChar
        | CType::Int
        | CType::Pointer(_)
        | CType::Array(..)
        | CType::Struct(_) => IntegerType::Int,
    }
}

#[tactic(auto, using(c_types::specs::TypeLaws::type_kinds))]
fn rank(ty: &CType) -> u8
    ensures { result ≡ spec.rank (spec.promoted (plain_type ty.now)) }
{
    match ty {
        CType::UInt => 1,
        CType::Long => 2,
        CType::ULong => 3,
        CType::Void
        | CType::Char
        | CType::UChar
        | CType::Int
        | CType::Pointer(_)
        | CType::Array(..)
        | CType::Struct(_) => 0,
    }
}

/// The type to which two arithmetic operands are converted (6.3.1.8).
pub fn common(a: &CType, b: &CType) -> IntegerType
    ensures { result ≡ spec.integer_type (spec.common (plain_type a.now) (plain_type b.now)) }
{
    if rank(a) <= rank(b) {
        promoted(b)
    } else {
        promoted(a)
    }
}

/// A copy of a type that is no `char`, and `int` for that.
#[tactic(auto, using(c_types::specs::TypeLaws::type_kinds))]
pub fn promoted_type(alloc: Global, ty: &CType) -> Result<CType, NoMemory>
    ensures { IfOk result (λ p. plain_type p ≡ spec.promoted (plain_type ty.now)) }
{
    match ty {
        CType::Char | CType::UChar => Ok(CType::Int),
        CType::Void
        | CType::Int
        | CType::UInt
        | CType::Long
        | CType::ULong
        | CType::Pointer(_)
        | CType::Array(..)
        | CType::Struct(_) => copied(alloc, ty),
    }
}

pub fn common_type(alloc: Global, a: &CType, b: &CType) -> Result<CType, NoMemory>
    ensures { IfOk result (λ c. plain_type c ≡ spec.common (plain_type a.now) (plain_type b.now)) }
{
    if rank(a) <= rank(b) {
        promoted_type(alloc, b)
    } else {
        promoted_type(alloc, a)
    }
}

/// A number for each kind of type.
#[tactic(auto, using(c_types::specs::TypeLaws::type_kinds))]
fn kind(ty: &CType) -> u8
    ensures { result ≡ kind_number (plain_type ty.now) }
{
    match ty {
        CType::Void => 0,
        CType::Char => 1,
        CType::UChar => 2,
        CType::Int => 3,
        CType::UInt => 4,
        CType::Long => 5,
        CType::ULong => 6,
        CType::Pointer(_) => 7,
        CType::Array(..) => 8,
        CType::Struct(_) => 9,
    }
}

#[tactic(auto, using(crate::proofs::TypeFacts::same_basic))]
fn same_basic(a: &CType, b: &CType) -> bool
    requires { is_basic (plain_type a.now) ≡ true }
    ensures { result ≡ spec.same_type (plain_type a.now) (plain_type b.now) }
{
    kind(a) == kind(b)
}

#[cycle(same)]
#[tactic(auto, using(c_types::specs::TypeLaws::type_kinds))]
fn same_pointer(target: &CType, b: &CType) -> bool
    ensures { result ≡ spec.same_type (pointer_to (plain_type target.now)) (plain_type b.now) }
{
    match b {
        CType::Pointer(other) => same_type(target, other),
        CType::Void
        | CType::Char
        | CType::UChar
        | CType::Int
        | CType::UInt
        | CType::Long
        | CType::ULong
        | CType::Array(..)
        | CType::Struct(_) => false,
    }
}

#[cycle(same)]
#[tactic(auto, using(c_types::specs::TypeLaws::type_kinds))]
fn same_array(element: &CType, count: u32, b: &CType) -> bool
    ensures { result ≡ spec.same_type (array_of (plain_type element.now) count) (plain_type b.now) }
{
    match b {
        CType::Array(other, other_count) => count == *other_count && same_type(element, other),
        CType::Void
        | CType::Char
        | CType::UChar
        | CType::Int
        | CType::UInt
        | CType::Long
        | CType::ULong
        | CType::Pointer(_)
        | CType::Struct(_) => false,
    }
}

#[tactic(auto, using(c_types::specs::TypeLaws::type_kinds))]
fn same_struct(number: u32, b: &CType) -> bool
    ensures { result ≡ spec.same_type (structure number) (plain_type b.now) }
{
    match b {
        CType::Struct(other) => number == *other,
        CType::Void
        | CType::Char
        | CType::UChar
        | CType::Int
        | CType::UInt
        | CType::Long
        | CType::ULong
        | CType::Pointer(_)
        | CType::Array(..) => false,
    }
}

#[cycle(same)]
#[tactic(auto, using(c_types::specs::TypeLaws::type_kinds))]
pub fn same_type(a: &CType, b: &CType) -> bool
    ensures { result ≡ spec.same_type (plain_type a.now) (plain_type b.now) }
{
    match a {
        CType::Pointer(target) => same_pointer(target, b),
        CType::Array(element, count) => same_array(element, *count, b),
        CType::Struct(number) => same_struct(*number, b),
        CType::Void
        | CType::Char
        | CType::UChar
        | CType::Int
        | CType::UInt
        | CType::Long
        | CType::ULong => same_basic(a, b),
    }
}

pub fn is_void(ty: &CType) -> bool
    ensures { result ≡ expressions.is_void (plain_type ty.now) }
{
    kind(ty) == 0
}

pub fn is_struct(ty: &CType) -> bool
    ensures { result ≡ spec.is_struct (plain_type ty.now) }
{
    kind(ty) == 9
}

pub fn is_any_pointer(ty: &CType) -> bool
    ensures { result ≡ expressions.is_any_pointer (plain_type ty.now) }
{
    kind(ty) == 7
}

pub fn is_array(ty: &CType) -> bool
    ensures { result ≡ spec.is_pointer_to_array (pointer_to (plain_type ty.now)) }
{
    kind(ty) == 8
}

/// A pointer that isn't one to an array, which `&` alone makes.
#[tactic(auto, using(c_types::specs::TypeLaws::type_kinds))]
pub fn is_pointer(ty: &CType) -> bool
    ensures { result ≡ spec.is_pointer (plain_type ty.now) }
{
    match ty {
        CType::Pointer(target) => !is_array(target),
        CType::Void
        | CType::Char
        | CType::UChar
        | CType::Int
        | CType::UInt
        | CType::Long
        | CType::ULong
        | CType::Array(..)
        | CType::Struct(_) => false,
    }
}

pub fn is_scalar(ty: &CType) -> bool
    ensures { result ≡ spec.is_scalar_type (plain_type ty.now) }
{
    is_integer(ty) || is_pointer(ty)
}

fn is_target(scope: &Scope, ty: &CType) -> bool
    ensures { result ≡ spec.is_movable (plain_scope scope.now).structs (pointer_to (plain_type ty.now)) }
{
    !is_array(ty) && scope.is_complete(ty)
}

/// A pointer that may be moved: to a complete type that is no array.
#[tactic(auto, using(c_types::specs::TypeLaws::type_kinds))]
pub fn is_movable(scope: &Scope, ty: &CType) -> bool
    ensures { result ≡ spec.is_movable (plain_scope scope.now).structs (plain_type ty.now) }
{
    match ty {
        CType::Pointer(target) => is_target(scope, target),
        CType::Void
        | CType::Char
        | CType::UChar
        | CType::Int
        | CType::UInt
        | CType::Long
        | CType::ULong
        | CType::Array(..)
        | CType::Struct(_) => false,
    }
}

#[tactic(auto, using(c_types::specs::TypeLaws::type_kinds))]
pub fn may_be_assigned(ty: &CType) -> bool
    ensures { result ≡ expressions.may_be_assigned (plain_type ty.now) }
{
    match ty {
        CType::Void | CType::Array(..) => false,
        CType::Char
        | CType::UChar
        | CType::Int
        | CType::UInt
        | CType::Long
        | CType::ULong
        | CType::Pointer(_)
        | CType::Struct(_) => true,
    }
}
