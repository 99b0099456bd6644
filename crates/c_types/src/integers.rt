//! The values of the integer types, and conversions to them (6.3.1.3).
ghost use Rattle.std.specs.Prelude.{◌≡◌, ◌≤◌, ◌^◌, ◌<ℤ◌, ◌≤ℤ◌, pos, negsuc, IsTrue};
ghost use Rattle.c_types.specs.Types.{plain_type};
ghost use Rattle.c_types.specs.Integers as spec;

use crate::types::CType;

/// How many bits the values of an integer type have; of another type 0.
#[tactic(auto, using(crate::specs::TypeLaws::type_kinds))]
pub fn width(ty: &CType) -> u32
    ensures exact { result ≡ spec.width (plain_type ty.now) }
    ensures bound { result ≤ 64 }
{
    match ty {
        CType::Char | CType::UChar => 8,
        CType::Int | CType::UInt => 32,
        CType::Long | CType::ULong => 64,
        CType::Void | CType::Pointer(_) | CType::Array(_, _) | CType::Struct(_) => 0,
    }
}

#[tactic(auto, using(crate::specs::TypeLaws::type_kinds))]
pub fn is_signed(ty: &CType) -> bool
    ensures { result ≡ spec.is_signed (plain_type ty.now) }
{
    match ty {
        CType::Char | CType::Int | CType::Long => true,
        CType::Void
        | CType::UChar
        | CType::UInt
        | CType::ULong
        | CType::Pointer(_)
        | CType::Array(_, _)
        | CType::Struct(_) => false,
    }
}

#[tactic(auto, using(crate::specs::TypeLaws::type_kinds))]
fn least(ty: &CType) -> i128
    ensures exact { result ≡ spec.least (plain_type ty.now) }
{
    match ty {
        CType::Char => -0x80,
        CType::Int => -0x8000_0000,
        CType::Long => -0x8000_0000_0000_0000,
        CType::Void
        | CType::UChar
        | CType::UInt
        | CType::ULong
        | CType::Pointer(_)
        | CType::Array(_, _)
        | CType::Struct(_) => 0,
    }
}

#[tactic(auto, using(crate::specs::TypeLaws::type_kinds))]
fn largest(ty: &CType) -> i128
    ensures exact { result ≡ spec.largest (plain_type ty.now) }
{
    match ty {
        CType::Char => 0x7f,
        CType::UChar => 0xff,
        CType::Int => 0x7fff_ffff,
        CType::UInt => 0xffff_ffff,
        CType::Long => 0x7fff_ffff_ffff_ffff,
        CType::ULong => 0xffff_ffff_ffff_ffff,
        CType::Void | CType::Pointer(_) | CType::Array(_, _) | CType::Struct(_) => 0,
    }
}

/// How many values an integer type has; of another type 1.
#[tactic(auto, using(crate::specs::TypeLaws::type_kinds))]
pub fn modulus(ty: &CType) -> i128
    ensures exact { result ≡ spec.modulus (plain_type ty.now) }
    ensures positive { pos 1 ≤ℤ result }
    ensures bound { result ≤ℤ pos (2 ^ 64) }
{
    match ty {
        CType::Char | CType::UChar => 0x100,
        CType::Int | CType::UInt => 0x1_0000_0000,
        CType::Long | CType::ULong => 0x1_0000_0000_0000_0000,
        CType::Void | CType::Pointer(_) | CType::Array(_, _) | CType::Struct(_) => 1,
    }
}

pub fn is_in_range(ty: &CType, value: i128) -> bool
    ensures { result ≡ spec.is_in_range (plain_type ty.now) value }
{
    least(ty) <= value && value <= largest(ty)
}

pub fn remainder(ty: &CType, value: i128) -> i128
    ensures exact { result ≡ spec.remainder (plain_type ty.now) value }
    ensures least { pos 0 ≤ℤ result }
    ensures bound { result <ℤ pos (2 ^ 64) }
{
    value.rem_euclid(modulus(ty))
}

/// The value of an integer type that differs from a number by a multiple of 2 to the type's width (6.3.1.3; that a signed type
/// takes it is this project's choice).
pub fn convert(to: &CType, v: i128) -> i128
    requires { IsTrue (spec.is_integer (plain_type to.now)) }
    ensures { result ≡ spec.converted (plain_type to.now) v }
{
    let value = remainder(to, v);
    if value <= largest(to) {
        value
    } else {
        value - modulus(to)
    }
}
