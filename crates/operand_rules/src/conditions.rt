//! Whether the value of an operand may be a condition (6.5.15, 6.8.4), and whether it fits a type (6.5.16.1).
ghost use Rattle.std.specs.Prelude.{◌≡◌, false};
ghost use Rattle.c_text.specs.Token.{PlainToken};
ghost use Rattle.c_types.specs.Types.{plain_type, pointer_to};
ghost use Rattle.operand_types.specs.Operators.{tested_type, fitted_type};
ghost use Rattle.operand_rules.specs.PlainOperandTypes.{plain_operand_type, accepted};
ghost use Rattle.operand_rules.specs.Rules as rule;

use crate::operands::{Category, OperandType};
use c_types::CType;
use plain_scope::{is_array, is_integer, is_pointer, is_scalar, is_struct, same_type};

#[tactic(auto, using(c_types::specs::TypeLaws::type_kinds))]
fn tests_object(ty: &CType) -> bool
    ensures { result ≡ rule.tests_object (plain_type ty.now) }
{
    match ty {
        CType::Array(element, _) => !is_array(element),
        CType::Void
        | CType::Char
        | CType::UChar
        | CType::Int
        | CType::UInt
        | CType::Long
        | CType::ULong
        | CType::Pointer(_)
        | CType::Struct(_) => is_scalar(ty),
    }
}

fn tests(o: &OperandType) -> bool
    ensures { result ≡ rule.tests_as (plain_operand_type o.now).category (plain_operand_type o.now).ty }
{
    match o.category {
        Category::Value => is_scalar(&o.ty),
        Category::Object(_) => tests_object(&o.ty),
    }
}

/// Whether the operand may be a condition: whether its value is a scalar.
pub fn tested(o: &OperandType) -> bool
    ensures { (first : PlainToken) → accepted result ≡ tested_type first (plain_operand_type o.now) }
{
    tests(o)
}

/// Whether a value of a type may be assigned as one of another, which comes first.
pub(crate) fn fits(ty: &CType, x: &CType, is_null: bool) -> bool
    ensures { result ≡ rule.fits (plain_type ty.now) (plain_type x.now) is_null }
{
    is_integer(ty) && is_integer(x)
        || is_pointer(ty) && is_null
        || (is_pointer(ty) || is_struct(ty)) && same_type(ty, x)
}

/// The same of a pointer to an element.
#[tactic(auto, using(c_types::specs::TypeLaws::type_kinds))]
fn fits_pointer(ty: &CType, element: &CType) -> bool
    ensures { result ≡ rule.fits (plain_type ty.now) (pointer_to (plain_type element.now)) false }
{
    match ty {
        CType::Pointer(target) => !is_array(target) && same_type(target, element),
        CType::Void
        | CType::Char
        | CType::UChar
        | CType::Int
        | CType::UInt
        | CType::Long
        | CType::ULong
        | CType::Array(..)
        | CType::Struct(_) => false,
    }
}

#[tactic(auto, using(c_types::specs::TypeLaws::type_kinds))]
fn fits_object(ty: &CType, o: &OperandType) -> bool
    ensures { result ≡ rule.fits_object (plain_type ty.now) (plain_operand_type o.now).has_complete_struct (plain_operand_type o.now).ty }
{
    match &o.ty {
        CType::Array(element, _) => fits_pointer(ty, element),
        CType::Struct(_) => o.has_complete_struct && fits(ty, &o.ty, false),
        CType::Void
        | CType::Char
        | CType::UChar
        | CType::Int
        | CType::UInt
        | CType::Long
        | CType::ULong
        | CType::Pointer(_) => fits(ty, &o.ty, false),
    }
}

fn fits_as(ty: &CType, o: &OperandType) -> bool
    ensures { result ≡ rule.fits_as (plain_type ty.now) (plain_operand_type o.now) (plain_operand_type o.now).category }
{
    match o.category {
        Category::Value => fits(ty, &o.ty, o.is_null),
        Category::Object(_) => fits_object(ty, o),
    }
}

/// Whether the operand's value fits the type: whether it may be assigned, passed or returned as one of it.
pub fn fitted(ty: &CType, o: &OperandType) -> bool
    ensures { (first : PlainToken) → accepted result ≡ fitted_type first (plain_type ty.now) (plain_operand_type o.now) }
{
    fits_as(ty, o)
}
