//! Types and the structs that they are made of; operands whose types are made of those of others.
ghost use Rattle.std.specs.Prelude.{◌≡◌, IfOk};
ghost use Rattle.c_types.specs.Types.{plain_type};
ghost use Rattle.operand_rules.specs.PlainOperandTypes.{plain_category, plain_operand_type, judgement};
ghost use Rattle.operand_rules.specs.Rules as rule;

use crate::operands::{Category, Judged, OperandType};
use c_types::CType;
use cond_formula::NoMemory;
use plain_scope::copied;
use std::alloc::Global;

#[tactic(auto, using(c_types::specs::TypeLaws::type_kinds))]
fn has_struct(ty: &CType) -> bool
    ensures { result ≡ rule.has_struct (plain_type ty.now) }
{
    match ty {
        CType::Pointer(target) => has_struct(target),
        CType::Array(element, _) => has_struct(element),
        CType::Struct(_) => true,
        CType::Void
        | CType::Char
        | CType::UChar
        | CType::Int
        | CType::UInt
        | CType::Long
        | CType::ULong => false,
    }
}

/// An operand whose type is made of the struct of another operand or of none.
pub(crate) fn derived(o: &OperandType, ty: CType, category: Category) -> OperandType
    ensures { plain_operand_type result ≡ rule.derived (plain_operand_type o.now) (plain_type ty) (plain_category category) }
{
    let has_complete_struct = !has_struct(&ty) || o.has_complete_struct;
    OperandType {
        ty,
        category,
        is_null: false,
        has_complete_struct,
    }
}

/// A value of such a type.
pub(crate) fn value(o: &OperandType, ty: CType) -> Judged
    ensures { judgement result ≡ rule.given (plain_operand_type o.now) (plain_type ty) }
{
    Ok(derived(o, ty, Category::Value))
}

/// A value of the operand's own type, which isn't the null constant.
pub(crate) fn same_value(alloc: Global, o: &OperandType) -> Result<Judged, NoMemory>
    ensures { IfOk result (λ r. judgement r ≡ rule.given (plain_operand_type o.now) (plain_operand_type o.now).ty) }
{
    let ty = copied(alloc, &o.ty)?;
    Ok(value(o, ty))
}

/// Whether a type is complete if its struct is so.
#[tactic(auto, using(c_types::specs::TypeLaws::type_kinds))]
fn completes(complete: bool, ty: &CType) -> bool
    ensures { result ≡ rule.completes complete (plain_type ty.now) }
{
    match ty {
        CType::Void => false,
        CType::Struct(_) => complete,
        CType::Char
        | CType::UChar
        | CType::Int
        | CType::UInt
        | CType::Long
        | CType::ULong
        | CType::Pointer(_)
        | CType::Array(..) => true,
    }
}

#[tactic(auto, using(c_types::specs::TypeLaws::type_kinds))]
fn moves_over(complete: bool, ty: &CType) -> bool
    ensures { result ≡ rule.moves_over complete (plain_type ty.now) }
{
    match ty {
        CType::Void | CType::Array(..) => false,
        CType::Struct(_) => complete,
        CType::Char
        | CType::UChar
        | CType::Int
        | CType::UInt
        | CType::Long
        | CType::ULong
        | CType::Pointer(_) => true,
    }
}

/// Whether the operand's type is complete.
pub(crate) fn is_complete(o: &OperandType) -> bool
    ensures { result ≡ rule.completes (plain_operand_type o.now).has_complete_struct (plain_operand_type o.now).ty }
{
    completes(o.has_complete_struct, &o.ty)
}

/// Whether the operand is a pointer that may be moved: to a complete type that is no array.
#[tactic(auto, using(c_types::specs::TypeLaws::type_kinds))]
pub(crate) fn is_moved(o: &OperandType) -> bool
    ensures { result ≡ rule.moved (plain_operand_type o.now) }
{
    match &o.ty {
        CType::Pointer(target) => moves_over(o.has_complete_struct, target),
        CType::Void
        | CType::Char
        | CType::UChar
        | CType::Int
        | CType::UInt
        | CType::Long
        | CType::ULong
        | CType::Array(..)
        | CType::Struct(_) => false,
    }
}
