//! Values of operands (6.3.2.1).
ghost use Rattle.std.specs.Prelude.{◌≡◌, IfOk, if◌then◌else◌};
ghost use Rattle.c_text.specs.Token.{PlainToken};
ghost use Rattle.c_types.specs.Types.{plain_type, pointer_to};
ghost use Rattle.conditional.specs.Judgements.{refused};
ghost use Rattle.operand_types.specs.Operators.{loaded_type};
ghost use Rattle.operand_rules.specs.PlainOperandTypes.{plain_operand_type, judgement};
ghost use Rattle.operand_rules.specs.Rules as rule;

use crate::operands::{Category, Judged, OperandType, Refused};
use crate::structs::{derived, same_value, value};
use c_types::CType;
use cond_formula::NoMemory;
use plain_scope::copied;
use std::alloc::Global;

fn own_value(alloc: Global, o: &OperandType) -> Result<OperandType, NoMemory>
    ensures { IfOk result (λ x. plain_operand_type x ≡ rule.own_value (plain_operand_type o.now)) }
{
    let ty = copied(alloc, &o.ty)?;
    let x = derived(o, ty, Category::Value);
    Ok(OperandType {
        is_null: o.is_null,
        ..x
    })
}

#[tactic(auto, using(c_types::specs::TypeLaws::type_kinds))]
fn first_element(alloc: Global, o: &OperandType, element: &CType) -> Result<Judged, NoMemory>
    ensures { IfOk result (λ r. judgement r ≡ rule.given (plain_operand_type o.now) (pointer_to (plain_type element.now))) }
{
    let element = Box::new(alloc, copied(alloc, element)?)?;
    Ok(value(o, CType::Pointer(element)))
}

fn loaded_struct(alloc: Global, o: &OperandType) -> Result<Judged, NoMemory>
    ensures { IfOk result (λ r. judgement r ≡ (if (plain_operand_type o.now).has_complete_struct then rule.given (plain_operand_type o.now) (plain_operand_type o.now).ty else refused tt)) }
{
    if o.has_complete_struct {
        same_value(alloc, o)
    } else {
        Ok(Err(Refused))
    }
}

#[tactic(auto, using(c_types::specs::TypeLaws::type_kinds))]
fn loaded_object(alloc: Global, o: &OperandType) -> Result<Judged, NoMemory>
    ensures { IfOk result (λ r. judgement r ≡ rule.loaded_object (plain_operand_type o.now) (plain_operand_type o.now).ty) }
{
    match &o.ty {
        CType::Array(element, _) => first_element(alloc, o, element),
        CType::Struct(_) => loaded_struct(alloc, o),
        CType::Void
        | CType::Char
        | CType::UChar
        | CType::Int
        | CType::UInt
        | CType::Long
        | CType::ULong
        | CType::Pointer(_) => same_value(alloc, o),
    }
}

/// The same by the rule.
pub(crate) fn loaded_by_rule(alloc: Global, o: &OperandType) -> Result<Judged, NoMemory>
    ensures { IfOk result (λ r. judgement r ≡ rule.loaded_rule (plain_operand_type o.now)) }
{
    match o.category {
        Category::Value => {
            let x = own_value(alloc, o)?;
            Ok(Ok(x))
        }
        Category::Object(_) => loaded_object(alloc, o),
    }
}

/// The value of an operand: that of an array is a pointer to its first element.
pub fn loaded(alloc: Global, o: &OperandType) -> Result<Judged, NoMemory>
    ensures { IfOk result (λ r. (at : PlainToken) → judgement r ≡ loaded_type at (plain_operand_type o.now)) }
{
    loaded_by_rule(alloc, o)
}
