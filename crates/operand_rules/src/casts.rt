//! Casts (6.5.4).
ghost use Rattle.std.specs.Prelude.{◌≡◌, IfOk, None};
ghost use Rattle.c_text.specs.Token.{PlainToken};
ghost use Rattle.c_types.specs.Types.{plain_type};
ghost use Rattle.operand_types.specs.OperandTypes.{struct_in};
ghost use Rattle.operand_types.specs.Operators.{cast_type};
ghost use Rattle.operand_rules.specs.PlainOperandTypes.{plain_operand_type, judgement};
ghost use Rattle.operand_rules.specs.Rules as rule;

use crate::operands::{Judged, OperandType, Refused};
use crate::structs::value;
use c_types::CType;
use cond_formula::NoMemory;
use plain_scope::{copied, is_integer, is_void};
use std::alloc::Global;

#[tactic(auto, using(c_types::specs::TypeLaws::type_kinds))]
fn cast_by_rule(alloc: Global, ty: &CType, o: &OperandType) -> Result<Judged, NoMemory>
    ensures { IfOk result (λ r. judgement r ≡ rule.cast_rule (plain_type ty.now) (plain_operand_type o.now)) }
{
    if is_void(ty) {
        Ok(value(o, CType::Void))
    } else if is_integer(&o.ty) {
        let ty = copied(alloc, ty)?;
        Ok(value(o, ty))
    } else {
        Ok(Err(Refused))
    }
}

/// A cast of a value to a type that is made of no struct.
pub fn cast(alloc: Global, ty: &CType, o: &OperandType) -> Result<Judged, NoMemory>
    ensures { IfOk result (λ r. struct_in (plain_type ty.now) ≡ None → (bracket : PlainToken) → judgement r ≡ cast_type bracket (plain_type ty.now) (plain_operand_type o.now)) }
{
    cast_by_rule(alloc, ty, o)
}
