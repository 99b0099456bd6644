//! The results of `?:` (6.5.15).
ghost use Rattle.std.specs.Prelude.{◌≡◌, IfOk};
ghost use Rattle.c_text.specs.Token.{PlainToken};
ghost use Rattle.operand_types.specs.Operators.{chosen_type};
ghost use Rattle.operand_rules.specs.PlainOperandTypes.{plain_operand_type, judgement};
ghost use Rattle.operand_rules.specs.Rules as rule;

use crate::operands::{Judged, OperandType, Refused};
use crate::structs::{same_value, value};
use c_types::CType;
use cond_formula::NoMemory;
use plain_scope::{common_type, is_integer, is_pointer, is_struct, is_void, same_type};
use std::alloc::Global;

/// Two results one of which is the null constant.
fn chosen_or_null(alloc: Global, o: &OperandType, p: &OperandType) -> Result<Judged, NoMemory>
    ensures { IfOk result (λ r. judgement r ≡ rule.chosen_or_null (plain_operand_type o.now) (plain_operand_type p.now)) }
{
    if is_pointer(&o.ty) && p.is_null {
        same_value(alloc, o)
    } else if o.is_null && is_pointer(&p.ty) {
        same_value(alloc, p)
    } else {
        Ok(Err(Refused))
    }
}

fn chosen_same(alloc: Global, o: &OperandType, p: &OperandType) -> Result<Judged, NoMemory>
    ensures { IfOk result (λ r. judgement r ≡ rule.chosen_same (plain_operand_type o.now) (plain_operand_type p.now)) }
{
    if (is_struct(&o.ty) || is_pointer(&o.ty)) && same_type(&o.ty, &p.ty) {
        same_value(alloc, o)
    } else {
        chosen_or_null(alloc, o, p)
    }
}

/// The two results of `?:`. What is the null constant is a number.
#[tactic(auto, using(c_types::specs::TypeLaws::type_kinds))]
fn chosen_by_rule(alloc: Global, o: &OperandType, p: &OperandType) -> Result<Judged, NoMemory>
    ensures { IfOk result (λ r. judgement r ≡ rule.chosen_rule (plain_operand_type o.now) (plain_operand_type p.now)) }
{
    if is_integer(&o.ty) && is_integer(&p.ty) {
        let ty = common_type(alloc, &o.ty, &p.ty)?;
        Ok(value(o, ty))
    } else if is_void(&o.ty) && is_void(&p.ty) {
        Ok(value(o, CType::Void))
    } else {
        chosen_same(alloc, o, p)
    }
}

/// The two results of `?:`, which are values.
pub fn chosen(alloc: Global, o: &OperandType, p: &OperandType) -> Result<Judged, NoMemory>
    ensures by_rule { IfOk result (λ r. judgement r ≡ rule.chosen_rule (plain_operand_type o.now) (plain_operand_type p.now)) }
    ensures chosen { IfOk result (λ r. rule.IsNumberIfNull (plain_operand_type o.now) → (question : PlainToken) → judgement r ≡ chosen_type question (plain_operand_type o.now) (plain_operand_type p.now)) }
{
    chosen_by_rule(alloc, o, p)
}
