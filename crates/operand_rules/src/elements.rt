//! Elements of arrays (6.5.2.1).
ghost use Rattle.std.specs.Prelude.{◌≡◌, IfOk};
ghost use Rattle.c_text.specs.Token.{PlainToken};
ghost use Rattle.operand_types.specs.Operators.{indexed_type};
ghost use Rattle.operand_rules.specs.PlainOperandTypes.{plain_operand_type, judgement};
ghost use Rattle.operand_rules.specs.Rules as rule;

use crate::operands::{Judged, OperandType, Refused};
use crate::prefixes::target_of;
use crate::structs::is_moved;
use cond_formula::NoMemory;
use plain_scope::{is_integer, is_pointer};
use std::alloc::Global;

fn element(alloc: Global, o: &OperandType) -> Result<Judged, NoMemory>
    ensures { IfOk result (λ r. judgement r ≡ rule.element (plain_operand_type o.now)) }
{
    if is_moved(o) {
        target_of(alloc, o)
    } else {
        Ok(Err(Refused))
    }
}

fn indexed_by_rule(alloc: Global, o: &OperandType, p: &OperandType) -> Result<Judged, NoMemory>
    ensures { IfOk result (λ r. judgement r ≡ rule.indexed_rule (plain_operand_type o.now) (plain_operand_type p.now)) }
{
    if is_pointer(&o.ty) && is_integer(&p.ty) {
        element(alloc, o)
    } else if is_integer(&o.ty) && is_pointer(&p.ty) {
        element(alloc, p)
    } else {
        Ok(Err(Refused))
    }
}

/// A value with another in brackets behind it.
pub fn indexed(alloc: Global, o: &OperandType, p: &OperandType) -> Result<Judged, NoMemory>
    ensures { IfOk result (λ r. (bracket : PlainToken) → judgement r ≡ indexed_type bracket (plain_operand_type o.now) (plain_operand_type p.now)) }
{
    indexed_by_rule(alloc, o, p)
}
