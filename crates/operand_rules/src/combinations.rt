//! Operators between two values (6.5.5 to 6.5.14).
ghost use Rattle.std.specs.Prelude.{◌≡◌, IfOk, Some, if◌then◌else◌};
ghost use Rattle.c_text.specs.Token.{plain_token};
ghost use Rattle.c_types.specs.Types as types;
ghost use Rattle.c_types.specs.Types.{plain_type};
ghost use Rattle.core_meaning.specs.Expressions as spec;
ghost use Rattle.conditional.specs.Judgements.{refused};
ghost use Rattle.operand_types.specs.OperandTypes.{a_value};
ghost use Rattle.operand_types.specs.Operators.{combined_type};
ghost use Rattle.operand_rules.specs.PlainOperandTypes.{plain_operand_type, judgement};
ghost use Rattle.operand_rules.specs.Rules as rule;

use crate::operands::{Judged, OperandType, Refused};
use crate::structs::{is_moved, same_value, value};
use c_text::Token;
use c_tree::Kind;
use c_types::{BinaryOp, CType};
use cond_formula::NoMemory;
use plain_operands::operator_named;
use plain_scope::{common_type, is_any_pointer, is_integer, is_scalar, promoted_type, same_type};
use std::alloc::Global;

fn is_shift(op: BinaryOp) -> bool
    ensures { result ≡ spec.is_shift_operator op }
{
    matches!(op, BinaryOp::Shl | BinaryOp::Shr)
}

fn is_order(op: BinaryOp) -> bool
    ensures { result ≡ spec.is_order op }
{
    matches!(
        op,
        BinaryOp::Lt | BinaryOp::Gt | BinaryOp::Le | BinaryOp::Ge
    )
}

fn is_equality(op: BinaryOp) -> bool
    ensures { result ≡ spec.is_equality op }
{
    matches!(op, BinaryOp::Eq | BinaryOp::Ne)
}

/// The type of what an operator gives of two numbers.
#[tactic(auto, using(c_types::specs::TypeLaws::type_kinds))]
fn result_type(alloc: Global, op: BinaryOp, a: &CType, b: &CType) -> Result<CType, NoMemory>
    ensures { IfOk result (λ ty. plain_type ty ≡ spec.result_type op (plain_type a.now) (plain_type b.now)) }
{
    if is_order(op) || is_equality(op) {
        Ok(CType::Int)
    } else if is_shift(op) {
        promoted_type(alloc, a)
    } else {
        common_type(alloc, a, b)
    }
}

fn are_comparable(op: BinaryOp, o: &OperandType, p: &OperandType) -> bool
    ensures { result ≡ spec.are_comparable op (a_value (plain_operand_type o.now)) (a_value (plain_operand_type p.now)) }
{
    (is_order(op) || is_equality(op)) && is_any_pointer(&o.ty) && same_type(&o.ty, &p.ty)
        || is_equality(op)
            && (is_any_pointer(&o.ty) && p.is_null || o.is_null && is_any_pointer(&p.ty))
}

fn added(alloc: Global, o: &OperandType, p: &OperandType) -> Result<Judged, NoMemory>
    ensures { IfOk result (λ r. judgement r ≡ rule.added (plain_operand_type o.now) (plain_operand_type p.now)) }
{
    if is_moved(o) && is_integer(&p.ty) {
        same_value(alloc, o)
    } else if is_integer(&o.ty) && is_moved(p) {
        same_value(alloc, p)
    } else {
        Ok(Err(Refused))
    }
}

#[tactic(auto, using(c_types::specs::TypeLaws::type_kinds))]
fn subtracted(alloc: Global, o: &OperandType, p: &OperandType) -> Result<Judged, NoMemory>
    ensures { IfOk result (λ r. judgement r ≡ rule.subtracted (plain_operand_type o.now) (plain_operand_type p.now)) }
{
    if is_moved(o) && is_integer(&p.ty) {
        same_value(alloc, o)
    } else if is_moved(o) && same_type(&o.ty, &p.ty) {
        Ok(value(o, CType::Long))
    } else {
        Ok(Err(Refused))
    }
}

#[tactic(auto, using(c_types::specs::TypeLaws::type_kinds))]
fn compared(op: BinaryOp, o: &OperandType, p: &OperandType) -> Judged
    ensures { judgement result ≡ (if spec.are_comparable op (a_value (plain_operand_type o.now)) (a_value (plain_operand_type p.now)) then rule.given (plain_operand_type o.now) types.int else refused tt) }
{
    if are_comparable(op, o, p) {
        value(o, CType::Int)
    } else {
        Err(Refused)
    }
}

/// What an operator makes of two operands one of which is no number.
fn on_pointers(
    alloc: Global,
    op: BinaryOp,
    o: &OperandType,
    p: &OperandType,
) -> Result<Judged, NoMemory>
    ensures { IfOk result (λ r. judgement r ≡ rule.on_pointers op (plain_operand_type o.now) (plain_operand_type p.now)) }
{
    match op {
        BinaryOp::Add => added(alloc, o, p),
        BinaryOp::Sub => subtracted(alloc, o, p),
        op => Ok(compared(op, o, p)),
    }
}

fn operated(
    alloc: Global,
    op: BinaryOp,
    o: &OperandType,
    p: &OperandType,
) -> Result<Judged, NoMemory>
    ensures { IfOk result (λ r. judgement r ≡ rule.operated (Some op) (plain_operand_type o.now) (plain_operand_type p.now)) }
{
    if is_integer(&o.ty) && is_integer(&p.ty) {
        let ty = result_type(alloc, op, &o.ty, &p.ty)?;
        Ok(value(o, ty))
    } else {
        on_pointers(alloc, op, o, p)
    }
}

fn operated_as(
    alloc: Global,
    text: &[u8],
    o: &OperandType,
    p: &OperandType,
) -> Result<Judged, NoMemory>
    ensures { IfOk result (λ r. judgement r ≡ rule.operated (spec.operator_named text.now) (plain_operand_type o.now) (plain_operand_type p.now)) }
{
    match operator_named(text) {
        Some(op) => operated(alloc, op, o, p),
        None => Ok(Err(Refused)),
    }
}

/// `&&` and `||`.
#[tactic(auto, using(c_types::specs::TypeLaws::type_kinds))]
fn on_scalars(o: &OperandType, p: &OperandType) -> Judged
    ensures { judgement result ≡ rule.on_scalars (plain_operand_type o.now) (plain_operand_type p.now) }
{
    if is_scalar(&o.ty) && is_scalar(&p.ty) {
        value(o, CType::Int)
    } else {
        Err(Refused)
    }
}

fn is_logical(kind: Kind) -> bool
    ensures { result ≡ rule.is_logical kind }
{
    matches!(kind, Kind::LogicalAnd | Kind::LogicalOr)
}

fn combined_by_rule(
    alloc: Global,
    kind: Kind,
    sign: &Token,
    o: &OperandType,
    p: &OperandType,
) -> Result<Judged, NoMemory>
    ensures { IfOk result (λ r. judgement r ≡ rule.combined_rule kind (plain_token sign.now) (plain_operand_type o.now) (plain_operand_type p.now)) }
{
    if is_logical(kind) {
        Ok(on_scalars(o, p))
    } else {
        operated_as(alloc, sign.text.as_slice(), o, p)
    }
}

/// An operator of this kind between two values.
pub fn combined(
    alloc: Global,
    kind: Kind,
    sign: &Token,
    o: &OperandType,
    p: &OperandType,
) -> Result<Judged, NoMemory>
    ensures { IfOk result (λ r. judgement r ≡ combined_type kind (plain_token sign.now) (plain_operand_type o.now) (plain_operand_type p.now)) }
{
    combined_by_rule(alloc, kind, sign, o, p)
}
