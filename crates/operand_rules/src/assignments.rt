//! Assignments, `++` and `--` (6.5.2.4, 6.5.3.1, 6.5.16).
ghost use Rattle.std.specs.Prelude.{◌≡◌, IfOk, if◌then◌else◌};
ghost use Rattle.c_text.specs.Token.{plain_token};
ghost use Rattle.c_types.specs.Types.{plain_type};
ghost use Rattle.core_meaning.specs.Expressions as spec;
ghost use Rattle.conditional.specs.Judgements.{refused};
ghost use Rattle.operand_types.specs.Operators.{stepped_type, assigned_type};
ghost use Rattle.operand_rules.specs.PlainOperandTypes.{plain_category, plain_operand_type, judgement};
ghost use Rattle.operand_rules.specs.Rules as rule;

use crate::conditions::fits;
use crate::operands::{Category, Judged, OperandType, Refused};
use crate::structs::{is_complete, is_moved, same_value};
use c_text::Token;
use c_types::{BinaryOp, CType};
use cond_formula::NoMemory;
use plain_operands::operator_named;
use plain_scope::{is_integer, may_be_assigned};
use std::alloc::Global;

/// The operator of a compound assignment, of `++` or of `--` is its spelling without its last byte.
fn compound_operator(text: &[u8]) -> Option<BinaryOp>
    ensures { result ≡ spec.compound_operator text.now }
{
    operator_named(&text[..text.len().saturating_sub(1)])
}

fn is_plain_assignment(sign: &Token) -> bool
    ensures { result ≡ spec.is_plain_assignment (plain_token sign.now) }
{
    sign.text.as_slice() == b"=".as_slice()
}

fn is_free(category: Category) -> bool
    ensures { result ≡ rule.is_free (plain_category category) }
{
    match category {
        Category::Value => false,
        Category::Object(free) => free,
    }
}

/// Whether the operator may write to the operand. What it changes has a value, so its type is complete.
fn may_write(sign: &Token, o: &OperandType) -> bool
    ensures { result ≡ rule.may_write (plain_token sign.now) (plain_operand_type o.now) }
{
    is_free(o.category) && may_be_assigned(&o.ty) && (is_plain_assignment(sign) || is_complete(o))
}

fn is_sum(op: BinaryOp) -> bool
    ensures { result ≡ rule.is_sum op }
{
    matches!(op, BinaryOp::Add | BinaryOp::Sub)
}

/// Whether the operator changes the operand by a value of this type: the result must be one of the operand's type (6.5.16.2).
fn changes(op: BinaryOp, o: &OperandType, by: &CType) -> bool
    ensures { result ≡ rule.changes op (plain_operand_type o.now) (plain_type by.now) }
{
    is_integer(by) && (is_integer(&o.ty) || is_sum(op) && is_moved(o))
}

fn updated(alloc: Global, sign: &Token, o: &OperandType, by: &CType) -> Result<Judged, NoMemory>
    ensures { IfOk result (λ r. judgement r ≡ rule.updated (plain_token sign.now) (plain_operand_type o.now) (plain_type by.now)) }
{
    match compound_operator(sign.text.as_slice()) {
        Some(op) => {
            if changes(op, o, by) {
                same_value(alloc, o)
            } else {
                Ok(Err(Refused))
            }
        }
        None => Ok(Err(Refused)),
    }
}

#[tactic(auto, using(c_types::specs::TypeLaws::type_kinds))]
fn stepped_by_rule(alloc: Global, sign: &Token, o: &OperandType) -> Result<Judged, NoMemory>
    ensures { IfOk result (λ r. judgement r ≡ rule.stepped_rule (plain_token sign.now) (plain_operand_type o.now)) }
{
    if may_write(sign, o) {
        updated(alloc, sign, o, &CType::Int)
    } else {
        Ok(Err(Refused))
    }
}

/// `++` and `--`, behind their operand or before it.
pub fn stepped(alloc: Global, sign: &Token, o: &OperandType) -> Result<Judged, NoMemory>
    ensures { IfOk result (λ r. judgement r ≡ stepped_type (plain_token sign.now) (plain_operand_type o.now)) }
{
    stepped_by_rule(alloc, sign, o)
}

fn plain_assignment(alloc: Global, o: &OperandType, p: &OperandType) -> Result<Judged, NoMemory>
    ensures { IfOk result (λ r. judgement r ≡ (if rule.fits (plain_operand_type o.now).ty (plain_operand_type p.now).ty (plain_operand_type p.now).is_null then rule.given (plain_operand_type o.now) (plain_operand_type o.now).ty else refused tt)) }
{
    if fits(&o.ty, &p.ty, p.is_null) {
        same_value(alloc, o)
    } else {
        Ok(Err(Refused))
    }
}

fn assignment(
    alloc: Global,
    sign: &Token,
    o: &OperandType,
    p: &OperandType,
) -> Result<Judged, NoMemory>
    ensures { IfOk result (λ r. judgement r ≡ rule.assignment (plain_token sign.now) (plain_operand_type o.now) (plain_operand_type p.now)) }
{
    if is_plain_assignment(sign) {
        plain_assignment(alloc, o, p)
    } else {
        updated(alloc, sign, o, &p.ty)
    }
}

fn assigned_by_rule(
    alloc: Global,
    sign: &Token,
    o: &OperandType,
    p: &OperandType,
) -> Result<Judged, NoMemory>
    ensures { IfOk result (λ r. judgement r ≡ rule.assigned_rule (plain_token sign.now) (plain_operand_type o.now) (plain_operand_type p.now)) }
{
    if may_write(sign, o) {
        assignment(alloc, sign, o, p)
    } else {
        Ok(Err(Refused))
    }
}

/// The second operand, a value, assigned to the first.
pub fn assigned(
    alloc: Global,
    sign: &Token,
    o: &OperandType,
    p: &OperandType,
) -> Result<Judged, NoMemory>
    ensures { IfOk result (λ r. judgement r ≡ assigned_type (plain_token sign.now) (plain_operand_type o.now) (plain_operand_type p.now)) }
{
    assigned_by_rule(alloc, sign, o, p)
}
