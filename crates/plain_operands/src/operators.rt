//! Operators between two values (6.5.5 to 6.5.14).
ghost use Rattle.std.specs.Prelude.{◌≡◌, IfOk, Some, None};
ghost use Rattle.c_text.specs.Token.{plain_token};
ghost use Rattle.c_types.specs.Types.{plain_type};
ghost use Rattle.core_meaning.specs.Program as program;
ghost use Rattle.core_meaning.specs.Plain.{plain_expression};
ghost use Rattle.core_meaning.specs.Checking.{give};
ghost use Rattle.core_meaning.specs.Typing as typing;
ghost use Rattle.core_meaning.specs.Expressions as spec;
ghost use Rattle.plain_scope.specs.PlainScope.{plain_scope};
ghost use Rattle.plain_operands.specs.PlainOperands.{plain_operand, plain_typed};
ghost use Rattle.plain_scope.specs.Judgements.{Answers};
ghost use Rattle.plain_operands.specs.Operators.{joined_by, combined_as, operated};

use crate::boxes::{expression_in_box, type_in_box};
use crate::operands::{Operand, Typed, int, of_value, same};
use c_text::Token;
use c_types::{BinaryOp, CType};
use cond_formula::NoMemory;
use core_meaning::{Expression, IntegerType, Operation, TypeKind};
use plain_scope::{
    ElabError, Scope, common, common_type, is_any_pointer, is_integer, is_movable, is_scalar,
    promoted, promoted_type, refused, same_type, unless,
};
use std::alloc::Global;

pub fn operator_named(text: &[u8]) -> Option<BinaryOp>
    ensures { result ≡ spec.operator_named text.now }
{
    match text {
        [b'*'] => Some(BinaryOp::Mul),
        [b'/'] => Some(BinaryOp::Div),
        [b'%'] => Some(BinaryOp::Rem),
        [b'+'] => Some(BinaryOp::Add),
        [b'-'] => Some(BinaryOp::Sub),
        [b'<', b'<'] => Some(BinaryOp::Shl),
        [b'>', b'>'] => Some(BinaryOp::Shr),
        [b'<'] => Some(BinaryOp::Lt),
        [b'>'] => Some(BinaryOp::Gt),
        [b'<', b'='] => Some(BinaryOp::Le),
        [b'>', b'='] => Some(BinaryOp::Ge),
        [b'=', b'='] => Some(BinaryOp::Eq),
        [b'!', b'='] => Some(BinaryOp::Ne),
        [b'&'] => Some(BinaryOp::BitAnd),
        [b'^'] => Some(BinaryOp::BitXor),
        [b'|'] => Some(BinaryOp::BitOr),
        _ => None,
    }
}

fn is_shift(op: BinaryOp) -> bool
    ensures { result ≡ spec.is_shift_operator op }
{
    matches!(op, BinaryOp::Shl | BinaryOp::Shr)
}

fn is_order(op: BinaryOp) -> bool
    ensures { result ≡ spec.is_order op }
{
    matches!(
        op,
        BinaryOp::Lt | BinaryOp::Gt | BinaryOp::Le | BinaryOp::Ge
    )
}

fn is_equality(op: BinaryOp) -> bool
    ensures { result ≡ spec.is_equality op }
{
    matches!(op, BinaryOp::Eq | BinaryOp::Ne)
}

/// The type in which two numbers are computed with.
fn computing_type(op: BinaryOp, a: &CType, b: &CType) -> IntegerType
    ensures { result ≡ typing.integer_type (spec.computing_type op (plain_type a.now) (plain_type b.now)) }
{
    if is_shift(op) {
        promoted(a)
    } else {
        common(a, b)
    }
}

/// The type of what an operator gives of two numbers.
#[tactic(auto, using(c_types::specs::TypeLaws::type_kinds))]
fn result_type(alloc: Global, op: BinaryOp, a: &CType, b: &CType) -> Result<CType, NoMemory>
    ensures { IfOk result (λ ty. plain_type ty ≡ spec.result_type op (plain_type a.now) (plain_type b.now)) }
{
    if is_order(op) || is_equality(op) {
        Ok(CType::Int)
    } else if is_shift(op) {
        promoted_type(alloc, a)
    } else {
        common_type(alloc, a, b)
    }
}

fn are_comparable(op: BinaryOp, a: &Typed, b: &Typed) -> bool
    ensures { result ≡ spec.are_comparable op (plain_typed a.now) (plain_typed b.now) }
{
    (is_order(op) || is_equality(op)) && is_any_pointer(&a.ty) && same_type(&a.ty, &b.ty)
        || is_equality(op)
            && (is_any_pointer(&a.ty) && b.is_null || a.is_null && is_any_pointer(&b.ty))
}

fn addition(scope: &Scope, a: &Typed, b: &Typed) -> Option<Operation>
    ensures { result ≡ spec.pointer_operation (plain_scope scope.now).structs BinaryOp.Add (plain_typed a.now) (plain_typed b.now) }
{
    if is_movable(scope, &a.ty) && is_integer(&b.ty) {
        Some(Operation::Forward)
    } else if is_integer(&a.ty) && is_movable(scope, &b.ty) {
        Some(Operation::ForwardBy)
    } else {
        None
    }
}

fn subtraction(scope: &Scope, a: &Typed, b: &Typed) -> Option<Operation>
    ensures { result ≡ spec.pointer_operation (plain_scope scope.now).structs BinaryOp.Sub (plain_typed a.now) (plain_typed b.now) }
{
    if is_movable(scope, &a.ty) && is_integer(&b.ty) {
        Some(Operation::Back)
    } else if is_movable(scope, &a.ty) && same_type(&a.ty, &b.ty) {
        Some(Operation::Distance)
    } else {
        None
    }
}

/// What two operands may be, one of which is no number.
fn pointer_operation(scope: &Scope, op: BinaryOp, a: &Typed, b: &Typed) -> Option<Operation>
    ensures { result ≡ spec.pointer_operation (plain_scope scope.now).structs op (plain_typed a.now) (plain_typed b.now) }
{
    match op {
        BinaryOp::Add => addition(scope, a, b),
        BinaryOp::Sub => subtraction(scope, a, b),
        op => {
            if are_comparable(op, a, b) {
                Some(Operation::Pointers(op))
            } else {
                None
            }
        }
    }
}

pub fn operation_on(scope: &Scope, op: BinaryOp, a: &Typed, b: &Typed) -> Option<Operation>
    ensures { result ≡ spec.operation_on (plain_scope scope.now).structs op (plain_typed a.now) (plain_typed b.now) }
{
    if is_integer(&a.ty) && is_integer(&b.ty) {
        Some(Operation::Numbers(op, computing_type(op, &a.ty, &b.ty)))
    } else {
        pointer_operation(scope, op, a, b)
    }
}

#[tactic(auto, using(c_types::specs::TypeLaws::type_kinds))]
fn operation_type(alloc: Global, o: Operation, a: &CType, b: &CType) -> Result<Box<CType>, NoMemory>
    ensures { IfOk result (λ ty. plain_type ty.value ≡ spec.operation_type o (plain_type a.now) (plain_type b.now)) }
{
    match o {
        Operation::Forward => same(alloc, a),
        Operation::ForwardBy => same(alloc, b),
        Operation::Back => same(alloc, a),
        Operation::Distance => type_in_box(alloc, CType::Long),
        Operation::Pointers(_) => int(alloc),
        Operation::Numbers(op, _) => type_in_box(alloc, result_type(alloc, op, a, b)?),
    }
}

#[tactic(auto, using(core_meaning::specs::PlainLaws::expression_kinds))]
pub fn null(alloc: Global) -> Result<Box<Expression>, NoMemory>
    ensures { IfOk result (λ e. plain_expression e.value ≡ program.null_constant) }
{
    expression_in_box(alloc, Expression::Null)
}

#[tactic(auto, using(core_meaning::specs::PlainLaws::expression_kinds))]
pub fn binary(
    alloc: Global,
    o: Operation,
    a: Box<Expression>,
    b: Box<Expression>,
) -> Result<Box<Expression>, NoMemory>
    ensures { IfOk result (λ e. plain_expression e.value ≡ program.binary o (plain_expression a.value) (plain_expression b.value)) }
{
    expression_in_box(alloc, Expression::Binary(o, a, b))
}

/// The null constant is compared as a pointer.
fn pointer_core(alloc: Global, x: Typed) -> Result<Box<Expression>, NoMemory>
    ensures { IfOk result (λ e. plain_expression e.value ≡ spec.pointer_core (plain_typed x)) }
{
    if x.is_null { null(alloc) } else { Ok(x.core) }
}

fn operand_core(alloc: Global, o: Operation, x: Typed) -> Result<Box<Expression>, NoMemory>
    ensures { IfOk result (λ e. plain_expression e.value ≡ spec.operand_core o (plain_typed x)) }
{
    match o {
        Operation::Pointers(_) => pointer_core(alloc, x),
        Operation::Numbers(_, _)
        | Operation::Forward
        | Operation::ForwardBy
        | Operation::Back
        | Operation::Distance => Ok(x.core),
    }
}

fn operated<'t>(
    alloc: Global,
    sign: &'t Token,
    o: Operation,
    a: Typed,
    b: Typed,
) -> Result<Operand<'t>, ElabError>
    ensures { Answers (give (operated (plain_token sign.now) o (plain_typed a) (plain_typed b))) plain_operand result }
{
    let ty = operation_type(alloc, o, &a.ty, &b.ty)?;
    let left = operand_core(alloc, o, a)?;
    let right = operand_core(alloc, o, b)?;
    let core = binary(alloc, o, left, right)?;
    Ok(of_value(sign, ty, core))
}

/// An operator between two values.
pub fn combined<'t>(
    alloc: Global,
    scope: &Scope,
    sign: &'t Token,
    a: Typed,
    b: Typed,
) -> Result<Operand<'t>, ElabError>
    ensures { Answers (combined_as (plain_scope scope.now) (plain_token sign.now) (plain_typed a) (plain_typed b)) plain_operand result }
{
    let Some(op) = operator_named(sign.text.as_slice()) else {
        return Err(ElabError::Memory);
    };
    let Some(o) = operation_on(scope, op, &a, &b) else {
        return Err(refused(TypeKind::BadOperand, sign));
    };
    operated(alloc, sign, o, a, b)
}

#[tactic(auto, using(core_meaning::specs::PlainLaws::expression_kinds))]
fn joined(
    alloc: Global,
    and: bool,
    a: Box<Expression>,
    b: Box<Expression>,
) -> Result<Box<Expression>, NoMemory>
    ensures { IfOk result (λ e. plain_expression e.value ≡ joined_by and (plain_expression a.value) (plain_expression b.value)) }
{
    if and {
        expression_in_box(alloc, Expression::And(a, b))
    } else {
        expression_in_box(alloc, Expression::Or(a, b))
    }
}

/// `&&` and `||`.
#[tactic(auto, using(c_types::specs::TypeLaws::type_kinds))]
pub fn logical<'t>(
    alloc: Global,
    and: bool,
    sign: &'t Token,
    a: Typed,
    b: Typed,
) -> Result<Operand<'t>, ElabError>
    ensures { Answers (spec.logical (joined_by and) (plain_token sign.now) (plain_typed a) (plain_typed b)) plain_operand result }
{
    unless(
        is_scalar(&a.ty) && is_scalar(&b.ty),
        TypeKind::BadOperand,
        sign,
    )?;
    let core = joined(alloc, and, a.core, b.core)?;
    Ok(of_value(sign, int(alloc)?, core))
}
