//! Operators before their operand (6.5.3).
ghost use Rattle.std.specs.Prelude.{◌≡◌, IfOk, pos, negsuc};
ghost use Rattle.c_text.specs.Token.{plain_token};
ghost use Rattle.c_types.specs.Types.{plain_type};
ghost use Rattle.core_meaning.specs.Program as program;
ghost use Rattle.core_meaning.specs.Plain.{plain_expression};
ghost use Rattle.core_meaning.specs.Typing as typing;
ghost use Rattle.core_meaning.specs.Expressions as spec;
ghost use Rattle.plain_scope.specs.PlainScope.{plain_scope};
ghost use Rattle.plain_operands.specs.PlainOperands.{plain_operand, plain_typed};
ghost use Rattle.plain_scope.specs.Judgements.{Answers};
ghost use Rattle.plain_operands.specs.Operators.{on_value, on_loaded};

use crate::boxes::{expression_in_box, type_in_box};
use crate::elements::at_target;
use crate::operands::{Designation, Operand, Typed, conversion, int, loaded, of_value};
use crate::operators::binary;
use c_text::Token;
use c_types::{BinaryOp, CType};
use cond_formula::NoMemory;
use core_meaning::{Expression, IntegerType, Operation, TypeKind};
use plain_scope::{
    ElabError, Scope, integer_type, is_integer, is_scalar, promoted_type, refused, unless,
};
use std::alloc::Global;

#[tactic(auto, using(core_meaning::specs::PlainLaws::expression_kinds, c_types::specs::TypeLaws::type_kinds))]
fn pointed_at<'t>(
    alloc: Global,
    sign: &'t Token,
    operand: Operand,
) -> Result<Operand<'t>, ElabError>
    ensures { Answers (spec.pointed_at (plain_token sign.now) (plain_operand operand.entry).ty (plain_operand operand.entry).designates) plain_operand result }
{
    let Operand { ty, designates, .. } = operand;
    let Designation::Object(place, true) = designates else {
        return Err(refused(TypeKind::BadOperand, sign));
    };
    let pointer = type_in_box(alloc, CType::Pointer(ty))?;
    let address = expression_in_box(alloc, Expression::Address(place))?;
    Ok(of_value(sign, pointer, address))
}

#[tactic(auto, using(c_types::specs::TypeLaws::type_kinds))]
fn dereferenced<'t>(
    alloc: Global,
    sign: &'t Token,
    ty: Box<CType>,
    core: Box<Expression>,
) -> Result<Operand<'t>, ElabError>
    ensures { Answers (spec.dereferenced (plain_token sign.now) (typing.typed (plain_type ty.value) (plain_expression core.value)) (plain_type ty.value)) plain_operand result }
{
    match Box::into_inner(ty) {
        CType::Pointer(target) => at_target(alloc, sign, target, core),
        CType::Void
        | CType::Char
        | CType::UChar
        | CType::Int
        | CType::UInt
        | CType::Long
        | CType::ULong
        | CType::Array(..)
        | CType::Struct(_) => Err(refused(TypeKind::BadOperand, sign)),
    }
}

#[tactic(auto, using(core_meaning::specs::PlainLaws::expression_kinds))]
fn number(alloc: Global, z: i128) -> Result<Box<Expression>, NoMemory>
    ensures { IfOk result (λ e. plain_expression e.value ≡ program.constant z) }
{
    expression_in_box(alloc, Expression::Number(z))
}

fn minus(alloc: Global, ty: IntegerType, core: Box<Expression>) -> Result<Box<Expression>, NoMemory>
    ensures { IfOk result (λ e. plain_expression e.value ≡ program.binary (Operation.Numbers BinaryOp.Sub ty) (program.constant (pos 0)) (plain_expression core.value)) }
{
    let zero = number(alloc, 0)?;
    binary(alloc, Operation::Numbers(BinaryOp::Sub, ty), zero, core)
}

fn complement(
    alloc: Global,
    ty: IntegerType,
    core: Box<Expression>,
) -> Result<Box<Expression>, NoMemory>
    ensures { IfOk result (λ e. plain_expression e.value ≡ program.binary (Operation.Numbers BinaryOp.BitXor ty) (plain_expression core.value) (program.constant (negsuc 0))) }
{
    let ones = number(alloc, -1)?;
    binary(alloc, Operation::Numbers(BinaryOp::BitXor, ty), core, ones)
}

fn signed_core(
    alloc: Global,
    text: &[u8],
    ty: &CType,
    x: Typed,
) -> Result<Box<Expression>, NoMemory>
    ensures { IfOk result (λ e. plain_expression e.value ≡ spec.signed_core text.now (plain_type ty.now) (plain_typed x)) }
{
    if text == b"-".as_slice() {
        minus(alloc, integer_type(ty), x.core)
    } else if text == b"~".as_slice() {
        complement(alloc, integer_type(ty), x.core)
    } else {
        conversion(alloc, ty, x.core)
    }
}

fn signed<'t>(alloc: Global, sign: &'t Token, x: Typed) -> Result<Operand<'t>, ElabError>
    ensures { Answers (spec.signed (plain_token sign.now) (plain_typed x)) plain_operand result }
{
    unless(is_integer(&x.ty), TypeKind::BadOperand, sign)?;
    let ty = type_in_box(alloc, promoted_type(alloc, &x.ty)?)?;
    let core = signed_core(alloc, sign.text.as_slice(), &ty, x)?;
    Ok(of_value(sign, ty, core))
}

#[tactic(auto, using(core_meaning::specs::PlainLaws::expression_kinds, c_types::specs::TypeLaws::type_kinds))]
fn negated<'t>(alloc: Global, sign: &'t Token, x: Typed) -> Result<Operand<'t>, ElabError>
    ensures { Answers (spec.negated (plain_token sign.now) (plain_typed x)) plain_operand result }
{
    unless(is_scalar(&x.ty), TypeKind::BadOperand, sign)?;
    let core = expression_in_box(alloc, Expression::Not(x.core))?;
    Ok(of_value(sign, int(alloc)?, core))
}

/// An operator before the value of its operand.
fn on_value<'t>(alloc: Global, sign: &'t Token, x: Typed) -> Result<Operand<'t>, ElabError>
    ensures { Answers (on_value (plain_token sign.now) (plain_typed x)) plain_operand result }
{
    if sign.text.as_slice() == b"*".as_slice() {
        dereferenced(alloc, sign, x.ty, x.core)
    } else if sign.text.as_slice() == b"!".as_slice() {
        negated(alloc, sign, x)
    } else {
        signed(alloc, sign, x)
    }
}

fn on_loaded<'t>(
    alloc: Global,
    scope: &Scope,
    sign: &'t Token,
    operand: Operand,
) -> Result<Operand<'t>, ElabError>
    ensures { Answers (on_loaded (plain_scope scope.now) (plain_token sign.now) (plain_operand operand.entry)) plain_operand result }
{
    let x = loaded(alloc, scope, operand)?;
    on_value(alloc, sign, x)
}

/// One of `& * + - ~ !` before its operand.
pub fn prefixed<'t>(
    alloc: Global,
    scope: &Scope,
    sign: &'t Token,
    operand: Operand,
) -> Result<Operand<'t>, ElabError>
    ensures { Answers (spec.prefixed (plain_scope scope.now) (plain_token sign.now) (plain_operand operand.entry)) plain_operand result }
{
    if sign.text.as_slice() == b"&".as_slice() {
        pointed_at(alloc, sign, operand)
    } else {
        on_loaded(alloc, scope, sign, operand)
    }
}
