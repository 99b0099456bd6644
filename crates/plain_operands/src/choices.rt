//! Conditions, and the results of `?:` (6.5.15).
ghost use Rattle.c_text.specs.Token.{plain_token};
ghost use Rattle.c_types.specs.Types.{plain_type, void};
ghost use Rattle.core_meaning.specs.Plain.{plain_expression};
ghost use Rattle.core_meaning.specs.Expressions as spec;
ghost use Rattle.plain_scope.specs.PlainScope.{plain_scope};
ghost use Rattle.plain_operands.specs.PlainOperands.{plain_operand, plain_typed, boxed_expression};
ghost use Rattle.plain_scope.specs.Judgements.{Answers};
ghost use Rattle.plain_operands.specs.Operators.{chosen_number, chosen_or_null, chosen_struct_or_pointer};

use crate::boxes::{expression_in_box, type_in_box};
use crate::operands::{Operand, Typed, conversion, loaded, of_value};
use crate::operators::null;
use c_text::Token;
use c_types::CType;
use cond_formula::NoMemory;
use core_meaning::{Expression, TypeKind};
use plain_scope::{
    ElabError, Scope, common_type, is_integer, is_pointer, is_scalar, is_struct, is_void, refused,
    same_type, unless,
};
use std::alloc::Global;

/// A condition is a scalar.
pub fn condition_value(
    alloc: Global,
    scope: &Scope,
    operand: Operand,
    first: &Token,
) -> Result<Box<Expression>, ElabError>
    ensures { Answers (spec.condition_value (plain_scope scope.now) (plain_token first.now) (plain_operand operand.entry)) boxed_expression result }
{
    let x = loaded(alloc, scope, operand)?;
    unless(is_scalar(&x.ty), TypeKind::BadOperand, first)?;
    Ok(x.core)
}

#[tactic(auto, using(core_meaning::specs::PlainLaws::expression_kinds))]
fn choice<'t>(
    alloc: Global,
    sign: &'t Token,
    condition: Box<Expression>,
    ty: Box<CType>,
    a: Box<Expression>,
    b: Box<Expression>,
) -> Result<Operand<'t>, ElabError>
    ensures { Answers (spec.chosen_core (plain_token sign.now) (plain_expression condition.value) (plain_type ty.value) (plain_expression a.value) (plain_expression b.value)) plain_operand result }
{
    let core = expression_in_box(alloc, Expression::Choose(condition, a, b))?;
    Ok(of_value(sign, ty, core))
}

#[tactic(auto, using(c_types::specs::TypeLaws::type_kinds))]
fn chosen_void<'t>(
    alloc: Global,
    sign: &'t Token,
    condition: Box<Expression>,
    a: Box<Expression>,
    b: Box<Expression>,
) -> Result<Operand<'t>, ElabError>
    ensures { Answers (spec.chosen_core (plain_token sign.now) (plain_expression condition.value) void (plain_expression a.value) (plain_expression b.value)) plain_operand result }
{
    let ty = type_in_box(alloc, CType::Void)?;
    choice(alloc, sign, condition, ty, a, b)
}

fn chosen_number<'t>(
    alloc: Global,
    sign: &'t Token,
    condition: Box<Expression>,
    a: Typed,
    b: Typed,
) -> Result<Operand<'t>, ElabError>
    ensures { Answers (chosen_number (plain_token sign.now) (plain_expression condition.value) (plain_typed a) (plain_typed b)) plain_operand result }
{
    let ty = type_in_box(alloc, common_type(alloc, &a.ty, &b.ty)?)?;
    let left = conversion(alloc, &ty, a.core)?;
    let right = conversion(alloc, &ty, b.core)?;
    choice(alloc, sign, condition, ty, left, right)
}

/// The two results of `?:`, one of which is the null constant.
#[tactic(auto, using(core_meaning::specs::PlainLaws::expression_kinds))]
fn chosen_or_null<'t>(
    alloc: Global,
    sign: &'t Token,
    condition: Box<Expression>,
    a: Typed,
    b: Typed,
) -> Result<Operand<'t>, ElabError>
    ensures { Answers (chosen_or_null (plain_token sign.now) (plain_expression condition.value) (plain_typed a) (plain_typed b)) plain_operand result }
{
    if is_pointer(&a.ty) && b.is_null {
        let none = null(alloc)?;
        choice(alloc, sign, condition, a.ty, a.core, none)
    } else if a.is_null && is_pointer(&b.ty) {
        let none = null(alloc)?;
        choice(alloc, sign, condition, b.ty, none, b.core)
    } else {
        Err(refused(TypeKind::BadOperand, sign))
    }
}

fn chosen_struct_or_pointer<'t>(
    alloc: Global,
    sign: &'t Token,
    condition: Box<Expression>,
    a: Typed,
    b: Typed,
) -> Result<Operand<'t>, ElabError>
    ensures { Answers (chosen_struct_or_pointer (plain_token sign.now) (plain_expression condition.value) (plain_typed a) (plain_typed b)) plain_operand result }
{
    let may = is_struct(&a.ty) || is_pointer(&a.ty);
    if may && same_type(&a.ty, &b.ty) {
        choice(alloc, sign, condition, a.ty, a.core, b.core)
    } else {
        chosen_or_null(alloc, sign, condition, a, b)
    }
}

/// The two results of `?:`.
#[tactic(auto, using(c_types::specs::TypeLaws::type_kinds))]
pub fn chosen<'t>(
    alloc: Global,
    sign: &'t Token,
    condition: Box<Expression>,
    a: Typed,
    b: Typed,
) -> Result<Operand<'t>, ElabError>
    ensures { Answers (spec.chosen (plain_token sign.now) (plain_expression condition.value) (plain_typed a) (plain_typed b)) plain_operand result }
{
    if is_integer(&a.ty) && is_integer(&b.ty) {
        chosen_number(alloc, sign, condition, a, b)
    } else if is_void(&a.ty) && is_void(&b.ty) {
        chosen_void(alloc, sign, condition, a.core, b.core)
    } else {
        chosen_struct_or_pointer(alloc, sign, condition, a, b)
    }
}
