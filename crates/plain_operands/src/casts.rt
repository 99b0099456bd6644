//! Casts, and expressions whose values aren't used (6.5.4, 6.8.3).
ghost use Rattle.std.specs.Prelude.{◌≡◌, false, IfOk};
ghost use Rattle.c_text.specs.Token.{plain_token};
ghost use Rattle.c_types.specs.Types.{plain_type, void};
ghost use Rattle.core_meaning.specs.Plain.{plain_expression};
ghost use Rattle.core_meaning.specs.Expressions as spec;
ghost use Rattle.plain_operands.specs.PlainOperands.{plain_operand, plain_typed};
ghost use Rattle.plain_scope.specs.Judgements.{Answers};

use crate::boxes::{expression_in_box, type_in_box};
use crate::operands::{Operand, Typed, conversion, of_value};
use c_text::Token;
use c_types::CType;
use cond_formula::NoMemory;
use core_meaning::{Expression, TypeKind};
use plain_scope::{ElabError, is_integer, is_void, unless};
use std::alloc::Global;

#[tactic(auto, using(core_meaning::specs::PlainLaws::expression_kinds))]
fn unused_part(
    alloc: Global,
    is_result: bool,
    e: Box<Expression>,
) -> Result<Box<Expression>, NoMemory>
    ensures { IfOk result (λ x. plain_expression x.value ≡ spec.unused_part is_result (plain_expression e.value)) }
{
    let e = Box::into_inner(e);
    match e {
        Expression::Convert(ty, inner) => {
            if is_result {
                unused_part(alloc, false, inner)
            } else {
                expression_in_box(alloc, Expression::Convert(ty, inner))
            }
        }
        Expression::Choose(condition, a, b) => {
            let a = unused_part(alloc, true, a)?;
            let b = unused_part(alloc, true, b)?;
            expression_in_box(alloc, Expression::Choose(condition, a, b))
        }
        Expression::Number(_)
        | Expression::Null
        | Expression::Read(_)
        | Expression::Address(_)
        | Expression::FirstElement(_)
        | Expression::Binary(..)
        | Expression::Not(_)
        | Expression::And(..)
        | Expression::Or(..)
        | Expression::Assign(..)
        | Expression::Update(..)
        | Expression::UpdateAfter(..)
        | Expression::Call(..)
        | Expression::Discard(_) => expression_in_box(alloc, e),
    }
}

/// An expression whose value isn't used: neither are the results of `?:`, which aren't converted then.
pub fn unused(alloc: Global, e: Box<Expression>) -> Result<Box<Expression>, NoMemory>
    ensures { IfOk result (λ x. plain_expression x.value ≡ spec.unused (plain_expression e.value)) }
{
    unused_part(alloc, false, e)
}

#[tactic(auto, using(core_meaning::specs::PlainLaws::expression_kinds, c_types::specs::TypeLaws::type_kinds))]
fn number_cast<'t>(
    alloc: Global,
    sign: &'t Token,
    x: Typed,
    ty: Box<CType>,
) -> Result<Operand<'t>, ElabError>
    requires { spec.is_void (plain_type ty.value) ≡ false }
    ensures { Answers (spec.cast_to (plain_token sign.now) (plain_typed x) (plain_type ty.value)) plain_operand result }
{
    unless(is_integer(&x.ty), TypeKind::BadOperand, sign)?;
    let core = conversion(alloc, &ty, x.core)?;
    Ok(of_value(sign, ty, core))
}

#[tactic(auto, using(core_meaning::specs::PlainLaws::expression_kinds, c_types::specs::TypeLaws::type_kinds))]
fn discarded<'t>(alloc: Global, sign: &'t Token, x: Typed) -> Result<Operand<'t>, ElabError>
    ensures { Answers (spec.cast_to (plain_token sign.now) (plain_typed x) void) plain_operand result }
{
    let core = unused(alloc, x.core)?;
    let core = expression_in_box(alloc, Expression::Discard(core))?;
    let nothing = type_in_box(alloc, CType::Void)?;
    Ok(of_value(sign, nothing, core))
}

#[tactic(auto, using(c_types::specs::TypeLaws::type_kinds))]
pub fn cast_to<'t>(
    alloc: Global,
    sign: &'t Token,
    x: Typed,
    ty: CType,
) -> Result<Operand<'t>, ElabError>
    ensures { Answers (spec.cast_to (plain_token sign.now) (plain_typed x) (plain_type ty)) plain_operand result }
{
    if is_void(&ty) {
        discarded(alloc, sign, x)
    } else {
        number_cast(alloc, sign, x, type_in_box(alloc, ty)?)
    }
}
