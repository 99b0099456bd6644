//! What pointers point to, and elements of arrays (6.5.2.1, 6.5.3.2).
ghost use Rattle.std.specs.Prelude.{true};
ghost use Rattle.c_text.specs.Token.{plain_token};
ghost use Rattle.c_types.specs.Types.{plain_type};
ghost use Rattle.core_meaning.specs.Program as program;
ghost use Rattle.core_meaning.specs.Plain.{plain_expression};
ghost use Rattle.core_meaning.specs.Checking.{give};
ghost use Rattle.core_meaning.specs.Typing as typing;
ghost use Rattle.core_meaning.specs.Expressions as spec;
ghost use Rattle.plain_scope.specs.PlainScope.{plain_scope};
ghost use Rattle.plain_operands.specs.PlainOperands.{plain_operand, plain_typed};
ghost use Rattle.plain_scope.specs.Judgements.{Answers};

use crate::boxes::place_in_box;
use crate::operands::{Operand, Typed, of_object};
use crate::operators::binary;
use c_text::Token;
use c_types::CType;
use core_meaning::{Expression, Operation, Place, TypeKind};
use plain_scope::{ElabError, Scope, is_integer, is_pointer, refused, unless};
use std::alloc::Global;

#[tactic(auto, using(core_meaning::specs::PlainLaws::expression_kinds))]
pub fn at_target<'t>(
    alloc: Global,
    sign: &'t Token,
    ty: Box<CType>,
    pointer: Box<Expression>,
) -> Result<Operand<'t>, ElabError>
    ensures { Answers (give (typing.of_object (plain_token sign.now) (plain_type ty.value) (program.target (plain_expression pointer.value)) true)) plain_operand result }
{
    let place = place_in_box(alloc, Place::Target(pointer))?;
    Ok(of_object(sign, ty, place, true))
}

#[tactic(auto, using(c_types::specs::TypeLaws::type_kinds))]
fn element<'t>(
    alloc: Global,
    scope: &Scope,
    sign: &'t Token,
    pointer: Box<CType>,
    core: Box<Expression>,
) -> Result<Operand<'t>, ElabError>
    ensures { Answers (spec.element_target (plain_scope scope.now) (plain_token sign.now) (plain_type pointer.value) (plain_expression core.value)) plain_operand result }
{
    match Box::into_inner(pointer) {
        CType::Pointer(target) => {
            unless(scope.is_complete(&target), TypeKind::Incomplete, sign)?;
            at_target(alloc, sign, target, core)
        }
        CType::Void
        | CType::Char
        | CType::UChar
        | CType::Int
        | CType::UInt
        | CType::Long
        | CType::ULong
        | CType::Array(..)
        | CType::Struct(_) => Err(refused(TypeKind::BadOperand, sign)),
    }
}

pub fn indexed<'t>(
    alloc: Global,
    scope: &Scope,
    sign: &'t Token,
    a: Typed,
    b: Typed,
) -> Result<Operand<'t>, ElabError>
    ensures { Answers (spec.indexed (plain_scope scope.now) (plain_token sign.now) (plain_typed a) (plain_typed b)) plain_operand result }
{
    if is_pointer(&a.ty) && is_integer(&b.ty) {
        let core = binary(alloc, Operation::Forward, a.core, b.core)?;
        element(alloc, scope, sign, a.ty, core)
    } else if is_integer(&a.ty) && is_pointer(&b.ty) {
        let core = binary(alloc, Operation::ForwardBy, a.core, b.core)?;
        element(alloc, scope, sign, b.ty, core)
    } else {
        Err(refused(TypeKind::BadOperand, sign))
    }
}
