//! Members of structs (6.5.2.3).
ghost use Rattle.std.specs.Prelude.{◌≡◌, true, false, Some, None, IfOk};
ghost use Rattle.c_text.specs.Token.{plain_token};
ghost use Rattle.c_types.specs.Types.{plain_type};
ghost use Rattle.core_meaning.specs.Plain.{plain_expression, plain_place};
ghost use Rattle.core_meaning.specs.Program as program;
ghost use Rattle.core_meaning.specs.Typing as typing;
ghost use Rattle.core_meaning.specs.Expressions as spec;
ghost use Rattle.plain_scope.specs.PlainScope.{plain_scope, plain_struct};
ghost use Rattle.plain_operands.specs.PlainOperands.{plain_operand, plain_designation};
ghost use Rattle.plain_scope.specs.Judgements.{AnswersBound};
ghost use Rattle.plain_operands.specs.Operators.{member_of_loaded};

use crate::boxes::place_in_box;
use crate::operands::{Designation, Operand, loaded, of_object, same};
use c_text::Token;
use c_types::CType;
use cond_formula::NoMemory;
use core_meaning::{Expression, Place, TypeKind};
use plain_scope::{ElabError, Scope, Struct, copied, refused, unless};
use std::alloc::Global;

/// A struct's place, and whether its members may be assigned to and pointed at.
#[derive(Drop)]
struct Base {
    place: Box<Place>,
    free: bool,
}

#[tactic(auto, using(core_meaning::specs::PlainLaws::expression_kinds))]
fn member_at<'t>(
    alloc: Global,
    name: &'t Token,
    base: Base,
    ty: &CType,
    number: u32,
) -> Result<Operand<'t>, NoMemory>
    ensures { IfOk result (λ x. plain_operand x ≡ typing.of_object (plain_token name.now) (plain_type ty.now) (program.member (plain_place base.place.value) number) base.free) }
{
    let ty = same(alloc, ty)?;
    let place = place_in_box(alloc, Place::Member(base.place, number))?;
    Ok(of_object(name, ty, place, base.free))
}

fn member_in<'t>(
    alloc: Global,
    sign: &Token,
    name: &'t Token,
    base: Base,
    struct_number: u32,
    found: &Struct,
) -> Result<Operand<'t>, ElabError>
    ensures { AnswersBound (spec.member_in (plain_token sign.now) (plain_token name.now) (plain_place base.place.value) base.free struct_number (Some (plain_struct found.now))) plain_operand result }
{
    unless(found.complete, TypeKind::Incomplete, sign)?;
    let Some(number) = found.numbers.get(name.text.as_slice()) else {
        return Err(refused(TypeKind::NoMember, name));
    };
    let Some(member) = found.member(*number) else {
        return Err(ElabError::Memory);
    };
    let x = member_at(alloc, name, base, &member.ty, *number)?;
    Ok(x)
}

#[tactic(auto, using(c_types::specs::TypeLaws::type_kinds))]
fn member_of<'t>(
    alloc: Global,
    scope: &Scope,
    sign: &Token,
    name: &'t Token,
    ty: &CType,
    base: Base,
) -> Result<Operand<'t>, ElabError>
    ensures { AnswersBound (spec.member_of (plain_scope scope.now) (plain_token sign.now) (plain_token name.now) (plain_type ty.now) (plain_place base.place.value) base.free) plain_operand result }
{
    match ty {
        CType::Struct(number) => match scope.struct_of(*number) {
            Some(found) => member_in(alloc, sign, name, base, *number, found),
            None => Err(ElabError::Memory),
        },
        CType::Void
        | CType::Char
        | CType::UChar
        | CType::Int
        | CType::UInt
        | CType::Long
        | CType::ULong
        | CType::Pointer(_)
        | CType::Array(..) => Err(refused(TypeKind::BadOperand, sign)),
    }
}

/// A struct that is no object is kept in one of its own, to which nothing is assigned (6.2.4).
#[tactic(auto, using(core_meaning::specs::PlainLaws::expression_kinds))]
fn base_of(alloc: Global, ty: &CType, designates: Designation) -> Result<Base, NoMemory>
    ensures place { IfOk result (λ base. plain_place base.place.value ≡ spec.struct_place (plain_type ty.now) (plain_designation designates)) }
    ensures free { IfOk result (λ base. base.free ≡ spec.is_free (plain_designation designates)) }
{
    match designates {
        Designation::Object(place, free) => Ok(Base { place, free }),
        Designation::Value(core) => {
            let place = place_in_box(alloc, Place::Temporary(copied(alloc, ty)?, core))?;
            Ok(Base { place, free: false })
        }
    }
}

#[tactic(auto, using(core_meaning::specs::PlainLaws::expression_kinds))]
fn target_of(alloc: Global, pointer: Box<Expression>) -> Result<Base, NoMemory>
    ensures place { IfOk result (λ base. plain_place base.place.value ≡ program.target (plain_expression pointer.value)) }
    ensures free { IfOk result (λ base. base.free ≡ true) }
{
    let place = place_in_box(alloc, Place::Target(pointer))?;
    Ok(Base { place, free: true })
}

#[tactic(auto, using(c_types::specs::TypeLaws::type_kinds))]
fn member_of_target<'t>(
    alloc: Global,
    scope: &Scope,
    sign: &Token,
    name: &'t Token,
    ty: Box<CType>,
    core: Box<Expression>,
) -> Result<Operand<'t>, ElabError>
    ensures { AnswersBound (spec.member_of_target (plain_scope scope.now) (plain_token sign.now) (plain_token name.now) (typing.typed (plain_type ty.value) (plain_expression core.value)) (plain_type ty.value)) plain_operand result }
{
    match Box::into_inner(ty) {
        CType::Pointer(target) => {
            let base = target_of(alloc, core)?;
            member_of(alloc, scope, sign, name, &target, base)
        }
        CType::Void
        | CType::Char
        | CType::UChar
        | CType::Int
        | CType::UInt
        | CType::Long
        | CType::ULong
        | CType::Array(..)
        | CType::Struct(_) => Err(refused(TypeKind::BadOperand, sign)),
    }
}

fn member_of_operand<'t>(
    alloc: Global,
    scope: &Scope,
    sign: &Token,
    name: &'t Token,
    operand: Operand,
) -> Result<Operand<'t>, ElabError>
    ensures { AnswersBound (spec.member_of (plain_scope scope.now) (plain_token sign.now) (plain_token name.now) (plain_type operand.entry.ty.value) (spec.struct_place (plain_type operand.entry.ty.value) (plain_designation operand.entry.designates)) (spec.is_free (plain_designation operand.entry.designates))) plain_operand result }
{
    let Operand { ty, designates, .. } = operand;
    let base = base_of(alloc, &ty, designates)?;
    member_of(alloc, scope, sign, name, &ty, base)
}

fn member_of_loaded<'t>(
    alloc: Global,
    scope: &Scope,
    sign: &Token,
    name: &'t Token,
    operand: Operand,
) -> Result<Operand<'t>, ElabError>
    ensures { AnswersBound (member_of_loaded (plain_scope scope.now) (plain_token sign.now) (plain_token name.now) (plain_operand operand.entry)) plain_operand result }
{
    let x = loaded(alloc, scope, operand)?;
    member_of_target(alloc, scope, sign, name, x.ty, x.core)
}

/// `.` and `->`.
pub fn selected<'t>(
    alloc: Global,
    scope: &Scope,
    sign: &Token,
    name: &'t Token,
    operand: Operand,
) -> Result<Operand<'t>, ElabError>
    ensures { AnswersBound (spec.selected (plain_scope scope.now) (plain_token sign.now) (plain_token name.now) (plain_operand operand.entry)) plain_operand result }
{
    if sign.text.as_slice() == b".".as_slice() {
        member_of_operand(alloc, scope, sign, name, operand)
    } else {
        member_of_loaded(alloc, scope, sign, name, operand)
    }
}
