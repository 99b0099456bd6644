//! What expressions designate, and their values (6.3.2.1).
ghost use Rattle.std.specs.Prelude.{◌≡◌, false, pos, IfOk, Some, option_map};
ghost use Rattle.c_text.specs.Token.{plain_token};
ghost use Rattle.c_types.specs.Types.{plain_type, int};
ghost use Rattle.core_meaning.specs.Plain.{plain_expression, plain_place};
ghost use Rattle.core_meaning.specs.Checking.{found_or};
ghost use Rattle.core_meaning.specs.Typing as spec;
ghost use Rattle.plain_scope.specs.PlainScope.{plain_scope};
ghost use Rattle.core_meaning.specs.Program as program;
ghost use Rattle.plain_operands.specs.PlainOperands.{plain_operand, plain_typed, boxed_expression};
ghost use Rattle.plain_scope.specs.Judgements.{Answers};
ghost use Rattle.plain_operands.specs.Values.{load_object, read_object};

use crate::boxes::{expression_in_box, type_in_box};
use c_text::Token;
use c_types::CType;
use cond_formula::NoMemory;
use core_meaning::{Expression, Place, TypeKind};
use plain_scope::{
    ElabError, Scope, copied, integer_type, is_integer, is_pointer, is_struct, refused, same_type,
    unless,
};
use std::alloc::Global;

#[derive(Drop)]
pub enum Designation {
    Value(Box<Expression>),
    /// An object or a part of one, and whether it may be assigned to and pointed at.
    Object(Box<Place>, bool),
}

#[derive(Drop)]
pub struct Operand<'t> {
    pub ty: Box<CType>,
    pub designates: Designation,
    /// It is the null constant: a number of value 0, perhaps in parentheses.
    pub is_null: bool,
    /// Where it is refused if its value is needed and its type isn't complete.
    pub stands_at: &'t Token,
}

/// An expression by its value.
#[derive(Drop)]
pub struct Typed {
    pub ty: Box<CType>,
    pub core: Box<Expression>,
    pub is_null: bool,
}

pub fn of_value(token: &Token, ty: Box<CType>, core: Box<Expression>) -> Operand<'_>
    ensures { plain_operand result ≡ spec.of_value (plain_token token.now) (plain_type ty.value) (plain_expression core.value) }
{
    Operand {
        ty,
        designates: Designation::Value(core),
        is_null: false,
        stands_at: token,
    }
}

pub fn of_object(token: &Token, ty: Box<CType>, place: Box<Place>, free: bool) -> Operand<'_>
    ensures { plain_operand result ≡ spec.of_object (plain_token token.now) (plain_type ty.value) (plain_place place.value) free }
{
    Operand {
        ty,
        designates: Designation::Object(place, free),
        is_null: false,
        stands_at: token,
    }
}

pub fn typed_value(ty: Box<CType>, core: Box<Expression>) -> Typed
    ensures { plain_typed result ≡ spec.typed (plain_type ty.value) (plain_expression core.value) }
{
    Typed {
        ty,
        core,
        is_null: false,
    }
}

/// A copy of a type in a box.
pub fn same(alloc: Global, ty: &CType) -> Result<Box<CType>, NoMemory>
    ensures { IfOk result (λ c. plain_type c.value ≡ plain_type ty.now) }
{
    type_in_box(alloc, copied(alloc, ty)?)
}

#[tactic(auto, using(c_types::specs::TypeLaws::type_kinds))]
pub fn int(alloc: Global) -> Result<Box<CType>, NoMemory>
    ensures { IfOk result (λ c. plain_type c.value ≡ int) }
{
    type_in_box(alloc, CType::Int)
}

#[tactic(auto, using(core_meaning::specs::PlainLaws::expression_kinds))]
fn read_of(alloc: Global, place: Box<Place>) -> Result<Box<Expression>, NoMemory>
    ensures { IfOk result (λ e. plain_expression e.value ≡ program.read (plain_place place.value)) }
{
    expression_in_box(alloc, Expression::Read(place))
}

#[tactic(auto, using(core_meaning::specs::PlainLaws::expression_kinds))]
fn first_of(alloc: Global, place: Box<Place>) -> Result<Box<Expression>, NoMemory>
    ensures { IfOk result (λ e. plain_expression e.value ≡ program.first_element (plain_place place.value)) }
{
    expression_in_box(alloc, Expression::FirstElement(place))
}

fn read_from(
    alloc: Global,
    scope: &Scope,
    ty: Box<CType>,
    place: Box<Place>,
    at: &Token,
) -> Result<Typed, ElabError>
    ensures { Answers (read_object (plain_scope scope.now).structs (plain_type ty.value) (plain_place place.value) (plain_token at.now)) plain_typed result }
{
    unless(scope.is_complete(&ty), TypeKind::Incomplete, at)?;
    Ok(typed_value(ty, read_of(alloc, place)?))
}

#[tactic(auto, using(c_types::specs::TypeLaws::type_kinds))]
fn loaded_object(
    alloc: Global,
    scope: &Scope,
    ty: Box<CType>,
    place: Box<Place>,
    at: &Token,
) -> Result<Typed, ElabError>
    ensures { Answers (load_object (plain_scope scope.now).structs (plain_type ty.value) (plain_place place.value) (plain_token at.now)) plain_typed result }
{
    let ty = Box::into_inner(ty);
    match ty {
        CType::Array(element, _) => {
            let pointer = type_in_box(alloc, CType::Pointer(element))?;
            Ok(typed_value(pointer, first_of(alloc, place)?))
        }
        CType::Void => {
            let nothing = type_in_box(alloc, CType::Void)?;
            Ok(typed_value(nothing, read_of(alloc, place)?))
        }
        CType::Char
        | CType::UChar
        | CType::Int
        | CType::UInt
        | CType::Long
        | CType::ULong
        | CType::Pointer(_)
        | CType::Struct(_) => read_from(alloc, scope, type_in_box(alloc, ty)?, place, at),
    }
}

/// The value of what an expression designates: that of an array is a pointer to its first element.
pub fn loaded(alloc: Global, scope: &Scope, operand: Operand) -> Result<Typed, ElabError>
    ensures { Answers (spec.loaded (plain_scope scope.now) (plain_operand operand.entry)) plain_typed result }
{
    let Operand {
        ty,
        designates,
        is_null,
        stands_at,
    } = operand;
    match designates {
        Designation::Value(core) => Ok(Typed { ty, core, is_null }),
        Designation::Object(place, _) => loaded_object(alloc, scope, ty, place, stands_at),
    }
}

#[tactic(auto, using(core_meaning::specs::PlainLaws::expression_kinds))]
pub fn conversion(
    alloc: Global,
    ty: &CType,
    core: Box<Expression>,
) -> Result<Box<Expression>, NoMemory>
    ensures { IfOk result (λ e. plain_expression e.value ≡ program.convert (spec.integer_type (plain_type ty.now)) (plain_expression core.value)) }
{
    expression_in_box(alloc, Expression::Convert(integer_type(ty), core))
}

/// A number in another type; nothing is written out where the types are the same.
pub fn number_in_type(alloc: Global, ty: &CType, x: Typed) -> Result<Box<Expression>, NoMemory>
    ensures { IfOk result (λ e. plain_expression e.value ≡ spec.number_in_type (plain_type ty.now) (plain_typed x)) }
{
    if same_type(ty, &x.ty) {
        Ok(x.core)
    } else {
        conversion(alloc, ty, x.core)
    }
}

/// A value as one of another type, where it may be assigned, passed or returned as one (6.5.16.1).
#[tactic(auto, using(core_meaning::specs::PlainLaws::expression_kinds))]
pub fn fits_into(alloc: Global, ty: &CType, x: Typed) -> Result<Option<Box<Expression>>, NoMemory>
    ensures { IfOk result (λ core. option_map boxed_expression core ≡ spec.fits_into (plain_type ty.now) (plain_typed x)) }
{
    if is_integer(ty) && is_integer(&x.ty) {
        Ok(Some(number_in_type(alloc, ty, x)?))
    } else if is_pointer(ty) && x.is_null {
        Ok(Some(expression_in_box(alloc, Expression::Null)?))
    } else if (is_pointer(ty) || is_struct(ty)) && same_type(ty, &x.ty) {
        Ok(Some(x.core))
    } else {
        Ok(None)
    }
}

/// The same, refused at a token where it doesn't fit.
pub fn fitted(
    alloc: Global,
    ty: &CType,
    x: Typed,
    kind: TypeKind,
    at: &Token,
) -> Result<Box<Expression>, ElabError>
    ensures { Answers (found_or (spec.fits_into (plain_type ty.now) (plain_typed x)) kind (plain_token at.now)) boxed_expression result }
{
    match fits_into(alloc, ty, x)? {
        Some(core) => Ok(core),
        None => Err(refused(kind, at)),
    }
}
