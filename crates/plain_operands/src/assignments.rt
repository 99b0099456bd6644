//! Assignments, `++` and `--` (6.5.2.4, 6.5.3.1, 6.5.16).
ghost use Rattle.std.specs.Prelude.{◌≡◌, true, IfOk};
ghost use Rattle.c_text.specs.Token.{plain_token};
ghost use Rattle.c_types.specs.Types.{plain_type};
ghost use Rattle.core_meaning.specs.Program as program;
ghost use Rattle.core_meaning.specs.Plain.{plain_expression, plain_place};
ghost use Rattle.core_meaning.specs.Entities as entities;
ghost use Rattle.core_meaning.specs.Typing as typing;
ghost use Rattle.core_meaning.specs.Expressions as spec;
ghost use Rattle.plain_scope.specs.PlainScope.{plain_scope};
ghost use Rattle.plain_operands.specs.PlainOperands.{plain_operand, plain_typed};
ghost use Rattle.plain_scope.specs.Judgements.{Answers};
ghost use Rattle.plain_operands.specs.Operators.{left_operand, left_place, update_by};

use crate::boxes::expression_in_box;
use crate::operands::{Designation, Operand, Typed, fitted, int, of_value, same, typed_value};
use crate::operators::{null, operation_on, operator_named};
use c_text::Token;
use c_types::{BinaryOp, CType};
use cond_formula::NoMemory;
use core_meaning::{Change, Expression, Operation, Place, TypeKind};
use plain_scope::{ElabError, Scope, integer_type, may_be_assigned, refused, unless};
use std::alloc::Global;

/// The operator of a compound assignment, of `++` or of `--` is its spelling without its last byte.
fn compound_operator(text: &[u8]) -> Option<BinaryOp>
    ensures { result ≡ spec.compound_operator text.now }
{
    operator_named(&text[..text.len().saturating_sub(1)])
}

/// What an assignment writes to.
#[derive(Drop)]
pub struct Left {
    pub ty: Box<CType>,
    pub place: Box<Place>,
}

fn is_plain_assignment(sign: &Token) -> bool
    ensures { result ≡ spec.is_plain_assignment (plain_token sign.now) }
{
    sign.text.as_slice() == b"=".as_slice()
}

/// The place that an assignment operator writes to.
pub fn assigned_place(operand: Operand, sign: &Token) -> Result<Left, ElabError>
    ensures judged { Answers (spec.assigned_place (plain_operand operand.entry) (plain_token sign.now)) (λ left. plain_place left.place.value) result }
    ensures typed { IfOk result (λ left. plain_type left.ty.value ≡ plain_type operand.entry.ty.value) }
{
    let Operand { ty, designates, .. } = operand;
    let Designation::Object(place, true) = designates else {
        return Err(refused(TypeKind::NotAssignable, sign));
    };
    unless(may_be_assigned(&ty), TypeKind::NotAssignable, sign)?;
    Ok(Left { ty, place })
}

/// The same; what an operator changes has a value, so its type is complete.
pub fn written_place(scope: &Scope, sign: &Token, operand: Operand) -> Result<Left, ElabError>
    ensures judged { Answers (spec.written_place (plain_scope scope.now) (plain_token sign.now) (plain_operand operand.entry)) left_place result }
    ensures typed { IfOk result (λ left. plain_type left.ty.value ≡ plain_type operand.entry.ty.value) }
{
    let at = operand.stands_at;
    let left = assigned_place(operand, sign)?;
    let readable = is_plain_assignment(sign) || scope.is_complete(&left.ty);
    unless(readable, TypeKind::Incomplete, at)?;
    Ok(left)
}

fn change_by(place_type: &CType, o: Option<Operation>) -> Option<Change>
    ensures { result ≡ spec.change_by (plain_type place_type.now) o }
{
    match o {
        Some(Operation::Numbers(op, ty)) => Some(Change::Numbers(op, ty, integer_type(place_type))),
        Some(Operation::Forward) => Some(Change::Forward),
        Some(Operation::Back) => Some(Change::Back),
        Some(Operation::ForwardBy)
        | Some(Operation::Distance)
        | Some(Operation::Pointers(_))
        | None => None,
    }
}

#[tactic(auto, using(core_meaning::specs::PlainLaws::expression_kinds))]
fn update_of(
    alloc: Global,
    after: bool,
    change: Change,
    place: Box<Place>,
    by: Box<Expression>,
) -> Result<Box<Expression>, NoMemory>
    ensures { IfOk result (λ e. plain_expression e.value ≡ update_by after change (plain_place place.value) (plain_expression by.value)) }
{
    if after {
        expression_in_box(alloc, Expression::UpdateAfter(change, place, by))
    } else {
        expression_in_box(alloc, Expression::Update(change, place, by))
    }
}

fn change_of(
    alloc: Global,
    scope: &Scope,
    op: BinaryOp,
    left: &Left,
    right: &Typed,
) -> Result<Option<Change>, NoMemory>
    ensures { IfOk result (λ c. c ≡ spec.change_by (plain_type left.now.ty.value) (spec.operation_on (plain_scope scope.now).structs op (typing.typed (plain_type left.now.ty.value) (program.read (plain_place left.now.place.value))) (plain_typed right.now))) }
{
    let ty = same(alloc, &left.ty)?;
    let value = typed_value(ty, null(alloc)?);
    let o = operation_on(scope, op, &value, right);
    Ok(change_by(&left.ty, o))
}

fn updated<'t>(
    alloc: Global,
    scope: &Scope,
    after: bool,
    sign: &'t Token,
    left: Left,
    right: Typed,
) -> Result<Operand<'t>, ElabError>
    ensures { Answers (spec.updated (plain_scope scope.now) (update_by after) (plain_token sign.now) (left_operand (plain_token sign.now) left) (plain_place left.place.value) (plain_typed right)) plain_operand result }
{
    let Some(op) = compound_operator(sign.text.as_slice()) else {
        return Err(ElabError::Memory);
    };
    let Some(change) = change_of(alloc, scope, op, &left, &right)? else {
        return Err(refused(TypeKind::BadOperand, sign));
    };
    let core = update_of(alloc, after, change, left.place, right.core)?;
    Ok(of_value(sign, left.ty, core))
}

#[tactic(auto, using(core_meaning::specs::PlainLaws::expression_kinds, c_types::specs::TypeLaws::type_kinds))]
fn one(alloc: Global) -> Result<Typed, NoMemory>
    ensures { IfOk result (λ x. plain_typed x ≡ spec.one) }
{
    let core = expression_in_box(alloc, Expression::Number(1))?;
    Ok(typed_value(int(alloc)?, core))
}

/// `++` and `--`, behind their operand or before it.
pub fn stepped<'t>(
    alloc: Global,
    scope: &Scope,
    after: bool,
    sign: &'t Token,
    operand: Operand,
) -> Result<Operand<'t>, ElabError>
    ensures { Answers (spec.stepped (plain_scope scope.now) (update_by after) (plain_token sign.now) (plain_operand operand.entry)) plain_operand result }
{
    let left = written_place(scope, sign, operand)?;
    let by = one(alloc)?;
    updated(alloc, scope, after, sign, left, by)
}

#[tactic(auto, using(core_meaning::specs::PlainLaws::expression_kinds))]
fn plain_assignment<'t>(
    alloc: Global,
    sign: &'t Token,
    left: Left,
    right: Typed,
) -> Result<Operand<'t>, ElabError>
    requires { spec.is_plain_assignment (plain_token sign.now) ≡ true }
    ensures { (scope : entities.Scope) → Answers (spec.assignment scope (plain_token sign.now) (left_operand (plain_token sign.now) left) (plain_place left.place.value) (plain_typed right)) plain_operand result }
{
    let core = fitted(alloc, &left.ty, right, TypeKind::BadOperand, sign)?;
    let assign = expression_in_box(alloc, Expression::Assign(left.place, core))?;
    Ok(of_value(sign, left.ty, assign))
}

pub fn assignment<'t>(
    alloc: Global,
    scope: &Scope,
    sign: &'t Token,
    left: Left,
    right: Typed,
) -> Result<Operand<'t>, ElabError>
    ensures { Answers (spec.assignment (plain_scope scope.now) (plain_token sign.now) (left_operand (plain_token sign.now) left) (plain_place left.place.value) (plain_typed right)) plain_operand result }
{
    if is_plain_assignment(sign) {
        plain_assignment(alloc, sign, left, right)
    } else {
        updated(alloc, scope, false, sign, left, right)
    }
}
