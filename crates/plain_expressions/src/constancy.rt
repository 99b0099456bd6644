//! Constant expressions (6.6).
ghost use Rattle.std.specs.Prelude.{◌≡◌, not, option_map};
ghost use Rattle.c_text.specs.Token.{plain_token};
ghost use Rattle.c_types.specs.Integers as integers;
ghost use Rattle.c_types.specs.Integers.{IsValue};
ghost use Rattle.c_types.specs.Arithmetic as arithmetic;
ghost use Rattle.c_tree.specs.Trees.{plain_tree};
ghost use Rattle.core_meaning.specs.Checking.{found_or};
ghost use Rattle.core_meaning.specs.Memory.{defined_value};
ghost use Rattle.core_meaning.specs.Meaning as meaning;
ghost use Rattle.core_meaning.specs.Plain.{plain_expression};
ghost use Rattle.core_meaning.specs.Program.{type_of};
ghost use Rattle.core_meaning.specs.Constancy as spec;
ghost use Rattle.plain_scope.specs.PlainScope.{plain_scope};
ghost use Rattle.plain_scope.specs.Judgements.{Answers, Judges};
ghost use Rattle.plain_operands.specs.PlainOperands.{plain_typed};
ghost use Rattle.plain_expressions.specs.Constants.{is_of_numbers, count_in};

use crate::expressions::valued;
use c_text::Token;
use c_tree::Tree;
use c_types::{Arith, BinaryOp, a_conversion_is_the_one_value, binary, convert};
use core_meaning::{Expression, IntegerType, Operation, TypeKind};
use plain_operands::Typed;
use plain_scope::{ElabError, Scope, Used, first_token, is_integer, refused, type_of};
use std::alloc::Global;

/// The most elements that an array may have, which is this project's own limit.
pub const MOST_ELEMENTS: u32 = 1_048_576;

fn is_of_numbers(op: Operation) -> bool
    ensures { result ≡ is_of_numbers op }
{
    matches!(op, Operation::Numbers(_, _))
}

/// Whether an expression is made of numbers and operators on them.
#[tactic(auto, using(core_meaning::specs::PlainLaws::expression_kinds, crate::proofs::ConstantLaws::constant_operation))]
pub fn is_constant(e: &Expression) -> bool
    ensures { result ≡ spec.is_constant (plain_expression e.now) }
{
    match e {
        Expression::Number(_) => true,
        Expression::Convert(_, e) => is_constant(e),
        Expression::Binary(op, a, b) => is_of_numbers(*op) && is_constant(a) && is_constant(b),
        Expression::Not(e) => is_constant(e),
        Expression::And(a, b) => is_constant(a) && is_constant(b),
        Expression::Or(a, b) => is_constant(a) && is_constant(b),
        Expression::Choose(c, a, b) => is_constant(c) && is_constant(a) && is_constant(b),
        Expression::Null
        | Expression::Read(_)
        | Expression::Address(_)
        | Expression::FirstElement(_)
        | Expression::Assign(_, _)
        | Expression::Update(_, _, _)
        | Expression::UpdateAfter(_, _, _)
        | Expression::Call(_, _)
        | Expression::Discard(_) => false,
    }
}

/// A number as one of an integer type.
#[tactic(auto, using(c_types::specs::TypeLaws::type_kinds))]
fn converted(ty: IntegerType, z: i128) -> i128
    ensures value { result ≡ integers.converted (type_of ty) z }
    ensures fits { IsValue (type_of ty) result }
{
    a_conversion_is_the_one_value();
    convert(&type_of(ty), z)
}

fn right_operand(op: BinaryOp, ty: IntegerType, z: i128) -> i128
    ensures value { result ≡ meaning.right_operand op (type_of ty) z }
    ensures fits { arithmetic.IsRightOperand op (type_of ty) result }
{
    match op {
        BinaryOp::Shl | BinaryOp::Shr => z,
        _ => converted(ty, z),
    }
}

fn value_in(answer: Arith) -> Option<i128>
    ensures { result ≡ defined_value answer }
{
    match answer {
        Arith::Value(z) => Some(z),
        Arith::Undefined => None,
    }
}

fn computed(op: BinaryOp, ty: IntegerType, a: i128, b: i128) -> Option<i128>
    ensures { result ≡ meaning.computed op (type_of ty) a b }
{
    let left = converted(ty, a);
    let right = right_operand(op, ty, b);
    value_in(binary(op, &type_of(ty), left, right))
}

fn computed_from(op: Operation, a: Option<i128>, b: Option<i128>) -> Option<i128>
    ensures { result ≡ spec.computed_from op a b }
{
    match (op, a, b) {
        (Operation::Numbers(op, ty), Some(a), Some(b)) => computed(op, ty, a, b),
        _ => None,
    }
}

fn truth(holds: bool) -> i128
    ensures { result ≡ spec.truth_of holds }
{
    if holds { 1 } else { 0 }
}

fn is_zero(z: i128) -> bool
    ensures { result ≡ arithmetic.is_zero z }
{
    z == 0
}

fn converted_if(ty: IntegerType, a: Option<i128>) -> Option<i128>
    ensures { result ≡ option_map (integers.converted (type_of ty)) a }
{
    match a {
        Some(z) => Some(converted(ty, z)),
        None => None,
    }
}

fn negated(a: Option<i128>) -> Option<i128>
    ensures { result ≡ option_map (λ z. spec.truth_of (arithmetic.is_zero z)) a }
{
    match a {
        Some(z) => Some(truth(is_zero(z))),
        None => None,
    }
}

fn held(a: Option<i128>) -> Option<i128>
    ensures { result ≡ option_map (λ z. spec.truth_of (not (arithmetic.is_zero z))) a }
{
    match a {
        Some(z) => Some(truth(!is_zero(z))),
        None => None,
    }
}

fn both_hold(a: Option<i128>, b: Option<i128>) -> Option<i128>
    ensures { result ≡ spec.both_hold a b }
{
    match a {
        None => None,
        Some(z) => { if is_zero(z) { Some(0) } else { held(b) } }
    }
}

fn one_holds(a: Option<i128>, b: Option<i128>) -> Option<i128>
    ensures { result ≡ spec.one_holds a b }
{
    match a {
        None => None,
        Some(z) => { if is_zero(z) { held(b) } else { Some(1) } }
    }
}

fn chosen(c: Option<i128>, a: Option<i128>, b: Option<i128>) -> Option<i128>
    ensures { result ≡ spec.chosen_value c a b }
{
    match c {
        None => None,
        Some(z) => { if is_zero(z) { b } else { a } }
    }
}

/// The value of a constant expression, if it is defined; an operand that C doesn't evaluate may have none.
#[tactic(auto, using(core_meaning::specs::PlainLaws::expression_kinds))]
pub fn constant_value(e: &Expression) -> Option<i128>
    ensures { result ≡ spec.constant_value (plain_expression e.now) }
{
    match e {
        Expression::Number(z) => Some(*z),
        Expression::Convert(ty, e) => converted_if(*ty, constant_value(e)),
        Expression::Binary(op, a, b) => computed_from(*op, constant_value(a), constant_value(b)),
        Expression::Not(e) => negated(constant_value(e)),
        Expression::And(a, b) => both_hold(constant_value(a), constant_value(b)),
        Expression::Or(a, b) => one_holds(constant_value(a), constant_value(b)),
        Expression::Choose(c, a, b) => chosen(
            constant_value(c),
            constant_value(a),
            constant_value(b),
        ),
        Expression::Null
        | Expression::Read(_)
        | Expression::Address(_)
        | Expression::FirstElement(_)
        | Expression::Assign(_, _)
        | Expression::Update(_, _, _)
        | Expression::UpdateAfter(_, _, _)
        | Expression::Call(_, _)
        | Expression::Discard(_) => None,
    }
}

/// The value of an expression that is constant, if it is defined.
pub fn value_if_constant(e: &Expression) -> Option<i128>
    ensures { result ≡ spec.value_if_constant (plain_expression e.now) }
{
    if is_constant(e) {
        constant_value(e)
    } else {
        None
    }
}

/// A number as a count of elements.
fn count_from(z: i128) -> Option<u32>
    ensures { result ≡ spec.count_from z }
{
    match u32::try_from(z) {
        Ok(n) if n >= 1 && n <= MOST_ELEMENTS => Some(n),
        _ => None,
    }
}

fn count_of_value(value: Option<i128>) -> Option<u32>
    ensures { result ≡ spec.count_of_value value }
{
    match value {
        Some(z) => count_from(z),
        None => None,
    }
}

fn count_of(x: &Typed) -> Option<u32>
    ensures { result ≡ count_in (plain_typed x.now) }
{
    if is_integer(&x.ty) {
        count_of_value(value_if_constant(&x.core))
    } else {
        None
    }
}

/// The size of an array (6.7.6.2).
pub fn count(
    alloc: Global,
    scope: &Scope,
    used: &mut Used,
    tree: &Tree,
    behind: &Token,
) -> Result<u32, ElabError>
    ensures { Judges (spec.judged_count (plain_scope scope.now) (plain_tree tree.now) (plain_token behind.now)) (λ n. n) used.old used.new result }
{
    let x = valued(alloc, scope, used, tree)?;
    counted(&x, first_token(tree, behind))
}

fn counted(x: &Typed, first: &Token) -> Result<u32, ElabError>
    ensures { Answers (found_or (count_in (plain_typed x.now)) TypeKind.BadConstant (plain_token first.now)) (λ n. n) result }
{
    match count_of(x) {
        Some(n) => Ok(n),
        None => Err(refused(TypeKind::BadConstant, first)),
    }
}
