//! How expressions and places begin (6.5): an action for each part, and one that joins them.
#![tactic(auto)]

ghost use Rattle.std.specs.Prelude.{IfOk, OnOk, map, reverse};
ghost use Rattle.c_types.specs.Types.{plain_type};
ghost use Rattle.core_meaning.specs.Plain.{plain_expression, plain_place, plain_arguments};
ghost use Rattle.core_meaning.specs.Program as program;
ghost use Rattle.interp_actions.specs.Stacks.{Steps, Pushes};
ghost use Rattle.interp_actions.specs.Actions.{expression_action, place_action, argument_action};
ghost use Rattle.core_cells.specs.Forms.{plain_value};

use c_types::CType;
use cond_formula::NoMemory;
use core_cells::{Pointer, Scalar, Value};
use core_meaning::{Change, Expression, IntegerType, Operation, Place};
use interp_actions::{
    Action, Control, Flow, Operand, push, push_five, push_four, push_three, push_two,
};
use std::alloc::Global;

fn begin_number<'a>(control: &mut Control<'a>, number: i128) -> Result<Flow, NoMemory>
    ensures { IfOk result (λ flow. Steps flow (expression_action (program.constant number)) control.old control.new) }
{
    push(
        &mut control.operands,
        Operand::Value(Value::Scalar(Scalar::Number(number))),
    )?;
    Ok(Flow::Goes)
}

fn begin_null<'a>(control: &mut Control<'a>) -> Result<Flow, NoMemory>
    ensures { IfOk result (λ flow. Steps flow (expression_action (program.null_constant)) control.old control.new) }
{
    push(
        &mut control.operands,
        Operand::Value(Value::Scalar(Scalar::Pointer(Pointer::Null))),
    )?;
    Ok(Flow::Goes)
}

fn begin_read<'a>(control: &mut Control<'a>, place: &'a Place) -> Result<Flow, NoMemory>
    ensures { IfOk result (λ flow. Steps flow (expression_action (program.read (plain_place place.now))) control.old control.new) }
{
    push_two(&mut control.actions, Action::Place(place), Action::Read)?;
    Ok(Flow::Goes)
}

fn begin_address<'a>(control: &mut Control<'a>, place: &'a Place) -> Result<Flow, NoMemory>
    ensures { IfOk result (λ flow. Steps flow (expression_action (program.address (plain_place place.now))) control.old control.new) }
{
    push_two(&mut control.actions, Action::Place(place), Action::Address)?;
    Ok(Flow::Goes)
}

fn begin_first_element<'a>(control: &mut Control<'a>, place: &'a Place) -> Result<Flow, NoMemory>
    ensures { IfOk result (λ flow. Steps flow (expression_action (program.first_element (plain_place place.now))) control.old control.new) }
{
    push_two(
        &mut control.actions,
        Action::Place(place),
        Action::FirstElement,
    )?;
    Ok(Flow::Goes)
}

fn begin_convert<'a>(
    control: &mut Control<'a>,
    ty: IntegerType,
    inner: &'a Expression,
) -> Result<Flow, NoMemory>
    ensures { IfOk result (λ flow. Steps flow (expression_action (program.convert ty (plain_expression inner.now))) control.old control.new) }
{
    push_three(
        &mut control.actions,
        Action::Expression(inner),
        Action::Scalar,
        Action::Convert(ty),
    )?;
    Ok(Flow::Goes)
}

fn begin_binary<'a>(
    control: &mut Control<'a>,
    op: Operation,
    left: &'a Expression,
    right: &'a Expression,
) -> Result<Flow, NoMemory>
    ensures { IfOk result (λ flow. Steps flow (expression_action (program.binary op (plain_expression left.now) (plain_expression right.now))) control.old control.new) }
{
    push_five(
        &mut control.actions,
        Action::Expression(left),
        Action::Scalar,
        Action::Expression(right),
        Action::Scalar,
        Action::Operate(op),
    )?;
    Ok(Flow::Goes)
}

fn begin_not<'a>(control: &mut Control<'a>, inner: &'a Expression) -> Result<Flow, NoMemory>
    ensures { IfOk result (λ flow. Steps flow (expression_action (program.logical_not (plain_expression inner.now))) control.old control.new) }
{
    push_three(
        &mut control.actions,
        Action::Expression(inner),
        Action::Test,
        Action::Not,
    )?;
    Ok(Flow::Goes)
}

fn begin_and<'a>(
    control: &mut Control<'a>,
    left: &'a Expression,
    right: &'a Expression,
) -> Result<Flow, NoMemory>
    ensures { IfOk result (λ flow. Steps flow (expression_action (program.logical_and (plain_expression left.now) (plain_expression right.now))) control.old control.new) }
{
    push_three(
        &mut control.actions,
        Action::Expression(left),
        Action::Test,
        Action::And(right),
    )?;
    Ok(Flow::Goes)
}

fn begin_or<'a>(
    control: &mut Control<'a>,
    left: &'a Expression,
    right: &'a Expression,
) -> Result<Flow, NoMemory>
    ensures { IfOk result (λ flow. Steps flow (expression_action (program.logical_or (plain_expression left.now) (plain_expression right.now))) control.old control.new) }
{
    push_three(
        &mut control.actions,
        Action::Expression(left),
        Action::Test,
        Action::Or(right),
    )?;
    Ok(Flow::Goes)
}

fn begin_choose<'a>(
    control: &mut Control<'a>,
    condition: &'a Expression,
    first: &'a Expression,
    second: &'a Expression,
) -> Result<Flow, NoMemory>
    ensures { IfOk result (λ flow. Steps flow (expression_action (program.choose (plain_expression condition.now) (plain_expression first.now) (plain_expression second.now))) control.old control.new) }
{
    push_three(
        &mut control.actions,
        Action::Expression(condition),
        Action::Test,
        Action::Choose(first, second),
    )?;
    Ok(Flow::Goes)
}

fn begin_assign<'a>(
    control: &mut Control<'a>,
    place: &'a Place,
    right: &'a Expression,
) -> Result<Flow, NoMemory>
    ensures { IfOk result (λ flow. Steps flow (expression_action (program.assign (plain_place place.now) (plain_expression right.now))) control.old control.new) }
{
    push_four(
        &mut control.actions,
        Action::Place(place),
        Action::Expression(right),
        Action::Used,
        Action::Write,
    )?;
    Ok(Flow::Goes)
}

fn begin_update<'a>(
    control: &mut Control<'a>,
    change: Change,
    place: &'a Place,
    right: &'a Expression,
) -> Result<Flow, NoMemory>
    ensures { IfOk result (λ flow. Steps flow (expression_action (program.update change (plain_place place.now) (plain_expression right.now))) control.old control.new) }
{
    push_four(
        &mut control.actions,
        Action::Place(place),
        Action::Expression(right),
        Action::Scalar,
        Action::Update(change),
    )?;
    Ok(Flow::Goes)
}

fn begin_update_after<'a>(
    control: &mut Control<'a>,
    change: Change,
    place: &'a Place,
    right: &'a Expression,
) -> Result<Flow, NoMemory>
    ensures { IfOk result (λ flow. Steps flow (expression_action (program.update_after change (plain_place place.now) (plain_expression right.now))) control.old control.new) }
{
    push_four(
        &mut control.actions,
        Action::Place(place),
        Action::Expression(right),
        Action::Scalar,
        Action::UpdateAfter(change),
    )?;
    Ok(Flow::Goes)
}

fn begin_discard<'a>(control: &mut Control<'a>, inner: &'a Expression) -> Result<Flow, NoMemory>
    ensures { IfOk result (λ flow. Steps flow (expression_action (program.discard (plain_expression inner.now))) control.old control.new) }
{
    push_two(
        &mut control.actions,
        Action::Expression(inner),
        Action::Nothing,
    )?;
    Ok(Flow::Goes)
}

/// The place that a pointer points to: evaluates the pointer first (6.5.3.2).
pub fn begin_target<'a>(control: &mut Control<'a>, inner: &'a Expression) -> Result<Flow, NoMemory>
    ensures { IfOk result (λ flow. Steps flow (place_action (program.target (plain_expression inner.now))) control.old control.new) }
{
    push_two(
        &mut control.actions,
        Action::Expression(inner),
        Action::Target,
    )?;
    Ok(Flow::Goes)
}

/// The member with this number of a struct: finds the place of the struct first (6.5.2.3).
pub fn begin_member<'a>(
    control: &mut Control<'a>,
    place: &'a Place,
    number: u32,
) -> Result<Flow, NoMemory>
    ensures { IfOk result (λ flow. Steps flow (place_action (program.member (plain_place place.now) number)) control.old control.new) }
{
    push_two(
        &mut control.actions,
        Action::Place(place),
        Action::Member(number),
    )?;
    Ok(Flow::Goes)
}

/// A temporary object: evaluates the value that it takes first (6.2.4).
pub fn begin_temporary<'a>(
    control: &mut Control<'a>,
    ty: &'a CType,
    value: &'a Expression,
) -> Result<Flow, NoMemory>
    ensures { IfOk result (λ flow. Steps flow (place_action (program.temporary (plain_type ty.now) (plain_expression value.now))) control.old control.new) }
{
    push_three(
        &mut control.actions,
        Action::Expression(value),
        Action::Used,
        Action::Temporary(ty),
    )?;
    Ok(Flow::Goes)
}

/// The value on top is to be an argument of this function, behind these values.
pub fn then_argument<'a>(
    control: &mut Control<'a>,
    function: u32,
    rest: &'a [Expression],
    values: Vec<Value<'a>>,
) -> Result<(), NoMemory>
    ensures { OnOk result (Pushes (argument_action function (plain_arguments rest.now) (reverse (map plain_value values.entry.items))) control.old control.new) }
{
    push(
        &mut control.actions,
        Action::Argument(function, rest, values),
    )?;
    Ok(())
}

fn begin_call<'a>(
    control: &mut Control<'a>,
    alloc: Global,
    function: u32,
    arguments: &'a [Expression],
) -> Result<Flow, NoMemory>
    ensures { IfOk result (λ flow. Steps flow (expression_action (program.call function (plain_arguments arguments.now))) control.old control.new) }
{
    match arguments {
        [] => {
            push(&mut control.actions, Action::Call(function))?;
            Ok(Flow::Goes)
        }
        [first, rest @ ..] => {
            then_argument(control, function, rest, Vec::new(alloc))?;
            push_two(
                &mut control.actions,
                Action::Expression(first),
                Action::Used,
            )?;
            Ok(Flow::Goes)
        }
    }
}

/// Begins an expression: its parts are to be evaluated from left to right, and then joined. `alloc` is where the values of
/// arguments are kept. The only error is want of memory.
#[tactic(auto, using(core_meaning::specs::PlainLaws::expression_kinds))]
pub fn begin_expression<'a>(
    control: &mut Control<'a>,
    alloc: Global,
    expression: &'a Expression,
) -> Result<Flow, NoMemory>
    ensures { IfOk result (λ flow. Steps flow (expression_action (plain_expression expression.now)) control.old control.new) }
{
    match expression {
        Expression::Number(number) => begin_number(control, *number),
        Expression::Null => begin_null(control),
        Expression::Read(place) => begin_read(control, place),
        Expression::Address(place) => begin_address(control, place),
        Expression::FirstElement(place) => begin_first_element(control, place),
        Expression::Convert(ty, inner) => begin_convert(control, *ty, inner),
        Expression::Binary(op, left, right) => begin_binary(control, *op, left, right),
        Expression::Not(inner) => begin_not(control, inner),
        Expression::And(left, right) => begin_and(control, left, right),
        Expression::Or(left, right) => begin_or(control, left, right),
        Expression::Choose(condition, first, second) => {
            begin_choose(control, condition, first, second)
        }
        Expression::Assign(place, right) => begin_assign(control, place, right),
        Expression::Update(change, place, right) => begin_update(control, *change, place, right),
        Expression::UpdateAfter(change, place, right) => {
            begin_update_after(control, *change, place, right)
        }
        Expression::Call(function, arguments) => begin_call(control, alloc, *function, arguments),
        Expression::Discard(inner) => begin_discard(control, inner),
    }
}
