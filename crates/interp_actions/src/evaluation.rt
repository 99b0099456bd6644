//! Actions that take a value, a place or a truth value and leave another (6.5).
ghost use Rattle.std.specs.Prelude.{IfOk, option_map};
ghost use Rattle.core_meaning.specs.Values as plain_form;
ghost use Rattle.core_cells.specs.Forms.{plain_pointer, plain_scalar};
ghost use Rattle.interp_actions.specs.Pieces.{PutsGiven};
ghost use Rattle.core_meaning.specs.Plain.{plain_expression, plain_statement};
ghost use Rattle.interp_actions.specs.Stacks.{Steps};
ghost use Rattle.interp_actions.specs.Actions as plain;

use crate::actions::{Action, Ending, Flow, Operand};
use crate::control::{Control, push, push_three};
use cond_formula::NoMemory;
use core_cells::{Pointer, Scalar, Value};
use core_meaning::{Expression, IntegerType, Statement};
use core_memory::{first_element, scalar_in_type};

/// Wants the value on top to be one: that of a call that ended without a value is undefined where it is used (6.9.1).
pub fn use_value<'a>(control: &mut Control<'a>) -> Result<Flow, NoMemory>
    ensures { IfOk result (λ flow. Steps flow plain.use_action control.old control.new) }
{
    match control.take_value() {
        None => Ok(Flow::Fails),
        Some(Value::Nothing) => Ok(Flow::Fails),
        Some(Value::Scalar(scalar)) => {
            push(&mut control.operands, Operand::Value(Value::Scalar(scalar)))?;
            Ok(Flow::Goes)
        }
        Some(Value::Whole(cells)) => {
            push(&mut control.operands, Operand::Value(Value::Whole(cells)))?;
            Ok(Flow::Goes)
        }
    }
}

/// Turns the value on top into a scalar; a struct, or no value, is undefined there.
pub fn use_scalar<'a>(control: &mut Control<'a>) -> Result<Flow, NoMemory>
    ensures { IfOk result (λ flow. Steps flow plain.scalar_action control.old control.new) }
{
    match control.take_value() {
        None => Ok(Flow::Fails),
        Some(Value::Nothing) => Ok(Flow::Fails),
        Some(Value::Whole(_)) => Ok(Flow::Fails),
        Some(Value::Scalar(scalar)) => {
            push(&mut control.operands, Operand::Scalar(scalar))?;
            Ok(Flow::Goes)
        }
    }
}

/// Turns the value on top, a scalar, into whether it compares unequal to 0 (6.8.4.1).
pub fn test<'a>(control: &mut Control<'a>) -> Result<Flow, NoMemory>
    ensures { IfOk result (λ flow. Steps flow plain.test_action control.old control.new) }
{
    match control.take_value() {
        None => Ok(Flow::Fails),
        Some(Value::Nothing) => Ok(Flow::Fails),
        Some(Value::Whole(_)) => Ok(Flow::Fails),
        Some(Value::Scalar(scalar)) => {
            control.put_truth_of(scalar)?;
            Ok(Flow::Goes)
        }
    }
}

/// Turns the value on top, a pointer, into the place that it points to (6.5.3.2).
pub fn target<'a>(control: &mut Control<'a>) -> Result<Flow, NoMemory>
    ensures { IfOk result (λ flow. Steps flow plain.target_action control.old control.new) }
{
    match control.take_value() {
        None => Ok(Flow::Fails),
        Some(Value::Nothing) => Ok(Flow::Fails),
        Some(Value::Whole(_)) => Ok(Flow::Fails),
        Some(Value::Scalar(Scalar::Number(_))) => Ok(Flow::Fails),
        Some(Value::Scalar(Scalar::Pointer(pointer))) => {
            push(&mut control.operands, Operand::Place(pointer))?;
            Ok(Flow::Goes)
        }
    }
}

/// Turns the condition on top into the `int` that `!` gives: 1 where it doesn't hold, else 0 (6.5.3.3).
pub fn not<'a>(control: &mut Control<'a>) -> Result<Flow, NoMemory>
    ensures { IfOk result (λ flow. Steps flow plain.not_action control.old control.new) }
{
    match control.take_truth() {
        None => Ok(Flow::Fails),
        Some(holds) => {
            push(
                &mut control.operands,
                Operand::Value(Value::Scalar(Scalar::Number(i128::from(!holds)))),
            )?;
            Ok(Flow::Goes)
        }
    }
}

/// Turns the condition on top into the `int` 1 where it holds, else 0 (6.5.13, 6.5.14).
pub fn truth_value<'a>(control: &mut Control<'a>) -> Result<Flow, NoMemory>
    ensures { IfOk result (λ flow. Steps flow plain.truth_action control.old control.new) }
{
    match control.take_truth() {
        None => Ok(Flow::Fails),
        Some(holds) => {
            push(
                &mut control.operands,
                Operand::Value(Value::Scalar(Scalar::Number(i128::from(holds)))),
            )?;
            Ok(Flow::Goes)
        }
    }
}

/// Puts no value in the place of the value on top, as a cast to `void` does (6.3.2.2).
pub fn nothing<'a>(control: &mut Control<'a>) -> Result<Flow, NoMemory>
    ensures { IfOk result (λ flow. Steps flow plain.nothing_action control.old control.new) }
{
    match control.take_value() {
        None => Ok(Flow::Fails),
        Some(value) => {
            control.put_for(value, Operand::Value(Value::Nothing))?;
            Ok(Flow::Goes)
        }
    }
}

/// The left operand of `&&` is on top: the value is 0 where it doesn't hold, else the right operand is tested (6.5.13).
pub fn and<'a>(control: &mut Control<'a>, right: &'a Expression) -> Result<Flow, NoMemory>
    ensures { IfOk result (λ flow. Steps flow (plain.and_action (plain_expression right.now)) control.old control.new) }
{
    match control.take_truth() {
        None => Ok(Flow::Fails),
        Some(false) => {
            let zero = Operand::Value(Value::Scalar(Scalar::Number(0)));
            push(&mut control.operands, zero)?;
            Ok(Flow::Goes)
        }
        Some(true) => {
            push_three(
                &mut control.actions,
                Action::Expression(right),
                Action::Test,
                Action::TruthValue,
            )?;
            Ok(Flow::Goes)
        }
    }
}

/// The left operand of `||` is on top: the value is 1 where it holds, else the right operand is tested (6.5.14).
pub fn or<'a>(control: &mut Control<'a>, right: &'a Expression) -> Result<Flow, NoMemory>
    ensures { IfOk result (λ flow. Steps flow (plain.or_action (plain_expression right.now)) control.old control.new) }
{
    match control.take_truth() {
        None => Ok(Flow::Fails),
        Some(true) => {
            push(
                &mut control.operands,
                Operand::Value(Value::Scalar(Scalar::Number(1))),
            )?;
            Ok(Flow::Goes)
        }
        Some(false) => {
            push_three(
                &mut control.actions,
                Action::Expression(right),
                Action::Test,
                Action::TruthValue,
            )?;
            Ok(Flow::Goes)
        }
    }
}

/// The condition of `?:` is on top: evaluates the first expression where it holds, else the second (6.5.15).
pub fn choose<'a>(
    control: &mut Control<'a>,
    first: &'a Expression,
    second: &'a Expression,
) -> Result<Flow, NoMemory>
    ensures { IfOk result (λ flow. Steps flow (plain.choose_action (plain_expression first.now) (plain_expression second.now)) control.old control.new) }
{
    match control.take_truth() {
        None => Ok(Flow::Fails),
        Some(true) => {
            push(&mut control.actions, Action::Expression(first))?;
            Ok(Flow::Goes)
        }
        Some(false) => {
            push(&mut control.actions, Action::Expression(second))?;
            Ok(Flow::Goes)
        }
    }
}

/// Turns the place on top into a pointer to it (6.5.3.2).
pub fn address<'a>(control: &mut Control<'a>) -> Result<Flow, NoMemory>
    ensures { IfOk result (λ flow. Steps flow plain.address_action control.old control.new) }
{
    match control.take_place() {
        None => Ok(Flow::Fails),
        Some(place) => {
            push(
                &mut control.operands,
                Operand::Value(Value::Scalar(Scalar::Pointer(place))),
            )?;
            Ok(Flow::Goes)
        }
    }
}

/// An expression statement ends: its value isn't kept (6.8.3).
pub fn falls<'a>(control: &mut Control<'a>) -> Result<Flow, NoMemory>
    ensures { IfOk result (λ flow. Steps flow plain.falls_action control.old control.new) }
{
    match control.take_value() {
        None => Ok(Flow::Fails),
        Some(value) => {
            control.put_for(value, Operand::Ending(Ending::Falls))?;
            Ok(Flow::Goes)
        }
    }
}

/// The value on top is what the function returns (6.8.6.4).
pub fn return_value<'a>(control: &mut Control<'a>) -> Result<Flow, NoMemory>
    ensures { IfOk result (λ flow. Steps flow plain.return_value_action control.old control.new) }
{
    match control.take_value() {
        None => Ok(Flow::Fails),
        Some(value) => {
            push(
                &mut control.operands,
                Operand::Ending(Ending::Returns(value)),
            )?;
            Ok(Flow::Goes)
        }
    }
}

/// The condition of an `if` is on top: does the first statement where it holds, else the second (6.8.4.1).
pub fn branch<'a>(
    control: &mut Control<'a>,
    first: &'a Statement,
    second: &'a Statement,
) -> Result<Flow, NoMemory>
    ensures { IfOk result (λ flow. Steps flow (plain.if_action (plain_statement first.now) (plain_statement second.now)) control.old control.new) }
{
    match control.take_truth() {
        None => Ok(Flow::Fails),
        Some(true) => {
            push(&mut control.actions, Action::Statement(first))?;
            Ok(Flow::Goes)
        }
        Some(false) => {
            push(&mut control.actions, Action::Statement(second))?;
            Ok(Flow::Goes)
        }
    }
}

/// Converts the scalar on top, a number, to an integer type (6.3.1.3).
pub fn convert<'a>(control: &mut Control<'a>, ty: IntegerType) -> Result<Flow, NoMemory>
    ensures { IfOk result (λ flow. Steps flow (plain.convert_action ty) control.old control.new) }
{
    match control.take_scalar() {
        None => Ok(Flow::Fails),
        Some(scalar) => {
            let converted = scalar_in_type(ty, scalar);
            let flow = put_scalar(control, converted)?;
            Ok(flow)
        }
    }
}

/// A scalar, if there is one, is the value of what was done.
pub fn put_scalar<'a>(control: &mut Control<'a>, scalar: Option<Scalar>) -> Result<Flow, NoMemory>
    ensures { IfOk result (λ flow. PutsGiven flow (option_map (λ s. plain.value_operand (plain_form.scalar s)) (option_map plain_scalar scalar)) control.old control.new) }
{
    match scalar {
        None => Ok(Flow::Fails),
        Some(scalar) => {
            push(&mut control.operands, Operand::Value(Value::Scalar(scalar)))?;
            Ok(Flow::Goes)
        }
    }
}

/// A pointer, if there is one, is the value of what was done.
fn put_pointer<'a>(control: &mut Control<'a>, pointer: Option<Pointer>) -> Result<Flow, NoMemory>
    ensures { IfOk result (λ flow. PutsGiven flow (option_map (λ q. plain.value_operand (plain_form.scalar (plain_form.pointer q))) (option_map plain_pointer pointer)) control.old control.new) }
{
    match pointer {
        None => Ok(Flow::Fails),
        Some(pointer) => {
            push(
                &mut control.operands,
                Operand::Value(Value::Scalar(Scalar::Pointer(pointer))),
            )?;
            Ok(Flow::Goes)
        }
    }
}

/// Turns the place on top, an array, into a pointer to its first element (6.3.2.1).
pub fn to_first_element<'a>(control: &mut Control<'a>) -> Result<Flow, NoMemory>
    ensures { IfOk result (λ flow. Steps flow plain.first_action control.old control.new) }
{
    match control.take_place() {
        None => Ok(Flow::Fails),
        Some(place) => {
            let first = first_element(place)?;
            let flow = put_pointer(control, first)?;
            Ok(flow)
        }
    }
}
