//! Full expressions, temporary objects and calls (6.2.4, 6.5.2.2, 6.8).
ghost use Rattle.std.specs.Prelude.{◌≡◌, ◌<◌, ℕ, ◌∷◌, [], IfOk, Some, length, map, reverse, slice_get};
ghost use Rattle.c_types.specs.Types.{plain_type};
ghost use Rattle.core_meaning.specs.Plain.{plain_arguments, plain_function, plain_items};
ghost use Rattle.core_meaning.specs.Program.{defined};
ghost use Rattle.core_cells.specs.Forms.{plain_value};
ghost use Rattle.interp_actions.specs.Actions as plain;
ghost use Rattle.run_machine.specs.Machines.{Does, DoesAction, ComesTo, program_of, entered_outcome, temporary_outcome};

use crate::library::call_built_in;
use c_types::CType;
use cond_formula::NoMemory;
use core_cells::Value;
use core_meaning::{Definition, Expression, Function, Item};
use interp_actions::{Action, Ending, Flow, Frame, Operand, push, push_two, put_object};
use interp_expressions::then_argument;
use run_machine::{Machine, declare, end_all, frame_of, write_whole};
use std::mem;

// ---- full expressions

/// A full expression ends, and with it its temporary objects; those of the one around it are back (6.8).
pub fn end_full<'a>(machine: &mut Machine<'a>, outer: Vec<usize>) -> Result<Flow, NoMemory>
    ensures { IfOk result (λ flow. Does flow (plain.end_full_action (reverse outer.items)) machine.old machine.new) }
{
    end_all(&mut machine.memory, machine.alloc, &machine.temporaries);
    machine.temporaries = outer;
    Ok(Flow::Goes)
}

/// The value on top is that of a temporary object, which is made for it (6.2.4).
pub fn temporary<'a>(machine: &mut Machine<'a>, ty: &'a CType) -> Result<Flow, NoMemory>
    ensures { IfOk result (λ flow. Does flow (plain.temporary_action (plain_type ty.now)) machine.old machine.new) }
{
    match machine.control.take_value() {
        None => Ok(Flow::Fails),
        Some(value) => temporary_with(machine, ty, value),
    }
}

fn temporary_with<'a>(
    machine: &mut Machine<'a>,
    ty: &'a CType,
    value: Value<'a>,
) -> Result<Flow, NoMemory>
    ensures { IfOk result (λ flow. ComesTo flow (temporary_outcome (plain_type ty.now) (plain_value value.entry) machine.old) machine.new) }
{
    let object = machine.memory.make(machine.alloc, ty)?;
    let done = write_whole(&mut machine.memory, machine.alloc, object, value)?;
    if done {
        machine.temporaries.push(object)?;
        let flow = put_object(&mut machine.control, machine.alloc, object)?;
        Ok(flow)
    } else {
        Ok(Flow::Fails)
    }
}

// ---- arguments

/// The value is an argument; evaluates those that are left, and then calls the function with all of them.
pub fn argument<'a>(
    machine: &mut Machine<'a>,
    function: u32,
    arguments: &'a [Expression],
    values: Vec<Value<'a>>,
) -> Result<Flow, NoMemory>
    ensures { IfOk result (λ flow. Does flow (plain.argument_action function (plain_arguments arguments.now) (reverse (map plain_value values.entry.items))) machine.old machine.new) }
{
    match machine.control.take_value() {
        None => Ok(Flow::Fails),
        Some(value) => with_argument(machine, function, arguments, values, value),
    }
}

fn with_argument<'a>(
    machine: &mut Machine<'a>,
    function: u32,
    arguments: &'a [Expression],
    mut values: Vec<Value<'a>>,
    value: Value<'a>,
) -> Result<Flow, NoMemory>
    ensures { IfOk result (λ flow. Does flow (plain.arguments_action function (plain_arguments arguments.now) (plain_value value.entry ∷ reverse (map plain_value values.entry.items))) machine.old machine.new) }
{
    values.push(value)?;
    next_argument(machine, function, arguments, values)
}

fn next_argument<'a>(
    machine: &mut Machine<'a>,
    function: u32,
    arguments: &'a [Expression],
    values: Vec<Value<'a>>,
) -> Result<Flow, NoMemory>
    ensures { IfOk result (λ flow. Does flow (plain.arguments_action function (plain_arguments arguments.now) (reverse (map plain_value values.entry.items))) machine.old machine.new) }
{
    match arguments {
        [] => call(machine, function, values),
        [argument, rest @ ..] => {
            then_argument(&mut machine.control, function, rest, values)?;
            push_two(
                &mut machine.control.actions,
                Action::Expression(argument),
                Action::Used,
            )?;
            Ok(Flow::Goes)
        }
    }
}

// ---- calls

/// Calls a function without arguments (6.5.2.2).
pub fn call_without<'a>(machine: &mut Machine<'a>, function: u32) -> Result<Flow, NoMemory>
    ensures { IfOk result (λ flow. Does flow (plain.call_action function []) machine.old machine.new) }
{
    call(machine, function, Vec::new(machine.alloc))
}

fn call<'a>(
    machine: &mut Machine<'a>,
    function: u32,
    arguments: Vec<Value<'a>>,
) -> Result<Flow, NoMemory>
    ensures { IfOk result (λ flow. Does flow (plain.call_action function (map plain_value arguments.entry.items)) machine.old machine.new) }
{
    let program = machine.program;
    match program.functions.get(function as usize) {
        None => Ok(Flow::Fails),
        Some(called) => call_of(machine, called, arguments),
    }
}

fn call_of<'a>(
    machine: &mut Machine<'a>,
    called: &'a Function,
    arguments: Vec<Value<'a>>,
) -> Result<Flow, NoMemory>
    ensures { IfOk result (λ flow. (f : ℕ) → slice_get (program_of machine.old).functions f ≡ Some (plain_function called.now) → Does flow (plain.call_action f (map plain_value arguments.entry.items)) machine.old machine.new) }
{
    match called {
        Function::BuiltIn(built_in) => call_built_in(machine, *built_in, arguments),
        Function::Defined(definition) => call_defined(machine, definition, arguments),
    }
}

fn call_defined<'a>(
    machine: &mut Machine<'a>,
    definition: &'a Definition,
    mut arguments: Vec<Value<'a>>,
) -> Result<Flow, NoMemory>
    ensures { IfOk result (λ flow. (f : ℕ) → slice_get (program_of machine.old).functions f ≡ Some (defined (map plain_type definition.now.slots.items) (plain_items definition.now.body.items)) → Does flow (plain.call_action f (map plain_value arguments.entry.items)) machine.old machine.new) }
{
    if machine.frame.bound == 0 {
        return Ok(Flow::Stops);
    }
    let inner = frame_of(machine.alloc, definition, machine.frame.bound - 1)?;
    let caller = mem::replace(&mut machine.frame, inner);
    arguments.reverse();
    push_two(
        &mut machine.control.actions,
        Action::Enter(0, arguments, &definition.body),
        Action::Return(caller),
    )?;
    Ok(Flow::Goes)
}

/// Gives the next parameter its argument, or begins the body.
pub fn enter<'a>(
    machine: &mut Machine<'a>,
    slot: usize,
    mut values: Vec<Value<'a>>,
    body: &'a [Item],
) -> Result<Flow, NoMemory>
    ensures { IfOk result (λ flow. Does flow (plain.enter_action slot (reverse (map plain_value values.entry.items)) (plain_items body.now)) machine.old machine.new) }
{
    match values.pop() {
        None => {
            push(&mut machine.control.actions, Action::Items(body))?;
            Ok(Flow::Goes)
        }
        Some(value) => enter_with(machine, slot, value, values, body),
    }
}

fn enter_with<'a>(
    machine: &mut Machine<'a>,
    slot: usize,
    value: Value<'a>,
    values: Vec<Value<'a>>,
    body: &'a [Item],
) -> Result<Flow, NoMemory>
    ensures { IfOk result (λ flow. Does flow (plain.enter_action slot (plain_value value.entry ∷ reverse (map plain_value values.entry.items)) (plain_items body.now)) machine.old machine.new) }
{
    let types = machine.frame.types;
    match types.get(slot) {
        None => Ok(Flow::Fails),
        Some(ty) => enter_slot(machine, slot, ty, value, values, body),
    }
}

/// A parameter of a type.
fn enter_slot<'a>(
    machine: &mut Machine<'a>,
    slot: usize,
    ty: &'a CType,
    value: Value<'a>,
    values: Vec<Value<'a>>,
    body: &'a [Item],
) -> Result<Flow, NoMemory>
    requires { slot < length machine.old.frame.types.now }
    ensures { IfOk result (λ flow. ComesTo flow (entered_outcome slot (plain_type ty.now) (plain_value value.entry) (reverse (map plain_value values.entry.items)) (plain_items body.now) machine.old) machine.new) }
{
    let next = slot + 1;
    let object = declare(machine, slot, ty)?;
    let done = write_whole(&mut machine.memory, machine.alloc, object, value)?;
    if done {
        push(
            &mut machine.control.actions,
            Action::Enter(next, values, body),
        )?;
        Ok(Flow::Goes)
    } else {
        Ok(Flow::Fails)
    }
}

/// A body ended: back to the caller, with the value of the call, if it has one (6.9.1).
pub fn return_to<'a>(machine: &mut Machine<'a>, caller: Frame<'a>) -> Result<Flow, NoMemory>
    ensures { IfOk result (λ flow. DoesAction flow (Action.Return caller.entry) machine.old machine.new) }
{
    machine.frame = caller;
    match machine.control.take_ending() {
        None => Ok(Flow::Fails),
        Some(Ending::Breaks) => Ok(Flow::Fails),
        Some(Ending::Continues) => Ok(Flow::Fails),
        Some(Ending::Falls) => {
            push(
                &mut machine.control.operands,
                Operand::Value(Value::Nothing),
            )?;
            Ok(Flow::Goes)
        }
        Some(Ending::Returns(value)) => {
            push(&mut machine.control.operands, Operand::Value(value))?;
            Ok(Flow::Goes)
        }
    }
}
