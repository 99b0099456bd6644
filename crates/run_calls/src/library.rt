//! The functions of the built-in headers (7.21.7, 7.22.4.4).
ghost use Rattle.std.specs.Prelude.{◌≡◌, IfOk, pos, negsuc, ◌∷◌, [], Some, map, option_map};
ghost use Rattle.core_meaning.specs.declared.program.BuiltIn.TheVariants as built_in_form;
ghost use Rattle.std.specs.Option.{option_copied};
ghost use Rattle.c_types.specs.Types.{int};
ghost use Rattle.c_types.specs.Integers as integer;
ghost use Rattle.core_meaning.specs.Values as plain_form;
ghost use Rattle.core_cells.specs.Forms.{plain_pointer, plain_value};
ghost use Rattle.interp_actions.specs.Actions as plain;
ghost use Rattle.run_machine.specs.Machines.{ComesTo, given_outcome, built_in_outcome, line_outcome};
ghost use Rattle.run_calls.specs.Library.{number_in, pointer_in};

use cond_formula::NoMemory;
use core_cells::{Pointer, Scalar, Value};
use core_meaning::{BuiltIn, IntegerType};
use core_memory::{byte_of, converted, text_at};
use interp_actions::{Flow, put_scalar};
use run_machine::Machine;

/// Calls a function of the built-in headers with these values. With other ones than its parameters take, the behaviour is
/// undefined.
pub fn call_built_in<'a>(
    machine: &mut Machine<'a>,
    built_in: BuiltIn,
    arguments: Vec<Value<'a>>,
) -> Result<Flow, NoMemory>
    ensures { IfOk result (λ flow. ComesTo flow (built_in_outcome built_in (map plain_value arguments.entry.items) machine.old) machine.new) }
{
    answer(machine, built_in, &arguments)
}

fn answer<'a>(
    machine: &mut Machine<'a>,
    built_in: BuiltIn,
    arguments: &[Value<'a>],
) -> Result<Flow, NoMemory>
    ensures { IfOk result (λ flow. ComesTo flow (built_in_outcome built_in (map plain_value arguments.now) machine.old) machine.new) }
{
    match built_in {
        BuiltIn::Putchar => call_putchar(machine, arguments),
        BuiltIn::Getchar => call_getchar(machine, arguments),
        BuiltIn::Puts => call_puts(machine, arguments),
        BuiltIn::Exit => Ok(call_exit(machine, arguments)),
    }
}

fn call_putchar<'a>(machine: &mut Machine<'a>, arguments: &[Value<'a>]) -> Result<Flow, NoMemory>
    ensures { IfOk result (λ flow. ComesTo flow (built_in_outcome built_in_form.Putchar (map plain_value arguments.now) machine.old) machine.new) }
{
    match number_argument(arguments) {
        None => Ok(Flow::Fails),
        Some(number) => putchar(machine, number),
    }
}

fn call_getchar<'a>(machine: &mut Machine<'a>, arguments: &[Value<'a>]) -> Result<Flow, NoMemory>
    ensures { IfOk result (λ flow. ComesTo flow (built_in_outcome built_in_form.Getchar (map plain_value arguments.now) machine.old) machine.new) }
{
    if arguments.is_empty() {
        getchar(machine)
    } else {
        Ok(Flow::Fails)
    }
}

fn call_puts<'a>(machine: &mut Machine<'a>, arguments: &[Value<'a>]) -> Result<Flow, NoMemory>
    ensures { IfOk result (λ flow. ComesTo flow (built_in_outcome built_in_form.Puts (map plain_value arguments.now) machine.old) machine.new) }
{
    match pointer_argument(arguments) {
        None => Ok(Flow::Fails),
        Some(pointer) => puts(machine, pointer),
    }
}

fn call_exit<'a>(machine: &mut Machine<'a>, arguments: &[Value<'a>]) -> Flow
    ensures { ComesTo result (built_in_outcome built_in_form.Exit (map plain_value arguments.now) machine.old) machine.new }
{
    match number_argument(arguments) {
        None => Flow::Fails,
        Some(number) => Flow::Exits(int_of(number)),
    }
}

fn put_number<'a>(machine: &mut Machine<'a>, number: i128) -> Result<Flow, NoMemory>
    ensures { IfOk result (λ flow. ComesTo flow (given_outcome (Some (plain.value_operand (plain_form.scalar (plain_form.number number)))) machine.old) machine.new) }
{
    put_scalar(&mut machine.control, Some(Scalar::Number(number)))
}

fn putchar<'a>(machine: &mut Machine<'a>, number: i128) -> Result<Flow, NoMemory>
    ensures { IfOk result (λ flow. ComesTo flow (built_in_outcome built_in_form.Putchar (plain_form.scalar (plain_form.number number) ∷ []) machine.old) machine.new) }
{
    let byte = byte_of(number);
    machine.output.push(byte)?;
    let flow = put_number(machine, i128::from(byte))?;
    Ok(flow)
}

fn getchar<'a>(machine: &mut Machine<'a>) -> Result<Flow, NoMemory>
    ensures { IfOk result (λ flow. ComesTo flow (built_in_outcome built_in_form.Getchar [] machine.old) machine.new) }
{
    match machine.input {
        [] => put_number(machine, -1),
        [byte, rest @ ..] => {
            machine.input = rest;
            put_number(machine, i128::from(*byte))
        }
    }
}

fn puts<'a>(machine: &mut Machine<'a>, pointer: &Pointer) -> Result<Flow, NoMemory>
    ensures { IfOk result (λ flow. ComesTo flow (built_in_outcome built_in_form.Puts (plain_form.scalar (plain_form.pointer (plain_pointer pointer.now)) ∷ []) machine.old) machine.new) }
{
    match text_at(machine.alloc, &machine.memory, pointer)? {
        None => Ok(Flow::Fails),
        Some(text) => put_line(machine, &text),
    }
}

/// Puts out a text and a newline; the value is 0.
fn put_line<'a>(machine: &mut Machine<'a>, text: &[u8]) -> Result<Flow, NoMemory>
    ensures { IfOk result (λ flow. ComesTo flow (line_outcome text.now machine.old) machine.new) }
{
    machine.output.extend_from_slice(text)?;
    machine.output.push(b'\n')?;
    put_number(machine, 0)
}

/// The only argument, if it is a number.
fn number_argument<'a>(arguments: &[Value<'a>]) -> Option<i128>
    ensures { result ≡ number_in (map plain_value arguments.now) }
{
    match arguments {
        [] => None,
        [argument] => integer_in(argument),
        [_, _, ..] => None,
    }
}

fn integer_in<'a>(value: &Value<'a>) -> Option<i128>
    ensures { result ≡ number_in (plain_value value.now ∷ []) }
{
    match value {
        Value::Nothing => None,
        Value::Whole(_) => None,
        Value::Scalar(Scalar::Pointer(_)) => None,
        Value::Scalar(Scalar::Number(number)) => Some(*number),
    }
}

/// The only argument, if it is a pointer.
fn pointer_argument<'b, 'a>(arguments: &'b [Value<'a>]) -> Option<&'b Pointer>
    ensures { option_map plain_pointer (option_copied result) ≡ pointer_in (map plain_value arguments.now) }
{
    match arguments {
        [] => None,
        [argument] => pointer_of(argument),
        [_, _, ..] => None,
    }
}

fn pointer_of<'b, 'a>(value: &'b Value<'a>) -> Option<&'b Pointer>
    ensures { option_map plain_pointer (option_copied result) ≡ pointer_in (plain_value value.now ∷ []) }
{
    match value {
        Value::Nothing => None,
        Value::Whole(_) => None,
        Value::Scalar(Scalar::Number(_)) => None,
        Value::Scalar(Scalar::Pointer(pointer)) => Some(pointer),
    }
}

/// A number as an `int` (6.3.1.3).
pub fn int_of(number: i128) -> i32
    ensures { result ≡ integer.converted int number }
{
    converted(IntegerType::Int, number) as i32
}
