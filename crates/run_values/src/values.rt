//! Actions that need the stacks, or the stacks and memory, as those of a machine (6.5).
ghost use Rattle.std.specs.Prelude.{IfOk};
ghost use Rattle.core_meaning.specs.Plain.{plain_expression, plain_statement};
ghost use Rattle.interp_actions.specs.Actions as plain;
ghost use Rattle.run_machine.specs.Machines.{Does};

use cond_formula::NoMemory;
use core_meaning::{Change, Expression, IntegerType, Operation, Statement};
use interp_actions::Flow;
use interp_expressions::begin_expression;
use run_machine::Machine;

/// Evaluates an expression (6.5).
pub fn begin_value<'a>(
    machine: &mut Machine<'a>,
    expression: &'a Expression,
) -> Result<Flow, NoMemory>
    ensures { IfOk result (λ flow. Does flow (plain.expression_action (plain_expression expression.now)) machine.old machine.new) }
{
    begin_expression(&mut machine.control, machine.alloc, expression)
}

/// The value on top is used.
pub fn use_value<'a>(machine: &mut Machine<'a>) -> Result<Flow, NoMemory>
    ensures { IfOk result (λ flow. Does flow plain.use_action machine.old machine.new) }
{
    interp_actions::use_value(&mut machine.control)
}

/// The value on top is used as a scalar.
pub fn use_scalar<'a>(machine: &mut Machine<'a>) -> Result<Flow, NoMemory>
    ensures { IfOk result (λ flow. Does flow plain.scalar_action machine.old machine.new) }
{
    interp_actions::use_scalar(&mut machine.control)
}

/// The value on top is a condition (6.8.4.1).
pub fn test<'a>(machine: &mut Machine<'a>) -> Result<Flow, NoMemory>
    ensures { IfOk result (λ flow. Does flow plain.test_action machine.old machine.new) }
{
    interp_actions::test(&mut machine.control)
}

/// The value on top is a pointer to a place (6.5.3.2).
pub fn target<'a>(machine: &mut Machine<'a>) -> Result<Flow, NoMemory>
    ensures { IfOk result (λ flow. Does flow plain.target_action machine.old machine.new) }
{
    interp_actions::target(&mut machine.control)
}

/// The scalar on top is converted to an integer type (6.3.1.3).
pub fn convert<'a>(machine: &mut Machine<'a>, ty: IntegerType) -> Result<Flow, NoMemory>
    ensures { IfOk result (λ flow. Does flow (plain.convert_action ty) machine.old machine.new) }
{
    interp_actions::convert(&mut machine.control, ty)
}

/// `!` of the condition on top (6.5.3.3).
pub fn not<'a>(machine: &mut Machine<'a>) -> Result<Flow, NoMemory>
    ensures { IfOk result (λ flow. Does flow plain.not_action machine.old machine.new) }
{
    interp_actions::not(&mut machine.control)
}

/// The condition on top as a number (6.5.13, 6.5.14).
pub fn truth_value<'a>(machine: &mut Machine<'a>) -> Result<Flow, NoMemory>
    ensures { IfOk result (λ flow. Does flow plain.truth_action machine.old machine.new) }
{
    interp_actions::truth_value(&mut machine.control)
}

/// The value on top isn't kept (6.3.2.2).
pub fn nothing<'a>(machine: &mut Machine<'a>) -> Result<Flow, NoMemory>
    ensures { IfOk result (λ flow. Does flow plain.nothing_action machine.old machine.new) }
{
    interp_actions::nothing(&mut machine.control)
}

/// `&&` behind its left operand (6.5.13).
pub fn and<'a>(machine: &mut Machine<'a>, right: &'a Expression) -> Result<Flow, NoMemory>
    ensures { IfOk result (λ flow. Does flow (plain.and_action (plain_expression right.now)) machine.old machine.new) }
{
    interp_actions::and(&mut machine.control, right)
}

/// `||` behind its left operand (6.5.14).
pub fn or<'a>(machine: &mut Machine<'a>, right: &'a Expression) -> Result<Flow, NoMemory>
    ensures { IfOk result (λ flow. Does flow (plain.or_action (plain_expression right.now)) machine.old machine.new) }
{
    interp_actions::or(&mut machine.control, right)
}

/// `?:` behind its condition (6.5.15).
pub fn choose<'a>(
    machine: &mut Machine<'a>,
    first: &'a Expression,
    second: &'a Expression,
) -> Result<Flow, NoMemory>
    ensures { IfOk result (λ flow. Does flow (plain.choose_action (plain_expression first.now) (plain_expression second.now)) machine.old machine.new) }
{
    interp_actions::choose(&mut machine.control, first, second)
}

/// A pointer to the place on top (6.5.3.2).
pub fn address<'a>(machine: &mut Machine<'a>) -> Result<Flow, NoMemory>
    ensures { IfOk result (λ flow. Does flow plain.address_action machine.old machine.new) }
{
    interp_actions::address(&mut machine.control)
}

/// A pointer to the first element of the array on top (6.3.2.1).
pub fn first_element<'a>(machine: &mut Machine<'a>) -> Result<Flow, NoMemory>
    ensures { IfOk result (λ flow. Does flow plain.first_action machine.old machine.new) }
{
    interp_actions::to_first_element(&mut machine.control)
}

/// The end of an expression statement (6.8.3).
pub fn falls<'a>(machine: &mut Machine<'a>) -> Result<Flow, NoMemory>
    ensures { IfOk result (λ flow. Does flow plain.falls_action machine.old machine.new) }
{
    interp_actions::falls(&mut machine.control)
}

/// An `if` behind its condition (6.8.4.1).
pub fn branch<'a>(
    machine: &mut Machine<'a>,
    first: &'a Statement,
    second: &'a Statement,
) -> Result<Flow, NoMemory>
    ensures { IfOk result (λ flow. Does flow (plain.if_action (plain_statement first.now) (plain_statement second.now)) machine.old machine.new) }
{
    let flow = interp_actions::branch(&mut machine.control, first, second)?;
    Ok(flow)
}

/// `return` behind its value (6.8.6.4).
pub fn return_value<'a>(machine: &mut Machine<'a>) -> Result<Flow, NoMemory>
    ensures { IfOk result (λ flow. Does flow plain.return_value_action machine.old machine.new) }
{
    interp_actions::return_value(&mut machine.control)
}

/// The operation on the two scalars on top (6.5.5 to 6.5.12).
pub fn operate<'a>(machine: &mut Machine<'a>, op: Operation) -> Result<Flow, NoMemory>
    ensures { IfOk result (λ flow. Does flow (plain.operate_action op) machine.old machine.new) }
{
    interp_actions::operate(&mut machine.control, machine.alloc, &machine.memory, op)
}

/// What stands at the place on top (6.3.2.1).
pub fn read<'a>(machine: &mut Machine<'a>) -> Result<Flow, NoMemory>
    ensures { IfOk result (λ flow. Does flow plain.read_action machine.old machine.new) }
{
    interp_actions::read(&mut machine.control, machine.alloc, &machine.memory)
}

/// The member with this number of the struct on top (6.5.2.3).
pub fn member<'a>(machine: &mut Machine<'a>, number: u32) -> Result<Flow, NoMemory>
    ensures { IfOk result (λ flow. Does flow (plain.member_action number) machine.old machine.new) }
{
    interp_actions::member(&mut machine.control, &machine.memory, number)
}

/// The value on top goes to the place below it (6.5.16.1).
pub fn write<'a>(machine: &mut Machine<'a>) -> Result<Flow, NoMemory>
    ensures { IfOk result (λ flow. Does flow plain.write_action machine.old machine.new) }
{
    interp_actions::write(&mut machine.control, machine.alloc, &mut machine.memory)
}

/// A compound assignment behind its operands; the value is the new one (6.5.16.2).
pub fn update<'a>(machine: &mut Machine<'a>, change: Change) -> Result<Flow, NoMemory>
    ensures { IfOk result (λ flow. Does flow (plain.update_action change) machine.old machine.new) }
{
    interp_actions::update(
        &mut machine.control,
        machine.alloc,
        &mut machine.memory,
        change,
    )
}

/// The same, but the value is the old one (6.5.2.4).
pub fn update_after<'a>(machine: &mut Machine<'a>, change: Change) -> Result<Flow, NoMemory>
    ensures { IfOk result (λ flow. Does flow (plain.update_after_action change) machine.old machine.new) }
{
    interp_actions::update_after(
        &mut machine.control,
        machine.alloc,
        &mut machine.memory,
        change,
    )
}
