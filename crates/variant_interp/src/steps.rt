//! What each action does.
ghost use Rattle.std.specs.Prelude.{IfOk};
ghost use Rattle.c_types.specs.Types.{plain_type};
ghost use Rattle.core_meaning.specs.Plain.{plain_expression, plain_place};
ghost use Rattle.core_meaning.specs.Program as program_form;
ghost use Rattle.interp_actions.specs.Actions as plain;
ghost use Rattle.run_machine.specs.Machines.{Does, DoesAction};

use c_types::CType;
use cond_formula::NoMemory;
use core_meaning::{Expression, Place};
use interp_actions::{Action, Flow, put_object};
use interp_expressions::{begin_member, begin_target, begin_temporary};
use run_calls::{argument, call_without, end_full, enter, return_to, temporary};
use run_machine::{Machine, held_at};
use run_statements::{
    after_turn, asks_again, begin_statement, end_scope, items, rest_of_items, turn, write_part,
};
use run_values::{
    address, and, begin_value, branch, choose, convert, falls, first_element, member, not, nothing,
    operate, or, read, return_value, target, test, truth_value, update, update_after, use_scalar,
    use_value, write,
};

/// Does an action. The only error is want of memory.
pub fn step<'a>(machine: &mut Machine<'a>, action: Action<'a>) -> Result<Flow, NoMemory>
    ensures { IfOk result (λ flow. DoesAction flow action.entry machine.old machine.new) }
{
    match action {
        Action::Expression(expression) => begin_value(machine, expression),
        Action::Place(place) => begin_place(machine, place),
        Action::Used => use_value(machine),
        Action::Scalar => use_scalar(machine),
        Action::Test => test(machine),
        Action::Target => target(machine),
        Action::Convert(ty) => convert(machine, ty),
        Action::Operate(op) => operate(machine, op),
        Action::Not => not(machine),
        Action::TruthValue => truth_value(machine),
        Action::Nothing => nothing(machine),
        Action::And(right) => and(machine, right),
        Action::Or(right) => or(machine, right),
        Action::Choose(first, second) => choose(machine, first, second),
        Action::Read => read(machine),
        Action::Address => address(machine),
        Action::FirstElement => first_element(machine),
        Action::Member(number) => member(machine, number),
        Action::Temporary(ty) => temporary(machine, ty),
        Action::Write => write(machine),
        Action::Update(change) => update(machine, change),
        Action::UpdateAfter(change) => update_after(machine, change),
        Action::Call(function) => call_without(machine, function),
        Action::Argument(function, arguments, values) => argument(
            machine, function, arguments, values,
        ),
        Action::Enter(slot, values, body) => enter(machine, slot, values, body),
        Action::Return(frame) => return_to(machine, frame),
        Action::EndFull(outer) => end_full(machine, outer),
        Action::Statement(statement) => begin_statement(machine, statement),
        Action::Items(left) => items(machine, left),
        Action::RestOfItems(left) => rest_of_items(machine, left),
        Action::Falls => falls(machine),
        Action::If(first, second) => branch(machine, first, second),
        Action::ReturnValue => return_value(machine),
        Action::Turn(turns) => turn(machine, turns),
        Action::AfterTurn(turns) => after_turn(machine, turns),
        Action::Asks(turns) => asks_again(machine, turns),
        Action::WritePart(target, part, rest) => write_part(machine, target, part, rest),
        Action::EndScope(slot, object, before) => end_scope(machine, slot, object, before),
    }
}

#[tactic(auto, using(core_meaning::specs::PlainLaws::expression_kinds))]
fn begin_place<'a>(machine: &mut Machine<'a>, place: &'a Place) -> Result<Flow, NoMemory>
    ensures { IfOk result (λ flow. Does flow (plain.place_action (plain_place place.now)) machine.old machine.new) }
{
    match place {
        Place::Slot(number) => slot(machine, *number),
        Place::Global(number) => global(machine, *number),
        Place::Literal(number) => literal(machine, *number),
        Place::Target(pointer) => to_target(machine, pointer),
        Place::Member(inner, number) => to_member(machine, inner, *number),
        Place::Temporary(ty, value) => to_temporary(machine, ty, value),
    }
}

fn slot<'a>(machine: &mut Machine<'a>, number: u32) -> Result<Flow, NoMemory>
    ensures { IfOk result (λ flow. Does flow (plain.place_action (program_form.slot number)) machine.old machine.new) }
{
    match held_at(&machine.frame, number as usize) {
        None => Ok(Flow::Fails),
        Some(object) => put_object(&mut machine.control, machine.alloc, object),
    }
}

fn global<'a>(machine: &mut Machine<'a>, number: u32) -> Result<Flow, NoMemory>
    ensures { IfOk result (λ flow. Does flow (plain.place_action (program_form.global number)) machine.old machine.new) }
{
    put_object(&mut machine.control, machine.alloc, number as usize)
}

fn literal<'a>(machine: &mut Machine<'a>, number: u32) -> Result<Flow, NoMemory>
    ensures { IfOk result (λ flow. Does flow (plain.place_action (program_form.literal number)) machine.old machine.new) }
{
    let object = machine.program.globals.len() + number as usize;
    put_object(&mut machine.control, machine.alloc, object)
}

fn to_target<'a>(machine: &mut Machine<'a>, pointer: &'a Expression) -> Result<Flow, NoMemory>
    ensures { IfOk result (λ flow. Does flow (plain.place_action (program_form.target (plain_expression pointer.now))) machine.old machine.new) }
{
    begin_target(&mut machine.control, pointer)
}

fn to_member<'a>(machine: &mut Machine<'a>, inner: &'a Place, number: u32) -> Result<Flow, NoMemory>
    ensures { IfOk result (λ flow. Does flow (plain.place_action (program_form.member (plain_place inner.now) number)) machine.old machine.new) }
{
    begin_member(&mut machine.control, inner, number)
}

fn to_temporary<'a>(
    machine: &mut Machine<'a>,
    ty: &'a CType,
    value: &'a Expression,
) -> Result<Flow, NoMemory>
    ensures { IfOk result (λ flow. Does flow (plain.place_action (program_form.temporary (plain_type ty.now) (plain_expression value.now))) machine.old machine.new) }
{
    begin_temporary(&mut machine.control, ty, value)
}
