//! The items of blocks, and initialisers (6.7.9, 6.8.2).
ghost use Rattle.std.specs.Prelude.{◌<◌, ◌∷◌, IfOk, map, length};
ghost use Rattle.c_types.specs.Types.{plain_type};
ghost use Rattle.core_meaning.specs.Plain.{path_from, plain_item, plain_items, plain_part, plain_statement};
ghost use Rattle.core_meaning.specs.Program as program_form;
ghost use Rattle.core_cells.specs.Forms.{plain_value};
ghost use Rattle.core_memory.specs.MemoryForms.{plain_memory};
ghost use Rattle.interp_actions.specs.Forms.{plain_initialiser};
ghost use Rattle.interp_actions.specs.Actions as plain;
ghost use Rattle.run_machine.specs.Machines.{Does, DoesAction, ComesTo, declared_outcome, written_outcome};

use crate::statements::{put_ending, put_items};
use c_types::CType;
use cond_formula::NoMemory;
use core_cells::Value;
use core_meaning::{Item, Part, Statement};
use interp_actions::{Action, Ending, Flow, Initialiser, Operand, begin_full, push, push_two};
use run_machine::{Machine, declare, hold, write_along};

// ---- blocks

/// Begins the next item of a block, or ends it (6.8.2).
pub fn items<'a>(machine: &mut Machine<'a>, items: &'a [Item]) -> Result<Flow, NoMemory>
    ensures { IfOk result (λ flow. Does flow (plain.items_action (plain_items items.now)) machine.old machine.new) }
{
    match items {
        [] => put_ending(machine, Ending::Falls),
        [item, rest @ ..] => begin_item(machine, item, rest),
    }
}

#[tactic(auto, using(core_meaning::specs::PlainLaws::statement_kinds))]
fn begin_item<'a>(
    machine: &mut Machine<'a>,
    item: &'a Item,
    rest: &'a [Item],
) -> Result<Flow, NoMemory>
    ensures { IfOk result (λ flow. Does flow (plain.items_action (plain_item item.now (plain_items rest.now))) machine.old machine.new) }
{
    match item {
        Item::Statement(statement) => statement_item(machine, statement, rest),
        Item::Local { slot, parts } => local(machine, *slot, parts, rest),
    }
}

fn statement_item<'a>(
    machine: &mut Machine<'a>,
    statement: &'a Statement,
    rest: &'a [Item],
) -> Result<Flow, NoMemory>
    ensures { IfOk result (λ flow. Does flow (plain.items_action (program_form.statement_item (plain_statement statement.now) (plain_items rest.now))) machine.old machine.new) }
{
    push_two(
        &mut machine.control.actions,
        Action::Statement(statement),
        Action::RestOfItems(rest),
    )?;
    Ok(Flow::Goes)
}

/// A statement of a block ended: the items behind it come next where it fell through.
pub fn rest_of_items<'a>(machine: &mut Machine<'a>, rest: &'a [Item]) -> Result<Flow, NoMemory>
    ensures { IfOk result (λ flow. Does flow (plain.rest_action (plain_items rest.now)) machine.old machine.new) }
{
    match machine.control.take_ending() {
        None => Ok(Flow::Fails),
        Some(Ending::Falls) => put_items(machine, rest),
        Some(Ending::Breaks) => put_ending(machine, Ending::Breaks),
        Some(Ending::Continues) => put_ending(machine, Ending::Continues),
        Some(Ending::Returns(value)) => put_ending(machine, Ending::Returns(value)),
    }
}

fn local<'a>(
    machine: &mut Machine<'a>,
    slot: u32,
    parts: &'a [Part],
    rest: &'a [Item],
) -> Result<Flow, NoMemory>
    ensures { IfOk result (λ flow. Does flow (plain.items_action (program_form.local slot (map plain_part parts.now) (plain_items rest.now))) machine.old machine.new) }
{
    let types = machine.frame.types;
    match types.get(slot as usize) {
        None => Ok(Flow::Fails),
        Some(ty) => local_of(machine, slot, ty, parts, rest),
    }
}

/// A local of a type.
fn local_of<'a>(
    machine: &mut Machine<'a>,
    slot: u32,
    ty: &'a CType,
    parts: &'a [Part],
    rest: &'a [Item],
) -> Result<Flow, NoMemory>
    requires { slot < length machine.old.frame.types.now }
    ensures { IfOk result (λ flow. ComesTo flow (declared_outcome slot (plain_type ty.now) (map plain_part parts.now) (plain_items rest.now) machine.old) machine.new) }
{
    let object = declare(machine, slot as usize, ty)?;
    push(&mut machine.control.actions, Action::Items(rest))?;
    initialise(machine, Initialiser { object, ty, parts })
}

/// The scope of an object ends, and with it the object; its slot has what it had before (6.2.4).
pub fn end_scope<'a>(
    machine: &mut Machine<'a>,
    slot: usize,
    object: usize,
    before: Option<usize>,
) -> Result<Flow, NoMemory>
    ensures { IfOk result (λ flow. DoesAction flow (Action.EndScope slot object before) machine.old machine.new) }
{
    match machine.control.take_ending() {
        None => Ok(Flow::Fails),
        Some(ending) => {
            machine.memory.end(machine.alloc, object);
            hold(&mut machine.frame, slot, before);
            push(&mut machine.control.operands, Operand::Ending(ending))?;
            Ok(Flow::Goes)
        }
    }
}

// ---- initialisers

fn initialise<'a>(machine: &mut Machine<'a>, target: Initialiser<'a>) -> Result<Flow, NoMemory>
    ensures { IfOk result (λ flow. Does flow (plain.initialise_action (plain_initialiser target.entry)) machine.old machine.new) }
{
    match target.parts {
        [] => Ok(Flow::Goes),
        [part, rest @ ..] => begin_part(machine, target, part, rest),
    }
}

fn begin_part<'a>(
    machine: &mut Machine<'a>,
    target: Initialiser<'a>,
    part: &'a Part,
    rest: &'a [Part],
) -> Result<Flow, NoMemory>
    ensures { IfOk result (λ flow. Does flow (plain.parts_action (plain_initialiser target.entry) (plain_part part.now ∷ map plain_part rest.now)) machine.old machine.new) }
{
    push(
        &mut machine.control.actions,
        Action::WritePart(target, part, rest),
    )?;
    begin_full(
        &mut machine.control,
        machine.alloc,
        &mut machine.temporaries,
    )?;
    push_two(
        &mut machine.control.actions,
        Action::Expression(&part.value),
        Action::Used,
    )?;
    Ok(Flow::Goes)
}

/// The value on top is that of a part of an initialiser (6.7.9).
pub fn write_part<'a>(
    machine: &mut Machine<'a>,
    target: Initialiser<'a>,
    part: &'a Part,
    rest: &'a [Part],
) -> Result<Flow, NoMemory>
    ensures { IfOk result (λ flow. Does flow (plain.write_part_action (plain_initialiser target.entry) (plain_part part.now).path (map plain_part rest.now)) machine.old machine.new) }
{
    match machine.control.take_value() {
        None => Ok(Flow::Fails),
        Some(value) => put_part(machine, target, &part.path, rest, value),
    }
}

/// The object has this value along a path, and these parts are left.
fn put_part<'a>(
    machine: &mut Machine<'a>,
    target: Initialiser<'a>,
    path: &[u32],
    rest: &'a [Part],
    value: Value<'a>,
) -> Result<Flow, NoMemory>
    ensures { IfOk result (λ flow. ComesTo flow (written_outcome (plain_initialiser target.entry) (path_from path.now) (map plain_part rest.now) (plain_value value.entry) machine.old) machine.new) }
{
    let done = write_along(
        &mut machine.memory,
        machine.alloc,
        target.object,
        path,
        value,
    )?;
    if done {
        let flow = parts_left(machine, target, rest)?;
        Ok(flow)
    } else {
        Ok(Flow::Fails)
    }
}

fn parts_left<'a>(
    machine: &mut Machine<'a>,
    target: Initialiser<'a>,
    rest: &'a [Part],
) -> Result<Flow, NoMemory>
    requires { target.object < (plain_memory machine.old.memory).made }
    ensures { IfOk result (λ flow. Does flow (plain.parts_action (plain_initialiser target.entry) (map plain_part rest.now)) machine.old machine.new) }
{
    match rest {
        [] => {
            machine
                .memory
                .fill_missing(machine.alloc, target.object, target.ty, target.parts)?;
            Ok(Flow::Goes)
        }
        [part, rest @ ..] => begin_part(machine, target, part, rest),
    }
}
