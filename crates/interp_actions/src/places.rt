//! Actions that read and write objects (6.3.2.1, 6.5.2.3, 6.5.16).
ghost use Rattle.std.specs.Prelude.{IfOk, Some, [], option_map};
ghost use Rattle.core_meaning.specs.Values as plain_form;
ghost use Rattle.core_cells.specs.Forms.{plain_pointer, plain_scalar, plain_value};
ghost use Rattle.core_memory.specs.MemoryForms.{structs_of};
ghost use Rattle.interp_actions.specs.Forms.{plain_operand};
ghost use Rattle.interp_actions.specs.Actions as plain;
ghost use Rattle.interp_actions.specs.Pieces.{StepsWith, Gives, PutsGiven};
ghost use Rattle.interp_actions.specs.PieceForms.{write_piece, updated_piece, changed_piece, update_piece};

use crate::actions::{Flow, Operand};
use crate::control::{Control, push};
use crate::evaluation::put_scalar;
use cond_formula::NoMemory;
use core_cells::{Location, Pointer, Scalar, Value};
use core_meaning::{Change, Operation};
use core_memory::{Memory, changed, operated};
use std::alloc::Global;

/// The place of a whole object.
pub fn put_object<'a>(
    control: &mut Control<'a>,
    alloc: Global,
    object: usize,
) -> Result<Flow, NoMemory>
    ensures { IfOk result (λ flow. PutsGiven flow (Some (plain.place_operand (plain_form.at object []))) control.old control.new) }
{
    let path = Vec::new(alloc);
    push(
        &mut control.operands,
        Operand::Place(Pointer::At(Location { object, path })),
    )?;
    Ok(Flow::Goes)
}

fn put_place<'a>(control: &mut Control<'a>, place: Option<Pointer>) -> Result<Flow, NoMemory>
    ensures { IfOk result (λ flow. PutsGiven flow (option_map plain.place_operand (option_map plain_pointer place)) control.old control.new) }
{
    match place {
        None => Ok(Flow::Fails),
        Some(place) => {
            push(&mut control.operands, Operand::Place(place))?;
            Ok(Flow::Goes)
        }
    }
}

fn put_read<'a>(control: &mut Control<'a>, value: Option<Value<'a>>) -> Result<Flow, NoMemory>
    ensures { IfOk result (λ flow. PutsGiven flow (option_map plain.value_operand (option_map plain_value value.entry)) control.old control.new) }
{
    match value {
        None => Ok(Flow::Fails),
        Some(value) => {
            push(&mut control.operands, Operand::Value(value))?;
            Ok(Flow::Goes)
        }
    }
}

/// Takes the right operand and then the left one, and puts the value of the operation on both, if that is defined (6.5.5 to 6.5.12).
pub fn operate<'a>(
    control: &mut Control<'a>,
    alloc: Global,
    memory: &Memory<'a>,
    op: Operation,
) -> Result<Flow, NoMemory>
    ensures { IfOk result (λ flow. StepsWith flow (plain.operate_action op) control.old control.new memory.now memory.now) }
{
    match control.take_scalar() {
        None => Ok(Flow::Fails),
        Some(right) => match control.take_scalar() {
            None => Ok(Flow::Fails),
            Some(left) => {
                let result = operated(alloc, memory, op, &left, &right)?;
                let flow = put_scalar(control, result)?;
                Ok(flow)
            }
        },
    }
}

/// Turns the place on top into what stands there, if reading it is defined (6.3.2.1).
pub fn read<'a>(
    control: &mut Control<'a>,
    alloc: Global,
    memory: &Memory<'a>,
) -> Result<Flow, NoMemory>
    ensures { IfOk result (λ flow. StepsWith flow plain.read_action control.old control.new memory.now memory.now) }
{
    match control.take_place() {
        None => Ok(Flow::Fails),
        Some(place) => {
            let value = memory.read(alloc, &place)?;
            let flow = put_read(control, value)?;
            Ok(flow)
        }
    }
}

/// Turns the place on top, a struct, into that of its member with this number (6.5.2.3).
pub fn member<'a>(
    control: &mut Control<'a>,
    memory: &Memory<'a>,
    number: u32,
) -> Result<Flow, NoMemory>
    ensures { IfOk result (λ flow. StepsWith flow (plain.member_action number) control.old control.new memory.now memory.now) }
{
    match control.take_place() {
        None => Ok(Flow::Fails),
        Some(place) => {
            let member = memory.member(place, number)?;
            let flow = put_place(control, member)?;
            Ok(flow)
        }
    }
}

/// Writes a value, and puts an operand.
pub fn write_and_put<'a>(
    control: &mut Control<'a>,
    alloc: Global,
    memory: &mut Memory<'a>,
    place: &Pointer,
    value: Value<'a>,
    operand: Operand<'a>,
) -> Result<Flow, NoMemory>
    ensures { IfOk result (λ flow. Gives flow (write_piece (structs_of memory.old) (plain_pointer place.now) (plain_value value.entry) (plain_operand operand.entry)) control.old control.new memory.old memory.new) }
{
    let done = memory.write(alloc, place, value)?;
    if done {
        push(&mut control.operands, operand)?;
        Ok(Flow::Goes)
    } else {
        Ok(Flow::Fails)
    }
}

/// Takes a value and then a place, and writes the value there; it is also what the assignment gives (6.5.16.1).
pub fn write<'a>(
    control: &mut Control<'a>,
    alloc: Global,
    memory: &mut Memory<'a>,
) -> Result<Flow, NoMemory>
    ensures { IfOk result (λ flow. StepsWith flow plain.write_action control.old control.new memory.old memory.new) }
{
    match control.take_value() {
        None => Ok(Flow::Fails),
        Some(value) => match control.take_place() {
            None => Ok(Flow::Fails),
            Some(place) => {
                let flow = write_value(control, alloc, memory, &place, value)?;
                Ok(flow)
            }
        },
    }
}

/// Writes a value, which is also the result.
fn write_value<'a>(
    control: &mut Control<'a>,
    alloc: Global,
    memory: &mut Memory<'a>,
    place: &Pointer,
    value: Value<'a>,
) -> Result<Flow, NoMemory>
    ensures { IfOk result (λ flow. Gives flow (write_piece (structs_of memory.old) (plain_pointer place.now) (plain_value value.entry) (plain.value_operand (plain_value value.entry))) control.old control.new memory.old memory.new) }
{
    let copy = value.copy(alloc)?;
    let flow = write_and_put(control, alloc, memory, place, value, Operand::Value(copy))?;
    Ok(flow)
}

/// Takes a right operand and then a place, and changes what stands there; the new value is what it gives (6.5.16.2).
pub fn update<'a>(
    control: &mut Control<'a>,
    alloc: Global,
    memory: &mut Memory<'a>,
    change: Change,
) -> Result<Flow, NoMemory>
    ensures { IfOk result (λ flow. StepsWith flow (plain.update_action change) control.old control.new memory.old memory.new) }
{
    match control.take_scalar() {
        None => Ok(Flow::Fails),
        Some(right) => match control.take_place() {
            None => Ok(Flow::Fails),
            Some(place) => {
                let flow = update_place(control, alloc, memory, false, change, &place, &right)?;
                Ok(flow)
            }
        },
    }
}

/// Takes a right operand and then a place, and changes what stands there; the old value is what it gives (6.5.2.4).
pub fn update_after<'a>(
    control: &mut Control<'a>,
    alloc: Global,
    memory: &mut Memory<'a>,
    change: Change,
) -> Result<Flow, NoMemory>
    ensures { IfOk result (λ flow. StepsWith flow (plain.update_after_action change) control.old control.new memory.old memory.new) }
{
    match control.take_scalar() {
        None => Ok(Flow::Fails),
        Some(right) => match control.take_place() {
            None => Ok(Flow::Fails),
            Some(place) => {
                let flow = update_place(control, alloc, memory, true, change, &place, &right)?;
                Ok(flow)
            }
        },
    }
}

/// Changes what a place holds; the result is what it held before, or what it holds now.
fn update_place<'a>(
    control: &mut Control<'a>,
    alloc: Global,
    memory: &mut Memory<'a>,
    keeps_old: bool,
    change: Change,
    place: &Pointer,
    right: &Scalar,
) -> Result<Flow, NoMemory>
    ensures { IfOk result (λ flow. Gives flow (update_piece (structs_of memory.old) keeps_old change (plain_pointer place.now) (plain_scalar right.now)) control.old control.new memory.old memory.new) }
{
    match memory.read(alloc, place)? {
        None => Ok(Flow::Fails),
        Some(Value::Nothing) => Ok(Flow::Fails),
        Some(Value::Whole(_)) => Ok(Flow::Fails),
        Some(Value::Scalar(old)) => {
            let flow = change_from(control, alloc, memory, keeps_old, change, place, old, right)?;
            Ok(flow)
        }
    }
}

fn change_from<'a>(
    control: &mut Control<'a>,
    alloc: Global,
    memory: &mut Memory<'a>,
    keeps_old: bool,
    change: Change,
    place: &Pointer,
    old: Scalar,
    right: &Scalar,
) -> Result<Flow, NoMemory>
    ensures { IfOk result (λ flow. Gives flow (changed_piece (structs_of memory.old) keeps_old change (plain_pointer place.now) (plain_scalar old) (plain_scalar right.now)) control.old control.new memory.old memory.new) }
{
    match changed(alloc, memory, change, &old, right)? {
        None => Ok(Flow::Fails),
        Some(new) => {
            let flow = write_changed(control, alloc, memory, keeps_old, place, old, new)?;
            Ok(flow)
        }
    }
}

fn write_changed<'a>(
    control: &mut Control<'a>,
    alloc: Global,
    memory: &mut Memory<'a>,
    keeps_old: bool,
    place: &Pointer,
    old: Scalar,
    new: Scalar,
) -> Result<Flow, NoMemory>
    ensures { IfOk result (λ flow. Gives flow (updated_piece (structs_of memory.old) keeps_old (plain_pointer place.now) (plain_scalar old) (plain_scalar new)) control.old control.new memory.old memory.new) }
{
    if keeps_old {
        let written = Value::Scalar(new);
        let kept = Operand::Value(Value::Scalar(old));
        let flow = write_and_put(control, alloc, memory, place, written, kept)?;
        Ok(flow)
    } else {
        let copy = new.copy(alloc)?;
        let written = Value::Scalar(new);
        let result = Operand::Value(Value::Scalar(copy));
        let flow = write_and_put(control, alloc, memory, place, written, result)?;
        Ok(flow)
    }
}
