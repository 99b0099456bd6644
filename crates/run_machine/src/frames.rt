//! Functions under way, and what stands in their slots.
ghost use Rattle.std.specs.Prelude.{◌≡◌, IfOk, slice_get, slice_set};
ghost use Rattle.interp_actions.specs.Forms.{held_in};
ghost use Rattle.run_machine.specs.Frames.{no_slots};

use c_types::CType;
use cond_formula::NoMemory;
use core_meaning::Definition;
use interp_actions::Frame;
use std::alloc::Global;

/// A function before any of its slots is declared.
pub fn frame_of<'a>(
    alloc: Global,
    definition: &'a Definition,
    bound: u32,
) -> Result<Frame<'a>, NoMemory>
    ensures types { IfOk result (λ frame. frame.types.now ≡ definition.now.slots.items) }
    ensures slots { IfOk result (λ frame. frame.slots.items ≡ no_slots definition.now.slots.items) }
    ensures bound { IfOk result (λ frame. frame.bound ≡ bound) }
{
    let types: &'a [CType] = &definition.slots;
    let mut slots: Vec<Option<usize>> = Vec::new(alloc);
    for number in 0..types.len() {
        slots.push(None)?;
    }
    Ok(Frame {
        types,
        slots,
        bound,
    })
}

/// The object in a slot.
pub fn held_at<'a>(frame: &Frame<'a>, slot: usize) -> Option<usize>
    ensures { result ≡ held_in (slice_get frame.now.slots.items slot) }
{
    match frame.slots.get(slot) {
        None => None,
        Some(held) => *held,
    }
}

/// A slot gets an object, or has none.
pub fn hold<'a>(frame: &mut Frame<'a>, slot: usize, held: Option<usize>)
    ensures slots { frame.new.slots.items ≡ slice_set frame.old.slots.items slot held }
    ensures types { frame.new.types.now ≡ frame.old.types.now }
    ensures bound { frame.new.bound ≡ frame.old.bound }
{
    if slot < frame.slots.len() {
        frame.slots[slot] = held;
    }
}
