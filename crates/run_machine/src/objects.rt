//! Writing to objects by their numbers, and ending several.
ghost use Rattle.std.specs.Prelude.{◌≡◌, [], IfOk, Some, None, reverse, if◌then◌else◌};
ghost use Rattle.core_meaning.specs.Memory.{written_at, with_all_ended};
ghost use Rattle.core_meaning.specs.Plain.{path_from};
ghost use Rattle.core_meaning.specs.Values as plain_form;
ghost use Rattle.core_cells.specs.Forms.{plain_value};
ghost use Rattle.core_memory.specs.MemoryForms.{plain_memory, structs_of};

use cond_formula::NoMemory;
use core_cells::{Location, Pointer, Value, path_of};
use core_memory::Memory;
use std::alloc::Global;

/// Writes a whole object; false where that is undefined.
pub fn write_whole<'a>(
    memory: &mut Memory<'a>,
    alloc: Global,
    object: usize,
    value: Value<'a>,
) -> Result<bool, NoMemory>
    ensures written { IfOk result (λ done. written_at (structs_of memory.old) (plain_memory memory.old) (plain_form.at object []) (plain_value value.entry) ≡ (if done then Some (plain_memory memory.new) else None)) }
    ensures structs { structs_of memory.new ≡ structs_of memory.old }
{
    let path = Vec::new(alloc);
    let place = Pointer::At(Location { object, path });
    let done = memory.write(alloc, &place, value)?;
    Ok(done)
}

/// Writes the part of an object to which the numbers of elements and members lead; false where that is undefined.
pub fn write_along<'a>(
    memory: &mut Memory<'a>,
    alloc: Global,
    object: usize,
    numbers: &[u32],
    value: Value<'a>,
) -> Result<bool, NoMemory>
    ensures written { IfOk result (λ done. written_at (structs_of memory.old) (plain_memory memory.old) (plain_form.at object (path_from numbers.now)) (plain_value value.entry) ≡ (if done then Some (plain_memory memory.new) else None)) }
    ensures structs { structs_of memory.new ≡ structs_of memory.old }
{
    let path = path_of(alloc, numbers)?;
    let place = Pointer::At(Location { object, path });
    let done = memory.write(alloc, &place, value)?;
    Ok(done)
}

/// Ends objects, the last one first.
pub fn end_all<'a>(memory: &mut Memory<'a>, alloc: Global, objects: &[usize])
    ensures ended { plain_memory memory.new ≡ with_all_ended (plain_memory memory.old) (reverse objects.now) }
    ensures structs { structs_of memory.new ≡ structs_of memory.old }
{
    let mut left = objects.len();
    while left > 0 {
        left -= 1;
        memory.end(alloc, objects[left]);
    }
}
