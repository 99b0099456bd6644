//! The arrays of the texts, with the zero behind each (6.4.5).

ghost use Rattle.std.specs.Prelude.{◌≡◌, ◌+◌, ◌∷◌, [], ◌++◌, IfOk, OnOk, length, map, pos};
ghost use Rattle.c_types.specs.Types.{plain_type, char};
ghost use Rattle.c_types.specs.Integers as integer;
ghost use Rattle.core_meaning.specs.Values as plain;
ghost use Rattle.core_meaning.specs.Memory.{with_new};
ghost use Rattle.core_meaning.specs.Run as meaning;
ghost use Rattle.core_cells.specs.Forms.{plain_cells};
ghost use Rattle.core_memory.specs.InitialForms.{with_scalar_at};
ghost use Rattle.core_memory.specs.MemoryForms.{plain_memory, structs_of};
ghost use Rattle.run_start.specs.Starts.{text_type, text_types_of, global_objects, text_objects};

use crate::parts::with_scalar;
use c_types::CType;
use cond_formula::NoMemory;
use core_cells::{Cells, Scalar};
use core_meaning::{CoreProgram, IntegerType};
use core_memory::{Memory, Object, converted};
use std::alloc::{AllocError, Global};

/// The types of the texts' arrays, in the order of the texts: as many elements of type `char` as a text has bytes, and one more.
///
/// # Errors
///
/// Want of memory, also where a text has more elements than 32 bits can count.
pub fn text_types(alloc: Global, program: &CoreProgram) -> Result<Vec<CType>, NoMemory>
    ensures { IfOk result (λ types. map plain_type types.items ≡ text_types_of program.now) }
{
    let mut types = Vec::new(alloc);
    for text in &program.literals {
        let ty = text_type(alloc, text)?;
        types.push(ty)?;
    }
    Ok(types)
}

fn text_type(alloc: Global, text: &[u8]) -> Result<CType, NoMemory>
    ensures { IfOk result (λ ty. plain_type ty ≡ text_type text.now) }
{
    let count = element_count(text)?;
    let element = Box::new(alloc, CType::Char)?;
    Ok(CType::Array(element, count))
}

/// How many elements the array of a text has.
fn element_count(text: &[u8]) -> Result<u32, NoMemory>
    ensures { IfOk result (λ count. count ≡ length text.now + 1) }
{
    let length = u32::try_from(text.len()).map_err(|_| AllocError)?;
    let count = length.checked_add(1).ok_or(AllocError)?;
    Ok(count)
}

pub fn add_texts<'a>(
    memory: &mut Memory<'a>,
    alloc: Global,
    program: &'a CoreProgram,
    texts: &'a [CType],
) -> Result<(), NoMemory>
    requires types { map plain_type texts.now ≡ text_types_of program.now }
    requires globals { plain_memory memory.old ≡ meaning.memory_of (global_objects program.now) }
    ensures added { OnOk result (plain_memory memory.new ≡ meaning.memory_of (global_objects program.now ++ text_objects program.now)) }
    ensures structs { structs_of memory.new ≡ structs_of memory.old }
{
    for number in 0..texts.len() {
        add_text(memory, alloc, &texts[number], &program.literals[number])?;
    }
    Ok(())
}

fn add_text<'a>(
    memory: &mut Memory<'a>,
    alloc: Global,
    ty: &'a CType,
    text: &[u8],
) -> Result<(), NoMemory>
    requires { plain_type ty.now ≡ text_type text.now }
    ensures added { OnOk result (plain_memory memory.new ≡ with_new (plain_memory memory.old) (meaning.literal_object text.now)) }
    ensures structs { structs_of memory.new ≡ structs_of memory.old }
{
    let cells = text_cells(alloc, text)?;
    memory.add(Object {
        ty,
        lives: true,
        writable: false,
        cells,
    })?;
    Ok(())
}

fn text_cells<'a>(alloc: Global, text: &[u8]) -> Result<Cells<'a>, NoMemory>
    ensures { IfOk result (λ cells. plain_cells cells ≡ meaning.text_cells text.now) }
{
    let mut cells = Cells::unwritten(alloc);
    for index in 0..text.len() {
        cells = with_byte(alloc, cells, index, text[index])?;
    }
    let cells = with_byte(alloc, cells, text.len(), 0)?;
    Ok(cells)
}

/// The cells with a byte in the element of this index, as a `char`.
fn with_byte<'a>(
    alloc: Global,
    cells: Cells<'a>,
    index: usize,
    byte: u8,
) -> Result<Cells<'a>, NoMemory>
    ensures { IfOk result (λ new. plain_cells new ≡ with_scalar_at (plain.part index ∷ []) (plain.number (integer.converted char (pos byte))) (plain_cells cells.entry)) }
{
    let number = u32::try_from(index).map_err(|_| AllocError)?;
    let scalar = Scalar::Number(converted(IntegerType::Char, i128::from(byte)));
    let new = with_scalar(alloc, cells, &[number], scalar)?;
    Ok(new)
}
