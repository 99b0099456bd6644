//! The globals, with their first values (6.7.9).

ghost use Rattle.std.specs.Prelude.{◌≡◌, ◌∷◌, [], IfOk, OnOk, length};
ghost use Rattle.core_meaning.specs.Plain.{plain_constant, path_from};
ghost use Rattle.core_meaning.specs.Values as plain;
ghost use Rattle.core_meaning.specs.Memory.{with_new};
ghost use Rattle.core_meaning.specs.Run as meaning;
ghost use Rattle.core_cells.specs.Forms.{plain_cells, plain_path, plain_scalar};
ghost use Rattle.core_memory.specs.InitialForms.{with_scalar_at};
ghost use Rattle.core_memory.specs.MemoryForms.{plain_memory, structs_of};
ghost use Rattle.run_start.specs.Starts.{global_object, global_objects, cells_behind};

use crate::parts::with_scalar;
use cond_formula::NoMemory;
use core_cells::{Cells, Location, Pointer, Scalar, Step, Zeros};
use core_meaning::{Constant, ConstantPart, CoreProgram, Global as GlobalObject};
use core_memory::{Memory, Object};
use std::alloc::Global;

pub fn add_globals<'a>(
    memory: &mut Memory<'a>,
    alloc: Global,
    program: &'a CoreProgram,
) -> Result<(), NoMemory>
    requires { plain_memory memory.old ≡ meaning.memory_of [] }
    ensures added { OnOk result (plain_memory memory.new ≡ meaning.memory_of (global_objects program.now)) }
    ensures structs { structs_of memory.new ≡ structs_of memory.old }
{
    for global in &program.globals {
        add_global(memory, alloc, program, global)?;
    }
    Ok(())
}

fn add_global<'a>(
    memory: &mut Memory<'a>,
    alloc: Global,
    program: &'a CoreProgram,
    global: &'a GlobalObject,
) -> Result<(), NoMemory>
    ensures added { OnOk result (plain_memory memory.new ≡ with_new (plain_memory memory.old) (global_object program.now global.now)) }
    ensures structs { structs_of memory.new ≡ structs_of memory.old }
{
    let cells = first_cells(alloc, program, global)?;
    memory.add(Object {
        ty: &global.ty,
        lives: true,
        writable: true,
        cells,
    })?;
    Ok(())
}

/// The first values of a global's parts, and zeros elsewhere. The first of two values of one part counts.
fn first_cells<'a>(
    alloc: Global,
    program: &'a CoreProgram,
    global: &'a GlobalObject,
) -> Result<Cells<'a>, NoMemory>
    ensures { IfOk result (λ cells. plain_cells cells ≡ cells_behind program.now global.now 0) }
{
    let mut cells = Cells::zeros(
        alloc,
        Zeros {
            structs: &program.structs,
            ty: &global.ty,
        },
    );
    let mut left = global.parts.len();
    while left > 0 {
        left -= 1;
        cells = with_constant(alloc, cells, program, &global.parts[left])?;
    }
    Ok(cells)
}

fn with_constant<'a>(
    alloc: Global,
    cells: Cells<'a>,
    program: &CoreProgram,
    part: &ConstantPart,
) -> Result<Cells<'a>, NoMemory>
    ensures { IfOk result (λ new. plain_cells new ≡ with_scalar_at (path_from part.now.path.items) (plain_constant (length program.now.globals.items) part.now.value) (plain_cells cells.entry)) }
{
    let scalar = first_scalar(alloc, program, &part.value)?;
    let new = with_scalar(alloc, cells, &part.path, scalar)?;
    Ok(new)
}

fn first_scalar(
    alloc: Global,
    program: &CoreProgram,
    constant: &Constant,
) -> Result<Scalar, NoMemory>
    ensures { IfOk result (λ scalar. plain_scalar scalar ≡ plain_constant (length program.now.globals.items) constant.now) }
{
    match constant {
        Constant::Number(number) => Ok(Scalar::Number(*number)),
        Constant::Null => Ok(Scalar::Pointer(Pointer::Null)),
        Constant::Global(number) => Ok(pointer_to(*number as usize, Vec::new(alloc))),
        Constant::GlobalElement(number) => first_of(alloc, *number as usize),
        Constant::Literal(number) => first_of(alloc, program.globals.len() + *number as usize),
    }
}

/// A pointer to the first element of an object.
fn first_of(alloc: Global, object: usize) -> Result<Scalar, NoMemory>
    ensures { IfOk result (λ scalar. plain_scalar scalar ≡ plain.pointer (plain.at object (plain.part 0 ∷ []))) }
{
    let mut path = Vec::new(alloc);
    path.push(Step::Part(0))?;
    Ok(pointer_to(object, path))
}

fn pointer_to(object: usize, path: Vec<Step>) -> Scalar
    ensures { plain_scalar result ≡ plain.pointer (plain.at object (plain_path path.items)) }
{
    Scalar::Pointer(Pointer::At(Location { object, path }))
}
