//! What objects begin with (6.7.9, 6.4.5).

ghost use Rattle.std.specs.Prelude.{◌≡◌, [], ◌<◌, IfOk, OnOk, map, pos};
ghost use Rattle.c_types.specs.Types.{plain_type};
ghost use Rattle.core_meaning.specs.Plain.{plain_part, path_from};
ghost use Rattle.core_meaning.specs.Meaning.{cells_filled};
ghost use Rattle.core_cells.specs.Forms.{plain_cells, zeros_of};
ghost use Rattle.core_cells.specs.CellForms.{by_paths};
ghost use Rattle.core_memory.specs.MemoryForms.{plain_object, plain_memory, structs_of};
ghost use Rattle.core_memory.specs.InitialForms.{with_cells_at, with_filled};

use crate::memory::{Memory, Object};
use crate::operations::converted;
use c_types::CType;
use cond_formula::NoMemory;
use core_cells::{Cells, Location, Pointer, Scalar, Step, Value, Zeros, path_of};
use core_meaning::{Constant, ConstantPart, Global as GlobalObject, IntegerType, Layout, Part};
use std::alloc::Global;

impl<'a> Memory<'a> {
    /// Gives zeros to the scalars of an object that no part of its initialiser gives a value.
    pub fn fill_missing(
        &mut self,
        alloc: Global,
        number: usize,
        ty: &'a CType,
        parts: &[Part],
    ) -> Result<(), NoMemory>
        requires { number < (plain_memory self.old).made }
        ensures filled { OnOk result (plain_memory self.new ≡ with_filled (structs_of self.old) (plain_memory self.old) number (plain_type ty.now) (map plain_part parts.now)) }
        ensures structs { structs_of self.new ≡ structs_of self.old }
    {
        let zeros = Zeros {
            structs: self.structs,
            ty,
        };
        self.objects[number].fill(alloc, zeros, parts)?;
        Ok(())
    }
}

impl<'a> Object<'a> {
    fn fill(&mut self, alloc: Global, zeros: Zeros<'a>, parts: &[Part]) -> Result<(), NoMemory>
        ensures { OnOk result (plain_object self.new ≡ record (plain_object self.old) { cells = cells_filled (map plain_part parts.now) (by_paths (zeros_of zeros.entry)) (plain_cells self.old.cells) }) }
    {
        let cells = filled(alloc, &self.cells, zeros, parts)?;
        self.cells = cells;
        Ok(())
    }
}

/// The cells of the parts, and zeros elsewhere.
fn filled<'a>(
    alloc: Global,
    held: &Cells<'a>,
    zeros: Zeros<'a>,
    parts: &[Part],
) -> Result<Cells<'a>, NoMemory>
    ensures { IfOk result (λ cells. plain_cells cells ≡ cells_filled (map plain_part parts.now) (by_paths (zeros_of zeros.entry)) (plain_cells held.now)) }
{
    let mut cells = Cells::zeros(alloc, zeros);
    for part in parts {
        cells = with_part(alloc, cells, held, &part.path)?;
    }
    Ok(cells)
}

/// The cells with those that are held at a path.
fn with_part<'a>(
    alloc: Global,
    cells: Cells<'a>,
    held: &Cells<'a>,
    numbers: &[u32],
) -> Result<Cells<'a>, NoMemory>
    ensures { IfOk result (λ new. plain_cells new ≡ with_cells_at (path_from numbers.now) (plain_cells held.now) (plain_cells cells.entry)) }
{
    let path = path_of(alloc, numbers)?;
    let part = held.copy_at(alloc, &path)?;
    let new = cells.written(alloc, &path, Value::Whole(part))?;
    Ok(new)
}
