//! A scalar in a part of an object.

ghost use Rattle.std.specs.Prelude.{◌≡◌, IfOk};
ghost use Rattle.core_meaning.specs.Plain.{path_from};
ghost use Rattle.core_cells.specs.Forms.{plain_cells, plain_scalar};
ghost use Rattle.core_memory.specs.InitialForms.{with_scalar_at};

use cond_formula::NoMemory;
use core_cells::{Cells, Scalar, Value, path_of};
use std::alloc::Global;

/// The cells with a scalar in the part to which these numbers lead.
pub fn with_scalar<'a>(
    alloc: Global,
    cells: Cells<'a>,
    numbers: &[u32],
    scalar: Scalar,
) -> Result<Cells<'a>, NoMemory>
    ensures { IfOk result (λ new. plain_cells new ≡ with_scalar_at (path_from numbers.now) (plain_scalar scalar) (plain_cells cells.entry)) }
{
    let path = path_of(alloc, numbers)?;
    let new = cells.written(alloc, &path, Value::Scalar(scalar))?;
    Ok(new)
}
