//! The meanings of a name.
ghost use Rattle.std.specs.Prelude.{List, Bool, IfOk};
ghost use Rattle.cond_formula.specs.Features.{has};
ghost use Rattle.macro_table.specs.Features.{macros_at};
ghost use Rattle.cond_bodies.specs.CondMeanings.{Means};

use crate::meanings::Meanings;
use cond_formula::{Formula, NoMemory};
use macro_table::Macros;
use reduced_conditions::{both_of, without};
use std::alloc::Global;

/// What a name stands for.
pub fn meanings_of<'t>(
    alloc: Global,
    macros: &Macros<'t>,
    name: &[u8],
) -> Result<Meanings<'t>, NoMemory>
    ensures { IfOk result (λ m. (c : List Bool) → Means (has c) (macros_at (has c) macros.now name.now) m) }
{
    let feature = macros.when_feature(alloc, name)?;
    let mut left = without(alloc, Formula::True, &feature)?;
    let mut all = Meanings {
        feature,
        objects: Vec::new(alloc),
        functions: Vec::new(alloc),
    };
    for definition in macros.table.definitions(name) {
        let when = both_of(alloc, &definition.when, &left)?;
        all.add(when, &definition.what.given)?;
        left = without(alloc, left, &definition.when)?;
    }
    Ok(all)
}
