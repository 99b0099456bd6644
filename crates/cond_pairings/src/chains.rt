//! The declarations that an identifier may stand for.

ghost use Rattle.std.specs.Prelude.{◌≡◌, map, IfOk};
ghost use Rattle.cond_bindings.specs.Bindings as spec;
ghost use Rattle.cond_bindings.specs.NameSteps.{as_visible};

use cond_bindings::Declaration;
use cond_formula::NoMemory;
use std::alloc::Global;

/// The declarations that are visible, the latest first: the one at the place of a unit's list, and those that it hides.
pub(crate) fn visible<'d>(
    alloc: Global,
    declarations: &'d [Declaration],
    latest: Option<u32>,
) -> Result<Vec<&'d Declaration>, NoMemory>
    ensures { IfOk result (λ all. map (λ d. as_visible d.now) all.items ≡ spec.visible declarations.now latest) }
{
    let mut all = Vec::new(alloc);
    let mut behind = declarations.len();
    let mut next = latest;
    while let Some(place) = next {
        if place as usize >= behind {
            return Ok(all);
        }
        let declaration = &declarations[place as usize];
        all.push(declaration)?;
        behind = place as usize;
        next = declaration.hides;
    }
    Ok(all)
}
