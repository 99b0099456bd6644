//! Trees with the new name.
ghost use Rattle.std.specs.Prelude.{IfOk};
ghost use Rattle.std.specs.List.{AllZip};
ghost use Rattle.changed_forests.specs.Renamed.{IsRenamed};

use c_text::FileToken;
use changed_forests::{copied, rename};
use choice_trees::Forest;
use cond_formula::NoMemory;
use std::alloc::Global;

/// The trees of a unit with the new name for identifiers that copy a token of the class.
fn renamed_forest(
    alloc: Global,
    forest: &Forest,
    class: &[FileToken],
    new: &[u8],
) -> Result<Forest, NoMemory>
    ensures { IfOk result (λ renamed. IsRenamed class.now new.now forest.now renamed) }
{
    let mut copy = copied(alloc, forest)?;
    rename(alloc, &mut copy, class, new)?;
    Ok(copy)
}

/// Those of all units, one after the other.
pub fn renamed_forests(
    alloc: Global,
    forests: &[Forest],
    class: &[FileToken],
    new: &[u8],
) -> Result<Vec<Forest>, NoMemory>
    ensures { IfOk result (λ all. AllZip (IsRenamed class.now new.now) forests.now all.items) }
{
    let mut all = Vec::with_capacity(alloc, forests.len())?;
    for forest in forests {
        let renamed = renamed_forest(alloc, forest, class, new)?;
        all.push(renamed)?;
    }
    Ok(all)
}
