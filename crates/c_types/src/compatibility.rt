//! Compatible types of two units (6.2.7).
ghost use Rattle.std.specs.Prelude.{◌↔◌, IsTrue, IfOk, map};
ghost use Rattle.c_types.specs.Types.{plain_type};
ghost use Rattle.c_types.specs.Tags.{plain_tag, plain_tags};
ghost use Rattle.c_types.specs.Compatible.{Compatible};
ghost use Rattle.c_types.specs.Pairs.{Closure};

use crate::pairs::{Pair, agree, pair_agrees};
use crate::types::{CType, Tag, TagTable};
use std::alloc::{AllocError, Global};

/// Whether a type of one unit and a type of another are compatible, each with its table of structs. Structs are compared by
/// tag and members; behind pointers those whose comparison is under way are taken as compatible. A number that names no
/// struct of its table is compatible with none.
pub fn compatible(
    alloc: Global,
    a: &CType,
    b: &CType,
    ta: &TagTable,
    tb: &TagTable,
) -> Result<bool, AllocError>
    ensures { IfOk result (λ holds.
        IsTrue holds ↔ Compatible (plain_tags ta.now) (plain_tags tb.now) (plain_type a.now) (plain_type b.now)) }
{
    let mut found = Vec::new(alloc);
    if !agree(a, b, &mut found)? {
        return Ok(false);
    }
    Ok(found_agree(&ta.tags, &tb.tags, found)?)
}

/// Whether the structs of the pairs agree, and those of the pairs that they need in turn.
fn found_agree(first: &[Tag], second: &[Tag], mut found: Vec<Pair>) -> Result<bool, AllocError>
    ensures { IfOk result (λ holds.
        IsTrue holds ↔ Closure (map plain_tag first.now) (map plain_tag second.now) found.items) }
{
    // No index of a vector is usize::MAX.
    for done in 0..usize::MAX {
        if done >= found.len() {
            return Ok(true);
        }
        if !pair_agrees(found[done], first, second, &mut found)? {
            return Ok(false);
        }
    }
    Ok(true)
}
