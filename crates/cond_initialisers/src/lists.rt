//! Lists in braces for objects with a known number of parts of one type.
ghost use Rattle.std.specs.Prelude.{◌≡◌, ◌∷◌, [], Bool, List, replicate, IsTrue, IfOk};
ghost use Rattle.cond_formula.specs.Features.{has};
ghost use Rattle.cond_formula.specs.Conditions.{condition_of, value};
ghost use Rattle.c_types.specs.Types.{PlainType};
ghost use Rattle.cond_initialisers.specs.Refusals.{RefusedFor, in_pairs};
ghost use Rattle.cond_initialisers.specs.Rows.{asked_each, rows};

use crate::pairs::where_some_pair;
use crate::places::repeated;
use crate::rows::{Row, where_some_row};
use cond_formula::{Formula, NoMemory, Oracle};
use conditional::Guarded;
use std::alloc::Global;

/// Where entries are refused for so many parts of one type. They are matched in pairs only where there may be more of them than parts.
pub(crate) fn where_some_of<O: Oracle>(
    alloc: Global,
    oracle: &mut O,
    entries: &[Guarded<Row>],
    count: u32,
) -> Result<Formula, NoMemory>
    ensures kept { O.admits oracle.new ≡ O.admits oracle.old }
    ensures same { IfOk result (λ f. (c : List Bool) (ty : PlainType) (each : List RefusedFor) → IsTrue (value (has c) (O.admits oracle.old))
        → rows (has c) entries.now ≡ asked_each (ty ∷ []) each → value (has c) (condition_of f) ≡ in_pairs each (replicate count ty)) }
{
    if entries.len() <= count as usize {
        where_some_row(alloc, entries)
    } else {
        let parts = repeated(alloc, count)?;
        where_some_pair(alloc, oracle, entries, &parts)
    }
}
