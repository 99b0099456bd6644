//! The uses of members in the blocks of functions that have been declared (6.9.1).
ghost use Rattle.std.specs.Prelude.{◌≡◌, ℕ, Bool, List, IsTrue, OnOk};
ghost use Rattle.cond_formula.specs.Features.{has};
ghost use Rattle.cond_formula.specs.Conditions.{condition_of, value};
ghost use Rattle.choice_trees.specs.ChoiceTrees.{plain_item, item_at};
ghost use Rattle.type_tables.specs.Seen.{seen_tables};
ghost use Rattle.cond_member_uses.specs.Noted.{noted_at, Where};
ghost use Rattle.cond_unit_uses.specs.Functions.{NotesBlock};

use choice_trees::Item;
use cond_formula::{Formula, NoMemory, Oracle};
use cond_member_uses::note_body;
use cond_parameters::declare_parameters;
use cond_selections::Selection;
use conditional::CondList;
use std::alloc::Global;
use type_tables::Tables;

/// Notes the uses in the block of a function with these parameters, where the condition is true, in the order of the text. Nothing of the block is
/// visible behind it.
pub(crate) fn note_block<O: Oracle>(
    alloc: Global,
    oracle: &mut O,
    tables: &mut Tables,
    when: &Formula,
    list: &Item,
    body: &Item,
    log: &mut CondList<Selection>,
) -> Result<(), NoMemory>
    ensures kept { O.admits oracle.new ≡ O.admits oracle.old }
    ensures same { OnOk result ((on : ℕ → Bool) → seen_tables on tables.new ≡ seen_tables on tables.old) }
    ensures notes { OnOk result ((c : List Bool) → IsTrue (value (has c) (O.admits oracle.old))
        → Where (value (has c) (condition_of when.now)) (NotesBlock (item_at (has c) (plain_item list.now)) (item_at (has c) (plain_item body.now))) (noted_at (has c) tables.old log.old) (noted_at (has c) tables.new log.new)) }
{
    let outside = tables.enter()?;
    let _parameters = declare_parameters(alloc, oracle, tables, true, when, list)?;
    note_body(alloc, oracle, tables, when, body, log)?;
    tables.leave(outside);
    Ok(())
}
