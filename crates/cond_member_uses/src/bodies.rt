//! The uses of members in the bodies of functions.
ghost use Rattle.std.specs.Prelude.{◌≡◌, Bool, List, IsTrue, OnOk};
ghost use Rattle.cond_formula.specs.Features.{has};
ghost use Rattle.cond_formula.specs.Conditions.{condition_of, value};
ghost use Rattle.choice_trees.specs.ChoiceTrees.{plain_item, item_at};
ghost use Rattle.type_tables.specs.Blocks.{OnlyLocals};
ghost use Rattle.cond_member_uses.specs.Noted.{noted_at, NotesBody, Where};

use crate::statements::note_parts;
use choice_trees::Item;
use cond_formula::{Formula, NoMemory, Oracle};
use cond_selections::Selection;
use conditional::CondList;
use member_uses::bodies_are_used;
use statement_readings::bodies_are_read;
use std::alloc::Global;
use type_tables::Tables;

/// Notes the uses of members in the block of a function, in the scope of its parameters, where the condition is true, in the order of the text
/// (6.9.1). The locals of the block are still in the tables behind it.
#[tactic(auto, using(choice_trees::specs::ItemLaws::item_kinds))]
pub fn note_body<O: Oracle>(
    alloc: Global,
    oracle: &mut O,
    tables: &mut Tables,
    when: &Formula,
    body: &Item,
    log: &mut CondList<Selection>,
) -> Result<(), NoMemory>
    ensures kept { O.admits oracle.new ≡ O.admits oracle.old }
    ensures outside { OnOk result (OnlyLocals tables.old tables.new) }
    ensures notes { OnOk result ((c : List Bool) → IsTrue (value (has c) (O.admits oracle.old))
        → Where (value (has c) (condition_of when.now)) (NotesBody (item_at (has c) (plain_item body.now))) (noted_at (has c) tables.old log.old) (noted_at (has c) tables.new log.new)) }
{
    bodies_are_read();
    bodies_are_used();
    match body {
        Item::Leaf(..) => Ok(()),
        Item::Node(kind, parts) => note_parts(alloc, oracle, tables, *kind, when, parts, log),
    }
}
