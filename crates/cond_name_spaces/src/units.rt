//! The names of a unit that stand in name spaces.
ghost use Rattle.std.specs.Prelude.{◌≡◌, Bool, List, IsTrue, IfOk};
ghost use Rattle.cond_formula.specs.Features.{has};
ghost use Rattle.cond_formula.specs.Conditions.{condition_of, value};
ghost use Rattle.conditional.specs.Entries.{seen, under, listed};
ghost use Rattle.cond_name_spaces.specs.Spaced.{plain_name, spaces_at};

use crate::entries::SpacedName;
use crate::tags::no_tag;
use crate::walks::push_node;
use c_tree::Kind;
use choice_trees::Forest;
use cond_formula::{Formula, NoMemory, Oracle};
use conditional::CondList;
use std::alloc::Global;

/// The identifiers of a unit that may declare what units have in common, in the order of the text, where the unit is there: objects and functions
/// of file scope, tags, and members of structs, also where the tag has alternatives.
pub fn note_spaces<O: Oracle>(
    alloc: Global,
    oracle: &mut O,
    when: &Formula,
    forest: &Forest,
) -> Result<CondList<SpacedName>, NoMemory>
    ensures kept { O.admits oracle.new ≡ O.admits oracle.old }
    ensures spaced { IfOk result (λ names. (c : List Bool) → IsTrue (value (has c) (O.admits oracle.old))
        → seen (has c) (listed plain_name names) ≡ under (value (has c) (condition_of when.now)) (spaces_at (has c) forest.now)) }
{
    let mut names = CondList::empty(alloc);
    let tags = no_tag(alloc)?;
    push_node(
        alloc,
        oracle,
        when,
        Kind::Unit,
        &tags,
        Kind::Unit,
        &forest.items,
        &mut names,
    )?;
    Ok(names)
}
