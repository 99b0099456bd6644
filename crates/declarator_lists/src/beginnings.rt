//! The ways in which a list may begin.
ghost use Rattle.std.specs.Prelude.{◌≡◌, Bool, List, [], ◌∷◌, ◌++◌, IsTrue, IfOk};
ghost use Rattle.cond_formula.specs.Features.{has};
ghost use Rattle.cond_formula.specs.Conditions.{condition_of, value};
ghost use Rattle.conditional.specs.Entries.{seen, under};
ghost use Rattle.declarator_lists.specs.Entries.{entries_at, beginning_at, heads_at};

use crate::items::ListEntry;
use choice_trees::Item;
use choice_variants::may_hold;
use cond_formula::{Formula, NoMemory, Oracle};
use reduced_conditions::{both_of, without};
use std::alloc::Global;

/// The first entry that is there, and what stands behind it.
#[derive(Clone, Copy)]
pub(crate) struct Beginning<'e, 'a> {
    pub(crate) first: &'a Item,
    pub(crate) rest: &'e [ListEntry<'a>],
}

/// How a list begins where a condition is true; without a beginning it is empty there.
#[derive(Drop)]
pub(crate) struct Head<'e, 'a> {
    pub(crate) when: Formula,
    pub(crate) beginning: Option<Beginning<'e, 'a>>,
}

/// One more way, if there may be configurations in which the list begins so.
fn push_head<'e, 'a, O: Oracle>(
    all: &mut Vec<Head<'e, 'a>>,
    oracle: &mut O,
    when: Formula,
    beginning: Option<Beginning<'e, 'a>>,
) -> Result<(), NoMemory>
    ensures kept { O.admits oracle.new ≡ O.admits oracle.old }
    ensures adds { IfOk result (λ _. (c : List Bool) → IsTrue (value (has c) (O.admits oracle.old))
        → seen (has c) (heads_at (has c) all.new.items) ≡ seen (has c) (heads_at (has c) all.old.items) ++ under (value (has c) (condition_of when)) (beginning_at (has c) beginning.entry ∷ [])) }
{
    if !may_hold(&when, oracle) {
        return Ok(());
    }
    all.push(Head { when, beginning })?;
    Ok(())
}

/// The ways in which a list begins where a condition is true: one in each configuration.
pub(crate) fn heads<'e, 'a, O: Oracle>(
    alloc: Global,
    oracle: &mut O,
    list: &'e [ListEntry<'a>],
    when: &Formula,
) -> Result<Vec<Head<'e, 'a>>, NoMemory>
    ensures kept { O.admits oracle.new ≡ O.admits oracle.old }
    ensures alone { IfOk result (λ all. (c : List Bool) → IsTrue (value (has c) (O.admits oracle.old))
        → seen (has c) (heads_at (has c) all.items) ≡ under (value (has c) (condition_of when.now)) (seen (has c) (entries_at (has c) list.now) ∷ [])) }
{
    let mut all = Vec::new(alloc);
    let mut left = when.try_clone(alloc)?;
    for (place, entry) in list.iter().enumerate() {
        let here = both_of(alloc, &left, &entry.when)?;
        let (_, behind) = list.split_at(place + 1);
        let beginning = Beginning {
            first: entry.item,
            rest: behind,
        };
        push_head(&mut all, oracle, here, Some(beginning))?;
        left = without(alloc, left, &entry.when)?;
    }
    push_head(&mut all, oracle, left, None)?;
    Ok(all)
}
