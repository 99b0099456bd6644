//! What stands behind an item in its unit (6.9.2).
ghost use Rattle.std.specs.Prelude.{◌≡◌, ℕ, Bool, ◌&&◌, IfOk};
ghost use Rattle.cond_formula.specs.Features.{has};
ghost use Rattle.cond_formula.specs.Conditions.{condition_of, value};
ghost use Rattle.choice_trees.specs.ChoiceTrees.{plain_item, item_at};
ghost use Rattle.core_meaning.specs.UnitNames.{completes};
ghost use Rattle.cond_units.specs.Tags.{items_at};

use crate::Behind;
use crate::completions::where_completes;
use cond_formula::{Formula, NoMemory};
use conditional_steps::{both_of, never};
use declarator_lists::ListEntry;
use reduced_conditions::{both, either};
use std::alloc::Global;

/// The items of a unit behind a place, each where it is there.
#[derive(Clone, Copy)]
pub struct ItemsBehind<'u, 'a> {
    pub items: &'u [ListEntry<'a>],
}

/// Where an item is there and completes the struct of this tag.
fn where_entry_completes(
    alloc: Global,
    entry: &ListEntry<'_>,
    tag: &[u8],
) -> Result<Formula, NoMemory>
    ensures { IfOk result (λ f. (on : ℕ → Bool) → value on (condition_of f) ≡ (value on (condition_of entry.now.when) && completes tag.now (item_at on (plain_item entry.now.item.now)))) }
{
    let completes = where_completes(alloc, entry.item, tag)?;
    let when = entry.when.try_clone(alloc)?;
    both(alloc, when, completes)
}

impl<'u, 'a> Behind for ItemsBehind<'u, 'a> {
    ghost rest = { λ self c. items_at (has c) self };

    fn where_completed(&self, alloc: Global, tag: &[u8]) -> Result<Formula, NoMemory> {
        let mut found = never()?;
        for entry in self.items {
            let here = where_entry_completes(alloc, entry, tag)?;
            found = either(alloc, found, here)?;
        }
        Ok(found)
    }
}
