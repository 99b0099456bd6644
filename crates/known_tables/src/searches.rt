//! Searches in all configurations at once, in which what is found first counts.
ghost use Rattle.std.specs.Prelude.{ℕ, Bool, Option, None, if◌then◌else◌, OnOk};
ghost use Rattle.cond_formula.specs.Conditions.{condition_of, value};
ghost use Rattle.conditional.specs.Entries.{alternatives, Sees, PlacesUnder};
ghost use Rattle.known_tables.specs.Searches.{Finds};

use cond_formula::{Formula, NoMemory};
use conditional::{CondValue, Plain};
use reduced_conditions::{both_of, is_never, without};
use std::alloc::Global;
use std::mem;

/// What has been found, and where nothing has been found yet.
#[derive(Drop)]
pub(crate) struct Search<T> {
    pub(crate) found: CondValue<T>,
    pub(crate) rest: Formula,
}

/// The alternatives of another value too, where the condition is true.
fn place_there<T: Plain>(
    alloc: Global,
    found: &mut CondValue<T>,
    here: &Formula,
    what: &CondValue<T>,
) -> Result<(), NoMemory>
    ensures { OnOk result ((on : ℕ → Bool) → PlacesUnder on (condition_of here.now) (alternatives T.form what.now) (alternatives T.form found.old) (alternatives T.form found.new)) }
{
    if is_never(here) {
        return Ok(());
    }
    found.place_under(alloc, here, what)
}

impl<T: Plain> Search<T> {
    /// Nothing has been found yet.
    pub(crate) fn new(alloc: Global) -> Search<T>
        ensures { (on : ℕ → Bool) (whole : Option T.Form) → Finds T.form on whole whole result }
    {
        Search {
            found: CondValue::nothing(alloc),
            rest: Formula::True,
        }
    }

    /// This comes next: it is found where the condition is true and nothing has been found yet.
    pub(crate) fn find(
        &mut self,
        alloc: Global,
        when: &Formula,
        what: &CondValue<T>,
    ) -> Result<(), NoMemory>
        ensures { OnOk result ((on : ℕ → Bool) (whole next later : Option T.Form) → Sees on next (alternatives T.form what.now)
            → Finds T.form on whole (if value on (condition_of when.now) then next else later) self.old → Finds T.form on whole later self.new) }
    {
        let here = both_of(alloc, &self.rest, when)?;
        place_there(alloc, &mut self.found, &here, what)?;
        let before = mem::replace(&mut self.rest, Formula::False);
        self.rest = without(alloc, before, when)?;
        Ok(())
    }

    /// What has been found, if nothing comes next.
    pub(crate) fn end(self) -> CondValue<T>
        ensures { (on : ℕ → Bool) (whole : Option T.Form) → Finds T.form on whole None self → Sees on whole (alternatives T.form result) }
    {
        self.found
    }
}
