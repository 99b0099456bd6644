//! Arguments of calls under conditions, and the functions that may have them.
ghost use Rattle.std.specs.Prelude.{◌≡◌, ℕ, Bool, not, ◌&&◌, ◌||◌, [], ◌∷◌, ◌++◌, map, IsTrue, IfOk, OnOk};
ghost use Rattle.c_text.specs.Macros as spec;
ghost use Rattle.cond_formula.specs.Conditions.{condition_of, value};
ghost use Rattle.conditional.specs.Entries.{entries_of, seen, under};
ghost use Rattle.cond_bodies.specs.CondItems.{items_at};
ghost use Rattle.cond_bodies.specs.CondMeanings.{plain_function};
ghost use Rattle.cond_runs.specs.CondArguments.{lists_at, is_present, fit_among, some_unfit};

use cond_bodies::{Function, Item};
use cond_formula::{Formula, NoMemory};
use conditional::Guarded;
use reduced_conditions::{both, either, is_always, is_never, without};
use std::alloc::Global;
use std::mem;

/// The same items once more.
pub fn copied_list<'t>(
    alloc: Global,
    items: &[Guarded<Item<'t>>],
) -> Result<Vec<Guarded<Item<'t>>>, NoMemory>
    ensures { IfOk result (λ copies. (on : ℕ → Bool) → items_at on copies.items ≡ items_at on items.now) }
{
    let mut copies = Vec::with_capacity(alloc, items.len())?;
    for entry in items {
        copies.push(Guarded {
            when: entry.when.try_clone(alloc)?,
            what: entry.what.try_clone(alloc)?,
        })?;
    }
    Ok(copies)
}

/// The same lists once more.
pub fn copied_lists<'t>(
    alloc: Global,
    lists: &[Vec<Guarded<Item<'t>>>],
) -> Result<Vec<Vec<Guarded<Item<'t>>>>, NoMemory>
    ensures { IfOk result (λ copies. (on : ℕ → Bool) → lists_at on copies.items ≡ lists_at on lists.now) }
{
    let mut copies = Vec::with_capacity(alloc, lists.len())?;
    for list in lists {
        copies.push(copied_list(alloc, list.as_slice())?)?;
    }
    Ok(copies)
}

/// The same functions once more.
pub fn copied_functions<'t>(
    alloc: Global,
    functions: &[Guarded<Function<'t>>],
) -> Result<Vec<Guarded<Function<'t>>>, NoMemory>
    ensures { IfOk result (λ copies. entries_of plain_function copies.items ≡ entries_of plain_function functions.now) }
{
    let mut copies = Vec::with_capacity(alloc, functions.len())?;
    for function in functions {
        copies.push(Guarded {
            when: function.when.try_clone(alloc)?,
            what: function.what,
        })?;
    }
    Ok(copies)
}

// Where some item of the list is present.
fn when_present(alloc: Global, items: &[Guarded<Item<'_>>]) -> Result<Formula, NoMemory>
    ensures { IfOk result (λ f. (on : ℕ → Bool) → value on (condition_of f) ≡ is_present (items_at on items.now)) }
{
    let mut some = Formula::False;
    for entry in items {
        if is_always(&entry.when) {
            return Ok(Formula::True);
        }
        some = either(alloc, some, entry.when.try_clone(alloc)?)?;
    }
    Ok(some)
}

// Where a macro without parameters can't have these arguments: it may have one that is empty.
fn when_not_empty(alloc: Global, arguments: &[Vec<Guarded<Item<'_>>>]) -> Result<Formula, NoMemory>
    ensures { IfOk result (λ f. (on : ℕ → Bool) → value on (condition_of f) ≡ not (spec.fits [] (lists_at on arguments.now))) }
{
    if arguments.len() == 0 {
        return Ok(Formula::False);
    }
    if arguments.len() > 1 {
        return Ok(Formula::True);
    }
    let present = when_present(alloc, arguments[0].as_slice())?;
    Ok(present)
}

// Where a macro with these parameters can't have these arguments.
fn when_unfit(
    alloc: Global,
    params: &[Vec<u8>],
    arguments: &[Vec<Guarded<Item<'_>>>],
) -> Result<Formula, NoMemory>
    ensures { IfOk result (λ f. (on : ℕ → Bool) → value on (condition_of f) ≡ not (spec.fits (map (λ n. n.items) params.now) (lists_at on arguments.now))) }
{
    if params.len() == 0 {
        let unfit = when_not_empty(alloc, arguments)?;
        return Ok(unfit);
    }
    if params.len() == arguments.len() {
        return Ok(Formula::False);
    }
    Ok(Formula::True)
}

// One more function, unless its condition is never true.
fn push_function<'t>(
    functions: &mut Vec<Guarded<Function<'t>>>,
    when: Formula,
    what: Function<'t>,
) -> Result<(), NoMemory>
    ensures { OnOk result ((on : ℕ → Bool) → seen on (entries_of plain_function functions.new.items) ≡ seen on (entries_of plain_function functions.old.items) ++ under (value on (condition_of when)) (plain_function what.entry ∷ [])) }
{
    if is_never(&when) {
        return Ok(());
    }
    functions.push(Guarded { when, what })?;
    Ok(())
}

/// The functions that may have the arguments of a call, and where the others are called.
#[derive(Drop)]
pub struct Fitting<'t> {
    pub functions: Vec<Guarded<Function<'t>>>,
    pub unfit: Formula,
}

impl<'t> Fitting<'t> {
    /// Whether none is left.
    pub fn is_none(&self) -> bool
        ensures { IsTrue result → self.now.functions.items ≡ [] }
    {
        self.functions.is_empty()
    }

    // One more function, which can't have the arguments where the condition holds.
    fn add(
        &mut self,
        alloc: Global,
        function: &Guarded<Function<'t>>,
        unfit: Formula,
    ) -> Result<(), NoMemory>
        ensures functions { OnOk result ((on : ℕ → Bool) → seen on (entries_of plain_function self.new.functions.items) ≡ seen on (entries_of plain_function self.old.functions.items) ++ under (value on (condition_of function.now.when) && not (value on (condition_of unfit))) (plain_function function.now.what ∷ [])) }
        ensures unfit { OnOk result ((on : ℕ → Bool) → value on (condition_of self.new.unfit) ≡ (value on (condition_of self.old.unfit) || (value on (condition_of function.now.when) && value on (condition_of unfit)))) }
    {
        let when = without(alloc, function.when.try_clone(alloc)?, &unfit)?;
        push_function(&mut self.functions, when, function.what)?;
        let here = both(alloc, function.when.try_clone(alloc)?, unfit)?;
        let before = mem::replace(&mut self.unfit, Formula::False);
        self.unfit = either(alloc, before, here)?;
        Ok(())
    }
}

/// The functions of a call as its arguments fit them.
pub fn all_fitting<'t>(
    alloc: Global,
    functions: &[Guarded<Function<'t>>],
    arguments: &[Vec<Guarded<Item<'t>>>],
) -> Result<Fitting<'t>, NoMemory>
    ensures functions { IfOk result (λ all. (on : ℕ → Bool) → seen on (entries_of plain_function all.functions.items) ≡ fit_among (lists_at on arguments.now) (seen on (entries_of plain_function functions.now))) }
    ensures unfit { IfOk result (λ all. (on : ℕ → Bool) → value on (condition_of all.unfit) ≡ some_unfit (lists_at on arguments.now) (seen on (entries_of plain_function functions.now))) }
{
    let mut all = Fitting {
        functions: Vec::new(alloc),
        unfit: Formula::False,
    };
    for function in functions {
        let unfit = when_unfit(alloc, function.what.params, arguments)?;
        all.add(alloc, function, unfit)?;
    }
    Ok(all)
}
