//! Calls of function-like macros under conditions (6.10.3).
ghost use Rattle.std.specs.Prelude.{◌≡◌, ◌<◌, ℕ, Bool, true, false, [], ◌∷◌, ◌++◌, if◌then◌else◌, List, IfOk, OnOk};
ghost use Rattle.c_text.specs.Macros as spec;
ghost use Rattle.cond_formula.specs.Features.{has};
ghost use Rattle.cond_formula.specs.Conditions.{condition_of, value};
ghost use Rattle.conditional.specs.Entries.{entries_of, seen};
ghost use Rattle.cond_bodies.specs.CondItems.{item_at, items_at};
ghost use Rattle.cond_bodies.specs.CondMeanings.{plain_function};
ghost use Rattle.cond_runs.specs.CondArguments.{lists_at};
ghost use Rattle.cond_runs.specs.Functions.{is_single, or_function};

use crate::arguments::{copied_functions, copied_list, copied_lists};
use cond_bodies::{Function, Item};
use cond_formula::{Formula, NoMemory};
use conditional::Guarded;
use std::alloc::{AllocError, Global};
use std::mem;

/// A call up to a token of it, where a condition holds. All definitions of its name read the same arguments.
#[derive(Drop)]
pub struct Call<'t> {
    pub when: Formula,
    pub name: Item<'t>,
    pub functions: Vec<Guarded<Function<'t>>>,
    /// The arguments that are followed by a comma.
    pub arguments: Vec<Vec<Guarded<Item<'t>>>>,
    /// The argument that is being read.
    pub last: Vec<Guarded<Item<'t>>>,
    /// How many of its parentheses are open. Those of the last argument are among its items.
    pub nested: usize,
    pub ghost single: { (c : List Bool) → value (has c) (condition_of when) ≡ true → is_single (seen (has c) (entries_of plain_function functions.items)) ≡ true },
}

/// One more item, which is present.
fn append<'t>(list: &mut Vec<Guarded<Item<'t>>>, what: Item<'t>) -> Result<(), NoMemory>
    ensures { OnOk result ((on : ℕ → Bool) → items_at on list.new.items ≡ items_at on list.old.items ++ item_at on what.entry ∷ []) }
{
    list.push(Guarded {
        when: Formula::True,
        what,
    })?;
    Ok(())
}

impl<'t> Call<'t> {
    ghost use Rattle.cond_runs.specs.CondCalls.{call_at, closes};

    /// A call of which only the name is read.
    #[tactic(auto, unfolding(crate::specs::CondCalls::call_at))]
    pub fn begun(
        alloc: Global,
        when: Formula,
        name: Item<'t>,
        functions: Vec<Guarded<Function<'t>>>,
    ) -> Call<'t>
        requires { (c : List Bool) → value (has c) (condition_of when) ≡ true → is_single (seen (has c) (entries_of plain_function functions.items)) ≡ true }
        ensures when { condition_of result.when ≡ condition_of when }
        ensures name { result.name ≡ name.entry }
        ensures call { (on : ℕ → Bool) → call_at on result ≡ spec.begun (item_at on name.entry).token (or_function (seen on (entries_of plain_function functions.entry.items))).params (or_function (seen on (entries_of plain_function functions.entry.items))).body }
    {
        Call {
            when,
            name,
            functions,
            arguments: Vec::new(alloc),
            last: Vec::new(alloc),
            nested: 0,
        }
    }

    /// The same call where a condition holds that implies its own.
    #[tactic(auto, unfolding(crate::specs::CondCalls::call_at))]
    pub fn copied(&self, alloc: Global, when: Formula) -> Result<Call<'t>, NoMemory>
        requires { (c : List Bool) → value (has c) (condition_of when) ≡ true → value (has c) (condition_of self.now.when) ≡ true }
        ensures when { IfOk result (λ copy. condition_of copy.when ≡ condition_of when) }
        ensures name { IfOk result (λ copy. copy.name.token.now ≡ self.now.name.token.now) }
        ensures call { IfOk result (λ copy. (on : ℕ → Bool) → call_at on copy ≡ call_at on self.now) }
    {
        Ok(Call {
            when,
            name: self.name.try_clone(alloc)?,
            functions: copied_functions(alloc, self.functions.as_slice())?,
            arguments: copied_lists(alloc, self.arguments.as_slice())?,
            last: copied_list(alloc, self.last.as_slice())?,
            nested: self.nested,
        })
    }

    /// The call where a condition holds that implies its own.
    #[tactic(auto, unfolding(crate::specs::CondCalls::call_at))]
    pub fn narrowed(self, when: Formula) -> Call<'t>
        requires { (c : List Bool) → value (has c) (condition_of when) ≡ true → value (has c) (condition_of self.when) ≡ true }
        ensures when { condition_of result.when ≡ condition_of when }
        ensures name { result.name ≡ self.entry.name }
        ensures call { (on : ℕ → Bool) → call_at on result ≡ call_at on self.entry }
    {
        let Call {
            when: _,
            name,
            functions,
            arguments,
            last,
            nested,
        } = self;
        Call {
            when,
            name,
            functions,
            arguments,
            last,
            nested,
        }
    }

    /// Whether the item ends the call, where it is present.
    #[tactic(auto, unfolding(crate::specs::CondCalls::call_at))]
    pub fn is_closed_by(&self, item: &Item<'t>) -> bool
        ensures { (on : ℕ → Bool) → result ≡ closes (call_at on self.now) (item_at on item.now).token }
    {
        item.is_spelled(b")") && self.nested < 2
    }

    /// Whether the item does more than to lengthen an argument.
    pub fn is_split_by(&self, item: &Item<'t>) -> bool
        ensures { result ≡ false → (on : ℕ → Bool) → spec.progress (call_at on self.now) (item_at on item.now) ≡ spec.goes_on (spec.with_item (call_at on self.now) (item_at on item.now)) }
    {
        if item.is_spelled(b")") {
            return true;
        }
        if item.is_spelled(b"(") {
            return true;
        }
        item.is_spelled(b",") && self.nested == 1
    }

    /// Reads an item that lengthens the last argument where it is present.
    #[tactic(auto, unfolding(crate::specs::CondCalls::call_at))]
    pub fn lengthen(&mut self, when: Formula, what: Item<'t>) -> Result<(), NoMemory>
        ensures when { condition_of self.new.when ≡ condition_of self.old.when }
        ensures name { self.new.name ≡ self.old.name }
        ensures call { OnOk result ((on : ℕ → Bool) → call_at on self.new ≡ (if value on (condition_of when) then spec.with_item (call_at on self.old) (item_at on what.entry) else call_at on self.old)) }
    {
        self.last.push(Guarded { when, what })?;
        Ok(())
    }

    /// Reads an inner `)`.
    #[tactic(auto, unfolding(crate::specs::CondCalls::call_at))]
    fn close(&mut self, item: Item<'t>) -> Result<(), NoMemory>
        requires { 1 < self.old.nested }
        ensures when { condition_of self.new.when ≡ condition_of self.old.when }
        ensures name { self.new.name ≡ self.old.name }
        ensures call { OnOk result ((on : ℕ → Bool) → spec.goes_on (call_at on self.new) ≡ spec.closing (call_at on self.old) (item_at on item.entry) self.old.nested) }
    {
        append(&mut self.last, item)?;
        self.nested -= 1;
        Ok(())
    }

    /// Reads a `(`, of which the outermost belongs to no argument.
    #[tactic(auto, unfolding(crate::specs::CondCalls::call_at))]
    fn open(&mut self, item: Item<'t>) -> Result<(), NoMemory>
        ensures when { condition_of self.new.when ≡ condition_of self.old.when }
        ensures name { self.new.name ≡ self.old.name }
        ensures call { OnOk result ((on : ℕ → Bool) → call_at on self.new ≡ spec.opening (call_at on self.old) (item_at on item.entry) self.old.nested) }
    {
        if self.nested == usize::MAX {
            return Err(AllocError);
        }
        if self.nested > 0 {
            append(&mut self.last, item)?;
        }
        self.nested += 1;
        Ok(())
    }

    /// Ends an argument.
    #[tactic(auto, unfolding(crate::specs::CondCalls::call_at))]
    fn next_argument(&mut self, alloc: Global) -> Result<(), NoMemory>
        ensures when { condition_of self.new.when ≡ condition_of self.old.when }
        ensures name { self.new.name ≡ self.old.name }
        ensures call { OnOk result ((on : ℕ → Bool) → call_at on self.new ≡ spec.next_argument (call_at on self.old)) }
    {
        let argument = mem::replace(&mut self.last, Vec::new(alloc));
        self.arguments.push(argument)?;
        Ok(())
    }

    /// Reads an item that is present and doesn't end the call.
    #[tactic(auto, unfolding(crate::specs::CondCalls::call_at))]
    pub fn read(&mut self, alloc: Global, item: Item<'t>) -> Result<(), NoMemory>
        requires { (on : ℕ → Bool) → closes (call_at on self.old) (item_at on item).token ≡ false }
        ensures when { condition_of self.new.when ≡ condition_of self.old.when }
        ensures name { self.new.name ≡ self.old.name }
        ensures call { OnOk result ((on : ℕ → Bool) → spec.goes_on (call_at on self.new) ≡ spec.progress (call_at on self.old) (item_at on item.entry)) }
    {
        if item.is_spelled(b")") {
            self.close(item)?;
        } else if item.is_spelled(b"(") {
            self.open(item)?;
        } else if item.is_spelled(b",") && self.nested == 1 {
            self.next_argument(alloc)?;
        } else {
            append(&mut self.last, item)?;
        }
        Ok(())
    }
}

/// The arguments of a call that ends.
pub fn all_arguments<'t>(
    mut arguments: Vec<Vec<Guarded<Item<'t>>>>,
    last: Vec<Guarded<Item<'t>>>,
) -> Result<Vec<Vec<Guarded<Item<'t>>>>, NoMemory>
    ensures { IfOk result (λ all. (on : ℕ → Bool) → lists_at on all.items ≡ lists_at on arguments.entry.items ++ items_at on last.entry.items ∷ []) }
{
    arguments.push(last)?;
    Ok(arguments)
}
