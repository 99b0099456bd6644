//! Conditional lists.

ghost use Rattle.std.specs.Prelude.{◌≡◌, ℕ, Bool, List, [], ◌∷◌, ◌++◌, map, if◌then◌else◌, IsTrue, IfOk};
ghost use Rattle.cond_formula.specs.Features.{has};
ghost use Rattle.cond_formula.specs.Conditions.{condition_of, value, IsDisjunction};
ghost use Rattle.conditional.specs.Entries.{listed, alternatives, seen, under, first, or_later, Sees, Maps};

use crate::entries::Guarded;
use crate::plain::{Function, Plain};
use crate::values::CondValue;
use cond_formula::{Formula, May, NoMemory, Oracle};
use reduced_conditions::{both_of, either, without};
use std::alloc::Global;

/// A conditional list: in a configuration it is the list of the entries that hold there, in their order.
#[derive(Drop)]
pub struct CondList<T> {
    pub entries: Vec<Guarded<T>>,
}

impl<T: Plain> CondList<T> {
    /// The list that is empty in each configuration.
    pub fn empty(alloc: Global) -> CondList<T>
        ensures { (on : ℕ → Bool) → seen on (listed T.form result) ≡ [] }
    {
        CondList {
            entries: Vec::new(alloc),
        }
    }

    /// One more entry at the end, where the condition holds.
    pub fn push(&mut self, when: Formula, what: T) -> Result<(), NoMemory>
        ensures { IfOk result (λ _. (on : ℕ → Bool) → seen on (listed T.form self.new) ≡ seen on (listed T.form self.old) ++ under (value on (condition_of when)) (T.form what ∷ [])) }
    {
        self.entries.push(Guarded { when, what })?;
        Ok(())
    }

    /// One more entry at the end of a list of which the first entry that holds counts: it counts where no other holds. It is
    /// joined with the last one, if that carries an equal value.
    pub fn push_otherwise(&mut self, alloc: Global, when: Formula, what: T) -> Result<(), NoMemory>
        ensures { IfOk result (λ _. (on : ℕ → Bool) → first (seen on (listed T.form self.new)) ≡ or_later (first (seen on (listed T.form self.old))) (first (under (value on (condition_of when)) (T.form what ∷ [])))) }
    {
        let Some(last) = self.entries.pop() else {
            self.push(when, what)?;
            return Ok(());
        };
        if last.what.is_same(&what) {
            self.entries.push(widened(alloc, last, when)?)?;
            return Ok(());
        }
        self.entries.push(last)?;
        self.push(when, what)?;
        Ok(())
    }

    /// The value of the first entry that holds.
    pub fn first_value(&self, alloc: Global) -> Result<CondValue<T>, NoMemory>
        ensures { IfOk result (λ x. (on : ℕ → Bool) → Sees on (first (seen on (listed T.form self.now))) (alternatives T.form x)) }
    {
        let mut all = CondValue::nothing(alloc);
        let mut earlier = Formula::False;
        for entry in &self.entries {
            let here = without(alloc, entry.when.try_clone(alloc)?, &earlier)?;
            all.place(alloc, here, entry.what.try_clone(alloc)?)?;
            earlier = either(alloc, earlier, entry.when.try_clone(alloc)?)?;
        }
        Ok(all)
    }

    /// This list, and then the other.
    pub fn append(&mut self, mut other: CondList<T>) -> Result<(), NoMemory>
        ensures { IfOk result (λ _. (on : ℕ → Bool) → seen on (listed T.form self.new) ≡ seen on (listed T.form self.old) ++ seen on (listed T.form other)) }
    {
        self.entries.append(&mut other.entries)?;
        Ok(())
    }

    /// This list, and then the other where the condition holds.
    pub fn append_under(
        &mut self,
        alloc: Global,
        when: &Formula,
        other: &CondList<T>,
    ) -> Result<(), NoMemory>
        ensures { IfOk result (λ _. (on : ℕ → Bool) → seen on (listed T.form self.new) ≡ seen on (listed T.form self.old) ++ under (value on (condition_of when.now)) (seen on (listed T.form other.now))) }
    {
        for entry in &other.entries {
            let here = both_of(alloc, &entry.when, when)?;
            self.push(here, entry.what.try_clone(alloc)?)?;
        }
        Ok(())
    }

    /// The list where the condition holds, and the empty one elsewhere.
    pub fn restrict(&self, alloc: Global, when: &Formula) -> Result<CondList<T>, NoMemory>
        ensures { IfOk result (λ xs. (on : ℕ → Bool) → seen on (listed T.form xs) ≡ under (value on (condition_of when.now)) (seen on (listed T.form self.now))) }
    {
        let mut restricted = CondList::empty(alloc);
        restricted.append_under(alloc, when, self)?;
        Ok(restricted)
    }

    /// One list where the condition holds, and the other elsewhere.
    pub fn choose(
        alloc: Global,
        when: &Formula,
        chosen: &CondList<T>,
        otherwise: &CondList<T>,
    ) -> Result<CondList<T>, NoMemory>
        ensures { IfOk result (λ xs. (on : ℕ → Bool) → seen on (listed T.form xs) ≡ (if value on (condition_of when.now) then seen on (listed T.form chosen.now) else seen on (listed T.form otherwise.now))) }
    {
        let mut choice = CondList::empty(alloc);
        choice.append_under(alloc, when, chosen)?;
        let elsewhere = Formula::not(alloc, when.try_clone(alloc)?)?;
        choice.append_under(alloc, &elsewhere, otherwise)?;
        Ok(choice)
    }

    /// What the function makes of each entry.
    pub fn map<B: Plain, F: Function<T, B>>(
        &self,
        alloc: Global,
        f: &F,
    ) -> Result<CondList<B>, NoMemory>
        ensures { IfOk result (λ xs. (gives : T.Form → B.Form) → Maps T.form B.form (F.answers f.now) gives → (on : ℕ → Bool) → seen on (listed B.form xs) ≡ map gives (seen on (listed T.form self.now))) }
    {
        let mut images = CondList::empty(alloc);
        for entry in &self.entries {
            let image = f.apply(alloc, &entry.what)?;
            images.push(entry.when.try_clone(alloc)?, image)?;
        }
        Ok(images)
    }

    /// The same list in each configuration that the oracle admits, without the entries of which it knows that they hold
    /// in none.
    pub fn pruned<O: Oracle>(&self, alloc: Global, oracle: &mut O) -> Result<CondList<T>, NoMemory>
        ensures kept { O.admits oracle.new ≡ O.admits oracle.old }
        ensures same { IfOk result (λ xs. (c : List Bool) → IsTrue (value (has c) (O.admits oracle.old)) → seen (has c) (listed T.form xs) ≡ seen (has c) (listed T.form self.now)) }
    {
        let mut possible = CondList::empty(alloc);
        for entry in &self.entries {
            possible.push_possible(alloc, oracle, entry)?;
        }
        Ok(possible)
    }

    // A copy of the entry, unless it can't hold.
    fn push_possible<O: Oracle>(
        &mut self,
        alloc: Global,
        oracle: &mut O,
        entry: &Guarded<T>,
    ) -> Result<(), NoMemory>
        ensures kept { O.admits oracle.new ≡ O.admits oracle.old }
        ensures same { IfOk result (λ _. (c : List Bool) → IsTrue (value (has c) (O.admits oracle.old)) → seen (has c) (listed T.form self.new) ≡ seen (has c) (listed T.form self.old) ++ under (value (has c) (condition_of entry.now.when)) (T.form entry.now.what ∷ [])) }
    {
        if oracle.may(&entry.when) == May::No {
            return Ok(());
        }
        self.push(entry.when.try_clone(alloc)?, entry.what.try_clone(alloc)?)?;
        Ok(())
    }
}

// The entry holds under this condition too.
fn widened<T: Plain>(
    alloc: Global,
    entry: Guarded<T>,
    when: Formula,
) -> Result<Guarded<T>, NoMemory>
    ensures same { IfOk result (λ wider. wider.what ≡ entry.what) }
    ensures wider { IfOk result (λ wider. IsDisjunction (condition_of entry.when) (condition_of when) (condition_of wider.when)) }
{
    let Guarded { when: before, what } = entry;
    let either = Formula::or(alloc, before, when)?;
    Ok(Guarded { when: either, what })
}
