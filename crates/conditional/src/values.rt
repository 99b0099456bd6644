//! Conditional values.

ghost use Rattle.std.specs.Prelude.{◌≡◌, ℕ, ◌<◌, Bool, List, [], Option, None, Some, if◌then◌else◌, option_map, IsTrue, IfOk, IfSome, vec_len, slice_get};
ghost use Rattle.cond_formula.specs.Features.{has};
ghost use Rattle.cond_formula.specs.Conditions.{condition_of, value};
ghost use Rattle.conditional.specs.Entries.{entries_of, alternatives, Sees, Places, PlacesUnder, Maps};

use crate::entries::Guarded;
use crate::plain::{Function, Plain};
use cond_formula::{Formula, May, NoMemory, Oracle};
use reduced_conditions::{both_of, either};
use std::alloc::Global;

/// A conditional value: in a configuration it is the value of the alternatives that hold there, which agree, or nothing
/// where none holds. Alternatives that carry equal values may hold together.
#[derive(Drop)]
pub struct CondValue<T> {
    pub alternatives: Vec<Guarded<T>>,
}

impl<T: Plain> CondValue<T> {
    /// Nothing in each configuration.
    pub fn nothing(alloc: Global) -> CondValue<T>
        ensures { (on : ℕ → Bool) → Sees on None (alternatives T.form result) }
    {
        CondValue {
            alternatives: Vec::new(alloc),
        }
    }

    /// One value in each configuration.
    pub fn one(alloc: Global, what: T) -> Result<CondValue<T>, NoMemory>
        ensures { IfOk result (λ x. (on : ℕ → Bool) → Sees on (Some (T.form what)) (alternatives T.form x)) }
    {
        let mut all = CondValue::nothing(alloc);
        all.place(alloc, Formula::True, what)?;
        Ok(all)
    }

    /// One more alternative, joined with one that carries an equal value, so that there are no more alternatives than
    /// values.
    pub fn place(&mut self, alloc: Global, when: Formula, what: T) -> Result<(), NoMemory>
        ensures { IfOk result (λ _. (on : ℕ → Bool) → Places on (condition_of when) (T.form what) (alternatives T.form self.old) (alternatives T.form self.new)) }
    {
        match place_of(&self.alternatives, &what) {
            Some(i) => {
                widen(alloc, &mut self.alternatives, i, when)?;
                Ok(())
            }
            None => {
                self.alternatives.push(Guarded { when, what })?;
                Ok(())
            }
        }
    }

    /// The alternatives of the other too, where the condition holds.
    pub fn place_under(
        &mut self,
        alloc: Global,
        when: &Formula,
        other: &CondValue<T>,
    ) -> Result<(), NoMemory>
        ensures { IfOk result (λ _. (on : ℕ → Bool) → PlacesUnder on (condition_of when.now) (alternatives T.form other.now) (alternatives T.form self.old) (alternatives T.form self.new)) }
    {
        for alternative in &other.alternatives {
            let here = both_of(alloc, &alternative.when, when)?;
            self.place(alloc, here, alternative.what.try_clone(alloc)?)?;
        }
        Ok(())
    }

    /// The value where the condition holds, and nothing elsewhere.
    pub fn restrict(&self, alloc: Global, when: &Formula) -> Result<CondValue<T>, NoMemory>
        ensures { IfOk result (λ x. (on : ℕ → Bool) (o : Option T.Form) → Sees on o (alternatives T.form self.now) → Sees on (if value on (condition_of when.now) then o else None) (alternatives T.form x)) }
    {
        let mut restricted = CondValue::nothing(alloc);
        restricted.place_under(alloc, when, self)?;
        Ok(restricted)
    }

    /// One value where the condition holds, and the other elsewhere.
    pub fn choose(
        alloc: Global,
        when: &Formula,
        chosen: &CondValue<T>,
        otherwise: &CondValue<T>,
    ) -> Result<CondValue<T>, NoMemory>
        ensures { IfOk result (λ x. (on : ℕ → Bool) (p q : Option T.Form) → Sees on p (alternatives T.form chosen.now) → Sees on q (alternatives T.form otherwise.now) → Sees on (if value on (condition_of when.now) then p else q) (alternatives T.form x)) }
    {
        let mut choice = CondValue::nothing(alloc);
        choice.place_under(alloc, when, chosen)?;
        let elsewhere = Formula::not(alloc, when.try_clone(alloc)?)?;
        choice.place_under(alloc, &elsewhere, otherwise)?;
        Ok(choice)
    }

    /// What the function makes of the value; alternatives of which it makes equal values are joined.
    pub fn map<B: Plain, F: Function<T, B>>(
        &self,
        alloc: Global,
        f: &F,
    ) -> Result<CondValue<B>, NoMemory>
        ensures { IfOk result (λ y. (gives : T.Form → B.Form) → Maps T.form B.form (F.answers f.now) gives → (on : ℕ → Bool) (o : Option T.Form) → Sees on o (alternatives T.form self.now) → Sees on (option_map gives o) (alternatives B.form y)) }
    {
        let mut images = CondValue::nothing(alloc);
        for alternative in &self.alternatives {
            let image = f.apply(alloc, &alternative.what)?;
            images.place(alloc, alternative.when.try_clone(alloc)?, image)?;
        }
        Ok(images)
    }

    /// `place`, in the configurations that the oracle admits: nothing, if it knows that the condition holds in none.
    pub fn place_possible<O: Oracle>(
        &mut self,
        alloc: Global,
        oracle: &mut O,
        when: Formula,
        what: T,
    ) -> Result<(), NoMemory>
        ensures kept { O.admits oracle.new ≡ O.admits oracle.old }
        ensures places { IfOk result (λ _. (c : List Bool) → IsTrue (value (has c) (O.admits oracle.old)) → Places (has c) (condition_of when) (T.form what) (alternatives T.form self.old) (alternatives T.form self.new)) }
    {
        if oracle.may(&when) == May::No {
            return Ok(());
        }
        self.place(alloc, when, what)?;
        Ok(())
    }

    /// The same value in each configuration that the oracle admits, without the alternatives of which it knows that they
    /// hold in none.
    pub fn pruned<O: Oracle>(&self, alloc: Global, oracle: &mut O) -> Result<CondValue<T>, NoMemory>
        ensures kept { O.admits oracle.new ≡ O.admits oracle.old }
        ensures same { IfOk result (λ x. (c : List Bool) → IsTrue (value (has c) (O.admits oracle.old)) → (o : Option T.Form) → Sees (has c) o (alternatives T.form self.now) → Sees (has c) o (alternatives T.form x)) }
    {
        let mut possible = CondValue::nothing(alloc);
        for alternative in &self.alternatives {
            let when = alternative.when.try_clone(alloc)?;
            let what = alternative.what.try_clone(alloc)?;
            possible.place_possible(alloc, oracle, when, what)?;
        }
        Ok(possible)
    }
}

// An alternative that carries an equal value.
fn place_of<T: Plain>(alternatives: &[Guarded<T>], what: &T) -> Option<usize>
    ensures { IfSome result (λ i. (a : Guarded T) × slice_get alternatives.now i ≡ Some a × T.form a.what ≡ T.form what.now) }
{
    for (i, alternative) in alternatives.iter().enumerate() {
        if alternative.what.is_same(what) {
            return Some(i);
        }
    }
    None
}

// The alternative holds under this condition too.
fn widen<T: Plain>(
    alloc: Global,
    alternatives: &mut Vec<Guarded<T>>,
    i: usize,
    when: Formula,
) -> Result<(), NoMemory>
    requires { i < vec_len alternatives.old }
    ensures { IfOk result (λ _. (v : T.Form) (a : Guarded T) → slice_get alternatives.old.items i ≡ Some a → v ≡ T.form a.what → (on : ℕ → Bool) → Places on (condition_of when) v (entries_of T.form alternatives.old.items) (entries_of T.form alternatives.new.items)) }
{
    let Guarded { when: before, what } = alternatives.remove(i);
    let wider = either(alloc, before, when)?;
    alternatives.push(Guarded { when: wider, what })?;
    Ok(())
}
