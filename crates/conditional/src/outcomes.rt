//! What comes of a judgement in each configuration.

ghost use Rattle.std.specs.Prelude.{◌≡◌, ℕ, Bool, false, true, List, ◌++◌, if◌then◌else◌, IsTrue, IfOk};
ghost use Rattle.cond_formula.specs.Features.{has};
ghost use Rattle.cond_formula.specs.Conditions.{condition_of, value};
ghost use Rattle.conditional.specs.Entries.{listed, seen};
ghost use Rattle.conditional.specs.Judgements.{Checked, fine, checked, Judges, JudgesUnder, Shows};

use crate::lists::CondList;
use crate::plain::Plain;
use crate::values::CondValue;
use cond_formula::{Formula, May, NoMemory, Oracle};
use std::alloc::Global;

/// What comes of a judgement: where a refusal holds, the first that does; elsewhere the value, if the judgement has come
/// to one.
#[derive(Drop)]
pub struct Outcomes<T, R> {
    pub fine: CondValue<T>,
    pub refused: CondList<R>,
}

impl<T: Plain, R: Plain> Outcomes<T, R> {
    /// No judgement in any configuration yet.
    pub fn nothing(alloc: Global) -> Outcomes<T, R>
        ensures { (on : ℕ → Bool) (v : Checked T.Form R.Form) → Shows T.form R.form on false v result }
    {
        Outcomes {
            fine: CondValue::nothing(alloc),
            refused: CondList::empty(alloc),
        }
    }

    /// One value in each configuration.
    pub fn one(alloc: Global, what: T) -> Result<Outcomes<T, R>, NoMemory>
        ensures { IfOk result (λ all. (on : ℕ → Bool) → Shows T.form R.form on true (fine (T.form what)) all) }
    {
        let mut all = Outcomes::nothing(alloc);
        all.place(alloc, Formula::True, Ok(what))?;
        Ok(all)
    }

    /// One more outcome, where the condition holds. It is one with what is shown there already.
    pub fn place(
        &mut self,
        alloc: Global,
        when: Formula,
        what: Result<T, R>,
    ) -> Result<(), NoMemory>
        ensures { IfOk result (λ _. (on : ℕ → Bool) → Judges T.form R.form on (condition_of when) (checked T.form R.form what) self.old self.new) }
    {
        match what {
            Ok(value) => {
                self.fine.place(alloc, when, value)?;
                Ok(())
            }
            Err(why) => {
                self.refused.push(when, why)?;
                Ok(())
            }
        }
    }

    /// `place`, in the configurations that the oracle admits: nothing, if it knows that the condition holds in none.
    pub fn place_possible<O: Oracle>(
        &mut self,
        alloc: Global,
        oracle: &mut O,
        when: Formula,
        what: Result<T, R>,
    ) -> Result<(), NoMemory>
        ensures kept { O.admits oracle.new ≡ O.admits oracle.old }
        ensures judges { IfOk result (λ _. (c : List Bool) → IsTrue (value (has c) (O.admits oracle.old)) → Judges T.form R.form (has c) (condition_of when) (checked T.form R.form what) self.old self.new) }
    {
        if oracle.may(&when) == May::No {
            return Ok(());
        }
        self.place(alloc, when, what)?;
        Ok(())
    }

    /// The outcomes of another judgement too, where the condition holds. They are one with what is shown there already.
    pub fn place_under(
        &mut self,
        alloc: Global,
        when: &Formula,
        other: &Outcomes<T, R>,
    ) -> Result<(), NoMemory>
        ensures { IfOk result (λ _. (on : ℕ → Bool) → JudgesUnder T.form R.form on (condition_of when.now) other.now self.old self.new) }
    {
        self.fine.place_under(alloc, when, &other.fine)?;
        self.refused.append_under(alloc, when, &other.refused)?;
        Ok(())
    }

    /// One judgement where the condition holds, and the other elsewhere.
    pub fn choose(
        alloc: Global,
        when: &Formula,
        chosen: &Outcomes<T, R>,
        otherwise: &Outcomes<T, R>,
    ) -> Result<Outcomes<T, R>, NoMemory>
        ensures { IfOk result (λ all. (on : ℕ → Bool) (p q : Checked T.Form R.Form) → Shows T.form R.form on true p chosen.now → Shows T.form R.form on true q otherwise.now → Shows T.form R.form on true (if value on (condition_of when.now) then p else q) all) }
    {
        let mut choice = Outcomes::nothing(alloc);
        choice.place_under(alloc, when, chosen)?;
        let elsewhere = Formula::not(alloc, when.try_clone(alloc)?)?;
        choice.place_under(alloc, &elsewhere, otherwise)?;
        Ok(choice)
    }

    /// The same after an earlier judgement, whose refusals come first.
    pub(crate) fn after(self, mut earlier: CondList<R>) -> Result<Outcomes<T, R>, NoMemory>
        ensures values { IfOk result (λ all. all.fine ≡ self.fine) }
        ensures refusals { IfOk result (λ all. (on : ℕ → Bool) → seen on (listed R.form all.refused) ≡ seen on (listed R.form earlier) ++ seen on (listed R.form self.refused)) }
    {
        let Outcomes { fine, refused } = self;
        earlier.append(refused)?;
        Ok(Outcomes {
            fine,
            refused: earlier,
        })
    }
}
