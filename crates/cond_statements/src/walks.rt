//! What a walk over the parts of a node carries along.
ghost use Rattle.std.specs.Prelude.{◌≡◌, ℕ, Bool, false, ◌||◌, OnOk};
ghost use Rattle.cond_formula.specs.Conditions.{condition_of, value};

use cond_formula::{Formula, NoMemory};
use reduced_conditions::either;
use std::alloc::Global;
use std::mem;

/// How far a walk over the parts of a node has come.
#[derive(Drop)]
pub struct Walk {
    /// Where a part was refused.
    pub refused: Formula,
    /// Where a `;` among the parts turned what an expression is.
    pub turned: Formula,
}

impl Walk {
    /// Before the first part.
    #[tactic(auto, using(cond_formula::specs::ConditionLaws::formula_kinds))]
    pub(crate) fn new() -> Walk
        ensures refused { (on : ℕ → Bool) → value on (condition_of result.refused) ≡ false }
        ensures turned { (on : ℕ → Bool) → value on (condition_of result.turned) ≡ false }
    {
        Walk {
            refused: Formula::False,
            turned: Formula::False,
        }
    }

    /// A part is refused there too.
    pub(crate) fn refuse(&mut self, alloc: Global, found: Formula) -> Result<(), NoMemory>
        ensures refused { OnOk result ((on : ℕ → Bool) → value on (condition_of self.new.refused) ≡ (value on (condition_of self.old.refused) || value on (condition_of found))) }
        ensures turned { self.new.turned ≡ self.old.turned }
    {
        let before = mem::replace(&mut self.refused, Formula::False);
        self.refused = either(alloc, before, found)?;
        Ok(())
    }

    /// A `;` turned it there too.
    pub(crate) fn turn(&mut self, alloc: Global, when: &Formula) -> Result<(), NoMemory>
        ensures turned { OnOk result ((on : ℕ → Bool) → value on (condition_of self.new.turned) ≡ (value on (condition_of self.old.turned) || value on (condition_of when.now))) }
        ensures refused { self.new.refused ≡ self.old.refused }
    {
        let before = mem::replace(&mut self.turned, Formula::False);
        self.turned = either(alloc, before, when.try_clone(alloc)?)?;
        Ok(())
    }
}
