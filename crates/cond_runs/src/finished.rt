//! What lists become.
ghost use Rattle.std.specs.Prelude.{◌≡◌, ℕ, Bool, [], Some, IfOk};
ghost use Rattle.c_text.specs.Macros as spec;
ghost use Rattle.cond_formula.specs.Features.{has};
ghost use Rattle.cond_formula.specs.Conditions.{condition_of, value};

use cond_bodies::{Item, when_left_open};
use cond_formula::{Formula, NoMemory};
use conditional::Guarded;
use macro_table::Macros;
use reduced_conditions::either;
use std::alloc::Global;

/// What a list becomes: items, and where a call in it is refused. There the items mean nothing.
#[derive(Drop)]
pub struct Finished<'t> {
    pub items: Vec<Guarded<Item<'t>>>,
    pub refused: Formula,
}

impl<'t> Finished<'t> {
    ghost use Rattle.std.specs.Prelude.{List};
    ghost use Rattle.macro_table.specs.Features.{macros_at};
    ghost use Rattle.cond_bodies.specs.CondItems.{items_at};
    ghost use Rattle.cond_runs.specs.CondFinished.{given_at};
    ghost use Rattle.cond_runs.specs.Looked.{unless};

    /// Nothing, and refused where the condition holds.
    #[tactic(auto, unfolding(crate::specs::CondFinished::given_at))]
    pub fn nothing(alloc: Global, refused: Formula) -> Finished<'t>
        ensures { (exact : Bool) (on : ℕ → Bool) → given_at exact on result ≡ unless (value on (condition_of refused)) (Some []) }
    {
        Finished {
            items: Vec::new(alloc),
            refused,
        }
    }

    /// The same, and refused where the condition holds, too.
    #[tactic(auto, unfolding(crate::specs::CondFinished::given_at))]
    pub fn refused_too(self, alloc: Global, when: Formula) -> Result<Finished<'t>, NoMemory>
        ensures { IfOk result (λ f. (exact : Bool) (on : ℕ → Bool) → given_at exact on f ≡ unless (value on (condition_of when)) (given_at exact on self.entry)) }
    {
        let Finished { items, refused } = self;
        let refused = either(alloc, refused, when)?;
        Ok(Finished { items, refused })
    }

    /// The same, and refused where it ends in a function-like macro's name that may still be replaced.
    pub fn unless_left_open(
        self,
        alloc: Global,
        macros: &Macros<'_>,
    ) -> Result<Finished<'t>, NoMemory>
        ensures { IfOk result (λ f. (exact : Bool) (c : List Bool) → given_at exact (has c) f ≡ unless (spec.ends_in_function (macros_at (has c) macros.now) (items_at (has c) self.entry.items.items)) (given_at exact (has c) self.entry)) }
    {
        let left_open = when_left_open(alloc, macros, self.items.as_slice())?;
        let f = self.refused_too(alloc, left_open)?;
        Ok(f)
    }
}
