//! What is read of the variants of a node, placed one after the other.
ghost use Rattle.std.specs.Prelude.{◌≡◌, ℕ, Bool, true, false, ◌||◌, IsTrue, IfOk};
ghost use Rattle.cond_formula.specs.Conditions.{condition_of, value};
ghost use Rattle.expression_types.specs.Known.{Callable};
ghost use Rattle.expression_types.specs.Reading.{Read, no_expression};
ghost use Rattle.cond_nodes.specs.Reads.{ShowsRead};
ghost use Rattle.cond_typing.specs.Progress.{ShowsSoFar};

use cond_formula::{Formula, NoMemory};
use cond_nodes::{Callee, CondRead, refused_everywhere};
use cond_operands::Operands;
use conditional::{CondList, CondValue, Outcomes};
use std::alloc::Global;

/// What has been read of the variants so far.
#[derive(Drop)]
pub struct VariantReads {
    pub outcomes: Operands,
    /// The functions that they name, of which the first counts that is there.
    pub callees: CondList<Callee>,
}

impl VariantReads {
    pub(crate) fn nothing(alloc: Global) -> VariantReads
        ensures { (on : ℕ → Bool) (callable : ℕ → Callable) (r : Read) → ShowsSoFar on callable r false result }
    {
        VariantReads {
            outcomes: Outcomes::nothing(alloc),
            callees: CondList::empty(alloc),
        }
    }

    /// One variant more.
    pub(crate) fn place(
        &mut self,
        alloc: Global,
        when: &Formula,
        read: CondRead,
    ) -> Result<(), NoMemory>
        ensures { IfOk result (λ _. (on : ℕ → Bool) (callable : ℕ → Callable) (r x : Read) (held : Bool) → ShowsRead on callable x read
            → (IsTrue (value on (condition_of when.now)) → x ≡ r) → ShowsSoFar on callable r held self.old → ShowsSoFar on callable r (held || value on (condition_of when.now)) self.new) }
    {
        let CondRead { outcomes, callee } = read;
        let CondValue { alternatives } = callee;
        self.outcomes.place_under(alloc, when, &outcomes)?;
        let named = CondList {
            entries: alternatives,
        };
        self.callees.append_under(alloc, when, &named)?;
        Ok(())
    }

    /// What has been read of all variants.
    pub(crate) fn read(self, alloc: Global) -> Result<CondRead, NoMemory>
        ensures { IfOk result (λ z. (on : ℕ → Bool) (callable : ℕ → Callable) (r : Read) → ShowsSoFar on callable r true self → ShowsRead on callable r z) }
    {
        let callee = self.callees.first_value(alloc)?;
        let VariantReads {
            outcomes,
            callees: _,
        } = self;
        Ok(CondRead { outcomes, callee })
    }
}

/// What is read where there is no expression.
pub(crate) fn nothing_read(alloc: Global) -> Result<CondRead, NoMemory>
    ensures { IfOk result (λ z. (on : ℕ → Bool) (callable : ℕ → Callable) → ShowsRead on callable no_expression z) }
{
    let outcomes = refused_everywhere(alloc)?;
    Ok(CondRead {
        outcomes,
        callee: CondValue::nothing(alloc),
    })
}
