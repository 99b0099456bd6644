//! Sums of parts under conditions. All numbers beyond the limit are alike.
ghost use Rattle.std.specs.Prelude.{◌≡◌, ℕ, ◌+◌, ◌*◌, Bool, nat_le, IfOk, OnOk};
ghost use Rattle.cond_formula.specs.Conditions.{condition_of, value};
ghost use Rattle.core_meaning.specs.Constancy.{capped, most_scalars};
ghost use Rattle.cond_sums.specs.Sums.{counted, sum_at};

use crate::limits::where_within;
use cond_formula::{Formula, NoMemory};
use reduced_conditions::{both_of, is_same};
use std::alloc::Global;

/// The most scalars that an object may have.
pub(crate) const MOST_SCALARS: u32 = 16_777_216;

/// A number where its condition is true.
#[derive(Drop)]
pub struct CondPart {
    pub when: Formula,
    pub count: u32,
}

/// A number in all configurations: the sum of the parts that are there.
#[derive(Drop)]
pub struct CondSum {
    pub parts: Vec<CondPart>,
}

fn product(a: u32, b: u32) -> u32
    ensures { result ≡ capped (a * b) }
{
    (u64::from(a) * u64::from(b)).min(u64::from(MOST_SCALARS) + 1) as u32
}

fn sum(a: u32, b: u32) -> u32
    ensures { result ≡ capped (a + b) }
{
    (u64::from(a) + u64::from(b)).min(u64::from(MOST_SCALARS) + 1) as u32
}

impl CondSum {
    /// 0 in each configuration.
    pub fn nothing(alloc: Global) -> CondSum
        ensures { (on : ℕ → Bool) → sum_at on result ≡ 0 }
    {
        CondSum {
            parts: Vec::new(alloc),
        }
    }

    /// The same number in each configuration.
    #[tactic(auto, using(cond_formula::specs::ConditionLaws::formula_kinds))]
    pub fn number(alloc: Global, count: u32) -> Result<CondSum, NoMemory>
        ensures { IfOk result (λ s. (on : ℕ → Bool) → sum_at on s ≡ count) }
    {
        let parts = vec![in alloc;
            CondPart {
                when: Formula::True,
                count
            },
        ]?;
        Ok(CondSum { parts })
    }

    /// A number more where the condition is true: it is put into the last part if that has the same condition.
    pub fn add(&mut self, when: Formula, count: u32) -> Result<(), NoMemory>
        ensures { OnOk result ((on : ℕ → Bool) → capped (sum_at on self.new) ≡ capped (sum_at on self.old + counted (value on (condition_of when)) count)) }
    {
        let Some(last) = self.parts.pop() else {
            self.parts.push(CondPart { when, count })?;
            return Ok(());
        };
        if is_same(&last.when, &when) {
            let count = sum(last.count, count);
            self.parts.push(CondPart { when, count })?;
            return Ok(());
        }
        self.parts.push(last)?;
        self.parts.push(CondPart { when, count })?;
        Ok(())
    }

    /// The other number more where the condition is true.
    pub fn push_under(
        &mut self,
        alloc: Global,
        when: &Formula,
        other: &CondSum,
    ) -> Result<(), NoMemory>
        ensures { OnOk result ((on : ℕ → Bool) → capped (sum_at on self.new) ≡ capped (sum_at on self.old + counted (value on (condition_of when.now)) (sum_at on other.now))) }
    {
        for part in &other.parts {
            let here = both_of(alloc, &part.when, when)?;
            self.add(here, part.count)?;
        }
        Ok(())
    }

    /// The number where the condition is true, and 0 elsewhere.
    pub fn restrict(&self, alloc: Global, when: &Formula) -> Result<CondSum, NoMemory>
        ensures { IfOk result (λ s. (on : ℕ → Bool) → capped (sum_at on s) ≡ capped (counted (value on (condition_of when.now)) (sum_at on self.now))) }
    {
        let mut restricted = CondSum::nothing(alloc);
        restricted.push_under(alloc, when, self)?;
        Ok(restricted)
    }

    /// The same number.
    #[tactic(auto, using(cond_formula::specs::ConditionLaws::formula_kinds))]
    pub fn try_clone(&self, alloc: Global) -> Result<CondSum, NoMemory>
        ensures { IfOk result (λ s. (on : ℕ → Bool) → capped (sum_at on s) ≡ capped (sum_at on self.now)) }
    {
        let copy = self.restrict(alloc, &Formula::True)?;
        Ok(copy)
    }

    /// So many times the number.
    pub fn times(&self, alloc: Global, count: u32) -> Result<CondSum, NoMemory>
        ensures { IfOk result (λ s. (on : ℕ → Bool) → capped (sum_at on s) ≡ capped (count * capped (sum_at on self.now))) }
    {
        let mut all = CondSum::nothing(alloc);
        for part in &self.parts {
            all.add(part.when.try_clone(alloc)?, product(count, part.count))?;
        }
        Ok(all)
    }

    /// Where the number is within the limit.
    pub fn where_small(&self, alloc: Global) -> Result<Formula, NoMemory>
        ensures { IfOk result (λ f. (on : ℕ → Bool) → value on (condition_of f) ≡ nat_le (capped (sum_at on self.now)) most_scalars) }
    {
        let small = where_within(alloc, &self.parts, MOST_SCALARS)?;
        Ok(small)
    }
}
