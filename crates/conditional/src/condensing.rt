//! Conditions that stay short. An operator on three types and more, as the common type of two numbers, gives one of its results for
//! several pairs, so that the conditions of a long chain of operators would double with each.

ghost use Rattle.std.specs.Prelude.{◌≡◌, ℕ, ◌<◌, Bool, true, false, IfOk, IfSome, length, vec_len};
ghost use Rattle.conditional.specs.Entries.{entries_of, some_holds, Stands};
ghost use Rattle.conditional.specs.Judgements.{Checked, Shows};

use crate::entries::{Guarded, when_some_hold};
use crate::outcomes::Outcomes;
use crate::plain::Plain;
use cond_formula::{Formula, NoMemory};
use std::alloc::Global;

/// The alternative whose condition is longer than those of all others together, if there are any three.
fn overlong<T>(alternatives: &[Guarded<T>]) -> Option<usize>
    ensures { IfSome result (λ i. i < length alternatives.now) }
{
    if alternatives.len() < 3 {
        return None;
    }
    let mut longest = 0;
    let mut most: u64 = 0;
    let mut all: u64 = 0;
    for (i, alternative) in alternatives.iter().enumerate() {
        let size = alternative.when.size();
        all = all.saturating_add(size);
        if size > most {
            most = size;
            longest = i;
        }
    }
    if most > all.saturating_sub(most) {
        Some(longest)
    } else {
        None
    }
}

fn without_condition<T: Drop>(alternative: Guarded<T>) -> T
    ensures { result ≡ alternative.what }
{
    let Guarded { when: _, what } = alternative;
    what
}

/// The alternative stands where no other and no refusal does.
fn stand_elsewhere<T: Plain, R: Plain>(
    alloc: Global,
    alternatives: &mut Vec<Guarded<T>>,
    refusals: &[Guarded<R>],
    i: usize,
) -> Result<(), NoMemory>
    requires { i < vec_len alternatives.old }
    ensures { IfOk result (λ _. (on : ℕ → Bool) (v : T.Form) → some_holds on (entries_of R.form refusals.now) ≡ false
        → Stands on v (entries_of T.form alternatives.old.items) → Stands on v (entries_of T.form alternatives.new.items)) }
{
    let what = without_condition(alternatives.remove(i));
    let others = when_some_hold(alloc, alternatives)?;
    let refused = when_some_hold(alloc, refusals)?;
    let elsewhere = Formula::not(alloc, Formula::or(alloc, others, refused)?)?;
    alternatives.push(Guarded {
        when: elsewhere,
        what,
    })?;
    Ok(())
}

impl<T: Plain, R: Plain> Outcomes<T, R> {
    /// The same outcomes: a value with an overlong condition stands where nothing else does.
    pub(crate) fn condensed(self, alloc: Global) -> Result<Outcomes<T, R>, NoMemory>
        ensures { IfOk result (λ all. (on : ℕ → Bool) (v : Checked T.Form R.Form) → Shows T.form R.form on true v self → Shows T.form R.form on true v all) }
    {
        let Some(i) = overlong(&self.fine.alternatives) else {
            return Ok(self);
        };
        let Outcomes { mut fine, refused } = self;
        stand_elsewhere(alloc, &mut fine.alternatives, &refused.entries, i)?;
        Ok(Outcomes { fine, refused })
    }
}
