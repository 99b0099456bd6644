//! Judgements of one value.

ghost use Rattle.std.specs.Prelude.{ℕ, Bool, true, IfOk, Result};
ghost use Rattle.conditional.specs.Entries.{entries_of, Maps, Stands};
ghost use Rattle.conditional.specs.Judgements.{Checked, bind, checked, Shows};

use crate::entries::Guarded;
use crate::outcomes::Outcomes;
use crate::plain::{Judgement, Plain};
use cond_formula::NoMemory;
use std::alloc::Global;

/// What comes of a value's judgement after an earlier one: its refusal where it refused, else what is judged of its value.
/// Alternatives that are judged alike are joined.
pub fn judged<A: Plain, C: Plain, R: Plain, F: Judgement<A, C, R>>(
    alloc: Global,
    judgement: &F,
    x: Outcomes<A, R>,
) -> Result<Outcomes<C, R>, NoMemory>
    ensures { IfOk result (λ z. (gives : A.Form → Checked C.Form R.Form) → Maps A.form (checked C.form R.form) (F.answers judgement.now) gives → (on : ℕ → Bool) (a : Checked A.Form R.Form) → Shows A.form R.form on true a x → Shows C.form R.form on true (bind a gives) z) }
{
    let all = each_judged(alloc, judgement, &x.fine.alternatives)?;
    let Outcomes { fine: _, refused } = x;
    let all = all.after(refused)?;
    Ok(all)
}

fn each_judged<A: Plain, C: Plain, R: Plain, F: Judgement<A, C, R>>(
    alloc: Global,
    judgement: &F,
    xs: &[Guarded<A>],
) -> Result<Outcomes<C, R>, NoMemory>
    ensures { IfOk result (λ all. (gives : A.Form → Checked C.Form R.Form) → Maps A.form (checked C.form R.form) (F.answers judgement.now) gives → (on : ℕ → Bool) (a : A.Form) → Stands on a (entries_of A.form xs.now) → Shows C.form R.form on true (gives a) all) }
{
    let mut all = Outcomes::nothing(alloc);
    for x in xs {
        let outcome = judgement.judge(alloc, &x.what)?;
        all.place(alloc, x.when.try_clone(alloc)?, outcome)?;
    }
    Ok(all)
}
