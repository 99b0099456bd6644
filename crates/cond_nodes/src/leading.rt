//! Values under conditions, each of which leads to a judgement that is conditional itself.
ghost use Rattle.std.specs.Prelude.{◌≡◌, ℕ, Bool, true, List, Option, ◌++◌, IsTrue, IfOk};
ghost use Rattle.cond_formula.specs.Features.{has};
ghost use Rattle.cond_formula.specs.Conditions.{value};
ghost use Rattle.conditional.specs.Entries.{listed, alternatives, seen, some_holds, Carry, Sees};
ghost use Rattle.conditional.specs.Judgements.{Checked, bind, Shows};
ghost use Rattle.operand_rules.specs.PlainOperandTypes.{plain_operand_type, reason};
ghost use Rattle.cond_operands.specs.Operands.{Judged, ShowsOperand};
ghost use Rattle.cond_nodes.specs.Leading.{OperandOutcomes, LeadsTo, given_by, if_any};

use cond_formula::{Formula, NoMemory, Oracle};
use cond_operands::Operands;
use conditional::{CondList, CondValue, Guarded, Outcomes, Plain, when_some_hold};
use operand_rules::Refused;
use std::alloc::Global;

/// What a value leads to.
pub(crate) trait Leading<A: Plain> {
    ghost leads: { Self → List Bool → A → OperandOutcomes → Type 0 };

    fn lead<O: Oracle>(&self, alloc: Global, oracle: &mut O, a: &A) -> Result<Operands, NoMemory>
        ensures kept { O.admits oracle.new ≡ O.admits oracle.old }
        ensures leads { IfOk result (λ z. (c : List Bool) → IsTrue (value (has c) (O.admits oracle.old)) → leads self.now c a.now z) };
}

/// What each of the values leads to, where it holds.
fn led<A: Plain, L: Leading<A>, O: Oracle>(
    alloc: Global,
    leading: &L,
    oracle: &mut O,
    xs: &[Guarded<A>],
) -> Result<Operands, NoMemory>
    ensures kept { O.admits oracle.new ≡ O.admits oracle.old }
    ensures shows { IfOk result (λ all. (c : List Bool) (gives : A.Form → Judged) (v : Judged) → IsTrue (value (has c) (O.admits oracle.old))
        → LeadsTo A.form (L.leads leading.now c) (has c) gives → Carry (has c) v (given_by A.form gives xs.now)
        → Shows plain_operand_type reason (has c) (some_holds (has c) (given_by A.form gives xs.now)) v all) }
{
    let mut all = Outcomes::nothing(alloc);
    for x in xs {
        let outcomes = leading.lead(alloc, oracle, &x.what)?;
        all.place_under(alloc, &x.when, &outcomes)?;
    }
    Ok(all)
}

/// What the value leads to; it is refused where there is none.
pub(crate) fn led_or_refused<A: Plain, L: Leading<A>, O: Oracle>(
    alloc: Global,
    leading: &L,
    oracle: &mut O,
    x: &CondValue<A>,
) -> Result<Operands, NoMemory>
    ensures kept { O.admits oracle.new ≡ O.admits oracle.old }
    ensures shows { IfOk result (λ all. (c : List Bool) (gives : A.Form → Judged) (a : Option A.Form) → IsTrue (value (has c) (O.admits oracle.old))
        → LeadsTo A.form (L.leads leading.now c) (has c) gives → Sees (has c) a (alternatives A.form x.now) → ShowsOperand (has c) (if_any gives a) all) }
{
    let mut all = led(alloc, leading, oracle, &x.alternatives)?;
    let some = when_some_hold(alloc, &x.alternatives)?;
    let elsewhere = Formula::not(alloc, some)?;
    all.place(alloc, elsewhere, Err(Refused))?;
    Ok(all)
}

/// A judgement after an earlier one, whose refusals come first.
fn after(mut earlier: CondList<Refused>, later: Operands) -> Result<Operands, NoMemory>
    ensures values { IfOk result (λ all. all.fine ≡ later.fine) }
    ensures refusals { IfOk result (λ all. (on : ℕ → Bool) → seen on (listed reason all.refused) ≡ seen on (listed reason earlier) ++ seen on (listed reason later.refused)) }
{
    let Outcomes { fine, refused } = later;
    earlier.append(refused)?;
    Ok(Outcomes {
        fine,
        refused: earlier,
    })
}

/// What the value of a judgement leads to; its refusal where it refused.
pub(crate) fn bound<A: Plain, L: Leading<A>, O: Oracle>(
    alloc: Global,
    leading: &L,
    oracle: &mut O,
    x: Outcomes<A, Refused>,
) -> Result<Operands, NoMemory>
    ensures kept { O.admits oracle.new ≡ O.admits oracle.old }
    ensures shows { IfOk result (λ all. (c : List Bool) (gives : A.Form → Judged) (a : Checked A.Form (Unit {0})) → IsTrue (value (has c) (O.admits oracle.old))
        → LeadsTo A.form (L.leads leading.now c) (has c) gives → Shows A.form reason (has c) true a x → ShowsOperand (has c) (bind a gives) all) }
{
    let all = led(alloc, leading, oracle, &x.fine.alternatives)?;
    let Outcomes { fine: _, refused } = x;
    let all = after(refused, all)?;
    Ok(all)
}
