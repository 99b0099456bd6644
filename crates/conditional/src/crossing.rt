//! Operators on two judgements.

ghost use Rattle.std.specs.Prelude.{◌≡◌, ℕ, Bool, true, List, IsTrue, IfOk, IfSome, Result};
ghost use Rattle.cond_formula.specs.Features.{has};
ghost use Rattle.cond_formula.specs.Conditions.{condition_of, value};
ghost use Rattle.conditional.specs.Entries.{entry_of, entries_of};
ghost use Rattle.conditional.specs.Judgements.{Checked, bind, checked, Computes, EachGives, IsCell, JudgesRow, JudgesAll, Shows};

use crate::entries::Guarded;
use crate::outcomes::Outcomes;
use crate::plain::{Operator, Plain};
use cond_formula::{Formula, NoMemory, Oracle};
use reduced_conditions::both_of;
use std::alloc::Global;

fn is_same<C: Plain, R: Plain>(a: &Result<C, R>, b: &Result<C, R>) -> bool
    ensures { IsTrue result → checked C.form R.form a.now ≡ checked C.form R.form b.now }
{
    match a {
        Ok(x) => match b {
            Ok(y) => x.is_same(y),
            Err(_) => false,
        },
        Err(x) => match b {
            Ok(_) => false,
            Err(y) => x.is_same(y),
        },
    }
}

// Whether the operator gives this outcome for the value and each alternative.
fn row_gives<A: Plain, B: Plain, C: Plain, R: Plain, F: Operator<A, B, C, R>>(
    alloc: Global,
    operator: &F,
    a: &A,
    ys: &[Guarded<B>],
    outcome: &Result<C, R>,
) -> Result<bool, NoMemory>
    ensures { IfOk result (λ all. (gives : A.Form → B.Form → Checked C.Form R.Form) → Computes A.form B.form C.form R.form (F.answers operator.now) gives → IsTrue all → EachGives (gives (A.form a.now)) (checked C.form R.form outcome.now) (entries_of B.form ys.now)) }
{
    for y in ys {
        let other = operator.apply(alloc, a, &y.what)?;
        if !is_same(&other, outcome) {
            return Ok(false);
        }
    }
    Ok(true)
}

// Whether the operator gives this outcome for each alternative and the value.
fn column_gives<A: Plain, B: Plain, C: Plain, R: Plain, F: Operator<A, B, C, R>>(
    alloc: Global,
    operator: &F,
    xs: &[Guarded<A>],
    b: &B,
    outcome: &Result<C, R>,
) -> Result<bool, NoMemory>
    ensures { IfOk result (λ all. (gives : A.Form → B.Form → Checked C.Form R.Form) → Computes A.form B.form C.form R.form (F.answers operator.now) gives → IsTrue all → EachGives (λ a. gives a (B.form b.now)) (checked C.form R.form outcome.now) (entries_of A.form xs.now)) }
{
    for x in xs {
        let other = operator.apply(alloc, &x.what, b)?;
        if !is_same(&other, outcome) {
            return Ok(false);
        }
    }
    Ok(true)
}

// Where the outcome of this pair may be placed: where both hold, and wherever the second does if the first makes no
// difference to it.
fn cell_condition<A: Plain, B: Plain, C: Plain, R: Plain, F: Operator<A, B, C, R>>(
    alloc: Global,
    operator: &F,
    xs: &[Guarded<A>],
    x: &Guarded<A>,
    y: &Guarded<B>,
    outcome: &Result<C, R>,
) -> Result<Formula, NoMemory>
    requires { F.answers operator.now x.now.what y.now.what outcome.now }
    ensures { IfOk result (λ f. (gives : A.Form → B.Form → Checked C.Form R.Form) → Computes A.form B.form C.form R.form (F.answers operator.now) gives → (on : ℕ → Bool) → IsCell on gives (entries_of A.form xs.now) (entry_of A.form x.now) (entry_of B.form y.now) (checked C.form R.form outcome.now) (condition_of f)) }
{
    if column_gives(alloc, operator, xs, &y.what, outcome)? {
        let when = y.when.try_clone(alloc)?;
        return Ok(when);
    }
    let when = both_of(alloc, &x.when, &y.when)?;
    Ok(when)
}

// The outcomes of one alternative with each of the others.
fn place_cells<A: Plain, B: Plain, C: Plain, R: Plain, F: Operator<A, B, C, R>, O: Oracle>(
    alloc: Global,
    operator: &F,
    oracle: &mut O,
    xs: &[Guarded<A>],
    ys: &[Guarded<B>],
    x: &Guarded<A>,
    all: &mut Outcomes<C, R>,
) -> Result<(), NoMemory>
    ensures kept { O.admits oracle.new ≡ O.admits oracle.old }
    ensures judges { IfOk result (λ _. (gives : A.Form → B.Form → Checked C.Form R.Form) → Computes A.form B.form C.form R.form (F.answers operator.now) gives → (c : List Bool) → IsTrue (value (has c) (O.admits oracle.old)) → JudgesRow C.form R.form (has c) gives (entries_of A.form xs.now) (entries_of B.form ys.now) (entry_of A.form x.now) all.old all.new) }
{
    for y in ys {
        let outcome = operator.apply(alloc, &x.what, &y.what)?;
        let when = cell_condition(alloc, operator, xs, x, y, &outcome)?;
        all.place_possible(alloc, oracle, when, outcome)?;
    }
    Ok(())
}

// The outcome of the value with each of the alternatives, if it is one.
fn row_outcome<A: Plain, B: Plain, C: Plain, R: Plain, F: Operator<A, B, C, R>>(
    alloc: Global,
    operator: &F,
    a: &A,
    ys: &[Guarded<B>],
) -> Result<Option<Result<C, R>>, NoMemory>
    ensures { IfOk result (λ o. (gives : A.Form → B.Form → Checked C.Form R.Form) → Computes A.form B.form C.form R.form (F.answers operator.now) gives → IfSome o (λ r. EachGives (gives (A.form a.now)) (checked C.form R.form r) (entries_of B.form ys.now))) }
{
    let Some(y) = ys.first() else {
        return Ok(None);
    };
    let outcome = operator.apply(alloc, a, &y.what)?;
    if row_gives(alloc, operator, a, ys, &outcome)? {
        return Ok(Some(outcome));
    }
    Ok(None)
}

// The same, at once where the other alternatives make no difference, so that no conditions are combined.
fn place_row<A: Plain, B: Plain, C: Plain, R: Plain, F: Operator<A, B, C, R>, O: Oracle>(
    alloc: Global,
    operator: &F,
    oracle: &mut O,
    xs: &[Guarded<A>],
    ys: &[Guarded<B>],
    x: &Guarded<A>,
    all: &mut Outcomes<C, R>,
) -> Result<(), NoMemory>
    ensures kept { O.admits oracle.new ≡ O.admits oracle.old }
    ensures judges { IfOk result (λ _. (gives : A.Form → B.Form → Checked C.Form R.Form) → Computes A.form B.form C.form R.form (F.answers operator.now) gives → (c : List Bool) → IsTrue (value (has c) (O.admits oracle.old)) → JudgesRow C.form R.form (has c) gives (entries_of A.form xs.now) (entries_of B.form ys.now) (entry_of A.form x.now) all.old all.new) }
{
    match row_outcome(alloc, operator, &x.what, ys)? {
        Some(outcome) => {
            all.place(alloc, x.when.try_clone(alloc)?, outcome)?;
            Ok(())
        }
        None => {
            place_cells(alloc, operator, oracle, xs, ys, x, all)?;
            Ok(())
        }
    }
}

fn all_pairs<A: Plain, B: Plain, C: Plain, R: Plain, F: Operator<A, B, C, R>, O: Oracle>(
    alloc: Global,
    operator: &F,
    oracle: &mut O,
    xs: &[Guarded<A>],
    ys: &[Guarded<B>],
) -> Result<Outcomes<C, R>, NoMemory>
    ensures kept { O.admits oracle.new ≡ O.admits oracle.old }
    ensures judges { IfOk result (λ all. (gives : A.Form → B.Form → Checked C.Form R.Form) → Computes A.form B.form C.form R.form (F.answers operator.now) gives → (c : List Bool) → IsTrue (value (has c) (O.admits oracle.old)) → JudgesAll C.form R.form (has c) gives (entries_of A.form xs.now) (entries_of B.form ys.now) all) }
{
    let mut all = Outcomes::nothing(alloc);
    for x in xs {
        place_row(alloc, operator, oracle, xs, ys, x, &mut all)?;
    }
    Ok(all)
}

/// What an operator makes of two judgements: the first refusal of the first, else that of the second, else what it gives
/// for their values. It is asked for pairs of alternatives, never for configurations.
pub fn crossed<A: Plain, B: Plain, C: Plain, R: Plain, F: Operator<A, B, C, R>, O: Oracle>(
    alloc: Global,
    operator: &F,
    oracle: &mut O,
    x: Outcomes<A, R>,
    y: Outcomes<B, R>,
) -> Result<Outcomes<C, R>, NoMemory>
    ensures kept { O.admits oracle.new ≡ O.admits oracle.old }
    ensures shows { IfOk result (λ z. (gives : A.Form → B.Form → Checked C.Form R.Form) → Computes A.form B.form C.form R.form (F.answers operator.now) gives → (c : List Bool) → IsTrue (value (has c) (O.admits oracle.old)) → (a : Checked A.Form R.Form) (b : Checked B.Form R.Form) → Shows A.form R.form (has c) true a x → Shows B.form R.form (has c) true b y → Shows C.form R.form (has c) true (bind a (λ a. bind b (λ b. gives a b))) z) }
{
    let all = all_pairs(
        alloc,
        operator,
        oracle,
        &x.fine.alternatives,
        &y.fine.alternatives,
    )?;
    let all = all.condensed(alloc)?;
    let Outcomes {
        fine: _,
        refused: first,
    } = x;
    let Outcomes {
        fine: _,
        refused: second,
    } = y;
    let all = all.after(second)?;
    let all = all.after(first)?;
    Ok(all)
}
