//! What an oracle refutes, part by part.

ghost use Rattle.std.specs.Prelude.{◌≡◌, List, Bool, IsTrue, IfOk};
ghost use Rattle.cond_formula.specs.Features.{has};
ghost use Rattle.cond_formula.specs.Conditions.{condition_of, conditions_of, value, all_true, any_true};

use cond_formula::{Formula, May, NoMemory, Oracle};
use reduced_conditions::{both, either};
use std::alloc::Global;

/// The formula, or the one that is never true where the oracle refutes it.
fn unless_refuted<O: Oracle>(oracle: &mut O, f: Formula) -> Formula
    ensures kept { O.admits oracle.new ≡ O.admits oracle.old }
    ensures same { (c : List Bool) → IsTrue (value (has c) (O.admits oracle.old)) → value (has c) (condition_of result) ≡ value (has c) (condition_of f) }
{
    match oracle.may(&f) {
        May::No => Formula::False,
        May::Maybe => f,
    }
}

/// The formula without the parts that the oracle refutes: in each configuration that it admits the value is the same. A question about
/// one part is small, and where many parts are each never true, one about all of them together can be very large.
#[cycle(refuted)]
#[tactic(auto, using(cond_formula::specs::ConditionLaws::formula_kinds))]
pub fn without_refuted<O: Oracle>(
    alloc: Global,
    oracle: &mut O,
    f: &Formula,
) -> Result<Formula, NoMemory>
    ensures kept { O.admits oracle.new ≡ O.admits oracle.old }
    ensures same { IfOk result (λ r. (c : List Bool) → IsTrue (value (has c) (O.admits oracle.old)) → value (has c) (condition_of r) ≡ value (has c) (condition_of f.now)) }
{
    match f {
        Formula::Or(parts) => {
            let some = any_of(alloc, oracle, parts)?;
            Ok(some)
        }
        Formula::And(parts) => {
            let all = all_of(alloc, oracle, parts)?;
            Ok(unless_refuted(oracle, all))
        }
        _ => {
            let same = f.try_clone(alloc)?;
            Ok(unless_refuted(oracle, same))
        }
    }
}

#[cycle(refuted)]
fn any_of<O: Oracle>(alloc: Global, oracle: &mut O, parts: &[Formula]) -> Result<Formula, NoMemory>
    ensures kept { O.admits oracle.new ≡ O.admits oracle.old }
    ensures same { IfOk result (λ r. (c : List Bool) → IsTrue (value (has c) (O.admits oracle.old)) → value (has c) (condition_of r) ≡ any_true (has c) (conditions_of parts.now)) }
{
    let mut some = Formula::False;
    for part in parts {
        let live = without_refuted(alloc, oracle, part)?;
        some = either(alloc, some, live)?;
    }
    Ok(some)
}

#[cycle(refuted)]
fn all_of<O: Oracle>(alloc: Global, oracle: &mut O, parts: &[Formula]) -> Result<Formula, NoMemory>
    ensures kept { O.admits oracle.new ≡ O.admits oracle.old }
    ensures same { IfOk result (λ r. (c : List Bool) → IsTrue (value (has c) (O.admits oracle.old)) → value (has c) (condition_of r) ≡ all_true (has c) (conditions_of parts.now)) }
{
    let mut all = Formula::True;
    for part in parts {
        let live = without_refuted(alloc, oracle, part)?;
        all = both(alloc, all, live)?;
    }
    Ok(all)
}
