//! Conditions over the features of a project.

ghost use Rattle.std.specs.Prelude.{◌≡◌, List, Bool, IfOk};
ghost use Rattle.cond_formula.specs.Features.{has};
ghost use Rattle.cond_formula.specs.Conditions.{condition_of, value, VarsBelow};
ghost use Rattle.project_ties.specs.Tied.{IsOwn};

use cond_formula::{Formula, NoMemory, Oracle};
use feature_ranges::within_features;
use refuted_parts::without_refuted;
use std::alloc::Global;

/// The condition over so many features, without what is true in no configuration that is admitted.
pub(crate) fn own_condition<O: Oracle>(
    alloc: Global,
    oracle: &mut O,
    features: usize,
    when: &Formula,
) -> Result<Formula, NoMemory>
    ensures kept { O.admits oracle.new ≡ O.admits oracle.old }
    ensures below { IfOk result (λ f. VarsBelow features (condition_of f)) }
    ensures same { IfOk result (λ f. (c : List Bool) → IsOwn features (O.admits oracle.old) c → value (has c) (condition_of f) ≡ value (has c) (condition_of when.now)) }
{
    let live = without_refuted(alloc, oracle, when)?;
    let within = within_features(alloc, &live, features)?;
    Ok(within)
}
