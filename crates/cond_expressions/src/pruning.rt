//! Conditional values without what needn't be kept.
ghost use Rattle.std.specs.Prelude.{◌≡◌, ℕ, Bool, List, [], ◌∷◌, ◌++◌, Option, IsTrue, IfOk};
ghost use Rattle.cond_formula.specs.Features.{has};
ghost use Rattle.cond_formula.specs.Conditions.{condition_of, value};
ghost use Rattle.conditional.specs.Entries.{alternatives, listed, seen, under, Sees};

use crate::conditions::small;
use cond_formula::{Formula, NoMemory, Oracle};
use conditional::{CondList, CondValue, Guarded, Plain};
use std::alloc::Global;

// The entry under a small condition, unless that is one that never holds.
fn push_small<T: Plain>(
    alloc: Global,
    list: &mut CondList<T>,
    entry: &Guarded<T>,
) -> Result<(), NoMemory>
    ensures { IfOk result (λ _. (on : ℕ → Bool) → seen on (listed T.form list.new) ≡ seen on (listed T.form list.old) ++ under (value on (condition_of entry.now.when)) (T.form entry.now.what ∷ [])) }
{
    match small(alloc, &entry.when)? {
        Formula::False => Ok(()),
        when => {
            list.push(when, entry.what.try_clone(alloc)?)?;
            Ok(())
        }
    }
}

// The same list under small conditions.
fn with_small_conditions<T: Plain>(
    alloc: Global,
    list: &CondList<T>,
) -> Result<CondList<T>, NoMemory>
    ensures { IfOk result (λ xs. (on : ℕ → Bool) → seen on (listed T.form xs) ≡ seen on (listed T.form list.now)) }
{
    let mut smaller = CondList::empty(alloc);
    for entry in &list.entries {
        push_small(alloc, &mut smaller, entry)?;
    }
    Ok(smaller)
}

/// The same value in each configuration that the oracle admits, under small conditions and without alternatives that are
/// known to hold in none.
pub fn possible<T: Plain, O: Oracle>(
    alloc: Global,
    oracle: &mut O,
    all: CondValue<T>,
) -> Result<CondValue<T>, NoMemory>
    ensures kept { O.admits oracle.new ≡ O.admits oracle.old }
    ensures same { IfOk result (λ x. (c : List Bool) → IsTrue (value (has c) (O.admits oracle.old)) → (o : Option T.Form) → Sees (has c) o (alternatives T.form all) → Sees (has c) o (alternatives T.form x)) }
{
    let CondValue { alternatives } = all;
    let list = CondList {
        entries: alternatives,
    };
    let smaller = with_small_conditions(alloc, &list)?;
    let CondList { entries } = smaller.pruned(alloc, oracle)?;
    Ok(CondValue {
        alternatives: entries,
    })
}
