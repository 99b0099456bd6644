//! Alternatives that exclude each other.
ghost use Rattle.std.specs.Prelude.{◌≡◌, ◌≤◌, ◌<◌, ◌+◌, ℕ, Bool, [], ◌∷◌, length, not, ◌&&◌, ◌||◌, IsTrue, IfOk};
ghost use Rattle.cond_formula.specs.Conditions.{condition_of, value};
ghost use Rattle.conditional.specs.Entries.{entries_of, Stands};
ghost use Rattle.cond_expressions.specs.Values.{values_at};
ghost use Rattle.pp_lines.specs.declared.expressions.Value.{Value};

use crate::places::ExpressionValue;
use cond_formula::{Formula, NoMemory};
use conditional::Guarded;
use pp_lines::Value;
use std::alloc::Global;

// Where the alternative holds and none before it does; the last one holds wherever none before it does.
fn apart(
    alloc: Global,
    earlier: &Formula,
    when: &Formula,
    is_last: bool,
) -> Result<Formula, NoMemory>
    ensures { IfOk result (λ f. (on : ℕ → Bool) → value on (condition_of f) ≡ (not (value on (condition_of earlier.now)) && (value on (condition_of when.now) || is_last))) }
{
    let free = Formula::not(alloc, earlier.try_clone(alloc)?)?;
    if is_last {
        return Ok(free);
    }
    let f = Formula::and(alloc, free, when.try_clone(alloc)?)?;
    Ok(f)
}

fn is_last(i: usize, count: usize) -> bool
    requires { i < count }
    ensures { IsTrue result → count ≤ i + 1 }
{
    i + 1 == count
}

/// The alternatives, each only where none before it holds, and the last one wherever none before it does.
pub fn exclusive(
    alloc: Global,
    alternatives: &[Guarded<ExpressionValue>],
) -> Result<Vec<(Formula, Value)>, NoMemory>
    ensures alone { IfOk result (λ xs. (on : ℕ → Bool) → length (values_at on xs.items) ≤ 1) }
    ensures stands { IfOk result (λ xs. (on : ℕ → Bool) (v : Value) → Stands on v (entries_of (λ w. w.value) alternatives.now) → values_at on xs.items ≡ v ∷ []) }
{
    let mut earlier = Formula::False;
    let mut answers = Vec::with_capacity(alloc, alternatives.len())?;
    for (i, alternative) in alternatives.iter().enumerate() {
        let is_last = is_last(i, alternatives.len());
        let when = apart(alloc, &earlier, &alternative.when, is_last)?;
        earlier = Formula::or(alloc, earlier, alternative.when.try_clone(alloc)?)?;
        answers.push((when, alternative.what.value))?;
    }
    Ok(answers)
}
