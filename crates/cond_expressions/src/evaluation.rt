//! The values of an expression in all configurations.
ghost use Rattle.std.specs.Prelude.{◌≡◌, ◌≤◌, ℕ, Bool, List, Option, Some, length, if◌then◌else◌, IsTrue, IfOk};
ghost use Rattle.cond_formula.specs.Features.{has};
ghost use Rattle.cond_formula.specs.Conditions.{condition_of, value};
ghost use Rattle.c_text.specs.Token.{plain_token};
ghost use Rattle.c_text.specs.Expressions.{word_of};
ghost use Rattle.conditional.specs.Entries.{alternatives, Sees};
ghost use Rattle.pp_lines.specs.ExpressionReading.{Place, Outcome};
ghost use Rattle.cond_expressions.specs.Places.{place_view, next_place};
ghost use Rattle.cond_expressions.specs.Values.{values_at, IsEvaluated};

use crate::answers::exclusive;
use crate::places::{Ending, ExpressionPlace, Taking};
use crate::pruning::possible;
use cond_formula::{Formula, NoMemory, Oracle};
use cond_tokens::CondToken;
use conditional::CondValue;
use pp_lines::{ExpressionReader, Value, values_are_read};
use std::alloc::Global;

// The places behind a token, which is read where it is present.
fn behind<O: Oracle>(
    alloc: Global,
    oracle: &mut O,
    token: &CondToken,
    places: CondValue<ExpressionPlace>,
) -> Result<CondValue<ExpressionPlace>, NoMemory>
    ensures kept { O.admits oracle.new ≡ O.admits oracle.old }
    ensures reads { IfOk result (λ new. (c : List Bool) → IsTrue (value (has c) (O.admits oracle.old)) → (p : Option (Place Outcome)) → Sees (has c) (Some p) (alternatives place_view places) → Sees (has c) (Some (if value (has c) (condition_of token.now.when) then next_place p (word_of (plain_token token.now.token)) else p)) (alternatives place_view new)) }
{
    let taking = Taking {
        token: &token.token,
    };
    let absent = Formula::not(alloc, token.when.try_clone(alloc)?)?;
    let before = places.restrict(alloc, &token.when)?;
    let before = possible(alloc, oracle, before)?;
    let read = before.map(alloc, &taking)?;
    let kept = places.restrict(alloc, &absent)?;
    let either = CondValue::choose(alloc, &token.when, &read, &kept)?;
    let places = possible(alloc, oracle, either)?;
    Ok(places)
}

/// The values of an expression whose tokens are present under conditions, as `evaluate` gives them in each configuration.
/// A place in the expression is kept once for all configurations that have come to it, so the work grows with the different
/// places that there are after a token, and with the sizes of conditions. What the oracle knows to be impossible is dropped.
pub fn evaluate_all<O: Oracle>(
    alloc: Global,
    tokens: &[CondToken],
    oracle: &mut O,
) -> Result<Vec<(Formula, Value)>, NoMemory>
    ensures kept { O.admits oracle.new ≡ O.admits oracle.old }
    ensures exclusive { IfOk result (λ xs. (on : ℕ → Bool) → length (values_at on xs.items) ≤ 1) }
    ensures values { IfOk result (λ xs. (c : List Bool) → IsTrue (value (has c) (O.admits oracle.old)) → IsEvaluated (has c) tokens.now xs.items) }
{
    values_are_read();
    let start = ExpressionReader::start(alloc);
    let mut places = CondValue::one(
        alloc,
        ExpressionPlace {
            reader: Some(start),
        },
    )?;
    for token in tokens {
        places = behind(alloc, oracle, token, places)?;
    }
    let values = places.map(alloc, &Ending)?;
    let answers = exclusive(alloc, &values.alternatives)?;
    Ok(answers)
}
