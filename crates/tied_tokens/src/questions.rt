//! Whether a condition is true in some configuration that counts.

ghost use Rattle.std.specs.Prelude.{◌↔◌, IsTrue, IfOk};
ghost use Rattle.cond_formula.specs.Conditions.{condition_of, Condition, VarsBelow};
ghost use Rattle.feature_model.specs.ModelView.{admitted};
ghost use Rattle.verdict_query.specs.Verdicts.{where_admitted, IsVerdict};
ghost use Rattle.tied_tokens.specs.Ties.{plain_tied_tokens};
ghost use Rattle.tied_tokens.specs.Reached.{IsPossible};
ghost use Rattle.tied_tokens.specs.Search.{TellsModel};

use crate::ties::TiedTokens;
use cond_formula::{Config, Formula, NoMemory};
use std::alloc::{AllocError, Global};
use verdict_query::{Verdict, ask, suggested};

/// Sets of features in which many conditions are true that are true anywhere: none, all, and every other one.
const FIRST_TRIED: [Config; 4] = [
    Config { bits: 0 },
    Config { bits: u128::MAX },
    Config {
        bits: 0x5555_5555_5555_5555_5555_5555_5555_5555,
    },
    Config {
        bits: 0xaaaa_aaaa_aaaa_aaaa_aaaa_aaaa_aaaa_aaaa,
    },
];

/// The configurations that are tried before the solver is asked for the first time.
pub(crate) fn first_tried(alloc: Global) -> Result<Vec<Config>, NoMemory> {
    Vec::from_slice(alloc, &FIRST_TRIED)
}

/// Whether a configuration is answered, which is tried from now on.
fn is_some(verdict: Verdict, tried: &mut Vec<Config>) -> Result<bool, NoMemory>
    ensures { (admitted condition : Condition) → IsVerdict admitted condition verdict → IfOk result (TellsModel (where_admitted admitted condition)) }
{
    match verdict {
        Verdict::Least(c) => {
            tried.push(c)?;
            Ok(true)
        }
        Verdict::Never(_) => Ok(false),
        Verdict::Memory => Err(AllocError),
    }
}

/// Whether the configuration is admitted and accepted, and makes the condition true.
fn is_found_in(all: &TiedTokens<'_>, when: &Formula, c: Config) -> bool
    ensures { IsTrue result → IsPossible (plain_tied_tokens all.now) (condition_of when.now) }
{
    if !all.model.admits(c) {
        return false;
    }
    if !all.accepted.value(c) {
        return false;
    }
    when.value(c)
}

/// Whether one of those that are tried does so, which saves the solver many questions.
fn is_found(all: &TiedTokens<'_>, when: &Formula, tried: &[Config]) -> bool
    ensures { IsTrue result → IsPossible (plain_tied_tokens all.now) (condition_of when.now) }
{
    for c in tried {
        if is_found_in(all, when, *c) {
            return true;
        }
    }
    false
}

/// Whether some configuration that is admitted and accepted makes the condition true. One that is found is tried from now on.
pub(crate) fn is_possible(
    alloc: Global,
    all: &TiedTokens<'_>,
    when: &Formula,
    tried: &mut Vec<Config>,
) -> Result<bool, NoMemory>
    requires model { VarsBelow 128 (admitted all.now.model.now) }
    requires accepted { VarsBelow 128 (condition_of all.now.accepted.now) }
    requires condition { VarsBelow 128 (condition_of when.now) }
    ensures { IfOk result (λ b. IsTrue b ↔ IsPossible (plain_tied_tokens all.now) (condition_of when.now)) }
{
    if is_found(all, when, tried) {
        return Ok(true);
    }
    let accepted = all.accepted.try_clone(alloc)?;
    let when = when.try_clone(alloc)?;
    let question = Formula::and(alloc, accepted, when)?;
    if let Some(c) = suggested(all.model, &question) {
        tried.push(c)?;
        return Ok(true);
    }
    is_some(ask(alloc, all.model, &question), tried)
}
