//! Questions, and what is answered.

ghost use Rattle.std.specs.Prelude.{◌≡◌, IfOk};
ghost use Rattle.cond_formula.specs.Conditions.{Condition, condition_of, VarsBelow};
ghost use Rattle.sat_core.specs.Answers.{IsAnswer};
ghost use Rattle.feature_model.specs.ModelView.{admitted};
ghost use Rattle.verdict_query.specs.Verdicts.{where_admitted, IsVerdict};

use cond_formula::{Config, Formula, NoMemory};
use feature_model::Model;
use sat_core::{Answer, Proof, solve};
use std::alloc::Global;

/// The features that a project may have.
const MOST_FEATURES: u8 = 128;

/// What is answered of a formula over a model's features.
#[derive(Drop)]
pub enum Verdict {
    /// No admitted configuration makes the formula true, as the proof shows.
    Never(Proof),
    /// The least admitted configuration that makes the formula true: of two configurations the lesser is the one in which the
    /// first feature that differs is off.
    Least(Config),
    /// Want of memory.
    Memory,
}

/// The formula that is true in the configurations that the model admits and in which the other is true.
#[tactic(auto, using(cond_formula::specs::ConditionLaws::formula_kinds))]
pub(crate) fn where_both(alloc: Global, model: &Model, when: &Formula) -> Result<Formula, NoMemory>
    ensures { IfOk result (λ f. condition_of f ≡ where_admitted (admitted model.now) (condition_of when.now)) }
{
    let admitted = model.formula().try_clone(alloc)?;
    let when = when.try_clone(alloc)?;
    let parts = vec![in alloc; admitted, when]?;
    Ok(Formula::And(parts))
}

/// What the solver's answer says of the question.
fn verdict_of(answer: Answer) -> Verdict
    ensures { (admitted condition : Condition) → IsAnswer 128 (where_admitted admitted condition) answer → IsVerdict admitted condition result }
{
    match answer {
        Answer::Sat(config) => Verdict::Least(config),
        Answer::Unsat(proof) => Verdict::Never(proof),
        Answer::Memory => Verdict::Memory,
    }
}

fn asked(alloc: Global, model: &Model, when: &Formula) -> Result<Verdict, NoMemory>
    requires model_numbered { VarsBelow 128 (admitted model.now) }
    requires numbered { VarsBelow 128 (condition_of when.now) }
    ensures { IfOk result (IsVerdict (admitted model.now) (condition_of when.now)) }
{
    let both = where_both(alloc, model, when)?;
    let verdict = verdict_of(solve(alloc, &both, MOST_FEATURES));
    Ok(verdict)
}

/// The least configuration that the model admits and that makes the formula true, or a refutation where there is none.
pub fn ask(alloc: Global, model: &Model, when: &Formula) -> Verdict
    requires model_numbered { VarsBelow 128 (admitted model.now) }
    requires numbered { VarsBelow 128 (condition_of when.now) }
    ensures { IsVerdict (admitted model.now) (condition_of when.now) result }
{
    match asked(alloc, model, when) {
        Ok(verdict) => verdict,
        Err(_) => Verdict::Memory,
    }
}
