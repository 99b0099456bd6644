//! The least model of a formula, or a proof that there is none.

ghost use Rattle.std.specs.Prelude.{◌≤◌, IfOk};
ghost use Rattle.cond_formula.specs.Conditions.{condition_of, VarsBelow};
ghost use Rattle.sat_core.specs.Answers.{IsAnswer};

use crate::answers::{Answer, Proof};
use crate::configs::config_of;
use crate::laws::refuted_formulas_have_no_model;
use crate::translation::{Translation, translate};
use clause_search::{Found, search};
use cond_formula::{Formula, NoMemory};
use std::alloc::Global;

/// The least model of a formula over so many features, or a proof that it has none.
pub fn solve(alloc: Global, formula: &Formula, features: u8) -> Answer
    requires few { features ≤ 128 }
    requires numbered { VarsBelow features (condition_of formula.now) }
    ensures { IsAnswer features (condition_of formula.now) result }
{
    match solved(alloc, formula, features) {
        Ok(answer) => answer,
        Err(_) => Answer::Memory,
    }
}

fn solved(alloc: Global, formula: &Formula, features: u8) -> Result<Answer, NoMemory>
    requires few { features ≤ 128 }
    requires numbered { VarsBelow features (condition_of formula.now) }
    ensures { IfOk result (IsAnswer features (condition_of formula.now)) }
{
    refuted_formulas_have_no_model();
    let Translation { vars, clauses } = translate(alloc, formula, features)?;
    match search(alloc, vars, &clauses)? {
        Found::Least(values) => Ok(Answer::Sat(config_of(&values, features))),
        Found::Refuted(steps) => Ok(Answer::Unsat(Proof {
            vars,
            given: clauses,
            steps,
        })),
    }
}
