//! Models: what the constraints of a project admit.
ghost use Rattle.std.specs.Prelude.{◌≡◌, ◌≤◌, ◌<◌, ◌^◌, ◌-◌, length, MatchResult, OnOk};
ghost use Rattle.cond_formula.specs.Conditions.{condition_of, value};
ghost use Rattle.cond_formula.specs.Features.{has};
ghost use Rattle.feature_model.specs.ModelView.{admitted};
ghost use Rattle.feature_model.specs.Constraints.{WhyNoModel, WhyStopped, Admits};

use crate::constraints::constraint_at;
use crate::errors::ModelError;
use cond_formula::{Config, Formula};
use std::alloc::Global;

/// The features that a project may have.
const MOST_FEATURES: usize = 128;

/// A feature model: the condition under which it admits a configuration.
#[derive(Drop)]
pub struct Model {
    formula: Formula,
}

/// The formula that is true where each constraint is.
fn conjoined(
    alloc: Global,
    features: &[String],
    constraints: &[String],
) -> Result<Formula, ModelError>
    requires few { length features.now ≤ 128 }
    requires fits { length constraints.now < 2 ^ 32 - 1 }
    ensures { MatchResult result (λ f. Admits features.now constraints.now (condition_of f)) (WhyStopped features.now constraints.now) }
{
    let mut formula = Formula::True;
    for (place, text) in constraints.iter().enumerate() {
        let constraint = constraint_at(alloc, features, text.as_bytes(), place as u32 + 1)?;
        formula = Formula::and(alloc, formula, constraint)?;
    }
    Ok(formula)
}

impl Model {
    /// The model of features, which are numbered from 0 in their order, and constraints over them. Refused are more than 128
    /// features, else the first constraint that `parse_constraint` refuses, by its place from 1.
    pub fn parse(
        alloc: Global,
        features: &[String],
        constraints: &[String],
    ) -> Result<Model, ModelError>
        requires { length constraints.now < 2 ^ 32 - 1 }
        ensures few { OnOk result (length features.now ≤ 128) }
        ensures model { MatchResult result (λ m. Admits features.now constraints.now (admitted m)) (WhyNoModel features.now constraints.now) }
    {
        if features.len() > MOST_FEATURES {
            return Err(ModelError::TooMany);
        }
        let formula = conjoined(alloc, features, constraints)?;
        Ok(Model { formula })
    }

    /// The formula that is true where the model admits a configuration. It names none but the features of `parse`
    /// (`Admits`, in its field `below`).
    pub fn formula(&self) -> &Formula
        ensures { condition_of result.now ≡ admitted self.now }
    {
        &self.formula
    }

    /// Whether every constraint is true in the configuration.
    pub fn admits(&self, c: Config) -> bool
        ensures { result ≡ value (has c) (admitted self.now) }
    {
        self.formula.value(c)
    }
}
