//! The model and the units: what the texts over features mean.
ghost use Rattle.std.specs.Prelude.{◌≡◌, ◌+◌, ◌<◌, ◌≤◌, ◌^◌, length, map, MatchResult, option_map, string_bytes};
ghost use Rattle.cond_formula.specs.Conditions.{condition_of};
ghost use Rattle.feature_model.specs.ModelView.{admitted};
ghost use Rattle.project_file.specs.Contents.{texts_of};
ghost use Rattle.project_file.specs.Projects.{AreUnits, IsProjectOf};
ghost use Rattle.project_file.specs.Texts.{IsPresence, IsModelOf};
ghost use Rattle.project_file.specs.View.{Why, contents_view, project_view, unit_text_view, unit_view};
ghost use Rattle.project_file.specs.Checks as spec;

use crate::contents::{Contents, UnitText};
use crate::errors::ProjectError;
use crate::projects::{Project, Unit};
use cond_formula::Formula;
use feature_model::{Model, ModelError, parse_constraint, tree_is_one};
use std::alloc::Global;

/// The constraints, and the units, that a project may have: so each text has a place of 32 bits. A file that is short enough
/// to be read has fewer.
const MOST_TEXTS: usize = 0x7fff_fff0;

/// The error about a text that is refused.
fn refusal_of(error: ModelError) -> ProjectError
    ensures { result ≡ spec.refusal_of error }
{
    match error {
        ModelError::Syntax(place) => ProjectError::Constraint(place),
        ModelError::UnknownFeature(place) => ProjectError::Constraint(place),
        ModelError::TooMany => ProjectError::Memory,
        ModelError::Memory => ProjectError::Memory,
    }
}

/// The same of a text that stands at another place.
fn refusal_at(error: ModelError, place: u32) -> ProjectError
    ensures { result ≡ spec.refusal_at error place }
{
    match error {
        ModelError::Syntax(_) => ProjectError::Constraint(place),
        ModelError::UnknownFeature(_) => ProjectError::Constraint(place),
        ModelError::TooMany => ProjectError::Memory,
        ModelError::Memory => ProjectError::Memory,
    }
}

/// The model of the constraints.
fn model_of(
    alloc: Global,
    features: &[String],
    constraints: &[String],
) -> Result<Model, ProjectError>
    requires few { length features.now ≤ 128 }
    requires fits { length constraints.now < 2 ^ 31 }
    ensures { MatchResult result
        (λ model. IsModelOf (map string_bytes features.now) (map string_bytes constraints.now) (admitted model))
        (Why (spec.IsFaultOfTexts (map string_bytes features.now) (map Some (map string_bytes constraints.now))) ⊥) }
{
    tree_is_one();
    match Model::parse(alloc, features, constraints) {
        Ok(model) => Ok(model),
        Err(error) => Err(refusal_of(error)),
    }
}

/// The formula of a text.
fn formula_of(
    alloc: Global,
    features: &[String],
    text: &str,
    place: u32,
) -> Result<Formula, ProjectError>
    requires { length features.now ≤ 128 }
    ensures { MatchResult result
        (λ formula. IsPresence (map string_bytes features.now) (Some text.now) (condition_of formula))
        (Why (spec.IsFaultOfText (map string_bytes features.now) (Some text.now) place) ⊥) }
{
    tree_is_one();
    match parse_constraint(alloc, features, text) {
        Ok(formula) => Ok(formula),
        Err(error) => Err(refusal_at(error, place)),
    }
}

/// The condition under which a unit is present, if it has the text of one.
fn presence(
    alloc: Global,
    features: &[String],
    when: &Option<String>,
    place: u32,
) -> Result<Formula, ProjectError>
    requires { length features.now ≤ 128 }
    ensures { MatchResult result
        (λ formula. IsPresence (map string_bytes features.now) (option_map string_bytes when.now) (condition_of formula))
        (Why (spec.IsFaultOfText (map string_bytes features.now) (option_map string_bytes when.now) place) ⊥) }
{
    match when {
        None => Ok(Formula::True),
        Some(text) => {
            let formula = formula_of(alloc, features, text.as_str(), place)?;
            Ok(formula)
        }
    }
}

/// The unit of a file and the text of its condition.
fn unit_of(
    alloc: Global,
    features: &[String],
    text: &UnitText,
    place: u32,
) -> Result<Unit, ProjectError>
    requires { length features.now ≤ 128 }
    ensures { MatchResult result
        (λ unit. spec.IsUnitOf (map string_bytes features.now) (unit_text_view text.now) (unit_view unit))
        (Why (spec.IsFaultOfText (map string_bytes features.now) (unit_text_view text.now).when place) ⊥) }
{
    let when = presence(alloc, features, &text.when, place)?;
    let file = String::from_str(alloc, text.file.as_str())?;
    Ok(Unit { file, when })
}

/// The units of files and the texts of their conditions, of which the first has the place behind so many.
fn units_of(
    alloc: Global,
    features: &[String],
    texts: &[UnitText],
    before: u32,
) -> Result<Vec<Unit>, ProjectError>
    requires few { length features.now ≤ 128 }
    requires fits { before + length texts.now < 2 ^ 32 }
    ensures { MatchResult result
        (λ units. AreUnits (map string_bytes features.now) (map unit_text_view texts.now) (map unit_view units.items))
        (Why (spec.IsFaultOfUnits (map string_bytes features.now) (map unit_text_view texts.now) before) ⊥) }
{
    let mut units = Vec::new(alloc);
    for (index, text) in texts.iter().enumerate() {
        let unit = unit_of(alloc, features, text, before + index as u32 + 1)?;
        units.push(unit)?;
    }
    Ok(units)
}

/// The project of a file with this name that says this.
pub(crate) fn project_of(
    alloc: Global,
    name: &str,
    contents: Contents,
) -> Result<Project, ProjectError>
    requires { length contents.features.items ≤ 128 }
    ensures { MatchResult result
        (λ project. IsProjectOf name.now (contents_view contents) (project_view project))
        (Why (spec.IsFaultOfTexts (contents_view contents).features (texts_of (contents_view contents))) ⊥) }
{
    if contents.constraints.len() > MOST_TEXTS || contents.units.len() > MOST_TEXTS {
        return Err(ProjectError::Memory);
    }
    let name = String::from_str(alloc, name)?;
    let model = model_of(alloc, &contents.features, &contents.constraints)?;
    let before = contents.constraints.len() as u32;
    let units = units_of(alloc, &contents.features, &contents.units, before)?;
    Ok(Project {
        name,
        features: contents.features,
        model,
        headers: contents.headers,
        units,
    })
}
