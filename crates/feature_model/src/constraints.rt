//! One constraint: its text, read as a formula.
ghost use Rattle.std.specs.Prelude.{◌≡◌, ◌≤◌, length, map, MatchResult, if◌then◌else◌};
ghost use Rattle.cond_formula.specs.Conditions.{condition_of};
ghost use Rattle.feature_model.specs.View.{token_view};
ghost use Rattle.feature_model.specs.Constraints.{WhyRefused, Says, WhyTokens, SaysTokens};

use crate::errors::ModelError;
use crate::lexer::tokens_of;
use crate::reader::formula_of;
use crate::tokens::{Token, name_features};
use cond_formula::Formula;
use std::alloc::Global;

/// The bytes that a constraint may have.
const LONGEST: usize = 1024;

/// The formula, where each name is that of a feature.
fn known_or(is_known: bool, formula: Formula, index: u32) -> Result<Formula, ModelError>
    ensures { result ≡ (if is_known then Ok formula else Err (ModelError.UnknownFeature index)) }
{
    if is_known {
        return Ok(formula);
    }
    Err(ModelError::UnknownFeature(index))
}

/// The formula of a text's tokens, if they are those of a constraint.
fn formula_at(
    alloc: Global,
    features: &[String],
    tokens: &[Token],
    index: u32,
) -> Result<Formula, ModelError>
    requires { length features.now ≤ 128 }
    ensures { MatchResult result (λ f. SaysTokens features.now (map token_view tokens.now) (condition_of f)) (WhyTokens features.now (map token_view tokens.now) index) }
{
    let read = formula_of(alloc, features, tokens)?;
    match read {
        None => Err(ModelError::Syntax(index)),
        Some(formula) => {
            let formula = known_or(name_features(features, tokens), formula, index)?;
            Ok(formula)
        }
    }
}

/// The formula of the text with this place in its list, from 1.
pub fn constraint_at(
    alloc: Global,
    features: &[String],
    text: &[u8],
    index: u32,
) -> Result<Formula, ModelError>
    requires { length features.now ≤ 128 }
    ensures { MatchResult result (λ f. Says features.now text.now (condition_of f)) (WhyRefused features.now text.now index) }
{
    if text.len() > LONGEST {
        return Err(ModelError::Syntax(index));
    }
    let read = tokens_of(alloc, text)?;
    match read {
        None => Err(ModelError::Syntax(index)),
        Some(tokens) => {
            let formula = formula_at(alloc, features, &tokens, index)?;
            Ok(formula)
        }
    }
}

/// The formula of one constraint over features, which are numbered from 0 in their order. The operators are, from tight to
/// loose, `!`, `&&`, `||`, `->` and `<->`; `->` groups from the right, the others from the left. Blanks are spaces and tabs. A
/// text has at most 1,024 bytes. The errors have the number 1. No call recurses on the text.
pub fn parse_constraint(
    alloc: Global,
    features: &[String],
    text: &str,
) -> Result<Formula, ModelError>
    requires { length features.now ≤ 128 }
    ensures { MatchResult result (λ f. Says features.now text.now (condition_of f)) (WhyRefused features.now text.now 1) }
{
    let formula = constraint_at(alloc, features, text.as_bytes(), 1)?;
    Ok(formula)
}
