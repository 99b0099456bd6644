//! Formulas made of formulas.

ghost use Rattle.std.specs.Prelude.{◌≡◌, IfOk, [], ◌∷◌, ◌++◌};
ghost use Rattle.cond_formula.specs.Conditions.{condition_of, IsNegation, IsConjunction, IsDisjunction};

use crate::NoMemory;
use crate::formulas::Formula;
use std::alloc::Global;

impl Formula {
    /// The formula that is true where this one is false.
    pub fn not(alloc: Global, a: Formula) -> Result<Formula, NoMemory>
        ensures { IfOk result (λ f. IsNegation (condition_of a) (condition_of f)) }
    {
        match a {
            Formula::True => Ok(Formula::False),
            Formula::False => Ok(Formula::True),
            Formula::Not(inner) => Ok(Box::into_inner(inner)),
            a => Ok(Formula::Not(Box::new(alloc, a)?)),
        }
    }

    /// The formula that is true where both are. A list of conjuncts grows and isn't nested, so that the depth of a
    /// formula doesn't grow with the number of its conjuncts.
    pub fn and(alloc: Global, a: Formula, b: Formula) -> Result<Formula, NoMemory>
        ensures { IfOk result (λ f. IsConjunction (condition_of a) (condition_of b) (condition_of f)) }
    {
        match a {
            Formula::True => Ok(b),
            Formula::And(parts) => conjoined(parts, b),
            a => match b {
                Formula::True => Ok(a),
                Formula::And(parts) => Ok(Formula::And(with_part(parts, a)?)),
                b => Ok(Formula::And(pair(alloc, a, b)?)),
            },
        }
    }

    /// The formula that is true where one of these is. As in `and`, a list of disjuncts isn't nested.
    pub fn or(alloc: Global, a: Formula, b: Formula) -> Result<Formula, NoMemory>
        ensures { IfOk result (λ f. IsDisjunction (condition_of a) (condition_of b) (condition_of f)) }
    {
        match a {
            Formula::False => Ok(b),
            Formula::Or(parts) => disjoined(parts, b),
            a => match b {
                Formula::False => Ok(a),
                Formula::Or(parts) => Ok(Formula::Or(with_part(parts, a)?)),
                b => Ok(Formula::Or(pair(alloc, a, b)?)),
            },
        }
    }
}

// All of the parts, and the other.
fn conjoined(parts: Vec<Formula>, other: Formula) -> Result<Formula, NoMemory>
    ensures { IfOk result (λ f. IsConjunction (condition_of (Formula.And parts)) (condition_of other) (condition_of f)) }
{
    match other {
        Formula::And(more) => Ok(Formula::And(with_parts(parts, more)?)),
        other => Ok(Formula::And(with_part(parts, other)?)),
    }
}

// One of the parts, or the other.
fn disjoined(parts: Vec<Formula>, other: Formula) -> Result<Formula, NoMemory>
    ensures { IfOk result (λ f. IsDisjunction (condition_of (Formula.Or parts)) (condition_of other) (condition_of f)) }
{
    match other {
        Formula::Or(more) => Ok(Formula::Or(with_parts(parts, more)?)),
        other => Ok(Formula::Or(with_part(parts, other)?)),
    }
}

fn pair(alloc: Global, a: Formula, b: Formula) -> Result<Vec<Formula>, NoMemory>
    ensures { IfOk result (λ parts. parts.items ≡ a ∷ b ∷ []) }
{
    Ok(vec![in alloc; a, b]?)
}

fn with_part(mut parts: Vec<Formula>, part: Formula) -> Result<Vec<Formula>, NoMemory>
    ensures { IfOk result (λ longer. longer.items ≡ parts.items ++ part ∷ []) }
{
    parts.push(part)?;
    Ok(parts)
}

fn with_parts(mut parts: Vec<Formula>, mut more: Vec<Formula>) -> Result<Vec<Formula>, NoMemory>
    ensures { IfOk result (λ longer. longer.items ≡ parts.items ++ more.items) }
{
    parts.append(&mut more)?;
    Ok(parts)
}
