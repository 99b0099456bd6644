//! Paths that go on.

ghost use Rattle.std.specs.Prelude.{◌≡◌, ℕ, Bool, not, ◌&&◌, map, IsTrue, IfOk, OnOk};
ghost use Rattle.cond_formula.specs.Conditions.{condition_of, conditions_of, value, all_true, any_true};
ghost use Rattle.reduced_conditions.specs.Literals.{AreTrue};

use crate::left::{left_of_some, left_on};
use crate::said::follows_from;
use cond_formula::{Formula, NoMemory};
use reduced_conditions::Literals;
use std::alloc::Global;

/// The same path.
pub fn copied(alloc: Global, path: &[Formula]) -> Result<Vec<Formula>, NoMemory>
    ensures { IfOk result (λ copies. map condition_of copies.items ≡ map condition_of path.now) }
{
    let mut copies = Vec::with_capacity(alloc, path.len())?;
    for known in path {
        copies.push(known.try_clone(alloc)?)?;
    }
    Ok(copies)
}

#[tactic(auto, using(crate::proofs::PathLemmas::path_steps))]
fn push_copies(path: &mut Vec<Formula>, alloc: Global, parts: &[Formula]) -> Result<(), NoMemory>
    ensures { OnOk result ((on : ℕ → Bool) → all_true on (conditions_of path.new.items)
        ≡ (all_true on (conditions_of path.old.items) && all_true on (conditions_of parts.now))) }
{
    for part in parts {
        path.push(part.try_clone(alloc)?)?;
    }
    Ok(())
}

#[tactic(auto, using(crate::proofs::PathLemmas::path_steps))]
fn push_negation(path: &mut Vec<Formula>, alloc: Global, f: &Formula) -> Result<(), NoMemory>
    ensures { OnOk result ((on : ℕ → Bool) → all_true on (conditions_of path.new.items)
        ≡ (all_true on (conditions_of path.old.items) && not (value on (condition_of f.now)))) }
{
    let negation = Formula::not(alloc, f.try_clone(alloc)?)?;
    path.push(negation)?;
    Ok(())
}

#[tactic(auto, using(crate::proofs::PathLemmas::path_steps))]
fn push_negations(path: &mut Vec<Formula>, alloc: Global, parts: &[Formula]) -> Result<(), NoMemory>
    ensures { OnOk result ((on : ℕ → Bool) → all_true on (conditions_of path.new.items)
        ≡ (all_true on (conditions_of path.old.items) && not (any_true on (conditions_of parts.now)))) }
{
    for part in parts {
        push_negation(path, alloc, part)?;
    }
    Ok(())
}

/// What is true on the path since what is known there is.
#[tactic(auto, using(cond_formula::specs::ConditionLaws::formula_kinds))]
fn consequence(
    alloc: Global,
    known: &Formula,
    path: &[Formula],
    literals: &Literals,
) -> Result<Formula, NoMemory>
    requires { (on : ℕ → Bool) → IsTrue (all_true on (conditions_of path.now)) → AreTrue on literals.now }
    ensures { IfOk result (λ f. (on : ℕ → Bool) → IsTrue (all_true on (conditions_of path.now)) →
        IsTrue (value on (condition_of known.now)) → IsTrue (value on (condition_of f))) }
{
    match known {
        Formula::Or(parts) => left_of_some(alloc, parts, path, literals),
        Formula::Not(inner) => {
            let left = left_on(alloc, inner, path, literals)?;
            Formula::not(alloc, left)
        }
        _ => Ok(Formula::True),
    }
}

/// One formula more, if the path doesn't say it.
#[tactic(auto, using(crate::proofs::PathLemmas::path_steps))]
fn push_new(
    more: &mut Vec<Formula>,
    f: Formula,
    path: &[Formula],
    literals: &Literals,
) -> Result<(), NoMemory>
    requires { (on : ℕ → Bool) → IsTrue (all_true on (conditions_of path.now)) → AreTrue on literals.now }
    ensures { OnOk result ((on : ℕ → Bool) → IsTrue (all_true on (conditions_of path.now)) → IsTrue (value on (condition_of f)) →
        all_true on (conditions_of more.new.items) ≡ all_true on (conditions_of more.old.items)) }
{
    if !follows_from(&f, path, literals) {
        more.push(f)?;
    }
    Ok(())
}

/// What is true on the path since what it lists is.
#[tactic(auto, using(crate::proofs::PathLemmas::path_steps))]
fn consequences(alloc: Global, path: &[Formula]) -> Result<Vec<Formula>, NoMemory>
    ensures { IfOk result (λ more. (on : ℕ → Bool) → IsTrue (all_true on (conditions_of path.now)) →
        IsTrue (all_true on (conditions_of more.items))) }
{
    let literals = Literals::of_all(path);
    let mut more = Vec::new(alloc);
    for known in path {
        let f = consequence(alloc, known, path, &literals)?;
        push_new(&mut more, f, path, &literals)?;
    }
    Ok(more)
}

/// The path with what follows at once from what it lists.
#[tactic(auto, using(crate::proofs::PathLemmas::path_steps))]
fn completed(alloc: Global, path: Vec<Formula>) -> Result<Vec<Formula>, NoMemory>
    ensures { IfOk result (λ longer. (on : ℕ → Bool) → all_true on (conditions_of longer.items) ≡ all_true on (conditions_of path.items)) }
{
    let mut more = consequences(alloc, &path)?;
    let mut longer = path;
    longer.append(&mut more)?;
    Ok(longer)
}

/// The path goes on where the formula is true, by its parts too.
#[tactic(auto, using(cond_formula::specs::ConditionLaws::formula_kinds, crate::proofs::PathLemmas::path_steps))]
fn include(path: &mut Vec<Formula>, alloc: Global, f: &Formula) -> Result<(), NoMemory>
    ensures { OnOk result ((on : ℕ → Bool) → all_true on (conditions_of path.new.items)
        ≡ (all_true on (conditions_of path.old.items) && value on (condition_of f.now))) }
{
    path.push(f.try_clone(alloc)?)?;
    if let Formula::And(parts) = f {
        push_copies(path, alloc, parts)?;
    }
    Ok(())
}

/// The path goes on where the formula is false, by its parts too.
#[tactic(auto, using(cond_formula::specs::ConditionLaws::formula_kinds, crate::proofs::PathLemmas::path_steps))]
pub fn exclude(path: &mut Vec<Formula>, alloc: Global, f: &Formula) -> Result<(), NoMemory>
    ensures { OnOk result ((on : ℕ → Bool) → all_true on (conditions_of path.new.items)
        ≡ (all_true on (conditions_of path.old.items) && not (value on (condition_of f.now)))) }
{
    push_negation(path, alloc, f)?;
    if let Formula::Or(parts) = f {
        push_negations(path, alloc, parts)?;
    }
    Ok(())
}

/// The path that goes on where the formula is true.
pub fn with(alloc: Global, path: &[Formula], f: &Formula) -> Result<Vec<Formula>, NoMemory>
    ensures { IfOk result (λ longer. (on : ℕ → Bool) → all_true on (conditions_of longer.items)
        ≡ (all_true on (conditions_of path.now) && value on (condition_of f.now))) }
{
    let mut longer = copied(alloc, path)?;
    include(&mut longer, alloc, f)?;
    let complete = completed(alloc, longer)?;
    Ok(complete)
}

/// The path that goes on where the formula is false.
pub fn without(alloc: Global, path: &[Formula], f: &Formula) -> Result<Vec<Formula>, NoMemory>
    ensures { IfOk result (λ longer. (on : ℕ → Bool) → all_true on (conditions_of longer.items)
        ≡ (all_true on (conditions_of path.now) && not (value on (condition_of f.now)))) }
{
    let mut longer = copied(alloc, path)?;
    exclude(&mut longer, alloc, f)?;
    let complete = completed(alloc, longer)?;
    Ok(complete)
}
