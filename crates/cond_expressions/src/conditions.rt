//! Conditions that are kept small. Each function keeps what is said and changes how it is written: what stands beside a fact is
//! written without it, and what two alternatives have in front is written once. So the conditions of alternatives that are
//! split and joined again and again don't double each time.
ghost use Rattle.std.specs.Prelude.{◌≡◌, ℕ, Bool, true, false, not, ◌&&◌, ◌||◌, map, take, drop, length, ◌<◌, IsTrue, IfOk, IfSome};
ghost use Rattle.cond_formula.specs.Conditions.{condition_of, conditions_of, value, all_true, any_true};

use cond_formula::{Formula, NoMemory};
use std::alloc::Global;
use std::slice::from_ref;

/// How many levels of alternatives are looked through for a common front.
const LEVELS: u32 = 16;

#[cycle(same)]
#[tactic(auto, using(cond_formula::specs::ConditionLaws::formula_kinds))]
fn is_same(a: &Formula, b: &Formula) -> bool
    ensures { IsTrue result → condition_of a.now ≡ condition_of b.now }
{
    match a {
        Formula::True => matches!(b, Formula::True),
        Formula::False => matches!(b, Formula::False),
        Formula::Var(feature) => match b {
            Formula::Var(other) => feature == other,
            _ => false,
        },
        Formula::Not(inner) => match b {
            Formula::Not(other) => is_same(inner, other),
            _ => false,
        },
        Formula::And(parts) => match b {
            Formula::And(others) => are_same(parts, others),
            _ => false,
        },
        Formula::Or(parts) => match b {
            Formula::Or(others) => are_same(parts, others),
            _ => false,
        },
    }
}

#[cycle(same)]
fn are_same(parts: &[Formula], others: &[Formula]) -> bool
    ensures { IsTrue result → map condition_of parts.now ≡ map condition_of others.now }
{
    if parts.len() != others.len() {
        return false;
    }
    for (i, part) in parts.iter().enumerate() {
        if !is_same(part, &others[i]) {
            return false;
        }
    }
    true
}

// Whether one is the other's negation.
#[tactic(auto, using(cond_formula::specs::ConditionLaws::formula_kinds))]
fn is_inverse(a: &Formula, b: &Formula) -> bool
    ensures { IsTrue result → (on : ℕ → Bool) → value on (condition_of a.now) ≡ not (value on (condition_of b.now)) }
{
    match a {
        Formula::Not(inner) => is_same(inner, b),
        _ => match b {
            Formula::Not(inner) => is_same(a, inner),
            _ => false,
        },
    }
}

// The formulas of which it is the conjunction.
#[tactic(auto, using(crate::proofs::SmallLaws::small_laws))]
fn parts_of(f: &Formula) -> &[Formula]
    ensures { (on : ℕ → Bool) → all_true on (conditions_of result.now) ≡ value on (condition_of f.now) }
{
    match f {
        Formula::And(parts) => parts.as_slice(),
        other => from_ref(other),
    }
}

#[tactic(auto, using(crate::proofs::SmallLaws::small_laws))]
fn into_parts(alloc: Global, f: Formula) -> Result<Vec<Formula>, NoMemory>
    ensures { IfOk result (λ parts. (on : ℕ → Bool) → all_true on (conditions_of parts.items) ≡ value on (condition_of f)) }
{
    match f {
        Formula::And(parts) => Ok(parts),
        f => {
            let parts = vec![in alloc; f]?;
            Ok(parts)
        }
    }
}

fn is_among(facts: &[Formula], f: &Formula) -> bool
    ensures { IsTrue result → (on : ℕ → Bool) → IsTrue (all_true on (conditions_of facts.now)) → IsTrue (value on (condition_of f.now)) }
{
    for fact in facts {
        if is_same(fact, f) {
            return true;
        }
    }
    false
}

fn is_refuted(facts: &[Formula], f: &Formula) -> bool
    ensures { IsTrue result → (on : ℕ → Bool) → IsTrue (all_true on (conditions_of facts.now)) → value on (condition_of f.now) ≡ false }
{
    for fact in facts {
        if is_inverse(fact, f) {
            return true;
        }
    }
    false
}

// A formula that says the same where the facts are true.
#[cycle(reduce)]
#[tactic(auto, using(cond_formula::specs::ConditionLaws::formula_kinds))]
fn reduced(f: &Formula, alloc: Global, facts: &[Formula]) -> Result<Formula, NoMemory>
    ensures { IfOk result (λ r. (on : ℕ → Bool) → IsTrue (all_true on (conditions_of facts.now)) → value on (condition_of r) ≡ value on (condition_of f.now)) }
{
    if is_among(facts, f) {
        return Ok(Formula::True);
    }
    if is_refuted(facts, f) {
        return Ok(Formula::False);
    }
    match f {
        Formula::Not(inner) => {
            let inner = reduced(inner, alloc, facts)?;
            let r = Formula::not(alloc, inner)?;
            Ok(r)
        }
        Formula::And(parts) => all_reduced(parts, alloc, facts),
        Formula::Or(parts) => any_reduced(parts, alloc, facts),
        other => other.try_clone(alloc),
    }
}

#[cycle(reduce)]
#[tactic(auto, using(cond_formula::specs::ConditionLaws::formula_kinds))]
fn all_reduced(parts: &[Formula], alloc: Global, facts: &[Formula]) -> Result<Formula, NoMemory>
    ensures { IfOk result (λ r. (on : ℕ → Bool) → IsTrue (all_true on (conditions_of facts.now)) → value on (condition_of r) ≡ all_true on (conditions_of parts.now)) }
{
    let mut all = Formula::True;
    for part in parts {
        let part = reduced(part, alloc, facts)?;
        all = conjunction(alloc, all, part)?;
    }
    Ok(all)
}

#[cycle(reduce)]
#[tactic(auto, using(cond_formula::specs::ConditionLaws::formula_kinds))]
fn any_reduced(parts: &[Formula], alloc: Global, facts: &[Formula]) -> Result<Formula, NoMemory>
    ensures { IfOk result (λ r. (on : ℕ → Bool) → IsTrue (all_true on (conditions_of facts.now)) → value on (condition_of r) ≡ any_true on (conditions_of parts.now)) }
{
    let mut any = Formula::False;
    for part in parts {
        let part = reduced(part, alloc, facts)?;
        any = disjunction(alloc, any, part)?;
    }
    Ok(any)
}

// Both, where neither is known to be false.
#[tactic(auto, using(cond_formula::specs::ConditionLaws::formula_kinds))]
fn conjunction(alloc: Global, a: Formula, b: Formula) -> Result<Formula, NoMemory>
    ensures { IfOk result (λ r. (on : ℕ → Bool) → value on (condition_of r) ≡ (value on (condition_of a) && value on (condition_of b))) }
{
    match a {
        Formula::False => Ok(Formula::False),
        a => match b {
            Formula::False => Ok(Formula::False),
            Formula::True => Ok(a),
            b => {
                let f = Formula::and(alloc, a, b)?;
                Ok(f)
            }
        },
    }
}

// One of the two, where neither is known to be true.
#[tactic(auto, using(cond_formula::specs::ConditionLaws::formula_kinds))]
fn disjunction(alloc: Global, a: Formula, b: Formula) -> Result<Formula, NoMemory>
    ensures { IfOk result (λ r. (on : ℕ → Bool) → value on (condition_of r) ≡ (value on (condition_of a) || value on (condition_of b))) }
{
    match a {
        Formula::True => Ok(Formula::True),
        a => match b {
            Formula::True => Ok(Formula::True),
            b => {
                let f = Formula::or(alloc, a, b)?;
                Ok(f)
            }
        },
    }
}

/// Both; the second is written without what the first says.
pub fn both(alloc: Global, a: Formula, b: &Formula) -> Result<Formula, NoMemory>
    ensures { IfOk result (λ r. (on : ℕ → Bool) → value on (condition_of r) ≡ (value on (condition_of a) && value on (condition_of b.now))) }
{
    let rest = reduced(b, alloc, parts_of(&a))?;
    let f = conjunction(alloc, a, rest)?;
    Ok(f)
}

// How many conjuncts both have in front.
fn common_front(a: &[Formula], b: &[Formula]) -> usize
    ensures { map condition_of (take result a.now) ≡ map condition_of (take result b.now) }
{
    let mut count = 0;
    for (i, part) in a.iter().enumerate() {
        if i >= b.len() || !is_same(part, &b[i]) {
            return count;
        }
        count = i + 1;
    }
    count
}

// The conjunction of the parts.
#[tactic(auto, using(cond_formula::specs::ConditionLaws::formula_kinds))]
fn conjoined(mut parts: Vec<Formula>) -> Formula
    ensures { (on : ℕ → Bool) → value on (condition_of result) ≡ all_true on (conditions_of parts.items) }
{
    if parts.len() > 1 {
        return Formula::And(parts);
    }
    match parts.pop() {
        Some(part) => part,
        None => Formula::True,
    }
}

/// A conjunction in two parts.
#[derive(Drop)]
struct Halves {
    front: Formula,
    rest: Formula,
}

// So many of the parts, and the others.
#[tactic(auto, using(crate::proofs::SmallLaws::small_laws))]
fn split(mut parts: Vec<Formula>, count: usize) -> Result<Halves, NoMemory>
    ensures front { IfOk result (λ h. (on : ℕ → Bool) → value on (condition_of h.front) ≡ all_true on (conditions_of (take count parts.items))) }
    ensures rest { IfOk result (λ h. (on : ℕ → Bool) → value on (condition_of h.rest) ≡ all_true on (conditions_of (drop count parts.items))) }
{
    if count > parts.len() {
        return Ok(Halves {
            front: conjoined(parts),
            rest: Formula::True,
        });
    }
    let rest = parts.split_off(count)?;
    Ok(Halves {
        front: conjoined(parts),
        rest: conjoined(rest),
    })
}

// One of the parts.
#[tactic(auto, using(cond_formula::specs::ConditionLaws::formula_kinds))]
fn disjoined(mut parts: Vec<Formula>) -> Formula
    ensures { (on : ℕ → Bool) → value on (condition_of result) ≡ any_true on (conditions_of parts.items) }
{
    if parts.len() > 1 {
        return Formula::Or(parts);
    }
    match parts.pop() {
        Some(part) => part,
        None => Formula::False,
    }
}

// Whether two alternatives can be written as one.
fn meet(a: &Formula, b: &Formula) -> bool {
    is_inverse(a, b) || common_front(parts_of(a), parts_of(b)) > 0
}

// One of the two, with what they have in front written once.
#[cycle(join)]
fn either(alloc: Global, levels: u32, a: Formula, b: Formula) -> Result<Formula, NoMemory>
    ensures { IfOk result (λ r. (on : ℕ → Bool) → value on (condition_of r) ≡ (value on (condition_of a) || value on (condition_of b))) }
{
    if levels == 0 {
        return disjunction(alloc, a, b);
    }
    if is_inverse(&a, &b) {
        return Ok(Formula::True);
    }
    merged(alloc, levels - 1, a, b)
}

#[cycle(join)]
#[tactic(auto, using(cond_formula::specs::ConditionLaws::formula_kinds))]
fn merged(alloc: Global, levels: u32, a: Formula, b: Formula) -> Result<Formula, NoMemory>
    ensures { IfOk result (λ r. (on : ℕ → Bool) → value on (condition_of r) ≡ (value on (condition_of a) || value on (condition_of b))) }
{
    match a {
        Formula::Or(parts) => joined(alloc, levels, parts, b),
        a => {
            let first = into_parts(alloc, a)?;
            let second = into_parts(alloc, b)?;
            let f = factored(alloc, levels, first, second)?;
            Ok(f)
        }
    }
}

// What both have in front, and one of the two others.
#[cycle(join)]
fn factored(
    alloc: Global,
    levels: u32,
    a: Vec<Formula>,
    b: Vec<Formula>,
) -> Result<Formula, NoMemory>
    ensures { IfOk result (λ r. (on : ℕ → Bool) → value on (condition_of r) ≡ (all_true on (conditions_of a.items) || all_true on (conditions_of b.items))) }
{
    let count = common_front(&a, &b);
    let Halves { front, rest: first } = split(a, count)?;
    let Halves {
        front: _,
        rest: second,
    } = split(b, count)?;
    let rest = either_rest(alloc, levels, count > 0, first, second)?;
    let f = conjunction(alloc, front, rest)?;
    Ok(f)
}

// One of the two, which may have something in front again if they had something before.
#[cycle(join)]
fn either_rest(
    alloc: Global,
    levels: u32,
    is_shorter: bool,
    a: Formula,
    b: Formula,
) -> Result<Formula, NoMemory>
    ensures { IfOk result (λ r. (on : ℕ → Bool) → value on (condition_of r) ≡ (value on (condition_of a) || value on (condition_of b))) }
{
    if is_shorter {
        either(alloc, levels, a, b)
    } else {
        disjunction(alloc, a, b)
    }
}

// The first part that can be written as one with the formula.
fn place_of(parts: &[Formula], f: &Formula) -> Option<usize>
    ensures { IfSome result (λ i. i < length parts.now) }
{
    for (i, part) in parts.iter().enumerate() {
        if meet(part, f) {
            return Some(i);
        }
    }
    None
}

// One of the parts or the other formula, which is written as one with a part if it can be.
#[cycle(join)]
#[tactic(auto, using(cond_formula::specs::ConditionLaws::formula_kinds))]
fn joined(
    alloc: Global,
    levels: u32,
    mut parts: Vec<Formula>,
    b: Formula,
) -> Result<Formula, NoMemory>
    ensures { IfOk result (λ r. (on : ℕ → Bool) → value on (condition_of r) ≡ (any_true on (conditions_of parts.items) || value on (condition_of b))) }
{
    match place_of(&parts, &b) {
        Some(i) => {
            let part = parts.remove(i);
            let one = either(alloc, levels, part, b)?;
            let f = disjunction(alloc, disjoined(parts), one)?;
            Ok(f)
        }
        None => {
            let f = disjunction(alloc, Formula::Or(parts), b)?;
            Ok(f)
        }
    }
}

/// One of the two, with what they have in front written once.
pub fn one_of(alloc: Global, a: Formula, b: Formula) -> Result<Formula, NoMemory>
    ensures { IfOk result (λ r. (on : ℕ → Bool) → value on (condition_of r) ≡ (value on (condition_of a) || value on (condition_of b))) }
{
    let f = either(alloc, LEVELS, a, b)?;
    Ok(f)
}

#[tactic(auto, using(cond_formula::specs::ConditionLaws::formula_kinds))]
fn all_of(alloc: Global, parts: &[Formula]) -> Result<Formula, NoMemory>
    ensures { IfOk result (λ r. (on : ℕ → Bool) → value on (condition_of r) ≡ all_true on (conditions_of parts.now)) }
{
    let mut all = Formula::True;
    for part in parts {
        all = both(alloc, all, part)?;
    }
    Ok(all)
}

#[tactic(auto, using(cond_formula::specs::ConditionLaws::formula_kinds))]
fn any_of(alloc: Global, parts: &[Formula]) -> Result<Formula, NoMemory>
    ensures { IfOk result (λ r. (on : ℕ → Bool) → value on (condition_of r) ≡ any_true on (conditions_of parts.now)) }
{
    let mut any = Formula::False;
    for part in parts {
        let part = all_of(alloc, parts_of(part))?;
        any = either(alloc, LEVELS, any, part)?;
    }
    Ok(any)
}

/// A small formula that says the same.
#[tactic(auto, using(cond_formula::specs::ConditionLaws::formula_kinds))]
pub fn small(alloc: Global, f: &Formula) -> Result<Formula, NoMemory>
    ensures { IfOk result (λ r. (on : ℕ → Bool) → value on (condition_of r) ≡ value on (condition_of f.now)) }
{
    match f {
        Formula::Or(parts) => any_of(alloc, parts),
        other => all_of(alloc, parts_of(other)),
    }
}
