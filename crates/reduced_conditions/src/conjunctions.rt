//! Conjunctions of literals: formulas that say what a set of literals says, and no more. The negations stand together, as that of one
//! disjunction, so that such a formula is copied in few pieces.

ghost use Rattle.std.specs.Prelude.{◌≡◌, ℕ, Bool, false, not, ◌&&◌, ◌||◌, ◌↔◌, IsTrue, IfOk, IfSome};
ghost use Rattle.cond_formula.specs.Conditions.{condition_of, conditions_of, value, all_true, any_true};
ghost use Rattle.reduced_conditions.specs.Literals.{AreTrue, AllOn, AllOff};

use crate::literals::{Literals, lowest, without_bit};
use cond_formula::{Formula, NoMemory};
use std::alloc::Global;

// The features whose bits are 1.
fn features(alloc: Global, bits: u128) -> Result<Vec<Formula>, NoMemory>
    ensures all { IfOk result (λ parts. (on : ℕ → Bool) → IsTrue (all_true on (conditions_of parts.items)) ↔ AllOn on bits) }
    ensures none { IfOk result (λ parts. (on : ℕ → Bool) → any_true on (conditions_of parts.items) ≡ false ↔ AllOff on bits) }
{
    let mut parts = Vec::with_capacity(alloc, bits.count_ones() as usize)?;
    let mut rest = bits;
    while rest != 0 {
        let feature = lowest(rest);
        parts.push(Formula::Var(feature))?;
        rest = without_bit(rest, feature);
    }
    Ok(parts)
}

// The formula that is true where all of the parts are.
#[tactic(auto, using(cond_formula::specs::ConditionLaws::formula_kinds))]
fn all_of(mut parts: Vec<Formula>) -> Formula
    ensures { (on : ℕ → Bool) → value on (condition_of result) ≡ all_true on (conditions_of parts.items) }
{
    if parts.is_empty() {
        return Formula::True;
    }
    if parts.len() == 1 {
        return parts.remove(0);
    }
    Formula::And(parts)
}

// The formula that is true where one of the parts is.
#[tactic(auto, using(cond_formula::specs::ConditionLaws::formula_kinds))]
fn one_of(mut parts: Vec<Formula>) -> Formula
    ensures { (on : ℕ → Bool) → value on (condition_of result) ≡ any_true on (conditions_of parts.items) }
{
    if parts.len() == 1 {
        return parts.remove(0);
    }
    Formula::Or(parts)
}

// The parts, and the negation of the formula.
fn with_negation(
    alloc: Global,
    mut parts: Vec<Formula>,
    some: Formula,
) -> Result<Vec<Formula>, NoMemory>
    ensures { IfOk result (λ longer. (on : ℕ → Bool) → all_true on (conditions_of longer.items) ≡ (all_true on (conditions_of parts.items) && not (value on (condition_of some)))) }
{
    let negation = Formula::not(alloc, some)?;
    parts.push(negation)?;
    Ok(parts)
}

impl Literals {
    ghost use Rattle.std.specs.Prelude.{◌≡◌, ℕ, Bool, ◌↔◌, IsTrue, IfOk, IfSome};
    ghost use Rattle.cond_formula.specs.Conditions.{condition_of, value};
    ghost use Rattle.reduced_conditions.specs.Literals.{AreTrue};

    /// The formula that is true where they are.
    pub(crate) fn formula(&self, alloc: Global) -> Result<Formula, NoMemory>
        ensures { IfOk result (λ f. (on : ℕ → Bool) → IsTrue (value on (condition_of f)) ↔ AreTrue on self.now) }
    {
        let on = features(alloc, self.on)?;
        if self.off == 0 {
            return Ok(all_of(on));
        }
        let off = features(alloc, self.off)?;
        let some = one_of(off);
        let parts = with_negation(alloc, on, some)?;
        Ok(all_of(parts))
    }

    /// What of the formula they don't say, if it is a conjunction of literals.
    pub fn unsaid(&self, alloc: Global, f: &Formula) -> Result<Option<Formula>, NoMemory>
        ensures { IfOk result (λ unsaid. IfSome unsaid (λ left. (on : ℕ → Bool) → AreTrue on self.now → value on (condition_of left) ≡ value on (condition_of f.now))) }
    {
        let said = Literals::where_true(f);
        if !said.are_all {
            return Ok(None);
        }
        let rest = said.minus(self);
        let left = rest.formula(alloc)?;
        Ok(Some(left))
    }
}

/// The formula that is true where all of both are.
#[tactic(auto, using(cond_formula::specs::ConditionLaws::formula_kinds))]
pub(crate) fn conjoined(
    alloc: Global,
    literals: &Literals,
    others: &Literals,
) -> Result<Formula, NoMemory>
    ensures { IfOk result (λ f. (on : ℕ → Bool) → IsTrue (value on (condition_of f)) ↔ (AreTrue on literals.now × AreTrue on others.now)) }
{
    if literals.contradict(others) {
        return Ok(Formula::False);
    }
    let all = literals.and(others);
    let f = all.formula(alloc)?;
    Ok(f)
}

/// The formula that is true where one of the sets is, if they differ in one literal alone.
pub(crate) fn joined(
    alloc: Global,
    literals: &Literals,
    others: &Literals,
) -> Result<Option<Formula>, NoMemory>
    ensures all { IfOk result (λ joined. IfSome joined (λ f. IsTrue literals.now.are_all × IsTrue others.now.are_all)) }
    ensures one { IfOk result (λ joined. IfSome joined (λ f. (on : ℕ → Bool) → AreTrue on literals.now → IsTrue (value on (condition_of f)))) }
    ensures other { IfOk result (λ joined. IfSome joined (λ f. (on : ℕ → Bool) → AreTrue on others.now → IsTrue (value on (condition_of f)))) }
    ensures back { IfOk result (λ joined. IfSome joined (λ f. (on : ℕ → Bool) → IsTrue (value on (condition_of f)) → (AreTrue on literals.now → ⊥) → AreTrue on others.now)) }
{
    if !literals.are_all || !others.are_all {
        return Ok(None);
    }
    let Some((feature, is_on)) = literals.change(others) else {
        return Ok(None);
    };
    let rest = literals.minus(&Literals::of_feature(feature, is_on));
    let other_rest = others.minus(&Literals::of_feature(feature, !is_on));
    if !rest.is_same(&other_rest) {
        return Ok(None);
    }
    let f = rest.formula(alloc)?;
    Ok(Some(f))
}
