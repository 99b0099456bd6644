//! What a condition says of single features.

ghost use Rattle.std.specs.Prelude.{◌≡◌, ◌≢◌, ◌<◌, ◌↔◌, ℕ, IsTrue};
ghost use Rattle.std.specs.Int.{bit_at};
ghost use Rattle.reduced_conditions.specs.Literals.{Shared, HasAll, Without};

use cond_formula::Formula;

/// Literals, that is features and negations of features, as two sets: bit number i of `on` is 1 where feature number i is among them,
/// and that bit of `off` where its negation is. Formulas are compared by them in a time that grows with their length, and not with its
/// square.
#[derive(Clone, Copy)]
pub struct Literals {
    pub(crate) on: u128,
    pub(crate) off: u128,
    /// They are all that the condition says.
    pub(crate) are_all: bool,
}

fn with_bit(bits: u128, feature: u8) -> u128
    requires { feature < 128 }
    ensures set { bit_at result feature ≡ 1 }
    ensures kept { (other : ℕ) → other ≢ feature → bit_at result other ≡ bit_at bits other }
{
    bits | (1 << feature)
}

// Whether the bit is 1.
fn has_bit(bits: u128, feature: u8) -> bool
    requires { feature < 128 }
    ensures { IsTrue result ↔ bit_at bits feature ≡ 1 }
{
    (bits >> feature) & 1 == 1
}

/// The number of the lowest bit that is 1.
pub(crate) fn lowest(bits: u128) -> u8
    requires { 0 < bits }
    ensures fits { result < 128 }
    ensures set { bit_at bits result ≡ 1 }
{
    bits.trailing_zeros() as u8
}

/// The bits without one that is 1.
pub(crate) fn without_bit(bits: u128, feature: u8) -> u128
    requires fits { feature < 128 }
    requires set { bit_at bits feature ≡ 1 }
    ensures smaller { result < bits }
    ensures gone { bit_at result feature ≡ 0 }
    ensures kept { (other : ℕ) → other ≢ feature → bit_at result other ≡ bit_at bits other }
{
    bits & !(1 << feature)
}

fn share_bit(a: u128, b: u128) -> bool
    ensures { IsTrue result → Shared a b }
{
    a & b != 0
}

// Whether each bit of the second is one of the first.
fn has_bits(a: u128, b: u128) -> bool
    ensures { IsTrue result → HasAll a b }
{
    a | b == a
}

// The bits of the first that aren't bits of the second.
fn without_bits(a: u128, b: u128) -> u128
    ensures { Without a b result }
{
    (a | b) ^ b
}

impl Literals {
    ghost use Rattle.std.specs.Prelude.{◌≡◌, ◌↔◌, ℕ, Bool, not, IsTrue};
    ghost use Rattle.cond_formula.specs.Conditions.{condition_of, conditions_of, value, all_true};
    ghost use Rattle.reduced_conditions.specs.Literals.{AreTrue, Tells, EachHas};

    /// No literal: all that is said where nothing is.
    pub(crate) fn none() -> Literals
        ensures all { IsTrue result.are_all }
        ensures none { (on : ℕ → Bool) → AreTrue on result }
    {
        Literals {
            on: 0,
            off: 0,
            are_all: true,
        }
    }

    // With the literal of a feature.
    fn take_feature(&mut self, feature: u8, is_on: bool)
        ensures { Tells self.old self.new (λ on. on feature ≡ is_on) }
    {
        if feature >= 128 {
            self.are_all = false;
        } else if is_on {
            self.on = with_bit(self.on, feature);
        } else {
            self.off = with_bit(self.off, feature);
        }
    }

    // With what is known where the formula has the value.
    #[cycle(read)]
    #[tactic(auto, using(cond_formula::specs::ConditionLaws::formula_kinds))]
    fn take(&mut self, f: &Formula, is_true: bool)
        ensures { Tells self.old self.new (λ on. value on (condition_of f.now) ≡ is_true) }
    {
        match f {
            Formula::True if is_true => (),
            Formula::False if !is_true => (),
            Formula::Var(feature) => self.take_feature(*feature, is_true),
            Formula::Not(inner) => self.take(inner, !is_true),
            Formula::And(parts) if is_true => self.take_each(parts, true),
            Formula::Or(parts) if !is_true => self.take_each(parts, false),
            _ => self.are_all = false,
        }
    }

    // With what is known where each of the formulas has the value.
    #[cycle(read)]
    fn take_each(&mut self, parts: &[Formula], is_true: bool)
        ensures { Tells self.old self.new (λ on. EachHas is_true on (conditions_of parts.now)) }
    {
        for part in parts {
            self.take_part(part, is_true);
        }
    }

    // `take`, which calls itself no more where the formula is a feature: most parts are.
    #[cycle(read)]
    fn take_part(&mut self, part: &Formula, is_true: bool)
        ensures { Tells self.old self.new (λ on. value on (condition_of part.now) ≡ is_true) }
    {
        match part {
            Formula::Var(feature) => self.take_feature(*feature, is_true),
            part => self.take(part, is_true),
        }
    }

    /// Those that are true where all of the formulas are.
    pub fn of_all(parts: &[Formula]) -> Literals
        ensures { (on : ℕ → Bool) → IsTrue (all_true on (conditions_of parts.now)) → AreTrue on result }
    {
        let mut literals = Literals::none();
        literals.take_each(parts, true);
        literals
    }

    /// Those that are true where the formula has the value.
    pub(crate) fn where_has(f: &Formula, is_true: bool) -> Literals
        ensures ahead { (on : ℕ → Bool) → value on (condition_of f.now) ≡ is_true → AreTrue on result }
        ensures back { IsTrue result.are_all → (on : ℕ → Bool) → AreTrue on result → value on (condition_of f.now) ≡ is_true }
    {
        let mut literals = Literals::none();
        literals.take(f, is_true);
        literals
    }

    /// Those that are true where the formula is.
    pub(crate) fn where_true(f: &Formula) -> Literals
        ensures ahead { (on : ℕ → Bool) → IsTrue (value on (condition_of f.now)) → AreTrue on result }
        ensures back { IsTrue result.are_all → (on : ℕ → Bool) → AreTrue on result → IsTrue (value on (condition_of f.now)) }
    {
        Literals::where_has(f, true)
    }

    /// Whether one of them is the negation of one of the others.
    pub(crate) fn contradict(&self, others: &Literals) -> bool
        ensures { IsTrue result → (on : ℕ → Bool) → AreTrue on self.now → AreTrue on others.now → ⊥ }
    {
        share_bit(self.on, others.off) || share_bit(self.off, others.on)
    }

    /// Whether the others are among them.
    pub(crate) fn include(&self, others: &Literals) -> bool
        ensures { IsTrue result → (on : ℕ → Bool) → AreTrue on self.now → AreTrue on others.now }
    {
        has_bits(self.on, others.on) && has_bits(self.off, others.off)
    }

    /// All of both.
    pub(crate) fn and(&self, others: &Literals) -> Literals
        ensures { (on : ℕ → Bool) → AreTrue on result ↔ (AreTrue on self.now × AreTrue on others.now) }
    {
        Literals {
            on: self.on | others.on,
            off: self.off | others.off,
            are_all: self.are_all && others.are_all,
        }
    }

    /// Those that aren't among the others.
    pub(crate) fn minus(&self, others: &Literals) -> Literals
        ensures ahead { (on : ℕ → Bool) → AreTrue on self.now → AreTrue on result }
        ensures back { (on : ℕ → Bool) → AreTrue on result → AreTrue on others.now → AreTrue on self.now }
    {
        Literals {
            on: without_bits(self.on, others.on),
            off: without_bits(self.off, others.off),
            are_all: self.are_all,
        }
    }

    /// The literal of a feature alone.
    pub(crate) fn of_feature(feature: u8, is_on: bool) -> Literals
        ensures { (on : ℕ → Bool) → on feature ≡ is_on → AreTrue on result }
    {
        let mut literals = Literals::none();
        literals.take_feature(feature, is_on);
        literals
    }

    /// Whether both are the same literals.
    pub(crate) fn is_same(&self, others: &Literals) -> bool
        ensures { IsTrue result → (on : ℕ → Bool) → AreTrue on self.now ↔ AreTrue on others.now }
    {
        self.on == others.on && self.off == others.off
    }

    /// The literal that the others deny, if it is one alone.
    pub(crate) fn change(&self, others: &Literals) -> Option<(u8, bool)> {
        let turned_off = self.on & others.off;
        let changed = turned_off | (self.off & others.on);
        if changed.count_ones() == 1 {
            return Some((changed.trailing_zeros() as u8, turned_off != 0));
        }
        None
    }

    /// Whether they have literals in common.
    pub(crate) fn share(&self, others: &Literals) -> bool {
        self.on & others.on != 0 || self.off & others.off != 0
    }

    // Whether one of them is the literal of the feature.
    fn have(&self, feature: u8, is_on: bool) -> bool
        ensures { IsTrue result → (on : ℕ → Bool) → AreTrue on self.now → on feature ≡ is_on }
    {
        if feature >= 128 {
            return false;
        }
        if is_on {
            return has_bit(self.on, feature);
        }
        has_bit(self.off, feature)
    }

    /// Whether they show that the formula has the value, by its parts.
    #[cycle(shown)]
    #[tactic(auto, using(cond_formula::specs::ConditionLaws::formula_kinds))]
    pub fn show(&self, f: &Formula, is_true: bool) -> bool
        ensures { IsTrue result → (on : ℕ → Bool) → AreTrue on self.now → value on (condition_of f.now) ≡ is_true }
    {
        match f {
            Formula::True => is_true,
            Formula::False => !is_true,
            Formula::Var(feature) => self.have(*feature, is_true),
            Formula::Not(inner) => self.show(inner, !is_true),
            Formula::And(parts) if is_true => self.show_each(parts, true),
            Formula::And(parts) => self.show_one(parts, false),
            Formula::Or(parts) if is_true => self.show_one(parts, true),
            Formula::Or(parts) => self.show_each(parts, false),
        }
    }

    #[cycle(shown)]
    fn show_each(&self, parts: &[Formula], is_true: bool) -> bool
        ensures { IsTrue result → (on : ℕ → Bool) → AreTrue on self.now → EachHas is_true on (conditions_of parts.now) }
    {
        for part in parts {
            if !self.show(part, is_true) {
                return false;
            }
        }
        true
    }

    #[cycle(shown)]
    fn show_one(&self, parts: &[Formula], is_true: bool) -> bool
        ensures { IsTrue result → (on : ℕ → Bool) → AreTrue on self.now → EachHas (not is_true) on (conditions_of parts.now) → ⊥ }
    {
        for part in parts {
            if self.show(part, is_true) {
                return true;
            }
        }
        false
    }
}
