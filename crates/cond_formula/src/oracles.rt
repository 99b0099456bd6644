//! Oracles: quick answers to whether a formula can be true at all.

ghost use Rattle.std.specs.Prelude.{◌≡◌, List, Bool, false, IsTrue};
ghost use Rattle.cond_formula.specs.Features.{has};
ghost use Rattle.cond_formula.specs.Conditions.{Condition, Always, condition_of, value};

use crate::formulas::Formula;

/// Whether a formula may be true.
#[derive(Clone, Copy, Debug, PartialEq, Eq)]
pub enum May {
    /// No configuration makes it true.
    No,
    /// Some configuration may make it true, or none.
    Maybe,
}

/// What says of formulas whether they can be true. Its meaning is a condition: the configurations that it admits are
/// those where the condition is true, and no call changes it.
pub trait Oracle {
    ghost admits: { Self → Condition };

    /// `No` only where no configuration that the oracle admits makes the formula true. `Maybe` promises nothing, so an
    /// oracle saves work and changes no answer.
    fn may(&mut self, f: &Formula) -> May
        ensures kept { admits self.new ≡ admits self.old }
        ensures no { result ≡ May.No → (c : List Bool) →
            IsTrue (value (has c) (admits self.old)) → value (has c) (condition_of f.now) ≡ false };
}

/// The oracle that admits every configuration and knows nothing.
#[derive(Clone, Copy, Debug)]
pub struct PlainOracle;

impl Oracle for PlainOracle {
    ghost admits = { λ _. Always };

    /// Always `Maybe`.
    fn may(&mut self, _f: &Formula) -> May
        ensures maybe { result ≡ May.Maybe }
    {
        May::Maybe
    }
}
