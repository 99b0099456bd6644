//! What is put under conditions: values of one configuration, and functions of such values.

ghost use Rattle.std.specs.Prelude.{◌≡◌, IsTrue, IfOk, Result};

use cond_formula::NoMemory;
use std::alloc::Global;

/// A value of one configuration, which contracts see by a form without pointers and room.
pub trait Plain: Drop {
    ghost Form: { Type 0 };

    ghost form: { Self → Form };

    /// Whether both have the same form. A `false` promises nothing: two alternatives then aren't joined.
    fn is_same(&self, other: &Self) -> bool
        ensures { IsTrue result → form self.now ≡ form other.now };

    /// A value with the same form.
    fn try_clone(&self, alloc: Global) -> Result<Self, NoMemory>
        ensures { IfOk result (λ x. form x ≡ form self.now) };
}

/// A function of one value, as it is in one configuration.
pub trait Function<A: Plain, B: Plain> {
    ghost answers: { Self → A → B → Type 0 };

    fn apply(&self, alloc: Global, a: &A) -> Result<B, NoMemory>
        ensures { IfOk result (λ b. answers self.now a.now b) };
}

/// A judgement of one value, as it is in one configuration; it may refuse the value.
pub trait Judgement<A: Plain, C: Plain, R: Plain> {
    ghost answers: { Self → A → Result C R → Type 0 };

    fn judge(&self, alloc: Global, a: &A) -> Result<Result<C, R>, NoMemory>
        ensures { IfOk result (λ r. answers self.now a.now r) };
}

/// An operator on two values, as it is in one configuration; it may refuse them.
pub trait Operator<A: Plain, B: Plain, C: Plain, R: Plain> {
    ghost answers: { Self → A → B → Result C R → Type 0 };

    fn apply(&self, alloc: Global, a: &A, b: &B) -> Result<Result<C, R>, NoMemory>
        ensures { IfOk result (λ r. answers self.now a.now b.now r) };
}
