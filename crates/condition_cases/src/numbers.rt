//! Numbers as values under conditions, and functions of them.
ghost use Rattle.std.specs.Prelude.{◌≡◌, ℕ, ◌/◌, Result};

use cond_formula::NoMemory;
use conditional::{Function, Judgement, Operator, Plain};
use std::alloc::Global;

#[derive(Clone, Copy, Debug)]
pub struct Number(pub u32);

impl Plain for Number {
    ghost Form = { ℕ };

    ghost form = { λ n. n.0 };

    fn is_same(&self, other: &Number) -> bool {
        self.0 == other.0
    }

    fn try_clone(&self, _alloc: Global) -> Result<Number, NoMemory> {
        Ok(*self)
    }
}

/// Half of a number, rounded down.
#[derive(Clone, Copy)]
pub struct Half;

impl Function<Number, Number> for Half {
    ghost answers = { λ _ a b. b.0 ≡ a.0 / 2 };

    fn apply(&self, _alloc: Global, a: &Number) -> Result<Number, NoMemory> {
        Ok(Number(a.0 / 2))
    }
}

/// Half of an even number; an odd one is refused.
#[derive(Clone, Copy)]
pub struct Halving;

impl Judgement<Number, Number, Number> for Halving {
    ghost answers = { λ _ a r. Unit {0} };

    fn judge(&self, _alloc: Global, a: &Number) -> Result<Result<Number, Number>, NoMemory> {
        if a.0 % 2 == 0 {
            Ok(Ok(Number(a.0 / 2)))
        } else {
            Ok(Err(*a))
        }
    }
}

/// The quotient of two numbers; a zero divisor is refused, with the dividend.
#[derive(Clone, Copy)]
pub struct Dividing;

impl Operator<Number, Number, Number, Number> for Dividing {
    ghost answers = { λ _ a b r. Unit {0} };

    fn apply(
        &self,
        _alloc: Global,
        a: &Number,
        b: &Number,
    ) -> Result<Result<Number, Number>, NoMemory> {
        if b.0 == 0 {
            Ok(Err(*a))
        } else {
            Ok(Ok(Number(a.0 / b.0)))
        }
    }
}
