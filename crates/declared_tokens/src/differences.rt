//! Where tokens are declared by others than in another unit.

ghost use Rattle.std.specs.Prelude.{◌≡◌, ℕ, Bool, not, ◌&&◌, IfOk};
ghost use Rattle.cond_formula.specs.Conditions.{condition_of, value};
ghost use Rattle.declared_tokens.specs.Declarations.{numbers_at, declared_at, is_among, is_one_missing, differ, TellsOtherwise};

use crate::tokens::{DeclaredBy, DeclaredTokens};
use cond_formula::{Formula, NoMemory};
use conditional_steps::never;
use reduced_conditions::{either, is_implied, without};
use std::alloc::Global;

/// Where the token with this number is among those that declare.
fn where_among(alloc: Global, all: &[DeclaredBy], number: u32) -> Result<Formula, NoMemory>
    ensures { IfOk result (λ f. (on : ℕ → Bool) → value on (condition_of f) ≡ is_among (numbers_at on all.now) number) }
{
    let mut found = never()?;
    for one in all {
        if one.number == number {
            let when = one.when.try_clone(alloc)?;
            found = either(alloc, found, when)?;
        }
    }
    Ok(found)
}

/// Where this one declares and isn't among the others.
fn where_missing(
    alloc: Global,
    one: &DeclaredBy,
    others: &[DeclaredBy],
) -> Result<Formula, NoMemory>
    ensures { IfOk result (λ f. (on : ℕ → Bool) → value on (condition_of f) ≡ (value on (condition_of one.now.when) && not (is_among (numbers_at on others.now) one.now.number))) }
{
    let among = where_among(alloc, others, one.number)?;
    if is_implied(&among, &one.when) {
        return never();
    }
    let when = one.when.try_clone(alloc)?;
    without(alloc, when, &among)
}

/// Where one of the first isn't among the second.
fn where_one_missing(
    alloc: Global,
    some: &[DeclaredBy],
    all: &[DeclaredBy],
) -> Result<Formula, NoMemory>
    ensures { IfOk result (λ f. (on : ℕ → Bool) → value on (condition_of f) ≡ is_one_missing (numbers_at on some.now) (numbers_at on all.now)) }
{
    let mut missing = never()?;
    for one in some {
        let found = where_missing(alloc, one, all)?;
        missing = either(alloc, missing, found)?;
    }
    Ok(missing)
}

/// Where others declare in the one than in the other.
fn where_two_differ(alloc: Global, a: &[DeclaredBy], b: &[DeclaredBy]) -> Result<Formula, NoMemory>
    ensures { IfOk result (λ f. (on : ℕ → Bool) → value on (condition_of f) ≡ differ (numbers_at on a.now) (numbers_at on b.now)) }
{
    let first = where_one_missing(alloc, a, b)?;
    let second = where_one_missing(alloc, b, a)?;
    either(alloc, first, second)
}

impl DeclaredTokens {
    /// Where the token with one number is declared by the token with the other.
    pub fn where_declared_by(&self, alloc: Global, token: u32, by: u32) -> Result<Formula, NoMemory>
        ensures { IfOk result (λ f. (on : ℕ → Bool) → value on (condition_of f) ≡ is_among (declared_at on self.now token) by) }
    {
        where_among(alloc, self.entries(token as usize), by)
    }

    /// Where some token is declared by others than in the other unit.
    pub fn where_otherwise(
        &self,
        alloc: Global,
        other: &DeclaredTokens,
    ) -> Result<Formula, NoMemory>
        ensures { IfOk result (λ f. (on : ℕ → Bool) → TellsOtherwise (value on (condition_of f)) (declared_at on self.now) (declared_at on other.now)) }
    {
        let tokens = self.by_token.len().max(other.by_token.len());
        let mut differs = never()?;
        for token in 0..tokens {
            let found = where_two_differ(alloc, self.entries(token), other.entries(token))?;
            differs = either(alloc, differs, found)?;
        }
        Ok(differs)
    }
}
