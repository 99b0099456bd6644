//! Where identifiers declare themselves.
ghost use Rattle.std.specs.Prelude.{◌≡◌, ℕ, Bool, IfOk};
ghost use Rattle.std.specs.List.{list_any};
ghost use Rattle.cond_formula.specs.Conditions.{condition_of, value};
ghost use Rattle.cond_pairings.specs.Pairs.{pairs_seen};
ghost use Rattle.declared_tokens.specs.Declarations.{declared_at, is_among};
ghost use Rattle.read_occurrences.specs.Read.{is_own_pair};

use cond_formula::{Formula, NoMemory};
use cond_pairings::CondPairing;
use declared_tokens::DeclaredTokens;
use std::alloc::Global;

/// What declares the identifiers of a unit, by the numbers of their tokens: each among those that declare it where it declares itself.
pub(crate) fn own_tokens(alloc: Global, pairs: &[CondPairing]) -> Result<DeclaredTokens, NoMemory>
    ensures { IfOk result (λ all. (on : ℕ → Bool) (number : ℕ) → is_among (declared_at on all number) number ≡ list_any (is_own_pair number) (pairs_seen on pairs.now)) }
{
    let all = DeclaredTokens::from_pairs(alloc, pairs)?;
    Ok(all)
}

/// Where the identifier with this number declares itself.
pub(crate) fn where_own(
    alloc: Global,
    own: &DeclaredTokens,
    number: u32,
) -> Result<Formula, NoMemory>
    ensures { IfOk result (λ f. (on : ℕ → Bool) → value on (condition_of f) ≡ is_among (declared_at on own.now number) number) }
{
    own.where_declared_by(alloc, number, number)
}
