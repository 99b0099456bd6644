//! The occurrences of a unit, and where one passes a test.

ghost use Rattle.std.specs.Prelude.{◌≡◌, ℕ, Bool, IfOk};
ghost use Rattle.cond_formula.specs.Conditions.{condition_of, value};
ghost use Rattle.c_text.specs.Token.{plain_token};
ghost use Rattle.cond_pairings.specs.Pairs.{pairs_seen};
ghost use Rattle.class_occurrences.specs.Occurring.{Occurring, occurring, passes, some_passes};

use c_text::Token;
use cond_formula::{Formula, NoMemory};
use cond_pairings::CondPairing;
use cond_tokens::CondToken;
use conditional_steps::never;
use reduced_conditions::either;
use std::alloc::Global;

/// The identifiers of a unit in pairs with what declares them, and the unit's stream, by whose numbers they are told.
#[derive(Clone, Copy)]
pub struct UnitPairs<'a> {
    pub tokens: &'a [CondToken],
    pub pairs: &'a [CondPairing],
}

/// A test of an occurrence.
pub(crate) trait OccurrenceTest {
    ghost passes: { Self → Occurring → Bool };

    /// Whether an identifier with this declaration passes.
    fn passes(&self, identifier: &Token, declared_by: &Token) -> bool
        ensures { result ≡ passes self.now (record { identifier = plain_token identifier.now; declared_by = plain_token declared_by.now }) };
}

/// Whether a pair passes, if the stream has its tokens.
fn pair_passes<T: OccurrenceTest>(tokens: &[CondToken], pair: &CondPairing, test: &T) -> bool
    ensures { result ≡ passes (T.passes test.now) (occurring tokens.now (record { identifier = pair.now.identifier; declared_by = pair.now.declared_by })) }
{
    match (
        tokens.get(pair.identifier as usize),
        tokens.get(pair.declared_by as usize),
    ) {
        (Some(identifier), Some(declared_by)) => {
            test.passes(&identifier.token, &declared_by.token)
        }
        _ => false,
    }
}

/// Where an occurrence of the unit passes.
pub(crate) fn where_passed<T: OccurrenceTest>(
    alloc: Global,
    unit: &UnitPairs<'_>,
    test: &T,
) -> Result<Formula, NoMemory>
    ensures { IfOk result (λ f. (on : ℕ → Bool) → value on (condition_of f) ≡ some_passes (T.passes test.now) unit.now.tokens.now (pairs_seen on unit.now.pairs.now)) }
{
    let mut passed = never()?;
    for pair in unit.pairs {
        if pair_passes(unit.tokens, pair, test) {
            let when = pair.when.try_clone(alloc)?;
            passed = either(alloc, passed, when)?;
        }
    }
    Ok(passed)
}
