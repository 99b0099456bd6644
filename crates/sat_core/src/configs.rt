//! Configurations made of truth values.

ghost use Rattle.std.specs.Prelude.{◌≡◌, ◌≢◌, ℕ, ◌<◌, ◌≤◌, true, false, length, slice_index_or};
ghost use Rattle.std.specs.Int.{bit_at};
ghost use Rattle.cond_formula.specs.Features.{has};

use cond_formula::Config;

/// The configuration in which each of the features is on where its value, in their order, says so, and no other is.
pub fn config_of(values: &[bool], features: u8) -> Config
    requires few { features ≤ 128 }
    requires within { features ≤ length values.now }
    ensures on { (feature : ℕ) → feature < features → has result feature ≡ slice_index_or values.now feature false }
    ensures off { (feature : ℕ) → features ≤ feature → has result feature ≡ false }
{
    let mut bits = 0;
    for feature in 0..features {
        bits = with_feature(bits, feature, values[feature as usize]);
    }
    Config { bits }
}

// The bits with that of the feature set, if it is on.
fn with_feature(bits: u128, feature: u8, on: bool) -> u128
    requires { feature < 128 }
    ensures on { on ≡ true → bit_at result feature ≡ 1 }
    ensures others { on ≡ true → (other : ℕ) → other ≢ feature → bit_at result other ≡ bit_at bits other }
    ensures off { on ≡ false → result ≡ bits }
{
    if on { bits | (1 << feature) } else { bits }
}
