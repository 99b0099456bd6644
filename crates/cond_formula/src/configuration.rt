//! A configuration: the set of features that are on.

ghost use Rattle.std.specs.Prelude.{◌≡◌, ◌<◌};
ghost use Rattle.cond_formula.specs.Features.{has};

use std::marker::Model;

/// A configuration: a set of features, which are numbered from 0 in the project's order.
/// Bit number i of `bits` is 1 where feature number i is on. Contracts see the 128 truth values.
#[derive(Clone, Copy)]
pub struct Config {
    pub bits: u128,
}

impl Model for Config {
    ghost use Rattle.std.specs.Prelude.{List, Bool, ◌<◌, ◌^◌};
    ghost use Rattle.cond_formula.specs.Features.{bits_of, number_of};
    ghost use Rattle.cond_formula.specs.FeatureBits.{number_of-bits_of};

    ghost Value = { List Bool };

    ghost view = { λ c. bits_of 128 c.bits };

    ghost invariant = { λ c. c.bits < 2 ^ 128 };

    ghost inverse = { λ on. record { bits = number_of on } };

    ghost inverse_ok = { λ c h. Prim.rw (number_of-bits_of 128 c.bits h) };
}

impl Config {
    /// Whether the feature with this number is on.
    pub fn has(&self, feature: u8) -> bool
        requires { feature < 128 }
        ensures { result ≡ has self.now feature }
    {
        (self.bits >> feature) & 1 == 1
    }
}
