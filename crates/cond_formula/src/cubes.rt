//! Partial assignments of features.

ghost use Rattle.std.specs.Prelude.{◌≡◌, ◌↔◌, IsTrue, bit_and};

use crate::configuration::Config;

/// A partial assignment of features: bit number i of `mask` is 1 where feature number i is assigned, and that bit of
/// `value` is 1 where the feature is assigned and on.
#[derive(Clone, Copy)]
pub struct Cube {
    pub mask: u128,
    pub value: u128,
    pub ghost inside: { bit_and value mask ≡ value },
}

impl Cube {
    ghost use Rattle.std.specs.Prelude.{◌↔◌, IsTrue};
    ghost use Rattle.cond_formula.specs.Cubes.{Agrees, Clash};

    /// Whether the configuration agrees with the cube on each feature that the cube assigns.
    pub fn holds(&self, c: Config) -> bool
        ensures { IsTrue result ↔ Agrees self.now.mask self.now.value c }
    {
        c.bits & self.mask == self.value
    }

    /// Whether the cubes differ on a feature that both assign, so that no configuration agrees with both.
    pub fn clashes(&self, other: &Cube) -> bool
        ensures { IsTrue result ↔ Clash self.now.mask self.now.value other.now.mask other.now.value }
    {
        (self.value ^ other.value) & self.mask & other.mask != 0
    }
}
