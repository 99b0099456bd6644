//! What a unit leaves for linking.
ghost use Rattle.std.specs.Prelude.{◌≡◌};
ghost use Rattle.core_meaning.specs.Linking as spec;
ghost use Rattle.plain_link.specs.PlainUnits.{plain_unit};

use crate::definitions::Definitions;
use plain_scope::{FileName, Used};
use std::collections::HashMap;

/// What a unit leaves for linking.
#[derive(Drop)]
pub struct Left {
    pub names: HashMap<Vec<u8>, FileName>,
    /// The names of file scope in the order of their declarations.
    pub order: Vec<Vec<u8>>,
    pub defined: Definitions,
    /// The names of file scope that expressions use.
    pub used: Used,
}

impl Left {
    pub fn is_internal(&self, name: &[u8]) -> bool
        ensures { result ≡ spec.is_internal (plain_unit 0 self.now) name.now }
    {
        match self.names.get(name) {
            Some(found) => found.internal,
            None => false,
        }
    }

    pub fn defines(&self, name: &[u8]) -> bool
        ensures { result ≡ spec.defines (plain_unit 0 self.now) name.now }
    {
        self.defined.defines(name)
    }

    /// How many definitions a name has: those that are tentative are one together, and none beside another.
    pub fn count(&self, name: &[u8]) -> usize
        ensures { result ≡ spec.count_defined (plain_unit 0 self.now) name.now }
    {
        self.defined.count(name)
    }
}
