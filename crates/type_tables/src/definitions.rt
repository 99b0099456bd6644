//! What a unit defines.
ghost use Rattle.type_tables.specs.Definitions.{PlainDefinition, definition_form};

use cond_formula::NoMemory;
use conditional::Plain;
use std::alloc::Global;

/// A definition of a name of file scope (6.9).
#[derive(Drop)]
pub struct Definition {
    pub name: Vec<u8>,
    /// It is a tentative definition of an object (6.9.2).
    pub tentative: bool,
}

impl Plain for Definition {
    ghost Form = { PlainDefinition };

    ghost form = { definition_form };

    fn is_same(&self, other: &Definition) -> bool {
        self.tentative == other.tentative && self.name == other.name
    }

    fn try_clone(&self, alloc: Global) -> Result<Definition, NoMemory> {
        let name = Vec::from_slice(alloc, &self.name)?;
        Ok(Definition {
            name,
            tentative: self.tentative,
        })
    }
}
