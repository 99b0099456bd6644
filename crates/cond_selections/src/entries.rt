//! What is noted of selections.
ghost use Rattle.std.specs.Prelude.{ℕ};
ghost use Rattle.member_uses.specs.Uses.{Use};
ghost use Rattle.cond_selections.specs.Selected.{structure_number, plain_selection};

use c_text::Token;
use cond_formula::NoMemory;
use conditional::Plain;
use std::alloc::Global;

/// A struct, by its number.
#[derive(Clone, Copy, Debug)]
pub struct Structure {
    pub number: u32,
}

impl Plain for Structure {
    ghost Form = { ℕ };

    ghost form = { structure_number };

    fn is_same(&self, other: &Structure) -> bool {
        self.number == other.number
    }

    fn try_clone(&self, _alloc: Global) -> Result<Structure, NoMemory> {
        Ok(*self)
    }
}

/// An identifier that names a member of a struct.
#[derive(Debug, Drop)]
pub struct Selection {
    /// The identifier, as it stands in the tree.
    pub name: Token,
    pub structure: u32,
}

impl Plain for Selection {
    ghost Form = { Use };

    ghost form = { plain_selection };

    fn is_same(&self, other: &Selection) -> bool {
        self.structure == other.structure && Plain::is_same(&self.name, &other.name)
    }

    fn try_clone(&self, alloc: Global) -> Result<Selection, NoMemory> {
        let name = self.name.try_clone(alloc)?;
        Ok(Selection {
            name,
            structure: self.structure,
        })
    }
}
