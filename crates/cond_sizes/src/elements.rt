//! Numbers of elements.
ghost use Rattle.std.specs.Prelude.{ℕ};
ghost use Rattle.cond_sizes.specs.Sizes.{plain_count};

use cond_formula::NoMemory;
use conditional::Plain;
use std::alloc::Global;

/// How many elements an array has.
#[derive(Clone, Copy, Debug)]
pub struct Count {
    pub elements: u32,
}

impl Plain for Count {
    ghost Form = { ℕ };

    ghost form = { plain_count };

    fn is_same(&self, other: &Count) -> bool {
        self.elements == other.elements
    }

    fn try_clone(&self, _alloc: Global) -> Result<Count, NoMemory> {
        Ok(*self)
    }
}
