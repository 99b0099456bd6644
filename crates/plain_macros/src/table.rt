//! The macros that are defined, by their names.
ghost use Rattle.std.specs.Prelude.{◌≡◌, ℕ, List, Option, None, Some, OnOk};
ghost use Rattle.std.specs.Option.{option_map};
ghost use Rattle.c_text.specs.Preprocessing.{put};
ghost use Rattle.plain_macros.specs.PlainMeanings.{plain_meaning};
ghost use Rattle.plain_macros.specs.PlainTables.{table_of};

use crate::meaning::Meaning;
use cond_formula::NoMemory;
use std::alloc::Global;
use std::collections::HashMap;

/// The names that stand for something at a place of a text. After want of memory it may be any
/// table.
#[derive(Drop)]
pub struct Table {
    meanings: HashMap<Vec<u8>, Meaning>,
}

impl Table {
    /// No name stands for anything.
    pub fn new(alloc: Global) -> Table
        ensures { (name : List ℕ) → table_of result name ≡ None }
    {
        Table {
            meanings: HashMap::new(alloc),
        }
    }

    pub fn get(&self, name: &[u8]) -> Option<&Meaning>
        ensures { option_map (λ m. plain_meaning m.now) result ≡ table_of self.now name.now }
    {
        self.meanings.get(name)
    }

    /// Lets a name stand for this, whatever it stood for.
    pub fn define(&mut self, name: Vec<u8>, meaning: Meaning) -> Result<(), NoMemory>
        ensures { OnOk result ((other : List ℕ) → table_of self.new other ≡ put (table_of self.old) name.items (Some (plain_meaning meaning)) other) }
    {
        self.meanings.insert(name, meaning)?;
        Ok(())
    }

    /// Lets a name stand for nothing but itself.
    pub fn undefine(&mut self, name: &[u8])
        ensures { (other : List ℕ) → table_of self.new other ≡ put (table_of self.old) name.now None other }
    {
        self.meanings.remove(name);
    }
}
