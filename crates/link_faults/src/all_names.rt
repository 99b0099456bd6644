//! The names that units declare, define or use.
ghost use Rattle.std.specs.Prelude.{◌≡◌, ℕ, ◌||◌, List, [], OnOk, IfOk, map};
ghost use Rattle.std.specs.List.{list_any, IsDistinct};
ghost use Rattle.std.specs.Str.{bytes_eq};
ghost use Rattle.link_faults.specs.Mentioned.{with_name, is_declared, is_defined, is_used, is_mentioned};

use crate::LeftUnit;
use cond_bindings::FileUse;
use cond_formula::NoMemory;
use conditional::Guarded;
use indexmap::IndexSet;
use std::alloc::Global;
use std::marker::Model;
use type_tables::{CondName, Definition};

/// Names, each once, in the order in which they were noted.
#[derive(Drop)]
pub struct Names {
    alloc: Global,
    names: IndexSet<Vec<u8>>,
}

impl Model for Names {
    ghost use Rattle.std.specs.Prelude.{List, ℕ, map};

    ghost Value = { List (List ℕ) };

    ghost view = { λ s. map (λ v. v.items) s.names.keys };
}

impl Names {
    fn new(alloc: Global) -> Self
        ensures { result ≡ [] }
    {
        Self {
            alloc,
            names: IndexSet::new(alloc),
        }
    }

    pub fn as_slice(&self) -> &[Vec<u8>]
        ensures names { map (λ v. v.items) result.now ≡ self.now }
        ensures once { IsDistinct (λ a b. bytes_eq a.items b.items) result.now }
    {
        self.names.as_slice()
    }

    fn contains(&self, name: &[u8]) -> bool
        ensures { result ≡ list_any (bytes_eq name.now) self.now }
    {
        self.names.contains(name)
    }

    fn note(&mut self, name: &[u8]) -> Result<(), NoMemory>
        ensures { OnOk result (self.new ≡ with_name self.old name.now) }
    {
        if !self.contains(name) {
            self.names.insert(Vec::from_slice(self.alloc, name)?)?;
        }
        Ok(())
    }

    fn note_declared(&mut self, names: &[CondName]) -> Result<(), NoMemory>
        ensures { OnOk result ((name : List ℕ) → list_any (bytes_eq name) self.new ≡ (list_any (bytes_eq name) self.old || is_declared name names.now)) }
    {
        for n in names {
            self.note(&n.name)?;
        }
        Ok(())
    }

    fn note_defined(&mut self, entries: &[Guarded<Definition>]) -> Result<(), NoMemory>
        ensures { OnOk result ((name : List ℕ) → list_any (bytes_eq name) self.new ≡ (list_any (bytes_eq name) self.old || is_defined name entries.now)) }
    {
        for entry in entries {
            self.note(&entry.what.name)?;
        }
        Ok(())
    }

    fn note_used(&mut self, uses: &[FileUse]) -> Result<(), NoMemory>
        ensures { OnOk result ((name : List ℕ) → list_any (bytes_eq name) self.new ≡ (list_any (bytes_eq name) self.old || is_used name uses.now)) }
    {
        for found in uses {
            self.note(&found.name)?;
        }
        Ok(())
    }

    fn note_unit(&mut self, left: &LeftUnit) -> Result<(), NoMemory>
        ensures { OnOk result ((name : List ℕ) → list_any (bytes_eq name) self.new ≡ (list_any (bytes_eq name) self.old || is_mentioned name left.now)) }
    {
        self.note_declared(&left.names.declared)?;
        self.note_defined(&left.defined.entries)?;
        self.note_used(&left.uses)?;
        Ok(())
    }
}

/// The names that some unit declares, defines or uses somewhere.
pub fn names_once(alloc: Global, units: &[LeftUnit]) -> Result<Names, NoMemory>
    ensures { IfOk result (λ names. (name : List ℕ) → list_any (bytes_eq name) names ≡ list_any (is_mentioned name) units.now) }
{
    let mut names = Names::new(alloc);
    for left in units {
        names.note_unit(left)?;
    }
    Ok(names)
}
