//! The names that a parser has seen tested.
ghost use Rattle.std.specs.Prelude.{◌≡◌, [], OnOk, OnErr, map};
ghost use Rattle.std.specs.List.{list_any};
ghost use Rattle.std.specs.Str.{bytes_eq};
ghost use Rattle.quick_parser.specs.Steps.{with_test, has_room};

use indexmap::IndexSet;
use std::alloc::{AllocError, Global};
use std::marker::Model;

/// The most names that a file may test.
const MOST_TESTS: usize = 128;

/// The tested names, seen as their list: each once, in the order of their first tests.
#[derive(Drop)]
pub struct TestedNames {
    alloc: Global,
    names: IndexSet<Vec<u8>>,
}

impl Model for TestedNames {
    ghost use Rattle.std.specs.Prelude.{List, ℕ, map};

    ghost Value = { List (List ℕ) };

    ghost view = { λ s. map (λ v. v.items) s.names.keys };
}

impl TestedNames {
    pub fn new(alloc: Global) -> Self
        ensures { result ≡ [] }
    {
        Self {
            alloc,
            names: IndexSet::new(alloc),
        }
    }

    pub fn names(&self) -> &[Vec<u8>]
        ensures { map (λ v. v.items) result.now ≡ self.now }
    {
        self.names.as_slice()
    }

    pub fn contains(&self, name: &[u8]) -> bool
        ensures { result ≡ list_any (bytes_eq name.now) self.now }
    {
        self.names.contains(name)
    }

    /// Whether the name is there, or may be added.
    pub fn has_room(&self, name: &[u8]) -> bool
        ensures { result ≡ has_room self.now name.now }
    {
        self.contains(name) || self.names.len() < MOST_TESTS
    }

    /// Notes a tested name.
    pub fn note(&mut self, name: &[u8]) -> Result<(), AllocError>
        ensures ok { OnOk result (self.new ≡ with_test self.old name.now) }
        ensures err { OnErr result (self.new ≡ self.old) }
    {
        if !self.contains(name) {
            self.names.insert(Vec::from_slice(self.alloc, name)?)?;
        }
        Ok(())
    }
}
