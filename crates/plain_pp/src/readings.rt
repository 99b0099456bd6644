//! The macros and the tokens of a unit, as far as it is read.
ghost use Rattle.std.specs.Prelude.{◌≡◌, ◌++◌, [], map, OnOk, Some, None};
ghost use Rattle.c_text.specs.Token.{plain_token};
ghost use Rattle.c_text.specs.Preprocessing as spec;
ghost use Rattle.plain_macros.specs.PlainMeanings.{plain_meaning};
ghost use Rattle.plain_macros.specs.PlainTables.{table_of};
ghost use Rattle.plain_pp.specs.Readings.{plain_reading};

use c_text::Token;
use cond_formula::NoMemory;
use plain_macros::{Meaning, Table};
use std::alloc::Global;

/// The macros that are defined, and the tokens so far. After an error it may be anything.
#[derive(Drop)]
pub struct Reading {
    pub table: Table,
    pub tokens: Vec<Token>,
}

impl Reading {
    /// Nothing is read yet.
    pub fn new(alloc: Global) -> Self
        ensures { plain_reading result ≡ record { table = λ name. None; tokens = [] } }
    {
        Self {
            table: Table::new(alloc),
            tokens: Vec::new(alloc),
        }
    }

    /// Lets a name stand for this.
    pub fn define(&mut self, name: Vec<u8>, meaning: Meaning) -> Result<(), NoMemory>
        ensures { OnOk result (plain_reading self.new ≡ record (plain_reading self.old) { table = spec.put (table_of self.old.table) name.items (Some (plain_meaning meaning)) }) }
    {
        self.table.define(name, meaning)?;
        Ok(())
    }

    /// Lets a name stand for nothing but itself.
    pub fn undefine(&mut self, name: &[u8])
        ensures { plain_reading self.new ≡ record (plain_reading self.old) { table = spec.put (table_of self.old.table) name.now None } }
    {
        self.table.undefine(name);
    }

    /// Goes on with these tokens.
    pub fn append(&mut self, mut tokens: Vec<Token>) -> Result<(), NoMemory>
        ensures { OnOk result (plain_reading self.new ≡ record (plain_reading self.old) { tokens = map plain_token self.old.tokens.items ++ map plain_token tokens.items }) }
    {
        self.tokens.append(&mut tokens)?;
        Ok(())
    }
}
