//! Identifiers where they stand.

use cond_formula::Formula;

/// Where a declarator stands (6.2.1).
#[derive(Clone, Copy, Debug, PartialEq, Eq)]
pub enum Scope {
    File,
    Block,
    /// Among the members of a struct, whose names are told by its type.
    Members,
}

/// An identifier where it stands.
#[derive(Clone, Copy)]
pub struct Occurrence<'a> {
    pub name: &'a [u8],
    /// The number of the token in the unit's stream.
    pub number: u32,
    /// The conditions under which it is there.
    pub path: &'a [Formula],
}
