//! What is told of the identifiers of a unit.

use cond_formula::Formula;
use cond_pairings::CondPairing;
use tied_tokens::CommonName;

/// An identifier that declares a name which units have in common, where the condition is true.
#[derive(Drop)]
pub struct ToldName {
    /// The number of its token in the unit's stream.
    pub number: u32,
    pub name: CommonName,
    pub when: Formula,
}

/// What is told of a unit in all configurations, by the numbers of tokens in its stream.
#[derive(Drop)]
pub struct ToldUnit {
    /// Its occurrences: identifiers with what declares them.
    pub pairs: Vec<CondPairing>,
    /// The identifiers of which each declares a name in common.
    pub names: Vec<ToldName>,
}
