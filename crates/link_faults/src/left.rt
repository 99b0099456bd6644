//! What units leave for linking.
use cond_bindings::FileUse;
use cond_formula::Formula;
use conditional::CondList;
use std::collections::HashMap;
use type_tables::{CondName, Definition};

/// What a unit declares names of file scope as.
#[derive(Drop)]
pub struct LeftNames {
    /// The places of the names among those that the unit declares somewhere.
    pub places: HashMap<Vec<u8>, u32>,
    pub declared: Vec<CondName>,
}

/// What a unit leaves for linking, where it is present.
#[derive(Drop)]
pub struct LeftUnit {
    pub when: Formula,
    pub names: LeftNames,
    pub defined: CondList<Definition>,
    pub uses: Vec<FileUse>,
}
