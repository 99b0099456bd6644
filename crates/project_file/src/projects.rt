//! Projects.
use cond_formula::Formula;
use feature_model::Model;

/// A unit of a project: a file of C, present in some configurations.
#[derive(Drop)]
pub struct Unit {
    pub file: String,
    /// The condition under which the unit is present.
    pub when: Formula,
}

/// What a project file says.
#[derive(Drop)]
pub struct Project {
    /// The name of the project file.
    pub name: String,
    /// The features, which are numbered from 0 in this order.
    pub features: Vec<String>,
    pub model: Model,
    pub headers: Vec<String>,
    pub units: Vec<Unit>,
}
