//! What a project file says, as texts.

/// A unit's file, and the text of its condition if it has one.
#[derive(Debug, Drop)]
pub(crate) struct UnitText {
    pub(crate) file: String,
    pub(crate) when: Option<String>,
}

/// The features, constraints, headers and units of a project file.
#[derive(Debug, Drop)]
pub(crate) struct Contents {
    pub(crate) features: Vec<String>,
    pub(crate) constraints: Vec<String>,
    pub(crate) headers: Vec<String>,
    pub(crate) units: Vec<UnitText>,
}
