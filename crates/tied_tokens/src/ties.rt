//! Ties between tokens of files.

use crate::names::DeclaredName;
use c_text::FileToken;
use cond_formula::Formula;
use feature_model::Model;

/// The token of an identifier, and the token that declares it.
#[derive(Drop)]
pub struct Tie {
    pub identifier: FileToken,
    pub declared_by: FileToken,
    /// Where that token declares it.
    pub when: Formula,
}

/// Ties and declared names, in the configurations that a model admits and that are accepted.
#[derive(Clone, Copy)]
pub struct TiedTokens<'a> {
    pub model: &'a Model,
    pub accepted: &'a Formula,
    pub ties: &'a [Tie],
    pub names: &'a [DeclaredName],
}
