use c_text::Token;
use cond_formula::Formula;

/// A token that is present in the configurations in which its condition is true.
#[derive(Drop)]
pub struct CondToken {
    pub token: Token,
    pub when: Formula,
}

/// What a unit gives in all configurations: in each that isn't refused, the tokens that are present.
#[derive(Drop)]
pub struct CondStream {
    pub tokens: Vec<CondToken>,
    /// Where the unit is refused. The tokens that are present there mean nothing.
    pub refused: Formula,
}
