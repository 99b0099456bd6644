//! What a search answers.

/// A step of a refutation: its clause follows from the clauses and steps before it, as the hints show.
#[derive(Debug, Drop)]
pub struct Step {
    /// The literals, n being variable number n, and -n its negation.
    pub clause: Vec<i32>,
    /// The numbers of clauses and steps, which are counted together from 1.
    pub hints: Vec<u32>,
}

/// The answer of a search.
#[derive(Debug, Drop)]
pub enum Found {
    /// The values of the variables, in the order of their numbers: the first is that of variable 1.
    Least(Vec<bool>),
    /// The steps of a refutation, of which the last has no literals.
    Refuted(Vec<Step>),
}
