//! What is answered of a formula.

ghost use Rattle.std.specs.Prelude.{◌<◌};

use clause_search::Step;
use cond_formula::Config;

/// Clauses and a refutation of them. A checker of the crate `refute_check` accepts what `solve` answers.
#[derive(Debug, Drop)]
pub struct Proof {
    /// How many variables there are: they are numbered from 1, and variable i + 1 is feature i.
    pub vars: u32,
    /// The given clauses, which are a translation of the formula.
    pub given: Vec<Vec<i32>>,
    /// The steps of the refutation, one of which has no literals.
    pub steps: Vec<Step>,
    pub ghost small: { vars < 2147483648 },
}

/// What is answered of a formula.
#[derive(Drop)]
pub enum Answer {
    /// The least configuration in which the formula is true: of two configurations the lesser is the one in which the first
    /// feature that differs is off.
    Sat(Config),
    /// There is none, as the proof shows.
    Unsat(Proof),
    /// Want of memory.
    Memory,
}
