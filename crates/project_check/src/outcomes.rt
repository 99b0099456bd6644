//! What becomes of the products of a project.
use cond_formula::Config;
use project_program::Stage;

/// What becomes of the products of a project.
#[derive(Clone, Copy)]
pub enum CheckOutcome {
    /// Each has a program.
    Accepted,
    /// The least configuration that is refused, and the stage that refuses it: of two configurations the lesser is the one in
    /// which the first feature that differs is off.
    Broken(Config, Stage),
}
