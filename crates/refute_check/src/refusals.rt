//! Why a checker refuses a call.

/// What is wrong with a call.
#[derive(Clone, Copy, Debug, PartialEq, Eq)]
pub enum CheckKind {
    /// A hint isn't the number of an earlier clause, its clause isn't false or unit, or it follows a false clause.
    BadHint,
    /// The hints end without a false clause.
    NotFalse,
    /// No well-checked step is without literals.
    NoEmptyClause,
    /// The clause has a literal that isn't one of the variables or its negation, or has a variable twice.
    Syntax,
}

/// A refusal, with the number of the first call that is refused; the calls of `add`, `line` and `finish` are counted
/// together from 1.
#[derive(Clone, Copy, Debug, PartialEq, Eq)]
pub struct CheckError {
    pub kind: CheckKind,
    pub line: u64,
}
