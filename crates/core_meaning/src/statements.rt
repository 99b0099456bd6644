//! Statements of core programs (6.8).

use crate::expressions::Expression;

#[derive(Drop)]
#[cycle(statements)]
pub enum Statement {
    /// A block; without items the null statement (6.8.2, 6.8.3).
    Block(Vec<Item>),
    /// An expression whose value isn't used (6.8.3).
    Expression(Expression),
    /// A selection; without `else` its second statement is the null statement (6.8.4.1).
    If(Expression, Box<Statement>, Box<Statement>),
    /// A loop (6.8.5). A condition that isn't there is the number 1; a step that isn't there is any number.
    Loop {
        /// Whether it asks its condition before its first turn, as all but `do` loops do.
        asks_first: bool,
        condition: Expression,
        /// What is evaluated behind each turn: the last part of a `for`.
        step: Expression,
        body: Box<Statement>,
    },
    Break,
    Continue,
    /// `return` without a value (6.8.6.4).
    Return,
    /// `return` with a value of the function's result type.
    ReturnValue(Expression),
}

/// An item of a block.
#[derive(Drop)]
#[cycle(statements)]
pub enum Item {
    /// The declaration of a slot, whose object lives from here to the end of the block (6.2.4, 6.7.9). Without parts it has no
    /// initialiser and begins unwritten; else the scalars that no part gives begin as zeros.
    Local { slot: u32, parts: Vec<Part> },
    Statement(Statement),
}

/// A part of an initialiser: what is written into the element or member to which the path leads, from the outside in.
#[derive(Drop)]
pub struct Part {
    pub path: Vec<u32>,
    pub value: Expression,
}
