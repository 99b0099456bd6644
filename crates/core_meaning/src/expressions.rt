//! Expressions and places of core programs (6.5).

use crate::integers::IntegerType;
use c_types::{BinaryOp, CType};

/// What is evaluated to a value. Parts are evaluated from left to right.
#[derive(Drop)]
#[cycle(expressions)]
pub enum Expression {
    Number(i128),
    Null,
    /// The value of what stands at a place, a scalar or a struct (6.3.2.1).
    Read(Box<Place>),
    /// `&`, a pointer to the place (6.5.3.2).
    Address(Box<Place>),
    /// A pointer to the first element of the array at the place (6.3.2.1).
    FirstElement(Box<Place>),
    /// A number converted to an integer type (6.3.1.3).
    Convert(IntegerType, Box<Expression>),
    Binary(Operation, Box<Expression>, Box<Expression>),
    /// `!` (6.5.3.3)
    Not(Box<Expression>),
    /// `&&` (6.5.13)
    And(Box<Expression>, Box<Expression>),
    /// `||` (6.5.14)
    Or(Box<Expression>, Box<Expression>),
    /// `?:` (6.5.15)
    Choose(Box<Expression>, Box<Expression>, Box<Expression>),
    /// `=`; its right value has the type of its left place (6.5.16.1).
    Assign(Box<Place>, Box<Expression>),
    /// A compound assignment, which gives the new value, so also `++` and `--` before their operand (6.5.16.2, 6.5.3.1).
    Update(Change, Box<Place>, Box<Expression>),
    /// A compound assignment that gives the old value: `++` and `--` behind their operand (6.5.2.4).
    UpdateAfter(Change, Box<Place>, Box<Expression>),
    /// A call of the function with this number (6.5.2.2).
    Call(u32, Vec<Expression>),
    /// A cast to `void` (6.3.2.2).
    Discard(Box<Expression>),
}

/// What leads to an object or a part of one.
#[derive(Drop)]
#[cycle(expressions)]
pub enum Place {
    /// A parameter or local of the function.
    Slot(u32),
    Global(u32),
    /// The array of a text.
    Literal(u32),
    /// `*`, what a pointer points to (6.5.3.2). An element of an array is what a moved pointer points to.
    Target(Box<Expression>),
    /// The member with this number of the struct at a place (6.5.2.3).
    Member(Box<Place>, u32),
    /// An object of this type that takes a struct's value and ends with the full expression (6.2.4).
    Temporary(CType, Box<Expression>),
}

/// An operation on two values.
#[derive(Clone, Copy)]
pub enum Operation {
    /// On two numbers, which are converted to the integer type first; of a shift only the left one is.
    Numbers(BinaryOp, IntegerType),
    /// A pointer plus a number (6.5.6).
    Forward,
    /// A number plus a pointer.
    ForwardBy,
    /// A pointer minus a number.
    Back,
    /// A pointer minus a pointer.
    Distance,
    /// A comparison of two pointers (6.5.8, 6.5.9).
    Pointers(BinaryOp),
}

/// What a compound assignment does with the old value and its right operand.
#[derive(Clone, Copy)]
pub enum Change {
    /// The operation on numbers in the first type; its result is converted to the second, the type of the place.
    Numbers(BinaryOp, IntegerType, IntegerType),
    /// Moves a pointer forward.
    Forward,
    /// Moves a pointer back.
    Back,
}
