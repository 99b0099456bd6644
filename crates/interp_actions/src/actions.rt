//! What is still to be done in a run, and what is at hand for it.

ghost use Rattle.std.specs.Prelude.{◌≡◌, length, vec_len};

use c_types::CType;
use core_cells::{Pointer, Scalar, Value};
use core_meaning::{Change, Expression, IntegerType, Item, Operation, Part, Place, Statement};

/// A loop, and the bound that is left behind it.
#[derive(Clone, Copy)]
pub struct Turns<'a> {
    pub condition: &'a Expression,
    pub step: &'a Expression,
    pub body: &'a Statement,
    pub bound_behind: u32,
}

/// An object that gets first values: its number, its type, and all parts of its initialiser (6.7.9).
#[derive(Clone, Copy)]
pub struct Initialiser<'a> {
    pub object: usize,
    pub ty: &'a CType,
    pub parts: &'a [Part],
}

/// The next thing to do. It takes what it needs from the operands, the last one first, and leaves its result there.
#[derive(Drop)]
pub enum Action<'a> {
    /// Evaluates an expression to a value.
    Expression(&'a Expression),
    /// Finds a place.
    Place(&'a Place),
    // ---- on the value of an expression
    /// The value is used.
    Used,
    /// The value is used as a scalar.
    Scalar,
    /// The value is a condition.
    Test,
    /// The value is a pointer to a place.
    Target,
    /// The scalar is converted to an integer type.
    Convert(IntegerType),
    /// The operation is done on the two scalars.
    Operate(Operation),
    /// The condition becomes the number 1 where it doesn't hold, else 0.
    Not,
    /// The condition becomes the number 1 where it holds, else 0.
    TruthValue,
    /// The value isn't kept.
    Nothing,
    // ---- on a condition
    /// What `&&` does behind its left operand; this is the right one.
    And(&'a Expression),
    /// What `||` does behind its left operand; this is the right one.
    Or(&'a Expression),
    /// What `?:` does behind its condition.
    Choose(&'a Expression, &'a Expression),
    // ---- on a place
    /// The value of what stands there.
    Read,
    /// A pointer to the place.
    Address,
    /// A pointer to the first element of the array that stands there.
    FirstElement,
    /// The member with this number of the struct that stands there.
    Member(u32),
    /// A temporary object of this type takes the value.
    Temporary(&'a CType),
    // ---- on a place and a value
    /// The value is written there.
    Write,
    /// What stands there is changed; the value is the new one.
    Update(Change),
    /// The same, but the value is the old one.
    UpdateAfter(Change),
    // ---- calls
    /// A call without arguments.
    Call(u32),
    /// The value is an argument of this function; these are left, and the values of those before it.
    Argument(u32, &'a [Expression], Vec<Value<'a>>),
    /// A body begins, with the slot of the next parameter; these are the arguments that are left, the next one last.
    Enter(usize, Vec<Value<'a>>, &'a [Item]),
    /// Back to the caller.
    Return(Frame<'a>),
    // ---- full expressions
    /// The end of a full expression, with the temporary objects of the one around it.
    EndFull(Vec<usize>),
    // ---- statements
    /// Does a statement.
    Statement(&'a Statement),
    /// Does the items of a block that are left.
    Items(&'a [Item]),
    /// The items behind a statement.
    RestOfItems(&'a [Item]),
    /// The value isn't kept, and the statement falls through.
    Falls,
    /// Does one of the two statements, by the condition.
    If(&'a Statement, &'a Statement),
    /// The value is returned.
    ReturnValue,
    /// A turn of the loop, if its condition holds.
    Turn(Turns<'a>),
    /// What follows the body of a turn.
    AfterTurn(Turns<'a>),
    /// The value isn't kept, and the loop asks its condition.
    Asks(Turns<'a>),
    /// The value goes to a part of an initialiser, and these parts are left; then the scalars that no part gives get zeros.
    WritePart(Initialiser<'a>, &'a Part, &'a [Part]),
    /// The object in a slot ends, and the slot has what it had before.
    EndScope(usize, usize, Option<usize>),
}

/// What is at hand: a value, a scalar, a place, whether a condition holds, or how a statement ended.
#[derive(Drop)]
pub enum Operand<'a> {
    Value(Value<'a>),
    Scalar(Scalar),
    Place(Pointer),
    Truth(bool),
    Ending(Ending<'a>),
}

/// How a statement ends: it falls through, leaves or continues a loop, or returns, with a value or with nothing (6.8).
#[derive(Drop)]
pub enum Ending<'a> {
    Falls,
    Breaks,
    Continues,
    Returns(Value<'a>),
}

/// A function under way: the types of its slots, the objects in those that are declared, and the bound that is left.
#[derive(Drop)]
pub struct Frame<'a> {
    pub types: &'a [CType],
    pub slots: Vec<Option<usize>>,
    pub bound: u32,
    pub ghost each_typed: { vec_len slots ≡ length types.now },
}

/// Whether a run goes on, and what ends it.
#[derive(Clone, Copy)]
pub enum Flow {
    /// It goes on.
    Goes,
    /// The program ended with this status.
    Exits(i32),
    /// The bound was met.
    Stops,
    /// The behaviour is undefined.
    Fails,
}
