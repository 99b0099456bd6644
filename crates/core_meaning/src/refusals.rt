//! Why a program isn't accepted, once it parses.

/// Why a unit doesn't type (6.5 to 6.9), in the order in which refusals at one token are named.
#[derive(Clone, Copy, Debug, PartialEq, Eq)]
pub enum TypeKind {
    /// A name or a tag that isn't declared where it is used (6.5.1).
    Undeclared = 1,
    /// A name, a member or a tag that is declared again where it may not be (6.7).
    Redeclared = 2,
    /// An operand or a value of a type that doesn't fit.
    BadOperand = 3,
    /// What is to be assigned is no object that may be (6.5.16).
    NotAssignable = 4,
    /// A type that must be complete isn't (6.2.5).
    Incomplete = 5,
    /// A call with a wrong number of arguments (6.5.2.2).
    ArgumentCount = 6,
    /// A member that the struct doesn't have (6.5.2.3).
    NoMember = 7,
    /// A size or an initialiser that isn't constant, or is out of its limits (6.6, 6.7.6.2, 6.7.9).
    BadConstant = 8,
    /// A jump outside a loop, a `return` that doesn't fit, a function that isn't called.
    Misplaced = 9,
}

/// Why the units don't link (6.9), in the order in which refusals are named.
#[derive(Clone, Copy, Debug, PartialEq, Eq)]
pub enum LinkKind {
    /// No `int main(void)` with external linkage is defined.
    NoMain = 1,
    /// A used name isn't defined and isn't built in.
    Undefined = 2,
    /// A name is defined twice.
    Duplicate = 3,
    /// Declarations of one external name aren't compatible.
    Incompatible = 4,
}
