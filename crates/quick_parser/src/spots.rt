//! Where a parser stands in the grammar, and how it moves on.

/// What comes behind a sum.
#[derive(Clone, Copy, Debug, PartialEq, Eq)]
pub enum SumEnd {
    /// `;`, in an assignment or a `return` statement
    Statement,
    /// `)` and `;`, in a call of `putchar`
    Output,
    /// `)` and `{`, in a `while` statement
    Condition,
}

/// What a parser waits for.
#[derive(Clone, Copy, Debug, PartialEq, Eq)]
pub enum Place {
    /// a further entry of a list of items or statements, or the list's end
    Entry,
    /// behind `int`: the declared name
    Declarator,
    /// behind the declared name: `;` or `=`
    Declared,
    /// behind the `=` of a declaration: its number
    Initializer,
    /// the `;` that ends a declaration or a call
    Semicolon,
    /// behind `main`: `(`
    MainOpening,
    /// behind `main(`: `void`
    MainVoid,
    /// behind `main(void`: `)`
    MainClosing,
    /// the `{` that opens a block
    Body,
    /// behind the name that a statement assigns to: `=`
    Assignment,
    /// behind `putchar` or `while`: the `(` before a sum
    Opening(SumEnd),
    /// an operand of a sum
    Operand(SumEnd),
    /// behind an operand: an operator, or the sum's end
    Operator(SumEnd),
}

/// What stays open until its end is read.
#[derive(Clone, Copy, Debug, PartialEq, Eq)]
pub enum Frame {
    /// the braces of `main` or of a loop
    Block,
    /// a conditional group without `#else` so far
    Group,
    /// a conditional group behind its `#else`
    Alternative,
}

/// What a symbol does to a parser.
#[derive(Clone, Copy, Debug, PartialEq, Eq)]
pub enum Move {
    /// waits for something else
    To(Place),
    /// opens a frame, and with it a list
    Enter(Frame),
    /// begins the other branch of a group
    Turn,
    /// ends the innermost frame
    Leave,
}
