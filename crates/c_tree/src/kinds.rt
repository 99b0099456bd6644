//! The kinds of nodes.

/// What a node of a tree stands for. `docs/GRAMMAR.md` has the parts of each kind.
#[derive(Clone, Copy, Debug, PartialEq, Eq)]
pub enum Kind {
    /// What may be left out and is: a node without parts.
    Absent,
    /// A translation unit (6.9).
    Unit,
    /// The definition of a function (6.9.1).
    Function,
    /// A declaration at file scope (6.7).
    Declaration,
    /// The definition of a struct (6.7.2.1).
    StructDefinition,
    /// `struct NAME ;` (6.7.2.3).
    StructDeclaration,
    /// The members of a struct, one or more declarations.
    Members,
    /// A declaration of members.
    Member,
    /// A declaration in a block or a `for`.
    LocalDeclaration,
    /// The words of a declaration or a type name before its declarators: storage and type.
    Specifiers,
    /// Declarators with their initialisers and commas.
    Declarators,
    /// Stars and a name; of a parameter perhaps without a name.
    Declarator,
    /// A declarator with brackets.
    ArrayDeclarator,
    /// A declarator with parameters.
    FunctionDeclarator,
    /// Parameters with their commas.
    Parameters,
    Parameter,
    /// An initialiser in braces (6.7.9).
    Braces,
    /// Initialisers with their commas.
    Initialisers,
    /// A compound statement (6.8.2).
    Block,
    /// The items of a block, one or more.
    Items,
    /// An expression statement or the lone `;` (6.8.3).
    ExpressionStatement,
    If,
    /// The word `else` and its statement.
    Else,
    While,
    Do,
    For,
    /// The first expression of a `for` and its `;`.
    ForStart,
    /// `break` or `continue`.
    Jump,
    Return,
    Assignment,
    Conditional,
    LogicalOr,
    LogicalAnd,
    Or,
    Xor,
    And,
    Equality,
    Relation,
    Shift,
    Sum,
    Product,
    Cast,
    /// One of `& * + - ~ !` and its operand.
    Prefix,
    /// `++` or `--` and its operand.
    PrefixStep,
    /// An operand and `++` or `--`.
    PostfixStep,
    Index,
    Call,
    /// The arguments of a call with their commas, one or more.
    Arguments,
    /// `.` or `->`.
    Selection,
    Parenthesized,
    /// One or more texts in a row (6.4.5).
    Texts,
}
