//! What the kind of a node tells a reader of statements.
ghost use Rattle.std.specs.Prelude.{◌≡◌};
ghost use Rattle.cond_statements.specs.Roles as spec;
ghost use Rattle.statement_readings.specs.Walks as walks;

use c_tree::Kind;

/// How a node among the parts of a statement is read.
#[derive(Clone, Copy, Debug)]
pub enum Role {
    /// What is left out.
    LeftOut,
    /// A declaration of locals.
    Declaration,
    /// What has a block of its own.
    Scoped,
    /// What is read part by part.
    Parts,
    /// `break` or `continue`.
    Jump,
    Expression,
}

/// How a node of this kind is read.
pub fn role_of(kind: Kind) -> Role
    ensures { result ≡ spec.role_of kind }
{
    match kind {
        Kind::Absent => Role::LeftOut,
        Kind::LocalDeclaration => Role::Declaration,
        Kind::Block | Kind::For => Role::Scoped,
        Kind::Items
        | Kind::ExpressionStatement
        | Kind::If
        | Kind::Else
        | Kind::While
        | Kind::Do
        | Kind::ForStart
        | Kind::Return => Role::Parts,
        Kind::Jump => Role::Jump,
        _ => Role::Expression,
    }
}

/// Whether a node is a loop (6.8.5).
pub(crate) fn is_loop(kind: Kind) -> bool
    ensures { result ≡ walks.is_loop kind }
{
    match kind {
        Kind::While | Kind::Do | Kind::For => true,
        _ => false,
    }
}
