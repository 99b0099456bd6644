//! What a name is by the nodes around it (ISO/IEC 9899:2011, 6.2.1 to 6.2.3).

ghost use Rattle.std.specs.Prelude.{◌≡◌};
ghost use Rattle.c_text.specs.Token.{plain_token};
ghost use Rattle.scope_readings.specs.Walks as walks;
ghost use Rattle.cond_bindings.specs.Scopes.{plain_scope};
ghost use Rattle.cond_scopes.specs.Roles.{plain_role};

use c_text::Token;
use c_tree::{Kind, Terminal, terminal};
use cond_bindings::Scope;

/// What a name is.
#[derive(Clone, Copy, Debug, PartialEq, Eq)]
pub(crate) enum Role {
    /// An ordinary name that is used.
    Use,
    /// A member that is used.
    Member,
    Tag,
    /// The name of a declarator.
    Declared,
}

/// Whether the names behind a token in a node of a kind are other things than those before it.
pub(crate) fn turns(kind: Kind, token: &Token) -> bool
    ensures { result ≡ walks.turns kind (plain_token token.now) }
{
    match kind {
        Kind::Selection => terminal(token).is(Terminal::Select),
        Kind::ArrayDeclarator => terminal(token).is(Terminal::OpenBracket),
        _ => false,
    }
}

/// What a name is in a node of a kind, before or behind such a token.
pub(crate) fn role_in(kind: Kind, turned: bool) -> Role
    ensures { plain_role result ≡ walks.role kind turned }
{
    match kind {
        Kind::Specifiers => Role::Tag,
        Kind::Declarator | Kind::FunctionDeclarator => Role::Declared,
        Kind::ArrayDeclarator if !turned => Role::Declared,
        Kind::Selection if turned => Role::Member,
        _ => Role::Use,
    }
}

/// The declaration in which the parts of a node stand.
pub(crate) fn declaration_in(around: Kind, kind: Kind) -> Kind
    ensures { result ≡ walks.declaration_in around kind }
{
    match kind {
        Kind::Declaration
        | Kind::Function
        | Kind::StructDefinition
        | Kind::StructDeclaration
        | Kind::Member
        | Kind::LocalDeclaration
        | Kind::Parameter => kind,
        _ => around,
    }
}

/// Where the declarators of a declaration stand.
pub(crate) fn scope_of(declaration: Kind) -> Scope
    ensures { plain_scope result ≡ walks.scope_of declaration }
{
    match declaration {
        Kind::Declaration | Kind::Function => Scope::File,
        Kind::Member => Scope::Members,
        _ => Scope::Block,
    }
}

/// Whether an undeclared tag in a declaration declares a struct.
pub(crate) fn may_declare(declaration: Kind) -> bool
    ensures { result ≡ walks.may_declare declaration }
{
    match declaration {
        Kind::Declaration | Kind::StructDefinition | Kind::StructDeclaration | Kind::Member => true,
        _ => false,
    }
}

/// Whether a scope ends with a node in a declaration.
pub(crate) fn ends_scope(declaration: Kind, kind: Kind) -> bool
    ensures { result ≡ walks.ends_scope declaration kind }
{
    match kind {
        Kind::Block | Kind::For | Kind::Function => true,
        Kind::FunctionDeclarator => match declaration {
            Kind::Function => false,
            _ => true,
        },
        _ => false,
    }
}
