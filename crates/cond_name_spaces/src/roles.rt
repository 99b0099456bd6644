//! What a name declares, by the nodes around it (ISO/IEC 9899:2011, 6.2.1 to 6.2.3).
ghost use Rattle.std.specs.Prelude.{◌≡◌, ℕ, List};
ghost use Rattle.c_text.specs.Token.{plain_token};
ghost use Rattle.bindings.specs.Bindings as bindings;
ghost use Rattle.scope_readings.specs.Walks as walks;
ghost use Rattle.name_spaces.specs.Spaces.{space_in, space_by};
ghost use Rattle.cond_name_spaces.specs.Progress.{space_of};

use c_text::Token;
use c_tree::{Kind, Terminal, terminal};

/// What a name may declare that units have in common.
#[derive(Clone, Copy, Debug, PartialEq, Eq)]
pub(crate) enum Declares {
    /// It is used, or declared in a block.
    Nothing,
    /// An object or a function of file scope.
    Ordinary,
    Tag,
    /// A member of the struct that is defined.
    Member,
}

pub(crate) fn is_name(token: &Token) -> bool
    ensures { result ≡ bindings.is_name (plain_token token.now) }
{
    Terminal::Name.is(terminal(token))
}

/// Whether the names behind a token in a node of a kind are other things than those before it.
pub(crate) fn turns(kind: Kind, token: &Token) -> bool
    ensures { result ≡ walks.turns kind (plain_token token.now) }
{
    match kind {
        Kind::Selection => Terminal::Select.is(terminal(token)),
        Kind::ArrayDeclarator => Terminal::OpenBracket.is(terminal(token)),
        _ => false,
    }
}

/// The declaration in which the parts of a node stand.
pub(crate) fn declaration_in(around: Kind, kind: Kind) -> Kind
    ensures { result ≡ walks.declaration_in around kind }
{
    match kind {
        Kind::Declaration
        | Kind::Function
        | Kind::StructDefinition
        | Kind::StructDeclaration
        | Kind::Member
        | Kind::LocalDeclaration
        | Kind::Parameter => kind,
        _ => around,
    }
}

/// What the name of a declarator declares in a declaration.
fn declared_in(declaration: Kind) -> Declares
    ensures { (tag : List ℕ) → space_of tag result ≡ space_in tag (walks.scope_of declaration) }
{
    match declaration {
        Kind::Declaration | Kind::Function => Declares::Ordinary,
        Kind::Member => Declares::Member,
        _ => Declares::Nothing,
    }
}

/// What a name declares in a node of a kind, before or behind a token that turns what names are.
pub(crate) fn declared_by(declaration: Kind, kind: Kind, turned: bool) -> Declares
    ensures { (tag : List ℕ) → space_of tag result ≡ space_by declaration tag (walks.role kind turned) }
{
    match kind {
        Kind::Specifiers => Declares::Tag,
        Kind::Declarator | Kind::FunctionDeclarator => declared_in(declaration),
        Kind::ArrayDeclarator if !turned => declared_in(declaration),
        _ => Declares::Nothing,
    }
}

pub(crate) fn defines_struct(kind: Kind) -> bool
    ensures { result ≡ Rattle.cond_name_spaces.specs.Progress.defines_struct kind }
{
    match kind {
        Kind::StructDefinition => true,
        _ => false,
    }
}
