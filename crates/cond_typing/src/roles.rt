//! What nodes are to the nodes that they are parts of.
ghost use Rattle.std.specs.Prelude.{◌≡◌};
ghost use Rattle.cond_typing.specs.Roles as spec;

use c_tree::Kind;

/// What a node is to the node around it.
#[derive(Clone, Copy, Debug)]
pub enum Role {
    /// The arguments of a call.
    Arguments,
    /// The words of a cast.
    Words,
    /// What is left out.
    Nothing,
    Operand,
}

pub(crate) fn role_of(kind: Kind) -> Role
    ensures { result ≡ spec.role_of kind }
{
    match kind {
        Kind::Arguments => Role::Arguments,
        Kind::Specifiers => Role::Words,
        Kind::Absent => Role::Nothing,
        _ => Role::Operand,
    }
}

/// Whether a node is told by its texts.
pub(crate) fn is_texts(kind: Kind) -> bool
    ensures { result ≡ spec.is_texts kind }
{
    match kind {
        Kind::Texts => true,
        _ => false,
    }
}
