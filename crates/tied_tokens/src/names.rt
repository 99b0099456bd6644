//! Names that units have in common, and who declares them.

ghost use Rattle.std.specs.Prelude.{◌≡◌, ◌↔◌, IsTrue};
ghost use Rattle.tied_tokens.specs.Ties.{plain_common_name};

use c_text::FileToken;
use cond_formula::Formula;

/// What all units mean alike by a name.
#[derive(Debug, Drop)]
pub enum CommonName {
    /// An object or a function with external linkage.
    External(Vec<u8>),
    /// A struct, by its tag.
    Tag(Vec<u8>),
    /// A member, by the tag of its struct and its own name.
    Member(Vec<u8>, Vec<u8>),
}

/// A token that declares a name which units have in common.
#[derive(Drop)]
pub struct DeclaredName {
    pub token: FileToken,
    pub name: CommonName,
    /// Where it declares that name.
    pub when: Formula,
}

/// Whether they are one name.
pub(crate) fn is_same_name(a: &CommonName, b: &CommonName) -> bool
    ensures { IsTrue result ↔ plain_common_name a.now ≡ plain_common_name b.now }
{
    match (a, b) {
        (CommonName::External(a), CommonName::External(b)) => a.as_slice() == b.as_slice(),
        (CommonName::Tag(a), CommonName::Tag(b)) => a.as_slice() == b.as_slice(),
        (CommonName::Member(of, a), CommonName::Member(other, b)) => {
            of.as_slice() == other.as_slice() && a.as_slice() == b.as_slice()
        }
        _ => false,
    }
}
