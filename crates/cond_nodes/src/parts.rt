//! What has been read of expressions and of the parts of a node.
ghost use Rattle.std.specs.Prelude.{◌≡◌, ℕ};
ghost use Rattle.c_types.specs.Types.{PlainType, plain_type};
ghost use Rattle.cond_nodes.specs.Reads.{callee_number, cast_type};

use c_text::Token;
use c_types::CType;
use cond_formula::NoMemory;
use cond_operands::Operands;
use conditional::{CondValue, Guarded, Plain};
use std::alloc::Global;

/// A function by a number, which means another function in each configuration.
#[derive(Clone, Copy, Debug)]
pub struct Callee {
    pub number: u32,
}

impl Plain for Callee {
    ghost Form = { ℕ };

    ghost form = { callee_number };

    fn is_same(&self, other: &Callee) -> bool {
        self.number == other.number
    }

    fn try_clone(&self, _alloc: Global) -> Result<Callee, NoMemory> {
        Ok(*self)
    }
}

/// The type of a cast, which is made of no struct.
#[derive(Clone, Copy, Debug, PartialEq, Eq)]
pub enum CastType {
    Void,
    Char,
    UChar,
    Int,
    UInt,
    Long,
    ULong,
}

impl CastType {
    /// The type itself.
    #[tactic(auto, using(c_types::specs::TypeLaws::type_kinds))]
    pub(crate) fn plain(self) -> CType
        ensures { plain_type result ≡ cast_type self }
    {
        match self {
            CastType::Void => CType::Void,
            CastType::Char => CType::Char,
            CastType::UChar => CType::UChar,
            CastType::Int => CType::Int,
            CastType::UInt => CType::UInt,
            CastType::Long => CType::Long,
            CastType::ULong => CType::ULong,
        }
    }
}

impl Plain for CastType {
    ghost Form = { PlainType };

    ghost form = { cast_type };

    fn is_same(&self, other: &CastType) -> bool {
        *self == *other
    }

    fn try_clone(&self, _alloc: Global) -> Result<CastType, NoMemory> {
        Ok(*self)
    }
}

/// What an expression is in each configuration: its type, and the function that it names.
#[derive(Drop)]
pub struct CondRead {
    pub outcomes: Operands,
    pub callee: CondValue<Callee>,
}

/// What has been read of a node's parts.
#[derive(Drop)]
pub struct CondParts<'a> {
    pub operands: Vec<CondRead>,
    /// The other tokens.
    pub signs: Vec<&'a Token>,
    /// The type of a cast.
    pub words: CondValue<CastType>,
    /// The arguments of a call, each where it is there.
    pub arguments: Vec<Guarded<Operands>>,
}
