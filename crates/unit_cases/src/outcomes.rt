use core_meaning::{LinkKind, TypeKind};
use std::alloc::{AllocError, Global};
use std::fmt;

/// A place in the text of a unit.
#[derive(Clone, Copy, Debug)]
pub(crate) struct Place {
    /// The number of the unit.
    pub(crate) unit: usize,
    /// The byte at which the token begins, or the length of the text.
    pub(crate) offset: usize,
}

impl fmt::Display for Place {
    fn fmt<W: fmt::Write>(&self, f: &mut fmt::Formatter<W>) -> fmt::Result {
        let (unit, offset) = (self.unit, self.offset);
        write!(f, "{unit}:{offset}")
    }
}

/// What becomes of the units of a program.
#[derive(Debug, Drop)]
pub(crate) enum Outcome {
    /// They have a core program.
    Accepted,
    /// The grammar stops before this token.
    Unexpected(Place),
    TooHigh,
    /// A type refusal at this token.
    Refused(TypeKind, Place),
    /// They don't link, by this name.
    Unlinked(LinkKind, String),
    Memory,
}

impl Outcome {
    /// As the cases write it.
    pub(crate) fn shown(&self, alloc: Global) -> Result<String, AllocError> {
        match self {
            Outcome::Accepted => "accepted".to_string(alloc),
            Outcome::Unexpected(place) => format!(in alloc; "unexpected at {place}"),
            Outcome::TooHigh => "too high".to_string(alloc),
            Outcome::Refused(kind, place) => format!(in alloc; "{kind:?} at {place}"),
            Outcome::Unlinked(kind, name) => format!(in alloc; "{kind:?} {name}"),
            Outcome::Memory => "want of memory".to_string(alloc),
        }
    }
}
