//! What is noted of identifiers.
ghost use Rattle.std.specs.Prelude.{◌≡◌, ℕ, List, IsTrue, IfOk};
ghost use Rattle.cond_name_spaces.specs.Spaced.{InSpace, plain_space, plain_name};
ghost use Rattle.cond_name_spaces.specs.Progress.{plain_tag};

use c_text::Token;
use cond_formula::NoMemory;
use conditional::Plain;
use std::alloc::Global;

/// A name space of identifiers (ISO/IEC 9899:2011, 6.2.3).
#[derive(Debug, Drop)]
pub enum Space {
    /// Objects and functions.
    Ordinary,
    Tags,
    /// The members of the struct with this tag.
    MembersOf(Vec<u8>),
}

impl Space {
    ghost use Rattle.std.specs.Prelude.{◌≡◌, IsTrue, IfOk};
    ghost use Rattle.cond_name_spaces.specs.Spaced.{plain_space};

    /// Whether both are one name space.
    pub fn is_same(&self, other: &Space) -> bool
        ensures { IsTrue result → plain_space self.now ≡ plain_space other.now }
    {
        match (self, other) {
            (Space::Ordinary, Space::Ordinary) => true,
            (Space::Tags, Space::Tags) => true,
            (Space::MembersOf(tag), Space::MembersOf(other)) => tag.as_slice() == other.as_slice(),
            _ => false,
        }
    }

    /// The same name space.
    pub fn try_clone(&self, alloc: Global) -> Result<Space, NoMemory>
        ensures { IfOk result (λ space. plain_space space ≡ plain_space self.now) }
    {
        match self {
            Space::Ordinary => Ok(Space::Ordinary),
            Space::Tags => Ok(Space::Tags),
            Space::MembersOf(tag) => Ok(Space::MembersOf(Vec::from_slice(alloc, tag)?)),
        }
    }
}

/// An identifier that stands in a name space.
#[derive(Debug, Drop)]
pub struct SpacedName {
    /// The number of its token in the unit's stream.
    pub number: u32,
    pub token: Token,
    pub space: Space,
}

impl Plain for SpacedName {
    ghost Form = { InSpace };

    ghost form = { plain_name };

    fn is_same(&self, other: &SpacedName) -> bool {
        self.number == other.number
            && self.space.is_same(&other.space)
            && Plain::is_same(&self.token, &other.token)
    }

    fn try_clone(&self, alloc: Global) -> Result<SpacedName, NoMemory> {
        let token = self.token.try_clone(alloc)?;
        let space = self.space.try_clone(alloc)?;
        Ok(SpacedName {
            number: self.number,
            token,
            space,
        })
    }
}

/// The tag of a struct that is defined.
#[derive(Debug, Drop)]
pub(crate) struct Tag {
    pub(crate) text: Vec<u8>,
}

impl Plain for Tag {
    ghost Form = { List ℕ };

    ghost form = { plain_tag };

    fn is_same(&self, other: &Tag) -> bool {
        self.text.as_slice() == other.text.as_slice()
    }

    fn try_clone(&self, alloc: Global) -> Result<Tag, NoMemory> {
        let text = Vec::from_slice(alloc, &self.text)?;
        Ok(Tag { text })
    }
}
