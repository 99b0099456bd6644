//! What a node with a fixed list of parts needs, one part after the other.

ghost use Rattle.std.specs.Prelude.{◌≡◌};
ghost use Rattle.c_tree.specs.Terminals.{is_one_of};
ghost use Rattle.c_tree.specs.Grammar as grammar;
ghost use Rattle.c_tree.specs.Places as places;
ghost use Rattle.grammar_moves.specs.Slots.{plain_role, terminals_of};

use c_tree::Terminal;

/// Where a declarator stands.
#[derive(Clone, Copy, PartialEq, Eq)]
pub enum Role {
    FileFirst,
    FileInline,
    FileLater,
    Local,
    Member,
    Parameter,
    InlineParameter,
}

impl Role {
    pub(crate) fn is_inline(self) -> bool
        ensures { result ≡ places.is_inline_role (plain_role self) }
    {
        match self {
            Role::FileInline | Role::InlineParameter => true,
            Role::FileFirst | Role::FileLater | Role::Local | Role::Member | Role::Parameter => {
                false
            }
        }
    }

    pub(crate) fn is_at_file_scope(self) -> bool
        ensures { result ≡ grammar.at_file_scope (plain_role self) }
    {
        match self {
            Role::FileFirst | Role::FileInline | Role::FileLater => true,
            Role::Local | Role::Member | Role::Parameter | Role::InlineParameter => false,
        }
    }

    pub(crate) fn may_be_initialised(self) -> bool
        ensures { result ≡ grammar.may_be_initialised (plain_role self) }
    {
        match self {
            Role::FileFirst | Role::FileInline | Role::FileLater | Role::Local => true,
            Role::Member | Role::Parameter | Role::InlineParameter => false,
        }
    }

    /// The role of the declarators behind one with this role.
    pub(crate) fn later(self) -> Role
        ensures { plain_role result ≡ places.later (plain_role self) }
    {
        match self {
            Role::FileFirst => Role::FileLater,
            other => other,
        }
    }
}

/// What may stand in a place.
#[derive(Clone, Copy)]
pub enum Category {
    /// An expression that binds at least as tightly as this level.
    Expression(u8),
    Arguments,
    CastType,
    Specifiers,
    FileSpecifiers,
    Tag,
    Declarators(Role),
    AbstractDeclarator,
    Parameters,
    Initialiser,
    Initialisers,
    Statement,
    ElsePart,
    Block,
    Items,
    Item,
    ForStart,
    Members,
    Member,
    FileItem,
}

/// The terminals that may stand in one place.
#[derive(Clone, Copy)]
pub enum Choices {
    One(Terminal),
    AssignmentSigns,
    ProductSigns,
    PrefixSigns,
}

/// What a node needs next.
#[derive(Clone, Copy)]
pub enum Slot {
    Word(Choices),
    Stars,
    Needed(Category),
    Optional(Category),
}

impl Choices {
    pub(crate) fn has(self, token: Terminal) -> bool
        ensures { result ≡ is_one_of (terminals_of self) token }
    {
        match self {
            Choices::One(terminal) => token.is(terminal),
            Choices::AssignmentSigns => {
                token.is(Terminal::Assign) || token.is(Terminal::CompoundAssign)
            }
            Choices::ProductSigns => token.is(Terminal::Star) || token.is(Terminal::Divide),
            Choices::PrefixSigns => {
                token.is(Terminal::Ampersand)
                    || token.is(Terminal::Star)
                    || token.is(Terminal::Sign)
                    || token.is(Terminal::Negation)
            }
        }
    }
}
