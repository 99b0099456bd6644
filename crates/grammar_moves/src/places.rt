//! Where a reader of tokens may stand in a node.

ghost use Rattle.std.specs.Prelude.{◌≡◌};
ghost use Rattle.c_tree.specs.Places as places;
ghost use Rattle.grammar_moves.specs.PlainPlaces.{plain_flavour, plain_naming, namings};

use crate::rows::Row;
use crate::slots::{Category, Role};
use crate::words::{Wording, Words};
use c_tree::Kind;

/// What the words of a declaration at file scope allow behind them.
#[derive(Clone, Copy)]
pub enum Specified {
    /// `struct` and a name alone
    ByTag,
    /// `inline` among them
    ByInline,
    ByOthers,
}

/// What the declarators of a declaration at file scope allow behind them.
#[derive(Clone, Copy)]
pub enum Flavour {
    /// no function, more than one declarator, or an initialiser
    Object,
    /// a function without parameters
    Empty,
    /// a function that may be defined
    Definable,
    /// a function with a parameter without a name
    Prototype,
}

/// What parameters are so far.
#[derive(Clone, Copy)]
pub enum Naming {
    LoneVoid,
    Named,
    Unnamed,
}

/// A place in a node, behind the parts that have been read.
#[derive(Clone, Copy)]
pub enum Place {
    /// In a node with a fixed list of parts, behind so many of them.
    Inside(Row, usize),
    /// Where an expression of at least this level begins.
    Operand(u8),
    /// Behind an operand of the second level, in an expression of at least the first.
    Operator(u8, u8),
    /// Behind a `(` that begins an expression of at least this level.
    Opened(u8),
    InTexts,
    InWords(Wording, Words),
    /// In a list without commas.
    InList(Kind, Category),
    /// In a list with commas, behind an entry.
    Entered(Kind, Category),
    /// In a list with commas, behind a comma.
    SeparatedFrom(Kind, Category),
    /// At file scope: before and behind the words of a declaration, before and behind its declarators.
    /// It is kept whether the words have an `inline`.
    Specifying,
    Specified(Specified),
    Declaring(bool),
    Declared(bool, Flavour),
    /// In declarators: before one, behind one, behind a comma, before an initialiser, behind one.
    DeclaratorAt(Role),
    DeclaratorRead(Role, Flavour),
    DeclaratorNext(Role),
    InitialiserNext(Role),
    InitialiserRead(Role),
    /// In a declarator: behind its stars, behind its name.
    BeforeName(Role),
    BehindName(Role),
    /// In the parentheses of a declarator: before its parameters, behind them; and behind the parentheses.
    ParametersNext(Role),
    ParametersRead(Role, Flavour),
    BehindParameters(Flavour),
    /// In parameters, of an inline function or another: before one, behind one, behind a comma.
    ParameterAt(bool, Option<Naming>),
    ParameterRead(bool, Naming),
    ParameterNext(bool, Naming),
    /// In a parameter: before its type, behind it (whether that is the lone word `void`), behind its declarator.
    ParameterBegins(bool),
    ParameterTyped(bool, bool),
    ParameterDeclared(Naming),
}

impl Flavour {
    pub(crate) fn may_be_declared(self, inline: bool) -> bool
        ensures { result ≡ places.may_be_declared_so inline (plain_flavour self) }
    {
        match self {
            Flavour::Empty => false,
            Flavour::Object | Flavour::Definable | Flavour::Prototype => !inline,
        }
    }

    pub(crate) fn may_be_defined(self) -> bool
        ensures { result ≡ places.may_be_defined_so (plain_flavour self) }
    {
        match self {
            Flavour::Empty | Flavour::Definable => true,
            Flavour::Object | Flavour::Prototype => false,
        }
    }
}

impl Naming {
    pub(crate) fn flavour(self) -> Flavour
        ensures { plain_flavour result ≡ places.flavour_of (plain_naming self) }
    {
        match self {
            Naming::LoneVoid | Naming::Named => Flavour::Definable,
            Naming::Unnamed => Flavour::Prototype,
        }
    }

    /// Whether further parameters may stand behind such ones.
    pub(crate) fn may_go_on(self, inline: bool) -> bool
        ensures { result ≡ places.may_go_on inline (plain_naming self) }
    {
        match self {
            Naming::Named => true,
            Naming::LoneVoid | Naming::Unnamed => !inline,
        }
    }
}

/// What parameters are so far, with one more.
pub fn joined_naming(before: Option<Naming>, naming: Naming) -> Naming
    ensures { plain_naming result ≡ places.joined_naming (namings before) (plain_naming naming) }
{
    match before {
        None => naming,
        Some(Naming::Named) => match naming {
            Naming::Named => Naming::Named,
            Naming::LoneVoid | Naming::Unnamed => Naming::Unnamed,
        },
        Some(Naming::LoneVoid) | Some(Naming::Unnamed) => Naming::Unnamed,
    }
}
