//! Bindings under conditions.
use cond_formula::Formula;

/// A declaration of an ordinary name or a tag, as those behind it see it.
#[derive(Drop)]
pub struct Declaration {
    /// The number of the token in the unit's stream.
    pub number: u32,
    /// The condition under which the token is there.
    pub when: Formula,
    /// The place in the unit's list of the latest declaration of the same name that was visible before this one.
    pub hides: Option<u32>,
}

/// What an identifier stands for. Places are those of the unit's list of declarations; each stands for that declaration and
/// those that it hides.
#[derive(Clone, Copy, Debug, PartialEq, Eq)]
pub enum Meaning {
    /// A use. Of what is visible in the blocks that are open the latest declaration that is there counts, else of what is visible at
    /// file scope the first; where none is there, the identifier is undeclared.
    Use(Option<u32>, Option<u32>),
    /// A declaration: of those of the same entity before it the first that is there declares the entity, else the identifier itself.
    Declares(Option<u32>),
}

/// An identifier of a unit: an ordinary name, a tag, or a member where it is declared.
#[derive(Drop)]
pub struct Identifier {
    /// The number of the token in the unit's stream.
    pub number: u32,
    /// The condition under which the token is there.
    pub when: Formula,
    pub meaning: Meaning,
}

/// A name of file scope that an expression uses.
#[derive(Drop)]
pub struct FileUse {
    pub name: Vec<u8>,
    /// The condition under which the expression is there, and the name is declared at file scope before it and in no block
    /// around it.
    pub when: Formula,
}

/// What the identifiers of a unit are bound to.
#[derive(Drop)]
pub struct UnitBindings {
    pub declarations: Vec<Declaration>,
    /// The identifiers in the order of the text.
    pub identifiers: Vec<Identifier>,
    /// The names of file scope that expressions use; a name may stand here more than once.
    pub uses: Vec<FileUse>,
}

/// What the identifiers of all units are bound to, in all configurations.
#[derive(Drop)]
pub struct CondBindings {
    /// In the order of the project's units.
    pub units: Vec<UnitBindings>,
    /// The condition under which an identifier of a unit that is present is undeclared.
    pub refused: Formula,
}
