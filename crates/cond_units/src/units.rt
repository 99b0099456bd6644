//! What a unit declares and defines up to a place.
use choice_trees::Item;
use conditional::CondList;
use plain_objects::Storage;
use type_tables::{Definition, Tables};

/// What is known at a place of a unit, and what the unit has defined before it, in all configurations.
#[derive(Drop)]
pub struct UnitTables {
    pub tables: Tables,
    /// In the order of the text.
    pub defined: CondList<Definition>,
}

/// What the declaration of an object says beside its type, and what stands behind it.
#[derive(Drop)]
pub struct ObjectDeclaration<'d, B> {
    pub storage: Storage,
    /// With which the object begins, if it is there.
    pub initialiser: Option<&'d Item>,
    /// The items of the unit behind the declaration.
    pub behind: &'d B,
}
