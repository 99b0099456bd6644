//! Types, and the tables of the structs that they name.

/// A type (6.2.5). The engine's `char` is signed.
#[derive(Drop)]
pub enum CType {
    Void,
    Char,
    /// `unsigned char`
    UChar,
    Int,
    /// `unsigned int`
    UInt,
    Long,
    /// `unsigned long`
    ULong,
    /// A pointer to this type.
    Pointer(Box<CType>),
    /// An array of so many elements of this type.
    Array(Box<CType>, u32),
    /// The struct with this number in a table of tags.
    Struct(u32),
}

/// The structs of a unit, by their numbers from 0.
#[derive(Drop)]
pub struct TagTable {
    pub tags: Vec<Tag>,
}

/// A struct (6.7.2.1).
#[derive(Drop)]
pub struct Tag {
    /// The name behind `struct`.
    pub name: Vec<u8>,
    /// Its members in order; of an incomplete struct they say nothing.
    pub members: Vec<Member>,
    /// Whether the struct is defined.
    pub complete: bool,
}

/// A member of a struct.
#[derive(Drop)]
pub struct Member {
    pub name: Vec<u8>,
    pub ty: CType,
}
