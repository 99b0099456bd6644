//! The integer types in which a core program computes.

/// An integer type (6.2.5).
#[derive(Clone, Copy)]
pub enum IntegerType {
    Char,
    UnsignedChar,
    Int,
    UnsignedInt,
    Long,
    UnsignedLong,
}
