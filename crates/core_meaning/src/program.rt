//! Core programs: what is left of a C program once its names are resolved and its conversions are written out.

use crate::statements::Item;
use c_types::CType;

/// A program without names: structs, functions, globals and text literals go by their numbers from 0.
#[derive(Drop)]
pub struct CoreProgram {
    /// The structs that its types name. None contains itself but behind a pointer.
    pub structs: Vec<Layout>,
    pub functions: Vec<Function>,
    pub globals: Vec<Global>,
    /// The bytes of each text, without the zero that ends it; no two are equal.
    pub literals: Vec<Vec<u8>>,
    /// The function that is called first.
    pub main: u32,
}

/// A struct by the types of its members (6.7.2.1).
#[derive(Drop)]
pub struct Layout {
    pub members: Vec<CType>,
}

#[derive(Drop)]
pub enum Function {
    /// A function with a body (6.9.1).
    Defined(Definition),
    /// A function of the built-in headers.
    BuiltIn(BuiltIn),
}

#[derive(Drop)]
pub struct Definition {
    /// The types of its parameters and then of its locals.
    pub slots: Vec<CType>,
    /// The items of its block.
    pub body: Vec<Item>,
}

/// The functions of the built-in headers (7.21.7.6, 7.21.7.8, 7.21.7.9, 7.22.4.4).
#[derive(Clone, Copy)]
pub enum BuiltIn {
    Putchar,
    Getchar,
    Puts,
    Exit,
}

/// An object of the file scope, with its first value; the scalars without a part begin as zeros (6.7.9).
#[derive(Drop)]
pub struct Global {
    pub ty: CType,
    pub parts: Vec<ConstantPart>,
}

/// The first value of a scalar in a global.
#[derive(Drop)]
pub struct ConstantPart {
    /// The numbers of the elements and members that lead to it, from the outside in.
    pub path: Vec<u32>,
    pub value: Constant,
}

#[derive(Drop)]
pub enum Constant {
    Number(i128),
    Null,
    /// The address of a global.
    Global(u32),
    /// The address of the first element of a global that is an array.
    GlobalElement(u32),
    /// The address of the first byte of a text.
    Literal(u32),
}
