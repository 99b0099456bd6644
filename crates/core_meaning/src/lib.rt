//! Core programs and their meaning (ISO/IEC 9899:2011, 5.1.2, 6.5, 6.8). The meaning is a definition, in `specs/`; its laws are
//! the contracts of functions without a body.
#![tactic(auto)]

mod expressions;
mod integers;
mod laws;
mod program;
mod refusals;
mod statements;

pub use expressions::{Change, Expression, Operation, Place};
pub use integers::IntegerType;
pub use laws::{
    a_larger_bound_reaches, judgings_list_alike, no_units_are_left_out, pieces_grow,
    reaching_is_transitive, runs_grow,
};
pub use program::{
    BuiltIn, Constant, ConstantPart, CoreProgram, Definition, Function, Global, Layout,
};
pub use refusals::{LinkKind, TypeKind};
pub use statements::{Item, Part, Statement};
