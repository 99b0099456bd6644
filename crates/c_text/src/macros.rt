use crate::token::Token;

/// A macro as a `#define` line gives it (ISO/IEC 9899:2011, 6.10.3).
#[derive(Debug, Drop)]
pub struct Macro {
    pub name: Vec<u8>,
    /// The parameters of a function-like macro, which may be none; an object-like one has no list.
    pub params: Option<Vec<Vec<u8>>>,
    /// What replaces the macro's name, or its call.
    pub body: Vec<Token>,
}
