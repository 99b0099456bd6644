use c_text::{Macro, Token};

/// What a directive line says (6.10).
#[derive(Debug, Drop)]
pub enum Directive {
    /// `#if` with the tokens of its expression, which may be none.
    If(Vec<Token>),
    /// `#ifdef` with its name. What follows the name is ignored, as for `#ifndef` and `#undef`.
    Ifdef(Token),
    Ifndef(Token),
    /// `#elif` with the tokens of its expression, which may be none.
    Elif(Vec<Token>),
    Else,
    Endif,
    Define(Macro),
    /// A `#define` or `#undef` of the right form whose own tokens refuse it, whatever is defined.
    BadDefine,
    Undef(Token),
    /// `#include` with the tokens behind it: one text, or `<`, tokens and a last `>`.
    Include(Vec<Token>),
    Error,
    /// The lone `#`.
    Null,
    /// A line of none of these forms, `#line` and `#pragma` among them.
    Malformed,
}
