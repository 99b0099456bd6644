//! Operands and signs as they are written in cases.
use c_text::{Origin, Place, Token, TokenKind};
use c_types::CType;
use cond_formula::{Formula, NoMemory};
use cond_operands::Operands;
use conditional::Outcomes;
use operand_rules::{Category, OperandType};
use std::alloc::Global;
use text_edits::Span;

const NOWHERE: Span = Span { start: 0, end: 0 };

/// An operator's sign.
pub(crate) fn sign(alloc: Global, text: &str) -> Result<Token, NoMemory> {
    Ok(Token {
        kind: TokenKind::Punctuator,
        text: Vec::from_slice(alloc, text.as_bytes())?,
        joined: false,
        origin: Origin {
            file: 0,
            span: NOWHERE,
            place: Place::Text,
            site: NOWHERE,
            site_file: 0,
        },
    })
}

fn basic_type(text: &str) -> CType {
    match text {
        "void" => CType::Void,
        "char" => CType::Char,
        "int" => CType::Int,
        "unsigned int" => CType::UInt,
        "long" => CType::Long,
        _ => CType::Struct(0),
    }
}

/// The type that is written so, with one star or one pair of brackets at most.
pub(crate) fn type_named(alloc: Global, text: &str) -> Result<CType, NoMemory> {
    match text.strip_suffix(" *") {
        Some(target) => Ok(CType::Pointer(Box::new(alloc, basic_type(target))?)),
        None => match text.strip_suffix(" [4]") {
            Some(element) => Ok(CType::Array(Box::new(alloc, basic_type(element))?, 4)),
            None => Ok(basic_type(text)),
        },
    }
}

/// The operand that is written so: `0`, or a type, which may have `object` before it, and `part` before a type whose struct is
/// incomplete.
pub(crate) fn operand(alloc: Global, text: &str) -> Result<OperandType, NoMemory> {
    let (category, text) = match text.strip_prefix("object ") {
        Some(rest) => (Category::Object(true), rest),
        None => (Category::Value, text),
    };
    let (has_complete_struct, text) = match text.strip_prefix("part ") {
        Some(rest) => (false, rest),
        None => (true, text),
    };
    let is_null = text == "0";
    let ty = if is_null {
        CType::Int
    } else {
        type_named(alloc, text)?
    };
    Ok(OperandType {
        ty,
        category,
        is_null,
        has_complete_struct,
    })
}

/// One operand where the feature is on, and another elsewhere.
pub(crate) fn by_feature(
    alloc: Global,
    feature: u8,
    on: &str,
    off: &str,
) -> Result<Operands, NoMemory> {
    let on = Outcomes::one(alloc, operand(alloc, on)?)?;
    let off = Outcomes::one(alloc, operand(alloc, off)?)?;
    Outcomes::choose(alloc, &Formula::Var(feature), &on, &off)
}
