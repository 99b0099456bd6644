//! Numbers, characters and texts as constants (6.4.4, 6.4.5).
ghost use Rattle.std.specs.Prelude.{◌≡◌, pos, [], ◌∷◌, Some, MatchResult};
ghost use Rattle.c_text.specs.Constants as constants;
ghost use Rattle.c_types.specs.Types.{plain_type, char, int, unsigned_int, long, unsigned_long};
ghost use Rattle.c_types.specs.Integers.{converted};
ghost use Rattle.c_tree.specs.Trees.{PlainTrees, more, plain_tree, plain_trees};
ghost use Rattle.core_meaning.specs.Expressions as spec;

use c_constants::{is_decimal, is_long, is_unsigned, number_value, quoted_values};
use c_tree::Tree;
use c_types::{CType, convert};
use plain_scope::ElabError;
use std::alloc::Global;

#[tactic(auto, using(c_types::specs::TypeLaws::type_kinds))]
fn long_type(value: u64) -> CType
    ensures { plain_type result ≡ spec.first_type (long ∷ unsigned_long ∷ []) (pos value) }
{
    if value <= 9223372036854775807 {
        CType::Long
    } else {
        CType::ULong
    }
}

#[tactic(auto, using(c_types::specs::TypeLaws::type_kinds))]
fn decimal_type(value: u64) -> CType
    ensures { plain_type result ≡ spec.first_type (int ∷ long ∷ []) (pos value) }
{
    if value <= 2147483647 {
        CType::Int
    } else {
        long_type(value)
    }
}

#[tactic(auto, using(c_types::specs::TypeLaws::type_kinds))]
fn unsigned_type(value: u64) -> CType
    ensures { plain_type result ≡ spec.first_type (unsigned_int ∷ unsigned_long ∷ []) (pos value) }
{
    if value <= 4294967295 {
        CType::UInt
    } else {
        CType::ULong
    }
}

#[tactic(auto, using(c_types::specs::TypeLaws::type_kinds))]
fn octal_or_hexadecimal_type(value: u64) -> CType
    ensures { plain_type result ≡ spec.first_type (int ∷ unsigned_int ∷ long ∷ unsigned_long ∷ []) (pos value) }
{
    if value <= 2147483647 {
        CType::Int
    } else if value <= 4294967295 {
        CType::UInt
    } else {
        long_type(value)
    }
}

/// The first type of a number that holds it (6.4.4.1).
#[tactic(auto, using(c_types::specs::TypeLaws::type_kinds))]
fn number_type(unsigned: bool, long: bool, decimal: bool, value: u64) -> CType
    ensures { plain_type result ≡ spec.first_type (spec.number_types unsigned long decimal) (pos value) }
{
    match (unsigned, long, decimal) {
        (true, true, _) => CType::ULong,
        (true, false, _) => unsigned_type(value),
        (false, true, _) => long_type(value),
        (false, false, true) => decimal_type(value),
        (false, false, false) => octal_or_hexadecimal_type(value),
    }
}

/// A number's type.
pub fn type_of_number(text: &[u8], value: u64) -> CType
    requires { value ≡ constants.number_value text.now }
    ensures { plain_type result ≡ spec.number_type text.now }
{
    number_type(is_unsigned(text), is_long(text), is_decimal(text), value)
}

#[tactic(auto, using(c_types::specs::TypeLaws::type_kinds))]
fn character_byte(byte: u8) -> i128
    ensures { result ≡ converted char (pos byte) }
{
    convert(&CType::Char, i128::from(byte))
}

/// The value of a character.
pub fn character(alloc: Global, text: &[u8]) -> Result<i128, ElabError>
    ensures { MatchResult result (λ z. spec.character_value (constants.quoted_values text.now) ≡ Some z) (λ error. error ≡ ElabError.Memory) }
{
    let Some(bytes) = quoted_values(alloc, text)? else {
        return Err(ElabError::Memory);
    };
    match bytes.as_slice() {
        [byte] => Ok(character_byte(*byte)),
        _ => Err(ElabError::Memory),
    }
}

/// The bytes of one text.
#[tactic(auto, using(c_tree::specs::TreeLaws::tree_kinds))]
fn bytes_of(alloc: Global, part: &Tree) -> Result<Vec<u8>, ElabError>
    ensures { MatchResult result (λ bytes. (rest : PlainTrees) → spec.text_bytes (more (plain_tree part.now) rest) ≡ spec.joined_bytes (Some bytes.items) (spec.text_bytes rest)) (λ error. error ≡ ElabError.Memory) }
{
    match part {
        Tree::Leaf(token) => match quoted_values(alloc, token.text.as_slice())? {
            Some(bytes) => Ok(bytes),
            None => Err(ElabError::Memory),
        },
        Tree::Node(..) => Err(ElabError::Memory),
    }
}

/// The bytes of texts in a row.
#[tactic(auto, using(crate::proofs::TextFacts::joined_twice, crate::proofs::TextFacts::joined_with_none))]
pub fn text_bytes(alloc: Global, parts: &[Tree]) -> Result<Vec<u8>, ElabError>
    ensures { MatchResult result (λ bytes. spec.text_bytes (plain_trees parts.now) ≡ Some bytes.items) (λ error. error ≡ ElabError.Memory) }
{
    let mut bytes = Vec::new(alloc);
    for part in parts {
        let text = bytes_of(alloc, part)?;
        bytes.extend_from_slice(text.as_slice())?;
    }
    Ok(bytes)
}
