//! The texts that pointers lead to (7.1.1).

ghost use Rattle.std.specs.Prelude.{◌≡◌, [], IfOk, Some, option_map};
ghost use Rattle.c_types.specs.Types.{unsigned_char};
ghost use Rattle.c_types.specs.Arithmetic as arithmetic;
ghost use Rattle.core_meaning.specs.Values as plain;
ghost use Rattle.core_meaning.specs.Memory as spec;
ghost use Rattle.core_meaning.specs.Meaning as meaning;
ghost use Rattle.core_cells.specs.Forms.{plain_location, plain_pointer, plain_scalar, plain_value};
ghost use Rattle.core_cells.specs.Parts.{plain_stand};
ghost use Rattle.core_memory.specs.MemoryForms.{plain_memory, structs_of};
ghost use Rattle.core_memory.specs.OperationForms.{with_structs};
ghost use Rattle.core_memory.specs.TextForms.{plain_text};

use crate::memory::Memory;
use crate::pointers::element;
use cond_formula::NoMemory;
use core_cells::{Location, Pointer, Scalar, Stand, Value};
use std::alloc::Global;

/// The bytes up to a zero; None where an element before it isn't written, or none is zero.
pub fn text_at(
    alloc: Global,
    memory: &Memory,
    pointer: &Pointer,
) -> Result<Option<Vec<u8>>, NoMemory>
    ensures { IfOk result (λ text. plain_text text ≡ meaning.text_at (with_structs (structs_of memory.now)) (plain_memory memory.now) (plain_pointer pointer.now)) }
{
    match pointer {
        Pointer::Null => Ok(None),
        Pointer::At(location) => {
            let text = location_text(alloc, memory, location)?;
            Ok(text)
        }
    }
}

fn location_text(
    alloc: Global,
    memory: &Memory,
    location: &Location,
) -> Result<Option<Vec<u8>>, NoMemory>
    ensures { IfOk result (λ text. plain_text text ≡ meaning.text_at (with_structs (structs_of memory.now)) (plain_memory memory.now) (plain_location location.now)) }
{
    match memory.stand(location) {
        None => Ok(None),
        Some(stand) => {
            let text = text_in(alloc, memory, location.object, stand)?;
            Ok(text)
        }
    }
}

fn text_in<'b>(
    alloc: Global,
    memory: &Memory,
    object: usize,
    stand: Stand<'b>,
) -> Result<Option<Vec<u8>>, NoMemory>
    ensures { IfOk result (λ text. plain_text text ≡ meaning.text_in (with_structs (structs_of memory.now)) (plain_memory memory.now) object (plain_stand stand.entry)) }
{
    let mut text = Vec::new(alloc);
    for index in stand.index..stand.count {
        match byte_at(alloc, memory, object, stand, index)? {
            None => return Ok(None),
            Some(byte) => {
                if byte == 0 {
                    return Ok(Some(text));
                }
                text.push(byte)?;
            }
        }
    }
    Ok(None)
}

fn byte_at<'b>(
    alloc: Global,
    memory: &Memory,
    object: usize,
    stand: Stand<'b>,
    index: u32,
) -> Result<Option<u8>, NoMemory>
    ensures { IfOk result (λ byte. byte ≡ meaning.byte_of (with_structs (structs_of memory.now)) (spec.value_at (structs_of memory.now) (plain_memory memory.now) (plain.at object (plain.element_path (plain_stand stand.entry) index)))) }
{
    match element(alloc, object, stand, Some(index))? {
        None => Ok(None),
        Some(pointer) => Ok(byte_of_value(memory.read(alloc, &pointer)?)),
    }
}

fn byte_of_value<'a>(value: Option<Value<'a>>) -> Option<u8>
    ensures { result ≡ meaning.byte_of (with_structs []) (option_map plain_value value.entry) }
{
    match value {
        None => None,
        Some(value) => byte_of_one(value),
    }
}

fn byte_of_one<'a>(value: Value<'a>) -> Option<u8>
    ensures { result ≡ meaning.byte_of (with_structs []) (Some (plain_value value.entry)) }
{
    match value {
        Value::Nothing => None,
        Value::Whole(_) => None,
        Value::Scalar(scalar) => byte_of_scalar(scalar),
    }
}

fn byte_of_scalar(scalar: Scalar) -> Option<u8>
    ensures { result ≡ meaning.byte_of (with_structs []) (Some (plain.scalar (plain_scalar scalar))) }
{
    match scalar {
        Scalar::Number(number) => Some(byte_of(number)),
        Scalar::Pointer(_) => None,
    }
}

/// The low bits of a number, as an `unsigned char` (6.3.1.3).
pub fn byte_of(number: i128) -> u8
    ensures { result ≡ arithmetic.bits_of unsigned_char number }
{
    number.rem_euclid(256) as u8
}
