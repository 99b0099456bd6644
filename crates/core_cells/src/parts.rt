//! The types of the parts of objects, and where pointers stand in arrays (6.5.6).
ghost use Rattle.std.specs.Prelude.{◌≡◌, ◌∷◌, ◌++◌, [], map, option_map, nat_lt, true};
ghost use Rattle.std.specs.Option.{option_copied};
ghost use Rattle.c_types.specs.Types.{plain_type, structure};
ghost use Rattle.core_meaning.specs.Plain.{plain_layout};
ghost use Rattle.core_meaning.specs.Values as plain;
ghost use Rattle.core_cells.specs.Forms.{plain_path, plain_scalar};
ghost use Rattle.core_cells.specs.Parts.{type_or_void, zero_if_scalar, plain_stand};

use crate::values::{Pointer, Scalar, Step};
use c_types::CType;
use core_meaning::Layout;

/// How many parts what has this type has.
#[tactic(auto, using(crate::specs::PartLaws::part_steps))]
pub fn part_count(structs: &[Layout], ty: &CType) -> usize
    ensures { result ≡ plain.part_count (map plain_layout structs.now) (plain_type ty.now) }
{
    match ty {
        CType::Array(_, count) => *count as usize,
        CType::Struct(number) => member_count(structs, *number),
        CType::Void
        | CType::Char
        | CType::UChar
        | CType::Int
        | CType::UInt
        | CType::Long
        | CType::ULong
        | CType::Pointer(_) => 0,
    }
}

#[tactic(auto, using(crate::specs::PartLaws::part_steps))]
fn member_count(structs: &[Layout], number: u32) -> usize
    ensures { result ≡ plain.part_count (map plain_layout structs.now) (structure number) }
{
    match structs.get(number as usize) {
        None => 0,
        Some(layout) => layout.members.len(),
    }
}

/// The type of a part; none is the same as `void`.
#[tactic(auto, using(crate::specs::PartLaws::part_steps))]
pub fn part_type<'a>(structs: &'a [Layout], ty: &'a CType, number: u32) -> Option<&'a CType>
    ensures { type_or_void (option_copied result) ≡ plain.part_type (map plain_layout structs.now) (plain_type ty.now) number }
{
    match ty {
        CType::Array(element, _) => Some(element),
        CType::Struct(tag) => member_type(structs, *tag, number),
        CType::Void
        | CType::Char
        | CType::UChar
        | CType::Int
        | CType::UInt
        | CType::Long
        | CType::ULong
        | CType::Pointer(_) => None,
    }
}

#[tactic(auto, using(crate::specs::PartLaws::part_steps))]
fn member_type<'a>(structs: &'a [Layout], tag: u32, number: u32) -> Option<&'a CType>
    ensures { type_or_void (option_copied result) ≡ plain.part_type (map plain_layout structs.now) (structure tag) number }
{
    match structs.get(tag as usize) {
        None => None,
        Some(layout) => layout.members.get(number as usize),
    }
}

/// The type of what the path leads to.
#[tactic(auto, using(crate::specs::PartLaws::part_steps))]
pub fn type_at<'a>(structs: &'a [Layout], ty: &'a CType, path: &[Step]) -> Option<&'a CType>
    ensures { type_or_void (option_copied result) ≡ plain.type_at (map plain_layout structs.now) (plain_type ty.now) (plain_path path.now) }
{
    match path.split_last() {
        None => Some(ty),
        Some((Step::Behind, outer)) => type_at(structs, ty, outer),
        Some((Step::Part(number), outer)) => match type_at(structs, ty, outer) {
            None => None,
            Some(inner) => part_type(structs, inner, *number),
        },
    }
}

/// Whether the path leads to the object or a part of it, and not behind one.
#[tactic(auto, using(crate::specs::PartLaws::part_steps))]
pub fn is_inside(structs: &[Layout], ty: &CType, path: &[Step]) -> bool
    ensures { result ≡ plain.is_inside (map plain_layout structs.now) (plain_type ty.now) (plain_path path.now) }
{
    match path.split_last() {
        None => true,
        Some((Step::Behind, _)) => false,
        Some((Step::Part(number), outer)) => {
            is_inside(structs, ty, outer) && has_part(structs, ty, outer, *number)
        }
    }
}

/// Whether what the path leads to has a part with this number.
#[tactic(auto, using(crate::specs::PartLaws::part_steps))]
fn has_part(structs: &[Layout], ty: &CType, path: &[Step], number: u32) -> bool
    ensures { result ≡ nat_lt number (plain.part_count (map plain_layout structs.now) (plain.type_at (map plain_layout structs.now) (plain_type ty.now) (plain_path path.now))) }
{
    match type_at(structs, ty, path) {
        None => false,
        Some(inner) => (number as usize) < part_count(structs, inner),
    }
}

#[tactic(auto, using(crate::specs::PartLaws::part_steps))]
pub fn is_scalar(ty: Option<&CType>) -> bool
    ensures { result ≡ plain.is_scalar (type_or_void (option_copied ty.entry)) }
{
    match ty {
        None => false,
        Some(ty) => is_scalar_type(ty),
    }
}

#[tactic(auto, using(crate::specs::PartLaws::part_steps))]
fn is_scalar_type(ty: &CType) -> bool
    ensures { result ≡ plain.is_scalar (plain_type ty.now) }
{
    match ty {
        CType::Void | CType::Array(_, _) | CType::Struct(_) => false,
        CType::Char
        | CType::UChar
        | CType::Int
        | CType::UInt
        | CType::Long
        | CType::ULong
        | CType::Pointer(_) => true,
    }
}

/// The zero of a scalar type.
#[tactic(auto, using(crate::specs::PartLaws::part_steps))]
pub fn zero(ty: &CType) -> Option<Scalar>
    ensures { option_map plain_scalar result ≡ zero_if_scalar (plain_type ty.now) }
{
    match ty {
        CType::Void | CType::Array(_, _) | CType::Struct(_) => None,
        CType::Pointer(_) => Some(Scalar::Pointer(Pointer::Null)),
        CType::Char | CType::UChar | CType::Int | CType::UInt | CType::Long | CType::ULong => {
            Some(Scalar::Number(0))
        }
    }
}

/// Where a pointer stands: in an array of so many elements, which this path leads to, or alone.
#[derive(Clone, Copy)]
pub struct Stand<'b> {
    pub array: &'b [Step],
    pub alone: bool,
    pub count: u32,
    pub index: u32,
}

/// Where the pointer stands that leads along a path into an object of a type (6.5.6).
#[tactic(auto, using(crate::specs::PartLaws::part_steps))]
pub fn stand_of<'b>(structs: &[Layout], ty: &CType, path: &'b [Step]) -> Stand<'b>
    ensures { plain_stand result ≡ plain.stand_of (map plain_layout structs.now) (plain_type ty.now) (plain_path path.now) }
{
    match path.split_last() {
        None => alone(path, 0),
        Some((Step::Behind, outer)) => alone(outer, 1),
        Some((Step::Part(number), outer)) => part_stand(structs, ty, path, outer, *number),
    }
}

/// Where the part with this number of what the outer path leads to stands.
#[tactic(auto, using(crate::specs::PartLaws::part_steps))]
fn part_stand<'b>(
    structs: &[Layout],
    ty: &CType,
    path: &'b [Step],
    outer: &'b [Step],
    number: u32,
) -> Stand<'b>
    requires { path.now ≡ outer.now ++ Step.Part number ∷ [] }
    ensures { plain_stand result ≡ plain.part_stand (plain.type_at (map plain_layout structs.now) (plain_type ty.now) (plain_path outer.now)) (plain_path outer.now) number }
{
    match type_at(structs, ty, outer) {
        None => alone(path, 0),
        Some(inner) => stand_by_type(inner, path, outer, number),
    }
}

#[tactic(auto, using(crate::specs::PartLaws::part_steps))]
fn stand_by_type<'b>(ty: &CType, path: &'b [Step], outer: &'b [Step], number: u32) -> Stand<'b>
    requires { path.now ≡ outer.now ++ Step.Part number ∷ [] }
    ensures { plain_stand result ≡ plain.part_stand (plain_type ty.now) (plain_path outer.now) number }
{
    match ty {
        CType::Array(_, count) => Stand {
            array: outer,
            alone: false,
            count: *count,
            index: number,
        },
        CType::Void
        | CType::Char
        | CType::UChar
        | CType::Int
        | CType::UInt
        | CType::Long
        | CType::ULong
        | CType::Pointer(_)
        | CType::Struct(_) => alone(path, 0),
    }
}

fn alone<'b>(array: &'b [Step], index: u32) -> Stand<'b>
    ensures { plain_stand result ≡ plain.lone_stand (plain_path array.now) index }
{
    Stand {
        array,
        alone: true,
        count: 1,
        index,
    }
}
