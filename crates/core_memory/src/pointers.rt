//! Where pointers stand in living arrays, and how they move (6.5.6, 6.5.8, 6.5.9, 6.5.2.3).

ghost use Rattle.std.specs.Prelude.{◌≡◌, ◌+ℤ◌, ◌∷◌, pos, neg_ℤ, IfOk, map, option_map, option_and_then};
ghost use Rattle.c_types.specs.Types.{long};
ghost use Rattle.c_types.specs.Arithmetic.{binary_value};
ghost use Rattle.core_meaning.specs.Plain.{plain_layout};
ghost use Rattle.core_meaning.specs.Values as plain;
ghost use Rattle.core_meaning.specs.Memory as spec;
ghost use Rattle.core_cells.specs.Forms.{plain_path, plain_location, plain_pointer};
ghost use Rattle.core_cells.specs.Parts.{plain_stand};
ghost use Rattle.core_memory.specs.MemoryForms.{plain_object, plain_memory, structs_of};
ghost use Rattle.core_memory.specs.PointerForms.{index_number, with_step, object_stand, object_indices, together, indices_at, difference_of, order_of};

use crate::memory::{Memory, Object};
use c_types::{Arith, BinaryOp, CType, binary};
use cond_formula::NoMemory;
use core_cells::{Location, Pointer, Stand, Step, is_same_path, is_same_pointer, stand_of};
use core_meaning::Layout;
use std::alloc::Global;

/// Where two pointers stand in one array.
#[derive(Clone, Copy)]
pub struct Indices {
    pub first: u32,
    pub second: u32,
}

impl<'a> Object<'a> {
    fn stand<'b>(&self, structs: &[Layout], path: &'b [Step]) -> Option<Stand<'b>>
        ensures { option_map plain_stand result ≡ object_stand (map plain_layout structs.now) (plain_object self.now) (plain_path path.now) }
    {
        if self.lives {
            Some(stand_of(structs, self.ty, path))
        } else {
            None
        }
    }

    fn indices(&self, structs: &[Layout], first: &[Step], second: &[Step]) -> Option<Indices>
        ensures { result ≡ object_indices (map plain_layout structs.now) (plain_object self.now) (plain_path first.now) (plain_path second.now) }
    {
        if !self.lives {
            return None;
        }
        stands_together(
            stand_of(structs, self.ty, first),
            stand_of(structs, self.ty, second),
        )
    }
}

fn stands_together<'b>(first: Stand<'b>, second: Stand<'b>) -> Option<Indices>
    ensures { result ≡ indices_at (plain_stand first.entry) (plain_stand second.entry) }
{
    if is_same_path(first.array, second.array) {
        Some(Indices {
            first: first.index,
            second: second.index,
        })
    } else {
        None
    }
}

impl<'a> Memory<'a> {
    /// Where a pointer into a living object stands.
    pub fn stand<'b>(&self, location: &'b Location) -> Option<Stand<'b>>
        ensures { option_map plain_stand result ≡ object_stand (structs_of self.now) ((plain_memory self.now).object location.now.object) (plain_path location.now.path.items) }
    {
        match self.objects.get(location.object) {
            None => None,
            Some(object) => object.stand(self.structs, &location.path),
        }
    }

    /// A pointer moved over elements; None where that is undefined (6.5.6).
    pub fn moved(
        &self,
        alloc: Global,
        pointer: &Pointer,
        by: i128,
    ) -> Result<Option<Pointer>, NoMemory>
        ensures { IfOk result (λ p. option_map plain_pointer p ≡ spec.moved (structs_of self.now) (plain_memory self.now) (plain_pointer pointer.now) by) }
    {
        match pointer {
            Pointer::Null => Ok(None),
            Pointer::At(location) => {
                let moved = self.location_moved(alloc, location, by)?;
                Ok(moved)
            }
        }
    }

    fn location_moved(
        &self,
        alloc: Global,
        location: &Location,
        by: i128,
    ) -> Result<Option<Pointer>, NoMemory>
        ensures { IfOk result (λ p. option_map plain_pointer p ≡ spec.moved (structs_of self.now) (plain_memory self.now) (plain_location location.now) by) }
    {
        match self.stand(location) {
            None => Ok(None),
            Some(stand) => {
                let moved = element(alloc, location.object, stand, moved_index(stand, by))?;
                Ok(moved)
            }
        }
    }

    /// A pointer moved back over elements; None where that is undefined (6.5.6).
    pub fn moved_back(
        &self,
        alloc: Global,
        pointer: &Pointer,
        by: i128,
    ) -> Result<Option<Pointer>, NoMemory>
        ensures { IfOk result (λ p. option_map plain_pointer p ≡ spec.moved (structs_of self.now) (plain_memory self.now) (plain_pointer pointer.now) (neg_ℤ by)) }
    {
        match pointer {
            Pointer::Null => Ok(None),
            Pointer::At(location) => {
                let moved = self.location_moved_back(alloc, location, by)?;
                Ok(moved)
            }
        }
    }

    fn location_moved_back(
        &self,
        alloc: Global,
        location: &Location,
        by: i128,
    ) -> Result<Option<Pointer>, NoMemory>
        ensures { IfOk result (λ p. option_map plain_pointer p ≡ spec.moved (structs_of self.now) (plain_memory self.now) (plain_location location.now) (neg_ℤ by)) }
    {
        match self.stand(location) {
            None => Ok(None),
            Some(stand) => {
                let moved = element(alloc, location.object, stand, moved_back_index(stand, by))?;
                Ok(moved)
            }
        }
    }

    fn indices(&self, a: &Location, b: &Location) -> Option<Indices>
        ensures { result ≡ together (structs_of self.now) (plain_memory self.now) a.now.object (plain_path a.now.path.items) b.now.object (plain_path b.now.path.items) }
    {
        if a.object != b.object {
            return None;
        }
        match self.objects.get(a.object) {
            None => None,
            Some(object) => object.indices(self.structs, &a.path, &b.path),
        }
    }

    /// The difference of two pointers into one living array; None where that is undefined (6.5.6).
    pub fn distance(&self, a: &Pointer, b: &Pointer) -> Option<i128>
        ensures { result ≡ spec.distance (structs_of self.now) (plain_memory self.now) (plain_pointer a.now) (plain_pointer b.now) }
    {
        match a {
            Pointer::Null => None,
            Pointer::At(first) => match b {
                Pointer::Null => None,
                Pointer::At(second) => index_difference(self.indices(first, second)),
            },
        }
    }

    /// A comparison of two pointers; None where it is undefined (6.5.8, 6.5.9).
    pub fn compared(&self, op: BinaryOp, a: &Pointer, b: &Pointer) -> Option<i128>
        ensures { result ≡ spec.compared (structs_of self.now) op (plain_memory self.now) (plain_pointer a.now) (plain_pointer b.now) }
    {
        match op {
            BinaryOp::Eq => Some(i128::from(is_same_pointer(a, b))),
            BinaryOp::Ne => Some(i128::from(!is_same_pointer(a, b))),
            BinaryOp::Mul
            | BinaryOp::Div
            | BinaryOp::Rem
            | BinaryOp::Add
            | BinaryOp::Sub
            | BinaryOp::Shl
            | BinaryOp::Shr
            | BinaryOp::Lt
            | BinaryOp::Gt
            | BinaryOp::Le
            | BinaryOp::Ge
            | BinaryOp::BitAnd
            | BinaryOp::BitXor
            | BinaryOp::BitOr => self.ordered(op, a, b),
        }
    }

    fn ordered(&self, op: BinaryOp, a: &Pointer, b: &Pointer) -> Option<i128>
        ensures { result ≡ spec.ordered (structs_of self.now) op (plain_memory self.now) (plain_pointer a.now) (plain_pointer b.now) }
    {
        match a {
            Pointer::Null => None,
            Pointer::At(first) => match b {
                Pointer::Null => None,
                Pointer::At(second) => index_order(op, self.indices(first, second)),
            },
        }
    }

    /// The member with this number of what a pointer points to; None where that is undefined (6.5.2.3).
    pub fn member(&self, pointer: Pointer, number: u32) -> Result<Option<Pointer>, NoMemory>
        ensures { IfOk result (λ p. option_map plain_pointer p ≡ spec.member_at (plain_memory self.now) (plain_pointer pointer) number) }
    {
        match pointer {
            Pointer::Null => Ok(None),
            Pointer::At(location) => {
                if !self.lives(location.object) {
                    return Ok(None);
                }
                let member = part_of(location, number)?;
                Ok(Some(member))
            }
        }
    }
}

/// The first element of the array that a pointer points to; None for a null pointer (6.3.2.1).
pub fn first_element(pointer: Pointer) -> Result<Option<Pointer>, NoMemory>
    ensures { IfOk result (λ p. option_map plain_pointer p ≡ spec.first_at (plain_pointer pointer)) }
{
    match pointer {
        Pointer::Null => Ok(None),
        Pointer::At(location) => {
            let first = part_of(location, 0)?;
            Ok(Some(first))
        }
    }
}

#[tactic(auto, using(core_cells::specs::PartLaws::part_steps))]
fn part_of(location: Location, number: u32) -> Result<Pointer, NoMemory>
    ensures { IfOk result (λ p. plain_pointer p ≡ plain.at location.object (plain.part number ∷ plain_path location.path.items)) }
{
    let Location { object, mut path } = location;
    path.push(Step::Part(number))?;
    Ok(Pointer::At(Location { object, path }))
}

/// The index so many elements further on; None where it is neither in the array nor behind its end.
fn moved_index<'b>(stand: Stand<'b>, by: i128) -> Option<u32>
    ensures { result ≡ index_number (plain_stand stand.entry).count (pos (plain_stand stand.entry).index +ℤ by) }
{
    let count = i128::from(stand.count);
    let index = i128::from(stand.index);
    if by < -index {
        return None;
    }
    if by > count - index {
        return None;
    }
    Some((index + by) as u32)
}

/// The index so many elements before; None where it is neither in the array nor behind its end.
fn moved_back_index<'b>(stand: Stand<'b>, by: i128) -> Option<u32>
    ensures { result ≡ index_number (plain_stand stand.entry).count (pos (plain_stand stand.entry).index +ℤ neg_ℤ by) }
{
    let count = i128::from(stand.count);
    let index = i128::from(stand.index);
    if by > index || by < index - count {
        None
    } else {
        Some((index - by) as u32)
    }
}

/// The element with this number of the array in which a pointer stands.
pub fn element<'b>(
    alloc: Global,
    object: usize,
    stand: Stand<'b>,
    index: Option<u32>,
) -> Result<Option<Pointer>, NoMemory>
    ensures { IfOk result (λ p. option_map plain_pointer p ≡ option_map (plain.at object) (option_map (plain.element_path (plain_stand stand.entry)) index)) }
{
    match index {
        None => Ok(None),
        Some(index) => {
            let path = element_path(alloc, stand, index)?;
            Ok(Some(Pointer::At(Location { object, path })))
        }
    }
}

#[tactic(auto, using(core_cells::specs::PartLaws::part_steps))]
fn element_path<'b>(alloc: Global, stand: Stand<'b>, index: u32) -> Result<Vec<Step>, NoMemory>
    ensures { IfOk result (λ path. plain_path path.items ≡ plain.element_path (plain_stand stand.entry) index) }
{
    let mut path = Vec::from_slice(alloc, stand.array)?;
    match last_step(stand, index) {
        None => Ok(path),
        Some(step) => {
            path.push(step)?;
            Ok(path)
        }
    }
}

/// The step from an array to the element with this number.
#[tactic(auto, using(crate::proofs::PointerLemmas::lone_steps))]
fn last_step<'b>(stand: Stand<'b>, index: u32) -> Option<Step>
    ensures { with_step (plain_path stand.entry.array.now) result ≡ plain.element_path (plain_stand stand.entry) index }
{
    if !stand.alone {
        Some(Step::Part(index))
    } else if index == 0 {
        None
    } else {
        Some(Step::Behind)
    }
}

fn index_difference(indices: Option<Indices>) -> Option<i128>
    ensures { result ≡ option_map difference_of indices }
{
    match indices {
        None => None,
        Some(indices) => Some(i128::from(indices.first) - i128::from(indices.second)),
    }
}

fn index_order(op: BinaryOp, indices: Option<Indices>) -> Option<i128>
    ensures { result ≡ option_and_then (order_of op) indices }
{
    match indices {
        None => None,
        Some(indices) => defined_value(order(op, indices.first, indices.second)),
    }
}

#[tactic(auto, using(c_types::specs::TypeLaws::type_kinds))]
fn order(op: BinaryOp, first: u32, second: u32) -> Arith
    ensures { result ≡ binary_value op long (pos first) (pos second) }
{
    binary(op, &CType::Long, i128::from(first), i128::from(second))
}

pub fn defined_value(arith: Arith) -> Option<i128>
    ensures { result ≡ spec.defined_value arith }
{
    match arith {
        Arith::Value(number) => Some(number),
        Arith::Undefined => None,
    }
}
