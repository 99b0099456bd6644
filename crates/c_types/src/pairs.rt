//! Pairs of structs that two types need to be compatible.
ghost use Rattle.std.specs.Prelude.{◌≡◌, true, OnOk, IfOk, Some, map, option_map, slice_get};
ghost use Rattle.std.specs.List.{AllZip};
ghost use Rattle.c_types.specs.Types.{plain_type, pointer_to, array_of, structure};
ghost use Rattle.c_types.specs.Tags.{plain_member, plain_tag};
ghost use Rattle.c_types.specs.Compatible.{Agree, MemberAgrees, TagAgrees, FoundAgree, PairAgrees};
ghost use Rattle.c_types.specs.Pairs as spec;

use crate::integers::{is_signed, width};
use crate::types::{CType, Member, Tag};
use std::alloc::AllocError;

/// A struct of each of two tables, by their numbers.
#[derive(Clone, Copy, Debug, PartialEq)]
pub struct Pair {
    pub first: u32,
    pub second: u32,
}

/// What two types ask for to agree.
#[derive(Clone, Copy, Debug, PartialEq)]
pub enum Needs {
    Nothing,
    /// That these structs are compatible.
    Structs(Pair),
    Never,
}

#[tactic(auto, using(crate::specs::TypeLaws::type_kinds))]
fn is_basic(t: &CType) -> bool
    ensures { result ≡ spec.is_basic (plain_type t.now) }
{
    match t {
        CType::Void
        | CType::Char
        | CType::UChar
        | CType::Int
        | CType::UInt
        | CType::Long
        | CType::ULong => true,
        CType::Pointer(_) | CType::Array(_, _) | CType::Struct(_) => false,
    }
}

fn needed_by_basic(a: &CType, b: &CType) -> Needs
    requires { spec.is_basic (plain_type a.now) ≡ true }
    ensures { result ≡ spec.needed (plain_type a.now) (plain_type b.now) }
{
    if is_basic(b) && width(a) == width(b) && is_signed(a) == is_signed(b) {
        Needs::Nothing
    } else {
        Needs::Never
    }
}

#[cycle(needed)]
#[tactic(auto, using(crate::specs::TypeLaws::type_kinds))]
fn needed(a: &CType, b: &CType) -> Needs
    ensures { result ≡ spec.needed (plain_type a.now) (plain_type b.now) }
{
    match a {
        CType::Pointer(target) => needed_by_pointer(target, b),
        CType::Array(element, count) => needed_by_array(element, *count, b),
        CType::Struct(number) => needed_by_struct(*number, b),
        CType::Void
        | CType::Char
        | CType::UChar
        | CType::Int
        | CType::UInt
        | CType::Long
        | CType::ULong => needed_by_basic(a, b),
    }
}

#[cycle(needed)]
#[tactic(auto, using(crate::specs::TypeLaws::type_kinds))]
fn needed_by_pointer(target: &CType, b: &CType) -> Needs
    ensures { result ≡ spec.needed (pointer_to (plain_type target.now)) (plain_type b.now) }
{
    match b {
        CType::Pointer(other) => needed(target, other),
        CType::Void
        | CType::Char
        | CType::UChar
        | CType::Int
        | CType::UInt
        | CType::Long
        | CType::ULong
        | CType::Array(_, _)
        | CType::Struct(_) => Needs::Never,
    }
}

#[cycle(needed)]
#[tactic(auto, using(crate::specs::TypeLaws::type_kinds))]
fn needed_by_array(element: &CType, count: u32, b: &CType) -> Needs
    ensures { result ≡ spec.needed (array_of (plain_type element.now) count) (plain_type b.now) }
{
    match b {
        CType::Array(other, other_count) => {
            if count == *other_count {
                needed(element, other)
            } else {
                Needs::Never
            }
        }
        CType::Void
        | CType::Char
        | CType::UChar
        | CType::Int
        | CType::UInt
        | CType::Long
        | CType::ULong
        | CType::Pointer(_)
        | CType::Struct(_) => Needs::Never,
    }
}

#[tactic(auto, using(crate::specs::TypeLaws::type_kinds))]
fn needed_by_struct(number: u32, b: &CType) -> Needs
    ensures { result ≡ spec.needed (structure number) (plain_type b.now) }
{
    match b {
        CType::Struct(other) => Needs::Structs(Pair {
            first: number,
            second: *other,
        }),
        CType::Void
        | CType::Char
        | CType::UChar
        | CType::Int
        | CType::UInt
        | CType::Long
        | CType::ULong
        | CType::Pointer(_)
        | CType::Array(_, _) => Needs::Never,
    }
}

fn add(pair: Pair, found: &mut Vec<Pair>) -> Result<(), AllocError>
    ensures { OnOk result (spec.Adds pair found.old.items found.new.items) }
{
    if !found.contains(&pair) {
        found.push(pair)?;
    }
    Ok(())
}

/// Whether two types agree once the pair of structs that they need is noted.
pub fn agree(a: &CType, b: &CType, found: &mut Vec<Pair>) -> Result<bool, AllocError>
    ensures { IfOk result (λ agrees.
        spec.Notes (λ pairs. Agree pairs (plain_type a.now) (plain_type b.now)) found.old.items found.new.items agrees) }
{
    match needed(a, b) {
        Needs::Nothing => Ok(true),
        Needs::Structs(pair) => {
            add(pair, found)?;
            Ok(true)
        }
        Needs::Never => Ok(false),
    }
}

fn member_agrees(a: &Member, b: &Member, found: &mut Vec<Pair>) -> Result<bool, AllocError>
    ensures { IfOk result (λ agrees.
        spec.Notes (λ pairs. MemberAgrees pairs (plain_member a.now) (plain_member b.now)) found.old.items found.new.items agrees) }
{
    if a.name.as_slice() != b.name.as_slice() {
        return Ok(false);
    }
    Ok(agree(&a.ty, &b.ty, found)?)
}

fn members_agree(a: &[Member], b: &[Member], found: &mut Vec<Pair>) -> Result<bool, AllocError>
    ensures { IfOk result (λ agrees.
        spec.Notes (λ pairs. AllZip (MemberAgrees pairs) (map plain_member a.now) (map plain_member b.now))
        found.old.items found.new.items agrees) }
{
    if a.len() != b.len() {
        return Ok(false);
    }
    for i in 0..a.len() {
        if !member_agrees(&a[i], &b[i], found)? {
            return Ok(false);
        }
    }
    Ok(true)
}

fn tag_agrees(a: &Tag, b: &Tag, found: &mut Vec<Pair>) -> Result<bool, AllocError>
    ensures { IfOk result (λ agrees.
        spec.Notes (λ pairs. TagAgrees pairs (plain_tag a.now) (plain_tag b.now)) found.old.items found.new.items agrees) }
{
    if a.name.as_slice() != b.name.as_slice() {
        return Ok(false);
    }
    if !a.complete || !b.complete {
        return Ok(true);
    }
    Ok(members_agree(&a.members, &b.members, found)?)
}

/// The struct with a number, if there is one.
fn tag_of<'a>(tags: &'a [Tag], number: u32) -> Option<&'a Tag>
    ensures { option_map (λ tag. plain_tag tag.now) result ≡ slice_get (map plain_tag tags.now) number }
{
    tags.get(number as usize)
}

/// Whether a struct and the one with a number agree once the pairs that they need are noted.
fn numbered_agrees(
    a: &Tag,
    number: u32,
    second: &[Tag],
    found: &mut Vec<Pair>,
) -> Result<bool, AllocError>
    ensures { IfOk result (λ agrees.
        spec.Notes (λ pairs. FoundAgree pairs (Some (plain_tag a.now)) (slice_get (map plain_tag second.now) number))
        found.old.items found.new.items agrees) }
{
    match tag_of(second, number) {
        None => Ok(false),
        Some(b) => Ok(tag_agrees(a, b, found)?),
    }
}

/// Whether the structs of a pair agree once the pairs that they need are noted.
pub fn pair_agrees(
    pair: Pair,
    first: &[Tag],
    second: &[Tag],
    found: &mut Vec<Pair>,
) -> Result<bool, AllocError>
    ensures { IfOk result (λ agrees.
        spec.Notes (λ pairs. PairAgrees (map plain_tag first.now) (map plain_tag second.now) pairs pair)
        found.old.items found.new.items agrees) }
{
    match tag_of(first, pair.first) {
        None => Ok(false),
        Some(a) => Ok(numbered_agrees(a, pair.second, second, found)?),
    }
}
