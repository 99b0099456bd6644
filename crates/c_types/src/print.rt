//! How types are printed.
ghost use Rattle.std.specs.Prelude.{◌≡◌, ◌++◌, ◌<◌, length, vec_len, IfOk, OnOk, map, slice_get};
ghost use Rattle.c_types.specs.Types.{plain_type};
ghost use Rattle.c_types.specs.Tags.{plain_tag, plain_tags, NamesBelow};
ghost use Rattle.c_types.specs.Printed as spec;

use crate::types::{CType, Tag, TagTable};
use std::alloc::{AllocError, Global};

/// A declaration of the name, as `int *k` (6.7), without what would follow it: the base, a blank, the stars and the name. An
/// empty name leaves the type alone, as types are put in order by it.
pub fn print_type(
    alloc: Global,
    t: &CType,
    tags: &TagTable,
    name: &[u8],
) -> Result<Vec<u8>, AllocError>
    requires numbered { NamesBelow (vec_len tags.now.tags) (plain_type t.now) }
    requires no_array { spec.HasNoArray (plain_type t.now) }
    ensures { IfOk result (λ text. text.items ≡ spec.printed (plain_tags tags.now) (plain_type t.now) name.now) }
{
    let mut text = Vec::new(alloc);
    write_base(behind_pointers(t), &tags.tags, &mut text)?;
    text.push(b' ')?;
    write_stars(t, &mut text)?;
    text.extend_from_slice(name)?;
    Ok(text)
}

#[tactic(auto, using(crate::specs::TypeLaws::type_kinds))]
fn behind_pointers<'a>(t: &'a CType) -> &'a CType
    ensures { plain_type result.now ≡ spec.behind_pointers (plain_type t.now) }
{
    match t {
        CType::Pointer(target) => behind_pointers(target),
        CType::Void
        | CType::Char
        | CType::UChar
        | CType::Int
        | CType::UInt
        | CType::Long
        | CType::ULong
        | CType::Array(_, _)
        | CType::Struct(_) => t,
    }
}

#[tactic(auto, using(crate::proofs::TypeSteps::type_steps))]
fn write_stars(t: &CType, text: &mut Vec<u8>) -> Result<(), AllocError>
    ensures { OnOk result (text.new.items ≡ text.old.items ++ spec.stars (plain_type t.now)) }
{
    match t {
        CType::Pointer(target) => {
            text.push(b'*')?;
            write_stars(target, text)?;
            Ok(())
        }
        CType::Void
        | CType::Char
        | CType::UChar
        | CType::Int
        | CType::UInt
        | CType::Long
        | CType::ULong
        | CType::Array(_, _)
        | CType::Struct(_) => Ok(()),
    }
}

#[tactic(auto, using(crate::specs::TypeLaws::type_kinds))]
fn words(t: &CType) -> &'static [u8]
    ensures { result.now ≡ spec.words (plain_type t.now) }
{
    match t {
        CType::Void => b"void",
        CType::Char => b"char",
        CType::UChar => b"unsigned char",
        CType::Int => b"int",
        CType::UInt => b"unsigned int",
        CType::Long => b"long",
        CType::ULong => b"unsigned long",
        CType::Struct(_) => b"struct ",
        CType::Pointer(_) | CType::Array(_, _) => b"",
    }
}

fn name_of<'a>(tags: &'a [Tag], number: u32) -> &'a [u8]
    requires { number < length tags.now }
    ensures { result.now ≡ spec.name_of (slice_get (map plain_tag tags.now) number) }
{
    tags[number as usize].name.as_slice()
}

#[tactic(auto, using(crate::specs::TypeLaws::type_kinds))]
fn tag_name<'a>(t: &CType, tags: &'a [Tag]) -> &'a [u8]
    requires { NamesBelow (length tags.now) (plain_type t.now) }
    ensures { result.now ≡ spec.tag_name (map plain_tag tags.now) (plain_type t.now) }
{
    match t {
        CType::Struct(number) => name_of(tags, *number),
        CType::Void
        | CType::Char
        | CType::UChar
        | CType::Int
        | CType::UInt
        | CType::Long
        | CType::ULong
        | CType::Pointer(_)
        | CType::Array(_, _) => b"",
    }
}

fn write_base(t: &CType, tags: &[Tag], text: &mut Vec<u8>) -> Result<(), AllocError>
    requires { NamesBelow (length tags.now) (plain_type t.now) }
    ensures { OnOk result (text.new.items ≡ text.old.items ++ spec.base (map plain_tag tags.now) (plain_type t.now)) }
{
    text.extend_from_slice(words(t))?;
    text.extend_from_slice(tag_name(t, tags))?;
    Ok(())
}
