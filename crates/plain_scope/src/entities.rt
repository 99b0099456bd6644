//! What names stand for (6.2.1 to 6.2.3).
ghost use Rattle.std.specs.Prelude.{◌≡◌, ℕ, List, ◌||◌, false, option_map, slice_get, map, reverse, IfOk, OnOk};
ghost use Rattle.std.specs.Str.{bytes_eq};
ghost use Rattle.c_types.specs.Types.{plain_type};
ghost use Rattle.c_types.specs.Tags.{plain_member};
ghost use Rattle.core_meaning.specs.Entities as spec;
ghost use Rattle.core_meaning.specs.Typing as typing;
ghost use Rattle.plain_scope.specs.PlainScope.{plain_scope, plain_struct, plain_local, plain_block, uses_of};

use c_text::Token;
use c_types::{CType, Member};
use cond_formula::NoMemory;
use std::alloc::Global;
use std::collections::HashMap;

/// A struct of one of the units, by its number through all of them.
#[derive(Drop)]
pub struct Struct {
    pub name: Vec<u8>,
    pub members: Vec<Member>,
    /// The members' numbers.
    pub numbers: HashMap<Vec<u8>, u32>,
    pub complete: bool,
    /// How many scalars an object of the struct has; counts beyond the limit for objects are all the same.
    pub scalars: u64,
}

impl Struct {
    pub fn member(&self, number: u32) -> Option<&Member>
        ensures { option_map (λ m. plain_member m.now) result ≡ slice_get (plain_struct self.now).members number }
    {
        self.members.get(number as usize)
    }
}

/// A parameter or local.
#[derive(Drop)]
pub struct Local {
    pub slot: u32,
    pub ty: CType,
}

#[derive(Drop)]
pub struct Signature {
    pub result: CType,
    pub parameters: Vec<CType>,
}

#[derive(Drop)]
pub enum Sort {
    Variable(CType),
    Function(Signature),
}

/// A name of file scope.
#[derive(Drop)]
pub struct FileName {
    pub sort: Sort,
    /// It has internal linkage (6.2.2).
    pub internal: bool,
}

/// The numbers of a unit's names in the core program, and those of texts.
#[derive(Drop)]
pub struct Numbers {
    pub globals: HashMap<Vec<u8>, u32>,
    pub functions: HashMap<Vec<u8>, u32>,
}

/// What is visible at a place of a unit.
#[derive(Drop)]
pub struct Scope<'a> {
    pub structs: Vec<Struct>,
    /// The numbers of this unit's structs by their tags.
    pub tags: HashMap<Vec<u8>, u32>,
    pub file_names: HashMap<Vec<u8>, FileName>,
    /// The names of file scope in the order of their declarations.
    pub order: Vec<Vec<u8>>,
    /// The locals of each block, those of the innermost last.
    pub blocks: Vec<HashMap<Vec<u8>, Local>>,
    pub numbers: &'a Numbers,
    pub literals: &'a HashMap<Vec<u8>, u32>,
}

/// Names of file scope that expressions use.
#[derive(Drop)]
pub struct Used {
    pub names: HashMap<Vec<u8>, ()>,
}

impl Used {
    pub fn new(alloc: Global) -> Used
        ensures { (name : List ℕ) → uses_of result name ≡ false }
    {
        Used {
            names: HashMap::new(alloc),
        }
    }

    pub fn note(&mut self, alloc: Global, name: &Token) -> Result<(), NoMemory>
        ensures { OnOk result ((other : List ℕ) → uses_of self.new other ≡ (uses_of self.old other || bytes_eq name.now.text.items other)) }
    {
        self.names
            .insert(Vec::from_slice(alloc, name.text.as_slice())?, ())?;
        Ok(())
    }
}

/// A copy of a type.
#[tactic(auto, using(c_types::specs::TypeLaws::type_kinds))]
pub fn copied(alloc: Global, ty: &CType) -> Result<CType, NoMemory>
    ensures { IfOk result (λ copy. plain_type copy ≡ plain_type ty.now) }
{
    match ty {
        CType::Void => Ok(CType::Void),
        CType::Char => Ok(CType::Char),
        CType::UChar => Ok(CType::UChar),
        CType::Int => Ok(CType::Int),
        CType::UInt => Ok(CType::UInt),
        CType::Long => Ok(CType::Long),
        CType::ULong => Ok(CType::ULong),
        CType::Pointer(target) => Ok(CType::Pointer(Box::new(alloc, copied(alloc, target)?)?)),
        CType::Array(element, count) => Ok(CType::Array(
            Box::new(alloc, copied(alloc, element)?)?,
            *count,
        )),
        CType::Struct(number) => Ok(CType::Struct(*number)),
    }
}

/// What the innermost block that has a name has for it.
fn local_in<'b>(blocks: &'b [HashMap<Vec<u8>, Local>], name: &[u8]) -> Option<&'b Local>
    ensures { option_map (λ x. plain_local x.now) result ≡ spec.local_in (reverse (map plain_block blocks.now)) name.now }
{
    let Some((innermost, others)) = blocks.split_last() else {
        return None;
    };
    match innermost.get(name) {
        Some(found) => Some(found),
        None => local_in(others, name),
    }
}

impl<'a> Scope<'a> {
    pub fn local(&self, name: &[u8]) -> Option<&Local>
        ensures { option_map (λ x. plain_local x.now) result ≡ spec.local_in (plain_scope self.now).blocks name.now }
    {
        local_in(self.blocks.as_slice(), name)
    }

    pub fn struct_of(&self, number: u32) -> Option<&Struct>
        ensures { option_map (λ s. plain_struct s.now) result ≡ slice_get (plain_scope self.now).structs number }
    {
        self.structs.get(number as usize)
    }

    /// Whether a type is complete (6.2.5).
    #[tactic(auto, using(c_types::specs::TypeLaws::type_kinds))]
    pub fn is_complete(&self, ty: &CType) -> bool
        ensures { result ≡ typing.is_complete (plain_scope self.now).structs (plain_type ty.now) }
    {
        match ty {
            CType::Void => false,
            CType::Struct(number) => match self.struct_of(*number) {
                Some(found) => found.complete,
                None => false,
            },
            CType::Char
            | CType::UChar
            | CType::Int
            | CType::UInt
            | CType::Long
            | CType::ULong
            | CType::Pointer(_)
            | CType::Array(..) => true,
        }
    }
}
