//! The functions of the built-in headers.
ghost use Rattle.std.specs.Prelude.{◌≡◌, IfOk, option_map};
ghost use Rattle.c_types.specs.Types.{plain_type};
ghost use Rattle.core_meaning.specs.Entities.{function};
ghost use Rattle.core_meaning.specs.Linking as spec;
ghost use Rattle.plain_scope.specs.PlainScope.{plain_sort};
ghost use Rattle.plain_link.specs.Faults.{signature_sort};

use c_types::CType;
use cond_formula::NoMemory;
use core_meaning::BuiltIn;
use plain_scope::{Signature, Sort};
use std::alloc::Global;

pub fn built_in_named(name: &[u8]) -> Option<BuiltIn>
    ensures { result ≡ spec.built_in_named name.now }
{
    if name == b"putchar".as_slice() {
        Some(BuiltIn::Putchar)
    } else if name == b"getchar".as_slice() {
        Some(BuiltIn::Getchar)
    } else if name == b"puts".as_slice() {
        Some(BuiltIn::Puts)
    } else if name == b"exit".as_slice() {
        Some(BuiltIn::Exit)
    } else {
        None
    }
}

/// A function of a built-in header with one parameter, or none.
#[tactic(auto, using(c_types::specs::TypeLaws::type_kinds))]
fn signature(alloc: Global, returned: CType, parameter: Option<CType>) -> Result<Sort, NoMemory>
    ensures { IfOk result (λ sort. plain_sort sort ≡ signature_sort (plain_type returned) (option_map plain_type parameter)) }
{
    let mut parameters = Vec::new(alloc);
    if let Some(ty) = parameter {
        parameters.push(ty)?;
    }
    Ok(Sort::Function(Signature {
        result: returned,
        parameters,
    }))
}

#[tactic(auto, using(c_types::specs::TypeLaws::type_kinds))]
fn built_in_signature(alloc: Global, found: BuiltIn) -> Result<Sort, NoMemory>
    ensures { IfOk result (λ sort. plain_sort sort ≡ function (spec.built_in_signature found)) }
{
    match found {
        BuiltIn::Putchar => {
            let sort = signature(alloc, CType::Int, Some(CType::Int))?;
            Ok(sort)
        }
        BuiltIn::Getchar => {
            let sort = signature(alloc, CType::Int, None)?;
            Ok(sort)
        }
        BuiltIn::Puts => {
            let text = CType::Pointer(Box::new(alloc, CType::Char)?);
            let sort = signature(alloc, CType::Int, Some(text))?;
            Ok(sort)
        }
        BuiltIn::Exit => {
            let sort = signature(alloc, CType::Void, Some(CType::Int))?;
            Ok(sort)
        }
    }
}

/// What the built-in headers declare a name as.
pub fn built_in_sort(alloc: Global, name: &[u8]) -> Result<Option<Sort>, NoMemory>
    ensures { IfOk result (λ sort. option_map plain_sort sort ≡ spec.built_in_sort name.now) }
{
    match built_in_named(name) {
        None => Ok(None),
        Some(found) => {
            let sort = built_in_signature(alloc, found)?;
            Ok(Some(sort))
        }
    }
}
