//! The functions of the built-in headers, as declarations in all configurations.
ghost use Rattle.std.specs.Prelude.{◌≡◌, ℕ, Bool, Some, IfOk, option_map};
ghost use Rattle.c_types.specs.Types.{plain_type};
ghost use Rattle.core_meaning.specs.Entities.{function};
ghost use Rattle.core_meaning.specs.Linking as spec;
ghost use Rattle.plain_link.specs.Faults.{signature_sort};
ghost use Rattle.type_tables.specs.Seen.{signature_of};

use c_types::CType;
use cond_formula::{Formula, NoMemory};
use conditional::CondList;
use core_meaning::BuiltIn;
use plain_link::built_in_named;
use std::alloc::Global;
use type_tables::{CondSignature, DeclaredType};

/// A function with one parameter, or none.
#[tactic(auto, using(c_types::specs::TypeLaws::type_kinds, cond_formula::specs::ConditionLaws::formula_kinds))]
fn signature(
    alloc: Global,
    returned: CType,
    parameter: Option<CType>,
) -> Result<CondSignature, NoMemory>
    ensures { IfOk result (λ f. (on : ℕ → Bool) → function (signature_of on (Some f)) ≡ signature_sort (plain_type returned) (option_map plain_type parameter)) }
{
    let mut parameters = CondList::empty(alloc);
    if let Some(ty) = parameter {
        parameters.push(Formula::True, DeclaredType { ty })?;
    }
    Ok(CondSignature {
        result: returned,
        parameters,
    })
}

#[tactic(auto, using(c_types::specs::TypeLaws::type_kinds))]
fn built_in_signature(alloc: Global, found: BuiltIn) -> Result<CondSignature, NoMemory>
    ensures { IfOk result (λ f. (on : ℕ → Bool) → function (signature_of on (Some f)) ≡ function (spec.built_in_signature found)) }
{
    match found {
        BuiltIn::Putchar => {
            let f = signature(alloc, CType::Int, Some(CType::Int))?;
            Ok(f)
        }
        BuiltIn::Getchar => {
            let f = signature(alloc, CType::Int, None)?;
            Ok(f)
        }
        BuiltIn::Puts => {
            let text = CType::Pointer(Box::new(alloc, CType::Char)?);
            let f = signature(alloc, CType::Int, Some(text))?;
            Ok(f)
        }
        BuiltIn::Exit => {
            let f = signature(alloc, CType::Void, Some(CType::Int))?;
            Ok(f)
        }
    }
}

/// The function that the built-in headers declare by this name.
pub(crate) fn declared_by_header(
    alloc: Global,
    name: &[u8],
) -> Result<Option<CondSignature>, NoMemory>
    ensures { IfOk result (λ f. (on : ℕ → Bool) → option_map (λ g. function (signature_of on (Some g))) f ≡ spec.built_in_sort name.now) }
{
    match built_in_named(name) {
        None => Ok(None),
        Some(found) => {
            let f = built_in_signature(alloc, found)?;
            Ok(Some(f))
        }
    }
}
