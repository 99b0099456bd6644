//! The structs of a core program (6.7.2.1).
ghost use Rattle.std.specs.Prelude.{◌≡◌, IfOk, map};
ghost use Rattle.c_types.specs.Types.{plain_type};
ghost use Rattle.c_types.specs.Tags.{plain_member};
ghost use Rattle.core_meaning.specs.Plain.{plain_layout};
ghost use Rattle.plain_scope.specs.PlainScope.{plain_struct};

use c_types::{CType, Member};
use cond_formula::NoMemory;
use core_meaning::Layout;
use plain_scope::{Struct, copied};
use std::alloc::Global;

fn member_types(alloc: Global, members: &[Member]) -> Result<Vec<CType>, NoMemory>
    ensures { IfOk result (λ types. map plain_type types.items ≡ map (λ m. m.ty) (map plain_member members.now)) }
{
    let mut types = Vec::with_capacity(alloc, members.len())?;
    for member in members {
        types.push(copied(alloc, &member.ty)?)?;
    }
    Ok(types)
}

fn layout(alloc: Global, structure: &Struct) -> Result<Layout, NoMemory>
    ensures { IfOk result (λ layout. plain_layout layout ≡ map (λ m. m.ty) (plain_struct structure.now).members) }
{
    Ok(Layout {
        members: member_types(alloc, structure.members.as_slice())?,
    })
}

/// The structs by the types of their members.
pub fn layouts(alloc: Global, structs: &[Struct]) -> Result<Vec<Layout>, NoMemory>
    ensures { IfOk result (λ all. map plain_layout all.items ≡ map (λ s. map (λ m. m.ty) s.members) (map plain_struct structs.now)) }
{
    let mut all = Vec::with_capacity(alloc, structs.len())?;
    for structure in structs {
        all.push(layout(alloc, structure)?)?;
    }
    Ok(all)
}
