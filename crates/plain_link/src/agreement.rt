//! Declarations whose types are compatible (6.2.7).
ghost use Rattle.std.specs.Prelude.{◌≡◌, ◌↔◌, IsTrue, IfOk, map};
ghost use Rattle.std.specs.List.{AllZip};
ghost use Rattle.c_types.specs.Types.{plain_type};
ghost use Rattle.c_types.specs.Tags.{plain_member, plain_tag, plain_tags};
ghost use Rattle.core_meaning.specs.Entities.{tags_of, function};
ghost use Rattle.core_meaning.specs.Linking as spec;
ghost use Rattle.plain_scope.specs.PlainScope.{plain_signature, plain_sort, plain_struct};
ghost use Rattle.plain_link.specs.Faults.{tag_of};

use c_types::{CType, Member, Tag, TagTable, compatible};
use cond_formula::NoMemory;
use plain_scope::{Signature, Sort, Struct, copied};
use std::alloc::Global;

fn member_copied(alloc: Global, m: &Member) -> Result<Member, NoMemory>
    ensures { IfOk result (λ copy. plain_member copy ≡ plain_member m.now) }
{
    Ok(Member {
        name: Vec::from_slice(alloc, m.name.as_slice())?,
        ty: copied(alloc, &m.ty)?,
    })
}

fn members_copied(alloc: Global, members: &[Member]) -> Result<Vec<Member>, NoMemory>
    ensures { IfOk result (λ copies. map plain_member copies.items ≡ map plain_member members.now) }
{
    let mut copies = Vec::with_capacity(alloc, members.len())?;
    for m in members {
        copies.push(member_copied(alloc, m)?)?;
    }
    Ok(copies)
}

fn tag(alloc: Global, s: &Struct) -> Result<Tag, NoMemory>
    ensures { IfOk result (λ tag. plain_tag tag ≡ tag_of (plain_struct s.now)) }
{
    Ok(Tag {
        name: Vec::from_slice(alloc, s.name.as_slice())?,
        members: members_copied(alloc, s.members.as_slice())?,
        complete: s.complete,
    })
}

/// The structs as a table of tags.
pub fn table(alloc: Global, structs: &[Struct]) -> Result<TagTable, NoMemory>
    ensures { IfOk result (λ table. plain_tags table ≡ tags_of (map plain_struct structs.now)) }
{
    let mut tags = Vec::with_capacity(alloc, structs.len())?;
    for s in structs {
        tags.push(tag(alloc, s)?)?;
    }
    Ok(TagTable { tags })
}

fn parameters_agree(
    alloc: Global,
    a: &[CType],
    b: &[CType],
    tags: &TagTable,
) -> Result<bool, NoMemory>
    ensures { IfOk result (λ agree.
        IsTrue agree ↔ AllZip (spec.TypesAgree (plain_tags tags.now)) (map plain_type a.now) (map plain_type b.now)) }
{
    if a.len() != b.len() {
        return Ok(false);
    }
    for i in 0..a.len() {
        if !compatible(alloc, &a[i], &b[i], tags, tags)? {
            return Ok(false);
        }
    }
    Ok(true)
}

fn signatures_agree(
    alloc: Global,
    f: &Signature,
    g: &Signature,
    tags: &TagTable,
) -> Result<bool, NoMemory>
    ensures { IfOk result (λ agree.
        IsTrue agree ↔ spec.SortsAgree (plain_tags tags.now) (function (plain_signature f.now)) (function (plain_signature g.now))) }
{
    if !compatible(alloc, &f.result, &g.result, tags, tags)? {
        return Ok(false);
    }
    let agree = parameters_agree(
        alloc,
        f.parameters.as_slice(),
        g.parameters.as_slice(),
        tags,
    )?;
    Ok(agree)
}

pub fn sorts_agree(alloc: Global, a: &Sort, b: &Sort, tags: &TagTable) -> Result<bool, NoMemory>
    ensures { IfOk result (λ agree. IsTrue agree ↔ spec.SortsAgree (plain_tags tags.now) (plain_sort a.now) (plain_sort b.now)) }
{
    match (a, b) {
        (Sort::Variable(a), Sort::Variable(b)) => {
            let agree = compatible(alloc, a, b, tags, tags)?;
            Ok(agree)
        }
        (Sort::Function(f), Sort::Function(g)) => {
            let agree = signatures_agree(alloc, f, g, tags)?;
            Ok(agree)
        }
        (Sort::Variable(_), Sort::Function(_)) => Ok(false),
        (Sort::Function(_), Sort::Variable(_)) => Ok(false),
    }
}
